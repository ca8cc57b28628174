// The second letter of a mark: what the two numbers of a record are. The first, which says of which fluid they are, is the fluid's own.
ghost use Rattle.std.specs.Prelude.{◌≡◌};
ghost use Rattle.records.specs.Record.{kind_letter, kind_lettered, carries_numbers};

use crate::Kind;
use refusals::Refusal;

// The letter of a kind.
impl From<Kind> for u8 {
    ghost from_gives = { λ kind letter. letter ≡ kind_letter kind };

    #[tactic(auto, unfolding(crate::specs::Record::kind_letter))]
    fn from(kind: Kind) -> u8 {
        match kind {
            Kind::Density => b'D',
            Kind::FromBelow => b'B',
            Kind::FromAbove => b'A',
            Kind::NoSide => b'P',
            Kind::NoReading => b'N',
        }
    }
}

// The kind by the code of its letter: another is 14.
impl TryFrom<u32> for Kind {
    type Error = Refusal;

    ghost try_from_gives = { λ letter lettered. lettered ≡ kind_lettered letter };

    fn try_from(letter: u32) -> Result<Kind, Refusal> {
        match letter {
            // D, B, A, P, N
            68 => Ok(Kind::Density),
            66 => Ok(Kind::FromBelow),
            65 => Ok(Kind::FromAbove),
            80 => Ok(Kind::NoSide),
            78 => Ok(Kind::NoReading),
            _ => Err(Refusal::UnknownMark),
        }
    }
}

// Whether a record of the kind carries numbers.
pub(crate) fn carries_numbers(kind: Kind) -> bool
    ensures { result ≡ carries_numbers kind }
{
    kind != Kind::NoReading
}
