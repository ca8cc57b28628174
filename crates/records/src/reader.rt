// A record read as bits: a two-byte mark and two binary64 numbers, the lowest byte first.
ghost use Rattle.std.specs.Prelude.{◌≡◌};
ghost use Rattle.records.specs.Record.{numbers_of, of_fluid, marked_of, record_of};

use crate::mark::carries_numbers;
use crate::{Kind, RECORD_LENGTH, Record};
use fluids::{Fluid, fluid_lettered};
use refusals::Refusal;
use words::word;

// The two numbers after the mark, eight bytes each: where their length is in sight, no byte is tested for being there. Of a no-reading
// record none is looked at.
fn numbers(kind: Kind, fluid: Fluid, s: &[u8; RECORD_LENGTH]) -> Record
    ensures { result ≡ numbers_of kind fluid s.now }
{
    let (first, second) = if carries_numbers(kind) {
        (word(&s[2..10]), word(&s[10..18]))
    } else {
        (0, 0)
    };
    Record {
        kind,
        fluid,
        first,
        second,
    }
}

// The mark's second letter says what they are.
fn of_fluid(fluid: Fluid, s: &[u8; RECORD_LENGTH]) -> Result<Record, Refusal>
    ensures { result ≡ of_fluid fluid s.now }
{
    let kind = Kind::try_from(u32::from(s[1]))?;
    Ok(numbers(kind, fluid, s))
}

// The mark's first letter says of which fluid they are.
fn marked(s: &[u8; RECORD_LENGTH]) -> Result<Record, Refusal>
    ensures { result ≡ marked_of s.now }
{
    match fluid_lettered(s[0]) {
        Some(fluid) => of_fluid(fluid, s),
        None => Err(Refusal::UnknownMark),
    }
}

// The record that the bytes are: the length first, 15, then the mark, 14.
pub fn read(s: &[u8]) -> Result<Record, Refusal>
    ensures { result ≡ record_of s.now }
{
    match <&[u8; RECORD_LENGTH]>::try_from(s) {
        Ok(whole) => marked(whole),
        Err(_) => Err(Refusal::CutShort),
    }
}
