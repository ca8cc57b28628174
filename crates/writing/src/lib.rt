// 02, M-103: writing records: 18 bytes at a place of a lent buffer, from a kind, a fluid and two numbers given as their 64 bits.
#![tactic(auto)]

ghost use Rattle.std.specs.Prelude.{◌≡◌, leb, ◌+◌};
ghost use Rattle.refusals.specs.Code.{answer_code_of};
ghost use Rattle.writing.specs.Write.{written_at, written_of, write_of};

use fluids::Fluid;
use records::{Kind, RECORD_LENGTH, put_record};
use refusals::Refusal;

// Whether 18 bytes have room at the place of so many; place + 18 might pass 2⁶⁴.
fn fits(place: usize, room: usize) -> bool
    ensures { result ≡ leb (place + 18) room }
{
    RECORD_LENGTH <= room && place <= room - RECORD_LENGTH
}

// 7 where there is no room at the place.
fn write_at(
    kind: Kind,
    fluid: Fluid,
    first: u64,
    second: u64,
    buffer: &mut [u8],
    place: usize,
) -> Result<(), Refusal>
    ensures { (answer_code_of result, buffer.new) ≡ written_at kind fluid first second buffer.old place }
{
    if !fits(place, buffer.len()) {
        return Err(Refusal::TooShort);
    }
    put_record(kind, fluid, first, second, &mut buffer[place..]);
    Ok(())
}

// 17 where no fluid has the number.
#[tactic(auto, unfolding(crate::specs::Write::written_of))]
fn write_of(
    kind: Kind,
    fluid: u32,
    first: u64,
    second: u64,
    buffer: &mut [u8],
    place: usize,
) -> Result<(), Refusal>
    ensures { (answer_code_of result, buffer.new) ≡ written_of kind fluid first second buffer.old place }
{
    let known = Fluid::try_from(fluid)?;
    write_at(kind, known, first, second, buffer, place)
}

// The arguments are those of the call from C. Kind and fluid are numbers: any may be asked, and 14 and 17 are answers that are promised (definition
// `write_of`); the enums are made within. The buffer is lent, and any place of it may be asked.

// Writes the record of a kind, a fluid and two numbers' bits into the 18 bytes of buffer from place on, its other bytes as they were. The kind is the
// code of the mark's second letter, D, B, A, P or N; a no-reading record (N) gets sixteen zero bytes, whatever bits are handed over. Or 14 for another
// kind, then 17 where no fluid has the number, then 7 where 18 bytes have no room there; and the whole buffer is as it was.
pub fn write(
    kind: u32,
    fluid: u32,
    first: u64,
    second: u64,
    buffer: &mut [u8],
    place: usize,
) -> Result<(), Refusal>
    ensures { (answer_code_of result, buffer.new) ≡ write_of kind fluid first second buffer.old place }
{
    let known = Kind::try_from(kind)?;
    write_of(known, fluid, first, second, buffer, place)
}
