// A record written from bits: a two-byte mark and two binary64 numbers, the lowest byte first.
ghost use Rattle.std.specs.Prelude.{◌≡◌, ◌++◌, ◌≤◌, length, drop};
ghost use Rattle.words.specs.Word.{bytes_of};
ghost use Rattle.records.specs.Record.{mark_of, carried, with_record};

use crate::mark::carries_numbers;
use crate::{Kind, RECORD_LENGTH};
use fluids::{Fluid, letter};
use words::put_word;

// The word that a record of the kind has for w: 0 where it carries no numbers.
#[tactic(auto, unfolding(crate::specs::Record::carried))]
fn word_carried(kind: Kind, w: u64) -> u64
    ensures { result ≡ carried kind w }
{
    if carries_numbers(kind) { w } else { 0 }
}

// The two letters into the first two places.
#[tactic(auto, unfolding(crate::specs::Record::mark_of))]
fn put_mark(kind: Kind, fluid: Fluid, out: &mut [u8])
    requires { 2 ≤ length out.old }
    ensures { out.new ≡ mark_of kind fluid ++ drop 2 out.old }
{
    out[0] = letter(fluid);
    out[1] = u8::from(kind);
}

// The two words' bytes into the first sixteen places. Not into an array of sixteen, nor the mark into one of two: both go into the lent output, whose
// rest stays as it was.
fn put_words(first: u64, second: u64, out: &mut [u8])
    requires { 16 ≤ length out.old }
    ensures { out.new ≡ (bytes_of first ++ bytes_of second) ++ drop 16 out.old }
{
    put_word(out, first);
    put_word(&mut out[8..], second);
}

// The record's 18 bytes into the first 18 places; a shorter slice is left as it is. The parts are taken one by one, as C hands them over; a `Record`
// would first have to be built of them.
pub fn put_record(kind: Kind, fluid: Fluid, first: u64, second: u64, out: &mut [u8])
    ensures { out.new ≡ with_record kind fluid first second out.old }
{
    if out.len() < RECORD_LENGTH {
        return;
    }
    let x = word_carried(kind, first);
    let y = word_carried(kind, second);
    put_mark(kind, fluid, out);
    put_words(x, y, &mut out[2..]);
}
