// 01, "Marked records", and 02, M-103: a record of 18 bytes read as bits and written from them, and the records of a run of bytes.
#![tactic(auto)]

mod mark;
mod reader;
mod run;
mod writer;

use fluids::Fluid;
pub use reader::read;
pub use run::{record_at, record_count};
pub use writer::put_record;

// How many bytes a record has.
pub const RECORD_LENGTH: usize = 18;

// What the two numbers of a record are: the second letter of its mark.
#[derive(Clone, Copy, Debug, PartialEq, Eq)]
pub enum Kind {
    // D: temperature and density
    Density,
    // B and A: temperature and pressure, from below and from above
    FromBelow,
    FromAbove,
    // P: temperature and pressure with no side given
    NoSide,
    // N: no reading, and no numbers
    NoReading,
}

// A record as it was read: its mark, by the second letter and the first, and two numbers as bits; of a no-reading record, which carries none,
// zeros.
#[derive(Clone, Copy, Debug, PartialEq, Eq)]
pub struct Record {
    pub kind: Kind,
    pub fluid: Fluid,
    pub first: u64,
    pub second: u64,
}
