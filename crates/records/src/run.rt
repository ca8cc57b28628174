// A run of records, one after the other; a piece that is left at the end is a record too, cut short.
ghost use Rattle.std.specs.Prelude.{◌≡◌};
ghost use Rattle.records.specs.Run.{record_count, record_at};

use crate::RECORD_LENGTH;

// How many records there are.
pub fn record_count(s: &[u8]) -> usize
    ensures { result ≡ record_count s.now }
{
    s.len().div_ceil(RECORD_LENGTH)
}

// The record number k, from 0; past the last one no bytes, where `chunks(RECORD_LENGTH).nth(k)` would be None.
pub fn record_at(s: &[u8], k: usize) -> &[u8]
    ensures { result.now ≡ record_at s.now k }
{
    let from = k.saturating_mul(RECORD_LENGTH).min(s.len());
    let rest = &s[from..];
    &rest[..RECORD_LENGTH.min(rest.len())]
}
