// A block of bytes filled from a file or an input: fixed memory, and how much of it is filled beside it.
#![tactic(auto)]

ghost use Rattle.std.specs.Prelude.{◌≡◌, ◌≢◌, ◌≤◌, ◌<◌, length, take, OnOk, IfErr};
ghost use Rattle.std.specs.Io.KnownBytes.{Consumes, IsAtEnd};
ghost use Rattle.std.specs.IoError.{error_kind};

use std::io::{self, ErrorKind, Read};

// Reads on until the block is full, or the source ends or cannot be read: how many bytes the block has, also where the source could
// not be read, and why it could not. A read that a signal interrupts is tried again; a loop has to end.
pub fn fill<R: Read>(from: &mut R, block: &mut [u8]) -> (usize, io::Result<()>)
    ensures long { length block.new ≡ length block.old }
    ensures within { result.0 ≤ length block.old }
    ensures bytes { Consumes (R.remaining from.old) (R.remaining from.new) (take result.0 block.new) }
    ensures end { OnOk result.1 (result.0 < length block.old → IsAtEnd (R.remaining from.new)) }
    ensures retried { IfErr result.1 (λ e. error_kind e ≢ ErrorKind.Interrupted) }
{
    let mut n = 0;
    for _ in 0..u64::MAX {
        if n >= block.len() {
            return (n, Ok(()));
        }
        match from.read(&mut block[n..]) {
            Ok(0) => return (n, Ok(())),
            Ok(more) => n += more,
            Err(e) => {
                if e.kind() != ErrorKind::Interrupted {
                    return (n, Err(e));
                }
            }
        }
    }
    (n, Err(io::Error::from(ErrorKind::TimedOut)))
}
