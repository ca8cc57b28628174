// Reads questions from standard input to its end and writes their replies, a block at a time.
//
// A question is 24 bytes and a reply 16 (crate probe_replies). A piece shorter than 24 bytes at the end
// gets one reply, with code 15.
#![tactic(auto)]

use std::io::{self, Write};

// Answers one block of questions, of which it has room for 2,730 and for as many replies, in fixed memory; false where the input ended, which is no
// error.
fn block(rt: &HostRuntime) -> io::Result<bool> {
    let mut input = [0; 65520];
    let mut out = [0; 43680];
    let (n, _) = blocks::fill(&mut rt.stdin(), &mut input);
    let end = probe_replies::put_replies(&input[..n], &mut out);
    rt.stdout().write_all(&out[..end])?;
    Ok(n == input.len())
}

// No file is as long as 2⁴⁰ blocks; a loop has to end.
fn main(rt: HostRuntime) -> io::Result<()> {
    for _ in 0..1099511627776u64 {
        if !block(&rt)? {
            return Ok(());
        }
    }
    Ok(())
}
