// Answers the questions on standard input and prints each with its answer on a line.
//
// The fields of a line: the call, the bits of the two numbers, the code, and the second word of the
// reply, or dashes where refused.
#![tactic(auto)]

ghost use Rattle.std.specs.Prelude.{◌≤◌, length};

use std::io;
use words::word;

// The line of the question at the front of s.
fn print_line(rt: &HostRuntime, s: &[u8]) -> io::Result<()>
    requires { 24 ≤ length s.now }
{
    let call = word(s);
    let first = word(&s[8..]);
    let second = word(&s[16..]);
    match probe_replies::reply_to(call, first, second) {
        Ok(bits) => println!(rt; "{call} {first:016x} {second:016x} 0 {bits:016x}"),
        Err(r) => {
            println!(rt;
                "{call} {first:016x} {second:016x} {} ----------------",
                u32::from(r)
            )
        }
    }
}

// A piece shorter than 24 bytes at the end has no line.
fn print_lines(rt: &HostRuntime, s: &[u8]) -> io::Result<()> {
    for question in s.chunks_exact(24) {
        print_line(rt, question)?;
    }
    Ok(())
}

// Answers the first 8,190 questions, in fixed memory.
fn main(rt: HostRuntime) -> io::Result<()> {
    let mut input = [0; 196560];
    let (n, _) = blocks::fill(&mut rt.stdin(), &mut input);
    println!(rt; "call first second code bits")?;
    print_lines(&rt, &input[..n])
}
