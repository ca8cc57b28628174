// Reads the file states.rec and prints a header and a line for each of its records, a block at a time.
//
// A missing or empty file gives the header alone. What cannot be read, as a directory, does too; standard error then says why, as
// it does where the lines cannot be written.
#![tactic(auto)]

use std::fs::File;
use std::io::{self, ErrorKind, Write};

// The system's words for a failure, without the number that follows them.
fn words(told: &str) -> &str {
    match told.split_once(" (os error ") {
        Some((words, _)) => words,
        None => told,
    }
}

// Says on standard error what went wrong.
fn tell(rt: &HostRuntime, what: &str, e: &io::Error) -> io::Result<()> {
    let told = format!(in rt.alloc(); "{e}")?;
    eprintln!(rt; "{what}: {}", words(told.as_str()))
}

// Prints a text; false where it could not be written, which is told. Not that error itself, here and below: it is told where it comes up, and the
// program ends well.
fn print(rt: &HostRuntime, text: &[u8]) -> io::Result<bool> {
    match rt.stdout().write_all(text) {
        Ok(()) => Ok(true),
        Err(e) => {
            tell(rt, "standard output", &e)?;
            Ok(false)
        }
    }
}

// Prints the lines of one block, its first record numbered first; false where the file ended or could not be read, which is told, or
// the lines could not be written. The blocks, fixed memory with a count of what they hold, have room for 3,640 records, and for their lines.
fn block(rt: &HostRuntime, file: &mut File, first: u64) -> io::Result<bool> {
    let mut input = [0; 65520];
    let mut out = [0; 233024];
    let (n, read) = blocks::fill(file, &mut input);
    let end = lines::put_lines(&input[..n], first, &mut out);
    let written = print(rt, &out[..end])?;
    if let Err(e) = read {
        tell(rt, "states.rec", &e)?;
        return Ok(false);
    }
    Ok(written && n == input.len())
}

// No file is as long as 2⁴⁰ blocks; a loop has to end.
fn all_blocks(rt: &HostRuntime, file: &mut File) -> io::Result<()> {
    for turn in 0..1099511627776u64 {
        if !block(rt, file, 1 + 3640 * turn)? {
            return Ok(());
        }
    }
    Ok(())
}

fn main(rt: HostRuntime) -> io::Result<()> {
    let header = lines::header();
    if !print(&rt, &header)? {
        return Ok(());
    }
    match File::open(&rt, "states.rec") {
        Ok(mut file) => all_blocks(&rt, &mut file),
        Err(e) => {
            if e.kind() == ErrorKind::NotFound {
                return Ok(());
            }
            tell(&rt, "states.rec", &e)
        }
    }
}
