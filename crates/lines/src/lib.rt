// The lines that the program answers prints.
#![tactic(auto)]

mod text;

ghost use Rattle.std.specs.Prelude.{◌≡◌, ◌++◌, ◌+◌, ◌≤◌, length, drop};
ghost use Rattle.lines.specs.Text.{decimal_of, Put};
ghost use Rattle.lines.specs.Lines.{header_text, mark_text, bits_text, spaced, answer_text, line_of, lines_of, LinesFit, lines_put};

use questions::answer;
use records::{RECORD_LENGTH, read, record_at, record_count};
use refusals::{Answer, Refusal, answer_code};
use text::Line;
use words::bits;

// The first line.
#[tactic(auto, unfolding(crate::specs::Lines::header_text))]
pub fn header() -> [u8; 17]
    ensures { result ≡ header_text }
{
    *b"n mark code bits\n"
}

// The mark of a record: the two letters in front of it, ?? if unknown, -- if cut.
fn mark(s: &[u8]) -> [u8; 2]
    ensures { result ≡ mark_text s.now }
{
    match read(s) {
        Ok(_) => [s[0], s[1]],
        Err(Refusal::CutShort) => *b"--",
        Err(_) => *b"??",
    }
}

// The bits of a number, or 16 dashes.
#[tactic(auto, unfolding(crate::specs::Lines::dashes))]
fn put_bits(a: Answer, line: &mut Line)
    requires { length line.old + 16 ≤ 64 }
    ensures { line.new ≡ line.old ++ bits_text a }
{
    match a {
        Ok(x) => line.put_digits(16, 16, bits(x)),
        Err(_) => line.put(b"----------------"),
    }
}

// A number in decimal and a space.
fn put_number(n: u64, line: &mut Line)
    requires { length line.old + 21 ≤ 64 }
    ensures { line.new ≡ line.old ++ spaced (decimal_of n) }
{
    line.put_decimal(n);
    line.put_byte(b' ');
}

// The code and the bits.
fn put_answer(a: Answer, line: &mut Line)
    requires { length line.old + 37 ≤ 64 }
    ensures { line.new ≡ line.old ++ answer_text a }
{
    put_number(answer_code(a) as u64, line);
    put_bits(a, line);
}

fn put_mark(s: &[u8], line: &mut Line)
    requires { length line.old + 3 ≤ 64 }
    ensures { line.new ≡ line.old ++ spaced (mark_text s.now) }
{
    line.put(&mark(s));
    line.put_byte(b' ');
}

// The line of the record s with the number n.
fn line_of(n: u64, s: &[u8]) -> Line
    ensures { result ≡ line_of n s.now }
{
    let mut line = Line::new();
    put_number(n, &mut line);
    put_mark(s, &mut line);
    put_answer(answer(s), &mut line);
    line.put_byte(b'\n');
    line
}

// The lines of the records of input, numbered from first on, into the first places of out, and how many bytes they take. A piece
// of 1 to 17 bytes at the end is a record cut short. An output with less than 64 bytes for each whole record and 64 more gets
// nothing, and so it does where a number would not fit.
pub fn put_lines(input: &[u8], first: u64, out: &mut [u8]) -> usize
    ensures { (result ≡ length (lines_put first input.now out.old))
        × (out.new ≡ lines_put first input.now out.old ++ drop result out.old) }
{
    let length = input.len();
    if out.len() / 64 <= length / RECORD_LENGTH {
        return 0;
    }
    if u64::MAX - first < length as u64 {
        return 0;
    }
    fitted_lines(input, first, out)
}

// A text into the output from the place at on; gives the place after it. The output is lent, and as long as the caller likes.
fn put_text(text: &[u8], out: &mut [u8], at: usize) -> usize
    requires { at + length text.now ≤ length out.old }
    ensures { Put at text.now out.old result out.new }
{
    let end = at + text.len();
    out[at..end].copy_from_slice(text);
    end
}

// The lines where they fit. By `record_at`, whose definition says what a record of a run is, and not by `chunks`.
fn fitted_lines(input: &[u8], first: u64, out: &mut [u8]) -> usize
    requires { LinesFit first input.now out.old }
    ensures { Put 0 (lines_of first input.now) out.old result out.new }
{
    let mut at = 0;
    for k in 0..record_count(input) {
        let line = line_of(first + k as u64, record_at(input, k));
        at = put_text(line.text(), out, at);
    }
    at
}
