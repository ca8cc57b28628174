// The questions of the program probe and their replies. The package's public calls are asked, of the fluid that the call's number names.
//
// A question is three little-endian words: the call's number and the bits of two numbers. A reply is
// two: the code, and the number's bits or a search's word as a number, or all ones where refused.
#![tactic(auto)]

mod searches;

ghost use Rattle.std.specs.Prelude.{◌≡◌, ◌++◌, ◌*◌, ◌≤◌, length, drop};
ghost use Rattle.probe_replies.specs.Question.{answer_to, reply_to};
ghost use Rattle.probe_replies.specs.Replies.{reply_bytes, reply_at, reply_count, with_replies};

use probe_calls::{answer_of_numbers, fluid_number};
use probe_words::{asked_word, number_reply};
use refusals::{Answer, Refusal, answer_code};
use search::Side;
use searches::Lists;
use words::{number, put_word, word};

// The answer of the call of that number at the numbers of the two bit patterns. The three words of a question are handed on as they were read,
// here and below: a number that is no call's is one, too, and gets 14.
#[tactic(auto, unfolding(crate::specs::Question::answer_to, probe_calls::specs::Calls::look_up))]
fn answer_over(call: u64, first: u64, second: u64, lists: &mut Lists) -> Answer
    ensures { result ≡ answer_to call first second }
{
    match call % 100 {
        32 => lists.quick_answer(fluid_number(call), first, number(second), Side::FromBelow),
        33 => lists.quick_answer(fluid_number(call), first, number(second), Side::FromAbove),
        _ => answer_of_numbers(call, number(first), number(second)),
    }
}

// The reply of the call of that number: the word of a search, or the number that it answers with.
#[tactic(auto, unfolding(crate::specs::Question::reply_to, probe_calls::specs::Calls::look_up))]
fn reply_over(call: u64, first: u64, second: u64, lists: &mut Lists) -> Result<u64, Refusal>
    ensures { result ≡ reply_to call first second }
{
    match call % 100 {
        34 => asked_word(call, first, second, Side::FromBelow),
        35 => asked_word(call, first, second, Side::FromAbove),
        _ => number_reply(answer_over(call, first, second, lists)),
    }
}

// The reply of the call of that number at the numbers of the two bit patterns.
pub fn reply_to(call: u64, first: u64, second: u64) -> Result<u64, Refusal>
    ensures { result ≡ reply_to call first second }
{
    let mut lists = Lists::new();
    reply_over(call, first, second, &mut lists)
}

// The reply to the question at the front of s; 15 where s is shorter than a question.
fn reply_at(s: &[u8], lists: &mut Lists) -> Result<u64, Refusal>
    ensures { result ≡ reply_at s.now }
{
    if s.len() < 24 {
        return Err(Refusal::CutShort);
    }
    let call = word(s);
    let first = word(&s[8..]);
    let second = word(&s[16..]);
    reply_over(call, first, second, lists)
}

// The reply's bytes into the first 16 places: the code, then the second word, all ones where refused, as the probe's replies have it (definition
// `reply_second`). Not into an array of sixteen: the output is lent, and its rest stays as it was.
fn put_reply(out: &mut [u8], reply: Result<u64, Refusal>)
    requires { 16 ≤ length out.old }
    ensures { out.new ≡ reply_bytes reply ++ drop 16 out.old }
{
    let code = answer_code(reply) as u64;
    put_word(out, code);
    put_word(&mut out[8..], reply.unwrap_or(u64::MAX));
}

// The replies to the questions of input, one after the other, into out, as long as there is room,
// and how many bytes they take. A piece shorter than a question at the end gets one reply, 15. A question is read at its place, and not out of
// `chunks(24)`, since the definition `reply_at` gives 15 of what is left there, whatever its length.
pub fn put_replies(input: &[u8], out: &mut [u8]) -> usize
    ensures value { result ≡ 16 * reply_count input.now out.old }
    ensures out_after { out.new ≡ with_replies input.now out.old }
{
    let count = input.len().div_ceil(24).min(out.len() / 16);
    let mut lists = Lists::new();
    for k in 0..count {
        let reply = reply_at(&input[24 * k..], &mut lists);
        put_reply(&mut out[16 * k..], reply);
    }
    16 * count
}
