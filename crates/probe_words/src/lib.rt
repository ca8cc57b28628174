// What a question of the probe gets beside its code: a number's bits, or a search's word as a number.
#![tactic(auto)]

ghost use Rattle.std.specs.Prelude.{◌≡◌, ◌/◌};
ghost use Rattle.std.specs.Float.{binary64};
ghost use Rattle.std.specs.Float.Ieee.{of_bits};
ghost use Rattle.fluids.specs.Entries.{fluid_numbered};
ghost use Rattle.probe_words.specs.Reply.{number_reply, word_reply, plain_word};

use density::plain;
use outcomes::word_number;
use probe_calls::{fluid_number, own_top};
use refusals::{Answer, Refusal};
use search::{Found, Side};
use words::{bits, number};

// A number as its bits.
pub fn number_reply(a: Answer) -> Result<u64, Refusal>
    ensures { result ≡ number_reply a }
{
    Ok(bits(a?))
}

// The word of a search as its number.
fn word_reply(found: Result<Found, Refusal>) -> Result<u64, Refusal>
    ensures { result ≡ word_reply found }
{
    Ok(word_number(found?.word))
}

// The word of the plain search, up to the fluid's own top; or 17 and as the search refuses. As the crate probe_calls answers with its density.
#[tactic(auto, unfolding(crate::specs::Reply::plain_word))]
fn plain_word(fluid: u32, t: f64, p: f64, side: Side) -> Result<u64, Refusal>
    ensures { result ≡ plain_word (fluid_numbered fluid) side t p }
{
    word_reply(plain(fluid, t, p, own_top(fluid), side))
}

// The same of the fluid that a call asks, at the numbers of two bit patterns.
#[tactic(auto, unfolding(crate::specs::Reply::plain_word))]
pub fn asked_word(call: u64, first: u64, second: u64, side: Side) -> Result<u64, Refusal>
    ensures { result ≡ plain_word (fluid_numbered (call / 100)) side (of_bits binary64 first) (of_bits binary64 second) }
{
    plain_word(fluid_number(call), number(first), number(second), side)
}
