// What a search ends with, as numbers: the density as an answer or as bits, and the word.
#![tactic(auto)]

ghost use Rattle.std.specs.Prelude.{◌≡◌};
ghost use Rattle.outcomes.specs.Codes.{found_answer_of};
ghost use Rattle.outcomes.specs.Parts.{word_number_of, found_bits_of, found_word_of};

use refusals::{Answer, Refusal};
use search::{Found, Word};
use words::bits;

// The density alone, or the refusal.
pub fn found_answer(found: Result<Found, Refusal>) -> Answer
    ensures { result ≡ found_answer_of found }
{
    Ok(found?.density)
}

// 1 fluid, 2 vapour, 3 liquid. Not `From<Word>`: that would have to stand beside `Word`, in a crate without functions.
pub fn word_number(word: Word) -> u64
    ensures { result ≡ word_number_of word }
{
    match word {
        Word::Fluid => 1,
        Word::Vapour => 2,
        Word::Liquid => 3,
    }
}

// The bits of the density, and all ones where there is none. What stands for none is this function's and the next one's promise (`found_bits_of`,
// `found_word_of`): two searches are compared and timed by these numbers.

// The bits of the density, and all ones where there is none.
pub fn found_bits(found: Result<Found, Refusal>) -> u64
    ensures { result ≡ found_bits_of found }
{
    match found {
        Ok(state) => bits(state.density),
        Err(_) => 18446744073709551615,
    }
}

// The word's number, and 0 where there is none.
pub fn found_word(found: Result<Found, Refusal>) -> u64
    ensures { result ≡ found_word_of found }
{
    match found {
        Ok(state) => word_number(state.word),
        Err(_) => 0,
    }
}
