// The pairs of answers that differ between the plain search and the quick one.
ghost use Rattle.std.specs.Prelude.{◌≡◌, ◌≤◌};
ghost use Rattle.isotherm.specs.Pairs.{same_of, differs_at, differing};

use density::{plain, quick};
use outcomes::{found_bits, found_word};
use refusals::{Refusal, answer_code};
use search::{Found, Side};

// Two answers are the same in code, bits and word. Not by a derived equality: densities are the same where their bits are, a NaN or a zero, too.
#[tactic(auto, unfolding(crate::specs::Pairs::same_of))]
fn same(a: Result<Found, Refusal>, b: Result<Found, Refusal>) -> bool
    ensures { result ≡ same_of a b }
{
    answer_code(a) == answer_code(b)
        && found_bits(a) == found_bits(b)
        && found_word(a) == found_word(b)
}

// 1 where the pair of answers from one side differs, to be counted (definition `differs_at`).
#[tactic(auto, unfolding(crate::specs::Pairs::differs_at))]
fn differs(
    number: u32,
    t: f64,
    p: f64,
    c: usize,
    side: Side,
    greatest: &[f64],
    least: &[f64],
) -> u64
    ensures { (result ≡ differs_at number t p c side greatest.now least.now) × (result ≤ 1) }
{
    let a = plain(number, t, p, c, side);
    let b = quick(number, t, p, c, side, greatest, least);
    if same(a, b) { 0 } else { 1 }
}

// How many of the pairs differ at the first 100 multiples of 100,000 Pa, from both sides.
#[tactic(auto, unfolding(crate::specs::Pairs::differing))]
pub(crate) fn pairs_that_differ(
    number: u32,
    t: f64,
    c: usize,
    greatest: &[f64],
    least: &[f64],
) -> u64
    ensures { result ≡ differing number t c greatest.now least.now 100 }
{
    let mut count = 0;
    for n in 0..100 {
        let pascals: u64 = 100000 * (n + 1);
        let p = pascals as f64;
        let below = differs(number, t, p, c, Side::FromBelow, greatest, least);
        let above = differs(number, t, p, c, Side::FromAbove, greatest, least);
        count += below + above;
    }
    count
}
