// 02, M-105, the proposer: from the two estimates, the first pair that the judge accepts.
ghost use Rattle.std.specs.Prelude.{◌≡◌, ◌≤◌, ◌++◌, length, drop};
ghost use Rattle.refusals.specs.Code.{answer_code_of};
ghost use Rattle.kept.specs.Kept.{kept_of};
ghost use Rattle.inputs.specs.Numbered.{by_number};
ghost use Rattle.coexistence.specs.Proposer as Proposer;
ghost use Rattle.coexistence.specs.Call as Call;

use crate::Densities;
use crate::judge::{accepted, all_finite};
use crate::phase::compare;
use crate::round::next_pair;
use fluids::{Curve, Fluid};
use inputs::{output_inputs, pair_inputs};
use kept::{Kept, keep};
use refusals::Refusal;
use words::{bits, put_word};

// The rounds after the starting pair.
const ROUNDS: usize = 40;

// A pair of the sequence: it is accepted; or the next is this one; or the rounds end. Three ways on, and no Option or Result would say which; that an
// end is 20 is the caller's.
#[derive(Clone, Copy)]
pub(crate) enum Judged {
    Accepted,
    GoesOn(Densities),
    Ends,
}

// Each state is worked once, for the judgement and for the round.
fn judge_next(fluid: Fluid, t: f64, kept: Kept, pair: Densities) -> Judged
    requires { kept ≡ kept_of fluid t }
    ensures { result ≡ Proposer.judged_of fluid t pair }
{
    if pair_inputs(fluid, t, pair.liquid, pair.vapour).is_err() {
        return Judged::Ends;
    }
    let c = compare(kept, pair);
    if !all_finite(c) {
        return Judged::Ends;
    }
    if accepted(fluid, t, pair, c) {
        return Judged::Accepted;
    }
    Judged::GoesOn(next_pair(fluid, t, pair, c))
}

// The first accepted pair of the starting one and those of the rounds, or 20.
fn first_accepted(fluid: Fluid, t: f64, start: Densities) -> Result<Densities, Refusal>
    ensures { result ≡ Proposer.first_accepted fluid t (Proposer.pairs_after fluid t start) }
{
    let kept = keep(fluid, t);
    let mut pair = start;
    for _ in 0..=ROUNDS {
        match judge_next(fluid, t, kept, pair) {
            Judged::Accepted => return Ok(pair),
            Judged::Ends => return Err(Refusal::GaveUp),
            Judged::GoesOn(next) => pair = next,
        }
    }
    Err(Refusal::GaveUp)
}

// From the two estimates: their refusals, 2, 3, 13, 12, then 20.
fn pair_of(fluid: Fluid, t: f64) -> Result<Densities, Refusal>
    ensures { result ≡ Proposer.pair_of fluid t }
{
    let liquid = saturation::answer_of(fluid, Curve::Liquid, t)?;
    let vapour = saturation::answer_of(fluid, Curve::Vapour, t)?;
    first_accepted(fluid, t, Densities { liquid, vapour })
}

// The saturation pair at t of the fluid of a number: 17, 2, 3, 13, 12, 20; 12 never occurs (docs/NO-ANSWER.md).
pub fn saturation_pair(number: u32, t: f64) -> Result<Densities, Refusal>
    ensures { result ≡ by_number Err number (λ F. Proposer.pair_of F t) }
{
    pair_of(Fluid::try_from(number)?, t)
}

// ---- into an output

// The bits of the liquid's and then of the vapour's density into the first sixteen bytes. Not into an array of sixteen: the output that is lent may
// have more, and stays as it was behind them.
fn put_pair(pair: Densities, out: &mut [u8])
    requires { 16 ≤ length out.old }
    ensures { out.new ≡ Call.pair_bytes pair ++ drop 16 out.old }
{
    put_word(out, bits(pair.liquid));
    put_word(&mut out[8..], bits(pair.vapour));
}

// 7 after 3 and before 13, where the output has less than 16 bytes; a refusal leaves it as it is.
fn pair_into(fluid: Fluid, t: f64, out: &mut [u8]) -> Result<(), Refusal>
    ensures { (answer_code_of result, out.new) ≡ Call.pair_into fluid t out.old }
{
    output_inputs(fluid, t, 16 <= out.len())?;
    put_pair(pair_of(fluid, t)?, out);
    Ok(())
}

// The saturation pair at t of the fluid of a number into an output: the bits of the liquid's and then of the vapour's density in its first sixteen
// bytes, the lowest first; or 17, 2, 3, 7 where it has less than sixteen, 13, 12, 20, and the output as it was. 12 never occurs
// (docs/NO-ANSWER.md).
pub fn saturation_into(number: u32, t: f64, out: &mut [u8]) -> Result<(), Refusal>
    ensures { (answer_code_of result, out.new) ≡ Call.saturation_of number t out.old }
{
    pair_into(Fluid::try_from(number)?, t, out)
}
