// 02, M-105, the judge: whether a proposed pair is accepted, by its tests in their order: 2, 3, 4, 19, 12, 19.
ghost use Rattle.std.specs.Prelude.{◌≡◌, ◌&&◌};
ghost use Rattle.std.specs.Float.Ieee as Ieee;
ghost use Rattle.arithmetic.specs.Checked.{real};
ghost use Rattle.inputs.specs.Numbered.{by_number};
ghost use Rattle.coexistence.specs.Judge as Judge;

use crate::Densities;
use crate::phase::{Compared, Phase, compare};
use arithmetic::{between, both_finite, finite};
use fluids::Fluid;
use inputs::pair_inputs;
use kept::keep;
use refusals::{Permit, Refusal, tested};

// vapour < ρc < liquid.
fn across(critical: f64, pair: Densities) -> bool
    ensures { result ≡ Ieee.lt pair.vapour critical && Ieee.lt critical pair.liquid }
{
    pair.vapour < critical && critical < pair.liquid
}

// 0 < vapour < ρc < liquid.
fn in_turn(critical: f64, pair: Densities) -> bool
    ensures { result ≡ Ieee.lt (real 0) pair.vapour && (Ieee.lt pair.vapour critical && Ieee.lt critical pair.liquid) }
{
    0.0 < pair.vapour && across(critical, pair)
}

// T < Tc, and 0 < vapour < ρc < liquid.
fn ordered(fluid: Fluid, t: f64, pair: Densities) -> bool
    ensures { result ≡ Judge.ordered fluid t pair.liquid pair.vapour }
{
    let numbers = fluids::single_numbers(fluid);
    t < numbers.critical_temperature && in_turn(numbers.critical_density, pair)
}

fn phase_finite(phase: Phase) -> bool
    ensures { result ≡ Judge.phase_finite phase }
{
    finite(phase.pressure) && both_finite(phase.value, phase.q)
}

fn phases_finite(liquid: Phase, vapour: Phase) -> bool
    ensures { result ≡ Judge.phase_finite liquid && Judge.phase_finite vapour }
{
    phase_finite(liquid) && phase_finite(vapour)
}

// The two pressures, the two values, the two Q and either difference are finite.
pub(crate) fn all_finite(c: Compared) -> bool
    ensures { result ≡ Judge.all_finite c }
{
    phases_finite(c.liquid, c.vapour) && both_finite(c.pressures, c.values)
}

// Q > 0 at both.
fn both_stable(liquid: f64, vapour: f64) -> bool
    ensures { result ≡ Ieee.lt (real 0) liquid && Ieee.lt (real 0) vapour }
{
    0.0 < liquid && 0.0 < vapour
}

// The pressures at most 0.01 Pa apart, and the values at most 1e-9.
fn both_near(pressures: f64, values: f64) -> bool
    ensures { result ≡ Judge.near Judge.pressure_bound pressures && Judge.near Judge.value_bound values }
{
    between(-0.01, pressures, 0.01) && between(-1e-9, values, 1e-9)
}

// What is asked of two phases that were worked.
fn meets(c: Compared) -> bool
    ensures { result ≡ Judge.meets c }
{
    both_stable(c.liquid.q, c.vapour.q) && both_near(c.pressures, c.values)
}

// All that is asked of a pair whose numbers are finite.
pub(crate) fn accepted(fluid: Fluid, t: f64, pair: Densities, c: Compared) -> bool
    ensures { result ≡ Judge.ordered fluid t pair.liquid pair.vapour && Judge.meets c }
{
    ordered(fluid, t, pair) && meets(c)
}

// 12, then 19, of a pair that passed the tests before the work.
fn verdict(fluid: Fluid, t: f64, pair: Densities) -> Permit
    ensures { result ≡ Judge.verdict_of fluid t pair.liquid pair.vapour }
{
    let c = compare(keep(fluid, t), pair);
    let worked = tested(Ok(()), all_finite(c), Refusal::WorkNotFinite);
    tested(worked, meets(c), Refusal::NotAccepted)
}

// Whether a fluid's pair is accepted: 2, 3, 4, 19, 12, 19.
fn accept_of(fluid: Fluid, t: f64, pair: Densities) -> Permit
    ensures { result ≡ Judge.judge_of fluid t pair.liquid pair.vapour }
{
    let inputs = pair_inputs(fluid, t, pair.liquid, pair.vapour);
    tested(inputs, ordered(fluid, t, pair), Refusal::NotAccepted)?;
    verdict(fluid, t, pair)
}

// Whether a liquid's and a vapour's density at t are a saturation pair of the fluid of a number: 17, 2, 3, 4, 19, 12, 19. The two densities are
// handed over one by one, as C does.
pub fn accept(number: u32, t: f64, liquid: f64, vapour: f64) -> Permit
    ensures { result ≡ by_number Err number (λ F. Judge.judge_of F t liquid vapour) }
{
    accept_of(Fluid::try_from(number)?, t, Densities { liquid, vapour })
}
