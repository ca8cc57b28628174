// A state: a kept temperature and a density, worked once for every property.
ghost use Rattle.std.specs.Prelude.{◌≡◌};
ghost use Rattle.equation.specs.State.{state_of};

use arithmetic::squash;
use fluids::Fluid;
use kept::Kept;
use sums::{Sums, sums_at};

// The fluid, T, τ, ln τ, ρ, δ and the six sums. Four of them are Kept's, which is not held whole: the properties read no more of it, as the
// definitions say them of these fields, and its tables are 28 numbers.
#[derive(Clone, Copy)]
pub struct State {
    pub fluid: Fluid,
    pub t: f64,
    pub tau: f64,
    pub ln_tau: f64,
    pub rho: f64,
    pub delta: f64,
    pub sums: Sums,
}

// The state of a kept temperature at a density; one NaN for each number that is not finite.
pub fn state_at(kept: Kept, rho: f64) -> State
    ensures { result ≡ state_of kept rho }
{
    let delta = squash(rho / fluids::single_numbers(kept.fluid).critical_density);
    State {
        fluid: kept.fluid,
        t: kept.t,
        tau: kept.tau,
        ln_tau: kept.ln_tau,
        rho,
        delta,
        sums: sums_at(kept, delta),
    }
}
