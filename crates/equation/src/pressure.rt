// The pressure at a density, for the temperature that is kept, and that of a state.
ghost use Rattle.std.specs.Prelude.{◌≡◌};
ghost use Rattle.equation.specs.State.{pressure_by, pressure_value, pressure_at};

use crate::state::State;
use arithmetic::squash;
use fluids::Constants;
use kept::Kept;
use sums::sums_at;

// ((ρ·1000)·(R·T))·(1 + S1).
fn pressure_by(gas: f64, t: f64, rho: f64, s1: f64) -> f64
    ensures { result ≡ pressure_by gas t rho s1 }
{
    squash(((rho * 1000.0) * (gas * t)) * (1.0 + s1))
}

// The pressure at a density, Pa, for the temperature that is kept; one NaN where 12 is owed.
pub fn pressure_at(kept: Kept, rho: f64) -> f64
    ensures { result ≡ pressure_at kept rho }
{
    let Constants {
        gas,
        critical_density,
        ..
    } = fluids::single_numbers(kept.fluid);
    let s = sums_at(kept, rho / critical_density);
    pressure_by(gas, kept.t, rho, s.s1)
}

// The pressure of a state that was worked, Pa; one NaN where 12 is owed.
pub fn pressure_of(state: State) -> f64
    ensures { result ≡ pressure_value state }
{
    let gas = fluids::single_numbers(state.fluid).gas;
    pressure_by(gas, state.t, state.rho, state.sums.s1)
}
