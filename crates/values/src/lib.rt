// 01, "With V, K, Q": the values of the properties of a state that need no K and no Q, one NaN where 12 is owed; the pressure is equation::pressure_at.
#![tactic(auto)]

ghost use Rattle.std.specs.Prelude.{◌≡◌};
ghost use Rattle.values.specs.Values as Values;

use arithmetic::squash;
use equation::State;
use ideal::{i0, i1, i2};

// I0 of a state.
fn i0_of(state: State) -> f64
    ensures { result ≡ Values.i0 state }
{
    i0(state.fluid, state.t, state.tau, state.ln_tau, state.delta)
}

// I1 of a state.
fn i1_of(state: State) -> f64
    ensures { result ≡ Values.i1 state }
{
    i1(state.fluid, state.t, state.tau)
}

// (R·T)·(I1 + T1).
pub fn energy_value(state: State) -> f64
    ensures { result ≡ Values.energy_value state }
{
    let gas = fluids::single_numbers(state.fluid).gas;
    squash((gas * state.t) * (i1_of(state) + state.sums.t1))
}

// (R·T)·(I1 + T1 + S1 + 1).
pub fn enthalpy_value(state: State) -> f64
    ensures { result ≡ Values.enthalpy_value state }
{
    let gas = fluids::single_numbers(state.fluid).gas;
    squash((gas * state.t) * (i1_of(state) + state.sums.t1 + state.sums.s1 + 1.0))
}

// R·V.
pub fn isochoric_value(state: State) -> f64
    ensures { result ≡ Values.isochoric_value state }
{
    let gas = fluids::single_numbers(state.fluid).gas;
    squash(gas * (i2(state.fluid, state.t) - state.sums.t2))
}

// R·(I1 + T1 − I0 − S0).
pub fn entropy_value(state: State) -> f64
    ensures { result ≡ Values.entropy_value state }
{
    let gas = fluids::single_numbers(state.fluid).gas;
    squash(gas * (i1_of(state) + state.sums.t1 - i0_of(state) - state.sums.s0))
}

// 1 + I0 + S0 + S1.
pub fn gibbs_over_rt(state: State) -> f64
    ensures { result ≡ Values.gibbs_over_RT state }
{
    squash(1.0 + i0_of(state) + state.sums.s0 + state.sums.s1)
}

// (R·T)·(1 + I0 + S0 + S1).
pub fn gibbs_value(state: State) -> f64
    ensures { result ≡ Values.gibbs_value state }
{
    let gas = fluids::single_numbers(state.fluid).gas;
    squash((gas * state.t) * gibbs_over_rt(state))
}

// (R·T)·(I0 + S0).
pub fn helmholtz_value(state: State) -> f64
    ensures { result ≡ Values.helmholtz_value state }
{
    let gas = fluids::single_numbers(state.fluid).gas;
    squash((gas * state.t) * (i0_of(state) + state.sums.s0))
}
