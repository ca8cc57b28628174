// 01, "With V, K, Q": V, K and Q of a state, and the two properties that divide by Q or by V. For formulas: one NaN where 12 is owed.
#![tactic(auto)]

ghost use Rattle.std.specs.Prelude.{◌≡◌};
ghost use Rattle.stability.specs.Stability.{Q, stability_of, isobaric_from, sound_speed_from};

use arithmetic::{over, squash};
use equation::State;
use fluids::{Constants, Fluid};
use ideal::i2;
use roots::root;
use sums::Sums;

// V, K, Q of a state, with its fluid and its T, which are all that is read of it beside them.
#[derive(Clone, Copy)]
pub struct Stability {
    pub fluid: Fluid,
    pub t: f64,
    pub v: f64,
    pub k: f64,
    pub q: f64,
}

// Q = 1 + 2·S1 + S2, alone; one NaN where it is not finite.
pub fn q_of(state: State) -> f64
    ensures { result ≡ Q state }
{
    let Sums { s1, s2, .. } = state.sums;
    squash(1.0 + 2.0 * s1 + s2)
}

// V, K and Q, each one NaN where it is not finite.
pub fn stability_of(state: State) -> Stability
    ensures { result ≡ stability_of state }
{
    let State { fluid, t, sums, .. } = state;
    let Sums { s1, t2, st, .. } = sums;
    let v = squash(i2(fluid, t) - t2);
    let k = squash(1.0 + s1 - st);
    let q = q_of(state);
    Stability { fluid, t, v, k, q }
}

// R·(V + K·K/Q).
pub fn isobaric_value(stability: Stability) -> f64
    ensures { result ≡ isobaric_from stability }
{
    let Stability { fluid, v, k, q, .. } = stability;
    let gas = fluids::single_numbers(fluid).gas;
    squash(gas * (v + over(k * k, q)))
}

// root((R·T)/M·(Q + K·K/V)).
pub fn sound_speed_value(stability: Stability) -> f64
    ensures { result ≡ sound_speed_from stability }
{
    let Stability { fluid, t, v, k, q } = stability;
    let Constants {
        gas,
        molar_mass,
        ..
    } = fluids::single_numbers(fluid);
    root((gas * t) / molar_mass * (q + over(k * k, v)))
}
