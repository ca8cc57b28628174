// What a pair is judged by: the pressure, 1 + I0 + S0 + S1 and Q at each density, from one state each.
ghost use Rattle.std.specs.Prelude.{◌≡◌};
ghost use Rattle.coexistence.specs.Phase.{phase_at, compared_by};

use crate::Densities;
use arithmetic::squash;
use equation::{pressure_of, state_at};
use kept::Kept;
use stability::q_of;
use values::gibbs_over_rt;

// The pressure, Pa, the value 1 + I0 + S0 + S1, and Q, of one state; each one NaN where it is not finite.
#[derive(Clone, Copy)]
pub struct Phase {
    pub pressure: f64,
    pub value: f64,
    pub q: f64,
}

// Two phases, and by how much the liquid's pressure and value are above the vapour's.
#[derive(Clone, Copy)]
pub struct Compared {
    pub liquid: Phase,
    pub vapour: Phase,
    pub pressures: f64,
    pub values: f64,
}

fn phase_at(kept: Kept, rho: f64) -> Phase
    ensures { result ≡ phase_at kept rho }
{
    let state = state_at(kept, rho);
    let pressure = pressure_of(state);
    let value = gibbs_over_rt(state);
    let q = q_of(state);
    Phase { pressure, value, q }
}

// Both states, worked once, and the two differences, one rounded subtraction each.
pub(crate) fn compare(kept: Kept, pair: Densities) -> Compared
    ensures { result ≡ compared_by kept pair.liquid pair.vapour }
{
    let liquid = phase_at(kept, pair.liquid);
    let vapour = phase_at(kept, pair.vapour);
    let pressures = squash(liquid.pressure - vapour.pressure);
    let values = squash(liquid.value - vapour.value);
    Compared {
        liquid,
        vapour,
        pressures,
        values,
    }
}
