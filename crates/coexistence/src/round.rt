// 02, M-105, a round: the next pair, from one that was not accepted.
ghost use Rattle.std.specs.Prelude.{◌≡◌};
ghost use Rattle.coexistence.specs.Round as Round;

use crate::Densities;
use crate::phase::Compared;
use arithmetic::{over, squash};
use fluids::Fluid;

// D = (pl − pv)/((1000·R)·T).
fn pressure_step(fluid: Fluid, t: f64, pressures: f64) -> f64
    ensures { result ≡ Round.pressure_step fluid t pressures }
{
    let gas = fluids::single_numbers(fluid).gas;
    over(pressures, (1000.0 * gas) * t)
}

// y = (D/l − E)/(1/l − 1/v).
fn vapour_step(d: f64, e: f64, l: f64, v: f64) -> f64
    ensures { result ≡ Round.vapour_step d e l v }
{
    over(d / l - e, 1.0 / l - 1.0 / v)
}

// l + x/Ql and v + y/Qv, with x = y − D.
pub(crate) fn next_pair(fluid: Fluid, t: f64, pair: Densities, c: Compared) -> Densities
    ensures { result ≡ Round.next_by fluid t pair.liquid pair.vapour c }
{
    let Densities {
        liquid: l,
        vapour: v,
    } = pair;
    let d = pressure_step(fluid, t, c.pressures);
    let y = vapour_step(d, c.values, l, v);
    let x = y - d;
    Densities {
        liquid: squash(l + x / c.liquid.q),
        vapour: squash(v + y / c.vapour.q),
    }
}
