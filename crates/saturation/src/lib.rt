// 01, "Saturation estimates": pressure, liquid and vapour density at a temperature, of the fluid of a number. Units: K, Pa, mol/dm³.
#![tactic(auto)]

mod estimates;

ghost use Rattle.std.specs.Prelude.{◌≡◌};
ghost use Rattle.inputs.specs.Numbered.{by_number};
ghost use Rattle.saturation.specs.Calls as Calls;

use arithmetic::answer_from;
use estimates::value_of;
use fluids::{Curve, Fluid};
use inputs::saturation_inputs;
use refusals::Answer;

// The estimate of a curve at T: 2, 3, 13, 12; 12 never occurs (docs/NO-ANSWER.md).
pub fn answer_of(fluid: Fluid, curve: Curve, t: f64) -> Answer
    ensures { result ≡ Calls.curve_of fluid t curve }
{
    saturation_inputs(fluid, t)?;
    answer_from(value_of(fluid, curve, t))
}

// The estimate of the fluid of a number: 17, then as `answer_of` refuses.
fn answer_numbered(number: u32, curve: Curve, t: f64) -> Answer
    ensures { result ≡ by_number Err number (λ F. Calls.curve_of F t curve) }
{
    answer_of(Fluid::try_from(number)?, curve, t)
}

// The three calls of 01 by name; the work is said once, in `answer_numbered`, and naming a curve instead would be no plainer to a caller.

// The estimate of the saturation pressure at T: 17, 2, 3, 13, 12; 12 never occurs (docs/NO-ANSWER.md).
pub fn saturation_pressure(number: u32, t: f64) -> Answer
    ensures { result ≡ by_number Err number (λ F. Calls.saturation_pressure_of F t) }
{
    answer_numbered(number, Curve::Pressure, t)
}

// The estimate of the saturated liquid's density at T: 17, 2, 3, 13, 12; 12 never occurs (docs/NO-ANSWER.md).
pub fn saturated_liquid(number: u32, t: f64) -> Answer
    ensures { result ≡ by_number Err number (λ F. Calls.saturated_liquid_of F t) }
{
    answer_numbered(number, Curve::Liquid, t)
}

// The estimate of the saturated vapour's density at T: 17, 2, 3, 13, 12; 12 never occurs (docs/NO-ANSWER.md).
pub fn saturated_vapour(number: u32, t: f64) -> Answer
    ensures { result ≡ by_number Err number (λ F. Calls.saturated_vapour_of F t) }
{
    answer_numbered(number, Curve::Vapour, t)
}
