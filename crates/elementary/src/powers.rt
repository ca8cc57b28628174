// 01, "xᵗ with an exponent t is exp(t·ln x); 0ᵗ is 0".
ghost use Rattle.std.specs.Prelude.{◌≡◌};
ghost use Rattle.elementary.specs.Power.{power_of};

use exponentials::exp;
use logarithms::ln;

// x to the power t, and a NaN where exp or ln has no value.
pub fn power(x: f64, t: f64) -> f64
    ensures { result ≡ power_of x t }
{
    if x == 0.0 {
        return 0.0;
    }
    exp(t * ln(x))
}
