// The factor X of the rows, worked side by side before the rows are summed.
//
// Each row of the second half of the table has an exponential of its own; of the first half the damped rows share
// exp(−δ) and exp(−δ²) with the first two of the second, and the others have none.
ghost use Rattle.std.specs.Prelude.{◌≡◌, ◌+◌};
ghost use Rattle.arithmetic.specs.Checked.{squash};
ghost use Rattle.exponentials.specs.Exp.{exp_of};
ghost use Rattle.arithmetic.specs.Lanes.{AtEach, lane};
ghost use Rattle.fluids.specs.Entries.{entry_of};
ghost use Rattle.sums.specs.Factors.{x_of_row};

use crate::rows::{Damping, x_exponent, x_of};
use exponentials::{exps, joined};
use fluids::Fluid;

// What X of each row of the second half is the exponential of. The row's place in both tables is counted from 7: zipped, each would first have to
// be cut in two.
fn x_exponents(fluid: Fluid, delta: f64, bells: [f64; 14]) -> [f64; 7]
    ensures { AtEach 7 (λ j. exp_of (lane result j) ≡ x_of_row (squash delta) (entry_of fluid).rows bells (7 + j)) }
{
    let terms = fluids::terms(fluid);
    let mut exponents = [0.0; 7];
    for j in 0..7 {
        exponents[j] = x_exponent(terms[7 + j], delta, bells[7 + j]);
    }
    exponents
}

// X of each row of the first half. The tables are read by index, as 01 names the form for the rows.
fn first_xs(fluid: Fluid, bells: [f64; 14], damping: Damping) -> [f64; 7]
    ensures { AtEach 7 (λ j. lane result j ≡ x_of_row (squash damping.delta) (entry_of fluid).rows bells j) }
{
    let terms = fluids::terms(fluid);
    let mut xs = [0.0; 7];
    for j in 0..7 {
        xs[j] = x_of(terms[j], damping, bells[j]);
    }
    xs
}

// X of each row. Row 8 is damped by δ, row 9 by δ².
pub(crate) fn xs_at(fluid: Fluid, delta: f64, bells: [f64; 14]) -> [f64; 14]
    ensures { AtEach 14 (λ i. lane result i ≡ x_of_row (squash delta) (entry_of fluid).rows bells i) }
{
    let second = exps(x_exponents(fluid, delta, bells));
    let damping = Damping {
        delta,
        first: second[0],
        second: second[1],
    };
    joined(first_xs(fluid, bells, damping), second)
}
