// 01, "Density steps are k·2⁻³⁰, exact": the density of a step, and the pressures at steps and at coarse ends.
//
// For formulas: no fluid has more than MOST_CELLS cells, and beyond them each of these is one NaN. That is what each promises (`in_steps`), so none
// gives an Option; the three tests are of two limits, and one function for them would take the work as a closure.
#![tactic(auto)]

ghost use Rattle.std.specs.Prelude.{◌≡◌};
ghost use Rattle.search.specs.Plain.{at_ends};
ghost use Rattle.steps.specs.Steps.{in_steps, step_density_of, pressure_in_steps};

use equation::pressure_at;
use fluids::MOST_CELLS;
use kept::Kept;

// A cell is 2²³ steps.
pub const CELL_STEPS: usize = 8388608;

const MOST_STEPS: usize = MOST_CELLS * CELL_STEPS;

// k·2⁻³⁰, in mol/dm³.
pub fn step_density(k: usize) -> f64
    ensures { result ≡ in_steps k (step_density_of k) }
{
    if k <= MOST_STEPS {
        return k as f64 * 9.313225746154785e-10;
    }
    f64::NAN
}

// The pressure at the step k of a kept temperature, in Pa; a NaN where 01 owes 12 too.
pub fn step_pressure(kept: Kept, k: usize) -> f64
    ensures { result ≡ pressure_in_steps kept k }
{
    if k <= MOST_STEPS {
        return pressure_at(kept, step_density(k));
    }
    f64::NAN
}

// The pressure at the coarse end j.
pub fn end_pressure(kept: Kept, j: usize) -> f64
    ensures { result ≡ at_ends (pressure_in_steps kept) j }
{
    if j <= MOST_CELLS {
        return step_pressure(kept, j * CELL_STEPS);
    }
    f64::NAN
}
