// 01, "In the cell".
ghost use Rattle.std.specs.Prelude.{◌≡◌};
ghost use Rattle.search.specs.InCell.{Bracket, halved, in_cell};
ghost use Rattle.steps.specs.Steps.{pressure_in_steps};

use fluids::MOST_CELLS;
use kept::Kept;
use refusals::Refusal;
use steps::{CELL_STEPS, step_pressure};

// Halves the steps lower..upper, `left` times more: the middle becomes the lower end if its pressure is ≤ p, else the upper. `left` is counted down as
// the definition `halved` counts it. It is not `halve_places` with another test: a pressure may be 12, and the halvings may be too few.
fn halve(kept: Kept, p: f64, lower: usize, upper: usize, left: usize) -> Result<usize, Refusal>
    requires { Bracket (pressure_in_steps kept) p left lower upper }
    ensures { result ≡ halved (pressure_in_steps kept) p left lower upper }
{
    if left == 0 {
        if upper - lower == 1 {
            return Ok(lower);
        }
        return Err(Refusal::NotNeighbours);
    }
    let middle = (lower + upper) / 2;
    let pressure = step_pressure(kept, middle);
    if pressure.is_nan() {
        return Err(Refusal::WorkNotFinite);
    }
    if pressure <= p {
        halve(kept, p, middle, upper, left - 1)
    } else {
        halve(kept, p, lower, middle, left - 1)
    }
}

// 23 halvings of the found cell, and 12 beyond the most cells, where the first middle gives it; a refusal stays.
pub fn step_in_cell(kept: Kept, p: f64, cell: Result<usize, Refusal>) -> Result<usize, Refusal>
    ensures { result ≡ in_cell (pressure_in_steps kept) p cell }
{
    let j = cell?;
    if j >= MOST_CELLS {
        return Err(Refusal::WorkNotFinite);
    }
    halve(kept, p, j * CELL_STEPS, (j + 1) * CELL_STEPS, 23)
}
