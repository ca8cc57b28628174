// 01, "Plain, from below" and "from above": the scans over coarse ends.
ghost use Rattle.std.specs.Prelude.{◌≡◌};
ghost use Rattle.search.specs.Plain.{at_ends, cell_from_below, cell_from_above};
ghost use Rattle.steps.specs.Steps.{pressure_in_steps};
ghost use Rattle.search.specs.BySide.{plain_cell_of};

use kept::Kept;
use refusals::Refusal;
use search::Side;
use steps::end_pressure;

// Visits ends 1, 2, .. and stops at the first with a pressure above p; the cell is the one before it.
fn cell_from_below(kept: Kept, p: f64, c: usize) -> Result<usize, Refusal>
    ensures { result ≡ cell_from_below (at_ends (pressure_in_steps kept)) p c }
{
    let mut cell = Err(Refusal::NoCell);
    for j in 0..c {
        let pressure = end_pressure(kept, j + 1);
        if pressure.is_nan() {
            return Err(Refusal::WorkNotFinite);
        }
        if pressure > p {
            cell = Ok(j);
            break;
        }
    }
    cell
}

// Refuses where the pressure at c is ≤ p; else visits c − 1 downwards and stops at the first with a pressure ≤ p. Apart from the scan from below: other
// ends are visited, by another test, and another cell is the answer (definitions `cell_from_below`, `cell_from_above`).
fn cell_from_above(kept: Kept, p: f64, c: usize) -> Result<usize, Refusal>
    ensures { result ≡ cell_from_above (at_ends (pressure_in_steps kept)) p c }
{
    let top = end_pressure(kept, c);
    if top.is_nan() {
        return Err(Refusal::WorkNotFinite);
    }
    if top <= p {
        return Err(Refusal::NoCell);
    }
    let mut cell = Err(Refusal::NoCell);
    for j in (0..c).rev() {
        let pressure = end_pressure(kept, j);
        if pressure.is_nan() {
            return Err(Refusal::WorkNotFinite);
        }
        if pressure <= p {
            cell = Ok(j);
            break;
        }
    }
    cell
}

// The plain search for the cell, by the side: two cases, as in `quick_cell`, by which a scan handed over as a closure would have to be chosen, too.
pub fn plain_cell(kept: Kept, p: f64, c: usize, side: Side) -> Result<usize, Refusal>
    ensures { result ≡ plain_cell_of side (at_ends (pressure_in_steps kept)) p c }
{
    match side {
        Side::FromBelow => cell_from_below(kept, p, c),
        Side::FromAbove => cell_from_above(kept, p, c),
    }
}
