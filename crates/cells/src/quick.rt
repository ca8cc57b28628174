// 01, "Quick": the search for a cell over a lent list.
ghost use Rattle.std.specs.Prelude.{◌≡◌, ◌<◌, length};
ghost use Rattle.search.specs.Plain.{at_ends};
ghost use Rattle.search.specs.Quick.{entries_of, above, halved_places, enclosing as enclosing_of, quick_cell};
ghost use Rattle.steps.specs.Steps.{pressure_in_steps};
ghost use Rattle.search.specs.BySide.{quick_cell_of};

use kept::Kept;
use refusals::Refusal;
use search::Side;
use steps::end_pressure;

// While b − a > 1, the middle becomes b if its entry is above p, else a; the answer is a. Not `partition_point`: the lists are lent and may be any,
// and where the entries rise and fall the definition `halved_places` says at which place the halving ends.
fn halve_places(list: &[f64], p: f64, c: usize) -> usize
    requires { c < length list.now }
    ensures { result ≡ halved_places (above p (entries_of list.now)) c 0 c }
{
    let mut a = 0;
    let mut b = c;
    while b - a > 1 {
        let middle = (a + b) / 2;
        if list[middle] > p {
            b = middle;
        } else {
            a = middle;
        }
    }
    a
}

// The cell a where the equation's pressures at its ends enclose p, else 16; 12 if either end gives it.
fn enclosing(kept: Kept, p: f64, a: usize) -> Result<usize, Refusal>
    ensures { result ≡ enclosing_of (at_ends (pressure_in_steps kept)) p a }
{
    let low = end_pressure(kept, a);
    if low.is_nan() {
        return Err(Refusal::WorkNotFinite);
    }
    let high = end_pressure(kept, a + 1);
    if high.is_nan() {
        return Err(Refusal::WorkNotFinite);
    }
    if low <= p && p < high {
        return Ok(a);
    }
    Err(Refusal::NotEnclosed)
}

// 8 where place c is not above p, and where there is no place c; else the cell that halving the places 0..c finds.
fn cell_over(kept: Kept, p: f64, c: usize, list: &[f64]) -> Result<usize, Refusal>
    ensures { result ≡ quick_cell (entries_of list.now) (at_ends (pressure_in_steps kept)) p c }
{
    if c < list.len() && list[c] > p {
        return enclosing(kept, p, halve_places(list, p, c));
    }
    Err(Refusal::NoCell)
}

// From below the list of greatest pressures is read, from above that of least ones.
pub fn quick_cell(
    kept: Kept,
    p: f64,
    c: usize,
    side: Side,
    greatest: &[f64],
    least: &[f64],
) -> Result<usize, Refusal>
    ensures { result ≡ quick_cell_of side greatest.now least.now (pressure_in_steps kept) p c }
{
    match side {
        Side::FromBelow => cell_over(kept, p, c, greatest),
        Side::FromAbove => cell_over(kept, p, c, least),
    }
}
