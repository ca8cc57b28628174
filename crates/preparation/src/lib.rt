// 01, "Preparing": the lists G and L of the pressures of an isotherm.
#![tactic(auto)]

ghost use Rattle.std.specs.Prelude.{◌≡◌, ◌+◌, ◌<◌, ◌≤◌, length};
ghost use Rattle.fluids.specs.Entry.{most_cells};
ghost use Rattle.search.specs.Plain.{at_ends};
ghost use Rattle.search.specs.Lists.{some_not_finite, greatest_list, least_list};
ghost use Rattle.steps.specs.Steps.{step_pressure_of};
ghost use Rattle.preparation.specs.Filled.{Filled};
ghost use Rattle.preparation.specs.Prepare.{prepared_by, prepare_of, greatest_after, least_after, prepare_by, greatest_by, least_by};

use fluids::Fluid;
use inputs::{prepare_inputs, room};
use kept::{Kept, keep};
use lists::{clear, sweep_down, sweep_up};
use refusals::Refusal;
use steps::end_pressure;

// Two lists with c beside them, here and in the calls over them: the caller lends them, C among others, and any lengths are answered, by 7 where one is
// short. `prepare_of` asks once whether both have room for c.

// The pressures at the ends 0..c into both lists; 12 at the first that gives it.
fn fill(kept: Kept, c: usize, greatest: &mut [f64], least: &mut [f64]) -> Result<(), Refusal>
    requires { (c ≤ most_cells) × (c < length greatest.old) × (c < length least.old) }
    ensures { Filled (at_ends (step_pressure_of kept)) c
        greatest.old least.old result greatest.new least.new }
{
    for j in 0..=c {
        let pressure = end_pressure(kept, j);
        if pressure.is_nan() {
            return Err(Refusal::WorkNotFinite);
        }
        greatest[j] = pressure;
        least[j] = pressure;
    }
    Ok(())
}

// G and L of the ends 0..c into the first c + 1 places of the lists, or +0 where one of the ends gives 12.
fn prepare_lists(
    kept: Kept,
    c: usize,
    greatest: &mut [f64],
    least: &mut [f64],
) -> Result<(), Refusal>
    requires { (c ≤ most_cells) × (c < length greatest.old) × (c < length least.old) }
    ensures { (result ≡ prepared_by (Ok tt) (some_not_finite (at_ends (step_pressure_of kept)) (c + 1)))
        × (greatest.new ≡ greatest_list (at_ends (step_pressure_of kept)) c greatest.old)
        × (least.new ≡ least_list (at_ends (step_pressure_of kept)) c least.old) }
{
    match fill(kept, c, greatest, least) {
        Ok(()) => {
            sweep_up(c, greatest);
            sweep_down(c, least);
            Ok(())
        }
        Err(r) => {
            clear(c, greatest);
            clear(c, least);
            Err(r)
        }
    }
}

// The greatest and the least pressures of a fluid over c cells at t K into the first c + 1 places of two lent lists; or 2, 3, 6, 7, and 12
// with +0 in those places. 12 never occurs (docs/NO-ANSWER.md).
fn prepare_of(
    fluid: Fluid,
    t: f64,
    c: usize,
    greatest: &mut [f64],
    least: &mut [f64],
) -> Result<(), Refusal>
    ensures { (result ≡ prepare_of fluid t c greatest.old least.old)
        × (greatest.new ≡ greatest_after fluid t c greatest.old least.old)
        × (least.new ≡ least_after fluid t c greatest.old least.old) }
{
    let enough = room(c, greatest.len(), least.len());
    prepare_inputs(fluid, t, c, enough)?;
    prepare_lists(keep(fluid, t), c, greatest, least)
}

// The pressures of the fluid of a number: 17, then as `prepare_of` refuses.
pub fn prepare(
    number: u32,
    t: f64,
    c: usize,
    greatest: &mut [f64],
    least: &mut [f64],
) -> Result<(), Refusal>
    ensures { (result ≡ prepare_by number t c greatest.old least.old)
        × (greatest.new ≡ greatest_by number t c greatest.old least.old)
        × (least.new ≡ least_by number t c greatest.old least.old) }
{
    prepare_of(Fluid::try_from(number)?, t, c, greatest, least)
}
