// The probe's calls of numbers alone, group after group: who has no call of the number hands it on to the next.
#![tactic(auto)]

ghost use Rattle.std.specs.Prelude.{◌≡◌, ◌/◌, Err};
ghost use Rattle.refusals.specs.declared.Refusal.TheVariants.{UnknownMark};
ghost use Rattle.fluids.specs.Entries.{fluid_numbered};
ghost use Rattle.probe_calls.specs.Calls.{look_up, property_calls, plain_answer, own_top, fluid_number, answer_of_numbers};

use density::plain;
use elementary::{exponential, logarithm, square_root};
use fluids::{Fluid, single_numbers};
use outcomes::found_answer;
use properties::{
    energy, enthalpy, entropy, gibbs_energy, helmholtz_energy, isobaric_heat_capacity,
    isochoric_heat_capacity, pressure, sound_speed,
};
use refusals::{Answer, Refusal};
use saturation::{saturated_liquid, saturated_vapour, saturation_pressure};
use search::Side;

// The number of the fluid that a call asks, as the package's calls take it. A number of more than 32 bits is not cut, or it could become a
// fluid's: it becomes the greatest, which is none's.
pub fn fluid_number(call: u64) -> u32
    ensures { (result ≡ fluid_number call) × (fluid_numbered result ≡ fluid_numbered (call / 100)) }
{
    u32::try_from(call / 100).unwrap_or(u32::MAX)
}

// The cells up to the own top of the fluid of a number; none where no fluid has it, which a search refuses with 17 before it looks at them
// (definition `own_top`).
pub fn own_top(number: u32) -> usize
    ensures { result ≡ own_top (fluid_numbered number) }
{
    match Fluid::try_from(number) {
        Ok(fluid) => single_numbers(fluid).top_cells,
        Err(_) => 0,
    }
}

// 1 to 3, elementary functions of x; and all that follow, which are calls of a fluid.
#[tactic(auto, unfolding(crate::specs::Calls::look_up, crate::specs::Calls::answer_of_numbers))]
pub fn answer_of_numbers(call: u64, x: f64, y: f64) -> Answer
    ensures { result ≡ answer_of_numbers call x y }
{
    match call {
        1 => exponential(x),
        2 => logarithm(x),
        3 => square_root(x),
        _ => answer_of_fluid(fluid_number(call), call % 100, x, y),
    }
}

// 10 to 18, properties at the temperature x and the density y; 20 to 22, estimates at the temperature x; 30 and 31, densities at the
// temperature x and the pressure y.
#[tactic(auto, unfolding(crate::specs::Calls::look_up))]
fn answer_of_fluid(number: u32, which: u64, x: f64, y: f64) -> Answer
    ensures { result ≡ look_up which (property_calls (fluid_numbered number) x y) (Err UnknownMark) }
{
    match which {
        10 => pressure(number, x, y),
        11 => energy(number, x, y),
        12 => enthalpy(number, x, y),
        13 => isochoric_heat_capacity(number, x, y),
        14 => entropy(number, x, y),
        15 => gibbs_energy(number, x, y),
        16 => helmholtz_energy(number, x, y),
        17 => isobaric_heat_capacity(number, x, y),
        18 => sound_speed(number, x, y),
        20 => saturation_pressure(number, x),
        21 => saturated_liquid(number, x),
        22 => saturated_vapour(number, x),
        30 => plain_answer(number, x, y, Side::FromBelow),
        31 => plain_answer(number, x, y, Side::FromAbove),
        _ => Err(Refusal::UnknownMark),
    }
}

// The density alone, up to the fluid's own top; or 17 and as the plain search refuses. Beside the word of the same search and the quick search's
// density, each a line over `own_top`: one for all would take the search and the part as closures.
fn plain_answer(number: u32, t: f64, p: f64, side: Side) -> Answer
    ensures { result ≡ plain_answer (fluid_numbered number) side t p }
{
    found_answer(plain(number, t, p, own_top(number), side))
}
