// The tests of the inputs of every call on a fluid, in 01's order: 2, 3, 4, 5, 6, 7, 13, 10.
//
// Each function gives the permit, or the first refusal that applies. It is the row of tests of one call and reads as 01's row does, a line for each
// test; rows in a table would be closures of unlike arguments. Whether numbers are finite or lists have room is handed over as the test's outcome,
// and the row names its refusal, as the definitions do. A fluid and T, with what else is tested, are the calls' own arguments: no struct of theirs
// exists before they are tested.
#![tactic(auto)]

ghost use Rattle.std.specs.Prelude.{◌≡◌, ◌&&◌};
ghost use Rattle.std.specs.Float.Ieee.Scale as Scale;
ghost use Rattle.inputs.specs.Inputs as Inputs;

use arithmetic::{between, both_finite, finite};
use fluids::Fluid;
use refusals::{Permit, Refusal, tested};

// Each of the four that follow reads its own limits of the fluid's entry; what those of a real number share is `between`.

// T in its range, in K.
fn temperature_permitted(fluid: Fluid, t: f64) -> bool
    ensures { result ≡ (Inputs.temperature_test fluid t).0 }
{
    let numbers = fluids::single_numbers(fluid);
    let least = numbers.least_temperature;
    let greatest = numbers.greatest_temperature;
    between(least, t, greatest)
}

// ρ in its range, in mol/dm³.
fn density_permitted(fluid: Fluid, rho: f64) -> bool
    ensures { result ≡ (Inputs.density_test fluid rho).0 }
{
    let numbers = fluids::single_numbers(fluid);
    let greatest = numbers.greatest_density;
    between(0.0, rho, greatest)
}

// P in its range, in Pa.
fn pressure_permitted(fluid: Fluid, p: f64) -> bool
    ensures { result ≡ (Inputs.pressure_test fluid p).0 }
{
    let numbers = fluids::single_numbers(fluid);
    let least = numbers.least_pressure;
    let greatest = numbers.greatest_pressure;
    between(least, p, greatest)
}

// The top cell count c in its range.
fn top_permitted(fluid: Fluid, c: usize) -> bool
    ensures { result ≡ (Inputs.top_test fluid c).0 }
{
    let numbers = fluids::single_numbers(fluid);
    1 <= c && c <= numbers.top_cells
}

// Both lent lists, of n and m places, have c + 1.
pub fn room(c: usize, n: usize, m: usize) -> bool
    ensures { result ≡ Inputs.room_of c n m }
{
    c < n && c < m
}

// 2 and 3, with whether the input numbers are finite.
fn temperature_inputs(fluid: Fluid, numbers: bool, t: f64) -> Permit
    ensures { result ≡ Inputs.temperature_permit fluid numbers t }
{
    let first = tested(Ok(()), numbers, Refusal::InputNotFinite);
    let temperature = temperature_permitted(fluid, t);
    tested(first, temperature, Refusal::TemperatureOutside)
}

// A state: 2, 3, 4.
pub fn state_inputs(fluid: Fluid, t: f64, rho: f64) -> Permit
    ensures { result ≡ Inputs.state_permit fluid t rho }
{
    let before = temperature_inputs(fluid, both_finite(t, rho), t);
    let density = density_permitted(fluid, rho);
    tested(before, density, Refusal::DensityOutside)
}

// A state for entropy, Gibbs or Helmholtz energy: 2, 3, 4, 10.
pub fn potential_inputs(fluid: Fluid, t: f64, rho: f64) -> Permit
    ensures { result ≡ Inputs.potential_permit fluid t rho }
{
    let before = state_inputs(fluid, t, rho);
    let empty = rho == 0.0;
    tested(before, !empty, Refusal::AtZeroDensity)
}

// A saturation estimate: 2, 3, 13.
pub fn saturation_inputs(fluid: Fluid, t: f64) -> Permit
    ensures { result ≡ Inputs.saturation_permit fluid t }
{
    let before = temperature_inputs(fluid, finite(t), t);
    let numbers = fluids::single_numbers(fluid);
    let critical = numbers.critical_temperature;
    tested(before, t <= critical, Refusal::AboveCritical)
}

// T and both densities are finite.
fn pair_finite(t: f64, liquid: f64, vapour: f64) -> bool
    ensures { result ≡ Scale.finite t && (Scale.finite liquid && Scale.finite vapour) }
{
    finite(t) && both_finite(liquid, vapour)
}

// Both densities in their range.
fn pair_permitted(fluid: Fluid, liquid: f64, vapour: f64) -> bool
    ensures { result ≡ (Inputs.density_test fluid liquid).0 && (Inputs.density_test fluid vapour).0 }
{
    density_permitted(fluid, liquid) && density_permitted(fluid, vapour)
}

// A liquid's and a vapour's density at t: 2, 3, 4. Two numbers, since their struct, `Densities`, stands in a crate above this one.
pub fn pair_inputs(fluid: Fluid, t: f64, liquid: f64, vapour: f64) -> Permit
    ensures { result ≡ Inputs.pair_permit fluid t liquid vapour }
{
    let before = temperature_inputs(fluid, pair_finite(t, liquid, vapour), t);
    let densities = pair_permitted(fluid, liquid, vapour);
    tested(before, densities, Refusal::DensityOutside)
}

// A temperature, with an output that has room or not: 2, 3, 7.
pub fn output_inputs(fluid: Fluid, t: f64, room: bool) -> Permit
    ensures { result ≡ Inputs.output_permit fluid t room }
{
    let before = temperature_inputs(fluid, finite(t), t);
    tested(before, room, Refusal::TooShort)
}

// A pressure that is asked for: 2, 3, 5.
pub fn asked_inputs(fluid: Fluid, t: f64, p: f64) -> Permit
    ensures { result ≡ Inputs.asked_permit fluid t p }
{
    let before = temperature_inputs(fluid, both_finite(t, p), t);
    let pressure = pressure_permitted(fluid, p);
    tested(before, pressure, Refusal::PressureOutside)
}

// A search for p at t: 2, 3, 5, 6, 7.
pub fn search_inputs(fluid: Fluid, t: f64, p: f64, c: usize, room: bool) -> Permit
    ensures { result ≡ Inputs.search_permit fluid t p c room }
{
    let before = asked_inputs(fluid, t, p);
    let top = top_permitted(fluid, c);
    let cells = tested(before, top, Refusal::TopOutside);
    tested(cells, room, Refusal::TooShort)
}

// A preparation at t: 2, 3, 6, 7.
pub fn prepare_inputs(fluid: Fluid, t: f64, c: usize, room: bool) -> Permit
    ensures { result ≡ Inputs.prepare_permit fluid t c room }
{
    let before = temperature_inputs(fluid, finite(t), t);
    let top = top_permitted(fluid, c);
    let cells = tested(before, top, Refusal::TopOutside);
    tested(cells, room, Refusal::TooShort)
}
