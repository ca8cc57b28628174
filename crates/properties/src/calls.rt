// The nine properties as calls on the fluid of a number: a number, or a numbered refusal. Units: K, mol/dm³, Pa, J/mol, J/(mol K), m/s.
ghost use Rattle.std.specs.Prelude.{◌≡◌, not, ◌&&◌};
ghost use Rattle.std.specs.Float.Ieee.{le};
ghost use Rattle.std.specs.Float.Ieee.Scale as Scale;
ghost use Rattle.arithmetic.specs.Checked.{real};
ghost use Rattle.inputs.specs.Numbered.{by_number};
ghost use Rattle.equation.specs.State.{state_at};
ghost use Rattle.properties.specs.Calls as Calls;

use crate::Property;
use arithmetic::{answer_from, both_finite, finite};
use equation::{State, pressure_at, state_at};
use fluids::Fluid;
use inputs::{potential_inputs, state_inputs};
use kept::keep;
use refusals::{Answer, Permit, Refusal, tested};
use stability::{Stability, isobaric_value, sound_speed_value, stability_of};
use values::{
    energy_value, enthalpy_value, entropy_value, gibbs_value, helmholtz_value, isochoric_value,
};

// V, K and Q are worked.
fn all_finite(v: f64, k: f64, q: f64) -> bool
    ensures { result ≡ Scale.finite v && (Scale.finite k && Scale.finite q) }
{
    finite(v) && both_finite(k, q)
}

// Neither Q ≤ 0 nor V ≤ 0.
fn stable(v: f64, q: f64) -> bool
    ensures { result ≡ not (le q (real 0)) && not (le v (real 0)) }
{
    !(q <= 0.0) && !(v <= 0.0)
}

// 12 where V, K or Q is not finite, then 11.
fn stability_permit(stability: Stability) -> Permit
    ensures { result ≡ Calls.stable_of stability.v stability.k stability.q }
{
    let worked = all_finite(stability.v, stability.k, stability.q);
    let first = tested(Ok(()), worked, Refusal::WorkNotFinite);
    tested(first, stable(stability.v, stability.q), Refusal::NotStable)
}

// A density of minus zero is worked as +0.
fn worked_density(rho: f64) -> f64
    ensures { result ≡ Calls.worked_density rho }
{
    if rho == 0.0 { 0.0 } else { rho }
}

// 2, 3, 4; and 10 where the formula has the logarithm of the density. A match, as in `worked`: the nine are closed, and none can be missing.
fn inputs_of(property: Property, fluid: Fluid, t: f64, rho: f64) -> Permit
    ensures { result ≡ Calls.inputs_of property fluid t rho }
{
    match property {
        Property::Entropy | Property::GibbsEnergy | Property::HelmholtzEnergy => {
            potential_inputs(fluid, t, rho)
        }
        Property::Pressure
        | Property::Energy
        | Property::Enthalpy
        | Property::IsochoricHeatCapacity
        | Property::IsobaricHeatCapacity
        | Property::SoundSpeed => state_inputs(fluid, t, rho),
    }
}

// Isobaric heat capacity of a permitted state. What this and the sound speed share is `stability_permit`; one function for both would take the value
// as a closure and save two lines.
fn stable_isobaric(state: State) -> Answer
    ensures { result ≡ Calls.stable_isobaric state }
{
    let stability = stability_of(state);
    stability_permit(stability)?;
    answer_from(isobaric_value(stability))
}

// Sound speed of a permitted state.
fn stable_sound_speed(state: State) -> Answer
    ensures { result ≡ Calls.stable_sound_speed state }
{
    let stability = stability_of(state);
    stability_permit(stability)?;
    answer_from(sound_speed_value(stability))
}

// The state of a fluid at T and ρ.
fn state_of(fluid: Fluid, t: f64, rho: f64) -> State
    ensures { result ≡ state_at fluid t rho }
{
    state_at(keep(fluid, t), rho)
}

// The property of a permitted state. The pressure is worked without the other five sums. Nine formulas of 01, each in the line of its property: as
// closures they would have to be chosen by this same match.
fn worked(property: Property, fluid: Fluid, t: f64, rho: f64) -> Answer
    ensures { result ≡ Calls.worked_of property (state_at fluid t rho) }
{
    match property {
        Property::Pressure => answer_from(pressure_at(keep(fluid, t), rho)),
        Property::Energy => answer_from(energy_value(state_of(fluid, t, rho))),
        Property::Enthalpy => answer_from(enthalpy_value(state_of(fluid, t, rho))),
        Property::IsochoricHeatCapacity => answer_from(isochoric_value(state_of(fluid, t, rho))),
        Property::Entropy => answer_from(entropy_value(state_of(fluid, t, rho))),
        Property::GibbsEnergy => answer_from(gibbs_value(state_of(fluid, t, rho))),
        Property::HelmholtzEnergy => answer_from(helmholtz_value(state_of(fluid, t, rho))),
        Property::IsobaricHeatCapacity => stable_isobaric(state_of(fluid, t, rho)),
        Property::SoundSpeed => stable_sound_speed(state_of(fluid, t, rho)),
    }
}

// The property of a fluid at T and ρ, or the first refusal: 2, 3, 4, 10 where the formula has ln δ, then 12 and 11 as the work meets
// them.
pub fn answer_of(property: Property, fluid: Fluid, t: f64, rho: f64) -> Answer
    ensures { result ≡ Calls.call_of property fluid t rho }
{
    inputs_of(property, fluid, t, rho)?;
    worked(property, fluid, t, worked_density(rho))
}

// The property of the fluid of a number: 17, then as `answer_of` refuses.
fn answer_numbered(property: Property, number: u32, t: f64, rho: f64) -> Answer
    ensures { result ≡ by_number Err number (λ F. Calls.call_of property F t rho) }
{
    answer_of(property, Fluid::try_from(number)?, t, rho)
}

// The nine calls of 01 by name. The work is said once, in `answer_numbered`: `property(Property::Pressure, 0, t, rho)` would be no plainer to a
// caller than `pressure(0, t, rho)`. They take T and ρ as 01 writes them, and no struct of the two, which a caller would first have to build.

// Pressure at T and ρ: 17, 2, 3, 4, 12; 12 never occurs (docs/NO-ANSWER.md).
pub fn pressure(number: u32, t: f64, rho: f64) -> Answer
    ensures { result ≡ by_number Err number (λ F. Calls.pressure_of F t rho) }
{
    answer_numbered(Property::Pressure, number, t, rho)
}

// Energy at T and ρ: 17, 2, 3, 4, 12; 12 never occurs (docs/NO-ANSWER.md).
pub fn energy(number: u32, t: f64, rho: f64) -> Answer
    ensures { result ≡ by_number Err number (λ F. Calls.energy_of F t rho) }
{
    answer_numbered(Property::Energy, number, t, rho)
}

// Enthalpy at T and ρ: 17, 2, 3, 4, 12; 12 never occurs (docs/NO-ANSWER.md).
pub fn enthalpy(number: u32, t: f64, rho: f64) -> Answer
    ensures { result ≡ by_number Err number (λ F. Calls.enthalpy_of F t rho) }
{
    answer_numbered(Property::Enthalpy, number, t, rho)
}

// Isochoric heat capacity at T and ρ: 17, 2, 3, 4, 12; 12 never occurs (docs/NO-ANSWER.md).
pub fn isochoric_heat_capacity(number: u32, t: f64, rho: f64) -> Answer
    ensures { result ≡ by_number Err number (λ F. Calls.isochoric_of F t rho) }
{
    answer_numbered(Property::IsochoricHeatCapacity, number, t, rho)
}

// Entropy at T and ρ: 17, 2, 3, 4, 10, 12.
pub fn entropy(number: u32, t: f64, rho: f64) -> Answer
    ensures { result ≡ by_number Err number (λ F. Calls.entropy_of F t rho) }
{
    answer_numbered(Property::Entropy, number, t, rho)
}

// Gibbs energy at T and ρ: 17, 2, 3, 4, 10, 12.
pub fn gibbs_energy(number: u32, t: f64, rho: f64) -> Answer
    ensures { result ≡ by_number Err number (λ F. Calls.gibbs_of F t rho) }
{
    answer_numbered(Property::GibbsEnergy, number, t, rho)
}

// Helmholtz energy at T and ρ: 17, 2, 3, 4, 10, 12.
pub fn helmholtz_energy(number: u32, t: f64, rho: f64) -> Answer
    ensures { result ≡ by_number Err number (λ F. Calls.helmholtz_of F t rho) }
{
    answer_numbered(Property::HelmholtzEnergy, number, t, rho)
}

// Isobaric heat capacity at T and ρ: 17, 2, 3, 4, then 12 and 11 as the work meets them. Whether 12 occurs is not decided
// (docs/NO-ANSWER.md).
pub fn isobaric_heat_capacity(number: u32, t: f64, rho: f64) -> Answer
    ensures { result ≡ by_number Err number (λ F. Calls.isobaric_of F t rho) }
{
    answer_numbered(Property::IsobaricHeatCapacity, number, t, rho)
}

// Sound speed at T and ρ: 17, 2, 3, 4, then 12 and 11 as the work meets them.
pub fn sound_speed(number: u32, t: f64, rho: f64) -> Answer
    ensures { result ≡ by_number Err number (λ F. Calls.sound_speed_of F t rho) }
{
    answer_numbered(Property::SoundSpeed, number, t, rho)
}
