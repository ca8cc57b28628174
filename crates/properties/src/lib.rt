// 01, "With V, K, Q": the nine properties of a state, as calls.
#![tactic(auto)]

mod calls;

pub use calls::{
    answer_of, energy, enthalpy, entropy, gibbs_energy, helmholtz_energy, isobaric_heat_capacity,
    isochoric_heat_capacity, pressure, sound_speed,
};

// What is asked of a state.
#[derive(Clone, Copy)]
pub enum Property {
    Pressure,
    Energy,
    Enthalpy,
    IsochoricHeatCapacity,
    Entropy,
    GibbsEnergy,
    HelmholtzEnergy,
    IsobaricHeatCapacity,
    SoundSpeed,
}
