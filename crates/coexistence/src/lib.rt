// 02, M-105: true saturation pairs: a liquid's and a vapour's density at one temperature, judged, and proposed.
//
// Units: K, mol/dm³, Pa.
#![tactic(auto)]

mod judge;
mod phase;
mod proposer;
mod round;

pub use judge::accept;
pub use proposer::{saturation_into, saturation_pair};

// A liquid's and a vapour's density.
#[derive(Clone, Copy)]
pub struct Densities {
    pub liquid: f64,
    pub vapour: f64,
}
