// 01, "Density from pressure": the plain search, and the quick one over prepared lists.
//
// Units: K, Pa, mol/dm³. A search answers a density and a word, or a numbered refusal.
#![tactic(auto)]

mod calls;
mod state;

pub use calls::{plain, plain_of, quick};
