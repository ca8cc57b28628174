// 01, "Marked records, the program, the C call": what a record asks, its answer, and the answer put into an output.
//
// Units: K, mol/dm³, Pa.
#![tactic(auto)]

mod call;
mod work;

pub use call::answer_into;
use fluids::Fluid;
use search::Side;
pub use work::{answer, asked, density_at};

// What a record asks.
#[derive(Clone, Copy)]
pub enum Question {
    // the pressure of a fluid at T and ρ
    State(Fluid, f64, f64),
    // its density at T and P, from a side
    Search(Fluid, f64, f64, Side),
}
