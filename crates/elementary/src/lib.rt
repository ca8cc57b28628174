// 01, "Arithmetic": powers; and exp, ln and root as calls.
//
// power is for formulas: it answers one NaN where 01 owes refusal 12. The three calls answer a number or a numbered refusal.
#![tactic(auto)]

mod calls;
mod powers;

pub use calls::{exponential, logarithm, square_root};
pub use powers::power;
