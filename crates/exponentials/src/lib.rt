// 01, "exp x": of one number, and of several side by side; and two sevens as one table. For formulas: one NaN where 01 owes refusal 12.
#![tactic(auto)]

mod lanes;
mod parts;

pub use lanes::{exp, exps, joined};
