// 01, "Density from pressure": the cell that a search finds among the coarse ends of a kept temperature, and the step in it.
//
// Parts of calls: they ask nothing of T, P, c or the lists. Beyond MOST_CELLS cells a pressure is one NaN, and that is 12. The kept temperature and
// P stay two arguments: the calls have them so, and a struct of both would be taken apart in every function.
#![tactic(auto)]

mod in_cell;
mod plain;
mod quick;

pub use in_cell::step_in_cell;
pub use plain::plain_cell;
pub use quick::quick_cell;
