//! The words that ask for a linear read, and the line of its result.
#![tactic(auto)]

mod asked;
mod texts;
mod told;

pub use asked::{Collection, Linear, read_linear};
pub use texts::set_told;
pub use told::LinearTold;
