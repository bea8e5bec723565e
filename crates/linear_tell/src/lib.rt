//! Does a linear read that words ask for, and puts the line of its result.
#![tactic(auto)]

mod stop;
mod telling;

pub use stop::LinearStop;
pub use telling::tell;
