//! Linearizable reads: each shows every write that a majority had acknowledged before it.
#![tactic(auto)]

mod answer;
mod asking;
mod laws;
mod reading;
mod shown;
mod telling;

pub use answer::LinearAnswer;
pub use laws::{entries_are_written, linear_law};
pub use reading::linear_read;
