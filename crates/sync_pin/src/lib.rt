//! Asks a node for what a new member of its set begins with.
#![tactic(auto)]

mod asking;
mod showing;
mod stepping;

pub use asking::pin;
