//! Turns: threads take turns on one value that keeps a history, in the order of their tickets. Which part of
//! the history was seen, and which calls are whose, is known without a lock.
#![tactic(auto)]

mod board;
mod pass;
mod passes;
mod rule;
mod turned;
mod turns;
mod view;

pub use board::Board;
pub use pass::Pass;
pub use turned::Turned;
