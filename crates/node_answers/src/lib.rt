//! What a node in memory answers at once: writes, the steps of writers, and questions about itself. Nothing
//! is stored or sent.
#![tactic(auto)]

mod admitted;
mod answering;
mod listing;
mod reads;
mod write;
mod writers;

pub use answering::{answer, is_plain};
