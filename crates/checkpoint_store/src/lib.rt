//! The documents of a node at an optime, as records on one disk. A crash while a checkpoint is saved leaves
//! the last one from before it, or the new one.
#![tactic(auto)]

mod begun;
mod checkpoints;
mod fold;
mod marked;
mod numbers;
mod reading;
mod saving;
mod stable;
mod writing;

pub use checkpoints::Checkpoints;
pub use stable::{DocumentMap, Stable};
