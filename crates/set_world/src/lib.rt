//! A replica set: its nodes on their disks, every message that was sent, and the events that led there.
//!
//! `World::open` makes a set on empty disks, `step` does one command after another, and `close` hands back
//! the history and the disks. The nodes and the messages are always what the events of the history make of
//! the opening set.
#![tactic(auto)]

mod acting;
mod command;
mod disks;
mod error;
mod opening;
mod points;
mod pool;
mod stepper;
mod world;

pub use disks::empty_disks;
pub use error::StepError;
pub use stepper::Stepper;
pub use world::World;
