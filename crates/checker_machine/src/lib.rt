//! The machine that checks a printed run: a replica set of plain lists and ordered maps, without disks,
//! threads or shared memory. Each event does to it what set_model defines.
#![tactic(auto)]

mod delivery;
mod machine;
mod pool;
mod rows;

pub use delivery::deliver;
pub use machine::{Machine, StepError};
pub use rows::act;
