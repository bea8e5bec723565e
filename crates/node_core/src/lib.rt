//! A node of a replica set on its two disks: the journal, and the checkpoints.
//!
//! A command or a message is a turn of the node in memory. To carry it out is to put what it stores on a
//! disk, and then to go on. A store that fails leaves the node down, with that store in doubt.
#![tactic(auto)]

mod coming_up;
mod disks;
mod done;
mod down;
mod going_on;
mod node;
mod storing;

pub use done::Done;
pub use node::Node;
