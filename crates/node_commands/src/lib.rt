//! What a node in memory does with each command of its own that isn't answered at once (`node_answers`):
//! elections, messages to others, batches, flushes, checkpoints, new configurations and acknowledgements.
//!
//! `start` begins the turn of such a command. A function named `go_on_..` goes on with a turn when its store
//! is on disk.
#![tactic(auto)]

mod asking;
mod concerns;
mod disk;
mod elections;
mod reconfig;
mod sending;
mod starting;

pub use disk::{go_on_checkpoint, go_on_flush};
pub use elections::{go_on_campaign, go_on_drain};
pub use reconfig::go_on_reconfig;
pub use starting::start;
