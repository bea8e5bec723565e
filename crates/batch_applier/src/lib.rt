//! Batches of oplog entries, applied to a store by several threads. What the store shows afterwards is what
//! applying the entries one after another shows.
#![tactic(auto)]

mod batch;
mod claims;
mod each;
mod gate;
mod part;
mod parting;
mod shard_job;
mod touch;
mod touches;
mod view;
mod workers;

pub use batch::apply_batch;
pub use gate::{Gate, NoGate};
