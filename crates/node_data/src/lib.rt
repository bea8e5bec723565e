//! What a node has written: its log, the open slots with their writers, and the documents with their
//! versions, as far as the log is applied.
#![tactic(auto)]

mod documents;
mod following;
mod keeping;
mod restoring;
mod session_log;
mod sharing;
mod slots;
mod told;
mod writable;
mod writer_map;
mod writing;

pub use keeping::NodeData;
pub use told::{Told, optimes_of, told_again};
