//! What a node of the checker is made of: its log with documents and sessions, its journal, its open slots
//! and its writers, as plain lists and ordered maps. Contracts see each as set_model's `Node` has it.
#![tactic(auto)]

mod doc_log;
mod holders;
mod journal;
mod last_writes;
mod merging;
mod optimes;
mod sameness;
mod sessions;
mod slots;
mod touches;
mod unkept;
mod writer_map;

pub use doc_log::DocLog;
pub use journal::Journal;
pub use optimes::{earlier, last_optime};
pub use sameness::{same_entries, same_entry};
pub use slots::Slots;
pub use unkept::{copy_unkept, pass_kept};
pub use writer_map::WriterMap;
