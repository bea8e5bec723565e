//! Entries of an oplog: what each does to which document, and the documents that a log of them leaves.
//!
//! The definitions are in `specs/`: what an entry has to satisfy (`Lawful`), which document it touches and
//! what becomes of that (`Step`), the order of a log (`Log`), its documents (`Docs`), and how far it can
//! be read (`Visible`).
#![tactic(auto)]

mod change;
mod entry;
mod index;
mod names;

pub use change::with_changes;
pub use entry::{Entry, Op, Session, SharedOp};
pub use index::FieldIndex;
