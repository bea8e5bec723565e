//! Entries of an oplog applied to documents, one after another.
#![tactic(auto)]

mod fold;

pub use fold::{apply_entry, document_after};
