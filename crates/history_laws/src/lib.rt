//! In which order what a log has was written, and that what majority reads show grows.
#![tactic(auto)]

mod laws;

pub use laws::{documents_are_in_order, majority_reads_grow};
