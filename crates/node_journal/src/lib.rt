//! The journal of a node: votes, configurations, entries and cuts, as records on one disk. A crash while a
//! record is added leaves the records without it, or with it. A journal of the first form is opened as one of
//! the newest form.
#![tactic(auto)]

mod fold;
mod journal;
mod log;
mod numbers;
mod reading;
mod writing;

pub use journal::Journal;
pub use repl_msg::{Kept, Record};
