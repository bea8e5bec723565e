//! What a client of a set can rely on in every run: what a majority acknowledged is one log, linear reads
//! show exactly what of it was written when they read, and a session's write has one answer.
#![tactic(auto)]

mod laws;

pub use laws::{
    acknowledged_logs_chain, confirmed_retries, linearizable, majority_reads_are_shown,
    writes_are_told_once,
};
