//! Checks whether a source's bytes are a trace, and puts the line that says so.
#![tactic(auto)]

mod checking;
mod stop;

pub use checking::check_source;
pub use stop::CheckStop;
