//! Random scripts, each from a seed.
#![tactic(auto)]

mod generated;
mod happening;

pub use generated::generate;
