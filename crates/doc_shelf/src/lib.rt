//! The documents that result from a prefix of a log. The prefix grows and shrinks by single entries.
#![tactic(auto)]

mod documents;
mod shelf;
mod stood;

pub use shelf::Shelf;
