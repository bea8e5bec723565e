//! Runs of a question: what its acts come to, how its wants are met, and that a search which takes standings
//! that are covered by others for these misses none of its runs.
#![tactic(auto)]

mod laws;

pub use laws::{acts_are_covered, followers_are_runs, searches_are_whole};
