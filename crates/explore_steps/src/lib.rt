//! What events do to nodes, each computed once, and how a run of a question's acts goes on by that: over
//! numbers that stand for whatever worlds are alike. The only error of a call is out of memory, after which
//! what it was to change is of no use.
#![tactic(auto)]

mod commands;
mod course;
mod dead;
mod deed;
mod doing;
mod events;
mod going;
mod laws;
mod looking;
mod seeing;
mod steps;
mod wanting;

pub use course::Course;
pub use dead::is_dead;
pub use deed::{Deed, Step};
pub use doing::{Doing, First};
pub use looking::{is_look_met, shown_by};
pub use steps::Steps;
pub use wanting::{Cause, met_wants};
