//! Asks nodes of a set one after another for the changes of a collection, and puts the lines of these.
#![tactic(auto)]

mod following;
mod putting;
mod stop;

pub use following::follow;
pub use stop::WatchStop;
