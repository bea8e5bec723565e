//! How far an oplog can be read while slots are open: up to the last entry before the first hole (MongoDB's
//! architecture guide, "oplog holes").
#![tactic(auto)]

mod laws;
mod point;

pub use laws::nothing_appears_after;
pub use point::{visible, visible_open};
