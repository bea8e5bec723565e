//! Optimes that are given out before their entries are written. The entry of an open slot may come at any
//! time, so an oplog can be read only up to the least of them (MongoDB's architecture guide, "oplog holes").
#![tactic(auto)]

mod slots;

pub use slots::{NoSuchSlot, Slots};
