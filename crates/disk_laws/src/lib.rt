//! What stays on the disks of a set.
#![tactic(auto)]

mod laws;

pub use laws::{
    acknowledged_entries_are_not_lost, acknowledged_entries_stay, counted_entries_stay,
};
