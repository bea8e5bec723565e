//! Adds a new member to a set: one of its nodes is asked, the set is closed, and two disks become the
//! member's.
#![tactic(auto)]

mod adding;
mod placing;

pub use adding::add_member;
