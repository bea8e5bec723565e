//! Makes two empty disks those of a new member: a copy of what is pinned, which is read back and described.
#![tactic(auto)]

mod making;
mod telling;

pub use making::make;
