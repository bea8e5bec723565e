//! A copy of a member's log and documents on the two disks of a new member. It can be interrupted at any disk
//! call, and continues from there.
#![tactic(auto)]

mod comparing;
mod copying;
mod documents;
mod error;
mod pinned;
mod reading;
mod writing;

pub use copying::copy;
pub use error::CopyError;
pub use pinned::{Kept1, Pinned};
pub use reading::{Standing, read};
