//! A disk that may lose what it didn't sync: what a read gives, and what a crash may leave.
//!
//! A file is what was synced last and the changes since. [`Disk`] says what each of its calls does to it, and
//! what a crash within the call may leave.
#![tactic(auto)]

mod arm;
mod bytes;
mod disk;
mod memory;
mod pages;
mod past;

pub use disk::{Disk, DiskError, Failed};
pub use memory::MemDisk;
