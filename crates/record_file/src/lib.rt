//! An append-only list of byte records on one disk, whole across crashes.
#![tactic(auto)]

mod adding;
mod error;
mod file;
mod opening;
mod parse;
mod repair;
mod store;

pub use error::FileError;
pub use file::RecordFile;
