//! Entries of an oplog as bytes. Each is one BSON document (BSON 1.1); `specs/Layout.antt` lists its members.
//! The bytes of a lawful entry are read as that entry, and no other bytes are accepted.
#![tactic(auto)]

mod appending;
mod direct_reading;
mod error;
mod laws;
mod ops;
mod places;
mod reading;
mod writing;

pub use appending::put_bytes;
pub use error::EntryError;
pub use laws::documents_tell_entries;
pub use reading::of_bytes;
pub use writing::{body, letter, to_bytes};
