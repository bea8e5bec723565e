//! Traces: a run, printed so that it can be played again. Here a run is written as one, the lines of a trace
//! are read, and bytes are checked to be one.
#![tactic(auto)]

mod checking;
mod commands;
mod lines;
mod reading;
mod sizes;
mod verdict;
mod words;
mod writing;

pub use bson_doc::Mem;
pub use checking::{CheckError, check, recall_sound_write};
pub use commands::write_command;
pub use lines::next_line;
pub use reading::{read_event, read_header};
pub use sizes::Sizes;
pub use verdict::{write_count, write_no_trace};
pub use writing::{set_entry, set_header, write_trace};
