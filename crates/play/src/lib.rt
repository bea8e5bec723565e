//! A replica set that is played line by line, in one thread and without disks: it is told the lines of a
//! script, one after another, and gives their replies. It can be looked at, copied, and written as a trace.
#![tactic(auto)]

mod history;
mod lines;
mod machine;
mod play;
mod reading;
mod rule;
mod script;
mod telling;

pub use bson_doc::Mem;
pub use play::{OpenError, Play};
pub use rule::{LineRule, PlayError, write_bad_line};
