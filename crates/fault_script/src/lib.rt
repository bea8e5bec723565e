//! Reads the bytes of a script as its commands, or as its first faulty line with the rule that it breaks; and
//! reads a command alone.
#![tactic(auto)]

mod command;
mod fault;
mod lines;
mod lists;
mod reading;
mod script;
mod whole;

pub use chance_script::generate;
pub use command::parse_command;
pub use fault::{ScriptError, ScriptFault};
pub use lines::{as_text, is_passed_over, line_feed, next_line, text_of};
pub use lists::{Lines, Threads};
pub use script::{Part, Parts, Rest, Script};
pub use script_words::{LineError as CommandError, ScriptRule, TextRule};
pub use whole::parse;
