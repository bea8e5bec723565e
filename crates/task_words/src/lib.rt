//! What the words after a program's name ask for.
#![tactic(auto)]

mod words;

pub use words::{Task, Wanted, asks_check, read_task, read_wanted};
