// What a turn at a shared set did, for proofs alone.
use set_model::{Command, Event};

/// What one turn did. No value of this type is ever made.
pub enum Attempt {
    /// The event of a command that was done.
    Done(Event),
    /// The line and the command of a step that ended in an error.
    Undone(u32, Command),
}
