// What is done in a state.

/// Which act is done, and with which message it begins.
#[derive(Clone, Copy, Debug, PartialEq, Eq)]
pub struct Doing {
    /// The place of the act.
    pub act: u32,
    /// How it begins.
    pub first: First,
}

/// The message that an act begins with.
#[derive(Clone, Copy, Debug, PartialEq, Eq)]
pub enum First {
    /// It begins with none.
    Nothing,
    /// The one of this number, which isn't dead.
    Live(u32),
    /// Any one that is dead. It changes nothing.
    Dead,
}
