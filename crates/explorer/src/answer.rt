use set_model::Event;

/// What there is to say of a question.
#[derive(Drop)]
pub enum Answer {
    /// A run of these events, with so many acts, meets all wants, and none with fewer acts does.
    Found { acts: u32, events: Vec<Event> },
    /// No run meets all wants. There are so many states.
    NoneAtAll { states: u32 },
    /// No run with at most as many acts as were asked for does. So many states were reached.
    NoneWithin { states: u32 },
    /// No run with at most so many acts does. These reach so many states, and one act more needs more than
    /// there may be.
    Unknown { acts: u32, states: u32 },
}
