// What events do.
use repl_msg::Message;

/// What an event does at a node.
#[derive(Drop)]
pub struct Deed {
    /// The number of what comes of the node.
    pub(crate) node: u32,
    /// The numbers of the messages that are sent, in order.
    pub(crate) sent: Vec<u32>,
    /// The places of the wants that are met by it.
    pub(crate) meets: Vec<u32>,
}

/// What an event does at a node, beside what comes of the node.
#[derive(Drop)]
pub(crate) struct Done {
    /// The messages that are sent, in order.
    pub(crate) sent: Vec<Message>,
    /// The places of the wants that are met by it.
    pub(crate) meets: Vec<u32>,
}

/// What an event does in a cell.
#[derive(Clone, Copy, Debug, PartialEq, Eq)]
pub struct Step {
    /// The cell after it, without what is sent in it.
    pub(crate) cell: u32,
    /// The number of what it does at the node.
    pub(crate) deed: u32,
    /// Whether the node is another one then.
    pub(crate) moves: bool,
    /// Whether a message dies by it.
    pub(crate) kills: bool,
}
