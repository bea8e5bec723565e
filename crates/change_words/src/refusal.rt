/// Why a node refused to tell its changes.
#[derive(Clone, Copy, Debug, PartialEq, Eq)]
pub enum WatchRefusal {
    /// The node's log is committed as far as the token, and doesn't have its entry.
    UnknownToken,
    /// The node is down.
    NodeDown,
    /// The set doesn't have this node.
    NoSuchNode,
}
