/// Why no member was added.
#[derive(Clone, Copy, Debug, PartialEq, Eq)]
pub enum SyncRefusal {
    /// The set doesn't have the node that was asked.
    NoSuchNode,
    /// The set has 50 nodes.
    NoNumberLeft,
    /// The node is down.
    NodeDown,
    /// Nothing that the node has applied is committed.
    NothingCommitted,
}
