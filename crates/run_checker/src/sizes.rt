/// The sizes of a set: how many nodes it has, how many of its members have a vote, and how many nodes are
/// members.
pub type Sizes = (u32, u32, u32);
