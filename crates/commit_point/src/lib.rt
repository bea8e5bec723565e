//! What members report about themselves, and the commit point that follows from it (MongoDB's replication
//! architecture guide; RaftMongo).
#![tactic(auto)]

mod point;
mod progress;
mod reached;

pub use point::learn;
pub use progress::Progress;
