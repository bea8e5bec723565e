//! Elections: whether a voter gives its vote, and how a candidate counts votes (MongoDB's replication
//! architecture guide, elections; MongoRaftReconfig).
#![tactic(auto)]

mod dry_run;
mod tally;
mod voter;

pub use dry_run::DryRun;
pub use tally::{Count, Tally};
pub use voter::{VoterView, decide};
