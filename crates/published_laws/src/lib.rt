//! MongoRaftReconfig and RaftMongo as relations, from memory of the public texts, and each run of a set and
//! of the small machine as a behaviour of theirs.
#![tactic(auto)]

mod laws;

pub use laws::{
    raft_mongo_actions_happen, raft_mongo_behaviours, reconfig_actions_happen, reconfig_behaviours,
    sets_are_reconfigs,
};
