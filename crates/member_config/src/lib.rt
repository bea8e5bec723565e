//! Configurations of a set: their members, who votes, and the rules for a configuration (MongoDB manual,
//! replica set configuration; MongoRaftReconfig).
#![tactic(auto)]

mod config;
mod laws;
mod read_json;
mod rule;
mod voters;
mod write_json;

pub use config::{Config, Mem, Member, MemberList};
pub use laws::majorities_meet;
pub use read_json::ConfigTextError;
pub use voters::is_older;
