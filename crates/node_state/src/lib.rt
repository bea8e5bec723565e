//! A node of a replica set in memory: its log and documents, its vote, its points, its configuration, and
//! what it heard of others.
//!
//! What it does with a command or a message is a turn: it is finished, or it stores something and goes on
//! when that is on disk. Here are the node, its turns, how it comes up, and the steps that commands and
//! messages share.
#![tactic(auto)]

mod changes;
mod coming;
mod leading;
mod points;
mod sending;
mod state;
mod taken_reply;
mod turn;

pub use changes::vote_record;
pub use coming::Coming;
pub use leading::in_term;
pub use points::earlier;
pub use state::State;
pub use taken_reply::TakenReply;
pub use turn::{Answer, Continuation, HeardBeat, MessageContinuation, NewConfig, Turn};
