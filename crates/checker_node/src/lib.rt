//! A node of the checker: a node of a replica set made of plain lists and ordered maps, without disks, and
//! what each command and each message does to it, as set_model defines it.
//!
//! Each file is named after the definitions of set_model that it carries out: `beats`, `disk`, `rollback`.
#![tactic(auto)]

mod admitted;
mod answer;
mod beats;
mod changes;
mod concerns;
mod copying;
mod disk;
mod elections;
mod fetching;
mod node;
mod points;
mod reads;
mod reconfig;
mod reports;
mod rollback;
mod sameness;
mod showing;
mod stores;
mod votes;
mod write;
mod writers;

pub use answer::Answer;
pub use node::Node;
pub use sameness::{mixed, with_optime};
pub use stores::vote_record;
