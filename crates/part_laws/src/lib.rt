//! The crates that each decide one thing of the protocol (votes, commit points, concerns, reads, sources,
//! fetching, rollback and configurations) decide as a node of `set_model` does: given the node's values, each
//! answers what the node answers. This is proved here where the crate and the model don't already cite the
//! same definition: where the crate's answers have a type of their own (`ConcernAnswer`, `ReadAt`,
//! `RollbackRefusal`, `ConfigRefusal`), or where it is given less than a node has (a log and the optime up to
//! which it is visible, a list of what was heard).
#![tactic(auto)]

mod laws;

pub use laws::{
    answers_are_taken_as_a_node_does, commit_points_move_as_a_node_s,
    common_points_are_the_last_in_common, concerns_are_answered_as_a_node_does,
    configurations_are_refused_as_a_node_does, entries_are_told_as_a_node_does,
    reads_show_what_a_node_does, rollbacks_are_planned_as_a_node_does,
    sources_are_chosen_as_a_node_does, tallies_grow_as_a_node_s, votes_are_decided_as_a_node_does,
};
