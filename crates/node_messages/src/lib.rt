//! What a node in memory does with a message that arrives: `take` begins its turn. A function named
//! `go_on_..` goes on with a turn when its store is on disk.
//!
//! Each file is named after the definitions in set_model that it carries out.
#![tactic(auto)]

mod beats;
mod deliver;
mod fetching;
mod preparing;
mod reports;
mod rollback;
mod tallies;
mod votes;

pub use beats::go_on_installed;
pub use deliver::{go_on_term, take};
pub use rollback::go_on_cut;
pub use votes::{go_on_vote_given, go_on_vote_in_term};
