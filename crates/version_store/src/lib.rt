//! Documents with their versions: what each document was from each optime on. So a read can be made as of any
//! optime whose versions are kept. The documents are spread over shards by a hash of their place.
#![tactic(auto)]

mod collection;
mod cut;
mod history;
mod laws;
mod listing;
mod place;
mod row;
mod runs;
mod shard;
mod shard_documents;
mod shown;
mod slots;
mod store;
mod tree;

pub use laws::{a_prune_is_not_seen, going_back_shows_the_earlier};
pub use place::shard_of;
pub use shard::Shard;
pub use shown::Shown;
pub use store::{Current, HoldError, VersionStore};
