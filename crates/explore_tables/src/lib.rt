//! Tables of a search, in which values have numbers: nodes, messages, lists, rows and pairs of numbers, and
//! what was computed for pairs. Values are found by their hashes, so that each is held once. Contracts say
//! that what is found is there, and that numbers keep their meaning. They don't say that what is there is
//! found.
#![tactic(auto)]

mod content;
mod hashing;
mod index;
mod kept;
mod list_table;
mod message_table;
mod node_table;
mod numbers;
mod pair_table;
mod row_table;

pub use content::same_message;
pub use hashing::list_hash;
pub use index::Index;
pub use kept::{Kept, KeptNumber};
pub use list_table::ListTable;
pub use message_table::MessageTable;
pub use node_table::NodeTable;
pub use numbers::{has, number_of, times, with};
pub use pair_table::PairTable;
pub use row_table::RowTable;
