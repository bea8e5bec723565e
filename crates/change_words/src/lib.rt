//! The words that ask for the changes of a collection, and the lines that tell them.
#![tactic(auto)]

mod asked;
mod refusal;
mod texts;
mod tokens;

pub use asked::{NodeNumbers, Watch, node_of, read_watch};
pub use refusal::WatchRefusal;
pub use texts::{is_of, refusal_line, set_change, set_resume};
