//! Change streams: a consumer of a set's changes sees each committed entry once, in order, and can go on at
//! any node with the token of the last one.
#![tactic(auto)]

mod answering;
mod error;
mod laws;
mod stream;

pub use answering::up_to;
pub use error::WatchError;
pub use laws::stream_law;
pub use stream::{ChangeStream, log_shown, next, open};
