//! A replica set that threads step in turns. There is one history of all their steps. How many entries a node
//! has had committed can be read without waiting.
#![tactic(auto)]

mod attempt;
mod attempts;
mod caller;
mod set;
mod shared;
mod turning;

pub use attempt::Attempt;
pub use caller::Caller;
pub use shared::{Pass, SharedSet};
