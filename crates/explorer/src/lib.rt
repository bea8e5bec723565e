//! Whether a question has a run: all that may be done from its beginning on, in each order, over states of
//! which each stands for all worlds that are alike.
#![tactic(auto)]

mod answer;
mod expanding;
mod limits;
mod replay;
mod search;

pub use answer::Answer;
pub use search::explore;
