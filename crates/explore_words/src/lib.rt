//! Questions: what may be done in a set from a beginning on, and what is looked for; the bytes of one as its
//! acts and wants, or its first faulty line with the rule that it breaks.
#![tactic(auto)]

mod acting;
mod events;
mod fault;
mod lists;
mod looking;
mod open_want;
mod question;
mod reading;
mod tell;
mod texts;
mod wanting;
mod whole;
mod words;

pub use fault::{QuestionError, QuestionFault, QuestionRule};
pub use lists::{Acts, Commands, Looks, Wants};
pub use question::{Act, Look, Question, Route, Sight, Want, WantedEvent};
pub use tell::write_question_fault;
pub use whole::parse_question;
