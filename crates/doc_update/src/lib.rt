//! Writes to one document: how each changes the existing document, what is logged for it, and why it is
//! refused (MongoDB manual, update operators).
#![tactic(auto)]

mod borrowed;
mod checks;
mod increment;
mod ordered;
mod preparing;
mod write;

pub use borrowed::BorrowedWrite;
pub use checks::{check, check_borrowed};
pub use preparing::{prepare, prepare_borrowed};
pub use write::{Prepared, WriteOp, WriteRefusal};
