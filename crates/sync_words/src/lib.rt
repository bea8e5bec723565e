//! Why no new member is made, and the lines that say this, or what the member begins with.
#![tactic(auto)]

mod putting;
mod refusal;
mod stop;
mod texts;

pub use putting::{put_refusal, put_text};
pub use refusal::SyncRefusal;
pub use stop::SyncStop;
pub use texts::set_synced;
