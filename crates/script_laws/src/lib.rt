//! Laws of generated scripts.
#![tactic(auto)]

mod laws;

pub use laws::generated_is_script;
