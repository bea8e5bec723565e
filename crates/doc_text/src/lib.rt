//! The notation of documents: the text that a person types and reads for a value.
//!
//! A value is written as in `{name: value, ..}`, `[value, ..]`, `5`, `5L`, `"text"`, `true`, `null`,
//! `Date(5)`, `Bin(0, "00ff")`, `Id("000000000000000000000001")` and `Time(5, 1)`.
#![tactic(auto)]

mod class;
mod errors;
mod fault;
mod hex_text;
mod integers;
mod marks;
mod names;
mod scalars;
mod strings;
mod values;
mod writing;

pub use bson_doc::Mem;
pub use errors::TextError;
pub use values::read_value;
pub use writing::{write_document, write_value};
