//! BSON 1.1: the bytes of documents, written, counted and read within bounds.
#![tactic(auto)]

mod encoding;
mod error;
mod kind;
mod laws;
mod numbers;
mod parts;
mod reading;
mod whole;
mod writing;

pub use bson_doc::{Bounds, DOCUMENT, ENTRY, size};
pub use encoding::encode;
pub use error::{DecodeError, EncodeError};
pub use laws::bytes_spell_one_document;
pub use numbers::{u32_of, u64_of};
pub use whole::decode;
pub use writing::{FEW_LETTERS, close, put_document, put_field, put_size, put_string, write};
