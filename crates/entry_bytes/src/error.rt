// Why bytes aren't an entry.
ghost use Rattle.std.specs.Prelude.{◌≡◌};

use bson_codec::DecodeError;
use bson_doc::KeyError;
use std::alloc::AllocError;
use thiserror::Error;

/// Why bytes can't be read as an entry.
#[derive(Clone, Copy, Debug, PartialEq, Eq, Error)]
pub enum EntryError {
    /// The bytes aren't a document within the bounds of an entry: the rule that they break.
    #[error("no document: {0}")]
    Codec(DecodeError),
    /// The bytes are a document, but not that of any lawful entry.
    #[error("the document is no entry's")]
    Shape,
    #[error("out of memory")]
    Memory,
}

impl From<AllocError> for EntryError {
    ghost use Rattle.entry_bytes.specs.declared.error.EntryError.TheVariants.{Memory};

    ghost from_gives = { λ _ e. e ≡ Memory };

    fn from(_: AllocError) -> Self {
        EntryError::Memory
    }
}

impl From<DecodeError> for EntryError {
    ghost use Rattle.entry_bytes.specs.Answer.{error_of_decode};

    ghost from_gives = { λ rule e. e ≡ error_of_decode rule };

    fn from(error: DecodeError) -> Self {
        match error {
            DecodeError::Memory => EntryError::Memory,
            rule => EntryError::Codec(rule),
        }
    }
}

impl From<KeyError> for EntryError {
    ghost use Rattle.entry_bytes.specs.Answer.{error_of_key};

    ghost from_gives = { λ error e. e ≡ error_of_key error };

    fn from(error: KeyError) -> Self {
        match error {
            KeyError::Kind(_) => EntryError::Shape,
            KeyError::Memory => EntryError::Memory,
        }
    }
}
