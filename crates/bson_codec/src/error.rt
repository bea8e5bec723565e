// Why a document is not written, and why bytes are not read.
ghost use Rattle.std.specs.Prelude.{◌≡◌};

use std::alloc::{AllocError, AllocFailed};
use thiserror::Error;

/// Why a document is not written.
#[derive(Clone, Copy, Debug, PartialEq, Eq, Error)]
pub enum EncodeError {
    #[error("the document has too many levels")]
    TooDeep,
    #[error("the document has too many bytes")]
    TooLarge,
    #[error("out of memory")]
    Memory,
}

impl From<AllocError> for EncodeError {
    ghost use Rattle.bson_codec.specs.declared.error.EncodeError.TheVariants.{Memory};

    ghost from_gives = { λ _ e. e ≡ Memory };

    fn from(_: AllocError) -> Self {
        EncodeError::Memory
    }
}

/// The first rule that is broken, reading from left to right. An element is checked in this order: its kind,
/// its name, whether the name is new, and its value. A string: its length, its letters, and its closing zero.
#[derive(Clone, Copy, Debug, PartialEq, Eq, Error)]
pub enum DecodeError {
    /// The input ends before the document does.
    #[error("the input is too short")]
    Short,
    /// A length is negative, too small, or goes past the end of the document that it is in; or a field goes
    /// past that end, or a closing zero is missing or comes early.
    #[error("a length does not fit")]
    Length,
    /// A byte that names no kind of value that is read here.
    #[error("the kind {0} is not read")]
    Kind(u8),
    #[error("a name or a string is no UTF-8")]
    Utf8,
    /// A boolean is neither 0 nor 1.
    #[error("a boolean is neither 0 nor 1")]
    Bool,
    /// An item's name is not its place in decimal.
    #[error("the name of an item is not its place")]
    ArrayName,
    #[error("a name comes twice in a document")]
    DuplicateName,
    #[error("the document has too many levels")]
    TooDeep,
    #[error("the document has too many bytes")]
    TooLarge,
    /// Bytes follow the document.
    #[error("bytes follow the document")]
    Trailing,
    #[error("out of memory")]
    Memory,
}

impl From<AllocError> for DecodeError {
    ghost use Rattle.bson_codec.specs.declared.error.DecodeError.TheVariants.{Memory};

    ghost from_gives = { λ _ e. e ≡ Memory };

    fn from(_: AllocError) -> Self {
        DecodeError::Memory
    }
}

impl<T: Drop> From<AllocFailed<T>> for DecodeError {
    ghost use Rattle.bson_codec.specs.declared.error.DecodeError.TheVariants.{Memory};

    ghost from_gives = { λ _ e. e ≡ Memory };

    fn from(_: AllocFailed<T>) -> Self {
        DecodeError::Memory
    }
}
