// Why a reader stopped.
ghost use Rattle.std.specs.Prelude.{◌≡◌};
ghost use Rattle.doc_text.specs.declared.fault.ReadError.TheVariants.{Memory};

use crate::TextError;
use std::alloc::{AllocError, AllocFailed};

/// The rule that a text breaks.
#[derive(Clone, Copy)]
pub enum Rule {
    Unexpected,
    Number,
    Escape,
    Hex,
    DuplicateName,
    TooDeep,
    NameZero,
}

/// A broken rule, and how many bytes are left from the first byte that can't continue a value.
#[derive(Clone, Copy)]
pub struct Fault {
    pub rule: Rule,
    pub left: usize,
}

/// Why a reader stopped: out of memory, or the text breaks a rule.
#[derive(Clone, Copy)]
pub enum ReadError {
    Memory,
    Fault(Fault),
}

/// What a reader took from the start, and the text after it.
pub type Read<'a, T> = Result<(T, &'a str), ReadError>;

impl From<AllocError> for ReadError {
    ghost from_gives = { λ _ e. e ≡ Memory };

    fn from(_: AllocError) -> Self {
        ReadError::Memory
    }
}

impl<T: Drop> From<AllocFailed<T>> for ReadError {
    ghost from_gives = { λ _ e. e ≡ Memory };

    fn from(_: AllocFailed<T>) -> Self {
        ReadError::Memory
    }
}

impl Fault {
    ghost use Rattle.doc_text.specs.Fault.{fault_at, placed};

    /// The fault of a text whose first byte, or whose early end, breaks the rule.
    pub fn at(rule: Rule, text: &str) -> Self
        ensures { result ≡ fault_at rule text.now }
    {
        Fault {
            rule,
            left: text.len(),
        }
    }

    /// The error to return, with the place of the fault in the whole text, which has `len` bytes.
    pub fn placed(self, len: usize) -> TextError
        ensures { result ≡ placed len self }
    {
        let place = len.saturating_sub(self.left);
        match self.rule {
            Rule::Unexpected => TextError::Unexpected(place),
            Rule::Number => TextError::Number(place),
            Rule::Escape => TextError::Escape(place),
            Rule::Hex => TextError::Hex(place),
            Rule::DuplicateName => TextError::DuplicateName(place),
            Rule::TooDeep => TextError::TooDeep(place),
            Rule::NameZero => TextError::NameZero(place),
        }
    }
}
