use thiserror::Error;

/// Why no value can be read at a place. The number is an offset in bytes into the whole text: that of the
/// first byte that can't continue a value, or the text's length where the text ends too early.
#[derive(Clone, Copy, Debug, PartialEq, Eq, Error)]
pub enum TextError {
    #[error("nothing goes on so at byte {0}")]
    Unexpected(usize),
    /// A number outside its kind's range, at the number's first byte.
    #[error("a number out of range at byte {0}")]
    Number(usize),
    #[error("no escape at byte {0}")]
    Escape(usize),
    /// A byte that isn't a hexadecimal digit, or a closing quotation mark after a wrong number of digits.
    #[error("no hexadecimal digits at byte {0}")]
    Hex(usize),
    /// A name that its document already has, at the first byte of the second one.
    #[error("a name twice at byte {0}")]
    DuplicateName(usize),
    /// A bracket that opens level 101.
    #[error("too many levels at byte {0}")]
    TooDeep(usize),
    #[error("a zero byte in a name at byte {0}")]
    NameZero(usize),
    #[error("out of memory")]
    Memory,
}
