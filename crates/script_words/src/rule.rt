ghost use Rattle.std.specs.Prelude.{◌≡◌};

use doc_text::TextError;
use std::alloc::AllocError;

/// The rule that a line of a script breaks.
#[derive(Clone, Copy, Debug, PartialEq, Eq)]
pub enum ScriptRule {
    /// The line has more than 1,048,576 bytes.
    LineTooLong,
    /// The line isn't UTF-8.
    NotUtf8,
    /// The first command isn't `set`, or there is none.
    NoSetLine,
    /// The first word isn't a command's.
    UnknownCommand,
    /// The line has too few words, or too many.
    WordCount,
    /// A word doesn't name a node of the set, or names the node that the line has named before.
    BadNode,
    /// A number is outside its range.
    BadNumber,
    /// A word doesn't have its form.
    BadWord,
    /// A value isn't in the notation of documents.
    BadText(TextRule),
    /// The rest of the line isn't a configuration.
    BadConfigText,
    /// A block begins inside a block.
    NestedPar,
    /// `thread` or `end` outside a block, or a command of a block before its first thread.
    StrayLine,
    /// A block has more than 16 threads.
    TooManyThreads,
    /// The script ends inside a block.
    OpenPar,
    /// The script has more than 200,000 lines.
    TooManyLines,
}

/// The rule of the notation that a value breaks.
#[derive(Clone, Copy, Debug, PartialEq, Eq)]
pub enum TextRule {
    /// A character isn't possible where it is, or the text ends too early.
    Unexpected,
    /// A number is outside its kind's range.
    Number,
    /// An unknown escape in a string.
    Escape,
    /// No hexadecimal digits, or a wrong number of them.
    Hex,
    /// A document has a name twice.
    DuplicateName,
    /// There are more than 100 levels.
    TooDeep,
    /// A zero byte in a name.
    NameZero,
}

/// Why a line gives no command.
#[derive(Clone, Copy, Debug, PartialEq, Eq)]
pub enum LineError {
    /// The first rule that the line breaks.
    Rule(ScriptRule),
    /// Out of memory.
    Memory,
}

impl From<ScriptRule> for LineError {
    ghost use Rattle.script_words.specs.declared.rule.LineError.TheVariants.{Rule};

    ghost from_gives = { λ rule error. error ≡ Rule rule };

    fn from(rule: ScriptRule) -> Self {
        LineError::Rule(rule)
    }
}

impl From<AllocError> for LineError {
    ghost use Rattle.script_words.specs.declared.rule.LineError.TheVariants.{Memory};

    ghost from_gives = { λ _ error. error ≡ Memory };

    fn from(_: AllocError) -> Self {
        LineError::Memory
    }
}

impl From<TextError> for LineError {
    ghost use Rattle.script_words.specs.Gives.{line_error};

    ghost from_gives = { λ text_error error. error ≡ line_error text_error };

    fn from(error: TextError) -> Self {
        let rule = match error {
            TextError::Unexpected(_) => TextRule::Unexpected,
            TextError::Number(_) => TextRule::Number,
            TextError::Escape(_) => TextRule::Escape,
            TextError::Hex(_) => TextRule::Hex,
            TextError::DuplicateName(_) => TextRule::DuplicateName,
            TextError::TooDeep(_) => TextRule::TooDeep,
            TextError::NameZero(_) => TextRule::NameZero,
            TextError::Memory => return LineError::Memory,
        };
        LineError::Rule(ScriptRule::BadText(rule))
    }
}
