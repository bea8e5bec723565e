// Single marks and words, and the spaces around them.
ghost use Rattle.std.specs.Prelude.{◌≡◌, ◌≢◌, false, ◌<◌, ◌≤◌, ◌+◌, ◌∷◌, List, ℕ, MatchOption, IfOk, IfSome, length, slice_index, drop, IsAscii};
ghost use Rattle.doc_text.specs.Fault.{Gives};
ghost use Rattle.doc_text.specs.Class.{after_spaces};
ghost use Rattle.doc_text.specs.Marks.{begins_with, mark_at, spaced_at, closing_at, word_at, opened_at};

use crate::class::Class;
use crate::fault::{Fault, ReadError, Rule};

/// The text after its first byte, which is ASCII.
pub fn skip(text: &str) -> &str
    requires some { 0 < length text.now }
    requires ascii { slice_index text.now 0 < 128 }
    ensures { result.now ≡ drop 1 text.now }
{
    &text[1..]
}

/// The text after an ASCII byte, where it begins with that byte.
pub fn strip(text: &str, byte: u8) -> Option<&str>
    requires { byte < 128 }
    ensures { MatchOption result ((rest : List ℕ) → text.now ≢ byte ∷ rest)
        (λ rest. text.now ≡ byte ∷ rest.now) }
{
    match text.as_bytes() {
        [first, ..] if *first == byte => Some(skip(text)),
        _ => None,
    }
}

/// The text after an ASCII byte that has to be there.
#[tactic(auto, unfolding(crate::specs::Marks::mark_at))]
pub fn mark(text: &str, byte: u8) -> Result<&str, ReadError>
    requires { byte < 128 }
    ensures gives { Gives (λ rest. rest.now) result (mark_at byte text.now) }
    ensures shorter { IfOk result (λ rest. length rest.now < length text.now) }
{
    strip(text, byte).ok_or(ReadError::Fault(Fault::at(Rule::Unexpected, text)))
}

/// The text after its leading spaces.
pub fn spaces(text: &str) -> &str
    ensures gives { result.now ≡ after_spaces text.now }
    ensures shorter { length result.now ≤ length text.now }
{
    let (_, rest) = Class::Space.run(text);
    rest
}

/// The text after a closing mark with spaces before it, if there is one.
#[tactic(auto, using(crate::proofs::Members::not_begun))]
pub fn end(text: &str, byte: u8) -> Option<&str>
    requires { byte < 128 }
    ensures gives { MatchOption result (begins_with byte (after_spaces text.now) ≡ false)
        (λ rest. after_spaces text.now ≡ byte ∷ rest.now) }
    ensures shorter { IfSome result (λ rest. length rest.now < length text.now) }
{
    strip(spaces(text), byte)
}

/// The text after a mark that has to be there, with spaces around it.
#[tactic(auto, unfolding(crate::specs::Marks::spaced_at))]
pub fn spaced(text: &str, byte: u8) -> Result<&str, ReadError>
    requires { byte < 128 }
    ensures gives { Gives (λ rest. rest.now) result (spaced_at byte text.now) }
    ensures shorter { IfOk result (λ rest. length rest.now < length text.now) }
{
    Ok(spaces(mark(spaces(text), byte)?))
}

/// The text after a mark that has to be there, with spaces before it.
#[tactic(auto, unfolding(crate::specs::Marks::closing_at))]
pub fn closing(text: &str, byte: u8) -> Result<&str, ReadError>
    requires { byte < 128 }
    ensures gives { Gives (λ rest. rest.now) result (closing_at byte text.now) }
    ensures shorter { IfOk result (λ rest. length rest.now < length text.now) }
{
    mark(spaces(text), byte)
}

/// The text after a word that has to be there.
#[tactic(auto, unfolding(crate::specs::Marks::word_at))]
pub fn word<'a>(text: &'a str, letters: &[u8]) -> Result<&'a str, ReadError>
    requires { IsAscii letters.now }
    ensures gives { Gives (λ rest. rest.now) result (word_at letters.now text.now) }
    ensures shorter { IfOk result (λ rest. length rest.now + length letters.now ≤ length text.now) }
{
    let mut rest = text;
    for letter in letters {
        rest = mark(rest, *letter)?;
    }
    Ok(rest)
}

/// The text after a word and an opening parenthesis with spaces around it.
#[tactic(auto, unfolding(crate::specs::Marks::opened_at))]
pub fn opened<'a>(text: &'a str, letters: &[u8]) -> Result<&'a str, ReadError>
    requires { IsAscii letters.now }
    ensures gives { Gives (λ rest. rest.now) result (opened_at letters.now text.now) }
    ensures shorter { IfOk result (λ rest. length rest.now < length text.now) }
{
    spaced(word(text, letters)?, b'(')
}
