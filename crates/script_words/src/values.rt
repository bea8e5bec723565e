// The values at the end of a line, in the notation of documents.
ghost use Rattle.std.specs.Option.{option_copied};
ghost use Rattle.bson_doc.specs.View.{tree_of};
ghost use Rattle.script_words.specs.Gives.{Reads, Gives};
ghost use Rattle.script_words.specs.Values.{text_at, value_at, after_space, last_value, last_document};

use crate::rule::{LineError, ScriptRule, TextRule};
use crate::words::Left;
use bson_doc::{Doc, Value};
use doc_text::read_value;
use std::alloc::Global;

/// The rest of a line, which has at least one byte.
pub fn text(left: Left<'_>) -> Result<&str, ScriptRule>
    ensures { Reads (λ text. text.now) result (text_at (option_copied left.entry)) }
{
    match left {
        Some(text) if !text.is_empty() => Ok(text),
        _ => Err(ScriptRule::WordCount),
    }
}

/// The value that begins a text, with what follows it.
#[tactic(auto, unfolding(crate::specs::Values::value_at))]
pub fn value(alloc: Global, text: &str) -> Result<(Value, &str), LineError>
    ensures { Gives (λ x. (tree_of x.0, x.1.now)) result (value_at text.now) }
{
    let (value, end) = read_value(alloc, text, 0)?;
    Ok((value, &text[end..]))
}

/// The text after the single space that separates a value from the next one.
pub fn after_space(text: &str) -> Result<&str, ScriptRule>
    ensures { Reads (λ rest. rest.now) result (after_space text.now) }
{
    match text.strip_prefix(' ') {
        Some(rest) => Ok(rest),
        None => Err(ScriptRule::BadText(TextRule::Unexpected)),
    }
}

/// The value that the whole text spells. This and the next one are inlined, which saves moves of values.
#[inline(always)]
#[tactic(auto, unfolding(crate::specs::Values::last_value))]
pub fn last_value(alloc: Global, text: &str) -> Result<Value, LineError>
    ensures { Gives tree_of result (last_value text.now) }
{
    let (value, rest) = value(alloc, text)?;
    if rest.is_empty() {
        Ok(value)
    } else {
        Err(LineError::Rule(ScriptRule::BadText(TextRule::Unexpected)))
    }
}

/// The document that the whole text spells.
#[inline(always)]
#[tactic(auto, unfolding(crate::specs::Values::last_document))]
pub fn last_document(alloc: Global, text: &str) -> Result<Doc, LineError>
    ensures { Gives (λ document. document) result (last_document text.now) }
{
    match last_value(alloc, text)? {
        Value::Document(document) => Ok(document),
        _ => Err(LineError::Rule(ScriptRule::BadText(TextRule::Unexpected))),
    }
}
