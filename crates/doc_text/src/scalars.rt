// Values that hold no others.
ghost use Rattle.std.specs.Prelude.{◌<◌, ◌≤◌, IfOk, IsAscii, codes, length};
ghost use Rattle.bson_doc.specs.Tree as tree;
ghost use Rattle.bson_doc.specs.View.{tree_of};
ghost use Rattle.doc_text.specs.Fault.{Gives};
ghost use Rattle.doc_text.specs.Scalars.{date_at, first_at, binary_at, id_at, time_at, string_at, constant_at, scalar_at};

use crate::fault::{Fault, Read, ReadError, Rule};
use crate::hex_text::{binary_hex, id_hex};
use crate::integers::{long, natural, number};
use crate::marks::{closing, mark, opened, spaced, word};
use crate::strings::letters;
use bson_doc::Value;
use std::alloc::Global;

#[tactic(auto, unfolding(crate::specs::Scalars::string_at))]
fn string<'a>(alloc: Global, text: &'a str) -> Read<'a, Value>
    ensures gives { Gives (λ x. (tree_of x.0, x.1.now)) result (string_at text.now) }
    ensures shorter { IfOk result (λ x. length x.1.now < length text.now) }
{
    let (string, rest) = letters(alloc, mark(text, b'"')?, false)?;
    Ok((Value::Text(string), rest))
}

#[tactic(auto, unfolding(crate::specs::Scalars::date_at))]
fn date(text: &str) -> Read<'_, Value>
    ensures gives { Gives (λ x. (tree_of x.0, x.1.now)) result (date_at text.now) }
    ensures shorter { IfOk result (λ x. length x.1.now < length text.now) }
{
    let (milliseconds, rest) = long(opened(text, b"Date")?)?;
    let rest = closing(rest, b')')?;
    Ok((Value::Date(milliseconds), rest))
}

/// The first of two arguments after a word, and the text of the second.
#[tactic(auto, unfolding(crate::specs::Scalars::first_at))]
fn first<'a>(text: &'a str, letters: &[u8], most: u32) -> Read<'a, u32>
    requires { IsAscii letters.now }
    ensures gives { Gives (λ x. (x.0, x.1.now)) result (first_at letters.now most text.now) }
    ensures shorter { IfOk result (λ x. length x.1.now < length text.now) }
    ensures within { IfOk result (λ x. x.0 ≤ most) }
{
    let (number, rest) = natural(opened(text, letters)?, most)?;
    let rest = spaced(rest, b',')?;
    Ok((number, rest))
}

#[tactic(auto, unfolding(crate::specs::Scalars::binary_at))]
fn binary<'a>(alloc: Global, text: &'a str) -> Read<'a, Value>
    ensures gives { Gives (λ x. (tree_of x.0, x.1.now)) result (binary_at text.now) }
    ensures shorter { IfOk result (λ x. length x.1.now < length text.now) }
{
    let (subtype, rest) = first(text, b"Bin", 255)?;
    let (bytes, rest) = binary_hex(alloc, mark(rest, b'"')?)?;
    let rest = closing(rest, b')')?;
    Ok((Value::Binary(subtype as u8, bytes), rest))
}

#[tactic(auto, unfolding(crate::specs::Scalars::id_at))]
fn id(text: &str) -> Read<'_, Value>
    ensures gives { Gives (λ x. (tree_of x.0, x.1.now)) result (id_at text.now) }
    ensures shorter { IfOk result (λ x. length x.1.now < length text.now) }
{
    let (bytes, rest) = id_hex(mark(opened(text, b"Id")?, b'"')?)?;
    let rest = closing(rest, b')')?;
    Ok((Value::ObjectId(bytes), rest))
}

#[tactic(auto, unfolding(crate::specs::Scalars::time_at))]
fn time(text: &str) -> Read<'_, Value>
    ensures gives { Gives (λ x. (tree_of x.0, x.1.now)) result (time_at text.now) }
    ensures shorter { IfOk result (λ x. length x.1.now < length text.now) }
{
    let (seconds, rest) = first(text, b"Time", u32::MAX)?;
    let (increment, rest) = natural(rest, u32::MAX)?;
    let timestamp = u64::from(seconds) * (1 << 32) + u64::from(increment);
    let rest = closing(rest, b')')?;
    Ok((Value::Timestamp(timestamp), rest))
}

#[tactic(auto, unfolding(crate::specs::Scalars::constant_at))]
fn null(text: &str) -> Read<'_, Value>
    ensures gives { Gives (λ x. (tree_of x.0, x.1.now)) result
        (constant_at (codes "null") tree.null text.now) }
    ensures shorter { IfOk result (λ x. length x.1.now < length text.now) }
{
    let rest = word(text, b"null")?;
    Ok((Value::Null, rest))
}

#[tactic(auto, unfolding(crate::specs::Scalars::constant_at))]
fn boolean<'a>(text: &'a str, letters: &[u8], truth: bool) -> Read<'a, Value>
    requires some { 0 < length letters.now }
    requires ascii { IsAscii letters.now }
    ensures gives { Gives (λ x. (tree_of x.0, x.1.now)) result
        (constant_at letters.now (tree.boolean truth) text.now) }
    ensures shorter { IfOk result (λ x. length x.1.now < length text.now) }
{
    let rest = word(text, letters)?;
    Ok((Value::Boolean(truth), rest))
}

/// A value that is neither a document nor an array.
#[tactic(auto, unfolding(crate::specs::Scalars::scalar_at))]
pub fn scalar<'a>(alloc: Global, text: &'a str) -> Read<'a, Value>
    ensures gives { Gives (λ x. (tree_of x.0, x.1.now)) result (scalar_at text.now) }
    ensures shorter { IfOk result (λ x. length x.1.now < length text.now) }
{
    let [first, ..] = text.as_bytes() else {
        return Err(ReadError::Fault(Fault::at(Rule::Unexpected, text)));
    };
    match first {
        b'"' => string(alloc, text),
        b'n' => null(text),
        b't' => boolean(text, b"true", true),
        b'f' => boolean(text, b"false", false),
        b'D' => date(text),
        b'B' => binary(alloc, text),
        b'I' => id(text),
        b'T' => time(text),
        _ => number(text),
    }
}
