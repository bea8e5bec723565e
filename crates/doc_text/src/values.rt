// Values, with the documents and arrays among them.
ghost use Rattle.std.specs.Prelude.{◌≡◌, ◌<◌, ℕ, IfOk, IfErr, Ok, None, length, Contains, IsCharBoundary};
ghost use Rattle.bson_doc.specs.Tree.{Tree, found};
ghost use Rattle.bson_doc.specs.View.{tree_of};
ghost use Rattle.doc_text.specs.Fault.{Gives};
ghost use Rattle.doc_text.specs.Refusal.{RulesOut};
ghost use Rattle.doc_text.specs.Spelling.{Stands};
ghost use Rattle.doc_text.specs.Values.{key_at, document_at, array_at, value_at, answer_at, Answers};

use crate::TextError;
use crate::fault::{Fault, Read, ReadError, Rule};
use crate::marks::{end, mark, spaced, spaces};
use crate::names::name;
use crate::scalars::scalar;
use bson_doc::{Doc, DocBuilder, Items, Text, Value};
use std::alloc::Global;

/// How many levels of documents and arrays a value may have.
pub const LEVELS: u32 = 100;

/// The name of a field after those that were read, and the text of its value.
#[tactic(auto, using(bson_doc::proofs::DocLemmas::not_found), unfolding(crate::specs::Values::key_at))]
fn key<'a>(alloc: Global, fields: &DocBuilder, text: &'a str) -> Read<'a, Text>
    ensures gives { Gives (λ x. (x.0, x.1.now)) result (key_at fields.now text.now) }
    ensures shorter { IfOk result (λ x. length x.1.now < length text.now) }
    ensures clean { IfOk result (λ x. ¬ Contains x.0 0) }
    ensures new { IfOk result (λ x. found x.0 fields.now ≡ None) }
{
    let (name, rest) = name(alloc, text)?;
    if fields.has(name.as_str()) {
        return Err(ReadError::Fault(Fault::at(Rule::DuplicateName, text)));
    }
    let rest = spaced(rest, b':')?;
    Ok((name, rest))
}

/// The fields of a document whose values have at most this many levels.
#[cycle(value)]
#[tactic(auto, unfolding(crate::specs::Values::listed_at))]
fn document<'a>(alloc: Global, text: &'a str, levels: u32) -> Read<'a, Doc>
    ensures gives { Gives (λ x. (x.0, x.1.now)) result (document_at (value_at levels) text.now) }
    ensures shorter { IfOk result (λ x. length x.1.now < length text.now) }
{
    let inside = mark(text, b'{')?;
    let mut fields = DocBuilder::new(alloc);
    if let Some(rest) = end(inside, b'}') {
        return Ok((fields.finish(), rest));
    }
    let mut rest = spaces(inside);
    loop {
        let (name, of_value) = key(alloc, &fields, rest)?;
        let (value, after) = value(alloc, of_value, levels)?;
        if let Some(rest) = end(after, b'}') {
            return Ok((fields.finish_with(name, value)?, rest));
        }
        fields = fields.with(name, value)?;
        rest = spaced(after, b',')?;
    }
}

/// The items of an array whose values have at most this many levels.
#[cycle(value)]
#[tactic(auto, unfolding(crate::specs::Values::listed_at))]
fn array<'a>(alloc: Global, text: &'a str, levels: u32) -> Read<'a, Items>
    ensures gives { Gives (λ x. (x.0, x.1.now)) result (array_at (value_at levels) text.now) }
    ensures shorter { IfOk result (λ x. length x.1.now < length text.now) }
{
    let inside = mark(text, b'[')?;
    let mut items = Items::new(alloc);
    if let Some(rest) = end(inside, b']') {
        return Ok((items, rest));
    }
    let mut rest = spaces(inside);
    loop {
        let (value, after) = value(alloc, rest, levels)?;
        items.push(value)?;
        if let Some(rest) = end(after, b']') {
            return Ok((items, rest));
        }
        rest = spaced(after, b',')?;
    }
}

/// A value of at most this many levels.
#[cycle(value)]
#[tactic(auto, unfolding(crate::specs::Values::value_at))]
fn value<'a>(alloc: Global, text: &'a str, levels: u32) -> Read<'a, Value>
    ensures gives { Gives (λ x. (tree_of x.0, x.1.now)) result (value_at levels text.now) }
    ensures shorter { IfOk result (λ x. length x.1.now < length text.now) }
{
    match text.as_bytes() {
        [b'{' | b'[', ..] if levels == 0 => {
            Err(ReadError::Fault(Fault::at(Rule::TooDeep, text)))
        }
        [b'{', ..] => {
            let (fields, rest) = document(alloc, text, levels - 1)?;
            Ok((Value::Document(fields), rest))
        }
        [b'[', ..] => {
            let (items, rest) = array(alloc, text, levels - 1)?;
            Ok((Value::Array(items), rest))
        }
        _ => scalar(alloc, text),
    }
}

/// Reads the value at a place, and gives the place after it.
pub fn read_value(alloc: Global, text: &str, at: usize) -> Result<(Value, usize), TextError>
    requires { IsCharBoundary text.now at }
    // What is read is a value whose spelling, as long as it can be, is at this place.
    ensures found { IfOk result (λ x. Stands text.now at (tree_of x.0) x.1) }
    ensures only { (tree : Tree) (end : ℕ) → Stands text.now at tree end → Answers result (Ok (tree, end)) }
    // Which error it is otherwise.
    ensures exact { Answers result (answer_at text.now at) }
    // Whatever follows the byte that an error names, there is no value.
    ensures no_further { IfErr result (λ error. RulesOut text.now at error) }
{
    match value(alloc, &text[at..], LEVELS) {
        Ok((value, rest)) => Ok((value, text.len() - rest.len())),
        Err(ReadError::Fault(fault)) => Err(fault.placed(text.len())),
        Err(ReadError::Memory) => Err(TextError::Memory),
    }
}
