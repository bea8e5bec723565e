// Documents and arrays, read field by field. The recursion is on the number of levels left.
ghost use Rattle.std.specs.Prelude.{◌≡◌, length, IfOk, Contains, None};
ghost use Rattle.bson_doc.specs.Tree.{no_fields, no_items, found};
ghost use Rattle.bson_doc.specs.View.{tree_of};
ghost use Rattle.bson_codec.specs.Outcome.{Gives};
ghost use Rattle.bson_codec.specs.Reading.{value_at, field_at, fields_in, item_at, items_in, inner_at, ends_at};

use crate::DecodeError;
use crate::kind::{Kind, kind_named};
use crate::numbers::{bytes_of, u32_of, u64_of};
use crate::parts::{binary_of, boolean_of, byte_of, content_of, known_name_of, name_of, text_of};
use bson_doc::{Doc, DocBuilder, Items, Text, Value};
use std::alloc::Global;

#[cycle(read)]
fn value_of(
    alloc: Global,
    kind: Kind,
    bytes: &[u8],
    levels: u32,
) -> Result<(Value, &[u8]), DecodeError>
    ensures { Gives (λ x. (tree_of x.0, x.1.now)) result (value_at (inner_at levels) kind bytes.now) }
{
    match kind {
        Kind::Text => {
            let (text, rest) = text_of(alloc, bytes)?;
            Ok((Value::Text(text), rest))
        }
        Kind::Document => inner_of(alloc, false, bytes, levels),
        Kind::Array => inner_of(alloc, true, bytes, levels),
        Kind::Binary => binary_of(alloc, bytes),
        Kind::ObjectId => object_id_of(bytes),
        Kind::Boolean => boolean_of(bytes),
        Kind::Null => Ok((Value::Null, bytes)),
        Kind::Int32 => {
            let (number, rest) = u32_of(bytes)?;
            Ok((Value::Int32(number.cast_signed()), rest))
        }
        Kind::Date => {
            let (number, rest) = u64_of(bytes)?;
            Ok((Value::Date(number.cast_signed()), rest))
        }
        Kind::Int64 => {
            let (number, rest) = u64_of(bytes)?;
            Ok((Value::Int64(number.cast_signed()), rest))
        }
        Kind::Timestamp => {
            let (number, rest) = u64_of(bytes)?;
            Ok((Value::Timestamp(number), rest))
        }
    }
}

fn object_id_of(bytes: &[u8]) -> Result<(Value, &[u8]), DecodeError>
    ensures { Gives (λ x. (tree_of x.0, x.1.now)) result (value_at (inner_at 0) Kind.ObjectId bytes.now) }
{
    let (content, rest) = bytes_of(bytes, 12)?;
    let mut id = [0; 12];
    id.copy_from_slice(content);
    Ok((Value::ObjectId(id), rest))
}

/// A document or an array after its length.
#[cycle(read)]
fn inner_of(
    alloc: Global,
    is_array: bool,
    bytes: &[u8],
    levels: u32,
) -> Result<(Value, &[u8]), DecodeError>
    ensures { Gives (λ x. (tree_of x.0, x.1.now)) result (inner_at levels is_array bytes.now) }
{
    if levels == 0 {
        return Err(DecodeError::TooDeep);
    }
    let (content, rest) = content_of(bytes)?;
    if is_array {
        let items = items_of(alloc, content, levels - 1)?;
        return Ok((Value::Array(items), rest));
    }
    let fields = fields_of(alloc, content, levels - 1)?;
    Ok((Value::Document(fields), rest))
}

/// Whether the closing zero is here, as the last byte.
fn is_over(bytes: &[u8]) -> Result<bool, DecodeError>
    ensures { Gives (λ b. b) result (ends_at bytes.now) }
{
    match bytes {
        [0] => Ok(true),
        [] | [0, ..] => Err(DecodeError::Length),
        _ => Ok(false),
    }
}

#[cycle(read)]
#[tactic(auto, unfolding(crate::specs::Reading::field_at))]
fn field_of<'a>(
    alloc: Global,
    seen: &DocBuilder,
    bytes: &'a [u8],
    levels: u32,
) -> Result<((&'a str, Value), &'a [u8]), DecodeError>
    ensures field { Gives (λ x. ((x.0.0.now, tree_of x.0.1), x.1.now)) result
        (field_at (inner_at levels) seen.now bytes.now) }
    ensures clean { IfOk result (λ x. ¬ Contains x.0.0.now 0) }
    ensures new { IfOk result (λ x. found x.0.0.now seen.now ≡ None) }
{
    let (byte, rest) = byte_of(bytes)?;
    let kind = kind_named(byte)?;
    let (name, rest) = name_of(rest)?;
    if seen.has(name) {
        return Err(DecodeError::DuplicateName);
    }
    let (value, rest) = value_of(alloc, kind, rest, levels)?;
    Ok(((name, value), rest))
}

/// The fields of a document after its length. Each takes at least a byte, so there are at most as many
/// turns as bytes.
#[cycle(read)]
pub fn fields_of(alloc: Global, bytes: &[u8], levels: u32) -> Result<Doc, DecodeError>
    ensures { Gives (λ d. d) result (fields_in (length bytes.now) (inner_at levels) no_fields bytes.now) }
{
    let mut fields = DocBuilder::new(alloc);
    let mut rest = bytes;
    for _ in 0..bytes.len() {
        if is_over(rest)? {
            return Ok(fields.finish());
        }
        let ((name, value), after) = field_of(alloc, &fields, rest, levels)?;
        fields = fields.with(Text::from_str(alloc, name)?, value)?;
        rest = after;
    }
    Err(DecodeError::Length)
}

#[cycle(read)]
#[tactic(auto, unfolding(crate::specs::Reading::item_at))]
fn item_of(
    alloc: Global,
    place: usize,
    bytes: &[u8],
    levels: u32,
) -> Result<(Value, &[u8]), DecodeError>
    ensures { Gives (λ x. (tree_of x.0, x.1.now)) result (item_at (inner_at levels) place bytes.now) }
{
    let (byte, rest) = byte_of(bytes)?;
    let kind = kind_named(byte)?;
    let mut name = place.to_string(alloc)?;
    name.push('\0')?;
    let rest = known_name_of(name.as_bytes(), rest)?;
    value_of(alloc, kind, rest, levels)
}

/// The items of an array after its length, like `fields_of`.
#[cycle(read)]
fn items_of(alloc: Global, bytes: &[u8], levels: u32) -> Result<Items, DecodeError>
    ensures { Gives (λ i. i) result (items_in (length bytes.now) (inner_at levels) 0 no_items bytes.now) }
{
    let mut items = Items::new(alloc);
    let mut rest = bytes;
    for place in 0..bytes.len() {
        if is_over(rest)? {
            return Ok(items);
        }
        let (value, after) = item_of(alloc, place, rest, levels)?;
        items.push(value)?;
        rest = after;
    }
    Err(DecodeError::Length)
}
