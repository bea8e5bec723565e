// The fields of a document by their places.
ghost use Rattle.std.specs.Prelude.{◌≡◌, ◌≢◌, ◌+◌, ◌<◌, ◌^◌, ℕ, ℤ, pos, List, MatchOption, IfSome};
ghost use Rattle.bson_doc.specs.Tree.{Tree, int32, int64, text, document, timestamp, Fields, field, fields_from};
ghost use Rattle.bson_doc.specs.View.{tree_of};
ghost use Rattle.entry_bytes.specs.Layout.{only_id, part};

use bson_doc::{Doc, Text, Value};

/// The value at a place, if it has this name.
pub(crate) fn member<'a>(doc: &'a Doc, place: usize, name: &str) -> Option<&'a Value>
    ensures { MatchOption result
        ((value : Tree) (rest : Fields) → fields_from place doc.now ≢ field name.now value rest)
        (λ v. fields_from place doc.now ≡ field name.now (tree_of v.now) (fields_from (place + 1) doc.now)) }
{
    let (own, value) = doc.at(place)?;
    if own != name {
        return None;
    }
    Some(value)
}

pub(crate) fn timestamp_at(doc: &Doc, place: usize, name: &str) -> Option<u64>
    ensures { MatchOption result
        ((ts : ℕ) (rest : Fields) → fields_from place doc.now ≢ field name.now (timestamp ts) rest)
        (λ ts. fields_from place doc.now ≡ field name.now (timestamp ts) (fields_from (place + 1) doc.now)) }
{
    match member(doc, place, name)? {
        Value::Timestamp(ts) => Some(*ts),
        _ => None,
    }
}

/// The number of an int64 that isn't negative.
pub(crate) fn count_at(doc: &Doc, place: usize, name: &str) -> Option<u64>
    ensures value { MatchOption result
        ((n : ℕ) (rest : Fields) → fields_from place doc.now ≢ field name.now (int64 (pos n)) rest)
        (λ n. fields_from place doc.now ≡ field name.now (int64 (pos n)) (fields_from (place + 1) doc.now)) }
    ensures fits { IfSome result (λ n. n < 2 ^ 63) }
{
    match member(doc, place, name)? {
        Value::Int64(number) if *number >= 0 => Some(*number as u64),
        _ => None,
    }
}

/// The number of an int64 from 0 to 4,294,967,295.
pub(crate) fn narrow_at(doc: &Doc, place: usize, name: &str) -> Option<u32>
    ensures value { MatchOption result
        ((n : ℕ) (rest : Fields) → n < 2 ^ 32
        → fields_from place doc.now ≢ field name.now (int64 (pos n)) rest)
        (λ n. fields_from place doc.now ≡ field name.now (int64 (pos n)) (fields_from (place + 1) doc.now)) }
    ensures fits { IfSome result (λ n. n < 2 ^ 32) }
{
    let number = count_at(doc, place, name)?;
    if number >= 1 << 32 {
        return None;
    }
    Some(number as u32)
}

pub(crate) fn int32_at(doc: &Doc, place: usize, name: &str) -> Option<i32>
    ensures { MatchOption result
        ((n : ℤ) (rest : Fields) → fields_from place doc.now ≢ field name.now (int32 n) rest)
        (λ n. fields_from place doc.now ≡ field name.now (int32 n) (fields_from (place + 1) doc.now)) }
{
    match member(doc, place, name)? {
        Value::Int32(number) => Some(*number),
        _ => None,
    }
}

pub(crate) fn text_at<'a>(doc: &'a Doc, place: usize, name: &str) -> Option<&'a Text>
    ensures { MatchOption result
        ((letters : List ℕ) (rest : Fields) → fields_from place doc.now ≢ field name.now (text letters) rest)
        (λ t. fields_from place doc.now ≡ field name.now (text t.now) (fields_from (place + 1) doc.now)) }
{
    match member(doc, place, name)? {
        Value::Text(letters) => Some(letters),
        _ => None,
    }
}

pub(crate) fn document_at<'a>(doc: &'a Doc, place: usize, name: &str) -> Option<&'a Doc>
    ensures { MatchOption result
        ((fields rest : Fields) → fields_from place doc.now ≢ field name.now (document fields) rest)
        (λ d. fields_from place doc.now ≡ field name.now (document d.now) (fields_from (place + 1) doc.now)) }
{
    match member(doc, place, name)? {
        Value::Document(fields) => Some(fields),
        _ => None,
    }
}

/// The fields of a part at a place, which is not empty.
pub(crate) fn part_at<'a>(doc: &'a Doc, place: usize, name: &str) -> Option<&'a Doc>
    ensures { MatchOption result
        ((first : List ℕ) (value : Tree) (others rest : Fields)
        → fields_from place doc.now ≢ field name.now (document (field first value others)) rest)
        (λ d. fields_from place doc.now ≡ part name.now d.now (fields_from (place + 1) doc.now)) }
{
    let part = document_at(doc, place, name)?;
    if part.len() == 0 {
        return None;
    }
    Some(part)
}

/// The value of `{_id: value}`.
pub(crate) fn only_id(doc: &Doc) -> Option<&Value>
    ensures { MatchOption result ((id : Tree) → doc.now ≢ only_id id)
        (λ id. doc.now ≡ only_id (tree_of id.now)) }
{
    let id = member(doc, 0, "_id")?;
    if doc.len() != 1 {
        return None;
    }
    Some(id)
}
