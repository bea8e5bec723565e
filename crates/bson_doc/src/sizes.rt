// The bytes that a document takes, counted up to a limit, and no further.
ghost use Rattle.std.specs.Prelude.{◌≡◌, ◌+◌, ◌-◌, ◌^◌, min, length};
ghost use Rattle.std.specs.Fmt.{decimal};
ghost use Rattle.bson_doc.specs.View.{tree_of};
ghost use Rattle.bson_doc.specs.Length.{value_length, document_length, items_length};

use crate::{Doc, Items, Value};

/// How many digits a number has.
fn digits(number: usize) -> u64
    ensures { result ≡ length (decimal number) }
{
    let mut count = 1;
    let mut left = number / 10;
    while left > 0 {
        count += 1;
        left /= 10;
    }
    count
}

#[cycle(size)]
fn value_size(value: &Value, most: u64) -> u64
    ensures { result ≡ min (value_length (tree_of value.now)) most }
{
    match value {
        Value::Null => 0,
        Value::Int32(_) => most.min(4),
        Value::Int64(_) | Value::Date(_) | Value::Timestamp(_) => most.min(8),
        Value::Text(text) => most.min((text.as_str().len() as u64).saturating_add(5)),
        Value::Document(document) => size_up_to(document, most),
        Value::Array(items) => items_size(items, most),
        Value::Binary(_, bytes) => most.min((bytes.as_slice().len() as u64).saturating_add(5)),
        Value::ObjectId(id) => most.min(id.as_slice().len() as u64),
        Value::Boolean(_) => most.min(1),
    }
}

#[cycle(size)]
fn items_size(items: &Items, most: u64) -> u64
    ensures { result ≡ min (5 + items_length 0 items.now) most }
{
    let mut total: u64 = 5;
    for place in 0..items.len() {
        if total >= most {
            return most;
        }
        let Some(value) = items.at(place) else {
            unreachable!()
        };
        total = total
            .saturating_add(2)
            .saturating_add(digits(place))
            .saturating_add(value_size(value, most));
    }
    most.min(total)
}

/// How many bytes the document takes in BSON, or `most` where it takes more.
#[cycle(size)]
pub fn size_up_to(document: &Doc, most: u64) -> u64
    ensures { result ≡ min (document_length document.now) most }
{
    let mut total: u64 = 5;
    for place in 0..document.len() {
        if total >= most {
            return most;
        }
        let Some((name, value)) = document.at(place) else {
            unreachable!()
        };
        total = total
            .saturating_add(2)
            .saturating_add(name.len() as u64)
            .saturating_add(value_size(value, most));
    }
    most.min(total)
}

/// How many bytes the document takes in BSON, or `u64::MAX` where it takes more.
pub fn size(document: &Doc) -> u64
    ensures { result ≡ min (document_length document.now) (2 ^ 64 - 1) }
{
    size_up_to(document, u64::MAX)
}
