// The levels of a document, counted up to a limit, so that the recursion goes no deeper.
ghost use Rattle.std.specs.Prelude.{◌≡◌, ◌+◌, min};
ghost use Rattle.bson_doc.specs.View.{tree_of};
ghost use Rattle.bson_doc.specs.Length.{value_levels, document_levels, items_levels};

use crate::{Doc, Items, Value};

#[cycle(depth)]
fn levels_of(value: &Value, most: u64) -> u64
    ensures { result ≡ min (value_levels (tree_of value.now)) most }
{
    match value {
        Value::Document(document) => levels(document, most),
        Value::Array(items) => item_levels(items, most),
        _ => 0,
    }
}

#[cycle(depth)]
fn item_levels(items: &Items, most: u64) -> u64
    ensures { result ≡ min (1 + items_levels items.now) most }
{
    if most == 0 {
        return 0;
    }
    let mut deepest = 0;
    for place in 0..items.len() {
        let Some(value) = items.at(place) else {
            unreachable!()
        };
        deepest = levels_of(value, most - 1).max(deepest);
    }
    deepest + 1
}

/// The levels of a document, or `most` where it has more.
#[cycle(depth)]
pub fn levels(document: &Doc, most: u64) -> u64
    ensures { result ≡ min (document_levels document.now) most }
{
    if most == 0 {
        return 0;
    }
    let mut deepest = 0;
    for place in 0..document.len() {
        let Some((_, value)) = document.at(place) else {
            unreachable!()
        };
        deepest = levels_of(value, most - 1).max(deepest);
    }
    deepest + 1
}
