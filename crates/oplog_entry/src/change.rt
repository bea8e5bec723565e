ghost use Rattle.std.specs.Prelude.{◌≡◌, ◌<◌, ◌+◌, false, fold, Contains, IfOk, OnOk, None, is_some, unwrap_or, if◌then◌else◌};
ghost use Rattle.bson_doc.specs.Tree.{count, field, fields_from, found, with_field, without, IsDocument};
ghost use Rattle.bson_doc.specs.View.{tree_of};
ghost use Rattle.oplog_entry.specs.Lawful.{is_among};
ghost use Rattle.oplog_entry.specs.Step.{changed, strings_of, with_sets};
ghost use Rattle.oplog_entry.specs.Walk.{join, staying, fresh};

use crate::FieldIndex;
use crate::names::NameSet;
use bson_doc::{Doc, FEW_FIELDS, Items, Mem, Text, Value};
use std::alloc::Global;

/// Where all changes together take at most this many comparisons of names, the document is searched
/// for each change.
const FEW_COMPARISONS: usize = 16_384;

/// Writes one field that stays, with its new value where there is one. Otherwise both documents share it.
fn keep(
    out: &mut Doc,
    document: &Doc,
    place: usize,
    name: Text,
    value: &Value,
    sets: &FieldIndex<'_>,
    gone: &NameSet<'_>,
) -> Mem<()>
    requires there { place < count document.now }
    requires at { fields_from place document.now
        ≡ field name (tree_of value.now) (fields_from (place + 1) document.now) }
    requires clean { is_among name gone.now ≡ false → ¬ Contains name 0 }
    requires new { is_among name gone.now ≡ false → found name out.old ≡ None }
    ensures { OnOk result (out.new ≡ (if is_among name gone.now then out.old
        else with_field out.old name (unwrap_or (found name sets.now) (tree_of value.now)))) }
{
    if gone.contains(&name) {
        return Ok(());
    }
    match sets.get(&name) {
        Some(value) => out.append(name, value.copy()?),
        None => out.append_from(document, place),
    }
}

/// The fields of a document that stay, each with its new value where there is one.
fn staying(alloc: Global, document: &Doc, sets: &FieldIndex<'_>, gone: &NameSet<'_>) -> Mem<Doc>
    requires { IsDocument (staying gone.now sets.now document.now) }
    ensures { IfOk result (λ d. d ≡ staying gone.now sets.now document.now) }
{
    let mut out = Doc::new(alloc);
    for place in 0..document.len() {
        let Some((name, value)) = document.at(place) else {
            unreachable!()
        };
        keep(
            &mut out,
            document,
            place,
            Text::from_str(alloc, name)?,
            value,
            sets,
            gone,
        )?;
    }
    Ok(out)
}

/// Writes one field that is new.
fn add(
    out: &mut Doc,
    name: Text,
    value: &Value,
    document: &FieldIndex<'_>,
    gone: &NameSet<'_>,
) -> Mem<()>
    requires clean { is_among name gone.now ≡ false → found name document.now ≡ None → ¬ Contains name 0 }
    requires new { is_among name gone.now ≡ false → found name document.now ≡ None
        → found name out.old ≡ None }
    ensures { OnOk result (out.new ≡ (if is_among name gone.now then out.old
        else (if is_some (found name document.now) then out.old
        else with_field out.old name (tree_of value.now)))) }
{
    if gone.contains(&name) || document.get(&name).is_some() {
        return Ok(());
    }
    out.append(name, value.copy()?)
}

/// Writes the fields that are new to a document.
fn add_fresh(
    alloc: Global,
    out: &mut Doc,
    sets: &Doc,
    document: &FieldIndex<'_>,
    gone: &NameSet<'_>,
) -> Mem<()>
    requires { IsDocument (join out.old (fresh gone.now document.now sets.now)) }
    ensures { OnOk result (out.new ≡ join out.old (fresh gone.now document.now sets.now)) }
{
    for place in 0..sets.len() {
        let Some((name, value)) = sets.at(place) else {
            unreachable!()
        };
        add(out, Text::from_str(alloc, name)?, value, document, gone)?;
    }
    Ok(())
}

/// The document with many changes, in O(n log n) comparisons of names.
fn with_many(alloc: Global, document: &Doc, sets: &Doc, unsets: &Items) -> Mem<Doc>
    ensures { IfOk result (λ d. d ≡ changed document.now sets.now unsets.now) }
{
    let gone = NameSet::new(alloc, unsets)?;
    let new_values = FieldIndex::new(alloc, sets, document.len())?;
    let old_values = FieldIndex::new(alloc, document, sets.len())?;
    let mut changed = staying(alloc, document, &new_values, &gone)?;
    add_fresh(alloc, &mut changed, sets, &old_values, &gone)?;
    Ok(changed)
}

/// Sets each of these fields, in their order. Both documents then share it.
fn put_all(out: &mut Doc, sets: &Doc) -> Mem<()>
    ensures { OnOk result (out.new ≡ with_sets out.old sets.now) }
{
    for place in 0..sets.len() {
        out.set_from(sets, place)?;
    }
    Ok(())
}

/// Removes the fields with these names, one after another.
fn take_out(out: &mut Doc, names: &Items)
    ensures { out.new ≡ fold without out.old (strings_of names.now) }
{
    for place in 0..names.len() {
        if let Some(Value::Text(name)) = names.at(place) {
            out.remove(name.as_str());
        }
    }
}

/// The document with a few changes, each made in a copy that shares the other fields.
fn with_few(document: &Doc, sets: &Doc, unsets: &Items) -> Mem<Doc>
    ensures { IfOk result (λ d. d ≡ changed document.now sets.now unsets.now) }
{
    let mut changed = document.copy()?;
    put_all(&mut changed, sets)?;
    take_out(&mut changed, unsets);
    Ok(changed)
}

/// Whether searching the document for each change costs less than putting its names in order.
fn are_few(document: &Doc, sets: &Doc, unsets: &Items) -> bool {
    let changes = sets.len().saturating_add(unsets.len());
    let fields = document.len().saturating_add(sets.len());
    changes <= FEW_FIELDS || changes.saturating_mul(fields) <= FEW_COMPARISONS
}

/// The document with all changes, made in the cheaper way.
fn with_all(alloc: Global, document: &Doc, sets: &Doc, unsets: &Items) -> Mem<Doc>
    ensures { IfOk result (λ d. d ≡ changed document.now sets.now unsets.now) }
{
    if are_few(document, sets, unsets) {
        with_few(document, sets, unsets)
    } else {
        with_many(alloc, document, sets, unsets)
    }
}

/// The document with each field of `sets` set, an existing name in its place and a new one at the end, and
/// then the names in `unsets` removed. Both documents share the fields that stay. Takes O(n log n)
/// comparisons of names.
pub fn with_changes(alloc: Global, document: &Doc, sets: &Doc, unsets: &Items) -> Mem<Doc>
    ensures changed { IfOk result (λ d. d ≡ changed document.now sets.now unsets.now) }
    ensures twice { IfOk result (λ d. changed d sets.now unsets.now ≡ d) }
{
    document.recall_sound();
    sets.recall_sound();
    let changed = with_all(alloc, document, sets, unsets)?;
    Ok(changed)
}
