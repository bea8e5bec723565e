// The effect of a write that passed the check.
ghost use Rattle.std.specs.Prelude.{◌≡◌, [], ◌∷◌, false, Contains, if◌then◌else◌, IfOk, IfSome, IsOk, IsSome, IsTrue, OnOk, None, codes, unwrap_or};
ghost use Rattle.std.specs.Option.{option_copied};
ghost use Rattle.bson_doc.specs.Tree.{found, field, without, with_field, no_fields};
ghost use Rattle.bson_doc.specs.View.{tree_of};
ghost use Rattle.oplog_entry.specs.Lawful.{is_among};
ghost use Rattle.doc_update.specs.Increment.{AddsSums};
ghost use Rattle.doc_update.specs.Check.{all_names, checked, has_twice};
ghost use Rattle.doc_update.specs.Effect.{id_first, is_too_large, stored, written, under, present, delete_prepared, insert_prepared, prepared, replace_prepared, update_prepared};
ghost use Rattle.doc_update.specs.Borrowed.{shown};
ghost use Rattle.doc_update.specs.Ordered.{placed_all, in_byte_order};
ghost use Rattle.doc_update.specs.Refusal.{Answers};
ghost use Rattle.doc_update.specs.Sound.{IsNamed, IsSound, IsStored, SetsAre};

use crate::increment::add_sums;
use crate::ordered::Ordered;
use crate::{BorrowedWrite, Prepared, WriteOp, WriteRefusal};
use bson_doc::{DOCUMENT, Doc, Mem, Text, Value};
use oplog_entry::{FieldIndex, Op, with_changes};
use std::alloc::Global;

/// Writes one field, unless it is the `_id`.
fn append_other(whole: &mut Doc, name: Text, value: &Value) -> Mem<()>
    requires clean { is_among name (codes "_id" ∷ []) ≡ false → ¬ Contains name 0 }
    requires new { is_among name (codes "_id" ∷ []) ≡ false → found name whole.old ≡ None }
    ensures { OnOk result (whole.new ≡ (if is_among name (codes "_id" ∷ []) then whole.old
        else with_field whole.old name (tree_of value.now))) }
{
    if name.as_str() == "_id" {
        return Ok(());
    }
    whole.append(name, value.copy()?)
}

/// A document with an `_id` before its other fields.
fn with_id_first(alloc: Global, id: &Value, doc: &Doc) -> Mem<Doc>
    ensures { IfOk result (λ d. d ≡ field (codes "_id") (tree_of id.now) (without doc.now (codes "_id"))) }
{
    doc.recall_sound();
    let mut whole = Doc::new(alloc);
    whole.append(Text::from_str(alloc, "_id")?, id.copy()?)?;
    for place in 0..doc.len() {
        let Some((name, value)) = doc.at(place) else {
            unreachable!()
        };
        append_other(&mut whole, Text::from_str(alloc, name)?, value)?;
    }
    Ok(whole)
}

/// Whether the `_id` is already the first field.
#[tactic(auto, using(crate::proofs::IdLemmas::first_id))]
fn begins_with_id(doc: &Doc) -> bool
    ensures { IsTrue result → id_first (found (codes "_id") doc.now) doc.now ≡ doc.now }
{
    match doc.at(0) {
        Some((name, _)) => name == "_id",
        None => false,
    }
}

/// A document with its own `_id` first.
fn with_own_id_first(alloc: Global, doc: &Doc) -> Mem<Doc>
    requires { IsSome (found (codes "_id") doc.now) }
    ensures { IfOk result (λ d. d ≡ id_first (found (codes "_id") doc.now) doc.now) }
{
    if begins_with_id(doc) {
        return doc.copy();
    }
    let Some(id) = doc.get("_id") else {
        unreachable!()
    };
    with_id_first(alloc, id, doc)
}

/// Whether a document is longer or deeper than a stored one may be.
fn is_too_large(doc: &Doc) -> bool
    ensures { result ≡ is_too_large doc.now }
{
    !doc.fits(DOCUMENT)
}

/// An op that leaves a document, unless that is too large.
fn stored(op: Op, after: Doc) -> Result<Prepared, WriteRefusal>
    ensures { Answers result (stored op after) }
{
    if is_too_large(&after) {
        return Err(WriteRefusal::DocTooLarge);
    }
    Ok(Prepared::Entry {
        op,
        after: Some(after),
    })
}

/// The same, unless the document stays as it is.
fn written(op: Op, before: &Doc, after: Doc) -> Result<Prepared, WriteRefusal>
    ensures { Answers result (written op before.now after) }
{
    if after == *before {
        return Ok(Prepared::Unchanged);
    }
    stored(op, after)
}

/// The fields given to an operator.
fn under<'a>(operators: &'a Doc, name: &str) -> Option<&'a Doc>
    ensures { unwrap_or (option_copied result) no_fields ≡ under name.now operators.now }
{
    match operators.get(name) {
        Some(Value::Document(fields)) => Some(fields),
        _ => None,
    }
}

/// How many fields are given to an operator.
fn fields_under(operators: &Doc, name: &str) -> usize {
    match under(operators, name) {
        Some(fields) => fields.len(),
        None => 0,
    }
}

/// How many names are looked up in the document that an update changes.
fn look_ups(operators: &Doc) -> usize {
    fields_under(operators, "$inc").saturating_add(fields_under(operators, "$unset"))
}

/// Puts each field in its place.
#[tactic(auto, using(crate::proofs::NameRules::places))]
fn put_all(alloc: Global, sets: &mut Ordered, fields: &Doc) -> Mem<()>
    ensures { OnOk result (sets.new ≡ placed_all fields.now sets.old) }
{
    for place in (0..fields.len()).rev() {
        let Some((name, value)) = fields.at(place) else {
            unreachable!()
        };
        sets.put(Text::from_str(alloc, name)?, value.copy()?)?;
    }
    Ok(())
}

fn put_sums(
    alloc: Global,
    sets: &mut Ordered,
    operators: &Doc,
    document: &FieldIndex<'_>,
) -> Result<(), WriteRefusal>
    ensures { AddsSums document.now (under (codes "$inc") operators.now) sets.old sets.new result }
{
    match under(operators, "$inc") {
        Some(operands) => add_sums(alloc, sets, operands, document),
        None => Ok(()),
    }
}

fn put_sets(alloc: Global, sets: &mut Ordered, operators: &Doc) -> Mem<()>
    ensures { OnOk result (sets.new ≡ placed_all (under (codes "$set") operators.now) sets.old) }
{
    match under(operators, "$set") {
        Some(fields) => put_all(alloc, sets, fields),
        None => Ok(()),
    }
}

/// What an update sets: the fields of `$set` and the sums of `$inc`, in byte order of their names.
#[tactic(auto, using(crate::proofs::NameRules::joins))]
fn sets_of(
    alloc: Global,
    operators: &Doc,
    document: &FieldIndex<'_>,
) -> Result<Ordered, WriteRefusal>
    ensures { SetsAre operators.now document.now result }
{
    let mut sets = Ordered::new(alloc);
    put_sums(alloc, &mut sets, operators, document)?;
    put_sets(alloc, &mut sets, operators)?;
    Ok(sets)
}

/// Puts each of these names that exists in its place.
#[tactic(auto, using(crate::proofs::NameRules::places))]
fn put_present(
    alloc: Global,
    unsets: &mut Ordered,
    fields: &Doc,
    document: &FieldIndex<'_>,
) -> Mem<()>
    ensures { OnOk result (unsets.new ≡ placed_all (present document.now fields.now) unsets.old) }
{
    for place in (0..fields.len()).rev() {
        let Some((name, _)) = fields.at(place) else {
            unreachable!()
        };
        let name = Text::from_str(alloc, name)?;
        if document.get(&name).is_some() {
            unsets.put(name, Value::Null)?;
        }
    }
    Ok(())
}

/// The existing names of `$unset`, in byte order.
fn unsets_of(alloc: Global, operators: &Doc, document: &FieldIndex<'_>) -> Mem<Ordered>
    ensures { IfOk result (λ unsets.
        unsets ≡ in_byte_order (present document.now (under (codes "$unset") operators.now))) }
{
    let mut unsets = Ordered::new(alloc);
    if let Some(fields) = under(operators, "$unset") {
        put_present(alloc, &mut unsets, fields, document)?;
    }
    Ok(unsets)
}

fn prepare_insert(alloc: Global, ns: &Text, doc: &Doc) -> Result<Prepared, WriteRefusal>
    requires { IsSome (found (codes "_id") doc.now) }
    ensures { Answers result (insert_prepared ns.now doc.now) }
{
    let after = with_own_id_first(alloc, doc)?;
    if is_too_large(&after) {
        return Err(WriteRefusal::DocTooLarge);
    }
    let op = Op::Insert {
        ns: ns.copy()?,
        o: after.copy()?,
    };
    Ok(Prepared::Entry {
        op,
        after: Some(after),
    })
}

fn prepare_replace(
    alloc: Global,
    ns: &Text,
    id: &Value,
    doc: &Doc,
    before: &Doc,
) -> Result<Prepared, WriteRefusal>
    requires { IsSome (found (codes "_id") before.now) }
    ensures { Answers result (replace_prepared ns.now id.now doc.now before.now) }
{
    let Some(own) = before.get("_id") else {
        unreachable!()
    };
    let after = with_id_first(alloc, own, doc)?;
    let op = Op::Replace {
        ns: ns.copy()?,
        id: id.copy()?,
        o: after.copy()?,
    };
    written(op, before, after)
}

fn prepare_update(
    alloc: Global,
    ns: &Text,
    id: &Value,
    operators: &Doc,
    before: &Doc,
) -> Result<Prepared, WriteRefusal>
    requires { has_twice (all_names operators.now) ≡ false }
    ensures { Answers result (update_prepared ns.now id.now operators.now before.now) }
{
    operators.recall_sound();
    let document = FieldIndex::new(alloc, before, look_ups(operators))?;
    let sets = sets_of(alloc, operators, &document)?.document(alloc)?;
    let unsets = unsets_of(alloc, operators, &document)?.names(alloc)?;
    let after = with_changes(alloc, before, &sets, &unsets)?;
    let op = Op::Fields {
        ns: ns.copy()?,
        id: id.copy()?,
        sets,
        unsets,
    };
    written(op, before, after)
}

fn prepare_delete(ns: &Text, id: &Value) -> Result<Prepared, WriteRefusal>
    ensures { Answers result (delete_prepared ns.now id.now) }
{
    let op = Op::Delete {
        ns: ns.copy()?,
        id: id.copy()?,
    };
    Ok(Prepared::Entry { op, after: None })
}

fn prepare_checked(
    alloc: Global,
    write: BorrowedWrite<'_>,
    before: Option<&Doc>,
) -> Result<Prepared, WriteRefusal>
    requires checked { IsOk (checked (shown write)) }
    requires own { IfSome (option_copied before) (λ d. IsNamed (checked (shown write)) d) }
    ensures answer { Answers result (prepared (shown write.entry) (option_copied before.entry)) }
    ensures sound { IfOk result (λ p. IsSound (checked (shown write.entry)) (option_copied before.entry) p) }
{
    match (write, before) {
        (BorrowedWrite::Insert { ns, doc }, None) => prepare_insert(alloc, ns, doc),
        (BorrowedWrite::Insert { .. }, Some(_)) => Err(WriteRefusal::DuplicateKey),
        (_, None) => Ok(Prepared::NoMatch),
        (BorrowedWrite::Replace { ns, id, doc }, Some(before)) => prepare_replace(
            alloc, ns, id, doc, before,
        ),
        (BorrowedWrite::Update { ns, id, operators }, Some(before)) => {
            operators.recall_sound();
            prepare_update(alloc, ns, id, operators, before)
        }
        (BorrowedWrite::Delete { ns, id }, Some(_)) => prepare_delete(ns, id),
    }
}

/// The effect of a write that passed `check`, where `before` is the document with its key. It is refused as
/// `DuplicateKey`, `IncType`, `IncOverflow` or `DocTooLarge`, in this order. The op of an entry is lawful,
/// and applied to `before` it leaves `after`: once it is logged, `after` is the document at its place.
pub fn prepare(alloc: Global, op: &WriteOp, before: Option<&Doc>) -> Result<Prepared, WriteRefusal>
    requires checked { IsOk (checked op.now) }
    requires own { IfSome (option_copied before) (λ d. IsNamed (checked op.now) d) }
    ensures answer { Answers result (prepared op.now (option_copied before.entry)) }
    ensures sound { IfOk result (λ p. IsSound (checked op.now) (option_copied before.entry) p) }
    ensures stored { IfOk result (λ p. IsStored (checked op.now) (option_copied before.entry) p) }
{
    prepare_borrowed(alloc, op.borrowed(), before)
}

/// `prepare` of a write by reference.
pub fn prepare_borrowed(
    alloc: Global,
    write: BorrowedWrite<'_>,
    before: Option<&Doc>,
) -> Result<Prepared, WriteRefusal>
    requires checked { IsOk (checked (shown write)) }
    requires own { IfSome (option_copied before) (λ d. IsNamed (checked (shown write)) d) }
    ensures answer { Answers result (prepared (shown write.entry) (option_copied before.entry)) }
    ensures sound { IfOk result (λ p. IsSound (checked (shown write.entry)) (option_copied before.entry) p) }
    ensures stored { IfOk result (λ p.
        IsStored (checked (shown write.entry)) (option_copied before.entry) p) }
{
    prepare_checked(alloc, write, before)
}
