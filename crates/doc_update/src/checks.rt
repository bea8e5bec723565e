// The tests of a write that need no document.
ghost use Rattle.std.specs.Prelude.{◌≡◌, IfOk, codes};
ghost use Rattle.bson_doc.specs.Key.{key_of};
ghost use Rattle.bson_doc.specs.Tree.{found};
ghost use Rattle.bson_doc.specs.View.{tree_of};
ghost use Rattle.oplog_entry.specs.Lawful.{is_among};
ghost use Rattle.doc_update.specs.Check.{all_known, all_documents, all_good, all_names, names_of, broken_rule, checked, is_good, is_operator, has_twice, insert_checked, replace_checked, update_checked, with_key};
ghost use Rattle.doc_update.specs.Borrowed.{shown};
ghost use Rattle.doc_update.specs.Refusal.{Answers};

use crate::{BorrowedWrite, WriteOp, WriteRefusal};
use bson_doc::{Doc, IdKey, Mem, Text, Value};
use std::alloc::Global;
use std::collections::BTreeSet;

fn is_operator(name: &str) -> bool
    ensures { result ≡ is_operator name.now }
{
    name == "$set" || name == "$unset" || name == "$inc"
}

#[tactic(auto, using(crate::proofs::NameRules::places))]
fn all_known(operators: &Doc) -> bool
    ensures { result ≡ all_known operators.now }
{
    for place in 0..operators.len() {
        if let Some((name, _)) = operators.at(place)
            && !is_operator(name)
        {
            return false;
        }
    }
    true
}

#[tactic(auto, using(crate::proofs::NameRules::places))]
fn all_documents(operators: &Doc) -> bool
    ensures { result ≡ all_documents operators.now }
{
    for place in 0..operators.len() {
        match operators.at(place) {
            Some((_, Value::Document(_))) | None => {}
            Some(_) => return false,
        }
    }
    true
}

/// Whether a name is not empty, begins with no dollar sign and has no dot.
fn is_good(name: &str) -> bool
    ensures { result ≡ is_good name.now }
{
    match name.as_bytes() {
        [] | [b'$', ..] => false,
        bytes => !bytes.contains(&b'.'),
    }
}

#[tactic(auto, using(crate::proofs::NameRules::places))]
fn good_names(fields: &Doc) -> bool
    ensures { result ≡ all_good (names_of fields.now) }
{
    for place in 0..fields.len() {
        if let Some((name, _)) = fields.at(place)
            && !is_good(name)
        {
            return false;
        }
    }
    true
}

#[tactic(auto, using(crate::proofs::NameRules::names))]
fn all_good(operators: &Doc) -> bool
    ensures { result ≡ all_good (all_names operators.now) }
{
    for place in 0..operators.len() {
        if let Some((_, Value::Document(fields))) = operators.at(place)
            && !good_names(fields)
        {
            return false;
        }
    }
    true
}

/// Whether some name occurs twice under the operators.
#[tactic(auto, using(crate::proofs::NameRules::names))]
fn has_twice(alloc: Global, operators: &Doc) -> Mem<bool>
    ensures { IfOk result (λ twice. twice ≡ has_twice (all_names operators.now)) }
{
    let mut seen = BTreeSet::new(alloc);
    'operators: for operator in (0..operators.len()).rev() {
        let Some((_, Value::Document(fields))) = operators.at(operator) else {
            continue;
        };
        'names: for place in (0..fields.len()).rev() {
            let Some((name, _)) = fields.at(place) else {
                unreachable!()
            };
            if !seen.insert(Text::from_str(alloc, name)?)? {
                return Ok(true);
            }
        }
    }
    Ok(false)
}

/// The same, without comparing the names within one operator, which are distinct.
#[tactic(auto, using(crate::proofs::SoundLemmas::alone))]
fn names_twice(alloc: Global, operators: &Doc) -> Mem<bool>
    ensures { IfOk result (λ twice. twice ≡ has_twice (all_names operators.now)) }
{
    operators.recall_sound();
    if operators.len() < 2 {
        return Ok(false);
    }
    has_twice(alloc, operators)
}

/// The first rule that an update breaks.
fn broken_rule(alloc: Global, operators: &Doc) -> Mem<Option<u32>>
    ensures { IfOk result (λ rule. rule ≡ broken_rule operators.now) }
{
    if !all_known(operators) {
        return Ok(Some(1));
    }
    if operators.len() == 0 || !all_documents(operators) {
        return Ok(Some(2));
    }
    if !all_good(operators) {
        return Ok(Some(3));
    }
    Ok(names_twice(alloc, operators)?.then_some(4))
}

#[tactic(auto, using(crate::proofs::NameRules::names))]
fn has_name(fields: &Doc, wanted: &str) -> bool
    ensures { result ≡ is_among wanted.now (names_of fields.now) }
{
    fields.get(wanted).is_some()
}

/// Whether an operator names a field.
#[tactic(auto, using(crate::proofs::NameRules::names))]
fn names_field(operators: &Doc, wanted: &str) -> bool
    ensures { result ≡ is_among wanted.now (all_names operators.now) }
{
    for place in 0..operators.len() {
        if let Some((_, Value::Document(fields))) = operators.at(place)
            && has_name(fields, wanted)
        {
            return true;
        }
    }
    false
}

/// The place in a collection of the document that has this `_id`.
fn place(ns: &Text, id: &Value) -> Result<(Text, IdKey), WriteRefusal>
    ensures { Answers result (with_key ns.now (key_of (tree_of id.now))) }
{
    Ok((ns.copy()?, IdKey::of(id)?))
}

fn check_insert(ns: &Text, doc: &Doc) -> Result<(Text, IdKey), WriteRefusal>
    ensures { Answers result (insert_checked ns.now (found (codes "_id") doc.now)) }
{
    match doc.get("_id") {
        Some(id) => place(ns, id),
        None => Err(WriteRefusal::NoId),
    }
}

fn check_replace(ns: &Text, id: &Value, doc: &Doc) -> Result<(Text, IdKey), WriteRefusal>
    ensures { Answers result
        (replace_checked ns.now (key_of (tree_of id.now)) (found (codes "_id") doc.now)) }
{
    let key = IdKey::of(id)?;
    if let Some(own) = doc.get("_id")
        && IdKey::of(own)? != key
    {
        return Err(WriteRefusal::ImmutableId);
    }
    Ok((ns.copy()?, key))
}

fn check_update(
    alloc: Global,
    ns: &Text,
    id: &Value,
    operators: &Doc,
) -> Result<(Text, IdKey), WriteRefusal>
    ensures { Answers result (update_checked ns.now (key_of (tree_of id.now)) operators.now) }
{
    let key = IdKey::of(id)?;
    if let Some(rule) = broken_rule(alloc, operators)? {
        return Err(WriteRefusal::BadUpdate(rule));
    }
    if names_field(operators, "_id") {
        return Err(WriteRefusal::ImmutableId);
    }
    Ok((ns.copy()?, key))
}

/// The collection and the key that a write names, or the first refusal that holds whatever document exists:
/// `NoId`, `BadIdKind`, `BadUpdate` with the lowest rule that is broken, and `ImmutableId`, in this order.
pub fn check(alloc: Global, op: &WriteOp) -> Result<(Text, IdKey), WriteRefusal>
    ensures { Answers result (checked op.now) }
{
    check_borrowed(alloc, op.borrowed())
}

/// `check` of a write by reference.
pub fn check_borrowed(
    alloc: Global,
    write: BorrowedWrite<'_>,
) -> Result<(Text, IdKey), WriteRefusal>
    ensures { Answers result (checked (shown write.entry)) }
{
    match write {
        BorrowedWrite::Insert { ns, doc } => check_insert(ns, doc),
        BorrowedWrite::Replace { ns, id, doc } => check_replace(ns, id, doc),
        BorrowedWrite::Update { ns, id, operators } => check_update(alloc, ns, id, operators),
        BorrowedWrite::Delete { ns, id } => place(ns, id),
    }
}
