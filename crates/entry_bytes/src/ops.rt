// Ops from the members of their entries.
ghost use Rattle.std.specs.Prelude.{◌≡◌, ◌≢◌, ◌<◌, ◌↔◌, Some, None, IsSome, IsTrue, IfOk, IfSome, codes, option_map};
ghost use Rattle.std.specs.Option.{option_copied};
ghost use Rattle.bson_doc.specs.Tree.{Trees, count};
ghost use Rattle.bson_doc.specs.View.{tree_of};
ghost use Rattle.oplog_entry.specs.Lawful.{AreUnsets, BeginsWithId, IsLawfulOp};
ghost use Rattle.oplog_entry.specs.Step.{id_key, place_of};
ghost use Rattle.entry_bytes.specs.Answer.{Reads};
ghost use Rattle.entry_bytes.specs.Layout.{marks, only_message};
ghost use Rattle.entry_bytes.specs.Parts.{are_marks, given, is_mark, names_in, ReadsChange, ReadsFields, ReadsIfLawful, ReadsOp, ReadsParts};

use crate::EntryError;
use crate::places::{int32_at, member, only_id, part_at, text_at};
use bson_doc::{Doc, IdKey, Items, Mem, Text, Value};
use oplog_entry::{Op, Session};
use std::alloc::Global;

/// The key of a document that begins with its `_id`.
fn stored_key(o: &Doc) -> Result<IdKey, EntryError>
    ensures { Reads (λ key. BeginsWithId o.now × (id_key o.now ≡ Some key))
        (¬ (BeginsWithId o.now × IsSome (id_key o.now))) result }
{
    let Some(id) = member(o, 0, "_id") else {
        return Err(EntryError::Shape);
    };
    Ok(IdKey::of(id)?)
}

fn insert_of(ns: Text, o: Doc) -> Result<Op, EntryError>
    ensures { ReadsIfLawful (Op.Insert ns o) result }
{
    stored_key(&o)?;
    Ok(Op::Insert { ns, o })
}

fn replace_of(ns: &Text, id: &Value, o: &Doc) -> Result<Op, EntryError>
    ensures { ReadsIfLawful (Op.Replace ns.now id.now o.now) result }
{
    let key = stored_key(o)?;
    if IdKey::of(id)? != key {
        return Err(EntryError::Shape);
    }
    Ok(Op::Replace {
        ns: ns.copy()?,
        id: id.copy()?,
        o: o.copy()?,
    })
}

fn delete_of(ns: &Text, id: &Value) -> Result<Op, EntryError>
    ensures { ReadsIfLawful (Op.Delete ns.now id.now) result }
{
    IdKey::of(id)?;
    Ok(Op::Delete {
        ns: ns.copy()?,
        id: id.copy()?,
    })
}

/// Whether the value is true, and the name is not `_id`.
fn is_mark(name: &str, value: &Value) -> bool
    ensures { result ≡ is_mark name.now (tree_of value.now) }
{
    match value {
        Value::Boolean(truth) => *truth && name != "_id",
        _ => false,
    }
}

#[tactic(auto, using(crate::proofs::PlaceLemmas::places))]
fn are_marks(unsets: &Doc) -> bool
    ensures { result ≡ are_marks unsets.now }
{
    for place in 0..unsets.len() {
        if let Some((name, value)) = unsets.at(place)
            && !is_mark(name, value)
        {
            return false;
        }
    }
    true
}

/// The names as strings.
fn names_in(alloc: Global, unsets: &Doc) -> Mem<Items>
    ensures { IfOk result (λ names. names ≡ names_in unsets.now) }
{
    let mut names = Items::new(alloc);
    for place in 0..unsets.len() {
        let Some((name, _)) = unsets.at(place) else {
            unreachable!()
        };
        names.push(Value::Text(Text::from_str(alloc, name)?))?;
    }
    Ok(names)
}

/// The fields that a change sets and the names that it removes, each where there are some.
#[derive(Drop)]
struct Changes<'a> {
    sets: Option<&'a Doc>,
    unsets: Option<&'a Doc>,
}

/// The changes of a body with only one part.
fn one_part(o: &Doc) -> Option<Changes<'_>>
    requires { count o.now ≡ 2 }
    ensures { ReadsParts o.now (option_map (λ c. (option_copied c.sets, option_copied c.unsets)) result) }
{
    if let Some(sets) = part_at(o, 1, "$set") {
        return Some(Changes {
            sets: Some(sets),
            unsets: None,
        });
    }
    Some(Changes {
        sets: None,
        unsets: Some(part_at(o, 1, "$unset")?),
    })
}

fn two_parts(o: &Doc) -> Option<Changes<'_>>
    requires { count o.now ≡ 3 }
    ensures { ReadsParts o.now (option_map (λ c. (option_copied c.sets, option_copied c.unsets)) result) }
{
    Some(Changes {
        sets: Some(part_at(o, 1, "$set")?),
        unsets: Some(part_at(o, 2, "$unset")?),
    })
}

fn parts_in(o: &Doc) -> Option<Changes<'_>>
    requires { 0 < count o.now }
    ensures { ReadsParts o.now (option_map (λ c. (option_copied c.sets, option_copied c.unsets)) result) }
{
    match o.len() {
        1 => Some(Changes {
            sets: None,
            unsets: None,
        }),
        2 => one_part(o),
        3 => two_parts(o),
        _ => None,
    }
}

/// The fields of a part that may be left out.
fn given(alloc: Global, part: Option<&Doc>) -> Mem<Doc>
    ensures { IfOk result (λ d. d ≡ given (option_copied part.entry)) }
{
    match part {
        Some(part) => part.copy(),
        None => Ok(Doc::new(alloc)),
    }
}

/// The names to remove.
fn unsets_of(alloc: Global, unsets: &Doc) -> Result<Items, EntryError>
    ensures { Reads (λ names. AreUnsets names × (marks names ≡ unsets.now))
        ((names : Trees) → AreUnsets names → marks names ≢ unsets.now) result }
{
    unsets.recall_sound();
    if !are_marks(unsets) {
        return Err(EntryError::Shape);
    }
    Ok(names_in(alloc, unsets)?)
}

fn fields_of(
    alloc: Global,
    ns: &Text,
    id: &Value,
    sets: Doc,
    unsets: &Doc,
) -> Result<Op, EntryError>
    ensures { ReadsFields ns.now id.now sets unsets.now result }
{
    IdKey::of(id)?;
    if sets.get("_id").is_some() {
        return Err(EntryError::Shape);
    }
    Ok(Op::Fields {
        ns: ns.copy()?,
        id: id.copy()?,
        sets,
        unsets: unsets_of(alloc, unsets)?,
    })
}

/// An op that changes fields.
fn change_of(alloc: Global, ns: &Text, id: &Value, o: &Doc) -> Result<Op, EntryError>
    ensures { ReadsChange ns.now id.now o.now result }
{
    let Some(version) = int32_at(o, 0, "$v") else {
        return Err(EntryError::Shape);
    };
    if version != 1 {
        return Err(EntryError::Shape);
    }
    let Some(parts) = parts_in(o) else {
        return Err(EntryError::Shape);
    };
    let sets = given(alloc, parts.sets)?;
    let unsets = given(alloc, parts.unsets)?;
    fields_of(alloc, ns, id, sets, &unsets)
}

fn update_of(alloc: Global, ns: &Text, o: &Doc, target: &Doc) -> Result<Op, EntryError>
    ensures { ReadsOp (codes "u") ns.now o.now (Some target.now) result }
{
    let Some(id) = only_id(target) else {
        return Err(EntryError::Shape);
    };
    if member(o, 0, "$v").is_some() {
        return change_of(alloc, ns, id, o);
    }
    replace_of(ns, id, o)
}

fn removal_of(ns: &Text, o: &Doc) -> Result<Op, EntryError>
    ensures { ReadsOp (codes "d") ns.now o.now None result }
{
    match only_id(o) {
        Some(id) => delete_of(ns, id),
        None => Err(EntryError::Shape),
    }
}

fn says(o: &Doc, wanted: &str) -> bool
    ensures { IsTrue result ↔ (o.now ≡ only_message wanted.now) }
{
    match text_at(o, 0, "msg") {
        Some(message) => o.len() == 1 && message.as_str() == wanted,
        None => false,
    }
}

/// An op that touches no document.
fn idle_of(ns: &Text, o: &Doc) -> Result<Op, EntryError>
    ensures { ReadsOp (codes "n") ns.now o.now None result }
{
    if !ns.as_str().is_empty() {
        return Err(EntryError::Shape);
    }
    if says(o, "new primary") {
        return Ok(Op::Noop);
    }
    if says(o, "note") {
        return Ok(Op::Note);
    }
    Err(EntryError::Shape)
}

/// An op other than an update.
pub(crate) fn other_of(letter: &str, ns: Text, o: Doc) -> Result<Op, EntryError>
    ensures { ReadsOp letter.now ns o None result }
{
    if letter == "i" {
        return insert_of(ns, o);
    }
    if letter == "d" {
        return removal_of(&ns, &o);
    }
    if letter == "n" {
        return idle_of(&ns, &o);
    }
    Err(EntryError::Shape)
}

/// The lawful op that has these members.
pub(crate) fn op_of(
    alloc: Global,
    letter: &str,
    ns: &Text,
    o: &Doc,
    target: Option<&Doc>,
) -> Result<Op, EntryError>
    ensures { ReadsOp letter.now ns.now o.now (option_copied target.entry) result }
{
    let Some(target) = target else {
        return other_of(letter, ns.copy()?, o.copy()?);
    };
    if letter != "u" {
        return Err(EntryError::Shape);
    }
    update_of(alloc, ns, o, target)
}

/// Whether the op may be a write of a session, if there is one: a no-op or a note may not.
pub(crate) fn may_have(op: &Op, session: Option<Session>) -> bool
    requires { IsLawfulOp op.now }
    ensures { IsTrue result ↔ IfSome session (λ _. IsSome (place_of op.now)) }
{
    match op {
        Op::Noop | Op::Note => session.is_none(),
        Op::Insert { .. } | Op::Replace { .. } | Op::Fields { .. } | Op::Delete { .. } => true,
    }
}
