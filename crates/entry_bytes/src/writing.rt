ghost use Rattle.std.specs.Prelude.{◌≡◌, ◌≢◌, ◌+◌, ◌<◌, ◌≤◌, ◌^◌, ℕ, List, Contains, None, codes, IfOk, OnOk, IsErrOf, MatchOption};
ghost use Rattle.bson_doc.specs.Length.{document_length, document_levels};
ghost use Rattle.bson_codec.specs.Sound.{IsSound};
ghost use Rattle.bson_codec.specs.Spelling.{IsSpelling};
ghost use Rattle.bson_doc.specs.Tree.{text, found, field, no_fields, with_field, Trees, item, trees_from};
ghost use Rattle.bson_doc.specs.View.{tree_of};
ghost use Rattle.oplog_entry.specs.Lawful.{AreUnsets, IsLawful, IsLawfulOp};
ghost use Rattle.entry_bytes.specs.Layout.{body_of, changes, collection_of, document_of, letter_of, marks, target_of};
ghost use Rattle.entry_bytes.specs.Parts.{head_of, with_part, with_session, with_target};

use bson_codec::{ENTRY, EncodeError, encode};
use bson_doc::{Doc, Items, Mem, Text, Value};
use oplog_entry::{Entry, Op, Session};
use std::alloc::Global;

/// Appends a field under a name that is new and has no zero byte.
fn put(alloc: Global, document: &mut Doc, name: &str, value: Value) -> Mem<()>
    requires clean { ¬ Contains name.now 0 }
    requires new { found name.now document.old ≡ None }
    ensures { OnOk result (document.new ≡ with_field document.old name.now (tree_of value)) }
{
    document.append(Text::from_str(alloc, name)?, value)
}

/// The string at a place.
fn name_at(unsets: &Items, place: usize) -> Option<&Text>
    ensures { MatchOption result
        ((name : List ℕ) (rest : Trees) → trees_from place unsets.now ≢ item (text name) rest)
        (λ t. trees_from place unsets.now ≡ item (text t.now) (trees_from (place + 1) unsets.now)) }
{
    match unsets.at(place)? {
        Value::Text(name) => Some(name),
        _ => None,
    }
}

/// Each of the strings as a name, with true.
fn marks(alloc: Global, unsets: &Items) -> Mem<Doc>
    requires { AreUnsets unsets.now }
    ensures { IfOk result (λ d. d ≡ marks unsets.now) }
{
    let mut marks = Doc::new(alloc);
    for place in 0..unsets.len() {
        let Some(name) = name_at(unsets, place) else {
            unreachable!()
        };
        marks.append(name.copy()?, Value::Boolean(true))?;
    }
    Ok(marks)
}

/// Appends a part, unless it is empty.
fn put_part(alloc: Global, document: &mut Doc, name: &str, part: Doc) -> Mem<()>
    requires clean { ¬ Contains name.now 0 }
    requires new { found name.now document.old ≡ None }
    ensures { OnOk result (document.new ≡ with_part document.old name.now part) }
{
    if part.len() == 0 {
        return Ok(());
    }
    put(alloc, document, name, Value::Document(part))
}

fn changes(alloc: Global, sets: Doc, unsets: Doc) -> Mem<Doc>
    ensures { IfOk result (λ d. d ≡ changes sets unsets) }
{
    let mut changes = Doc::new(alloc);
    put(alloc, &mut changes, "$v", Value::Int32(1))?;
    put_part(alloc, &mut changes, "$set", sets)?;
    put_part(alloc, &mut changes, "$unset", unsets)?;
    Ok(changes)
}

fn only(alloc: Global, name: &str, value: Value) -> Mem<Doc>
    requires { ¬ Contains name.now 0 }
    ensures { IfOk result (λ d. d ≡ field name.now (tree_of value) no_fields) }
{
    let mut document = Doc::new(alloc);
    put(alloc, &mut document, name, value)?;
    Ok(document)
}

/// The member `o` of an op's entry: the document that an insert or a replacement stores,
/// `{$v: 1, $set: {..}, $unset: {..}}` for changed fields, `{_id: ..}` for a delete, and a message for a
/// no-op and a note.
pub fn body(alloc: Global, op: &Op) -> Mem<Doc>
    requires { IsLawfulOp op.now }
    ensures { IfOk result (λ d. d ≡ body_of op.now) }
{
    match op {
        Op::Insert { o, .. } | Op::Replace { o, .. } => o.copy(),
        Op::Fields { sets, unsets, .. } => changes(alloc, sets.copy()?, marks(alloc, unsets)?),
        Op::Delete { id, .. } => only(alloc, "_id", id.copy()?),
        Op::Noop => only(
            alloc,
            "msg",
            Value::Text(Text::from_str(alloc, "new primary")?),
        ),
        Op::Note => only(alloc, "msg", Value::Text(Text::from_str(alloc, "note")?)),
    }
}

/// Which document an update changes.
pub(crate) fn target(alloc: Global, op: &Op) -> Mem<Option<Doc>>
    ensures { IfOk result (λ target. target ≡ target_of op.now) }
{
    match op {
        Op::Replace { id, .. } | Op::Fields { id, .. } => {
            Ok(Some(only(alloc, "_id", id.copy()?)?))
        }
        Op::Insert { .. } | Op::Delete { .. } | Op::Noop | Op::Note => Ok(None),
    }
}

/// The member `op` of an entry: `i`, `u` or `d` where it inserts, updates or deletes a document,
/// and otherwise `n`.
pub fn letter(op: &Op) -> &'static str
    ensures { result.now ≡ letter_of op.now }
{
    match op {
        Op::Insert { .. } => "i",
        Op::Replace { .. } | Op::Fields { .. } => "u",
        Op::Delete { .. } => "d",
        Op::Noop | Op::Note => "n",
    }
}

fn collection(alloc: Global, op: &Op) -> Mem<Text>
    ensures { IfOk result (λ ns. ns ≡ collection_of op.now) }
{
    match op {
        Op::Insert { ns, .. }
        | Op::Replace { ns, .. }
        | Op::Fields { ns, .. }
        | Op::Delete { ns, .. } => ns.copy(),
        Op::Noop | Op::Note => Text::from_str(alloc, ""),
    }
}

/// Appends the member `o2`, where there is one.
fn put_target(alloc: Global, document: &mut Doc, target: Option<Doc>) -> Mem<()>
    requires { found (codes "o2") document.old ≡ None }
    ensures { OnOk result (document.new ≡ with_target document.old target) }
{
    match target {
        Some(target) => put(alloc, document, "o2", Value::Document(target)),
        None => Ok(()),
    }
}

/// Appends the members `lsid` and `txnNumber`, where the entry is a write of a session.
fn put_session(alloc: Global, document: &mut Doc, session: Option<Session>) -> Mem<()>
    requires id { found (codes "lsid") document.old ≡ None }
    requires number { found (codes "txnNumber") document.old ≡ None }
    ensures { OnOk result (document.new ≡ with_session document.old session) }
{
    match session {
        Some(session) => {
            put(alloc, document, "lsid", Value::Int64(i64::from(session.id)))?;
            put(
                alloc,
                document,
                "txnNumber",
                Value::Int64(i64::from(session.number)),
            )
        }
        None => Ok(()),
    }
}

/// The members before `o`, with the entry's op.
fn head(alloc: Global, entry: &Entry, op: &Op) -> Mem<Doc>
    requires term { entry.now.optime.term < 2 ^ 63 }
    requires op { op.now ≡ entry.now.op }
    ensures { IfOk result (λ d. d ≡ head_of entry.now) }
{
    let mut head = Doc::new(alloc);
    put(alloc, &mut head, "ts", Value::Timestamp(entry.optime.ts))?;
    put(
        alloc,
        &mut head,
        "t",
        Value::Int64(entry.optime.term as i64),
    )?;
    put(alloc, &mut head, "v", Value::Int32(2))?;
    let letter = Text::from_str(alloc, letter(op))?;
    put(alloc, &mut head, "op", Value::Text(letter))?;
    let collection = collection(alloc, op)?;
    put(alloc, &mut head, "ns", Value::Text(collection))?;
    Ok(head)
}

fn document(alloc: Global, entry: &Entry) -> Mem<Doc>
    requires { IsLawful entry.now }
    ensures { IfOk result (λ d. d ≡ document_of entry.now) }
{
    document_with(alloc, entry, entry.op.or(&Op::Noop))
}

/// `document`, with the entry's op.
fn document_with(alloc: Global, entry: &Entry, op: &Op) -> Mem<Doc>
    requires lawful { IsLawful entry.now }
    requires op { op.now ≡ entry.now.op }
    ensures { IfOk result (λ d. d ≡ document_of entry.now) }
{
    let mut document = head(alloc, entry, op)?;
    let body = body(alloc, op)?;
    put(alloc, &mut document, "o", Value::Document(body))?;
    let target = target(alloc, op)?;
    put_target(alloc, &mut document, target)?;
    put_session(alloc, &mut document, entry.session)?;
    Ok(document)
}

/// The bytes of a lawful entry, the only spelling of its document. `TooDeep` where it has more levels than
/// the bounds of an entry allow, otherwise `TooLarge` where it has more bytes.
pub fn to_bytes(alloc: Global, entry: &Entry) -> Result<Vec<u8>, EncodeError>
    requires { IsLawful entry.now }
    ensures ok { IfOk result (λ bytes.
        IsSpelling ENTRY.bytes ENTRY.levels (document_of entry.now) bytes.items) }
    ensures sound { OnOk result (IsSound (document_of entry.now)) }
    // A bound that is passed is reported, unless memory runs out first.
    ensures too_deep { IsErrOf result EncodeError.TooDeep
        → ENTRY.levels < document_levels (document_of entry.now) }
    ensures too_large { IsErrOf result EncodeError.TooLarge
        → (document_levels (document_of entry.now) ≤ ENTRY.levels)
        × (ENTRY.bytes < document_length (document_of entry.now)) }
{
    encode(alloc, &document(alloc, entry)?, ENTRY)
}
