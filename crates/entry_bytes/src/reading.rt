ghost use Rattle.std.specs.Prelude.{◌≡◌, ◌≢◌, ◌<◌, ◌≤◌, ◌^◌, Option, MatchOption, IfOk, IfSome, Ok};
ghost use Rattle.std.specs.Option.{option_copied};
ghost use Rattle.rs_optime.specs.declared.optime.OpTime.{OpTime};
ghost use Rattle.bson_doc.specs.Tree.{Fields, fields_from};
ghost use Rattle.bson_codec.specs.Sound.{IsSound};
ghost use Rattle.bson_codec.specs.Spelling.{IsSpelling};
ghost use Rattle.bson_codec.specs.Wholes.{read_document};
ghost use Rattle.oplog_entry.specs.Lawful.{IsLawful, IsSession};
ghost use Rattle.oplog_entry.specs.declared.entry.Entry.{Entry};
ghost use Rattle.oplog_entry.specs.declared.entry.Session.{Session};
ghost use Rattle.entry_bytes.specs.Answer.{Answers, IsReadAs};
ghost use Rattle.entry_bytes.specs.Layout.{document_of, last_members, members, session_members};
ghost use Rattle.entry_bytes.specs.Parts.{stamped};

use crate::EntryError;
use crate::direct_reading::direct;
use crate::ops::{may_have, op_of};
use crate::places::{count_at, document_at, int32_at, narrow_at, text_at, timestamp_at};
use bson_codec::{ENTRY, decode};
use bson_doc::{Doc, Text};
use oplog_entry::{Entry, Session, SharedOp};
use rs_optime::OpTime;
use std::alloc::Global;

/// The members of an entry's document.
#[derive(Drop)]
struct Members<'a> {
    optime: OpTime,
    letter: &'a Text,
    ns: &'a Text,
    o: &'a Doc,
    last: Last<'a>,
}

/// The members after `o`: which document an update changes, and which write of a session the entry is.
#[derive(Drop)]
struct Last<'a> {
    target: Option<&'a Doc>,
    session: Option<Session>,
}

/// The members `lsid` and `txnNumber` at a place, or none where the document ends there.
fn session_at(document: &Doc, place: usize) -> Option<Option<Session>>
    requires { place ≤ 7 }
    ensures value { MatchOption result ((session : Option Session) → IfSome session IsSession
        → fields_from place document.now ≢ session_members session)
        (λ session. fields_from place document.now ≡ session_members session) }
    ensures within { IfSome result (λ session. IfSome session IsSession) }
{
    if document.len() <= place {
        return Some(None);
    }
    if document.len() != place + 2 {
        return None;
    }
    Some(Some(Session {
        id: narrow_at(document, place, "lsid")?,
        number: narrow_at(document, place + 1, "txnNumber")?,
    }))
}

fn last_in(document: &Doc) -> Option<Last<'_>>
    ensures value { MatchOption result ((target : Option Fields) (session : Option Session)
        → IfSome session IsSession → fields_from 6 document.now ≢ last_members target session)
        (λ l. fields_from 6 document.now ≡ last_members (option_copied l.target) l.session) }
    ensures within { IfSome result (λ l. IfSome l.session IsSession) }
{
    match document_at(document, 6, "o2") {
        Some(target) => Some(Last {
            target: Some(target),
            session: session_at(document, 7)?,
        }),
        None => Some(Last {
            target: None,
            session: session_at(document, 6)?,
        }),
    }
}

/// The optime, if the version follows it.
fn optime_in(document: &Doc) -> Option<OpTime>
    ensures { MatchOption result
        ((optime : OpTime) (rest : Fields) → optime.term < 2 ^ 63 → document.now ≢ stamped optime rest)
        (λ optime. (optime.term < 2 ^ 63) × (document.now ≡ stamped optime (fields_from 3 document.now))) }
{
    let ts = timestamp_at(document, 0, "ts")?;
    let term = count_at(document, 1, "t")?;
    if int32_at(document, 2, "v")? != 2 {
        return None;
    }
    Some(OpTime { term, ts })
}

fn members_in(document: &Doc) -> Option<Members<'_>>
    ensures { MatchOption result ((entry : Entry) → IsLawful entry → document_of entry ≢ document.now)
        (λ m. (m.optime.term < 2 ^ 63) × (IfSome m.last.session IsSession)
        × (document.now ≡ members m.optime m.letter.now m.ns.now m.o.now (option_copied m.last.target)
        m.last.session)) }
{
    Some(Members {
        optime: optime_in(document)?,
        letter: text_at(document, 3, "op")?,
        ns: text_at(document, 4, "ns")?,
        o: document_at(document, 5, "o")?,
        last: last_in(document)?,
    })
}

/// The lawful entry of a document.
fn entry_of(alloc: Global, document: &Doc) -> Result<Entry, EntryError>
    ensures { Answers (Ok document.now) result }
{
    let Some(members) = members_in(document) else {
        return Err(EntryError::Shape);
    };
    let op = op_of(
        alloc,
        members.letter.as_str(),
        members.ns,
        members.o,
        members.last.target,
    )?;
    if !may_have(&op, members.last.session) {
        return Err(EntryError::Shape);
    }
    Ok(Entry {
        optime: members.optime,
        op: SharedOp::new(alloc, op)?,
        session: members.last.session,
    })
}

/// The lawful entry that the bytes spell. `Codec` is the rule that they break where they aren't a document
/// within the bounds of an entry, and `Shape` a document that no lawful entry has.
pub fn of_bytes(alloc: Global, bytes: &[u8]) -> Result<Entry, EntryError>
    // What is read is lawful, and these bytes spell it.
    ensures ok { IfOk result (λ e. IsLawful e × IsSound (document_of e)
        × IsSpelling ENTRY.bytes ENTRY.levels (document_of e) bytes.now) }
    // The bytes of a lawful entry are read as that entry, unless memory runs out.
    ensures only { (e : Entry) → IsLawful e → IsSound (document_of e)
        → IsSpelling ENTRY.bytes ENTRY.levels (document_of e) bytes.now → IsReadAs e result }
    // And so each answer is the only one for its bytes.
    ensures exact { Answers (read_document ENTRY.bytes ENTRY.levels bytes.now) result }
{
    if let Some(entry) = direct(alloc, bytes)? {
        return Ok(entry);
    }
    let document = decode(alloc, bytes, ENTRY)?;
    entry_of(alloc, &document)
}
