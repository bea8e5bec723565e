// The bytes of an entry, appended to a buffer. No document is built, except for an update's target and
// for short bodies.
ghost use Rattle.std.specs.Prelude.{◌≡◌, ◌+◌, ◌<◌, ◌≤◌, ◌^◌, ◌++◌, codes, length, IfSome, OnOk, Some, pos, vec_capacity};
ghost use Rattle.bson_doc.specs.Length.{document_length, fields_length};
ghost use Rattle.bson_doc.specs.Sound.{AreSoundFields, IsSound};
ghost use Rattle.bson_doc.specs.Tree.{int64, no_fields};
ghost use Rattle.bson_codec.specs.Spelling.{document_bytes, element, fields_bytes, value_bytes};
ghost use Rattle.oplog_entry.specs.Lawful.{IsLawful, IsLawfulOp, IsSession};
ghost use Rattle.entry_bytes.specs.Layout.{body_of, collection_of, document_of, session_members, target_of, targeted};
ghost use Rattle.entry_bytes.specs.Parts.{members_in_front, stamped};

use crate::writing::{body, letter, target};
use bson_codec::{close, put_document, put_field, put_string};
use bson_doc::{Mem, Value};
use oplog_entry::{Entry, Op, Session};
use rs_optime::OpTime;
use std::alloc::Global;

// The collection of an op, or none.
fn collection_in(op: &Op) -> &str
    ensures name { result.now ≡ collection_of op.now }
{
    match op {
        Op::Insert { ns, .. }
        | Op::Replace { ns, .. }
        | Op::Fields { ns, .. }
        | Op::Delete { ns, .. } => ns.as_str(),
        Op::Noop | Op::Note => "",
    }
}

// Appends the optime and the version.
fn put_stamp(alloc: Global, optime: OpTime, out: &mut Vec<u8>) -> Mem<()>
    requires { optime.term < 2 ^ 63 }
    ensures laid { OnOk result (out.new.items ≡ out.old.items ++ fields_bytes (stamped optime no_fields)) }
    ensures fits { optime.ts < 2 ^ 64 }
    ensures longer { OnOk result (vec_capacity out.old ≤ vec_capacity out.new) }
{
    put_field(alloc, out, "ts", &Value::Timestamp(optime.ts))?;
    put_field(alloc, out, "t", &Value::Int64(optime.term as i64))?;
    put_field(alloc, out, "v", &Value::Int32(2))
}

// Appends the members before `o`.
fn put_head(alloc: Global, optime: OpTime, op: &Op, out: &mut Vec<u8>) -> Mem<()>
    requires term { optime.term < 2 ^ 63 }
    requires short { length (collection_of op.now) + 1 < 2 ^ 31 }
    ensures laid { OnOk result (out.new.items
        ≡ out.old.items ++ fields_bytes (members_in_front optime op.now)) }
    ensures sound { OnOk result (AreSoundFields (members_in_front optime op.now)) }
    ensures longer { OnOk result (vec_capacity out.old ≤ vec_capacity out.new) }
{
    put_stamp(alloc, optime, out)?;
    put_string(out, "op", letter(op))?;
    put_string(out, "ns", collection_in(op))
}

// Appends the member `o`.
fn put_body(alloc: Global, op: &Op, out: &mut Vec<u8>) -> Mem<()>
    requires lawful { IsLawfulOp op.now }
    requires short { document_length (body_of op.now) < 2 ^ 31 }
    ensures laid { OnOk result (out.new.items
        ≡ out.old.items ++ element 3 (codes "o") (document_bytes (body_of op.now))) }
    ensures sound { OnOk result (IsSound (body_of op.now)) }
    ensures longer { OnOk result (vec_capacity out.old ≤ vec_capacity out.new) }
{
    match op {
        Op::Insert { o, .. } | Op::Replace { o, .. } => {
            o.recall_sound();
            put_document(alloc, out, "o", o)
        }
        Op::Fields { .. } | Op::Delete { .. } | Op::Noop | Op::Note => {
            let body = body(alloc, op)?;
            body.recall_sound();
            put_document(alloc, out, "o", &body)
        }
    }
}

// Appends the member `o2`, where there is one.
fn put_target(alloc: Global, op: &Op, out: &mut Vec<u8>) -> Mem<()>
    requires { fields_length (targeted (target_of op.now) no_fields) < 2 ^ 31 }
    ensures laid { OnOk result (out.new.items
        ≡ out.old.items ++ fields_bytes (targeted (target_of op.now) no_fields)) }
    ensures sound { OnOk result (AreSoundFields (targeted (target_of op.now) no_fields)) }
    ensures longer { OnOk result (vec_capacity out.old ≤ vec_capacity out.new) }
{
    let Some(target) = target(alloc, op)? else {
        return Ok(());
    };
    target.recall_sound();
    put_document(alloc, out, "o2", &target)
}

// Appends a number as an int64.
fn put_number(alloc: Global, name: &str, number: u32, out: &mut Vec<u8>) -> Mem<()>
    ensures laid { OnOk result (out.new.items
        ≡ out.old.items ++ element 18 name.now (value_bytes (int64 (pos number)))) }
    ensures longer { OnOk result (vec_capacity out.old ≤ vec_capacity out.new) }
{
    put_field(alloc, out, name, &Value::Int64(i64::from(number)))
}

// Appends the members `lsid` and `txnNumber`.
fn put_numbers(alloc: Global, session: Session, out: &mut Vec<u8>) -> Mem<()>
    requires { IsSession session }
    ensures laid { OnOk result (out.new.items
        ≡ out.old.items ++ fields_bytes (session_members (Some session))) }
    ensures sound { OnOk result (AreSoundFields (session_members (Some session))) }
    ensures longer { OnOk result (vec_capacity out.old ≤ vec_capacity out.new) }
{
    put_number(alloc, "lsid", session.id, out)?;
    put_number(alloc, "txnNumber", session.number, out)
}

// Appends the members of a write of a session, where the entry is one.
fn put_session(alloc: Global, session: Option<Session>, out: &mut Vec<u8>) -> Mem<()>
    requires { IfSome session IsSession }
    ensures laid { OnOk result (out.new.items ≡ out.old.items ++ fields_bytes (session_members session)) }
    ensures sound { OnOk result (AreSoundFields (session_members session)) }
    ensures longer { OnOk result (vec_capacity out.old ≤ vec_capacity out.new) }
{
    match session {
        Some(session) => put_numbers(alloc, session, out),
        None => Ok(()),
    }
}

/// Appends the bytes of a lawful entry, the only spelling of its document.
pub fn put_bytes(alloc: Global, entry: &Entry, out: &mut Vec<u8>) -> Mem<()>
    requires lawful { IsLawful entry.now }
    requires short { document_length (document_of entry.now) < 2 ^ 31 }
    ensures laid { OnOk result (out.new.items ≡ out.old.items ++ document_bytes (document_of entry.now)) }
    ensures sound { OnOk result (IsSound (document_of entry.now)) }
    ensures longer { OnOk result (vec_capacity out.old ≤ vec_capacity out.new) }
{
    put_entry(alloc, entry, entry.op.or(&Op::Noop), out)
}

/// `put_bytes`, with the entry's op.
fn put_entry(alloc: Global, entry: &Entry, op: &Op, out: &mut Vec<u8>) -> Mem<()>
    requires lawful { IsLawful entry.now }
    requires short { document_length (document_of entry.now) < 2 ^ 31 }
    requires op { op.now ≡ entry.now.op }
    ensures laid { OnOk result (out.new.items ≡ out.old.items ++ document_bytes (document_of entry.now)) }
    ensures sound { OnOk result (IsSound (document_of entry.now)) }
    ensures longer { OnOk result (vec_capacity out.old ≤ vec_capacity out.new) }
{
    let start = out.len();
    out.extend_from_slice(&[0; 4])?;
    put_head(alloc, entry.optime, op, out)?;
    put_body(alloc, op, out)?;
    put_target(alloc, op, out)?;
    put_session(alloc, entry.session, out)?;
    close(out, start)
}
