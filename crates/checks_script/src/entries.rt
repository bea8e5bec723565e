// The text of a log's entries: a session's write shows only the write.
ghost use Rattle.std.specs.Prelude.{All, IfOk, IsSome};
ghost use Rattle.oplog_entry.specs.Lawful.{IsLawful, IsLawfulOp};
ghost use Rattle.oplog_entry.specs.Step.{place_of};

use crate::found::is_text;
use bson_doc::{Doc, Text, Value};
use oplog_entry::{Entry, Op, Session, SharedOp};
use rs_optime::OpTime;
use set_model::{EntryList, Reply};
use std::alloc::Global;
use std::test::Fail;
use transcript::write_reply;

/// The insert of `{_id: 5}`.
fn insert(alloc: Global) -> Result<Op, Fail>
    ensures { IfOk result (λ op. IsLawfulOp op × IsSome (place_of op)) }
{
    let mut o = Doc::new(alloc);
    o.push(Text::from_str(alloc, "_id")?, Value::Int32(5))?;
    let ns = Text::from_str(alloc, "t")?;
    Ok(Op::Insert { ns, o })
}

/// A no-op, a session's insert, and a note.
fn log(alloc: Global) -> Result<Vec<Entry>, Fail>
    ensures { IfOk result (λ entries. All IsLawful entries.items) }
{
    let noop = Entry {
        optime: OpTime { term: 1, ts: 1 },
        op: SharedOp::noop(),
        session: None,
    };
    let retried = Entry {
        optime: OpTime { term: 1, ts: 2 },
        op: SharedOp::new(alloc, insert(alloc)?)?,
        session: Some(Session { id: 7, number: 1 }),
    };
    let note = Entry {
        optime: OpTime { term: 1, ts: 3 },
        op: SharedOp::new(alloc, Op::Note)?,
        session: None,
    };
    Ok(vec![in alloc; noop, retried, note]?)
}

#[test]
fn a_note_and_a_retried_write_are_printed(rt: HostRuntime) -> Result<(), Fail> {
    let alloc = rt.alloc();
    let reply = Reply::Entries(EntryList::new(log(alloc)?));
    let mut text = String::new(alloc);
    write_reply(7, &reply, &mut text)?;
    is_text(
        text,
        "7: entries 3\n  1/0/1 n {msg: \"new primary\"}\n  1/0/2 i t {_id: 5}\n  1/0/3 n {msg: \"note\"}\n",
    )
}
