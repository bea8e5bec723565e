// Copies of documents, keys, entries, configurations, records and messages: memory suffices for each, and it
// has what was copied, even after the original has changed or is gone.
use bson_doc::{Bytes, Doc, IdKey, Items, Text, Value};
use member_config::{Config, Member, MemberList};
use oplog_entry::{Entry, Op, Session, SharedOp};
use repl_msg::{
    Beat, Body, EntryList, FetchReply, Kept, Message, OptimeList, Record, SharedEntries,
};
use rs_optime::OpTime;
use std::alloc::Global;
use std::test::Fail;
use vote_store::Vote;

const AT: OpTime = OpTime { term: 1, ts: 2 };

const LATER: OpTime = OpTime { term: 1, ts: 3 };

/// A text too long to be stored in a value itself: it is in a box.
const LONG: &str = "a text of more than sixteen bytes";

/// A document with an array that has bytes in it.
fn nested(alloc: Global) -> Result<Doc, Fail> {
    let mut items = Items::new(alloc);
    items.push(Value::Binary(0, Bytes::new(b"ab".to_vec(alloc)?)))?;
    let mut document = Doc::new(alloc);
    document.push(Text::from_str(alloc, LONG)?, Value::Array(items))?;
    Ok(document)
}

/// Whether an array is the first field, with bytes in its first place.
fn is_nested(document: &Doc) -> bool {
    match document.get(LONG) {
        Some(Value::Array(items)) => matches!(items.at(0), Some(Value::Binary(0, _))),
        _ => false,
    }
}

#[test]
fn a_document_is_copied_with_what_is_in_it(rt: HostRuntime) -> Result<(), Fail> {
    let alloc = rt.alloc();
    let mut document = nested(alloc)?;
    let copy = document.copy()?;
    document.push(Text::from_str(alloc, "a")?, Value::Null)?;
    assert_eq!(rt; copy.len(), 1);
    drop(document);
    assert!(rt; is_nested(&copy));
    Ok(())
}

/// Whether a key is the long text.
fn is_long(key: &IdKey) -> bool {
    match key {
        IdKey::Text(text) => text.as_str() == LONG,
        _ => false,
    }
}

#[test]
fn a_key_is_copied_with_its_text(rt: HostRuntime) -> Result<(), Fail> {
    let key = IdKey::Text(Text::from_str(rt.alloc(), LONG)?);
    let copy = key.copy()?;
    assert!(rt; copy == key);
    drop(key);
    assert!(rt; is_long(&copy));
    Ok(())
}

#[test]
fn an_entry_is_copied_with_its_document(rt: HostRuntime) -> Result<(), Fail> {
    let alloc = rt.alloc();
    let op = Op::Insert {
        ns: Text::from_str(alloc, "t")?,
        o: nested(alloc)?,
    };
    let session = Session { id: 7, number: 3 };
    let entry = Entry {
        optime: AT,
        op: SharedOp::new(alloc, op)?,
        session: Some(session),
    };
    let copy = entry.copy()?;
    drop(entry);
    let found = match copy.op.or(&Op::Noop) {
        Op::Insert { o, .. } => is_nested(o),
        _ => false,
    };
    assert!(rt; found);
    assert!(rt; copy.optime == AT);
    assert_eq!(rt; copy.session, Some(session));
    Ok(())
}

/// Whether an op puts the document with an array in the place of the one with the `_id` 5 in `t`.
fn replaces(op: &Op) -> bool {
    match op {
        Op::Replace {
            ns,
            id: Value::Int32(5),
            o,
        } => ns.as_str() == "t" && is_nested(o),
        _ => false,
    }
}

#[test]
fn a_replacement_is_copied(rt: HostRuntime) -> Result<(), Fail> {
    let alloc = rt.alloc();
    let op = Op::Replace {
        ns: Text::from_str(alloc, "t")?,
        id: Value::Int32(5),
        o: nested(alloc)?,
    };
    let copy = op.copy()?;
    drop(op);
    assert!(rt; replaces(&copy));
    Ok(())
}

/// Whether the long text is all there is.
fn is_long_text(items: &Items) -> bool {
    match items.at(0) {
        Some(Value::Text(text)) => items.len() == 1 && text.as_str() == LONG,
        _ => false,
    }
}

/// Whether an op sets the array in the document with the `_id` 5 in `t`, and unsets the long name.
fn changes(op: &Op) -> bool {
    match op {
        Op::Fields {
            ns,
            id: Value::Int32(5),
            sets,
            unsets,
        } => ns.as_str() == "t" && is_nested(sets) && is_long_text(unsets),
        _ => false,
    }
}

#[test]
fn a_change_of_fields_is_copied(rt: HostRuntime) -> Result<(), Fail> {
    let alloc = rt.alloc();
    let mut unsets = Items::new(alloc);
    unsets.push(Value::Text(Text::from_str(alloc, LONG)?))?;
    let op = Op::Fields {
        ns: Text::from_str(alloc, "t")?,
        id: Value::Int32(5),
        sets: nested(alloc)?,
        unsets,
    };
    let copy = op.copy()?;
    drop(op);
    assert!(rt; changes(&copy));
    Ok(())
}

/// A configuration of one member.
fn of_one(alloc: Global) -> Result<Config, Fail> {
    let mut members = MemberList::new(alloc);
    members.push(Member {
        number: 5,
        votes: true,
        priority: 1,
    })?;
    Ok(Config {
        term: 1,
        version: 2,
        members,
        chaining: true,
    })
}

/// Whether its one member has the number 5.
fn is_of_one(config: &Config) -> bool {
    match config.members.as_slice() {
        [member] => member.number == 5,
        _ => false,
    }
}

#[test]
fn a_configuration_is_copied_with_its_members(rt: HostRuntime) -> Result<(), Fail> {
    let mut config = of_one(rt.alloc())?;
    let copy = config.copy()?;
    config.members.push(Member {
        number: 6,
        votes: false,
        priority: 0,
    })?;
    assert!(rt; is_of_one(&copy));
    assert!(rt; !is_of_one(&config));
    Ok(())
}

#[test]
fn a_record_is_copied_with_its_configuration(rt: HostRuntime) -> Result<(), Fail> {
    let record = Record::Config(of_one(rt.alloc())?);
    let copy = record.copy()?;
    drop(record);
    let found = match &copy {
        Record::Config(config) => is_of_one(config),
        _ => false,
    };
    assert!(rt; found);
    Ok(())
}

/// Whether a record is of the one deletion, with this point.
fn is_deletion_up_to(record: &Record, at: OpTime) -> bool {
    match record {
        Record::Entries { list, point } => is_deletion(list.as_slice()) && *point == at,
        _ => false,
    }
}

#[test]
fn a_record_is_copied_with_its_entries(rt: HostRuntime) -> Result<(), Fail> {
    let record = Record::Entries {
        list: deletion(rt.alloc())?,
        point: LATER,
    };
    let copy = record.copy()?;
    drop(record);
    assert!(rt; is_deletion_up_to(&copy, LATER));
    Ok(())
}

#[test]
fn a_message_is_copied_with_its_beat(rt: HostRuntime) -> Result<(), Fail> {
    let message = Message {
        from: 0,
        to: 1,
        term: 1,
        body: Body::Heartbeat(Beat {
            config: of_one(rt.alloc())?,
            commit: AT,
            visible: AT,
            primary: true,
        }),
    };
    let copy = message.copy()?;
    drop(message);
    let found = match &copy.body {
        Body::Heartbeat(beat) => is_of_one(&beat.config),
        _ => false,
    };
    assert!(rt; found);
    Ok(())
}

/// Whether a body answers with the one optime `AT`, after none and up to `LATER`.
fn is_of_one_optime(body: &Body) -> bool {
    match body {
        Body::CommonReply {
            after,
            optimes,
            visible,
        } => *after == OpTime::ZERO && optimes.as_slice() == [AT].as_slice() && *visible == LATER,
        _ => false,
    }
}

#[test]
fn an_answer_is_copied_with_its_optimes(rt: HostRuntime) -> Result<(), Fail> {
    let mut optimes = Vec::new(rt.alloc());
    optimes.push(AT)?;
    let optimes = OptimeList::new(rt.alloc(), optimes)?;
    let body = Body::CommonReply {
        after: OpTime::ZERO,
        optimes,
        visible: LATER,
    };
    let copy = body.copy()?;
    drop(body);
    assert!(rt; is_of_one_optime(&copy));
    Ok(())
}

#[test]
fn optimes_are_copied(rt: HostRuntime) -> Result<(), Fail> {
    let mut optimes = Vec::new(rt.alloc());
    optimes.push(AT)?;
    let optimes = OptimeList::new(rt.alloc(), optimes)?;
    let copy = optimes.copy()?;
    drop(optimes);
    assert_eq!(rt; copy.as_slice(), [AT].as_slice());
    Ok(())
}

/// One entry, which deletes a document.
fn deletion(alloc: Global) -> Result<EntryList, Fail> {
    let mut entries = Vec::new(alloc);
    let op = Op::Delete {
        ns: Text::from_str(alloc, LONG)?,
        id: Value::Int32(5),
    };
    entries.push(Entry {
        optime: AT,
        op: SharedOp::new(alloc, op)?,
        session: None,
    })?;
    Ok(EntryList::new(entries))
}

/// Whether there is one entry, which deletes from the collection with the long name.
fn is_deletion(entries: &[Entry]) -> bool {
    match entries {
        [entry] => deletes(entry.op.or(&Op::Noop)),
        _ => false,
    }
}

fn deletes(op: &Op) -> bool {
    match op {
        Op::Delete { ns, .. } => ns.as_str() == LONG,
        _ => false,
    }
}

#[test]
fn fetched_entries_are_copied(rt: HostRuntime) -> Result<(), Fail> {
    let reply = FetchReply {
        base: OpTime::ZERO,
        holds: true,
        entries: SharedEntries::new(rt.alloc(), deletion(rt.alloc())?.into_entries())?,
        visible: LATER,
        commit: AT,
        primary: false,
    };
    let copy = reply.copy()?;
    drop(reply);
    assert!(rt; is_deletion(copy.entries.as_slice()));
    assert!(rt; copy.holds && !copy.primary);
    assert_eq!(rt;
        (copy.base, copy.visible, copy.commit),
        (OpTime::ZERO, LATER, AT)
    );
    Ok(())
}

#[test]
fn what_a_journal_keeps_is_copied(rt: HostRuntime) -> Result<(), Fail> {
    let alloc = rt.alloc();
    let vote = Vote {
        term: 3,
        candidate: Some(1),
    };
    let kept = Kept {
        form: 2,
        vote,
        config: Some(of_one(alloc)?),
        entries: deletion(alloc)?,
        point: AT,
        count: 4,
    };
    let copy = kept.copy()?;
    drop(kept);
    assert!(rt; is_deletion(copy.entries.as_slice()));
    let found = match &copy.config {
        Some(config) => is_of_one(config),
        None => false,
    };
    assert!(rt; found);
    assert_eq!(rt;
        (copy.form, copy.vote, copy.point, copy.count),
        (2, vote, AT, 4)
    );
    Ok(())
}
