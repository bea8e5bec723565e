// Copies of writes, commands, scripts, replies and summaries: memory suffices for each, and it has what was
// copied, even after the original is gone.
use crate::found::is_text;
use bson_doc::{Doc, IdKey, Mem, Text, Value};
use doc_text::write_document;
use doc_update::{Prepared, WriteOp};
use fault_script::{Part, Script, parse};
use member_config::{Config, Member, MemberList};
use oplog_entry::Op;
use rs_optime::OpTime;
use set_model::{Command, DocumentList, EntryList, Event, LostList, ReadLevel, Reply};
use std::alloc::Global;
use std::test::Fail;
use transcript::{NodePoints, Summary, write_reply, write_summary};

const AT: OpTime = OpTime { term: 1, ts: 2 };

/// `{a: 5}`.
fn five(alloc: Global) -> Result<Doc, Fail> {
    let mut document = Doc::new(alloc);
    document.push(Text::from_str(alloc, "a")?, Value::Int32(5))?;
    Ok(document)
}

/// Fails if a document isn't `{a: 5}`, and says what it is.
fn is_five(alloc: Global, document: &Doc) -> Result<(), Fail> {
    let mut text = String::new(alloc);
    write_document(document, &mut text)?;
    is_text(text, "{a: 5}")
}

// Each of these drops what it copies.

fn write_again(op: WriteOp) -> Mem<WriteOp> {
    op.copy()
}

fn effect_again(effect: Prepared) -> Mem<Prepared> {
    effect.copy()
}

fn event_again(event: Event) -> Mem<Event> {
    event.copy()
}

fn command_again(command: Command) -> Mem<Command> {
    command.copy()
}

fn script_again(script: Script) -> Mem<Script> {
    script.copy()
}

fn reply_again(reply: Reply) -> Mem<Reply> {
    reply.copy()
}

fn summary_again(summary: Summary) -> Mem<Summary> {
    summary.copy()
}

#[test]
fn a_write_is_copied(rt: HostRuntime) -> Result<(), Fail> {
    let alloc = rt.alloc();
    let copy = write_again(WriteOp::Insert {
        ns: Text::from_str(alloc, "t")?,
        doc: five(alloc)?,
    })?;
    match &copy {
        WriteOp::Insert { doc, .. } => is_five(alloc, doc),
        _ => Err(Fail::new("another write")),
    }
}

#[test]
fn an_effect_is_copied(rt: HostRuntime) -> Result<(), Fail> {
    let alloc = rt.alloc();
    let copy = effect_again(Prepared::Entry {
        op: Op::Noop,
        after: Some(five(alloc)?),
    })?;
    match &copy {
        Prepared::Entry {
            after: Some(doc),
            ..
        } => is_five(alloc, doc),
        _ => Err(Fail::new("another effect")),
    }
}

#[test]
fn an_event_is_copied_with_its_command(rt: HostRuntime) -> Result<(), Fail> {
    let alloc = rt.alloc();
    let copy = event_again(Event {
        command: Command::Insert {
            node: 0,
            collection: Text::from_str(alloc, "t")?,
            document: five(alloc)?,
        },
        line: 7,
        failed: Some(0),
        kept: false,
    })?;
    match &copy.command {
        Command::Insert { document, .. } => is_five(alloc, document),
        _ => Err(Fail::new("another command")),
    }
}

/// Whether a command reads the document with the `_id` "five" in `t`, at majority, at the third node.
fn reads(command: &Command) -> bool {
    match command {
        Command::Read {
            node: 2,
            level: ReadLevel::Majority,
            collection,
            id: Value::Text(id),
        } => collection.as_str() == "t" && id.as_str() == "five",
        _ => false,
    }
}

#[test]
fn a_read_is_copied_with_its_id(rt: HostRuntime) -> Result<(), Fail> {
    let alloc = rt.alloc();
    let copy = command_again(Command::Read {
        node: 2,
        level: ReadLevel::Majority,
        collection: Text::from_str(alloc, "t")?,
        id: Value::Text(Text::from_str(alloc, "five")?),
    })?;
    assert!(rt; reads(&copy));
    Ok(())
}

/// Whether a command gives the second node a configuration of the one member 5.
fn is_change(command: &Command) -> bool {
    match command {
        Command::Reconfig { node: 1, config } => is_of_one(config),
        _ => false,
    }
}

fn is_of_one(config: &Config) -> bool {
    match config.members.as_slice() {
        [member] => member.number == 5 && config.version == 2,
        _ => false,
    }
}

#[test]
fn a_reconfig_is_copied_with_its_members(rt: HostRuntime) -> Result<(), Fail> {
    let mut members = MemberList::new(rt.alloc());
    members.push(Member {
        number: 5,
        votes: true,
        priority: 1,
    })?;
    let copy = command_again(Command::Reconfig {
        node: 1,
        config: Config {
            term: 1,
            version: 2,
            members,
            chaining: true,
        },
    })?;
    assert!(rt; is_change(&copy));
    Ok(())
}

/// Whether a part is a line of this number that inserts a document.
fn is_insert(part: &Part, line: u32) -> bool {
    match part {
        Part::Line(number, Command::Insert { .. }) => *number == line,
        _ => false,
    }
}

/// How many lines each of two threads has.
fn lines_of_two(part: &Part) -> (usize, usize) {
    let Part::Par(threads) = part else {
        return (0, 0);
    };
    match threads.as_slice() {
        [first, second] => (first.as_slice().len(), second.as_slice().len()),
        _ => (0, 0),
    }
}

/// The copy of a part of a script.
fn part_again(alloc: Global, bytes: &[u8], place: usize) -> Result<Part, Fail> {
    let Ok(script) = parse(alloc, bytes) else {
        return Err(Fail::new("no script"));
    };
    match script.parts.as_slice().get(place) {
        Some(part) => Ok(part.copy()?),
        None => Err(Fail::new("another script")),
    }
}

#[test]
fn a_part_is_copied(rt: HostRuntime) -> Result<(), Fail> {
    let bytes = b"set 2\ninsert n0 t {_id: 1}\npar\nthread\nlog n0\nlog n1\nthread\nlog n1\nend";
    assert!(rt; is_insert(&part_again(rt.alloc(), bytes, 0)?, 2));
    assert_eq!(rt; lines_of_two(&part_again(rt.alloc(), bytes, 1)?), (2, 1));
    Ok(())
}

/// How many parts there are, and how many threads in the second one.
fn counts(parts: &[Part]) -> (usize, usize) {
    match parts {
        [_, Part::Par(threads), ..] => (parts.len(), threads.as_slice().len()),
        _ => (parts.len(), 0),
    }
}

#[test]
fn a_script_is_copied_with_its_blocks(rt: HostRuntime) -> Result<(), Fail> {
    let alloc = rt.alloc();
    let bytes = b"set 2\nlog n0\npar\nthread\nlog n0\nthread\nlog n1\nend\nstate n1";
    let Ok(script) = parse(alloc, bytes) else {
        return Err(Fail::new("no script"));
    };
    let copy = script_again(script)?;
    assert_eq!(rt; counts(copy.parts.as_slice()), (3, 2));
    Ok(())
}

/// Fails if the copy of a reply to line 7 has another text, and says which.
fn tells(alloc: Global, reply: Reply, text: &str) -> Result<(), Fail> {
    let copy = reply_again(reply)?;
    let mut found = String::new(alloc);
    write_reply(7, &copy, &mut found)?;
    is_text(found, text)
}

/// `{a: 5}` in `t`.
fn documents(alloc: Global) -> Result<DocumentList, Fail> {
    let mut documents = DocumentList::new(alloc);
    documents.push(Text::from_str(alloc, "t")?, five(alloc)?)?;
    Ok(documents)
}

#[test]
fn a_reply_is_copied(rt: HostRuntime) -> Result<(), Fail> {
    let alloc = rt.alloc();
    tells(alloc, Reply::Written(AT), "7: written 1/0/2\n")?;
    tells(alloc, Reply::Down, "7: down\n")?;
    tells(alloc, Reply::Found(five(alloc)?), "7: found {a: 5}\n")?;
    tells(
        alloc,
        Reply::Documents(documents(alloc)?),
        "7: documents 1\n  t {a: 5}\n",
    )?;
    let entries = EntryList::new(Vec::new(alloc));
    tells(alloc, Reply::Entries(entries), "7: entries 0\n")?;
    let lost = LostList::new(alloc);
    tells(alloc, Reply::Rolled(lost), "7: documents 0\n")
}

/// The document with the `_id` 1 in `t` was `{a: 5}`, and the one with the `_id` 2 was gone.
fn lost(alloc: Global) -> Result<LostList, Fail> {
    let mut lost = LostList::new(alloc);
    let first = (Text::from_str(alloc, "t")?, IdKey::Number(1));
    lost.push(first, Some(five(alloc)?))?;
    let second = (Text::from_str(alloc, "t")?, IdKey::Number(2));
    lost.push(second, None)?;
    Ok(lost)
}

#[test]
fn lost_documents_are_copied(rt: HostRuntime) -> Result<(), Fail> {
    let alloc = rt.alloc();
    tells(
        alloc,
        Reply::Rolled(lost(alloc)?),
        "7: documents 2\n  t {a: 5}\n  t 2 gone\n",
    )
}

#[test]
fn a_summary_is_copied(rt: HostRuntime) -> Result<(), Fail> {
    let alloc = rt.alloc();
    let mut nodes = NodePoints::new(alloc);
    nodes.push(None)?;
    let copy = summary_again(Summary {
        events: 5,
        written: 4,
        won: 3,
        rolled_back: 2,
        refused: 1,
        nodes,
    })?;
    let mut text = String::new(alloc);
    write_summary(&copy, &mut text)?;
    is_text(
        text,
        "events 5\nwritten 4\nwon 3\nrolled back 2\nrefused 1\nn0 down\n",
    )
}
