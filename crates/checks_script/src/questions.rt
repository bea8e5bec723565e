// Questions: memory suffices for one, which has its parts, and others have their first faults.
use crate::found::is_text;
use bson_doc::Value;
use explore_words::{
    Act, Look, Question, QuestionError, Sight, Want, WantedEvent, parse_question,
    write_question_fault,
};
use set_model::{Command, ReadLevel};
use std::alloc::Global;
use std::test::Fail;

/// Two acts and two wants in a set of three nodes.
const QUESTION: &[u8] = b"set 3 2
campaign n1
# what may be done
may
deliver *
flush n2
may 2
crash n0 1
want
fetch * => sent
want
read * majority t 5 => found
dump * local => documents 1
  t {_id: 5}
";

/// Whether there are three nodes, of which the first two are members and vote.
fn has_sizes(question: &Question) -> bool {
    let sizes = question.sizes;
    (sizes.nodes, sizes.voters, sizes.members) == (3, 2, 2)
}

/// Whether the second node stands for election first, and nothing else is done.
fn has_beginning(question: &Question) -> bool {
    match question.beginning.as_slice() {
        [Command::Campaign { node: 1 }] => true,
        _ => false,
    }
}

/// Whether an act may be done any number of times: a delivery, and then a flush of the third node.
fn is_delivery(act: &Act) -> bool {
    match act.commands.as_slice() {
        [Command::Flush { node: 2 }] => act.any_message && act.limit == None,
        _ => false,
    }
}

/// Whether an act may be done twice: the first node crashes.
fn is_crash(act: &Act) -> bool {
    match act.commands.as_slice() {
        [Command::Crash { node: 0, pick: 1 }] => !act.any_message && act.limit == Some(2),
        _ => false,
    }
}

/// Whether these are all acts.
fn has_acts(question: &Question) -> bool {
    match question.acts.as_slice() {
        [first, second] => is_delivery(first) && is_crash(second),
        _ => false,
    }
}

/// Whether a fetch of any node is wanted, to which the reply begins with `sent`.
fn is_fetch(want: &Want) -> bool {
    match want {
        Want::Event(WantedEvent::Command(None, Command::Fetch { .. }), text) => {
            text.as_str() == "sent"
        }
        _ => false,
    }
}

/// Whether a look at any node is for the document with the `_id` 5 in `t`, at majority.
fn is_read(look: &Look) -> bool {
    match &look.sight {
        Sight::Read {
            level: ReadLevel::Majority,
            collection,
            id: Value::Int32(5),
        } => look.node == None && collection.as_str() == "t" && look.text.as_str() == "found",
        _ => false,
    }
}

/// Whether a look at any node is for one document, with a text of two lines.
fn is_dump(look: &Look) -> bool {
    match look.sight {
        Sight::Dump(ReadLevel::Local) => {
            look.node == None && look.text.as_str() == "documents 1\n  t {_id: 5}"
        }
        _ => false,
    }
}

/// Whether both looks are wanted at one moment.
fn is_sight(want: &Want) -> bool {
    let Want::Seen(looks) = want else {
        return false;
    };
    match looks.as_slice() {
        [first, second] => is_read(first) && is_dump(second),
        _ => false,
    }
}

/// Whether these are all wants.
fn has_wants(question: &Question) -> bool {
    match question.wants.as_slice() {
        [first, second] => is_fetch(first) && is_sight(second),
        _ => false,
    }
}

#[test]
fn a_question_has_its_parts(rt: HostRuntime) -> Result<(), Fail> {
    let Ok(question) = parse_question(rt.alloc(), QUESTION) else {
        return Err(Fail::new("no question"));
    };
    assert!(rt; has_sizes(&question));
    assert!(rt; has_beginning(&question));
    assert!(rt; has_acts(&question));
    assert!(rt; has_wants(&question));
    Ok(())
}

/// Questions with their first faults. `$` stands for a line feed.
const FAULTY: &str = r"set 2$campaign n0$want$state n0 => state|line 3: NoMayLine
set 2$may$crash n1$|line 4: NoWantLine
set 2$may$want$|line 3: BadAct
set 2$may$deliver m1$|line 3: BadAct
set 2$may 0$crash n1$|line 2: BadNumber
set 2$may$crash n1$want$state n0$|line 5: BadWant
set 2$may$crash n1$want$deliver * => ignored$|line 5: BadWant
set 2$par$|line 2: UnknownCommand";

/// The line that is printed for bytes that aren't a question, or nothing.
fn told(alloc: Global, bytes: &[u8]) -> Result<String, Fail> {
    let mut text = String::new(alloc);
    match parse_question(alloc, bytes) {
        Ok(_) => {}
        Err(QuestionError::Fault(fault)) => write_question_fault(&fault, &mut text)?,
        Err(QuestionError::Memory) => text.push_str("memory")?,
    }
    Ok(text)
}

#[test]
fn a_question_has_its_first_fault(rt: HostRuntime) -> Result<(), Fail> {
    let alloc = rt.alloc();
    for row in FAULTY.lines() {
        if let Some((question, fault)) = row.split_once('|') {
            let bytes = question.replace(alloc, "$", "\n")?;
            let text = told(alloc, bytes.as_bytes())?;
            is_text(String::from_str(alloc, text.trim_end())?, fault)?;
        }
    }
    Ok(())
}
