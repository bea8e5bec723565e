// Traces: what is written of each command is read back, other spellings are read as well, and texts are
// checked.
use crate::found::is_text;
use fault_script::{CommandError, parse_command};
use run_checker::{
    CheckError, check, next_line, read_event, read_header, set_entry, write_count, write_no_trace,
    write_trace,
};
use set_model::Reply;
use std::alloc::Global;
use std::fmt::Write;
use std::test::Fail;

/// Event lines in a set of three nodes, each as a trace has it.
const EVENTS: &str = r#"event 2 - 0 campaign n2
event 3 0 0 drain n1
event 4 - 0 insert n0 t {_id: 1, a: "b c"}
event 5 - 0 replace n1 a.b_2 [1, {}] {}
event 6 - 0 update n2 T {_id: 1} {$inc: {a: 1L}}
event 7 - 0 delete n0 t "x y"
event 8 - 0 begin n0 w1 insert t {_id: 1}
event 9 - 0 begin n1 w999 replace t 1 {a: 2}
event 10 - 0 begin n2 w0 update t 1 {$unset: {a: 1}}
event 11 - 0 begin n0 w2 delete t null
event 12 - 0 retry n0 7 1 insert t {_id: 1}
event 12 - 0 retry n1 4294967295 2147483647 replace t 1 {a: 2}
event 12 - 0 retry n2 0 1 update t 1 {$unset: {a: 1}}
event 12 - 0 retry n0 7 2 delete t null
event 12 - 0 note n1
event 12 - 0 commit n0 w7
event 13 - 0 abort n1 w0
event 14 - 0 ack n0 w5 majority
event 14 - 0 ack n2 3/1/2 1
event 15 - 0 ack n2 18446744073709551615/4294967295/4294967295 50
event 16 - 0 read n0 local t 1
event 17 - 0 read n1 majority t {a: 1}
event 18 - 0 dump n0 local
event 19 - 0 dump n2 majority
event 20 - 0 log n0
event 21 - 0 state n1
event 22 - 0 rolled n2
event 23 - 0 dryrun n1
event 24 - 0 stepdown n0
event 25 - 0 heartbeat n0 n1
event 26 - 0 report n1 n2
event 27 - 0 common n2 n0
event 28 - 0 fetch n1
event 29 1 0 deliver m18446744073709551615
event 30 - 0 deliver n2 n1
event 31 - 0 apply n1 1
event 31 - 0 apply n2 16
event 32 - 0 flush n1
event 33 - 0 checkpoint n2
event 34 - 0 reconfig n0 {"version":2,"members":[{"_id":0,"votes":1,"priority":1},{"_id":1,"votes":0,"priority":0}],"settings":{"chainingAllowed":false}}
event 35 - 0 crash n1 18446744073709551615
event 36 - 1 restart n2
event 37 - 0 diskfail n0 journal 1
event 38 - 0 diskfail n1 checkpoint 1000 0
event 38 - 0 clock n0 0
event 0 4294967295 0 clock n1 2147483647"#;

/// Other lines, each with what is written for its event; `BadEvent` marks a line that isn't one.
const OTHERS: &str = r#"event 040 00 01 restart n02|event 40 0 1 restart n2
event 41 - 0 apply n0|event 41 - 0 apply n0 4
event 41 - 0 drain n01|event 41 - 0 drain n1
event 41 - 0 begin n0 w02 delete t null|event 41 - 0 begin n0 w2 delete t null
event 41 - 0 commit n0 w007|event 41 - 0 commit n0 w7
event 41 - 0 ack n0 w05 01|event 41 - 0 ack n0 w5 1
event 41 - 0 ack n2 01/0/2 50|event 41 - 0 ack n2 1/0/2 50
event 41 - 0 deliver m007|event 41 - 0 deliver m7
event 41 - 0 apply n2 016|event 41 - 0 apply n2 16
event 42 - 0 crash n0|event 42 - 0 crash n0 0
event 42 - 0 retry n0 07 002 delete t 1|event 42 - 0 retry n0 7 2 delete t 1
event 42 - 0 retry n0 00 01 delete t "x y"|event 42 - 0 retry n0 0 1 delete t "x y"
event 43 - 0 insert n0 t {_id:1}|event 43 - 0 insert n0 t {_id: 1}
event 44 - 0 reconfig n0 {"version":2,"members":[{"_id":0},{"_id":1,"votes":0,"priority":0}]}|event 44 - 0 reconfig n0 {"version":2,"members":[{"_id":0,"votes":1,"priority":1},{"_id":1,"votes":0,"priority":0}],"settings":{"chainingAllowed":true}}
event 44 - 0 reconfig n0 { "members": [], "version": 3 }|event 44 - 0 reconfig n0 {"version":3,"members":[],"settings":{"chainingAllowed":true}}
|BadEvent
event|BadEvent
event 2|BadEvent
event 2 -|BadEvent
event 2 - 0|BadEvent
event 2 - 0 |BadEvent
event 2 - 0  log n0|BadEvent
event 2 - 0 log n0 |BadEvent
event 2 - 0 log n3|BadEvent
event 2 - 0 set 3|BadEvent
event 2 - 0 par|BadEvent
event 2 - 0 # log n0|BadEvent
event 2 - 0 retry n0 7 0 delete t 1|BadEvent
event 2 - 0 note n0 |BadEvent
event 2 - 2 log n0|BadEvent
event 2 - - log n0|BadEvent
event 2 -1 0 log n0|BadEvent
event 2 4294967296 0 log n0|BadEvent
event 4294967296 - 0 log n0|BadEvent
event -2 - 0 log n0|BadEvent
Event 2 - 0 log n0|BadEvent
2: down|BadEvent"#;

/// Headers with the sizes that they name, or nothing for bytes that don't begin with one. `$` stands for a
/// line feed.
const HEADERS: &str = r"trace 1 1 1$|1 1 1
trace 7 3 3$trace|7 3 3
trace 07 007 7$|7 7 7
trace 1 1 1|
trace 8 7 7$|8 7 7
trace 50 7 50$|50 7 50
trace 51 7 7$|
trace 8 8 8$|
trace 0 0 0$|
trace 3 0 0$|
trace 3 4 4$|
trace 3 2 3$|3 2 3
trace 3 2 4$|
trace 3 3 2$|
trace 3 3$|
trace 3 3 3 $|
trace 3 3 3 3$|
trace  3 3 3$|
Trace 3 3 3$|
trace 3 3 x$|
$trace 3 3 3$|
|";

/// Texts that aren't commands, each with the rule that it breaks.
const REFUSED: &str = r"|UnknownCommand
# log n0|UnknownCommand
set 3|UnknownCommand
par|UnknownCommand
par 1|UnknownCommand
thread|UnknownCommand
end|UnknownCommand
 log n0|UnknownCommand
log|WordCount
log n0 |WordCount
log n3|BadNode
heartbeat n0 n00|BadNode
note n0 |WordCount
retry n0 7 1 insert t|WordCount
retry n0 7 0 delete t 1|BadNumber
retry n0 7 1 note t 1|BadWord
clock n0 2147483648|BadNumber
read n0 snapshot t 1|BadWord
reconfig n0 {}|BadConfigText
delete n0 t 1 |BadText(Unexpected)";

/// What a check prints, and then the text of events and replies after a header that it checks. `$` stands for
/// a line feed.
const CHECKED: &str =
    r"yes 4|trace 1 1 1$event 2 - 0 campaign n0$2: won 1$event 3 - 0 drain n0$3: primary 1 noop 1/0/1$event 4 - 0 insert n0 t {_id: 1}$4: written 1/0/2$event 5 - 0 read n0 local t 1$5: found {_id: 1}$
line 7: OtherReply|trace 1 1 1$event 2 - 0 campaign n0$2: won 1$event 3 - 0 drain n0$3: primary 1 noop 1/0/1$event 4 - 0 insert n0 t {_id: 1}$4: written 1/0/3$event 5 - 0 read n0 local t 1$5: found {_id: 1}$
line 3: OtherReply|trace 1 1 1$event 2 0 0 campaign n0$2: won 1$event 3 - 0 drain n0$3: primary 1 noop 1/0/1$
line 2: NoFit|trace 1 1 1$event 2 1 0 campaign n0$2: won 1$event 3 - 0 drain n0$3: primary 1 noop 1/0/1$
line 1: BadHeader|";

/// What is written for the event that a line is, with a reply after it, or `BadEvent`.
fn written(alloc: Global, line: &[u8]) -> Result<String, Fail> {
    let mut text = String::new(alloc);
    match read_event(alloc, 3, line) {
        Ok(event) => set_entry(&event, &Reply::Down, &mut text)?,
        Err(_) => text.push_str("BadEvent")?,
    }
    Ok(text)
}

/// Fails if something else is written for the event of a line, and says what.
fn comes_to(alloc: Global, line: &str, wanted: &str) -> Result<(), Fail> {
    let found = written(alloc, line.as_bytes())?;
    if found.lines().next() == Some(wanted) {
        return Ok(());
    }
    Err(Fail::new(found))
}

#[test]
fn each_event_is_written_as_it_is_read(rt: HostRuntime) -> Result<(), Fail> {
    for line in EVENTS.lines() {
        comes_to(rt.alloc(), line, line)?;
    }
    Ok(())
}

#[test]
fn other_lines_are_read_by_the_grammar(rt: HostRuntime) -> Result<(), Fail> {
    for row in OTHERS.lines() {
        if let Some((line, wanted)) = row.rsplit_once('|') {
            comes_to(rt.alloc(), line, wanted)?;
        }
    }
    Ok(())
}

/// The trace of one event, with the reply `down`.
fn trace_of(alloc: Global, line: &[u8]) -> Result<String, Fail> {
    let mut text = String::from_str(alloc, "before ")?;
    if let Ok(event) = read_event(alloc, 3, line) {
        let (events, replies) = (vec![in alloc; event]?, vec![in alloc; Reply::Down]?);
        write_trace((3, 2, 2), &events, &replies, &mut text)?;
    }
    Ok(text)
}

#[test]
fn a_trace_is_written_after_what_is_there(rt: HostRuntime) -> Result<(), Fail> {
    is_text(
        trace_of(rt.alloc(), b"event 2 0 1 log n0")?,
        "before trace 3 2 2\nevent 2 0 1 log n0\n2: down\n",
    )
}

/// The sizes that a header names, with spaces between, or nothing.
fn sizes_of(alloc: Global, header: &str) -> Result<String, Fail> {
    let bytes = header.replace(alloc, "$", "\n")?;
    let mut out = String::new(alloc);
    if let Some(((nodes, voters, members), _)) = read_header(bytes.as_bytes()) {
        write!(out, "{nodes} {voters} {members}")?;
    }
    Ok(out)
}

#[test]
fn headers_name_sizes(rt: HostRuntime) -> Result<(), Fail> {
    for row in HEADERS.lines() {
        if let Some((header, sizes)) = row.split_once('|') {
            is_text(sizes_of(rt.alloc(), header)?, sizes)?;
        }
    }
    Ok(())
}

#[test]
fn a_line_ends_at_its_line_feed(rt: HostRuntime) -> Result<(), Fail> {
    assert_eq!(rt;
        next_line(b"a\r\n\nb"),
        (b"a\r".as_slice(), Some(b"\nb".as_slice()))
    );
    assert_eq!(rt; next_line(b"\nb"), (b"".as_slice(), Some(b"b".as_slice())));
    assert_eq!(rt; next_line(b"b"), (b"b".as_slice(), None));
    Ok(())
}

/// The rule that a text breaks, or nothing.
fn rule_of(alloc: Global, text: &str) -> Result<String, Fail> {
    let mut out = String::new(alloc);
    if let Err(CommandError::Rule(rule)) = parse_command(alloc, text, 3) {
        write!(out, "{rule:?}")?;
    }
    Ok(out)
}

#[test]
fn other_texts_are_no_command(rt: HostRuntime) -> Result<(), Fail> {
    for row in REFUSED.lines() {
        if let Some((text, rule)) = row.split_once('|') {
            is_text(rule_of(rt.alloc(), text)?, rule)?;
        }
    }
    Ok(())
}

/// What a check prints, without a line feed.
fn verdict_of(alloc: Global, text: &str) -> Result<String, Fail> {
    let bytes = text.replace(alloc, "$", "\n")?;
    let mut out = String::new(alloc);
    match check(alloc, bytes.as_bytes()) {
        Ok(count) => write_count(count, &mut out)?,
        Err(CheckError::Memory) => return Err(Fail::new("out of memory")),
        Err(why) => write_no_trace(why, &mut out)?,
    }
    Ok(String::from_str(alloc, out.trim_end())?)
}

#[test]
fn texts_are_checked(rt: HostRuntime) -> Result<(), Fail> {
    for row in CHECKED.lines() {
        if let Some((verdict, text)) = row.split_once('|') {
            is_text(verdict_of(rt.alloc(), text)?, verdict)?;
        }
    }
    Ok(())
}
