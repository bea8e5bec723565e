// Sets that are played: one of a single node as examples/first.replset has it, and one of three.
use play::Play;
use std::alloc::Global;
use std::test::Fail;

/// The lines of the example after its `set` line.
const LINES: &[u8] = b"campaign n0
drain n0
insert n0 t {_id: 1}
read n0 local t 1
";

/// What the example prints (examples/first.out), and the script with each number said.
const PLAYED: &str = "2: won 1
3: primary 1 noop 1/0/1
4: written 1/0/2
5: found {_id: 1}
set 1 1 1
campaign n0
drain n0
insert n0 t {_id: 1}
read n0 local t 1
";

/// Its trace (examples/first.trace).
const TRACE: &str = "trace 1 1 1
event 2 - 0 campaign n0
2: won 1
event 3 - 0 drain n0
3: primary 1 noop 1/0/1
event 4 - 0 insert n0 t {_id: 1}
4: written 1/0/2
event 5 - 0 read n0 local t 1
5: found {_id: 1}
";

/// Two requests for a vote.
const SENT: &str = "2: candidate 1 sent m0 2
m0 n0 n1 1 VoteAsk
m1 n0 n2 1 VoteAsk
";

/// A set of so many nodes that has played lines, whose replies are appended.
fn played(alloc: Global, nodes: u32, lines: &[u8], text: &mut String) -> Result<Play, Fail> {
    let Ok(mut set) = Play::open(alloc, (nodes, nodes, nodes), 1) else {
        return Err(Fail::new("it isn't opened"));
    };
    match set.steps(lines, text) {
        Ok(()) => Ok(set),
        Err(_) => Err(Fail::new("a line isn't played")),
    }
}

/// Fails if a text isn't the expected one, and says what it is.
fn is_text(found: String, wanted: &str) -> Result<(), Fail> {
    if found.as_str() == wanted {
        return Ok(());
    }
    Err(Fail::new(found))
}

#[test]
fn lines_are_played_and_kept(rt: HostRuntime) -> Result<(), Fail> {
    let mut text = String::new(rt.alloc());
    let set = played(rt.alloc(), 1, LINES, &mut text)?;
    set.script(&mut text)?;
    is_text(text, PLAYED)
}

#[test]
fn a_copy_has_the_trace(rt: HostRuntime) -> Result<(), Fail> {
    let mut text = String::new(rt.alloc());
    let set = played(rt.alloc(), 1, LINES, &mut text)?;
    text.clear();
    set.copy()?.trace(&mut text)?;
    is_text(text, TRACE)
}

#[test]
fn messages_are_told(rt: HostRuntime) -> Result<(), Fail> {
    let mut text = String::new(rt.alloc());
    let mut set = played(rt.alloc(), 3, b"campaign n0", &mut text)?;
    set.messages(0, &mut text)?;
    is_text(text, SENT)
}

/// Appends what a copy is asked once.
fn ask(set: &Play, line: &[u8], text: &mut String) -> Result<(), Fail> {
    let mut copy = set.copy()?;
    match copy.ask(line, text) {
        Ok(()) => Ok(()),
        Err(_) => Err(Fail::new("it isn't asked")),
    }
}

#[test]
fn a_copy_is_asked(rt: HostRuntime) -> Result<(), Fail> {
    let mut text = String::new(rt.alloc());
    let set = played(rt.alloc(), 1, LINES, &mut text)?;
    text.clear();
    ask(&set, b"read n0 local t 1", &mut text)?;
    is_text(text, "6: found {_id: 1}\n")
}
