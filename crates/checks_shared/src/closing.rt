// Threads that step one set, read it linearly and follow its changes, each by a pass of its own. After it is
// closed, its history has the calls of each in their order, and nothing else.
ghost use Rattle.std.specs.Prelude.{◌≡◌, true};
ghost use Rattle.set_model.specs.Limits.{is_for};
ghost use Rattle.shared_set.specs.Passes.{IsPass, sizes_of, view};
ghost use Rattle.turn_board.specs.Passes.{IsFree};

use crate::shared::shared;
use bson_doc::Value;
use change_stream::{next, open};
use linear_read::linear_read;
use rs_disk::MemDisk;
use rs_optime::OpTime;
use set_model::{Command, Event};
use set_world::Stepper;
use shared_set::{Caller, Pass, SharedSet};
use std::alloc::Global;
use std::sync::Wait;
use std::test::Fail;
use std::thread::{Threads, join};

// How often they meet.
const MEETINGS: u32 = 100;

// What a thread does with a set of two nodes, of which the first is the only member.
#[derive(Clone, Copy, Debug, PartialEq, Eq)]
enum Task {
    Elect,
    SetClock,
    Read,
    Follow,
}

fn both(one: bool, two: bool) -> bool {
    one && two
}

// Does two commands, on the same line.
fn steps<R: Threads + Wait + Sync, S: Stepper>(
    rt: &R,
    set: &mut S,
    line: u32,
    one: &Command,
    two: &Command,
) -> bool
    requires one { is_for (S.sizes set.old).nodes one.now ≡ true }
    requires two { is_for (S.sizes set.old).nodes two.now ≡ true }
    ensures stays { S.stays set.old set.new }
{
    let first = set.step(rt, line, one);
    let second = set.step(rt, line, two);
    both(first.is_ok(), second.is_ok())
}

fn elects<R: Threads + Wait + Sync, S: Stepper>(rt: &R, set: &mut S) -> bool
    requires nodes { (S.sizes set.old).nodes ≡ 2 }
    ensures stays { S.stays set.old set.new }
{
    let campaign = Command::Campaign { node: 0 };
    let drain = Command::Drain { node: 0 };
    steps(rt, set, 1, &campaign, &drain)
}

fn sets_clock<R: Threads + Wait + Sync, S: Stepper>(rt: &R, set: &mut S) -> bool
    requires nodes { (S.sizes set.old).nodes ≡ 2 }
    ensures stays { S.stays set.old set.new }
{
    let early = Command::Clock {
        node: 0,
        seconds: 1,
    };
    let late = Command::Clock {
        node: 0,
        seconds: 2,
    };
    steps(rt, set, 2, &early, &late)
}

fn reads<R: Threads + Wait + Sync, S: Stepper>(rt: &R, alloc: Global, set: &mut S) -> bool
    requires nodes { (S.sizes set.old).nodes ≡ 2 }
    ensures stays { S.stays set.old set.new }
{
    linear_read(alloc, rt, set, 0, 2, "t", &Value::Int32(1)).is_ok()
}

// Asks the second node twice.
fn follows<R: Threads + Wait + Sync, S: Stepper>(rt: &R, set: &mut S) -> bool
    requires nodes { (S.sizes set.old).nodes ≡ 2 }
    ensures stays { S.stays set.old set.new }
{
    let mut stream = open(OpTime::ZERO);
    let first = next(&mut stream, rt, set, 1, 10);
    let second = next(&mut stream, rt, set, 1, 10);
    both(first.is_ok(), second.is_ok())
}

fn does<R: Threads + Wait + Sync, S: Stepper>(
    rt: &R,
    alloc: Global,
    set: &mut S,
    task: Task,
) -> bool
    requires nodes { (S.sizes set.old).nodes ≡ 2 }
    ensures stays { S.stays set.old set.new }
{
    match task {
        Task::Elect => elects(rt, set),
        Task::SetClock => sets_clock(rt, set),
        Task::Read => reads(rt, alloc, set),
        Task::Follow => follows(rt, set),
    }
}

// The same with a pass, which keeps its parts. The result is whether each step was done.
fn calls<R: Threads + Wait + Sync>(
    rt: &R,
    alloc: Global,
    set: &SharedSet<MemDisk>,
    pass: &mut Pass<MemDisk>,
    task: Task,
) -> bool
    requires pass { IsPass set.now pass.old × IsFree pass.old }
    requires nodes { (sizes_of set.now).nodes ≡ 2 }
    ensures pass { IsPass set.now pass.new × IsFree pass.new }
    ensures parts { (view pass.new).parts ≡ (view pass.old).parts }
{
    let mut caller = Caller { set, pass };
    let done = does(rt, alloc, &mut caller, task);
    let Caller {
        set: _set,
        pass: _pass,
    } = caller;
    done
}

// The same on a thread, which hands its pass back.
fn call_by<R: Threads + Wait + Sync>(
    rt: &R,
    alloc: Global,
    set: &SharedSet<MemDisk>,
    mut pass: Pass<MemDisk>,
    task: Task,
) -> (bool, Pass<MemDisk>)
    requires pass { IsPass set.now pass × IsFree pass }
    requires nodes { (sizes_of set.now).nodes ≡ 2 }
    ensures pass { IsPass set.entry.now result.1 × IsFree result.1 }
    ensures parts { (view result.1).parts ≡ (view pass).parts }
{
    let done = calls(rt, alloc, set, &mut pass, task);
    (done, pass)
}

// One thread reads, and another one follows the changes. They hand their passes back, joined into one.
fn read_and_follow<R: Threads + Wait + Sync>(
    rt: &R,
    alloc: Global,
    set: &SharedSet<MemDisk>,
    reader: Pass<MemDisk>,
    follower: Pass<MemDisk>,
) -> (bool, Pass<MemDisk>)
    requires reader { IsPass set.now reader × IsFree reader × ((view reader).parts ≡ 1) }
    requires follower { IsPass set.now follower × IsFree follower × ((view follower).parts ≡ 1) }
    requires nodes { (sizes_of set.now).nodes ≡ 2 }
    ensures pass { IsPass set.entry.now result.1 × IsFree result.1 }
    ensures parts { (view result.1).parts ≡ 2 }
{
    let ((read, mut reader), (followed, follower)) = join(
        rt,
        || -> (bool, Pass<MemDisk>)
            requires { IsPass set.now reader × IsFree reader × ((sizes_of set.now).nodes ≡ 2) }
            ensures { IsPass set.entry.now result.1 × IsFree result.1
                × ((view result.1).parts ≡ (view reader).parts) }
        { call_by(rt, alloc, set, reader, Task::Read) },
        || -> (bool, Pass<MemDisk>)
            requires { IsPass set.now follower × IsFree follower × ((sizes_of set.now).nodes ≡ 2) }
            ensures { IsPass set.entry.now result.1 × IsFree result.1
                × ((view result.1).parts ≡ (view follower).parts) }
        { call_by(rt, alloc, set, follower, Task::Follow) },
    );
    set.join(&mut reader, follower);
    (read && followed, reader)
}

// The thread whose event this is, by its line and command.
fn task_of(event: &Event) -> Task {
    match event.line {
        1 => Task::Elect,
        2 => Task::SetClock,
        _ => task_without_line(&event.command),
    }
}

// A read asks the second node for neither its state nor its log.
fn task_without_line(command: &Command) -> Task {
    match command {
        Command::State { node: 1 } => Task::Follow,
        Command::Log { .. } => Task::Follow,
        _ => Task::Read,
    }
}

// A letter for each kind of command, and a digit for a time.
fn letter(command: &Command) -> u8 {
    match command {
        Command::Campaign { .. } => b'c',
        Command::Drain { .. } => b'd',
        Command::Clock { seconds: 1, .. } => b'1',
        Command::Clock { seconds: 2, .. } => b'2',
        Command::State { .. } => b's',
        Command::Read { .. } => b'r',
        Command::Note { .. } => b'n',
        Command::Flush { .. } => b'f',
        Command::Heartbeat { .. } => b'h',
        Command::Deliver { .. } => b'm',
        Command::Fetch { .. } => b'g',
        Command::Report { .. } => b'p',
        Command::Ack { .. } => b'a',
        Command::Log { .. } => b'l',
        _ => b'?',
    }
}

// Whether these are the events of a task.
fn are_of(history: &[Event], task: Task, letters: &[u8]) -> bool {
    let mut left = letters;
    for event in history {
        if task_of(event) == task {
            let Some((first, more)) = left.split_first() else {
                return false;
            };
            if *first != letter(&event.command) {
                return false;
            }
            left = more;
        }
    }
    left.is_empty()
}

// Both entries reach the second node in one round. There is something to flush once at each node.
const READ: &[u8] = b"srnffhmgmmffpma";

// Whether all steps are done, and the history is what was called for.
fn ends_so<R: Threads + Wait + Sync>(rt: &R, alloc: Global) -> Result<bool, Fail> {
    let (set, mut pass) = shared(alloc, 2, 1, 1)?;
    let elected = calls(rt, alloc, &set, &mut pass, Task::Elect);
    let one = set.split(&mut pass);
    let two = set.split(&mut pass);
    let three = set.split(&mut pass);
    let ((stepped, one), (asked, two)) = join(
        rt,
        || -> (bool, Pass<MemDisk>)
            requires { IsPass set one × IsFree one × ((sizes_of set).nodes ≡ 2) }
            ensures { IsPass set result.1 × IsFree result.1
                × ((view result.1).parts ≡ (view one).parts) }
        { call_by(rt, alloc, &set, one, Task::SetClock) },
        || -> (bool, Pass<MemDisk>)
            requires { IsPass set two × IsFree two × ((view two).parts ≡ 1) × IsPass set three × IsFree three
                × ((view three).parts ≡ 1) × ((sizes_of set).nodes ≡ 2) }
            ensures { IsPass set result.1 × IsFree result.1 × ((view result.1).parts ≡ 2) }
        { read_and_follow(rt, alloc, &set, two, three) },
    );
    set.join(&mut pass, one);
    set.join(&mut pass, two);
    let world = set.close(pass);
    let history = world.history();
    Ok(
        elected
            && stepped
            && asked
            && are_of(history, Task::Elect, b"cd")
            && are_of(history, Task::SetClock, b"12")
            && are_of(history, Task::Read, READ)
            && are_of(history, Task::Follow, b"slsl"),
    )
}

#[test]
fn a_closed_set_has_the_calls_of_each_and_no_others(rt: HostRuntime) -> Result<(), Fail> {
    for _ in 0..MEETINGS {
        assert!(rt; ends_so(&rt, rt.alloc())?);
    }
    Ok(())
}
