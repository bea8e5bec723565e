// Two threads that read linearly beside one that writes, over one set.
ghost use Rattle.std.specs.Prelude.{◌≡◌, true};
ghost use Rattle.set_model.specs.Limits.{is_for};
ghost use Rattle.shared_set.specs.Passes.{IsPass, sizes_of};
ghost use Rattle.turn_board.specs.Passes.{IsFree};

use crate::shared::{are_stepped, shared};
use bson_doc::Value;
use fault_script::parse;
use linear_read::{LinearAnswer, linear_read};
use rs_disk::MemDisk;
use set_model::{AckConcern, Command, Refusal, Reply, Target};
use set_world::{StepError, Stepper};
use shared_set::{Caller, Pass, SharedSet};
use std::alloc::Global;
use std::sync::Wait;
use std::test::Fail;
use std::thread::{Threads, join};

// How often they meet.
const MEETINGS: u32 = 100;

// The first of three nodes becomes primary.
const ELECTED: &str = "set 3\ncampaign n0\ndeliver m0\ndeliver m2\ndrain n0\n";

// One of its writers writes a document.
const WRITTEN: &str = "set 3\nbegin n0 w1 insert t {_id: 1}\ncommit n0 w1\n";

// How often a read that has to wait is tried again: it waits only while others are in its way.
const TRIES: u32 = 1000;

// Plays a script without blocks on a set of three nodes.
fn play<R: Threads + Wait + Sync>(
    rt: &R,
    alloc: Global,
    set: &SharedSet<MemDisk>,
    pass: &mut Pass<MemDisk>,
    script: &str,
) -> Result<(), Fail>
    requires pass { IsPass set.now pass.old × IsFree pass.old }
    requires nodes { (sizes_of set.now).nodes ≡ 3 }
    ensures pass { IsPass set.now pass.new × IsFree pass.new }
{
    let script = parse(alloc, script.as_bytes())?;
    if script.nodes != 3 || !are_stepped(rt, set, pass, script.parts.as_slice()) {
        return Err(Fail::new("the script isn't played"));
    }
    Ok(())
}

// What a linear read of the document at the first node answers.
fn answer<R: Threads + Wait + Sync, S: Stepper>(
    rt: &R,
    alloc: Global,
    set: &mut S,
) -> Result<LinearAnswer, StepError>
    requires nodes { (S.sizes set.old).nodes ≡ 3 }
    ensures sizes { S.sizes set.new ≡ S.sizes set.old }
{
    linear_read(alloc, rt, set, 0, 3, "t", &Value::Int32(1))
}

// The same, with a pass.
fn read<R: Threads + Wait + Sync>(
    rt: &R,
    alloc: Global,
    set: &SharedSet<MemDisk>,
    pass: &mut Pass<MemDisk>,
) -> Result<LinearAnswer, StepError>
    requires pass { IsPass set.now pass.old × IsFree pass.old }
    requires nodes { (sizes_of set.now).nodes ≡ 3 }
{
    let mut caller = Caller { set, pass };
    let answer = answer(rt, alloc, &mut caller);
    let Caller {
        set: _set,
        pass: _pass,
    } = caller;
    answer
}

// Whether too few have a read's note: that can happen next to other reads, since each can take what another
// fetched.
fn waits(answer: &Result<LinearAnswer, StepError>) -> bool {
    match answer {
        Ok(LinearAnswer::Refused(why)) => matches!(why, Refusal::Waiting { .. }),
        _ => false,
    }
}

fn is_found(answer: &Result<LinearAnswer, StepError>) -> bool {
    matches!(answer, Ok(LinearAnswer::Found(_)))
}

// Whether a read's answer is possible next to other reads.
fn may_be(answer: &Result<LinearAnswer, StepError>) -> bool {
    matches!(answer, Ok(LinearAnswer::Found(_) | LinearAnswer::Missing)) || waits(answer)
}

// A reader: whether its read's answer is possible.
fn reads<R: Threads + Wait + Sync>(
    rt: &R,
    alloc: Global,
    set: &SharedSet<MemDisk>,
    mut pass: Pass<MemDisk>,
) -> bool
    requires pass { IsPass set.now pass × IsFree pass }
    requires nodes { (sizes_of set.now).nodes ≡ 3 }
{
    may_be(&read(rt, alloc, set, &mut pass))
}

// Whether a read shows the document, after others let it end: one that misses it shows that it isn't there.
fn is_shown<R: Threads + Wait + Sync, S: Stepper>(rt: &R, alloc: Global, set: &mut S) -> bool
    requires nodes { (S.sizes set.old).nodes ≡ 3 }
    ensures sizes { S.sizes set.new ≡ S.sizes set.old }
{
    for _ in 0..TRIES {
        let answer = answer(rt, alloc, set);
        if !waits(&answer) {
            return is_found(&answer);
        }
    }
    false
}

// Whether a majority acknowledges what the writer wrote.
fn is_acked<R: Threads + Wait + Sync, S: Stepper>(rt: &R, set: &mut S) -> bool
    requires nodes { (S.sizes set.old).nodes ≡ 3 }
    ensures sizes { S.sizes set.new ≡ S.sizes set.old }
{
    let ack = Command::Ack {
        node: 0,
        target: Target::Writer(1),
        concern: AckConcern::Majority,
    };
    is_answered_so(rt, set, &ack)
}

// Whether the reply to a command is an acknowledgement.
fn is_answered_so<R: Threads + Wait + Sync, S: Stepper>(
    rt: &R,
    set: &mut S,
    command: &Command,
) -> bool
    requires command { is_for (S.sizes set.old).nodes command.now ≡ true }
    ensures sizes { S.sizes set.new ≡ S.sizes set.old }
{
    matches!(set.step(rt, 0, command), Ok(Reply::Acked(_)))
}

// The writer: whether it writes, a read brings that to the others, a majority then acknowledges it, and a
// read that begins after this answer shows it.
fn writes<R: Threads + Wait + Sync>(
    rt: &R,
    alloc: Global,
    set: &SharedSet<MemDisk>,
    mut pass: Pass<MemDisk>,
) -> bool
    requires pass { IsPass set.now pass × IsFree pass }
    requires nodes { (sizes_of set.now).nodes ≡ 3 }
{
    let Ok(script) = parse(alloc, WRITTEN.as_bytes()) else {
        return false;
    };
    if script.nodes != 3 || !are_stepped(rt, set, &mut pass, script.parts.as_slice()) {
        return false;
    }
    let mut caller = Caller {
        set,
        pass: &mut pass,
    };
    let holds = is_shown(rt, alloc, &mut caller)
        && is_acked(rt, &mut caller)
        && is_shown(rt, alloc, &mut caller);
    let Caller {
        set: _set,
        pass: _pass,
    } = caller;
    holds
}

// Two readers: whether the answers of both reads are possible.
fn two_read<R: Threads + Wait + Sync>(
    rt: &R,
    alloc: Global,
    set: &SharedSet<MemDisk>,
    one: Pass<MemDisk>,
    two: Pass<MemDisk>,
) -> bool
    requires one { IsPass set.now one × IsFree one }
    requires two { IsPass set.now two × IsFree two }
    requires nodes { (sizes_of set.now).nodes ≡ 3 }
{
    let (first, second) = join(
        rt,
        || -> bool
            requires { IsPass set.now one × IsFree one × ((sizes_of set.now).nodes ≡ 3) }
        { reads(rt, alloc, set, one) },
        || -> bool
            requires { IsPass set.now two × IsFree two × ((sizes_of set.now).nodes ≡ 3) }
        { reads(rt, alloc, set, two) },
    );
    first && second
}

// Whether all answers are possible, and a read after them shows the document.
fn meet<R: Threads + Wait + Sync>(rt: &R, alloc: Global) -> Result<bool, Fail> {
    let (set, mut pass) = shared(alloc, 3, 3, 3)?;
    let one = set.split(&mut pass);
    let two = set.split(&mut pass);
    let three = set.split(&mut pass);
    play(rt, alloc, &set, &mut pass, ELECTED)?;
    let (first, second) = join(
        rt,
        || -> bool
            requires { IsPass set one × IsFree one × ((sizes_of set).nodes ≡ 3) }
        { writes(rt, alloc, &set, one) },
        || -> bool
            requires { IsPass set two × IsFree two × IsPass set three × IsFree three
                × ((sizes_of set).nodes ≡ 3) }
        { two_read(rt, alloc, &set, two, three) },
    );
    Ok(first && second && is_found(&read(rt, alloc, &set, &mut pass)))
}

#[test]
fn a_read_after_an_acknowledgement_shows_what_was_written(rt: HostRuntime) -> Result<(), Fail> {
    for _ in 0..MEETINGS {
        assert!(rt; meet(&rt, rt.alloc())?);
    }
    Ok(())
}
