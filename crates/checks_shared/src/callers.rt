// Two threads that step one set: each sees steps of the other between its own.
ghost use Rattle.std.specs.Prelude.{◌≡◌, ◌<◌, true};
ghost use Rattle.set_model.specs.Limits.{is_for};
ghost use Rattle.shared_set.specs.Passes.{IsPass, sizes_of};
ghost use Rattle.turn_board.specs.Passes.{IsFree};

use crate::shared::shared;
use rs_disk::MemDisk;
use set_model::{Command, Reply};
use shared_set::{Pass, SharedSet};
use std::alloc::Global;
use std::sync::Wait;
use std::test::Fail;
use std::thread::{Threads, join, yield_now};

// The most steps that a caller does to see one of the other.
const STEPS: u32 = 100_000;

// Sets the clock of the only node to a time that no other step sets, and returns the place of the event.
fn set_clock<R: Threads + Wait + Sync>(
    rt: &R,
    set: &SharedSet<MemDisk>,
    pass: &mut Pass<MemDisk>,
    caller: u32,
    seconds: u32,
) -> Option<u32>
    requires pass { IsPass set.now pass.old × IsFree pass.old }
    requires nodes { (sizes_of set.now).nodes ≡ 1 }
    requires seconds { seconds < 2147483648 }
    ensures pass { IsPass set.now pass.new × IsFree pass.new }
{
    let clock = Command::Clock { node: 0, seconds };
    match clock_told(rt, set, pass, caller, &clock) {
        Some((place, told)) if told == seconds => Some(place),
        _ => None,
    }
}

// The event's place and the time in its reply, if the command sets a clock.
fn clock_told<R: Threads + Wait + Sync>(
    rt: &R,
    set: &SharedSet<MemDisk>,
    pass: &mut Pass<MemDisk>,
    caller: u32,
    command: &Command,
) -> Option<(u32, u32)>
    requires pass { IsPass set.now pass.old × IsFree pass.old }
    requires command { is_for (sizes_of set.now).nodes command.now ≡ true }
    ensures pass { IsPass set.now pass.new × IsFree pass.new }
{
    match set.step(rt, pass, caller, command) {
        Ok((place, Reply::Clock(told))) => Some((place, told)),
        _ => None,
    }
}

// Whether there is something between the place before and this one.
fn is_after_another(before: Option<u32>, place: u32) -> bool {
    match before {
        Some(before) => place.saturating_sub(before) > 1,
        None => false,
    }
}

// Does steps until one of the other caller's is between two of its own, each answered with the time that it
// sets.
fn meets<R: Threads + Wait + Sync>(
    rt: &R,
    set: &SharedSet<MemDisk>,
    mut pass: Pass<MemDisk>,
    caller: u32,
) -> bool
    requires pass { IsPass set.now pass × IsFree pass }
    requires nodes { (sizes_of set.now).nodes ≡ 1 }
{
    let mut before = None;
    for step in 1..=STEPS {
        let Some(place) = set_clock(rt, set, &mut pass, caller, step) else {
            return false;
        };
        if is_after_another(before, place) {
            return true;
        }
        before = Some(place);
        yield_now();
    }
    false
}

// Whether each of two callers of one set sees a step of the other.
fn meet<R: Threads + Wait + Sync>(rt: &R, alloc: Global) -> Result<bool, Fail> {
    let (set, mut pass) = shared(alloc, 1, 1, 1)?;
    let other = set.split(&mut pass);
    let (first, second) = join(
        rt,
        || -> bool
            requires { IsPass set pass × IsFree pass × ((sizes_of set).nodes ≡ 1) }
        { meets(rt, &set, pass, 1) },
        || -> bool
            requires { IsPass set other × IsFree other × ((sizes_of set).nodes ≡ 1) }
        { meets(rt, &set, other, 2) },
    );
    Ok(first && second)
}

#[test]
fn two_callers_see_each_other(rt: HostRuntime) -> Result<(), Fail> {
    assert!(rt; meet(&rt, rt.alloc())?);
    Ok(())
}
