// Plays the lines of a part, in an order that the script allows.
ghost use Rattle.std.specs.Prelude.{◌≡◌, ◌+◌, ◌≤◌, ◌<◌, ◌++◌, true, [], length, OnOk};
ghost use Rattle.std.specs.List.{AllPass};
ghost use Rattle.fault_script.specs.Script.{lines_in, lines_of};
ghost use Rattle.fault_script.specs.declared.script.Part.TheVariants.{Line, Par};
ghost use Rattle.fault_script.specs.Lines.{MOST_LINES};
ghost use Rattle.set_model.specs.Limits.{is_for};
ghost use Rattle.set_program.specs.Parts.{can_be_run, unplaced, Steps, StepsAll};

use crate::block::run_block;
use batch_applier::Gate;
use bson_doc::Mem;
use fault_script::{Part, Parts, Threads as Lists};
use rs_disk::Disk;
use set_model::{Command, Reply};
use set_world::{StepError, World};
use shared_set::SharedSet;
use std::alloc::AllocError;
use std::sync::Wait;
use std::thread::Threads;

/// Plays parts one after another, and keeps their replies.
pub fn step_parts<D: Disk + Send, G: Gate + Sync, R: Threads + Wait + Sync>(
    rt: &R,
    gate: &G,
    parts: Parts,
    world: World<D>,
    replies: &mut Vec<(u32, Reply)>,
) -> (Mem<()>, World<D>)
    requires start { world.history ≡ [] }
    requires empty { replies.old.items ≡ [] }
    requires few { length (lines_in parts) ≤ MOST_LINES }
    requires fits { AllPass (can_be_run world.sizes.nodes) parts }
    ensures { StepsAll D.state parts world result.1 replies.new.items result.0 }
{
    let mut world = world;
    let mut rest = parts.into_rest();
    while let Some(part) = rest.next() {
        match part {
            Part::Line(line, command) => {
                if let Err(error) = step_line(rt, line, command, &mut world, replies) {
                    return (Err(error), world);
                }
            }
            Part::Par(lists) => match step_block(rt, gate, &lists, world, replies) {
                (Ok(()), back) => world = back,
                (Err(error), back) => return (Err(error), back),
            },
        }
    }
    (Ok(()), world)
}

/// Plays a line, and keeps its reply.
pub fn step_line<D: Disk, R: Threads + Sync>(
    rt: &R,
    line: u32,
    command: Command,
    world: &mut World<D>,
    replies: &mut Vec<(u32, Reply)>,
) -> Mem<()>
    requires few { length world.old.history < MOST_LINES }
    requires fits { is_for world.old.sizes.nodes command ≡ true }
    ensures { Steps D.state (Line line command)
        world.old world.new replies.old.items replies.new.items result }
{
    match world.take(rt, line, command) {
        Ok(reply) => {
            replies.push((line, reply))?;
            Ok(())
        }
        Err(StepError::Memory) => Err(AllocError),
        Err(StepError::HistoryFull) => unreachable!(),
    }
}

/// Plays a block, and keeps its replies in the order of their events. The set is shared only for the block.
pub fn step_block<D: Disk + Send, G: Gate + Sync, R: Threads + Wait + Sync>(
    rt: &R,
    gate: &G,
    lists: &Lists,
    world: World<D>,
    replies: &mut Vec<(u32, Reply)>,
) -> (Mem<()>, World<D>)
    requires few { length world.history + length (lines_of (Par lists.now)) ≤ MOST_LINES }
    requires fits { can_be_run world.sizes.nodes (Par lists.now) ≡ true }
    ensures { Steps D.state (Par lists.now) world result.1 replies.old.items replies.new.items result.0 }
{
    let alloc = *replies.allocator();
    let (set, mut pass) = match SharedSet::new(alloc, world) {
        Ok(shared) => shared,
        Err(world) => return (Err(AllocError), world),
    };
    let told = run_block(rt, alloc, &set, &mut pass, lists.as_slice(), gate);
    let world = set.close(pass);
    match told {
        Ok(told) => {
            if world.is_whole() {
                (keep(told, replies), world)
            } else {
                (Err(AllocError), world)
            }
        }
        Err(StepError::Memory) => (Err(AllocError), world),
        Err(StepError::HistoryFull) => unreachable!(),
    }
}

/// Keeps replies, without their places.
fn keep(told: Vec<(u32, u32, Reply)>, replies: &mut Vec<(u32, Reply)>) -> Mem<()>
    ensures { OnOk result (replies.new.items ≡ replies.old.items ++ unplaced told.items) }
{
    replies.reserve(told.len())?;
    for (_, line, reply) in told {
        replies.push((line, reply))?;
    }
    Ok(())
}
