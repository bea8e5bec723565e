// A script, played part after part.
ghost use Rattle.std.specs.Prelude.{◌≡◌, ◌≢◌, ◌+◌, ◌≤◌, ◌<◌, true, [], length, Err, IsErrOf, OnOk};
ghost use Rattle.std.specs.List.{AllPass};
ghost use Rattle.rs_io.specs.Fault.{HasCause};
ghost use Rattle.fault_script.specs.Script.{lines_of, lines_in};
ghost use Rattle.fault_script.specs.declared.script.Part.TheVariants.{Line, Par};
ghost use Rattle.fault_script.specs.Lines.{MOST_LINES};
ghost use Rattle.set_model.specs.Limits.{is_for};
ghost use Rattle.set_program.specs.Headline.{EndsRun};
ghost use Rattle.set_program.specs.Parts.{can_be_run, DisksGo};
ghost use Rattle.set_program.specs.Plays.{DisksGoBy, PlaysPart};

use crate::replies::put_replies;
use crate::steps::{step_block, step_line};
use crate::stop::Stop;
use batch_applier::Gate;
use fault_script::{Part, Parts, Threads as Lists};
use rs_disk::Disk;
use rs_io::Sink;
use set_model::{Command, Reply};
use set_world::World;
use std::alloc::Global;
use std::sync::Wait;
use std::thread::Threads;

/// Plays parts one after another, and puts the replies of each before the next one.
pub fn play<K: Sink, D: Disk + Send, G: Gate + Sync, R: Threads + Wait + Sync>(
    rt: &R,
    alloc: Global,
    gate: &G,
    parts: Parts,
    sink: &mut K,
    world: World<D>,
) -> (Result<(), Stop>, World<D>)
    requires start { world.history ≡ [] }
    requires few { length (lines_in parts) ≤ MOST_LINES }
    requires fits { AllPass (can_be_run world.sizes.nodes) parts }
    ensures ends { EndsRun parts (K.held sink.old) (K.held sink.new) result.0 result.1 }
    ensures sizes { result.1.sizes ≡ world.sizes }
    ensures disks { DisksGo D.state parts world.disks result.1 (result.0 ≡ Err Stop.Memory) }
    ensures whole { OnOk result.0 (world.whole ≡ true → result.1.whole ≡ true) }
    ensures cause { HasCause (K.faults sink.old) (K.faults sink.new) (IsErrOf result.0 Stop.WriteFault) }
    ensures steady { K.steady sink.old → K.steady sink.new × (result.0 ≢ Err Stop.WriteFault) }
{
    let mut replies = Vec::new(alloc);
    let mut text = String::new(alloc);
    let mut world = world;
    let mut rest = parts.into_rest();
    while let Some(part) = rest.next() {
        match part {
            Part::Line(line, command) => {
                let ended = play_line(rt, line, command, sink, &mut world, &mut replies, &mut text);
                if let Err(stop) = ended {
                    return (Err(stop), world);
                }
            }
            Part::Par(lists) => {
                match play_block(rt, gate, &lists, sink, world, &mut replies, &mut text) {
                    (Ok(()), back) => world = back,
                    (Err(stop), back) => return (Err(stop), back),
                }
            }
        }
    }
    (Ok(()), world)
}

/// Plays a line on the set in place, and puts its reply. All parts use the memory of `replies` and `text`.
fn play_line<K: Sink, D: Disk, R: Threads + Sync>(
    rt: &R,
    line: u32,
    command: Command,
    sink: &mut K,
    world: &mut World<D>,
    replies: &mut Vec<(u32, Reply)>,
    text: &mut String,
) -> Result<(), Stop>
    requires few { length world.old.history < MOST_LINES }
    requires fits { is_for world.old.sizes.nodes command ≡ true }
    ensures plays { PlaysPart (Line line command) (K.held sink.old) (K.held sink.new)
        world.old world.new result }
    ensures sizes { world.new.sizes ≡ world.old.sizes }
    ensures disks { DisksGoBy D.state (Line line command) world.old world.new (result ≡ Err Stop.Memory) }
    ensures cause { HasCause (K.faults sink.old) (K.faults sink.new) (IsErrOf result Stop.WriteFault) }
    ensures steady { K.steady sink.old → K.steady sink.new × (result ≢ Err Stop.WriteFault) }
{
    replies.clear();
    match step_line(rt, line, command, world, replies) {
        Ok(()) => put_replies(replies, sink, text),
        Err(_) => Err(Stop::Memory),
    }
}

/// The replies of a block are put after all its lines are played.
fn play_block<K: Sink, D: Disk + Send, G: Gate + Sync, R: Threads + Wait + Sync>(
    rt: &R,
    gate: &G,
    lists: &Lists,
    sink: &mut K,
    world: World<D>,
    replies: &mut Vec<(u32, Reply)>,
    text: &mut String,
) -> (Result<(), Stop>, World<D>)
    requires few { length world.history + length (lines_of (Par lists.now)) ≤ MOST_LINES }
    requires fits { can_be_run world.sizes.nodes (Par lists.now) ≡ true }
    ensures plays { PlaysPart (Par lists.now) (K.held sink.old) (K.held sink.new) world result.1 result.0 }
    ensures sizes { result.1.sizes ≡ world.sizes }
    ensures disks { DisksGoBy D.state (Par lists.now) world result.1 (result.0 ≡ Err Stop.Memory) }
    ensures cause { HasCause (K.faults sink.old) (K.faults sink.new) (IsErrOf result.0 Stop.WriteFault) }
    ensures steady { K.steady sink.old → K.steady sink.new × (result.0 ≢ Err Stop.WriteFault) }
{
    replies.clear();
    match step_block(rt, gate, lists, world, replies) {
        (Ok(()), world) => (put_replies(replies, sink, text), world),
        (Err(_), world) => (Err(Stop::Memory), world),
    }
}
