// A script, played for its replies, for what comes after it, for its trace or for its summary.
ghost use Rattle.std.specs.Prelude.{◌≡◌, ◌≢◌, ◌≤◌, ◌*◌, [], All, drop, length, true, Err, IsErrOf};
ghost use Rattle.std.specs.List.{AllPass};
ghost use Rattle.rs_disk.specs.File.{IsEmpty};
ghost use Rattle.rs_io.specs.Fault.{HasCause};
ghost use Rattle.fault_script.specs.Script.{lines_in, sizes_of};
ghost use Rattle.fault_script.specs.Lines.{MOST_LINES};
ghost use Rattle.set_model.specs.Run.{run};
ghost use Rattle.trace_laws.specs.Said.{AreSaid};
ghost use Rattle.transcript.specs.Summaries.{summary_text};
ghost use Rattle.set_program.specs.Headline.{EndsTask, EndsWithSummary, summary_put};
ghost use Rattle.set_program.specs.Left.{IfParts, IfSet};
ghost use Rattle.set_program.specs.Parts.{can_be_run, DisksEnd, DisksGo};
ghost use Rattle.set_program.specs.Plays.{PutsText};
ghost use Rattle.set_program.specs.Syncing.{MadeMember};

use crate::linearly::play_linear;
use crate::outcome::Left;
use crate::play::play;
use crate::steps::step_parts;
use crate::stop::Stop;
use crate::summary::summary;
use crate::synced::play_synced;
use crate::traced::play_traced;
use crate::watched::play_watched;
use batch_applier::Gate;
use fault_script::{Parts, Script};
use rs_disk::Disk;
use rs_io::Sink;
use set_model::Reply;
use set_world::World;
use std::alloc::Global;
use std::sync::Wait;
use std::thread::Threads;
use task_words::Task;
use transcript::{Summary, write_summary};

/// Plays a script as a task asks: it puts each reply, and after them, if asked for, what a new member begins
/// with, what a linear read shows or which changes nodes have; or the trace of the run, or only its summary.
/// An error says why it stopped before the end. The set is left, or, if a new member was made, its events and
/// its disks.
pub fn play_task<K: Sink, D: Disk + Send, G: Gate + Sync, R: Threads + Wait + Sync>(
    rt: &R,
    alloc: Global,
    gate: &G,
    task: Task,
    script: Script,
    sink: &mut K,
    world: World<D>,
) -> (Result<(), Stop>, Left<D>)
    requires start { world.history ≡ [] }
    requires whole { world.whole ≡ true }
    requires script { world.sizes ≡ sizes_of script }
    requires few { length (lines_in script.parts) ≤ MOST_LINES }
    requires fits { AllPass (can_be_run world.sizes.nodes) script.parts }
    requires said { AreSaid script.nodes (lines_in script.parts) }
    requires many { length world.disks ≡ 100 }
    requires spare { All (λ (disk : D). IsEmpty (D.state disk).file)
        (drop (2 * world.sizes.nodes) world.disks) }
    ensures ends { IfSet result.1 (λ set. EndsTask task script.parts (K.held sink.old) (K.held sink.new)
        result.0 set) }
    ensures sizes { IfSet result.1 (λ set. set.sizes ≡ world.sizes) }
    ensures disks { IfSet result.1 (λ set. DisksEnd D.state task script.parts world.disks set
        (result.0 ≡ Err Stop.Memory)) }
    ensures member { IfParts result.1 (λ events disks. MadeMember D.state task script.parts world.sizes
        world.disks (K.held sink.old) (K.held sink.new) result.0 events disks) }
    ensures cause { HasCause (K.faults sink.old) (K.faults sink.new) (IsErrOf result.0 Stop.WriteFault) }
    ensures steady { K.steady sink.old → K.steady sink.new × (result.0 ≢ Err Stop.WriteFault) }
{
    match task {
        Task::Run => {
            let (ended, world) = play(rt, alloc, gate, script.parts, sink, world);
            (ended, Left::World(world))
        }
        Task::Trace => {
            let (ended, world) = play_traced(rt, alloc, gate, script, sink, world);
            (ended, Left::World(world))
        }
        Task::Linear(linear) => {
            let (ended, world) = play_linear(rt, alloc, gate, linear, script, sink, world);
            (ended, Left::World(world))
        }
        Task::Watch(watch) => {
            let (ended, world) = play_watched(rt, alloc, gate, watch, script, sink, world);
            (ended, Left::World(world))
        }
        Task::Sync { node } => play_synced(rt, alloc, gate, node, script, sink, world),
        Task::Chaos { .. } => {
            let (ended, world) = play_told(rt, alloc, gate, script.parts, sink, world);
            (ended, Left::World(world))
        }
    }
}

/// Plays parts one after another, and puts the summary of their run.
fn play_told<K: Sink, D: Disk + Send, G: Gate + Sync, R: Threads + Wait + Sync>(
    rt: &R,
    alloc: Global,
    gate: &G,
    parts: Parts,
    sink: &mut K,
    world: World<D>,
) -> (Result<(), Stop>, World<D>)
    requires start { world.history ≡ [] }
    requires few { length (lines_in parts) ≤ MOST_LINES }
    requires fits { AllPass (can_be_run world.sizes.nodes) parts }
    ensures ends { EndsWithSummary parts (K.held sink.old) (K.held sink.new) result.0 result.1 }
    ensures sizes { result.1.sizes ≡ world.sizes }
    ensures disks { DisksGo D.state parts world.disks result.1 (result.0 ≡ Err Stop.Memory) }
    ensures cause { HasCause (K.faults sink.old) (K.faults sink.new) (IsErrOf result.0 Stop.WriteFault) }
    ensures steady { K.steady sink.old → K.steady sink.new × (result.0 ≢ Err Stop.WriteFault) }
{
    let mut replies = Vec::new(alloc);
    match step_parts(rt, gate, parts, world, &mut replies) {
        (Ok(()), world) => (put_summary(alloc, &replies, &world, sink), world),
        (Err(_), world) => (Err(Stop::Memory), world),
    }
}

/// Puts the summary of a set's run, given its replies.
fn put_summary<K: Sink, D: Disk>(
    alloc: Global,
    replies: &[(u32, Reply)],
    world: &World<D>,
    sink: &mut K,
) -> Result<(), Stop>
    requires few { length replies.now ≤ MOST_LINES }
    requires told { replies.now ≡ (run world.now.sizes world.now.history).replies }
    ensures puts { PutsText (K.held sink.old) (K.held sink.new) (summary_put world.now) result }
    ensures cause { HasCause (K.faults sink.old) (K.faults sink.new) (IsErrOf result Stop.WriteFault) }
    ensures steady { K.steady sink.old → K.steady sink.new × (result ≢ Err Stop.WriteFault) }
{
    let summary = summary(alloc, replies, world)?;
    put_text(alloc, &summary, sink)
}

/// Puts the text of a summary.
fn put_text<K: Sink>(alloc: Global, summary: &Summary, sink: &mut K) -> Result<(), Stop>
    ensures puts { PutsText (K.held sink.old) (K.held sink.new) (summary_text summary.now) result }
    ensures cause { HasCause (K.faults sink.old) (K.faults sink.new) (IsErrOf result Stop.WriteFault) }
    ensures steady { K.steady sink.old → K.steady sink.new × (result ≢ Err Stop.WriteFault) }
{
    let mut text = String::new(alloc);
    write_summary(summary, &mut text)?;
    sink.put(text.as_bytes())?;
    Ok(())
}
