// A script, played for the trace of its run.
ghost use Rattle.std.specs.Prelude.{◌≡◌, ◌≢◌, ◌≤◌, [], length, Err, IsErrOf, OnOk};
ghost use Rattle.std.specs.List.{AllByRecursion, AllPass};
ghost use Rattle.rs_io.specs.Fault.{HasCause};
ghost use Rattle.fault_script.specs.Script.{lines_in, sizes_of};
ghost use Rattle.fault_script.specs.Lines.{MOST_LINES};
ghost use Rattle.run_checker.specs.Trace.{IsPlain, entry_text, header_text};
ghost use Rattle.set_model.specs.Run.{run};
ghost use Rattle.trace_laws.specs.Said.{AreSaid};
ghost use Rattle.set_program.specs.Headline.{EndsWithTrace, trace_sizes};
ghost use Rattle.set_program.specs.Parts.{can_be_run, DisksGo};
ghost use Rattle.set_program.specs.Plays.{PutsEntries, PutsText, PutsTrace};

use crate::steps::step_parts;
use crate::stop::Stop;
use batch_applier::Gate;
use fault_script::Script;
use rs_disk::Disk;
use rs_io::Sink;
use run_checker::{Sizes, set_entry, set_header};
use set_model::{Event, Reply};
use set_world::World;
use std::alloc::Global;
use std::sync::Wait;
use std::thread::Threads;

/// Plays the parts of a script one after another, and puts the trace of their run.
pub fn play_traced<K: Sink, D: Disk + Send, G: Gate + Sync, R: Threads + Wait + Sync>(
    rt: &R,
    alloc: Global,
    gate: &G,
    script: Script,
    sink: &mut K,
    world: World<D>,
) -> (Result<(), Stop>, World<D>)
    requires start { world.history ≡ [] }
    requires script { world.sizes ≡ sizes_of script }
    requires few { length (lines_in script.parts) ≤ MOST_LINES }
    requires fits { AllPass (can_be_run world.sizes.nodes) script.parts }
    requires said { AreSaid script.nodes (lines_in script.parts) }
    ensures ends { EndsWithTrace script.parts (K.held sink.old) (K.held sink.new) result.0 result.1 }
    ensures sizes { result.1.sizes ≡ world.sizes }
    ensures disks { DisksGo D.state script.parts world.disks result.1 (result.0 ≡ Err Stop.Memory) }
    ensures cause { HasCause (K.faults sink.old) (K.faults sink.new) (IsErrOf result.0 Stop.WriteFault) }
    ensures steady { K.steady sink.old → K.steady sink.new × (result.0 ≢ Err Stop.WriteFault) }
{
    let sizes = (script.nodes, script.voters, script.members);
    let mut replies = Vec::new(alloc);
    match step_parts(rt, gate, script.parts, world, &mut replies) {
        (Ok(()), world) => {
            world.recall_run();
            (put_trace(alloc, sizes, &replies, &world, sink), world)
        }
        (Err(_), world) => (Err(Stop::Memory), world),
    }
}

/// Puts the trace of a set's run, given its replies. Each call of `put` has one text: first the header, and
/// then each event with its reply.
fn put_trace<K: Sink, D: Disk>(
    alloc: Global,
    sizes: Sizes,
    replies: &[(u32, Reply)],
    world: &World<D>,
    sink: &mut K,
) -> Result<(), Stop>
    requires sizes { sizes ≡ trace_sizes world.now.sizes }
    requires told { replies.now ≡ (run world.now.sizes world.now.history).replies }
    ensures puts { PutsTrace (K.held sink.old) (K.held sink.new) world.now result }
    ensures plain { OnOk result (AllByRecursion IsPlain world.now.history) }
    ensures cause { HasCause (K.faults sink.old) (K.faults sink.new) (IsErrOf result Stop.WriteFault) }
    ensures steady { K.steady sink.old → K.steady sink.new × (result ≢ Err Stop.WriteFault) }
{
    let mut text = String::new(alloc);
    put_header(sizes, sink, &mut text)?;
    put_entries(world.history(), replies, sink, &mut text)
}

fn put_header<K: Sink>(sizes: Sizes, sink: &mut K, text: &mut String) -> Result<(), Stop>
    ensures puts { PutsText (K.held sink.old) (K.held sink.new) (header_text sizes) result }
    ensures cause { HasCause (K.faults sink.old) (K.faults sink.new) (IsErrOf result Stop.WriteFault) }
    ensures steady { K.steady sink.old → K.steady sink.new × (result ≢ Err Stop.WriteFault) }
{
    set_header(sizes, text)?;
    sink.put(text.as_bytes())?;
    Ok(())
}

/// Puts events one after another, each with its reply, using the memory of `text` for all of them.
fn put_entries<K: Sink>(
    events: &[Event],
    replies: &[(u32, Reply)],
    sink: &mut K,
    text: &mut String,
) -> Result<(), Stop>
    requires { length events.now ≡ length replies.now }
    ensures puts { PutsEntries (K.held sink.old) (K.held sink.new) events.now replies.now result }
    ensures plain { OnOk result (AllByRecursion IsPlain events.now) }
    ensures cause { HasCause (K.faults sink.old) (K.faults sink.new) (IsErrOf result Stop.WriteFault) }
    ensures steady { K.steady sink.old → K.steady sink.new × (result ≢ Err Stop.WriteFault) }
{
    for (event, told) in events.iter().zip(replies.iter()) {
        put_entry(event, &told.1, sink, text)?;
    }
    Ok(())
}

fn put_entry<K: Sink>(
    event: &Event,
    reply: &Reply,
    sink: &mut K,
    text: &mut String,
) -> Result<(), Stop>
    ensures puts { PutsText (K.held sink.old) (K.held sink.new) (entry_text (event.now, reply.now)) result }
    ensures plain { OnOk result (IsPlain event.now) }
    ensures cause { HasCause (K.faults sink.old) (K.faults sink.new) (IsErrOf result Stop.WriteFault) }
    ensures steady { K.steady sink.old → K.steady sink.new × (result ≢ Err Stop.WriteFault) }
{
    set_entry(event, reply, text)?;
    sink.put(text.as_bytes())?;
    Ok(())
}
