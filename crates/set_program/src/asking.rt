// The script that the words ask for.
ghost use Rattle.std.specs.Prelude.{◌≡◌, ◌≢◌, ◌≤◌, ◌*◌, length, true, IfOk, IsErrOf, OnOk, Err, Ok};
ghost use Rattle.std.specs.List.{list_all};
ghost use Rattle.rs_io.specs.Fault.{HasCause, CountRose};
ghost use Rattle.set_model.specs.Run.{AreSizes};
ghost use Rattle.fault_script.specs.Script.{lines_in, script, sizes_of};
ghost use Rattle.fault_script.specs.Lines.{MOST_LINES};
ghost use Rattle.transcript.specs.Faults.{fault_text};
ghost use Rattle.chance_script.specs.Generated.{generated};
ghost use Rattle.set_program.specs.Asking.{Reads, ReadsSource};
ghost use Rattle.set_program.specs.Calls.{AsksSource};
ghost use Rattle.set_program.specs.Headline.{status_of};
ghost use Rattle.set_program.specs.Parts.{can_be_run};
ghost use Rattle.set_program.specs.Plays.{PutsText};
ghost use Rattle.trace_laws.specs.Said.{AreSaid};

use crate::stop::Stop;
use bson_doc::Mem;
use fault_script::{Script, ScriptError, ScriptFault, generate, parse};
use rs_io::{Sink, Source, read_all};
use script_laws::generated_is_script;
use std::alloc::{AllocError, Global};
use task_words::{Task, read_task};
use transcript::write_fault;

/// The most bytes that a script may have.
const MAX_SCRIPT: usize = 8_388_608;

const USAGE: &str = "usage: replset run | replset chaos SEED EVENTS NODES | replset sync NODE \
    | replset linear NODE COLL ID | replset watch COLL TOKEN NODE... | replset trace | replset check\n";

/// The task that the words ask for, and the script to run; or why there is none.
pub fn read_script<S: Source, K: Sink>(
    alloc: Global,
    words: &[String],
    source: &mut S,
    sink: &mut K,
) -> Result<(Task, Script), Stop>
    ensures reads { Reads words.now (S.left source.old) (S.left source.new) (K.held sink.old)
        (K.held sink.new) result }
    ensures sizes { IfOk result (λ asked. AreSizes (sizes_of asked.1)) }
    ensures fits { IfOk result (λ asked. list_all (can_be_run asked.1.nodes) asked.1.parts ≡ true) }
    ensures said { IfOk result (λ asked. AreSaid asked.1.nodes (lines_in asked.1.parts)) }
    ensures few { IfOk result (λ asked. length (lines_in asked.1.parts) ≤ MOST_LINES) }
    ensures unread { ¬ AsksSource words.now → source.new ≡ source.old }
    ensures unput { OnOk result (sink.new ≡ sink.old) }
    ensures read_fault { status_of result ≡ 4 → CountRose (S.faults source.old) (S.faults source.new) }
    ensures write_fault { status_of result ≡ 5 → CountRose (K.faults sink.old) (K.faults sink.new) }
    ensures steady_source { S.steady source.old → status_of result ≢ 4 }
    ensures steady_sink { K.steady sink.old → status_of result ≢ 5 }
    ensures no_disk { status_of result ≢ 7 }
{
    let asked = read_task(alloc, words)?;
    match asked {
        Some(Task::Run) => Ok((Task::Run, source_script(alloc, source, sink)?)),
        Some(Task::Trace) => Ok((Task::Trace, source_script(alloc, source, sink)?)),
        Some(Task::Linear(linear)) => {
            Ok((Task::Linear(linear), source_script(alloc, source, sink)?))
        }
        Some(Task::Watch(watch)) => Ok((Task::Watch(watch), source_script(alloc, source, sink)?)),
        Some(Task::Sync { node }) => Ok((Task::Sync { node }, source_script(alloc, source, sink)?)),
        Some(
            Task::Chaos {
                seed,
                events,
                nodes,
            },
        ) => {
            let script = generated_script(alloc, seed, events, nodes)?;
            Ok((
                Task::Chaos {
                    seed,
                    events,
                    nodes,
                },
                script,
            ))
        }
        None => {
            sink.put(USAGE.as_bytes())?;
            Err(Stop::Usage)
        }
    }
}

/// The script of the source. Its bytes are freed before it is run.
fn source_script<S: Source, K: Sink>(
    alloc: Global,
    source: &mut S,
    sink: &mut K,
) -> Result<Script, Stop>
    ensures reads { ReadsSource (S.left source.old) (S.left source.new) (K.held sink.old)
        (K.held sink.new) result }
    ensures sizes { IfOk result (λ read. AreSizes (sizes_of read)) }
    ensures fits { IfOk result (λ read. list_all (can_be_run read.nodes) read.parts ≡ true) }
    ensures said { IfOk result (λ read. AreSaid read.nodes (lines_in read.parts)) }
    ensures few { IfOk result (λ read. length (lines_in read.parts) ≤ MOST_LINES) }
    ensures unput { OnOk result (sink.new ≡ sink.old) }
    ensures read_fault { status_of result ≡ 4 → CountRose (S.faults source.old) (S.faults source.new) }
    ensures write_fault { status_of result ≡ 5 → CountRose (K.faults sink.old) (K.faults sink.new) }
    ensures steady_source { S.steady source.old → status_of result ≢ 4 }
    ensures steady_sink { K.steady sink.old → status_of result ≢ 5 }
    ensures no_disk { status_of result ≢ 7 }
{
    let bytes = read_all(alloc, source, MAX_SCRIPT)?;
    let read = parse(alloc, &bytes);
    drop(bytes);
    match read {
        Ok(script) => Ok(script),
        Err(ScriptError::Fault(fault)) => {
            put_fault(alloc, &fault, sink)?;
            Err(Stop::Script)
        }
        Err(ScriptError::Memory) => Err(Stop::Memory),
    }
}

/// The script of a seed.
fn generated_script(alloc: Global, seed: u64, events: u32, nodes: u32) -> Mem<Script>
    requires few { events ≤ 5000 }
    requires sizes { 1 ≤ nodes × nodes ≤ 50 }
    requires product { events * nodes ≤ 50000 }
    ensures reads { IfOk result (λ read. script (generated seed events nodes) ≡ Ok read) }
    ensures sizes { IfOk result (λ read. AreSizes (sizes_of read)) }
    ensures fits { IfOk result (λ read. list_all (can_be_run read.nodes) read.parts ≡ true) }
    ensures said { IfOk result (λ read. AreSaid read.nodes (lines_in read.parts)) }
    ensures few { IfOk result (λ read. length (lines_in read.parts) ≤ MOST_LINES) }
{
    let bytes = generate(alloc, seed, events, nodes)?;
    generated_is_script(seed, events, nodes);
    match parse(alloc, &bytes) {
        Ok(script) => Ok(script),
        Err(ScriptError::Memory) => Err(AllocError),
        Err(ScriptError::Fault(_)) => unreachable!(),
    }
}

/// Puts the line of a script's fault.
fn put_fault<K: Sink>(alloc: Global, fault: &ScriptFault, sink: &mut K) -> Result<(), Stop>
    ensures puts { PutsText (K.held sink.old) (K.held sink.new) (fault_text fault.now) result }
    ensures cause { HasCause (K.faults sink.old) (K.faults sink.new) (IsErrOf result Stop.WriteFault) }
    ensures steady { K.steady sink.old → K.steady sink.new × (result ≢ Err Stop.WriteFault) }
{
    let mut out = String::new(alloc);
    write_fault(fault, &mut out)?;
    sink.put(out.as_bytes())?;
    Ok(())
}
