// The machine of a set that is played, and events that it does again from the beginning.
ghost use Rattle.std.specs.Prelude.{◌≡◌, ◌++◌, [], IfOk, OnOk, map, string_bytes};
ghost use Rattle.checker_machine.specs.Reached.{IsReached};
ghost use Rattle.run_checker.specs.Checking.{set_of};
ghost use Rattle.run_checker.specs.Trace.{entry_text, trace_text};
ghost use Rattle.set_model.specs.Limits.{Fits};
ghost use Rattle.set_model.specs.Run.{AreSizes, run};
ghost use Rattle.set_model.specs.World as worlds;
ghost use Rattle.transcript.specs.Replies.{line_text};
ghost use Rattle.play.specs.Machine.{CanBeDone};

use crate::history::History;
use bson_doc::Mem;
use checker_machine::{Machine, StepError};
use run_checker::{Sizes, set_entry, set_header};
use set_model::{Event, Reply};
use std::alloc::{AllocError, Global};
use transcript::set_reply;

/// A set of these sizes as it begins.
pub(crate) fn begun(alloc: Global, sizes: Sizes) -> Mem<Machine>
    requires { AreSizes (set_of sizes) }
    ensures { IfOk result (λ machine. machine ≡ (run (set_of sizes) []).world) }
{
    let (nodes, voters, members) = sizes;
    Machine::open(alloc, nodes, voters, members)
}

/// Does an event.
fn act(machine: &mut Machine, event: &Event) -> Mem<Reply>
    requires reached { IsReached machine.old }
    requires fits { Fits machine.old event.now }
    ensures reply { IfOk result (λ reply. reply ≡ (worlds.step machine.old event.now).reply) }
    ensures world { OnOk result (machine.new ≡ (worlds.step machine.old event.now).world) }
{
    match machine.step(event) {
        Ok(reply) => Ok(reply),
        Err(StepError::NoFit) => unreachable!(),
        Err(StepError::Memory) => Err(AllocError),
    }
}

/// Does an event, and writes its reply in place of `text`.
pub(crate) fn step(machine: &mut Machine, event: &Event, text: &mut String) -> Mem<()>
    requires reached { IsReached machine.old }
    requires fits { Fits machine.old event.now }
    ensures text { OnOk result (string_bytes text.new
        ≡ line_text (event.now.line, (worlds.step machine.old event.now).reply)) }
    ensures world { OnOk result (machine.new ≡ (worlds.step machine.old event.now).world) }
{
    let reply = act(machine, event)?;
    set_reply(event.line, &reply, text)
}

/// The set as these events leave it.
pub(crate) fn done_again(alloc: Global, sizes: Sizes, history: &History) -> Mem<Machine>
    requires { CanBeDone (set_of sizes) history.now }
    ensures { IfOk result (λ machine. machine ≡ (run (set_of sizes) history.now).world) }
{
    let mut machine = begun(alloc, sizes)?;
    for place in 0..history.len() {
        let _ = act(&mut machine, history.get(place))?;
    }
    Ok(machine)
}

/// Appends the trace of these events, which are done again for it.
pub(crate) fn write_trace(
    alloc: Global,
    sizes: Sizes,
    history: &History,
    out: &mut String,
) -> Mem<()>
    requires { CanBeDone (set_of sizes) history.now }
    ensures { OnOk result (string_bytes out.new ≡ string_bytes out.old
        ++ trace_text sizes history.now (map (λ reply. reply.1) (run (set_of sizes) history.now).replies)) }
{
    let mut machine = begun(alloc, sizes)?;
    let mut text = String::new(alloc);
    set_header(sizes, &mut text)?;
    out.push_str(&text)?;
    for place in 0..history.len() {
        write_entry(&mut machine, history.get(place), &mut text, out)?;
    }
    Ok(())
}

/// Does an event, and appends its entry. Uses the memory of `text`.
fn write_entry(machine: &mut Machine, event: &Event, text: &mut String, out: &mut String) -> Mem<()>
    requires reached { IsReached machine.old }
    requires fits { Fits machine.old event.now }
    ensures text { OnOk result (string_bytes out.new ≡ string_bytes out.old
        ++ entry_text (event.now, (worlds.step machine.old event.now).reply)) }
    ensures world { OnOk result (machine.new ≡ (worlds.step machine.old event.now).world) }
{
    let reply = act(machine, event)?;
    set_entry(event, &reply, text)?;
    out.push_str(text)
}
