ghost use Rattle.std.specs.Prelude.{◌≡◌, ◌≢◌, ◌<◌, true, length, Err, IfOk, IsErrOf, OnErr};
ghost use Rattle.set_model.specs.declared.command.Command.TheVariants.{Read as IsRead};
ghost use Rattle.set_model.specs.declared.command.ReadLevel.TheVariants.{Local as AtLocal};
ghost use Rattle.set_model.specs.Limits.{is_collection, is_for};
ghost use Rattle.set_model.specs.Run.{HISTORY_LIMIT};
ghost use Rattle.set_world.specs.declared.error.StepError.{StepError as AStepError};
ghost use Rattle.set_world.specs.Stepper.{IsDefined};
ghost use Rattle.linear_read.specs.Asking.{BreaksOff, Holds};
ghost use Rattle.linear_read.specs.Going.{Went};
ghost use Rattle.linear_read.specs.Linear.{IsShown};
ghost use Rattle.linear_read.specs.Points.{acknowledges, confirms, in_term, linear};

use crate::LinearAnswer;
use crate::asking::ask;
use crate::shown::{document_shown, note_written, refusal_of, term_shown};
use crate::telling::{flush, tell_others};
use bson_doc::{Mem, Text, Value};
use rs_optime::OpTime;
use safety_laws::primaries_stay;
use set_model::{AckConcern, Command, ReadLevel, Refusal, Target};
use set_world::{StepError, Stepper};
use std::alloc::Global;
use std::sync::Wait;
use std::thread::Threads;

/// The node flushes its log at most this many times before the others are told of the note.
const MOST_FLUSHES: u32 = 200;

/// Reads a document at a primary, and shows every write that a majority had acknowledged before: the node
/// writes a note after the read, and a majority acknowledges the note.
///
/// # Errors
/// Those of a step. The commands before the one that failed were done.
pub fn linear_read<R: Threads + Wait + Sync, S: Stepper>(
    alloc: Global,
    rt: &R,
    set: &mut S,
    node: u32,
    nodes: u32,
    coll: &str,
    id: &Value,
) -> Result<LinearAnswer, StepError>
    requires nodes { nodes ≡ (S.sizes set.old).nodes }
    requires node { node < nodes }
    requires collection { is_collection coll.now ≡ true }
    ensures ok { IfOk result (λ answer. Holds S.is_alone (S.sizes set.old) (S.known set.old)
        (S.known set.new) (S.own set.old) (S.own set.new) (linear node nodes coll.now id.now) answer) }
    ensures shown { IfOk result (λ answer. IsShown (S.sizes set.old) (S.known set.new)
        (length (S.known set.old)) node coll.now id.now answer) }
    ensures err { OnErr result (BreaksOff S.is_alone (S.sizes set.old) (S.known set.old)
        (S.known set.new) (S.own set.old) (S.own set.new) (linear node nodes coll.now id.now)) }
    ensures full { IsErrOf result AStepError.HistoryFull → length (S.known set.new) ≡ HISTORY_LIMIT }
    ensures sizes { S.sizes set.new ≡ S.sizes set.old }
    ensures stays { S.stays set.old set.new }
    ensures whole { S.is_whole set.old → result ≢ Err AStepError.Memory → S.is_whole set.new }
    ensures defined { IsDefined (S.sizes set.new) (S.known set.new) }
{
    primaries_stay();
    ask_points(alloc, rt, set, node, nodes, coll, id)
}

/// The five points. The first is always asked.
fn ask_points<R: Threads + Wait + Sync, S: Stepper>(
    alloc: Global,
    rt: &R,
    set: &mut S,
    node: u32,
    nodes: u32,
    coll: &str,
    id: &Value,
) -> Result<LinearAnswer, StepError>
    requires nodes { nodes ≡ (S.sizes set.old).nodes }
    requires node { node < nodes }
    requires collection { is_collection coll.now ≡ true }
    ensures went { Went S.is_alone S.sizes S.known S.own S.stays S.is_whole set.old set.new
        (linear node nodes coll.now id.now) result }
    ensures stays { S.stays set.old set.new }
    ensures defined { IsDefined (S.sizes set.new) (S.known set.new) }
{
    let term = match term_shown(&ask(rt, set, Command::State { node })?) {
        Ok(term) => term,
        Err(why) => return Ok(LinearAnswer::Refused(why)),
    };
    let read = local_read(alloc, node, coll, id)?;
    read_in_term(rt, set, node, nodes, read, term)
}

/// The command that reads what the node shows itself.
fn local_read(alloc: Global, node: u32, coll: &str, id: &Value) -> Mem<Command>
    ensures { IfOk result (λ command. command ≡ IsRead node AtLocal coll.now id.now) }
{
    Ok(Command::Read {
        node,
        level: ReadLevel::Local,
        collection: Text::from_str(alloc, coll)?,
        id: id.copy()?,
    })
}

/// Reads. The result is the answer if a note after it is confirmed in this term.
fn read_in_term<R: Threads + Wait + Sync, S: Stepper>(
    rt: &R,
    set: &mut S,
    node: u32,
    nodes: u32,
    read: Command,
    term: u64,
) -> Result<LinearAnswer, StepError>
    requires nodes { nodes ≡ (S.sizes set.old).nodes }
    requires node { node < nodes }
    requires read { is_for nodes read ≡ true }
    ensures { Went S.is_alone S.sizes S.known S.own S.stays S.is_whole set.old set.new
        (in_term node nodes read term) result }
{
    let shown = match document_shown(ask(rt, set, read)?) {
        Ok(shown) => shown,
        Err(why) => return Ok(LinearAnswer::Refused(why)),
    };
    let refused = confirm(rt, set, node, nodes, term)?;
    match refused {
        None => Ok(shown),
        Some(why) => Ok(LinearAnswer::Refused(why)),
    }
}

/// Writes a note of this term, which a majority acknowledges; or why not.
fn confirm<R: Threads + Wait + Sync, S: Stepper>(
    rt: &R,
    set: &mut S,
    node: u32,
    nodes: u32,
    term: u64,
) -> Result<Option<Refusal>, StepError>
    requires nodes { nodes ≡ (S.sizes set.old).nodes }
    requires node { node < nodes }
    ensures { Went S.is_alone S.sizes S.known S.own S.stays S.is_whole set.old set.new
        (confirms node nodes term) result }
{
    match note_written(term, &ask(rt, set, Command::Note { node })?) {
        Ok(at) => acknowledge(rt, set, node, nodes, at),
        Err(why) => Ok(Some(why)),
    }
}

/// Makes a note durable, here and at the others, until a majority acknowledges it; or why it doesn't.
fn acknowledge<R: Threads + Wait + Sync, S: Stepper>(
    rt: &R,
    set: &mut S,
    node: u32,
    nodes: u32,
    at: OpTime,
) -> Result<Option<Refusal>, StepError>
    requires nodes { nodes ≡ (S.sizes set.old).nodes }
    requires node { node < nodes }
    ensures { Went S.is_alone S.sizes S.known S.own S.stays S.is_whole set.old set.new
        (acknowledges node nodes at) result }
{
    flush(rt, set, node, MOST_FLUSHES)?;
    tell_others(rt, set, node, nodes, at)?;
    let ack = Command::Ack {
        node,
        target: Target::At(at),
        concern: AckConcern::Majority,
    };
    Ok(refusal_of(&ask(rt, set, ack)?))
}
