// Asks a node for what a new member begins with.
ghost use Rattle.std.specs.Prelude.{◌≡◌, ◌≢◌, ◌⊎◌, ◌<◌, All, Err, IfErr, IfOk, IsErrOf, List, Some, true};
ghost use Rattle.oplog_entry.specs.Lawful.{IsLawful};
ghost use Rattle.oplog_entry.specs.Step.{id_key};
ghost use Rattle.oplog_entry.specs.declared.entry.Entry.{Entry as AnEntry};
ghost use Rattle.oplog_entry.specs.Visible.{log_up_to};
ghost use Rattle.initial_sync.specs.Pinned.{IsPinned, listed_of};
ghost use Rattle.rs_io.specs.Fault.{HasCause};
ghost use Rattle.set_model.specs.declared.command.Command.TheVariants as commands;
ghost use Rattle.set_model.specs.declared.command.ReadLevel.TheVariants as levels;
ghost use Rattle.set_model.specs.declared.reply.Reply.{Reply as AReply};
ghost use Rattle.set_model.specs.declared.reply.Reply.TheVariants as replies;
ghost use Rattle.set_world.specs.Stepper.{IsDefined};
ghost use Rattle.sync_pin.specs.Asking.{Asks, AsksPoint, HasRoom, HaveLeaders, IsUpIn, Pins, Tells};

use crate::showing::{documents_shown, front, keyed, point_shown};
use crate::stepping::step;
use change_stream::log_shown;
use initial_sync::{Kept1, Pinned};
use oplog_entry::Entry;
use rs_io::Sink;
use rs_optime::OpTime;
use safety_laws::{logs_rise, majority_logs_are_fit, numbers_stay_small, safe};
use set_model::{Command, ReadLevel};
use set_world::Stepper;
use std::alloc::Global;
use std::sync::Wait;
use std::thread::Threads;
use sync_words::{SyncRefusal, SyncStop, put_refusal};

/// A set has at most this many nodes.
const MOST_NODES: u32 = 50;

/// Asks a node for its state, its log and its documents at `majority`. They give what a new member begins
/// with: the node's term, its log up to the lesser of its commit point and what it has applied, and the
/// documents of that. The line of a refusal is put. `size` is how many nodes the set has, and no one else may
/// step it.
///
/// # Errors
/// `Refused` where the set doesn't have the node, or has 50 nodes, the node is down, or nothing that it has
/// applied is committed, whichever comes first; `WriteFault` where the sink failed; `Memory` also where the
/// history is full.
pub fn pin<R: Threads + Wait + Sync, S: Stepper, K: Sink>(
    rt: &R,
    alloc: Global,
    set: &mut S,
    size: u32,
    node: u32,
    sink: &mut K,
) -> Result<Pinned, SyncStop>
    requires alone { S.is_alone ≡ true }
    requires size { size ≡ (S.sizes set.old).nodes }
    ensures pins { Pins (S.sizes set.old) node (S.known set.old) (S.known set.new) (K.held sink.old)
        (K.held sink.new) result }
    ensures pinned { IfOk result (λ pinned. IsPinned pinned) }
    ensures leaders { IfOk result (λ pinned. HaveLeaders (S.sizes set.old) (S.known set.new) pinned) }
    ensures sizes { S.sizes set.new ≡ S.sizes set.old }
    ensures stays { (set.new ≡ set.old) ⊎ S.stays set.old set.new }
    ensures whole { S.is_whole set.old → result ≢ Err SyncStop.Memory → S.is_whole set.new }
    ensures cause { HasCause (K.faults sink.old) (K.faults sink.new) (IsErrOf result SyncStop.WriteFault) }
    ensures steady { K.steady sink.old → K.steady sink.new × (result ≢ Err SyncStop.WriteFault) }
{
    match ask(rt, alloc, set, size, node) {
        Ok(pinned) => Ok(pinned),
        Err(SyncStop::Refused(why)) => {
            put_refusal(why, sink)?;
            Err(SyncStop::Refused(why))
        }
        Err(SyncStop::Memory) => Err(SyncStop::Memory),
        Err(SyncStop::DiskFault) => unreachable!(),
        Err(SyncStop::WriteFault) => unreachable!(),
    }
}

/// Asks a node, if it can be asked.
fn ask<R: Threads + Wait + Sync, S: Stepper>(
    rt: &R,
    alloc: Global,
    set: &mut S,
    size: u32,
    node: u32,
) -> Result<Pinned, SyncStop>
    requires alone { S.is_alone ≡ true }
    requires size { size ≡ (S.sizes set.old).nodes }
    ensures asks { Asks (S.sizes set.old) node (S.known set.old) (S.known set.new) result }
    ensures pinned { IfOk result (λ pinned. IsPinned pinned) }
    ensures leaders { IfOk result (λ pinned. HaveLeaders (S.sizes set.old) (S.known set.new) pinned) }
    ensures sizes { S.sizes set.new ≡ S.sizes set.old }
    ensures stays { (set.new ≡ set.old) ⊎ S.stays set.old set.new }
    ensures whole { S.is_whole set.old → result ≢ Err SyncStop.Memory → S.is_whole set.new }
{
    if node >= size {
        return Err(SyncStop::Refused(SyncRefusal::NoSuchNode));
    }
    if size >= MOST_NODES {
        return Err(SyncStop::Refused(SyncRefusal::NoNumberLeft));
    }
    ask_all(rt, alloc, set, node)
}

/// The three events of a node that is asked.
fn ask_all<R: Threads + Wait + Sync, S: Stepper>(
    rt: &R,
    alloc: Global,
    set: &mut S,
    node: u32,
) -> Result<Pinned, SyncStop>
    requires alone { S.is_alone ≡ true }
    requires room { HasRoom (S.sizes set.old) node }
    ensures asks { Asks (S.sizes set.old) node (S.known set.old) (S.known set.new) result }
    ensures pinned { IfOk result (λ pinned. IsPinned pinned) }
    ensures leaders { IfOk result (λ pinned. HaveLeaders (S.sizes set.old) (S.known set.new) pinned) }
    ensures sizes { S.sizes set.new ≡ S.sizes set.old }
    ensures stays { S.stays set.old set.new }
    ensures whole { S.is_whole set.old → result ≢ Err SyncStop.Memory → S.is_whole set.new }
{
    let (term, at) = ask_point(rt, set, node)?;
    if at == OpTime::ZERO {
        return Err(SyncStop::Refused(SyncRefusal::NothingCommitted));
    }
    let entries = ask_entries(rt, set, node, at)?;
    let documents = ask_documents(rt, alloc, set, node)?;
    numbers_stay_small();
    logs_rise();
    majority_logs_are_fit();
    safe();
    Ok(Pinned {
        term,
        at,
        entries,
        documents,
    })
}

/// The first event: the node's term, and how far its log is committed and applied.
fn ask_point<R: Threads + Wait + Sync, S: Stepper>(
    rt: &R,
    set: &mut S,
    node: u32,
) -> Result<(u64, OpTime), SyncStop>
    requires alone { S.is_alone ≡ true }
    requires node { node < (S.sizes set.old).nodes }
    ensures asks { AsksPoint (S.sizes set.old) node (S.known set.old) (S.known set.new) result }
    ensures up { IfOk result (λ point. IsUpIn (S.sizes set.old) node (S.known set.new)) }
    ensures defined { IfOk result (λ point. IsDefined (S.sizes set.new) (S.known set.new)) }
    ensures sizes { S.sizes set.new ≡ S.sizes set.old }
    ensures stays { S.stays set.old set.new }
    ensures whole { S.is_whole set.old → result ≢ Err SyncStop.Memory → S.is_whole set.new }
{
    let state = step(rt, set, &Command::State { node })?;
    numbers_stay_small();
    match point_shown(&state) {
        Some(point) => Ok(point),
        None => Err(SyncStop::Refused(SyncRefusal::NodeDown)),
    }
}

/// The second event: the node's log, up to an optime.
fn ask_entries<R: Threads + Wait + Sync, S: Stepper>(
    rt: &R,
    set: &mut S,
    node: u32,
    at: OpTime,
) -> Result<Vec<Entry>, SyncStop>
    requires alone { S.is_alone ≡ true }
    requires node { node < (S.sizes set.old).nodes }
    requires up { IsUpIn (S.sizes set.old) node (S.known set.old) }
    ensures ok { IfOk result (λ entries. (log : List AnEntry)
        × Tells (S.sizes set.old) (S.known set.old) (S.known set.new) (commands.Log node)
        (replies.Entries log) × (entries.items ≡ log_up_to at log)) }
    ensures lawful { IfOk result (λ entries. All IsLawful entries.items) }
    ensures up { IfOk result (λ entries. IsUpIn (S.sizes set.old) node (S.known set.new)) }
    ensures err { IfErr result (λ stop. (stop ≡ SyncStop.Memory) × (S.known set.new ≡ S.known set.old)) }
    ensures sizes { S.sizes set.new ≡ S.sizes set.old }
    ensures stays { S.stays set.old set.new }
    ensures whole { S.is_whole set.old → result ≢ Err SyncStop.Memory → S.is_whole set.new }
{
    let told = step(rt, set, &Command::Log { node })?;
    logs_rise();
    let Some(log) = log_shown(told) else {
        unreachable!();
    };
    Ok(front(log, at))
}

/// The third event: the documents that a majority read shows.
fn ask_documents<R: Threads + Wait + Sync, S: Stepper>(
    rt: &R,
    alloc: Global,
    set: &mut S,
    node: u32,
) -> Result<Vec<Kept1>, SyncStop>
    requires alone { S.is_alone ≡ true }
    requires node { node < (S.sizes set.old).nodes }
    requires up { IsUpIn (S.sizes set.old) node (S.known set.old) }
    ensures ok { IfOk result (λ documents. Tells (S.sizes set.old) (S.known set.old) (S.known set.new)
        (commands.Dump node levels.Majority) (replies.Documents (listed_of documents.items))) }
    ensures keys { IfOk result (λ documents. All (λ one. id_key one.doc ≡ Some one.id) documents.items) }
    ensures err { IfErr result (λ stop. (stop ≡ SyncStop.Memory)
        × ((S.known set.new ≡ S.known set.old) ⊎ ((answered : AReply)
        × Tells (S.sizes set.old) (S.known set.old) (S.known set.new)
        (commands.Dump node levels.Majority) answered))) }
    ensures sizes { S.sizes set.new ≡ S.sizes set.old }
    ensures stays { S.stays set.old set.new }
    ensures whole { S.is_whole set.old → result ≢ Err SyncStop.Memory → S.is_whole set.new }
    ensures defined { IfOk result (λ documents. IsDefined (S.sizes set.new) (S.known set.new)) }
{
    let level = ReadLevel::Majority;
    let told = step(rt, set, &Command::Dump { node, level })?;
    majority_logs_are_fit();
    let Some(documents) = documents_shown(told) else {
        unreachable!();
    };
    Ok(keyed(alloc, documents.as_slice())?)
}
