// Batches, the journal and checkpoints.
ghost use Rattle.std.specs.Prelude.{◌≡◌, ◌≤◌, ◌<◌, false, IfOk, OnErr};
ghost use Rattle.std.specs.Option.{option_copied};
ghost use Rattle.oplog_entry.specs.Visible.{last_of};
ghost use Rattle.set_model.specs.Disk as disk;
ghost use Rattle.set_model.specs.Roles.{is_primary};
ghost use Rattle.set_model.specs.Stores.{finished, stored};
ghost use Rattle.node_commands.specs.Flushing.{entry_at, entries_at};
ghost use Rattle.node_state.specs.Ready.{IsCheckpoint, IsFlush, IsReadyTurn};
ghost use Rattle.node_state.specs.Turns.{Means, rest_of};
ghost use Rattle.node_state.specs.declared.turn.Continuation.TheVariants as continuations;

use bson_doc::Mem;
use node_data::NodeData;
use node_state::{Continuation, State, Turn, earlier};
use oplog_entry::Entry;
use repl_msg::{EntryList, Record};
use rs_optime::OpTime;
use set_model::{Refusal, Reply, Role, Store};
use std::alloc::Global;
use std::thread::Threads;

/// The most entries in one record.
const RECORD: usize = 2_000;

/// The entry with an optime. A likely place of the log is looked at first.
fn entry_at<'a>(node_data: &'a NodeData, likely: &mut usize, at: OpTime) -> Option<&'a Entry>
    ensures { option_copied result ≡ entry_at node_data.now.node.log at }
{
    node_data.recall_sound();
    node_data.entry_near(likely, at)
}

/// The optime of the last entry, or ZERO where there is none.
fn last_optime(list: &EntryList) -> OpTime
    ensures { result ≡ last_of list.now }
{
    match list.as_slice().last() {
        Some(entry) => entry.optime,
        None => OpTime::ZERO,
    }
}

/// Copies of the entries with these optimes.
fn copies_at(alloc: Global, node_data: &NodeData, optimes: &[OpTime]) -> Mem<EntryList>
    ensures { IfOk result (λ list. list ≡ entries_at node_data.now.node.log optimes.now) }
{
    let mut copies = Vec::with_capacity(alloc, optimes.len())?;
    let mut likely = 0;
    for at in optimes {
        if let Some(entry) = entry_at(node_data, &mut likely, *at) {
            copies.push(entry.copy()?)?;
        }
    }
    node_data.recall_sound();
    Ok(EntryList::new(copies))
}

/// Applies the next batch, by this many workers.
pub(crate) fn apply<R: Threads + Sync>(state: &mut State, rt: &R, workers: u32) -> Mem<Turn>
    requires some { 0 < workers }
    requires most { workers ≤ 16 }
    ensures turn { IfOk result (λ turn. Means turn state.new.node (finished (disk.apply state.old.node))) }
    ensures ready { IfOk result (λ turn. IsReadyTurn turn state.new) }
    ensures err { OnErr result (state.new.node ≡ state.old.node) }
{
    if state.role == Role::Primary {
        return Ok(state.refused(Refusal::NothingToDo));
    }
    apply_batch(state, rt, workers)
}

fn apply_batch<R: Threads + Sync>(state: &mut State, rt: &R, workers: u32) -> Mem<Turn>
    requires role { is_primary state.old.node.role ≡ false }
    requires some { 0 < workers }
    requires most { workers ≤ 16 }
    ensures turn { IfOk result (λ turn. Means turn state.new.node (finished (disk.apply state.old.node))) }
    ensures ready { IfOk result (λ turn. IsReadyTurn turn state.new) }
    ensures err { OnErr result (state.new.node ≡ state.old.node) }
{
    let count = state.node_data.apply(rt, workers)?;
    if count == 0 {
        return Ok(state.refused(Refusal::NothingToDo));
    }
    let to = state.node_data.applied();
    Ok(state.answered(Reply::Applied {
        count: count as u64,
        to,
    }))
}

/// Begins a flush: stores the next entries that aren't in the journal, at most 2,000.
#[tactic(auto, using(crate::proofs::KeepLemmas::flush_ready))]
pub(crate) fn start_flush(state: &mut State) -> Mem<Turn>
    ensures turn { IfOk result (λ turn. Means turn state.new.node (disk.flush state.old.node)) }
    ensures ready { IfOk result (λ turn. IsReadyTurn turn state.new) }
    ensures same { state.new.node ≡ state.old.node }
    ensures err { OnErr result (state.new.node ≡ state.old.node) }
{
    state.recall_sound();
    if is_flushed(state) {
        return Ok(state.refused(Refusal::NothingToDo));
    }
    let list = next_entries(state)?;
    let count = list.as_slice().len() as u64;
    let point = next_durable(state, &list);
    Ok(Turn::Storing {
        item: Store::Record(Record::Entries { list, point }),
        then: Continuation::Flush { count, point },
    })
}

/// Whether all that is visible is durable, and no entry is left for a record.
fn is_flushed(state: &State) -> bool
    ensures { result ≡ disk.is_flushed state.now.node }
{
    state.unjournaled.is_empty() && state.durable == state.node_data.visible()
}

/// Copies of the entries of the next record.
fn next_entries(state: &mut State) -> Mem<EntryList>
    ensures list { IfOk result (λ list. list ≡ disk.next_entries state.old.node) }
    ensures same { state.new ≡ state.old }
{
    state.node_data.recall_sound();
    let optimes = state.unjournaled.first(RECORD)?;
    copies_at(state.alloc, &state.node_data, &optimes)
}

/// How far the log is durable once these next entries are in the records.
fn next_durable(state: &State, list: &EntryList) -> OpTime
    requires { list.now ≡ disk.next_entries state.now.node }
    ensures { result ≡ disk.next_durable state.now.node }
{
    let visible = state.node_data.visible();
    if state.unjournaled.len() <= RECORD {
        return visible;
    }
    earlier(visible, last_optime(list))
}

/// Continues once the entries are in the journal: the log is durable up to the point.
pub fn go_on_flush(state: &mut State, item: &Store, count: u64, point: OpTime) -> Turn
    requires ready { IsFlush item.now count point state.old.node }
    ensures turn { Means result state.new.node
        (rest_of (continuations.Flush count point) (stored state.old.node item.now)) }
    ensures ready { IsReadyTurn result state.new }
{
    flush(state, item, count as usize, point);
    state.evaluate();
    state.answered(Reply::Flushed { count, to: point })
}

/// The first `count` entries that weren't in the journal are there now: the log is durable up to `point`.
fn flush(state: &mut State, item: &Store, count: usize, point: OpTime)
    requires ready { IsFlush item.now count point state.old.node }
    ensures { state.new.node ≡ record (stored state.old.node item.now) { durable = point } }
{
    state.node_data.recall_sound();
    state.unjournaled.drop_first(count);
    state.records = state.records.with(item);
    state.durable = point;
}

pub(crate) fn start_checkpoint(state: &mut State) -> Turn
    ensures turn { Means result state.new.node (disk.checkpoint state.old.node) }
    ensures ready { IsReadyTurn result state.new }
    ensures same { state.new.node ≡ state.old.node }
{
    let at = next_stable(state);
    if at == state.node_data.stable() {
        return state.refused(Refusal::NothingToDo);
    }
    Turn::Storing {
        item: Store::Checkpoint(at),
        then: Continuation::Checkpoint { at },
    }
}

/// The optime of the next checkpoint: the earlier of the commit point and what is applied.
fn next_stable(state: &State) -> OpTime
    ensures { result ≡ disk.next_stable state.now.node }
{
    earlier(state.commit, state.applied_point())
}

/// Continues once the checkpoint has the documents as of this optime.
pub fn go_on_checkpoint(state: &mut State, item: &Store, at: OpTime) -> Turn
    requires ready { IsCheckpoint item.now at state.old.node }
    ensures turn { Means result state.new.node
        (rest_of (continuations.Checkpoint at) (stored state.old.node item.now)) }
    ensures ready { IsReadyTurn result state.new }
{
    keep_documents(state, item, at);
    state.answered(Reply::Checkpoint(at))
}

/// The checkpoint has the documents as of this optime.
fn keep_documents(state: &mut State, item: &Store, at: OpTime)
    requires ready { IsCheckpoint item.now at state.old.node }
    ensures { state.new.node ≡ stored state.old.node item.now }
{
    state.node_data.recall_sound();
    state.node_data.prune(at);
    state.records = state.records.with(item);
}
