// Carries out a turn: puts what it stores on the disks, one after another, and goes on.
ghost use Rattle.std.specs.Prelude.{◌≡◌, ◌+◌, ◌≤◌, ℕ, true, false, IfOk, OnErr};
ghost use Rattle.record_file.specs.Files.{spare};
ghost use Rattle.set_model.specs.Deliver.{deliver};
ghost use Rattle.set_model.specs.Limits.{is_within};
ghost use Rattle.set_model.specs.Node.{Node};
ghost use Rattle.set_model.specs.Rows.{row};
ghost use Rattle.node_state.specs.Bounds.{IsBounded, IsNumbered, is_own, is_plain};
ghost use Rattle.node_core.specs.Acting.{AreSame, IsFinished, RunsWithoutOrders};
ghost use Rattle.node_core.specs.Putting.{CanBePut, EndsFrom, StoresFewShort, IsStoreFailed, IsEnd, IsFault, BeginsUnreserved, LeavesOnDisks, NeedsRoom, SHORT, plan_of};
ghost use Rattle.node_state.specs.Ready.{CanBeStored, IsReady, IsReadyTurn};
ghost use Rattle.node_state.specs.WellKept.{IsWellKept};
ghost use Rattle.node_core.specs.OnDisks.{IsWellKeptWith, UpOnDisks};
ghost use Rattle.set_model.specs.Taking.{CanTake};

use crate::disks::Disks;
use crate::going_on::go_on;
use bson_doc::Mem;
use node_commands::start;
use node_messages::take;
use node_state::{Continuation, State, Turn};
use record_file::FileError;
use repl_msg::Message;
use rs_disk::Disk;
use set_model::{Command, Reply, Store};
use std::alloc::AllocError;
use std::thread::Threads;

/// How a turn ended: it has its reply, or this store failed.
#[derive(Drop)]
pub(crate) enum Ended {
    WithReply { reply: Reply, sent: Vec<Message> },
    StoreFailed { item: Store, number: u32 },
}

/// Carries out a turn. It can run out of memory only where it stores one large record or checkpoint, and then
/// nothing has changed.
pub(crate) fn carry_out<D: Disk>(state: &mut State, disks: &mut Disks<D>, turn: Turn) -> Mem<Ended>
    requires rests { UpOnDisks state.old.node disks.old.count (D.state disks.old.journal.0)
        (D.state disks.old.checkpoints) }
    requires ready { IsReadyTurn turn state.old }
    requires room { SHORT + SHORT ≤ spare (D.state disks.old.journal.0) disks.old.journal.1 }
    ensures ends { IfOk result (λ ended. EndsFrom 0 (plan_of turn state.old.node) state.new.node ended) }
    ensures leaves { IfOk result (λ ended. LeavesOnDisks ended state.new.node disks.new.count
        (D.state disks.new.journal.0) (D.state disks.new.checkpoints)) }
    ensures runs { RunsWithoutOrders (IsFault result) (D.state disks.old.journal.0)
        (D.state disks.new.journal.0) (D.state disks.old.checkpoints) (D.state disks.new.checkpoints) }
    ensures unstored { IfOk result (λ _. IsEnd turn → AreSame (D.state disks.old.journal.0)
        (D.state disks.new.journal.0) (D.state disks.old.checkpoints) (D.state disks.new.checkpoints)) }
    ensures long { OnErr result (BeginsUnreserved turn) }
    ensures same { OnErr result (state.new.node ≡ state.old.node) }
    ensures left { OnErr result (UpOnDisks state.old.node disks.new.count (D.state disks.new.journal.0)
        (D.state disks.new.checkpoints)) }
    ensures unused { OnErr result (AreSame (D.state disks.old.journal.0) (D.state disks.new.journal.0)
        (D.state disks.old.checkpoints) (D.state disks.new.checkpoints)) }
{
    match turn {
        Turn::Finished { reply, sent } => Ok(Ended::WithReply { reply, sent }),
        Turn::Storing { item, then } => {
            recall_can_store(state, &item, &then);
            match disks.put(&item, state) {
                Ok(()) => {
                    let next = go_on(state, &item, then);
                    Ok(carry_on(state, disks, next))
                }
                Err(FileError::Memory) => Err(AllocError),
                Err(FileError::Disk) => Ok(Ended::StoreFailed { item, number: 0 }),
            }
        }
    }
}

// What is left of a turn after its first store: at most one short record.
fn carry_on<D: Disk>(state: &mut State, disks: &mut Disks<D>, turn: Turn) -> Ended
    requires rests { UpOnDisks state.old.node disks.old.count (D.state disks.old.journal.0)
        (D.state disks.old.checkpoints) }
    requires ready { IsReadyTurn turn state.old }
    requires brief { StoresFewShort 1 (plan_of turn state.old.node) }
    requires room { NeedsRoom turn (spare (D.state disks.old.journal.0) disks.old.journal.1) }
    ensures ends { EndsFrom 1 (plan_of turn state.old.node) state.new.node result }
    ensures leaves { LeavesOnDisks result state.new.node disks.new.count (D.state disks.new.journal.0)
        (D.state disks.new.checkpoints) }
    ensures runs { RunsWithoutOrders (IsStoreFailed result) (D.state disks.old.journal.0)
        (D.state disks.new.journal.0) (D.state disks.old.checkpoints) (D.state disks.new.checkpoints) }
{
    match turn {
        Turn::Finished { reply, sent } => Ended::WithReply { reply, sent },
        Turn::Storing { item, then } => {
            recall_can_store(state, &item, &then);
            match disks.put(&item, state) {
                Ok(()) => {
                    let last = go_on(state, &item, then);
                    said(last)
                }
                Err(FileError::Memory) => unreachable!(),
                Err(FileError::Disk) => Ended::StoreFailed { item, number: 1 },
            }
        }
    }
}

// What a turn stores can be put on the disks, and the node can come back whether it is there or not.
// This only reads.
fn recall_can_store(state: &State, item: &Store, then: &Continuation)
    requires ready { IsReady item.now then.now state.now }
    requires stored { CanBeStored item.now }
    ensures can { CanBePut state.now.node item.now }
    ensures well { IsWellKept state.now.node.records state.now.node.stable }
    ensures doubtful { IsWellKeptWith state.now.node item.now }
{
    state.recall_sound();
    state.recall_well_kept();
    state.recall_stores_well(item, then);
}

fn said(turn: Turn) -> Ended
    requires { IsEnd turn }
    ensures ends { (first : ℕ) (node : Node) → EndsFrom first (plan_of turn node) node result }
    ensures whole { ¬ IsStoreFailed result }
{
    match turn {
        Turn::Finished { reply, sent } => Ended::WithReply { reply, sent },
        Turn::Storing { .. } => unreachable!(),
    }
}

/// Does what a command asks, in memory and on the disks. The only error is out of memory, and then all is
/// as it was.
pub(crate) fn act_own<D: Disk, R: Threads + Sync>(
    state: &mut State,
    disks: &mut Disks<D>,
    rt: &R,
    nodes: u32,
    next: u64,
    command: &Command,
) -> Mem<Ended>
    requires rests { UpOnDisks state.old.node disks.old.count (D.state disks.old.journal.0)
        (D.state disks.old.checkpoints) }
    requires bounds { IsBounded state.old.node }
    requires next { IsNumbered next }
    requires own { is_own command.now ≡ true }
    requires turn { is_plain command.now ≡ false }
    requires within { is_within command.now ≡ true }
    ensures ends { IfOk result (λ ended.
        EndsFrom 0 (row nodes next false state.old.node command.now) state.new.node ended) }
    ensures leaves { IfOk result (λ ended. LeavesOnDisks ended state.new.node disks.new.count
        (D.state disks.new.journal.0) (D.state disks.new.checkpoints)) }
    ensures runs { RunsWithoutOrders (IsFault result) (D.state disks.old.journal.0)
        (D.state disks.new.journal.0) (D.state disks.old.checkpoints) (D.state disks.new.checkpoints) }
    ensures unstored { IfOk result (λ _. IsFinished (row nodes next false state.old.node command.now)
        → AreSame (D.state disks.old.journal.0) (D.state disks.new.journal.0)
        (D.state disks.old.checkpoints) (D.state disks.new.checkpoints)) }
    ensures same { OnErr result (state.new.node ≡ state.old.node) }
    ensures left { OnErr result (UpOnDisks state.old.node disks.new.count (D.state disks.new.journal.0)
        (D.state disks.new.checkpoints)) }
    ensures unused { OnErr result (AreSame (D.state disks.old.journal.0) (D.state disks.new.journal.0)
        (D.state disks.old.checkpoints) (D.state disks.new.checkpoints)) }
{
    disks.reserve()?;
    let turn = start(state, rt, nodes, next, command)?;
    carry_out(state, disks, turn)
}

/// Takes a message, in memory and on the disks. The only error is out of memory, and then all is as it was.
pub(crate) fn take_in<D: Disk, R: Threads + Sync>(
    state: &mut State,
    disks: &mut Disks<D>,
    rt: &R,
    next: u64,
    message: &Message,
) -> Mem<Ended>
    requires rests { UpOnDisks state.old.node disks.old.count (D.state disks.old.journal.0)
        (D.state disks.old.checkpoints) }
    requires bounds { IsBounded state.old.node }
    requires next { IsNumbered next }
    requires message { CanTake state.old.node message.now }
    ensures ends { IfOk result (λ ended.
        EndsFrom 0 (deliver next state.old.node message.now) state.new.node ended) }
    ensures leaves { IfOk result (λ ended. LeavesOnDisks ended state.new.node disks.new.count
        (D.state disks.new.journal.0) (D.state disks.new.checkpoints)) }
    ensures runs { RunsWithoutOrders (IsFault result) (D.state disks.old.journal.0)
        (D.state disks.new.journal.0) (D.state disks.old.checkpoints) (D.state disks.new.checkpoints) }
    ensures unstored { IfOk result (λ _. IsFinished (deliver next state.old.node message.now)
        → AreSame (D.state disks.old.journal.0) (D.state disks.new.journal.0)
        (D.state disks.old.checkpoints) (D.state disks.new.checkpoints)) }
    ensures same { OnErr result (state.new.node ≡ state.old.node) }
    ensures left { OnErr result (UpOnDisks state.old.node disks.new.count (D.state disks.new.journal.0)
        (D.state disks.new.checkpoints)) }
    ensures unused { OnErr result (AreSame (D.state disks.old.journal.0) (D.state disks.new.journal.0)
        (D.state disks.old.checkpoints) (D.state disks.new.checkpoints)) }
{
    disks.reserve()?;
    let turn = take(state, rt, next, message)?;
    carry_out(state, disks, turn)
}
