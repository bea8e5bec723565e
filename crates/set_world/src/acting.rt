ghost use Rattle.std.specs.Prelude.{◌≡◌, ◌<◌, ◌^◌, ℕ, [], true, false, length, IfOk, OnErr, None, Some, slice_get};
ghost use Rattle.set_model.specs.Limits.{is_for, is_within};
ghost use Rattle.set_model.specs.Node.{Node as Standing};
ghost use Rattle.set_model.specs.Taking.{CanTake};
ghost use Rattle.set_model.specs.World.{is_delivery, task};
ghost use Rattle.node_state.specs.Bounds.{IsBounded, IsNumbered};
ghost use Rattle.node_core.specs.Acting.{AreSame, DisksLeft};
ghost use Rattle.set_world.specs.Acting.{NodeActed, NodeDisks, MayAct, EachNodeStands, ChangesAt, NodeTook, NodeUnchanged};
ghost use Rattle.set_world.specs.Disks.{AtTouchedNode, DisksTouched};
ghost use Rattle.set_world.specs.World.{Acts, event_of, nodes_in};

use crate::command::delivered;
use crate::pool::Pool;
use bson_doc::Mem;
use node_core::{Done, Node};
use repl_msg::Message;
use rs_disk::Disk;
use set_model::{Command, Refusal, Reply};
use std::alloc::Global;
use std::thread::Threads;

/// Does a command: its node does it, or the receiver takes the message that is delivered. Out of memory
/// leaves that node as it was.
pub(crate) fn act<D: Disk, R: Threads + Sync>(
    nodes: &mut [Node<D>],
    alloc: Global,
    rt: &R,
    pool: &Pool,
    command: &Command,
) -> Mem<Done>
    requires may { MayAct nodes.old pool.now }
    requires command { is_for pool.now.nodes command.now ≡ true }
    ensures ok { IfOk result (λ done.
        Acts (record { nodes = nodes_in nodes.old; messages = pool.now.messages }) command.now
        (nodes_in nodes.new) done) }
    ensures disks { IfOk result (λ done. (line : ℕ) →
        AtTouchedNode (task (record { nodes = nodes_in nodes.old; messages = pool.now.messages }) command.now)
        done.failed nodes.old nodes.new (λ number. ChangesAt number (NodeDisks D.state (DisksTouched
        (record { nodes = nodes_in nodes.old; messages = pool.now.messages })
        (event_of line command.now done))) nodes.old nodes.new)) }
    ensures err { OnErr result (AtTouchedNode
        (task (record { nodes = nodes_in nodes.old; messages = pool.now.messages }) command.now) None
        nodes.old nodes.new
        (λ number. ChangesAt number (NodeUnchanged D.state (DisksLeft command.now)) nodes.old nodes.new)) }
    ensures stand { EachNodeStands D.state nodes.old → EachNodeStands D.state nodes.new }
    ensures len { length nodes.new ≡ length nodes.old }
{
    let next = pool.len() as u64;
    match command.actor() {
        Some(number) => act_on(nodes, number, rt, next, command),
        None => match delivered(pool, command) {
            Some(message) => take_at(nodes, rt, next, message),
            None => Ok(nothing(alloc)),
        },
    }
}

/// A node does a command of its own.
fn act_on<D: Disk, R: Threads + Sync>(
    nodes: &mut [Node<D>],
    number: u32,
    rt: &R,
    next: u64,
    command: &Command,
) -> Mem<Done>
    requires known { number < length nodes.old }
    requires size { length nodes.old < 2 ^ 32 }
    requires bounds { (n : ℕ) (node : Standing) → slice_get (nodes_in nodes.old) n ≡ Some node
        → IsBounded node }
    requires next { IsNumbered next }
    requires here { is_delivery command.now ≡ false }
    requires within { is_within command.now ≡ true }
    ensures ok { IfOk result (λ done.
        ChangesAt number (NodeActed D.state (length nodes.old) next command.now done) nodes.old nodes.new) }
    ensures err { OnErr result
        (ChangesAt number (NodeUnchanged D.state (DisksLeft command.now)) nodes.old nodes.new) }
    ensures len { length nodes.new ≡ length nodes.old }
{
    let size = nodes.len() as u32;
    nodes[number as usize].act(rt, size, next, command)
}

/// A node takes a message.
fn take_at<D: Disk, R: Threads + Sync>(
    nodes: &mut [Node<D>],
    rt: &R,
    next: u64,
    message: &Message,
) -> Mem<Done>
    requires known { message.now.to < length nodes.old }
    requires bounds { (n : ℕ) (node : Standing) → slice_get (nodes_in nodes.old) n ≡ Some node
        → IsBounded node }
    requires next { IsNumbered next }
    requires message { (node : Standing) → slice_get (nodes_in nodes.old) message.now.to ≡ Some node
        → node.up ≡ true → CanTake node message.now }
    ensures ok { IfOk result (λ done.
        ChangesAt message.now.to (NodeTook D.state next message.now done) nodes.old nodes.new) }
    ensures unkept { IfOk result (λ done. done.kept ≡ false) }
    ensures err { OnErr result
        (ChangesAt message.now.to (NodeUnchanged D.state AreSame) nodes.old nodes.new) }
    ensures len { length nodes.new ≡ length nodes.old }
{
    nodes[message.to as usize].take(rt, next, message)
}

/// No such message was sent.
fn nothing(alloc: Global) -> Done
    ensures reply { result.reply ≡ Reply.Refused Refusal.NoSuchMessage }
    ensures sent { result.sent.items ≡ [] }
    ensures failed { result.failed ≡ None }
    ensures kept { result.kept ≡ false }
{
    Done {
        reply: Reply::Refused(Refusal::NoSuchMessage),
        sent: Vec::new(alloc),
        failed: None,
        kept: false,
    }
}
