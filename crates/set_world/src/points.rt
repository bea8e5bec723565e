// How many entries each node has had committed.
ghost use Rattle.std.specs.Prelude.{◌≡◌, ◌≢◌, ◌<◌, ℕ, length, max, All, Contains, IfOk, OnErr, OnOk, None, slice_index, true};
ghost use Rattle.repl_msg.specs.declared.message.Message.{Message};
ghost use Rattle.set_model.specs.Limits.{is_for};
ghost use Rattle.set_model.specs.World.{World, task, touched_node};
ghost use Rattle.node_core.specs.Acting.{DisksLeft};
ghost use Rattle.set_world.specs.Acting.{NodeDisks, MayAct, EachNodeStands, ChangesAt, NodeUnchanged};
ghost use Rattle.set_world.specs.Disks.{AtTouchedNode, DisksTouched};
ghost use Rattle.set_world.specs.Points.{IsRaised};
ghost use Rattle.set_world.specs.World.{Acts, event_of, nodes_in};

use crate::acting;
use crate::command::delivered;
use crate::pool::Pool;
use bson_doc::Mem;
use node_core::{Done, Node};
use rs_disk::Disk;
use set_model::Command;
use std::alloc::Global;
use std::marker::Model;
use std::thread::Threads;

/// A count for each node: the most entries that it has had committed in any world so far.
#[derive(Drop)]
pub(crate) struct Points {
    numbers: Vec<u64>,
}

impl Model for Points {
    ghost use Rattle.std.specs.Prelude.{List, ℕ};

    ghost Value = { List ℕ };

    ghost view = { λ p. p.numbers.items };
}

impl Points {
    /// 0 for each node.
    pub(crate) fn new(alloc: Global, nodes: u32) -> Mem<Self>
        ensures size { IfOk result (λ points. length points ≡ nodes) }
        ensures zeros { IfOk result (λ points. All (λ number. number ≡ 0) points) }
    {
        let mut numbers = Vec::new(alloc);
        numbers.resize(nodes as usize, 0)?;
        Ok(Points { numbers })
    }

    /// The number of a node; 0 if there is no such node.
    pub(crate) fn of(&self, node: u32) -> u64
        ensures { result ≡ slice_index self.now node }
    {
        match self.numbers.get(node as usize) {
            Some(number) => *number,
            None => 0,
        }
    }

    /// Raises the count of a node to what it has committed.
    fn raise<D: Disk>(&mut self, nodes: &mut [Node<D>], node: u32)
        requires size { length self.old ≡ length nodes.old }
        requires known { node < length nodes.old }
        ensures raised { IsRaised node (nodes_in nodes.old) self.old self.new }
        ensures same { nodes.new ≡ nodes.old }
    {
        let place = node as usize;
        let count = nodes[place].committed();
        lift(&mut self.numbers, place, count);
    }
}

/// Raises the count at a place to another one, if that is greater.
fn lift(numbers: &mut Vec<u64>, place: usize, count: u64)
    requires { place < length numbers.old.items }
    ensures size { length numbers.new.items ≡ length numbers.old.items }
    ensures here { slice_index numbers.new.items place ≡ max (slice_index numbers.old.items place) count }
    ensures others { (other : ℕ) → other ≢ place
        → slice_index numbers.new.items other ≡ slice_index numbers.old.items other }
{
    if numbers[place] < count {
        numbers[place] = count;
    }
}

/// The node that a command touches: its own, or the receiver of the message that it delivers. It is node 0
/// where no such message was sent.
#[tactic(auto, using(crate::proofs::PointedLemmas::own_touched, crate::proofs::PointedLemmas::taker_touched, crate::proofs::PointedLemmas::none_touched))]
pub(crate) fn touched(pool: &Pool, command: &Command) -> u32
    requires command { is_for pool.now.nodes command.now ≡ true }
    ensures touched { (world : World) → world.messages ≡ pool.now.messages
        → result ≡ touched_node world command.now }
    ensures known { 0 < pool.now.nodes → ((message : Message) → Contains pool.now.messages message
        → message.to < pool.now.nodes) → result < pool.now.nodes }
{
    match command.actor() {
        Some(number) => number,
        None => match delivered(pool, command) {
            Some(message) => message.to,
            None => 0,
        },
    }
}

/// Does a command, as `acting::act` does. The number of the node that it touches is raised.
pub(crate) fn act<D: Disk, R: Threads + Sync>(
    nodes: &mut [Node<D>],
    points: &mut Points,
    alloc: Global,
    rt: &R,
    pool: &Pool,
    command: &Command,
) -> Mem<Done>
    requires may { MayAct nodes.old pool.now }
    requires command { is_for pool.now.nodes command.now ≡ true }
    requires points { length points.old ≡ length nodes.old }
    ensures ok { IfOk result
        (λ done. Acts (record {
          nodes = nodes_in nodes.old;
          messages = pool.now.messages;
        }) command.now (nodes_in nodes.new) done) }
    ensures disks { IfOk result
        (λ done. (line : ℕ) → AtTouchedNode (task (record {
          nodes = nodes_in nodes.old;
          messages = pool.now.messages;
        }) command.now) done.failed nodes.old nodes.new
        (λ number. ChangesAt number (NodeDisks D.state (DisksTouched (record {
          nodes = nodes_in nodes.old;
          messages = pool.now.messages;
        }) (event_of line command.now done))) nodes.old nodes.new)) }
    ensures err { OnErr result (AtTouchedNode
        (task (record { nodes = nodes_in nodes.old; messages = pool.now.messages }) command.now) None
        nodes.old nodes.new
        (λ number. ChangesAt number (NodeUnchanged D.state (DisksLeft command.now)) nodes.old nodes.new)) }
    ensures stand { EachNodeStands D.state nodes.old → EachNodeStands D.state nodes.new }
    ensures len { length nodes.new ≡ length nodes.old }
    ensures raised { OnOk result (IsRaised (touched_node (record {
      nodes = nodes_in nodes.old;
      messages = pool.now.messages;
    }) command.now) (nodes_in nodes.new) points.old points.new) }
    ensures kept { OnErr result (points.new ≡ points.old) }
{
    let done = acting::act(nodes, alloc, rt, pool, command)?;
    points.raise(nodes, touched(pool, command));
    Ok(done)
}
