ghost use Rattle.std.specs.Prelude.{◌≡◌, ◌<◌, ◌≤◌, ◌↔◌, [], ◌∷◌, ◌++◌, true, All, length, vec_capacity, vec_len, Err, IfErr, IfOk, IsErrOf, Ok, OnErr, OnOk, Some, slice_get};
ghost use Rattle.rs_disk.specs.File.{IsEmpty};
ghost use Rattle.member_config.specs.Config.{first_config as begins_with};
ghost use Rattle.set_model.specs.Limits.{IsRun, is_for};
ghost use Rattle.set_model.specs.Pointed.{pointed};
ghost use Rattle.set_model.specs.Run.{HISTORY_LIMIT, AreSizes, run};
ghost use Rattle.set_model.specs.World.{touched_node};
ghost use Rattle.set_world.specs.declared.error.StepError.{StepError as AStepError};
ghost use Rattle.set_world.specs.Disks.{AllBegin, AllStand, IsStep, NothingDone, Opens};
ghost use Rattle.set_world.specs.Points.{RaisesOnly};
ghost use Rattle.set_world.specs.Pool.{IsBetweenNodes};
ghost use Rattle.set_world.specs.Went.{DisksWent};
ghost use Rattle.set_world.specs.World.{event_of, nodes_in};

use crate::StepError;
use crate::command::recall_sound_write;
use crate::opening::{first_config, give_back, open_nodes};
use crate::points::{Points, act, touched};
use crate::pool::Pool;
use node_core::{Done, Node};
use record_file::FileError;
use rs_disk::Disk;
use safety_laws::{configs_are_lawful, messages_can_be_taken, numbers_stay_small};
use set_model::{Command, Event, Reply};
use std::alloc::Global;
use std::marker::Model;
use std::snapshot::Snapshot;
use std::thread::Threads;

/// A history has at most this many events.
const MOST_EVENTS: usize = 4_294_967_295;

/// No event sends more messages than this.
const MOST_SENT: usize = 7;

/// A replica set: its nodes on their disks, every message that was sent, and the events that led there.
/// Contracts see the events and the disks: the nodes and the messages are those of the last world of
/// the events' run.
#[derive(Drop)]
pub struct World<D: Disk> {
    alloc: Global,
    size: u32,
    voters: u32,
    members: u32,
    nodes: Vec<Node<D>>,
    pool: Pool,
    history: Vec<Event>,
    points: Points,
    /// The disks without a node.
    idle: Vec<D>,
    /// No step has run out of memory while it used its node's disks.
    whole: bool,
    /// The nodes and the other disks as they were opened, only for proofs.
    first_nodes: Snapshot<Vec<Node<D>>>,
    first_idle: Snapshot<Vec<D>>,
}

impl<D: Disk> Model for World<D> {
    ghost use Rattle.std.specs.Prelude.{◌++◌, vec_len};
    ghost use Rattle.std.specs.Coded.{codes};
    ghost use Rattle.set_model.specs.contracts.command.Event as event;
    ghost use Rattle.set_world.specs.World.{Set, disks_in, nodes_in};

    ghost Value = { Set D };

    ghost coded = { Prim.hlevel (codes, event.the_row.coded) };

    ghost use Rattle.set_world.specs.Acting.{EachNodeStands};
    ghost use Rattle.set_world.specs.Points.{ArePointed};
    ghost use Rattle.set_world.specs.Went.{DisksWent};
    ghost use Rattle.set_world.specs.World.{CanTakeBack, IsStanding};

    ghost view = { λ w. record {
      sizes = record { nodes = w.size; voters = w.voters; members = w.members };
      history = w.history.items;
      disks = disks_in w.nodes.items ++ w.idle.items;
      opened = disks_in w.first_nodes.value.items ++ w.first_idle.value.items;
      whole = w.whole;
    } };

    ghost invariant = { λ w. IsStanding (record {
      nodes = w.size;
      voters = w.voters;
      members = w.members;
    }) w.history.items (nodes_in w.nodes.items) w.pool
        × CanTakeBack (vec_len w.nodes) w.idle × EachNodeStands D.state w.nodes.items
        × ArePointed (record {
          nodes = w.size;
          voters = w.voters;
          members = w.members;
        }) w.history.items w.points
        × DisksWent D.state (record {
          sizes = record { nodes = w.size; voters = w.voters; members = w.members };
          history = w.history.items;
          disks = disks_in w.nodes.items ++ w.idle.items;
          opened = disks_in w.first_nodes.value.items ++ w.first_idle.value.items;
          whole = w.whole;
        }) };
}

impl<D: Disk> World<D> {
    /// A set of up to 50 nodes on 100 empty disks. The first ones vote, up to seven, and the next ones are
    /// members without a vote. Its nodes are opened in order of number, each on the next two disks: its
    /// journal, and then its checkpoints.
    ///
    /// # Errors
    /// `Disk` where a disk of one of the nodes failed, and `Memory` where memory ran out. Either hands back
    /// the disks, each in its place, with the nodes as at the opening, except that a journal may lack the
    /// record of its form.
    #[tactic(auto, using(crate::proofs::OpenLemmas::begins, crate::proofs::PointedLemmas::pointed_first))]
    pub fn open(
        alloc: Global,
        nodes: u32,
        voters: u32,
        members: u32,
        disks: Vec<D>,
    ) -> Result<World<D>, (Vec<D>, FileError)>
        requires sizes { AreSizes (record { nodes = nodes; voters = voters; members = members }) }
        requires disks { vec_len disks ≡ 100 }
        requires empty { All (λ (disk : D). IsEmpty (D.state disk).file) disks.items }
        ensures sizes { IfOk result (λ world.
            world.sizes ≡ record { nodes = nodes; voters = voters; members = members }) }
        ensures history { IfOk result (λ world. world.history ≡ []) }
        ensures opened { IfOk result (λ world. Opens D.state nodes (Ok tt) disks.items world.disks) }
        ensures first { IfOk result (λ world. world.opened ≡ world.disks) }
        ensures whole { IfOk result (λ world. world.whole ≡ true) }
        ensures refused { IfErr result (λ refused.
            Opens D.state nodes (Err refused.1) disks.items refused.0.items) }
        ensures handed_back { IfErr result (λ refused.
            AllBegin D.state (begins_with voters members) nodes refused.0.items) }
    {
        configs_are_lawful();
        let pool = Pool::new(alloc, nodes);
        let config = match first_config(alloc, voters, members) {
            Ok(config) => config,
            Err(_) => return Err((disks, FileError::Memory)),
        };
        let points = match Points::new(alloc, nodes) {
            Ok(points) => points,
            Err(_) => return Err((disks, FileError::Memory)),
        };
        let mut idle = disks;
        match open_nodes(alloc, nodes, &config, &mut idle) {
            Ok(opened) => {
                let first_nodes = Snapshot::of(&opened);
                let first_idle = Snapshot::of(&idle);
                Ok(World {
                    alloc,
                    size: nodes,
                    voters,
                    members,
                    nodes: opened,
                    pool,
                    history: Vec::new(alloc),
                    points,
                    idle,
                    whole: true,
                    first_nodes,
                    first_idle,
                })
            }
            Err(error) => Err((idle, error)),
        }
    }

    /// Does one command, and adds its event, of this line, to the history. A store that fails is no error:
    /// the event says which one did.
    ///
    /// # Errors
    /// `HistoryFull` where the history has 4,294,967,295 events: nothing is done. `Memory` where memory ran
    /// out: the nodes, the messages, the history and the disks' files are as they were. Only a restart may
    /// have opened its node's disks again.
    pub fn step<R: Threads + Sync>(
        &mut self,
        rt: &R,
        line: u32,
        command: &Command,
    ) -> Result<Reply, StepError>
        requires command { is_for self.old.sizes.nodes command.now ≡ true }
        ensures step { IfOk result (λ reply. IsStep D.state self.old self.new line command.now reply) }
        ensures full { IsErrOf result AStepError.HistoryFull ↔ length self.old.history ≡ HISTORY_LIMIT }
        ensures untouched { IsErrOf result AStepError.HistoryFull → self.new ≡ self.old }
        ensures err { OnErr result (NothingDone D.state self.old self.new command.now) }
        ensures points { OnOk result (RaisesOnly (touched_node (run self.old.sizes self.old.history).world
            command.now) self.old.sizes self.old.history self.new.history) }
        ensures sizes { self.new.sizes ≡ self.old.sizes }
        ensures opened { self.new.opened ≡ self.old.opened }
        ensures whole { OnOk result (self.new.whole ≡ self.old.whole) }
        ensures unused { OnErr result (self.new.whole ≡ true →
            (self.old.whole ≡ true) × (self.new.disks ≡ self.old.disks)) }
    {
        // Before the copy, which can run out of memory.
        if self.history.len() >= MOST_EVENTS {
            return Err(StepError::HistoryFull);
        }
        let copied = command.copy()?;
        self.take(rt, line, copied)
    }

    /// Does one command, which its event then owns.
    ///
    /// # Errors
    /// Those of `step`, which copies its command.
    pub fn take<R: Threads + Sync>(
        &mut self,
        rt: &R,
        line: u32,
        command: Command,
    ) -> Result<Reply, StepError>
        requires command { is_for self.old.sizes.nodes command ≡ true }
        ensures step { IfOk result (λ reply. IsStep D.state self.old self.new line command reply) }
        ensures full { IsErrOf result AStepError.HistoryFull ↔ length self.old.history ≡ HISTORY_LIMIT }
        ensures untouched { IsErrOf result AStepError.HistoryFull → self.new ≡ self.old }
        ensures err { OnErr result (NothingDone D.state self.old self.new command) }
        ensures points { OnOk result (RaisesOnly (touched_node (run self.old.sizes self.old.history).world
            command) self.old.sizes self.old.history self.new.history) }
        ensures sizes { self.new.sizes ≡ self.old.sizes }
        ensures opened { self.new.opened ≡ self.old.opened }
        ensures whole { OnOk result (self.new.whole ≡ self.old.whole) }
        ensures unused { OnErr result (self.new.whole ≡ true →
            (self.old.whole ≡ true) × (self.new.disks ≡ self.old.disks)) }
    {
        numbers_stay_small();
        messages_can_be_taken();
        recall_sound_write(&command);
        match make_room(&mut self.history, &mut self.pool) {
            Ok(()) => {}
            Err(why) => return Err(why),
        }
        let done = match act(
            &mut self.nodes,
            &mut self.points,
            self.alloc,
            rt,
            &self.pool,
            &command,
        ) {
            Ok(done) => done,
            Err(_) => {
                drop(command);
                self.whole = false;
                return Err(StepError::Memory);
            }
        };
        Ok(put(&mut self.history, &mut self.pool, line, command, done))
    }

    /// Hands back the history, and the disks in their places.
    pub fn close(self) -> (Vec<Event>, Vec<D>)
        ensures history { result.0.items ≡ self.history }
        ensures disks { result.1.items ≡ self.disks }
    {
        let World {
            alloc: _alloc,
            size: _size,
            voters: _voters,
            members: _members,
            nodes,
            pool: _pool,
            history,
            points: _points,
            idle,
            whole: _whole,
            first_nodes: _first_nodes,
            first_idle: _first_idle,
        } = self;
        let mut disks = idle;
        give_back(nodes, &mut disks);
        (history, disks)
    }

    /// How many nodes it has.
    pub fn size(&self) -> u32
        ensures { result ≡ self.now.sizes.nodes }
    {
        self.size
    }

    /// What was done, oldest first.
    pub fn history(&self) -> &[Event]
        ensures { result.now ≡ self.now.history }
    {
        &self.history
    }

    /// Lends the node with this number, as it is in the last world of the history. The set must have a node
    /// with that number.
    pub fn node(&self, node: u32) -> &Node<D>
        requires { node < self.now.sizes.nodes }
        ensures { slice_get (run self.now.sizes self.now.history).world.nodes node ≡ Some result.now.0 }
    {
        numbers_stay_small();
        &self.nodes[node as usize]
    }

    /// Lends all nodes, in order of number, as they are in the last world of the history.
    pub fn nodes(&self) -> &[Node<D>]
        ensures { nodes_in result.now ≡ (run self.now.sizes self.now.history).world.nodes }
    {
        &self.nodes
    }

    /// The most entries that a node has had committed in any world so far: those of its log up to its commit
    /// point. It is 0 for a number that isn't a node's.
    pub fn point_of(&self, node: u32) -> u64
        ensures { result ≡ pointed self.now.sizes self.now.history node }
    {
        self.points.of(node)
    }

    /// The node that a command would touch now: its own, or the receiver of the message that it delivers.
    /// It is node 0 where no such message was sent.
    pub fn touched(&self, command: &Command) -> u32
        requires command { is_for self.now.sizes.nodes command.now ≡ true }
        ensures touched { result ≡ touched_node (run self.now.sizes self.now.history).world command.now }
        ensures known { result < self.now.sizes.nodes }
    {
        numbers_stay_small();
        touched(&self.pool, command)
    }

    /// Whether no step has run out of memory while it used its node's disks. The disks are then exactly what
    /// the events leave.
    pub fn is_whole(&self) -> bool
        ensures { result ≡ self.now.whole }
    {
        self.whole
    }

    /// What the events have done to the disks since the set was opened: a fact for callers' proofs,
    /// which costs nothing.
    pub fn recall_went(&self)
        ensures { DisksWent D.state self.now }
    {
        let _ = &self.nodes;
    }

    /// The nodes' disks have what they are in the last world: a fact for callers' proofs, which costs
    /// nothing.
    pub fn recall_stands(&self)
        ensures { AllStand D.state self.now }
    {
        let _ = &self.nodes;
    }

    /// The history is a defined run: a fact for callers' proofs, which costs nothing.
    pub fn recall_run(&self)
        ensures sizes { AreSizes self.now.sizes }
        ensures run { IsRun self.now.sizes self.now.history }
        ensures count { length (run self.now.sizes self.now.history).world.nodes ≡ self.now.sizes.nodes }
        ensures short { length self.now.history ≤ HISTORY_LIMIT }
    {
        numbers_stay_small();
        let _ = &self.nodes;
    }
}

// Reserves memory for one more event, and for the messages that it may send.
fn make_room(history: &mut Vec<Event>, pool: &mut Pool) -> Result<(), StepError>
    requires { length history.old.items ≤ HISTORY_LIMIT }
    ensures items { history.new.items ≡ history.old.items }
    ensures nodes { pool.new.nodes ≡ pool.old.nodes }
    ensures messages { pool.new.messages ≡ pool.old.messages }
    ensures room { OnOk result (vec_len history.new < vec_capacity history.new) }
    ensures spare { OnOk result (7 ≤ pool.new.spare) }
    ensures short { OnOk result (length history.old.items < HISTORY_LIMIT) }
    ensures full { IsErrOf result AStepError.HistoryFull ↔ length history.old.items ≡ HISTORY_LIMIT }
{
    if history.len() >= MOST_EVENTS {
        return Err(StepError::HistoryFull);
    }
    history.reserve(1)?;
    pool.reserve(MOST_SENT)?;
    Ok(())
}

// Appends what was done to the messages and the history, in the room that there is.
fn put(history: &mut Vec<Event>, pool: &mut Pool, line: u32, command: Command, done: Done) -> Reply
    requires room { vec_len history.old < vec_capacity history.old }
    requires spare { length done.sent.items ≤ pool.old.spare }
    requires between { All (IsBetweenNodes pool.old.nodes) done.sent.items }
    ensures items { history.new.items ≡ history.old.items ++ event_of line command done ∷ [] }
    ensures nodes { pool.new.nodes ≡ pool.old.nodes }
    ensures messages { pool.new.messages ≡ pool.old.messages ++ done.sent.items }
    ensures reply { result ≡ done.reply }
{
    let Done {
        reply,
        sent,
        failed,
        kept,
    } = done;
    pool.add(sent);
    let event = Event {
        line,
        command,
        failed,
        kept,
    };
    match history.push(event) {
        Ok(()) => {}
        Err(_) => unreachable!(),
    }
    reply
}
