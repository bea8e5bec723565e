// The machine: its nodes, and every message that was ever sent.
ghost use Rattle.std.specs.Prelude.{◌≡◌, ◌≤◌, length, not, true, IfOk, IsErrOf, OnOk, ◌&&◌};
ghost use Rattle.std.specs.Option.{option_copied};
ghost use Rattle.member_config.specs.Config.{first_config as begins_with, first_member};
ghost use Rattle.set_model.specs.Limits as limits;
ghost use Rattle.set_model.specs.Limits.{Fits};
ghost use Rattle.set_model.specs.Run.{AreSizes};
ghost use Rattle.set_model.specs.World as worlds;
ghost use Rattle.set_model.specs.World.{World, is_delivery};
ghost use Rattle.checker_machine.specs.Acting.{Acts, IsOutOfDoubt};
ghost use Rattle.checker_machine.specs.Reached.{AreSound, CanBeTaken, IsReached, IsReadable};
ghost use Rattle.checker_machine.specs.declared.machine.StepError.TheVariants as errors;

use crate::delivery::deliver;
use crate::pool::Pool;
use crate::rows::act;
use bson_doc::Mem;
use checker_node::{Answer, Node};
use member_config::{Config, Member, MemberList};
use repl_msg::Message;
use safety_laws::{configs_are_lawful, messages_can_be_taken, nodes_are_sound, numbers_stay_small};
use set_model::{Command, Event, Refusal, Reply};
use std::alloc::{AllocError, Global};
use std::marker::Model;

/// Why the machine doesn't do an event.
#[derive(Clone, Copy, Debug, PartialEq, Eq)]
pub enum StepError {
    /// The event doesn't fit the world that it meets: a store fails that isn't reached, or a doubt is settled
    /// that isn't there. The machine is of no use afterwards.
    NoFit,
    /// Memory ran out. The machine is of no use afterwards.
    Memory,
}

impl From<AllocError> for StepError {
    ghost use Rattle.checker_machine.specs.declared.machine.StepError.TheVariants.{Memory};

    ghost from_gives = { λ _ error. error ≡ Memory };

    fn from(_: AllocError) -> Self {
        StepError::Memory
    }
}

/// A replica set, as set_model has it.
#[derive(Drop)]
pub struct Machine {
    alloc: Global,
    nodes: Vec<Node>,
    pool: Pool,
}

impl Model for Machine {
    ghost use Rattle.std.specs.Coded.{codes};
    ghost use Rattle.bson_doc.specs.Code.{fields_code};
    ghost use Rattle.rs_optime.specs.Order.{optime_code};
    ghost use Rattle.oplog_entry.specs.contracts.entry.Entry as entry;
    ghost use Rattle.bson_doc.specs.contracts.key.IdKey as key;
    ghost use Rattle.member_config.specs.contracts.config.Config as config_row;
    ghost use Rattle.repl_msg.specs.contracts.record.Record as record_kept;
    ghost use Rattle.set_model.specs.contracts.store.Store as store_row;
    ghost use Rattle.checker_tables.specs.Code.{writers_code, slots_code, progress_code, known_code, tally_code};
    ghost use Rattle.repl_msg.specs.contracts.message.Message as message;
    ghost use Rattle.set_model.specs.World.{World};

    ghost Value = { World };

    ghost coded = { Prim.hlevel (
      codes,
      fields_code,
      optime_code,
      key.the_row.coded,
      entry.the_row.coded,
      config_row.the_row.coded,
      record_kept.the_row.coded,
      message.the_row.coded,
      store_row.the_row.coded,
      writers_code,
      slots_code,
      progress_code,
      known_code,
      tally_code,
    ) };

    ghost view = { λ m. record { nodes = m.nodes.items; messages = m.pool } };
}

/// The configuration that a set begins with, by the number of its members and of those that vote.
fn first_config(alloc: Global, voters: u32, members: u32) -> Mem<Config>
    requires { members ≤ 50 }
    ensures { IfOk result (λ config. config ≡ begins_with voters members) }
{
    let mut list = MemberList::new(alloc);
    for number in 0..members {
        list.push(first_member(voters, number))?;
    }
    Ok(Config {
        term: 0,
        version: 1,
        members: list,
        chaining: true,
    })
}

/// A member of that configuration: the first ones vote, with priority 1, and no other can be elected.
fn first_member(voters: u32, number: u32) -> Member
    ensures { result ≡ first_member voters number }
{
    let votes = number < voters;
    Member {
        number,
        votes,
        priority: if votes { 1 } else { 0 },
    }
}

/// Whether an event can find on disk what its node was storing when a disk failed: it is a restart that gets
/// past its first store, of a node with a store in doubt.
fn settles_doubt(node: &Node, event: &Event) -> bool
    ensures { result ≡ (limits.is_restart event.now.command && limits.passes_first event.now.failed
        && limits.is_in_doubt node.now) }
{
    match &event.command {
        Command::Restart { .. } => event.failed != Some(0) && node.is_in_doubt(),
        _ => false,
    }
}

/// Whether an event finds on disk what its node wasn't storing.
fn is_out_of_doubt(node: &Node, event: &Event) -> bool
    ensures { result ≡ (event.now.kept && not (limits.is_restart event.now.command
        && limits.passes_first event.now.failed && limits.is_in_doubt node.now)) }
{
    event.kept && !settles_doubt(node, event)
}

impl Machine {
    /// A set of this many nodes: the first ones vote, and the next ones are members without a vote.
    pub fn open(alloc: Global, nodes: u32, voters: u32, members: u32) -> Mem<Machine>
        requires { AreSizes (record { nodes = nodes; voters = voters; members = members }) }
        ensures { IfOk result (λ machine. machine ≡ worlds.opening_world nodes voters members) }
    {
        let first = first_config(alloc, voters, members)?;
        let mut opened = Vec::new(alloc);
        for number in 0..nodes {
            opened.push(Node::open(alloc, number, &first)?)?;
        }
        Ok(Machine {
            alloc,
            nodes: opened,
            pool: Pool::new(alloc),
        })
    }

    /// How many nodes there are.
    pub fn size(&self) -> u32
        requires { length self.now.nodes ≤ 50 }
        ensures { result ≡ length self.now.nodes }
    {
        self.nodes.len() as u32
    }

    /// The nodes by their numbers.
    pub fn nodes(&self) -> &[Node]
        ensures { result.now ≡ self.now.nodes }
    {
        &self.nodes
    }

    /// The same set once more, which goes on by itself. The two share the ops of their entries.
    pub fn copy(&self) -> Mem<Machine>
        ensures { IfOk result (λ machine. machine ≡ self.now) }
    {
        let mut nodes = Vec::with_capacity(self.alloc, self.nodes.len())?;
        for node in &self.nodes {
            nodes.push(node.copy()?)?;
        }
        Ok(Machine {
            alloc: self.alloc,
            nodes,
            pool: self.pool.copy()?,
        })
    }

    /// Every message that was sent, oldest first.
    pub fn messages(&self) -> &[Message]
        ensures { result.now ≡ self.now.messages }
    {
        self.pool.as_slice()
    }

    /// The message that a command delivers; none if no such message was sent.
    pub fn delivered(&self, command: &Command) -> Option<&Message>
        requires { is_delivery command.now ≡ true }
        ensures { worlds.taking (option_copied result) ≡ worlds.task self.now command.now }
    {
        delivered(&self.pool, command)
    }

    /// Does one event, and returns its reply.
    pub fn step(&mut self, event: &Event) -> Result<Reply, StepError>
        requires reached { IsReached self.old }
        requires event { IsReadable self.old event.now }
        ensures reply { IfOk result (λ reply. reply ≡ (worlds.step self.old event.now).reply) }
        ensures world { OnOk result (self.new ≡ (worlds.step self.old event.now).world) }
        ensures fits { OnOk result (Fits self.old event.now) }
        ensures none { IsErrOf result errors.NoFit → Fits self.old event.now → ⊥ }
    {
        let mut failed = event.failed;
        let answer = self.act(event, &mut failed)?;
        if failed.is_some() {
            return Err(StepError::NoFit);
        }
        let Answer { reply, sent } = answer;
        self.pool.add(sent)?;
        Ok(reply)
    }

    /// There are at most fifty nodes, and each is sound: facts for proofs, which cost nothing.
    pub fn recall_nodes(&self)
        requires { IsReached self.now }
        ensures few { length self.now.nodes ≤ 50 }
        ensures sound { AreSound self.now }
    {
        numbers_stay_small();
        configs_are_lawful();
        nodes_are_sound();
    }

    /// Each message is for a node of the set, which can take it: a fact for proofs, which costs nothing.
    fn recall_messages(&self)
        requires { IsReached self.now }
        ensures { CanBeTaken self.now }
    {
        numbers_stay_small();
        messages_can_be_taken();
    }

    /// Does what the event's command asks for at the one node that it touches.
    fn act(&mut self, event: &Event, failed: &mut Option<u32>) -> Result<Answer, StepError>
        requires reached { IsReached self.old }
        requires event { IsReadable self.old event.now }
        requires failed { failed.old ≡ event.now.failed }
        ensures answer { IfOk result (λ answer. Acts self.old event.now failed.new answer self.new) }
        ensures none { IsErrOf result errors.NoFit → IsOutOfDoubt self.old event.now }
    {
        match event.command.actor() {
            Some(number) => self.act_at(number, event, failed),
            None => self.deliver(event, failed),
        }
    }

    /// A node does a command of its own.
    fn act_at(
        &mut self,
        number: u32,
        event: &Event,
        failed: &mut Option<u32>,
    ) -> Result<Answer, StepError>
        requires reached { IsReached self.old }
        requires event { IsReadable self.old event.now }
        requires failed { failed.old ≡ event.now.failed }
        requires own { (world : World) → worlds.task world event.now.command ≡ worlds.acts number }
        ensures answer { IfOk result (λ answer. Acts self.old event.now failed.new answer self.new) }
        ensures none { IsErrOf result errors.NoFit → IsOutOfDoubt self.old event.now }
    {
        self.recall_nodes();
        let (nodes, next) = (self.size(), self.pool.len() as u64);
        let node = &mut self.nodes[number as usize];
        if is_out_of_doubt(node, event) {
            return Err(StepError::NoFit);
        }
        Ok(act(node, nodes, next, event.kept, &event.command, failed)?)
    }

    /// Delivers a message, if it was sent.
    fn deliver(&mut self, event: &Event, failed: &mut Option<u32>) -> Result<Answer, StepError>
        requires reached { IsReached self.old }
        requires event { IsReadable self.old event.now }
        requires failed { failed.old ≡ event.now.failed }
        requires delivers { is_delivery event.now.command ≡ true }
        ensures answer { IfOk result (λ answer. Acts self.old event.now failed.new answer self.new) }
        ensures none { IsErrOf result errors.NoFit → IsOutOfDoubt self.old event.now }
    {
        if event.kept {
            return Err(StepError::NoFit);
        }
        self.recall_nodes();
        self.recall_messages();
        let next = self.pool.len() as u64;
        let Some(message) = delivered(&self.pool, &event.command) else {
            let reply = Reply::Refused(Refusal::NoSuchMessage);
            return Ok(Answer::alone(self.alloc, reply));
        };
        let node = &mut self.nodes[message.to as usize];
        Ok(deliver(node, next, message, failed)?)
    }
}

/// The message that a command delivers; none if no such message was sent.
fn delivered<'a>(pool: &'a Pool, command: &Command) -> Option<&'a Message>
    requires { is_delivery command.now ≡ true }
    ensures { (world : World) → world.messages ≡ pool.now
        → worlds.taking (option_copied result) ≡ worlds.task world command.now }
{
    match command {
        Command::Deliver { message } => pool.get(*message),
        Command::DeliverLatest { from, to } => pool.latest(*from, *to),
        _ => None,
    }
}
