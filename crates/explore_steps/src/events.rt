// What events do at nodes and in cells, each computed once.
ghost use Rattle.std.specs.Prelude.{◌≡◌, ◌↔◌, ◌<◌, true, not, length, filter, map, IfOk, IsTrue, OnOk, Some, List, slice_get};
ghost use Rattle.rs_optime.specs.Membership.{In};
ghost use Rattle.repl_msg.specs.declared.message.Message.{Message as SentMessage};
ghost use Rattle.set_model.specs.Limits.{is_within};
ghost use Rattle.set_model.specs.Node.{Node as ModelNode};
ghost use Rattle.set_model.specs.Taking.{CanTake};
ghost use Rattle.checker_node.specs.Sound.{IsSound};
ghost use Rattle.explore_laws.specs.Dead.{is_dead as is_dead_at};
ghost use Rattle.explore_steps.specs.declared.deed.Deed.{Deed as KeptDeed};
ghost use Rattle.explore_steps.specs.Causes.{own, taken};
ghost use Rattle.explore_steps.specs.Keeping.{AreKept, ComesTo, Grows, HasAfter, HasDeed, IsGrown, IsLine, IsPlaced};
ghost use Rattle.explore_steps.specs.Reaching.{IsPut};
ghost use Rattle.explore_steps.specs.Standing.{CanTakeAt, IsCome, IsHanded, IsSoundAt};
ghost use Rattle.explore_steps.specs.Stepping.{EventDoes, IsStepOf};
ghost use Rattle.explore_steps.specs.Tables.{AreNumbered, AreNumbers, HasCell, IsCell, tables_of};

use crate::dead::is_dead;
use crate::deed::{Deed, Done, Step};
use crate::laws::worlds_are_sound;
use crate::steps::Steps;
use crate::wanting::{Cause, met_wants};
use bson_doc::Mem;
use checker_machine::{act, deliver};
use checker_node::{Answer, Node};
use explore_tables::{MessageTable, number_of, times};
use explore_words::Question;
use repl_msg::Message;
use set_model::Command;
use std::alloc::Global;

impl Steps {
    /// The step of a number.
    pub(crate) fn step(&self, number: u32) -> Step
        requires { number < length self.now.steps.items }
        ensures { slice_get self.now.steps.items number ≡ Some result }
    {
        self.steps[number as usize]
    }

    /// The numbers of the messages that are sent by a deed.
    pub(crate) fn sent(&self, deed: u32) -> &[u32]
        requires { deed < length self.now.deeds.items }
        ensures { (found : KeptDeed) → slice_get self.now.deeds.items deed ≡ Some found
            → result.now ≡ found.sent.items }
    {
        &self.deeds[deed as usize].sent
    }

    /// Whether the want at a place is met by a deed.
    pub(crate) fn meets(&self, deed: u32, want: u32) -> bool
        requires { deed < length self.now.deeds.items }
        ensures { (found : KeptDeed) → slice_get self.now.deeds.items deed ≡ Some found
            → IsTrue result ↔ In want found.meets.items }
    {
        times(&self.deeds[deed as usize].meets, want) > 0
    }

    /// The number of what comes of the node by a deed.
    fn node_after(&self, deed: u32) -> u32
        requires { deed < length self.now.deeds.items }
        ensures { (found : KeptDeed) → slice_get self.now.deeds.items deed ≡ Some found
            → result ≡ found.node }
    {
        self.deeds[deed as usize].node
    }

    /// What a line of an act does in the cell of its node.
    pub(crate) fn of_line(
        &mut self,
        question: &Question,
        act: usize,
        line: u32,
        command: &Command,
        cell: u32,
    ) -> Mem<u32>
        requires put { IsPut question.now }
        requires kept { AreKept question.now self.old }
        requires line { IsLine question.now act line command.now }
        requires come { IsCome (tables_of self.old) question.now cell }
        ensures grown { OnOk result (IsGrown question.now self.old self.new) }
        ensures step { IfOk result (λ number.
            IsStepOf (tables_of self.new) question.now (own command.now) cell number) }
    {
        if let Some(step) = self.lines_in[act].find(cell, line) {
            return Ok(step);
        }
        worlds_are_sound();
        let node = self.node_number(cell);
        let deed = self.line_at(question, act, line, command, node)?;
        let step = self.settle(cell, deed)?;
        self.lines_in[act].put(cell, line, step)?;
        Ok(step)
    }

    /// What a message does in the cell of its receiver.
    pub(crate) fn of_message(&mut self, question: &Question, message: u32, cell: u32) -> Mem<u32>
        requires put { IsPut question.now }
        requires kept { AreKept question.now self.old }
        requires handed { (sent : SentMessage)
            × IsHanded (tables_of self.old) question.now message cell sent }
        ensures grown { OnOk result (IsGrown question.now self.old self.new) }
        ensures step { IfOk result (λ number.
            (sent : SentMessage) → slice_get self.old.messages message ≡ Some sent
            → IsStepOf (tables_of self.new) question.now (taken sent) cell number) }
    {
        if let Some(step) = self.messages_in.find(cell, message) {
            return Ok(step);
        }
        worlds_are_sound();
        let node = self.node_number(cell);
        let deed = self.message_at(question, message, node)?;
        let step = self.settle(cell, deed)?;
        self.messages_in.put(cell, message, step)?;
        Ok(step)
    }

    /// What a line of an act does at a node.
    fn line_at(
        &mut self,
        question: &Question,
        act: usize,
        line: u32,
        command: &Command,
        node: u32,
    ) -> Mem<u32>
        requires kept { AreKept question.now self.old }
        requires line { IsLine question.now act line command.now }
        requires within { is_within command.now ≡ true }
        requires node { IsSoundAt (tables_of self.old) node }
        ensures grown { OnOk result (IsGrown question.now self.old self.new) }
        ensures deed { IfOk result (λ number.
            HasDeed (tables_of self.new) question.now (own command.now) node number) }
    {
        if let Some(deed) = self.lines_at[act].find(node, line) {
            return Ok(deed);
        }
        let deed = self.do_command(question, command, node)?;
        self.lines_at[act].put(node, line, deed)?;
        Ok(deed)
    }

    /// What a message does at a node.
    fn message_at(&mut self, question: &Question, message: u32, node: u32) -> Mem<u32>
        requires kept { AreKept question.now self.old }
        requires node { IsSoundAt (tables_of self.old) node }
        requires message { CanTakeAt (tables_of self.old) node message }
        ensures grown { OnOk result (IsGrown question.now self.old self.new) }
        ensures deed { IfOk result (λ number.
            (sent : SentMessage) → slice_get self.old.messages message ≡ Some sent
            → HasDeed (tables_of self.new) question.now (taken sent) node number) }
    {
        if let Some(deed) = self.messages_at.find(node, message) {
            return Ok(deed);
        }
        let deed = self.take_message(question, message, node)?;
        self.messages_at.put(node, message, deed)?;
        Ok(deed)
    }

    fn do_command(&mut self, question: &Question, command: &Command, node: u32) -> Mem<u32>
        requires kept { AreKept question.now self.old }
        requires within { is_within command.now ≡ true }
        requires node { IsSoundAt (tables_of self.old) node }
        ensures grown { OnOk result (IsGrown question.now self.old self.new) }
        ensures deed { IfOk result (λ number.
            HasDeed (tables_of self.new) question.now (own command.now) node number) }
    {
        let mut after = self.nodes.get(node).copy()?;
        let Done { sent, meets } = own_done(self.alloc, question, command, &mut after)?;
        self.add_deed(after, sent, meets)
    }

    fn take_message(&mut self, question: &Question, message: u32, node: u32) -> Mem<u32>
        requires kept { AreKept question.now self.old }
        requires node { IsSoundAt (tables_of self.old) node }
        requires message { CanTakeAt (tables_of self.old) node message }
        ensures grown { OnOk result (IsGrown question.now self.old self.new) }
        ensures deed { IfOk result (λ number.
            (sent : SentMessage) → slice_get self.old.messages message ≡ Some sent
            → HasDeed (tables_of self.new) question.now (taken sent) node number) }
    {
        let mut after = self.nodes.get(node).copy()?;
        let taken = self.messages.get(message);
        let Done { sent, meets } = taken_done(self.alloc, question, taken, &mut after)?;
        self.add_deed(after, sent, meets)
    }

    /// Adds what an event does, by the node that comes of it.
    fn add_deed(&mut self, node: Node, sent: Vec<Message>, meets: Vec<u32>) -> Mem<u32>
        ensures grown { OnOk result (Grows self.old self.new) }
        ensures placed { IfOk result (λ number.
            IsPlaced (tables_of self.new) node sent.items meets.items number) }
    {
        let node = self.nodes.place(node)?;
        let sent = place_all(self.alloc, &mut self.messages, sent)?;
        let number = number_of(self.deeds.len())?;
        self.deeds.push(Deed { node, sent, meets })?;
        Ok(number)
    }

    /// Adds what a deed of its node comes to in a cell.
    fn settle(&mut self, cell: u32, deed: u32) -> Mem<u32>
        requires cell { HasCell (tables_of self.old) cell }
        requires deed { HasAfter (tables_of self.old) deed }
        ensures grown { OnOk result (Grows self.old self.new) }
        ensures step { IfOk result (λ number.
            ComesTo (tables_of self.old) (tables_of self.new) cell deed number) }
    {
        let node = self.node_after(deed);
        let live = self.still_live(cell, self.nodes.get(node))?;
        let kills = live.len() < self.live(cell).len();
        let moves = node != self.node_number(cell);
        let list = self.lists.place(live)?;
        let cell = self.cells.place(node, list)?;
        let number = number_of(self.steps.len())?;
        self.steps.push(Step {
            cell,
            deed,
            moves,
            kills,
        })?;
        Ok(number)
    }

    /// The messages to a cell that aren't dead at what came of its node.
    fn still_live(&self, cell: u32, node: &Node) -> Mem<Vec<u32>>
        requires { HasCell (tables_of self.now) cell }
        ensures { IfOk result (λ live. (own : ModelNode) (messages : List SentMessage)
            → IsCell (tables_of self.now) cell own messages
            → AreNumbers (tables_of self.now) live.items
            (filter (λ message. not (is_dead_at node.now message)) messages)) }
    {
        let mut live = Vec::new(self.alloc);
        for message in self.live(cell) {
            if !is_dead(node, self.messages.get(*message)) {
                live.push(*message)?;
            }
        }
        Ok(live)
    }
}

/// Does a command at a node.
fn own_done(alloc: Global, question: &Question, command: &Command, node: &mut Node) -> Mem<Done>
    requires sound { IsSound node.old }
    requires within { is_within command.now ≡ true }
    ensures { IfOk result (λ done.
        EventDoes question.now (own command.now) node.old node.new done.sent.items done.meets.items) }
{
    let mut failed = None;
    let Answer { reply, sent } = act(node, question.sizes.nodes, 0, false, command, &mut failed)?;
    let meets = met_wants(alloc, question, Cause::Own(command), &reply)?;
    Ok(Done { sent, meets })
}

/// Delivers a message to a node.
fn taken_done(alloc: Global, question: &Question, message: &Message, node: &mut Node) -> Mem<Done>
    requires sound { IsSound node.old }
    requires message { node.old.up ≡ true → CanTake node.old message.now }
    ensures { IfOk result (λ done.
        EventDoes question.now (taken message.now) node.old node.new done.sent.items done.meets.items) }
{
    let mut failed = None;
    let Answer { reply, sent } = deliver(node, 0, message, &mut failed)?;
    let meets = met_wants(alloc, question, Cause::Taken(message), &reply)?;
    Ok(Done { sent, meets })
}

/// The numbers of messages.
fn place_all(alloc: Global, table: &mut MessageTable, messages: Vec<Message>) -> Mem<Vec<u32>>
    ensures grown { OnOk result (AreNumbered table.old table.new) }
    ensures placed { IfOk result (λ numbers.
        map (slice_get table.new) numbers.items ≡ map Some messages.items) }
{
    let mut numbers = Vec::new(alloc);
    for message in messages {
        numbers.push(table.place(message)?)?;
    }
    Ok(numbers)
}
