// An act under way.
ghost use Rattle.std.specs.Prelude.{◌≡◌, ◌<◌, ◌≤◌, ◌&&◌, ◌||◌, [], false, drop, length, List, Some, OnOk, IsTrue, slice_get};
ghost use Rattle.rs_optime.specs.Membership.{In};
ghost use Rattle.repl_msg.specs.declared.message.Message.{Message as SentMessage};
ghost use Rattle.set_model.specs.Node.{Node};
ghost use Rattle.set_model.specs.World.{World};
ghost use Rattle.explore_laws.specs.Dead.{is_dead};
ghost use Rattle.explore_words.specs.declared.question.Question.{Question as Asked};
ghost use Rattle.question_laws.specs.Meeting.{unseen};
ghost use Rattle.explore_steps.specs.Courses.{AreCells, AreFor, IsMoved, IsNoted, left_after, of_nodes, with_all, with_sent};
ghost use Rattle.explore_steps.specs.Keeping.{AreKept, Grows, IsGrown};
ghost use Rattle.explore_steps.specs.Reaching.{IsPut, IsReachedBefore};
ghost use Rattle.explore_steps.specs.Standing.{AreCome};
ghost use Rattle.explore_steps.specs.Tables.{AreNumbers, AreOf, HasCell, IsCell, tables_of};

use crate::steps::Steps;
use bson_doc::Mem;
use checker_machine::Machine;
use explore_words::{Question, Want};
use safety_laws::numbers_stay_small;
use std::alloc::Global;

/// Where a run stands, apart from how often acts were done.
#[derive(Drop)]
pub struct Course {
    /// The cell of each node.
    pub cells: Vec<u32>,
    /// How many wants are met.
    pub met: u32,
    /// Whether a message was sent that is dead, where that is noted.
    pub dead: bool,
    /// Whether that is noted.
    pub notes_dead: bool,
    /// The numbers of the messages that were sent in this act, in order.
    pub(crate) sent: Vec<u32>,
}

impl Course {
    /// Stands nowhere yet.
    pub fn new(alloc: Global, notes_dead: bool) -> Self
        ensures cells { result.cells.items ≡ [] }
        ensures met { result.met ≡ 0 }
        ensures dead { result.dead ≡ false }
        ensures notes { result.notes_dead ≡ notes_dead }
        ensures sent { result.sent.items ≡ [] }
    {
        Course {
            cells: Vec::new(alloc),
            met: 0,
            dead: false,
            notes_dead,
            sent: Vec::new(alloc),
        }
    }

    /// Stands in these cells, with so many wants met. No act is under way.
    pub fn stand(&mut self, cells: &[u32], met: u32, dead: bool) -> Mem<()>
        ensures cells { OnOk result (self.new.cells.items ≡ cells.now) }
        ensures met { OnOk result (self.new.met ≡ met) }
        ensures dead { OnOk result (self.new.dead ≡ dead) }
        ensures notes { self.new.notes_dead ≡ self.old.notes_dead }
        ensures sent { OnOk result (self.new.sent.items ≡ []) }
    {
        self.cells.clear();
        self.cells.extend_from_slice(cells)?;
        self.met = met;
        self.dead = dead;
        self.sent.clear();
        Ok(())
    }

    /// Whether it stands where another does.
    pub fn is_at(&self, other: &Course) -> bool
        ensures cells { IsTrue result → self.now.cells.items ≡ other.now.cells.items }
        ensures met { IsTrue result → self.now.met ≡ other.now.met }
        ensures dead { IsTrue result → self.now.dead ≡ other.now.dead }
        ensures same { self.now.cells.items ≡ other.now.cells.items → self.now.met ≡ other.now.met
            → self.now.dead ≡ other.now.dead → IsTrue result }
    {
        self.cells == other.cells && self.met == other.met && self.dead == other.dead
    }

    /// Puts the messages that were sent from this place on into the cells of their receivers.
    pub(crate) fn add_from(&mut self, steps: &mut Steps, before: usize) -> Mem<()>
        requires kept { (question : Asked) × AreKept question steps.old }
        requires cells { AreCells (tables_of steps.old) self.old.cells.items }
        requires before { before ≤ length self.old.sent.items }
        requires messages { AreFor (tables_of steps.old) (length self.old.cells.items)
            (drop before self.old.sent.items) }
        ensures grown { OnOk result (Grows steps.old steps.new) }
        ensures same { IsMoved self.old self.new }
        ensures count { OnOk result (length self.new.cells.items ≡ length self.old.cells.items) }
        ensures cells { OnOk result (AreCells (tables_of steps.new) self.new.cells.items) }
        ensures adds { OnOk result ((messages : List SentMessage) (world : World)
            → AreNumbers (tables_of steps.old) (drop before self.old.sent.items) messages
            → IsNoted (tables_of steps.old) self.old world
            → IsNoted (tables_of steps.new) self.new (with_all world messages)) }
    {
        let count = self.sent.len() - before;
        for place in 0..count {
            let message = self.sent[before + place];
            self.add(steps, message)?;
        }
        Ok(())
    }

    /// Puts a message that was sent into the cell of its receiver.
    fn add(&mut self, steps: &mut Steps, message: u32) -> Mem<()>
        requires kept { (question : Asked) × AreKept question steps.old }
        requires cells { AreCells (tables_of steps.old) self.old.cells.items }
        requires message { (sent : SentMessage) × (slice_get steps.old.messages message ≡ Some sent)
            × (sent.to < length self.old.cells.items) }
        ensures grown { OnOk result (Grows steps.old steps.new) }
        ensures same { IsMoved self.old self.new }
        ensures count { OnOk result (length self.new.cells.items ≡ length self.old.cells.items) }
        ensures cells { OnOk result (AreCells (tables_of steps.new) self.new.cells.items) }
        ensures adds { OnOk result ((sent : SentMessage) (world : World)
            → slice_get steps.old.messages message ≡ Some sent
            → IsNoted (tables_of steps.old) self.old world
            → IsNoted (tables_of steps.new) self.new (with_sent world sent)) }
    {
        let to = steps.message(message).to as usize;
        let cell = steps.with_message(self.cells[to], message)?;
        self.cells[to] = cell;
        self.dead = self.has_dead(steps, cell, message);
        Ok(())
    }

    /// Whether it is noted that a message is dead, once this one was sent to a cell.
    fn has_dead(&self, steps: &Steps, cell: u32, message: u32) -> bool
        requires cell { HasCell (tables_of steps.now) cell }
        requires message { message < length steps.now.messages }
        ensures { (node : Node) (messages : List SentMessage) (sent : SentMessage)
            → IsCell (tables_of steps.now) cell node messages
            → slice_get steps.now.messages message ≡ Some sent
            → (In sent messages → is_dead node sent ≡ false)
            → result ≡ (self.now.dead || (self.now.notes_dead && is_dead node sent)) }
    {
        self.dead || (self.notes_dead && steps.is_dead(cell, message))
    }

    /// Meets the wants that are met by what is seen, one after another.
    pub fn see(&mut self, steps: &mut Steps, question: &Question) -> Mem<()>
        requires put { IsPut question.now }
        requires kept { AreKept question.now steps.old }
        requires come { AreCome (tables_of steps.old) question.now self.old.cells.items }
        requires met { self.old.met ≤ length question.now.wants }
        ensures grown { OnOk result (IsGrown question.now steps.old steps.new) }
        ensures same { self.new ≡ record self.old { met = self.new.met } }
        ensures met { self.new.met ≤ length question.now.wants }
        ensures seen { OnOk result ((world : World) → IsReachedBefore 0 question.now world
            → AreOf (tables_of steps.old) self.old.cells.items world
            → left_after question.now self.new.met ≡ unseen world (left_after question.now self.old.met)) }
    {
        let wants: &[Want] = question.wants.as_slice();
        while (self.met as usize) < wants.len() {
            if !steps.is_seen(question, self.met as usize, &self.cells)? {
                return Ok(());
            }
            self.met += 1;
        }
        Ok(())
    }

    /// Begins with the cells of a world's nodes and messages.
    pub fn begin(&mut self, steps: &mut Steps, question: &Question, machine: &Machine) -> Mem<()>
        requires put { IsPut question.now }
        requires kept { AreKept question.now steps.old }
        requires reached { IsReachedBefore 0 question.now machine.now }
        requires cells { self.old.cells.items ≡ [] }
        requires dead { self.old.dead ≡ false }
        ensures grown { OnOk result (IsGrown question.now steps.old steps.new) }
        ensures same { IsMoved self.old self.new }
        ensures begun { OnOk result (IsNoted (tables_of steps.new) self.new machine.now) }
    {
        numbers_stay_small();
        self.place_nodes(steps, machine)?;
        for message in machine.messages() {
            let number = steps.place_message(message.copy()?)?;
            self.add(steps, number)?;
        }
        Ok(())
    }

    /// Takes the cells of a world's nodes, as if nothing was sent.
    fn place_nodes(&mut self, steps: &mut Steps, machine: &Machine) -> Mem<()>
        requires { self.old.cells.items ≡ [] }
        ensures grown { OnOk result (Grows steps.old steps.new) }
        ensures same { self.new ≡ record self.old { cells = self.new.cells } }
        ensures placed { OnOk result
            (AreOf (tables_of steps.new) self.new.cells.items (of_nodes machine.now.nodes)) }
    {
        for node in machine.nodes() {
            let cell = steps.place_node(node.copy()?)?;
            self.cells.push(cell)?;
        }
        Ok(())
    }
}
