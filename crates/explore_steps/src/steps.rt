// Nodes and messages by numbers, and what is kept of what they do.
ghost use Rattle.std.specs.Prelude.{◌≡◌, ◌<◌, ◌⊎◌, [], true, false, ℕ, length, IfOk, IsFalse, IsTrue, OnOk, Some, List, slice_get};
ghost use Rattle.rs_optime.specs.Membership.{In};
ghost use Rattle.repl_msg.specs.declared.message.Message.{Message as SentMessage};
ghost use Rattle.set_model.specs.Node.{Node as ModelNode};
ghost use Rattle.explore_laws.specs.Alike.{AlikeNodes};
ghost use Rattle.explore_laws.specs.Dead.{is_dead as is_dead_at};
ghost use Rattle.explore_steps.specs.Keeping.{AreAdded, AreEmpty, AreKept, Grows};
ghost use Rattle.explore_steps.specs.Stepping.{IsAddition};
ghost use Rattle.explore_steps.specs.Tables.{AreNumbers, HasCell, IsCell, tables_of};

use crate::dead::is_dead;
use crate::deed::{Deed, Step};
use bson_doc::Mem;
use checker_node::Node;
use explore_tables::{Kept, ListTable, MessageTable, NodeTable, PairTable, has, with};
use explore_words::Question;
use repl_msg::Message;
use std::alloc::Global;

/// Nodes and messages by numbers, and what is kept of them. A cell is a node with the messages to it that
/// aren't dead: the number of the node, and that of a rising list of numbers of messages.
#[derive(Drop)]
pub struct Steps {
    pub(crate) alloc: Global,
    /// How many nodes the set has.
    pub(crate) size: u32,
    pub(crate) nodes: NodeTable,
    pub(crate) messages: MessageTable,
    pub(crate) lists: ListTable,
    pub(crate) cells: PairTable,
    pub(crate) deeds: Vec<Deed>,
    pub(crate) steps: Vec<Step>,
    /// Deeds, for each act: by nodes and places of lines.
    pub(crate) lines_at: Vec<Kept>,
    /// Deeds, by nodes and messages.
    pub(crate) messages_at: Kept,
    /// Steps, for each act: by cells and places of lines.
    pub(crate) lines_in: Vec<Kept>,
    /// Steps, by cells and messages.
    pub(crate) messages_in: Kept,
    /// What cells become by a message more, by cells and messages.
    pub(crate) additions: Kept,
    /// For each want: 1 where a look is met and else 0, by places of looks and nodes.
    pub(crate) sights: Vec<Kept>,
}

impl Steps {
    /// Nothing is kept yet.
    pub fn new(alloc: Global, question: &Question) -> Mem<Self>
        ensures { IfOk result (λ steps. AreKept question.now steps) }
    {
        let lines_at = tables(alloc, question.acts.as_slice().len())?;
        let lines_in = tables(alloc, question.acts.as_slice().len())?;
        let sights = tables(alloc, question.wants.as_slice().len())?;
        Ok(Steps {
            alloc,
            size: question.sizes.nodes,
            nodes: NodeTable::new(alloc),
            messages: MessageTable::new(alloc),
            lists: ListTable::new(alloc),
            cells: PairTable::new(alloc),
            deeds: Vec::new(alloc),
            steps: Vec::new(alloc),
            lines_at,
            messages_at: Kept::new(alloc),
            lines_in,
            messages_in: Kept::new(alloc),
            additions: Kept::new(alloc),
            sights,
        })
    }

    /// The message of a number.
    pub fn message(&self, number: u32) -> &Message
        requires { number < length self.now.messages }
        ensures { slice_get self.now.messages number ≡ Some result.now }
    {
        self.messages.get(number)
    }

    /// The numbers of the messages to a cell that aren't dead.
    pub fn live(&self, cell: u32) -> &[u32]
        requires { HasCell (tables_of self.now) cell }
        ensures { (node : ModelNode) (messages : List SentMessage)
            → IsCell (tables_of self.now) cell node messages
            → AreNumbers (tables_of self.now) result.now messages }
    {
        self.lists.get(self.cells.get(cell).1)
    }

    /// The node of a cell.
    pub fn node(&self, cell: u32) -> &Node
        requires { HasCell (tables_of self.now) cell }
        ensures { (node : ModelNode) (messages : List SentMessage)
            → IsCell (tables_of self.now) cell node messages → result.now ≡ node }
    {
        self.nodes.get(self.cells.get(cell).0)
    }

    /// The number of the node of a cell.
    pub(crate) fn node_number(&self, cell: u32) -> u32
        requires { cell < length self.now.cells }
        ensures { (list : ℕ) × (slice_get self.now.cells cell ≡ Some (result, list)) }
    {
        self.cells.get(cell).0
    }

    /// Whether a message that was sent is dead in a cell. One that isn't is mostly among the cell's own.
    pub(crate) fn is_dead(&self, cell: u32, message: u32) -> bool
        requires cell { HasCell (tables_of self.now) cell }
        requires message { message < length self.now.messages }
        ensures { (node : ModelNode) (messages : List SentMessage) (sent : SentMessage)
            → IsCell (tables_of self.now) cell node messages → slice_get self.now.messages message ≡ Some sent
            → (In sent messages → is_dead_at node sent ≡ false) → result ≡ is_dead_at node sent }
    {
        !has(self.live(cell), message) && is_dead(self.node(cell), self.message(message))
    }

    /// The number of a message.
    pub(crate) fn place_message(&mut self, message: Message) -> Mem<u32>
        ensures grown { OnOk result (Grows self.old self.new) }
        ensures there { IfOk result (λ number. slice_get self.new.messages number ≡ Some message) }
    {
        self.messages.place(message)
    }

    /// The cell of a node to which nothing was sent.
    pub(crate) fn place_node(&mut self, node: Node) -> Mem<u32>
        ensures grown { OnOk result (Grows self.old self.new) }
        ensures there { IfOk result (λ cell. (found : ModelNode) × IsCell (tables_of self.new) cell found []
            × AlikeNodes node found) }
    {
        let node = self.nodes.place(node)?;
        let none = self.lists.place(Vec::new(self.alloc))?;
        self.cells.place(node, none)
    }

    /// The cell with a message more, which may be dead.
    pub(crate) fn with_message(&mut self, cell: u32, message: u32) -> Mem<u32>
        requires added { AreAdded self.old }
        requires cell { HasCell (tables_of self.old) cell }
        requires message { message < length self.old.messages }
        ensures grown { OnOk result (Grows self.old self.new) }
        ensures added { IfOk result (λ new.
            (sent : SentMessage) → slice_get self.old.messages message ≡ Some sent
            → IsAddition (tables_of self.new) cell sent new) }
    {
        if let Some(added) = self.additions.find(cell, message) {
            return Ok(added);
        }
        let added = self.added(cell, message)?;
        self.additions.put(cell, message, added)?;
        Ok(added)
    }

    /// Whether the cell stays the same with a message more: it has that one, or it is dead.
    fn absorbs(&self, cell: u32, message: u32) -> bool
        requires cell { HasCell (tables_of self.now) cell }
        requires message { message < length self.now.messages }
        ensures same { IsTrue result → (node : ModelNode) (messages : List SentMessage) (sent : SentMessage)
            → IsCell (tables_of self.now) cell node messages → slice_get self.now.messages message ≡ Some sent
            → In sent messages ⊎ (is_dead_at node sent ≡ true) }
        ensures other { IsFalse result → (node : ModelNode) (messages : List SentMessage) (sent : SentMessage)
            → IsCell (tables_of self.now) cell node messages → slice_get self.now.messages message ≡ Some sent
            → is_dead_at node sent ≡ false }
    {
        has(self.live(cell), message) || is_dead(self.node(cell), self.message(message))
    }

    fn added(&mut self, cell: u32, message: u32) -> Mem<u32>
        requires cell { HasCell (tables_of self.old) cell }
        requires message { message < length self.old.messages }
        ensures grown { OnOk result (Grows self.old self.new) }
        ensures added { IfOk result (λ new.
            (sent : SentMessage) → slice_get self.old.messages message ≡ Some sent
            → IsAddition (tables_of self.new) cell sent new) }
    {
        if self.absorbs(cell, message) {
            return Ok(cell);
        }
        let live = with(self.alloc, self.live(cell), message)?;
        let list = self.lists.place(live)?;
        let node = self.node_number(cell);
        self.cells.place(node, list)
    }
}

/// So many tables in which nothing is kept yet.
fn tables(alloc: Global, count: usize) -> Mem<Vec<Kept>>
    ensures count { IfOk result (λ tables. length tables.items ≡ count) }
    ensures none { IfOk result (λ tables. AreEmpty tables.items) }
{
    let mut tables = Vec::new(alloc);
    for _place in 0..count {
        tables.push(Kept::new(alloc))?;
    }
    Ok(tables)
}
