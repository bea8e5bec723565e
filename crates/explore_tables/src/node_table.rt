// The nodes of all states, each once.
ghost use Rattle.std.specs.Prelude.{◌≡◌, ◌<◌, [], length, IfOk, IfSome, Some, slice_get};
ghost use Rattle.explore_tables.specs.Alike.{HasAlike};
ghost use Rattle.explore_tables.specs.Growing.{AddsAtMost};

use crate::hashing::folded;
use crate::index::Index;
use crate::numbers::number_of;
use bson_doc::Mem;
use checker_node::Node;
use std::alloc::Global;
use std::marker::Model;

/// Nodes by numbers. One that is alike another mostly has the other's number.
#[derive(Drop)]
pub struct NodeTable {
    nodes: Vec<Node>,
    index: Index,
}

impl Model for NodeTable {
    ghost use Rattle.std.specs.Prelude.{◌≤◌, List, length};
    ghost use Rattle.std.specs.Coded.{coded_list};
    ghost use Rattle.set_model.specs.Node.{Node as Seen};
    ghost use Rattle.checker_node.specs.contracts.node.Node.{the_row};

    ghost Value = { List Seen };

    ghost coded = { coded_list the_row.coded };

    ghost view = { λ t. t.nodes.items };

    ghost invariant = { λ t. t.index ≤ length t.nodes.items };
}

impl NodeTable {
    /// No node.
    pub fn new(alloc: Global) -> Self
        ensures { result ≡ [] }
    {
        NodeTable {
            nodes: Vec::new(alloc),
            index: Index::new(alloc),
        }
    }

    /// The node of this number.
    pub fn get(&self, number: u32) -> &Node
        requires { number < length self.now }
        ensures { slice_get self.now number ≡ Some result.now }
    {
        &self.nodes[number as usize]
    }

    /// The number of a node that is alike. This node is added where none is found. The only error is out of
    /// memory.
    pub fn place(&mut self, node: Node) -> Mem<u32>
        ensures grown { AddsAtMost node self.old self.new }
        ensures there { IfOk result (λ number. HasAlike self.new number node) }
    {
        let hash = folded(node.hash());
        if let Some(number) = self.find(&node, hash) {
            return Ok(number);
        }
        let number = number_of(self.nodes.len())?;
        self.nodes.push(node)?;
        self.index.add(hash)?;
        Ok(number)
    }

    fn find(&self, node: &Node, hash: u32) -> Option<u32>
        ensures { IfSome result (λ number. HasAlike self.now number node.now) }
    {
        let mut link = self.index.newest(hash);
        while link > 0 {
            if node.same(&self.nodes[link as usize - 1]) {
                return Some(link - 1);
            }
            link = self.index.older(link, hash);
        }
        None
    }
}
