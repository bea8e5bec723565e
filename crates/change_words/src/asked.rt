// Whose changes are asked for.
ghost use Rattle.std.specs.Prelude.{◌≡◌, ◌≤◌, ◌∷◌, [], ◌++◌, IfOk, IfSome, OnOk, map, string_bytes};
ghost use Rattle.change_words.specs.Asked.{digit_of, node_of, nodes_of, start_of, watch_of};

use crate::tokens::token_of;
use bson_doc::{Mem, Text};
use rs_optime::OpTime;
use script_words::is_collection;
use std::alloc::Global;
use std::marker::Model;

/// Changes that are asked for.
#[derive(Drop)]
pub struct Watch {
    /// The collection whose changes are told.
    pub collection: Text,
    /// They begin after this optime.
    pub token: OpTime,
    /// The nodes that are asked, one after another.
    pub nodes: NodeNumbers,
}

/// Numbers of nodes.
#[derive(Drop)]
pub struct NodeNumbers {
    numbers: Vec<u32>,
}

impl Model for NodeNumbers {
    ghost use Rattle.std.specs.Prelude.{ℕ, List};
    ghost use Rattle.std.specs.Coded.{codes};

    ghost Value = { List ℕ };

    ghost coded = { Prim.hlevel codes };

    ghost view = { λ n. n.numbers.items };
}

impl NodeNumbers {
    /// No node.
    fn new(alloc: Global) -> Self
        ensures { result ≡ [] }
    {
        NodeNumbers {
            numbers: Vec::new(alloc),
        }
    }

    /// The numbers in their order.
    pub fn as_slice(&self) -> &[u32]
        ensures { result.now ≡ self.now }
    {
        &self.numbers
    }

    /// Adds the next number.
    fn push(&mut self, number: u32) -> Mem<()>
        ensures { OnOk result (self.new ≡ self.old ++ number ∷ []) }
    {
        self.numbers.push(number)?;
        Ok(())
    }
}

/// The changes that some words ask for; none where the words are wrong.
pub fn read_watch(
    alloc: Global,
    collection: &str,
    token: &str,
    nodes: &[String],
) -> Mem<Option<Watch>>
    ensures { IfOk result (λ watch.
        watch ≡ watch_of collection.now token.now (map string_bytes nodes.now)) }
{
    if !is_collection(collection.as_bytes()) || nodes.is_empty() || nodes.len() > 50 {
        return Ok(None);
    }
    let Some(token) = start_of(token) else {
        return Ok(None);
    };
    let Some(nodes) = read_nodes(alloc, nodes)? else {
        return Ok(None);
    };
    Ok(Some(Watch {
        collection: Text::from_str(alloc, collection)?,
        token,
        nodes,
    }))
}

/// `start`, or a token.
fn start_of(word: &str) -> Option<OpTime>
    ensures { result ≡ start_of word.now }
{
    match word {
        "start" => Some(OpTime::ZERO),
        _ => token_of(word.as_bytes()),
    }
}

fn read_nodes(alloc: Global, words: &[String]) -> Mem<Option<NodeNumbers>>
    ensures { IfOk result (λ nodes. nodes ≡ nodes_of (map string_bytes words.now)) }
{
    let mut nodes = NodeNumbers::new(alloc);
    for word in words {
        let Some(node) = node_of(word.as_bytes()) else {
            return Ok(None);
        };
        nodes.push(node)?;
    }
    Ok(Some(nodes))
}

/// The number of a node, written as `n` and one or two digits; none for another word.
pub fn node_of(word: &[u8]) -> Option<u32>
    ensures { result ≡ node_of word.now }
{
    match word {
        [b'n', one] => digit_of(*one),
        [b'n', ten, one] => Some(digit_of(*ten)? * 10 + digit_of(*one)?),
        _ => None,
    }
}

fn digit_of(byte: u8) -> Option<u32>
    ensures digit { result ≡ digit_of byte }
    ensures small { IfSome result (λ digit. digit ≤ 9) }
{
    if byte.is_ascii_digit() {
        Some(u32::from(byte - b'0'))
    } else {
        None
    }
}
