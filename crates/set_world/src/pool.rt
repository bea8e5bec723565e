ghost use Rattle.std.specs.Prelude.{◌≡◌, ◌<◌, ◌≤◌, ◌+◌, ◌++◌, ◌∷◌, [], All, Contains, length, None, IfNone, IfSome, OnOk, Some, slice_get};
ghost use Rattle.set_model.specs.World.{latest_between};
ghost use Rattle.set_world.specs.Pool.{IsBetweenNodes};

use bson_doc::Mem;
use repl_msg::Message;
use std::alloc::Global;
use std::collections::HashMap;
use std::marker::Model;

/// All messages that were sent. The newest from one node to another is found without a search.
#[derive(Drop)]
pub(crate) struct Pool {
    nodes: u32,
    messages: Vec<Message>,
    /// The place of the newest from one node to another, if there is one.
    newest: HashMap<(u32, u32), usize>,
}

impl Model for Pool {
    ghost use Rattle.std.specs.Prelude.{◌-◌, min, vec_len, vec_capacity};
    ghost use Rattle.std.specs.Coded.{codes};
    ghost use Rattle.std.specs.HashMap.{spare};
    ghost use Rattle.repl_msg.specs.contracts.message.Message as message;
    ghost use Rattle.set_world.specs.Pool.{Pool as Seen};

    ghost Value = { Seen };

    ghost coded = { Prim.hlevel (codes, message.the_row.coded) };

    ghost use Rattle.set_world.specs.Pool.{IsIndexed};

    ghost view = { λ p. record {
      nodes = p.nodes;
      messages = p.messages.items;
      spare = min (vec_capacity p.messages - vec_len p.messages) (spare p.newest);
    } };

    ghost invariant = { λ p. IsIndexed p.nodes p.messages.items p.newest.entries };
}

impl Pool {
    /// No message yet, between this many nodes.
    pub(crate) fn new(alloc: Global, nodes: u32) -> Self
        ensures nodes { result.nodes ≡ nodes }
        ensures messages { result.messages ≡ [] }
    {
        Pool {
            nodes,
            messages: Vec::new(alloc),
            newest: HashMap::new(alloc),
        }
    }

    pub(crate) fn len(&self) -> usize
        ensures { result ≡ length self.now.messages }
    {
        self.messages.len()
    }

    /// Makes room for this many messages, so that `add` takes no memory for them.
    pub(crate) fn reserve(&mut self, more: usize) -> Mem<()>
        ensures nodes { self.new.nodes ≡ self.old.nodes }
        ensures messages { self.new.messages ≡ self.old.messages }
        ensures room { OnOk result (more ≤ self.new.spare) }
    {
        self.messages.reserve(more)?;
        self.newest.reserve(more)
    }

    /// The message of this number.
    #[tactic(auto, using(crate::proofs::NodesLemmas::among))]
    pub(crate) fn get(&self, number: u64) -> Option<&Message>
        ensures some { IfSome result (λ message. slice_get self.now.messages number ≡ Some message.now) }
        ensures none { IfNone result (slice_get self.now.messages number ≡ None) }
        ensures sent { IfSome result (λ message. Contains self.now.messages message.now) }
    {
        let message = self.messages.get(number as usize)?;
        Some(message)
    }

    /// The newest message from one node to another.
    pub(crate) fn latest(&self, from: u32, to: u32) -> Option<&Message>
        ensures some { IfSome result (λ message.
            latest_between self.now.messages from to ≡ Some message.now) }
        ensures none { IfNone result (latest_between self.now.messages from to ≡ None) }
        ensures sent { IfSome result (λ message. Contains self.now.messages message.now) }
    {
        let place = self.newest.get(&(from, to)).copied()?;
        Some(&self.messages[place])
    }

    /// Adds messages in the room that `reserve` made.
    pub(crate) fn add(&mut self, sent: Vec<Message>)
        requires room { length sent.items ≤ self.old.spare }
        requires between { All (IsBetweenNodes self.old.nodes) sent.items }
        ensures nodes { self.new.nodes ≡ self.old.nodes }
        ensures messages { self.new.messages ≡ self.old.messages ++ sent.items }
    {
        for message in sent {
            self.put(message);
        }
    }

    fn put(&mut self, message: Message)
        requires room { 0 < self.old.spare }
        requires between { IsBetweenNodes self.old.nodes message }
        ensures nodes { self.new.nodes ≡ self.old.nodes }
        ensures messages { self.new.messages ≡ self.old.messages ++ message ∷ [] }
        ensures spare { self.old.spare ≤ self.new.spare + 1 }
    {
        let place = self.messages.len();
        let pair = (message.from, message.to);
        match self.messages.push(message) {
            Ok(()) => {}
            Err(_) => unreachable!(),
        }
        match self.newest.insert(pair, place) {
            Ok(_) => {}
            Err(_) => unreachable!(),
        }
    }
}
