// All messages that were sent.
ghost use Rattle.std.specs.Prelude.{◌≡◌, ◌++◌, ◌∷◌, [], length, IfOk, OnOk, slice_get};
ghost use Rattle.std.specs.Option.{option_copied};
ghost use Rattle.set_model.specs.World.{latest_between};
ghost use Rattle.checker_machine.specs.Newest.{IsNewest, pair_of};

use bson_doc::Mem;
use repl_msg::Message;
use std::alloc::Global;
use std::collections::BTreeMap;
use std::marker::Model;

/// The messages, oldest first, and the place of the newest from one node to another.
#[derive(Drop)]
pub(crate) struct Pool {
    messages: Vec<Message>,
    newest: BTreeMap<u64, usize>,
}

impl Model for Pool {
    ghost use Rattle.std.specs.Prelude.{List};
    ghost use Rattle.std.specs.Coded.{coded_list};
    ghost use Rattle.std.specs.FinMap as maps;
    ghost use Rattle.repl_msg.specs.declared.message.Message.{Message};
    ghost use Rattle.repl_msg.specs.contracts.message.Message.{the_row};
    ghost use Rattle.checker_machine.specs.Newest.{AreNewest};

    ghost Value = { List Message };

    ghost coded = { coded_list the_row.coded };

    ghost view = { λ p. p.messages.items };

    ghost invariant = { λ p. AreNewest p.messages.items (maps.from_entries p.newest.entries) };
}

/// One number for two nodes.
fn pair_of(from: u32, to: u32) -> u64
    ensures { result ≡ pair_of from to }
{
    from as u64 * 4_294_967_296 + to as u64
}

impl Pool {
    pub(crate) fn new(alloc: Global) -> Self
        ensures { result ≡ [] }
    {
        Pool {
            messages: Vec::new(alloc),
            newest: BTreeMap::new(alloc),
        }
    }

    pub(crate) fn len(&self) -> usize
        ensures { result ≡ length self.now }
    {
        self.messages.len()
    }

    pub(crate) fn as_slice(&self) -> &[Message]
        ensures { result.now ≡ self.now }
    {
        &self.messages
    }

    /// The message of this number.
    pub(crate) fn get(&self, number: u64) -> Option<&Message>
        ensures { option_copied result ≡ slice_get self.now number }
    {
        self.messages.get(number as usize)
    }

    /// The newest message from one node to another.
    pub(crate) fn latest(&self, from: u32, to: u32) -> Option<&Message>
        ensures { option_copied result ≡ latest_between self.now from to }
    {
        match self.place(from, to) {
            Some(place) => self.messages.get(place),
            None => None,
        }
    }

    /// The place of that one.
    fn place(&self, from: u32, to: u32) -> Option<usize>
        ensures { IsNewest self.now from to result }
    {
        self.newest.get(&pair_of(from, to)).copied()
    }

    /// Adds messages.
    pub(crate) fn add(&mut self, sent: Vec<Message>) -> Mem<()>
        ensures { OnOk result (self.new ≡ self.old ++ sent.items) }
    {
        for message in sent {
            self.put(message)?;
        }
        Ok(())
    }

    /// The same messages once more, with the same ops.
    pub(crate) fn copy(&self) -> Mem<Self>
        ensures { IfOk result (λ pool. pool ≡ self.now) }
    {
        let newest = self.newest.clone()?;
        let mut messages = Vec::with_capacity(*self.messages.allocator(), self.messages.len())?;
        for message in &self.messages {
            messages.push(message.copy()?)?;
        }
        Ok(Pool { messages, newest })
    }

    fn put(&mut self, message: Message) -> Mem<()>
        ensures { OnOk result (self.new ≡ self.old ++ message ∷ []) }
    {
        self.messages.reserve(1)?;
        let pair = pair_of(message.from, message.to);
        let place = self.messages.len();
        self.newest.insert(pair, place)?;
        match self.messages.push(message) {
            Ok(()) => Ok(()),
            Err(_) => unreachable!(),
        }
    }
}
