// The messages of all states, each once.
ghost use Rattle.std.specs.Prelude.{◌≡◌, ◌<◌, [], length, IfOk, IfSome, Some, slice_get};
ghost use Rattle.explore_tables.specs.Growing.{AddsAtMost};

use crate::content::{message_hash, same_message};
use crate::index::Index;
use crate::numbers::number_of;
use bson_doc::Mem;
use repl_msg::Message;
use std::alloc::Global;
use std::marker::Model;

/// Messages by numbers.
#[derive(Drop)]
pub struct MessageTable {
    messages: Vec<Message>,
    index: Index,
}

impl Model for MessageTable {
    ghost use Rattle.std.specs.Prelude.{◌≤◌, List, length};
    ghost use Rattle.std.specs.Coded.{coded_list};
    ghost use Rattle.repl_msg.specs.declared.message.Message.{Message};
    ghost use Rattle.repl_msg.specs.contracts.message.Message.{the_row};

    ghost Value = { List Message };

    ghost coded = { coded_list the_row.coded };

    ghost view = { λ t. t.messages.items };

    ghost invariant = { λ t. t.index ≤ length t.messages.items };
}

impl MessageTable {
    /// No message.
    pub fn new(alloc: Global) -> Self
        ensures { result ≡ [] }
    {
        MessageTable {
            messages: Vec::new(alloc),
            index: Index::new(alloc),
        }
    }

    /// The message of this number.
    pub fn get(&self, number: u32) -> &Message
        requires { number < length self.now }
        ensures { slice_get self.now number ≡ Some result.now }
    {
        &self.messages[number as usize]
    }

    /// The number of this message, which is added where none is found. The only error is out of memory.
    pub fn place(&mut self, message: Message) -> Mem<u32>
        ensures grown { AddsAtMost message self.old self.new }
        ensures there { IfOk result (λ number. slice_get self.new number ≡ Some message) }
    {
        let hash = message_hash(&message);
        if let Some(number) = self.find(&message, hash) {
            return Ok(number);
        }
        let number = number_of(self.messages.len())?;
        self.messages.push(message)?;
        self.index.add(hash)?;
        Ok(number)
    }

    fn find(&self, message: &Message, hash: u32) -> Option<u32>
        ensures { IfSome result (λ number. slice_get self.now number ≡ Some message.now) }
    {
        let mut link = self.index.newest(hash);
        while link > 0 {
            if same_message(&self.messages[link as usize - 1], message) {
                return Some(link - 1);
            }
            link = self.index.older(link, hash);
        }
        None
    }
}
