// An answer to a fetch that a node takes.
ghost use Rattle.std.specs.Prelude.{◌≡◌, All, IfOk};
ghost use Rattle.oplog_entry.specs.Lawful.{IsLawful};

use bson_doc::Mem;
use oplog_entry::Entry;
use repl_msg::{EntryList, FetchReply};
use std::alloc::Global;
use std::marker::Model;

/// An answer to a fetch, with copies of its entries, which the node writes. Contracts see it as the answer.
#[derive(Drop)]
pub struct TakenReply {
    reply: FetchReply,
    entries: EntryList,
}

impl Model for TakenReply {
    ghost use Rattle.std.specs.Prelude.{◌≡◌};
    ghost use Rattle.repl_msg.specs.contracts.message.FetchReply.{the_row};
    ghost use Rattle.repl_msg.specs.declared.message.FetchReply.{FetchReply};

    ghost Value = { FetchReply };

    ghost coded = { the_row.coded };

    ghost view = { λ t. t.reply };

    ghost invariant = { λ t. t.entries ≡ t.reply.entries };
}

impl TakenReply {
    /// An answer, with copies of its entries. Out of memory is the one error.
    pub fn of(alloc: Global, reply: &FetchReply) -> Mem<Self>
        ensures { IfOk result (λ taken. taken ≡ reply.now) }
    {
        Ok(TakenReply {
            reply: reply.copy()?,
            entries: EntryList::of_slice(alloc, reply.entries.as_slice())?,
        })
    }

    /// The answer itself.
    pub fn reply(&self) -> &FetchReply
        ensures { result.now ≡ self.now }
    {
        &self.reply
    }

    /// The entries in their order.
    pub fn as_slice(&self) -> &[Entry]
        ensures entries { result.now ≡ self.now.entries }
        ensures lawful { All IsLawful result.now }
    {
        self.entries.as_slice()
    }

    /// The entries themselves.
    pub fn into_entries(self) -> Vec<Entry>
        ensures entries { result.items ≡ self.entries }
        ensures lawful { All IsLawful result.items }
    {
        self.entries.into_entries()
    }
}
