// The last write of each session in a prefix of a log.
ghost use Rattle.std.specs.Prelude.{◌≡◌, ◌++◌, ◌∷◌, ◌<◌, ◌≤◌, ◌-◌, ◌^◌, ◌+◌, [], ℕ, List, None, length, insert, take, IfOk, OnOk, OnErr};
ghost use Rattle.oplog_entry.specs.declared.entry.Entry.{Entry};
ghost use Rattle.set_model.specs.Sessions.{last_write};
ghost use Rattle.checker_tables.specs.SessionTable.{IsTableOf, Counts, nothing_counted};

use crate::last_writes::LastWrites;
use bson_doc::Mem;
use oplog_entry::{Entry, Session};
use set_model::LastWrite;
use std::alloc::Global;
use std::marker::Model;

/// The last write of each session in the first `count` entries of a log.
#[derive(Drop)]
pub(crate) struct Sessions {
    alloc: Global,
    last: LastWrites,
    count: usize,
}

impl Model for Sessions {
    ghost use Rattle.checker_tables.specs.SessionTable.{Table, table_code};

    ghost Value = { Table };

    ghost coded = { table_code };

    ghost view = { λ s. record { writes = s.last; count = s.count } };
}

impl Sessions {
    /// No entry is counted.
    pub(crate) fn new(alloc: Global) -> Self
        ensures { result ≡ nothing_counted }
    {
        Sessions {
            alloc,
            last: LastWrites::new(alloc),
            count: 0,
        }
    }

    /// How many entries are counted.
    fn count(&self) -> usize
        ensures { result ≡ self.now.count }
    {
        self.count
    }

    /// No entry is counted any more.
    fn clear(&mut self)
        ensures { self.new ≡ nothing_counted }
    {
        *self = Sessions::new(self.alloc);
    }

    /// Forgets the entries after the first `kept`, if more are counted: the table is then built again.
    pub(crate) fn back_to(&mut self, kept: usize)
        ensures { (log other : List Entry) → take kept other ≡ take kept log → IsTableOf log self.old
            → IsTableOf other self.new }
    {
        if self.count() <= kept {
            return;
        }
        self.clear();
    }

    /// An entry of this session, or of none, is put into the log at a place.
    pub(crate) fn insert(&mut self, place: usize, session: Option<Session>)
        ensures { (log : List Entry) (entry : Entry) → entry.session ≡ session → place ≤ length log
            → IsTableOf log self.old → IsTableOf (insert log place entry) self.new }
    {
        if self.count() <= place {
            return;
        }
        if session.is_some() {
            self.back_to(place);
            return;
        }
        self.insert_idle();
    }

    /// An entry of no session is put into the log among those that are counted.
    fn insert_idle(&mut self)
        ensures { (log : List Entry) (place : ℕ) (entry : Entry) → entry.session ≡ None
            → place < self.old.count → IsTableOf log self.old → IsTableOf (insert log place entry) self.new }
    {
        let Some(count) = self.count.checked_add(1) else {
            self.clear();
            return;
        };
        self.count = count;
    }

    /// The last write of a session in all of these entries, of which the table's are the first.
    pub(crate) fn last_write(&mut self, entries: &[Entry], id: u32) -> Mem<Option<LastWrite>>
        requires { IsTableOf entries.now self.old }
        ensures last { IfOk result (λ last. last ≡ last_write id entries.now) }
        ensures table { IsTableOf entries.now self.new }
    {
        for place in self.count..entries.len() {
            self.add(&entries[place])?;
        }
        Ok(self.last.get(id))
    }

    /// Counts one more entry. Out of memory leaves the table as it was.
    fn add(&mut self, entry: &Entry) -> Mem<()>
        requires { self.old.count < 2 ^ 64 - 1 }
        ensures ok { OnOk result ((log : List Entry) → Counts log self.old
            → Counts (log ++ entry.now ∷ []) self.new) }
        ensures count { OnOk result (self.new.count ≡ self.old.count + 1) }
        ensures err { OnErr result (self.new ≡ self.old) }
    {
        self.last.add(entry.optime, entry.session)?;
        self.count += 1;
        Ok(())
    }
}
