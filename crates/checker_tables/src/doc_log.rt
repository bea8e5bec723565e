// A log, with the documents that prefixes of it leave, and with what was told of it.
ghost use Rattle.std.specs.Prelude.{◌≡◌, ◌≤◌, ◌++◌, [], length, take, IfOk, OnOk, OnErr};
ghost use Rattle.std.specs.Option.{option_copied};
ghost use Rattle.std.specs.FinMap as maps;
ghost use Rattle.doc_shelf.specs.Shelf.{shelf_of};
ghost use Rattle.oplog_entry.specs.Docs.{docs};
ghost use Rattle.oplog_entry.specs.Visible.{log_up_to};
ghost use Rattle.oplog_fetcher.specs.Fetch.{reply_to as answered};
ghost use Rattle.oplog_store.specs.Log.{IsOplog, with_entry};
ghost use Rattle.repl_msg.specs.Logs.{log_after};
ghost use Rattle.set_model.specs.Rollback.{optimes_of};
ghost use Rattle.set_model.specs.Sessions.{last_write};

use crate::merging::append;
use crate::sessions::Sessions;
use crate::touches::Touches;
use bson_doc::{Doc, IdKey, Mem, Text};
use doc_shelf::Shelf;
use node_data::{Told, optimes_of, told_again};
use oplog_entry::Entry;
use oplog_fetcher::{log_after, reply_to};
use oplog_store::Oplog;
use repl_msg::{FetchReply, OptimeList};
use rs_optime::OpTime;
use set_model::LastWrite;
use std::alloc::Global;
use std::marker::Model;

/// A log, with the documents of two of its prefixes and the last write of each session. Each is brought up to
/// date when it is asked for, so each entry is applied to it once. Whoever asks again for the same entries or
/// optimes gets the same list, until the log changes.
#[derive(Drop)]
pub struct DocLog {
    log: Oplog,
    /// What a read at local shows.
    local: Shelf,
    /// What a read at majority shows.
    majority: Shelf,
    sessions: Sessions,
    touches: Touches,
    told: Told,
}

impl Model for DocLog {
    ghost use Rattle.std.specs.Prelude.{List};
    ghost use Rattle.std.specs.Coded.{coded_list};
    ghost use Rattle.oplog_entry.specs.declared.entry.Entry.{Entry};
    ghost use Rattle.oplog_entry.specs.contracts.entry.Entry.{the_row};
    ghost use Rattle.doc_shelf.specs.Shelf.{IsOfFront};
    ghost use Rattle.node_data.specs.Told.{IsTold};
    ghost use Rattle.checker_tables.specs.SessionTable.{IsTableOf};
    ghost use Rattle.checker_tables.specs.Touching.{EndAll};

    ghost Value = { List Entry };

    ghost coded = { coded_list the_row.coded };

    ghost view = { λ l. l.log.entries };

    ghost invariant = { λ l. IsTold l.log.entries l.told
        × IsOfFront l.log.entries l.local × IsOfFront l.log.entries l.majority
        × IsTableOf l.log.entries l.sessions × EndAll l.log.entries l.touches.ends };
}

impl DocLog {
    ghost use Rattle.std.specs.Borrow.{sem};
    ghost use Rattle.checker_tables.specs.Lending.{RestsSame};

    /// An empty log.
    pub fn new(alloc: Global) -> Self
        ensures { result ≡ [] }
    {
        DocLog {
            log: Oplog::new(alloc),
            local: Shelf::new(alloc),
            majority: Shelf::new(alloc),
            sessions: Sessions::new(alloc),
            touches: Touches::new(alloc),
            told: Told::new(alloc),
        }
    }

    /// The log itself.
    pub fn log(&self) -> &Oplog
        ensures { result.now.entries ≡ self.now }
    {
        &self.log
    }

    /// Puts an entry at its place. Out of memory leaves the log as it was.
    pub fn insert(&mut self, entry: Entry) -> Mem<()>
        requires { IsOplog (with_entry self.old entry) }
        ensures ok { OnOk result (self.new ≡ with_entry self.old entry) }
        ensures err { OnErr result (self.new ≡ self.old) }
    {
        self.log.reserve(1)?;
        let place = self.log.before(entry.optime).len();
        let is_apart = self.touches.is_apart(self.log.as_slice(), place, &entry);
        self.local
            .insert(self.log.as_slice(), place, &entry, is_apart);
        self.majority
            .insert(self.log.as_slice(), place, &entry, is_apart);
        self.sessions.insert(place, entry.session);
        self.touches.note(&entry);
        self.told.clear();
        self.log.insert(entry);
        Ok(())
    }

    /// Appends entries to the log. Out of memory leaves it as it was.
    pub fn append(&mut self, alloc: Global, entries: &[Entry]) -> Mem<()>
        requires { IsOplog (self.old ++ entries.now) }
        ensures ok { OnOk result (self.new ≡ self.old ++ entries.now) }
        ensures err { OnErr result (self.new ≡ self.old) }
    {
        append(alloc, &mut self.log, entries)?;
        self.told.clear();
        self.touches.note_all(entries);
        Ok(())
    }

    /// Drops the entries after an optime.
    pub fn cut(&mut self, to: OpTime)
        ensures { self.new ≡ log_up_to to self.old }
    {
        let count = self.log.up_to(to).len();
        self.local.back_to(self.log.as_slice(), count);
        self.majority.back_to(self.log.as_slice(), count);
        self.sessions.back_to(count);
        self.told.clear();
        self.log.cut(to);
    }

    /// The documents of the first `count` entries, as a read at local shows them.
    pub fn local(&mut self, count: usize) -> Mem<&Shelf>
        requires { count ≤ length self.old }
        ensures shelf { IfOk result (λ shelf. shelf.now ≡ shelf_of (take count self.old)) }
        ensures* same { sem 𝓛 (RestsSame self.entry) }
    {
        self.local.go_to(self.log.as_slice(), count)?;
        Ok(&self.local)
    }

    /// The documents of the first `count` entries, as a read at majority shows them.
    pub fn majority(&mut self, count: usize) -> Mem<&Shelf>
        requires { count ≤ length self.old }
        ensures shelf { IfOk result (λ shelf. shelf.now ≡ shelf_of (take count self.old)) }
        ensures* same { sem 𝓛 (RestsSame self.entry) }
    {
        self.majority.go_to(self.log.as_slice(), count)?;
        Ok(&self.majority)
    }

    /// The document at a place that the whole log leaves.
    pub fn latest(&mut self, place: &(Text, IdKey)) -> Mem<Option<&Doc>>
        ensures document { IfOk result (λ document.
            option_copied document ≡ maps.get (docs self.old) place.now) }
        ensures* same { sem 𝓛 (RestsSame self.entry) }
    {
        let count = self.log.len();
        Ok(self.local(count)?.get(place))
    }

    /// The last write of a session.
    pub fn last_write(&mut self, id: u32) -> Mem<Option<LastWrite>>
        ensures last { IfOk result (λ last. last ≡ last_write id self.old) }
        ensures same { self.new ≡ self.old }
    {
        self.sessions.last_write(self.log.as_slice(), id)
    }

    /// The answer to a fetch, as `oplog_fetcher` gives it. The only error is out of memory.
    pub fn fetched(
        &mut self,
        alloc: Global,
        visible: OpTime,
        base: OpTime,
        commit: OpTime,
        primary: bool,
    ) -> Mem<FetchReply>
        ensures reply { IfOk result (λ reply. reply ≡ answered self.old visible base commit primary) }
        ensures same { self.new ≡ self.old }
    {
        if let Some(kept) = self.told.reply(visible, base) {
            return told_again(kept, commit, primary);
        }
        let reply = reply_to(alloc, &self.log, visible, base, commit, primary)?;
        self.told.keep_reply(reply.copy()?);
        Ok(reply)
    }

    /// The optimes of the entries after an optime, up to another one. The only error is out of memory.
    pub fn optimes_between(&mut self, alloc: Global, after: OpTime, to: OpTime) -> Mem<OptimeList>
        ensures list { IfOk result (λ list.
            list ≡ optimes_of (log_after after (log_up_to to self.old))) }
        ensures same { self.new ≡ self.old }
    {
        if let Some(kept) = self.told.optimes(after, to) {
            return kept.copy();
        }
        let entries = log_after(self.log.up_to(to), after);
        let optimes = optimes_of(alloc, entries)?;
        self.told.keep_optimes(after, to, optimes.copy()?);
        Ok(optimes)
    }

    /// The same log once more, with the same ops. Its documents and sessions follow it from its beginning.
    pub fn copy(&self, alloc: Global) -> Mem<Self>
        ensures { IfOk result (λ log. log ≡ self.now) }
    {
        let mut log = DocLog::new(alloc);
        log.append(alloc, self.log.as_slice())?;
        Ok(log)
    }
}
