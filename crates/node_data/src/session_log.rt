// The log of a node, with the last write of each session in it, and with what was told of it.
ghost use Rattle.std.specs.Prelude.{◌≡◌, ◌-◌, ◌<◌, ◌≤◌, ℕ, true, [], All, IfOk, IsSome, OnErr, OnOk};
ghost use Rattle.std.specs.FinMap as maps;
ghost use Rattle.oplog_entry.specs.Visible.{log_up_to};
ghost use Rattle.oplog_fetcher.specs.Fetch.{reply_to as answered};
ghost use Rattle.oplog_store.specs.Log.{IsOplog, with_entry};
ghost use Rattle.repl_msg.specs.Logs.{log_after};
ghost use Rattle.set_model.specs.Rollback.{optimes_of};
ghost use Rattle.set_model.specs.Sessions.{is_past, last_write, later_write};
ghost use Rattle.node_data.specs.SessionLog.{HasLastWrites};

use crate::told::{Told, optimes_of, told_again};
use bson_doc::Mem;
use oplog_entry::{Entry, Session};
use oplog_fetcher::{log_after, reply_to};
use oplog_store::OpenLog;
use repl_msg::{FetchReply, OptimeList};
use rs_optime::OpTime;
use set_model::LastWrite;
use std::alloc::Global;
use std::collections::BTreeMap;
use std::marker::Model;

/// A log whose slots may be open. Contracts see only the log.
///
/// It keeps the lists that it gave until it changes, so that whoever asks again gets the same list.
///
/// A primary has a table of sessions, and follows its writes in it. Another node drops the table when a
/// session's write comes or goes, and builds it again when it becomes primary. Where there is no memory for
/// it, the log is searched.
#[derive(Drop)]
pub(crate) struct SessionLog {
    alloc: Global,
    log: OpenLog,
    last: Option<SessionTable>,
    told: Told,
}

impl Model for SessionLog {
    ghost use Rattle.oplog_store.specs.Places.{LogWithHoles};
    ghost use Rattle.oplog_store.specs.Code.{log_with_holes_code};

    ghost Value = { LogWithHoles };

    ghost coded = { log_with_holes_code };

    ghost use Rattle.std.specs.Prelude.{IfSome};
    ghost use Rattle.node_data.specs.SessionLog.{HasLastWrites};
    ghost use Rattle.node_data.specs.Told.{IsTold};

    ghost view = { λ l. l.log };

    ghost invariant = { λ l. IfSome l.last (λ table. HasLastWrites table l.log.entries)
        × IsTold l.log.entries l.told };
}

/// The last write of each session.
#[derive(Drop)]
struct SessionTable {
    writes: BTreeMap<u32, LastWrite>,
}

impl Model for SessionTable {
    ghost use Rattle.std.specs.FinMap as maps;
    ghost use Rattle.node_data.specs.SessionLog.{Table, table_code};

    ghost Value = { Table };

    ghost coded = { table_code };

    ghost view = { λ t. maps.from_entries t.writes.entries };
}

impl SessionTable {
    /// No write.
    fn new(alloc: Global) -> Self
        ensures { result ≡ maps.empty }
    {
        SessionTable {
            writes: BTreeMap::new(alloc),
        }
    }

    /// The table of some entries.
    fn of(alloc: Global, entries: &[Entry]) -> Mem<Self>
        ensures { IfOk result (λ table. HasLastWrites table entries.now) }
    {
        let mut table = SessionTable::new(alloc);
        for entry in entries {
            table.add(entry.optime, entry.session)?;
        }
        Ok(table)
    }

    fn is_empty(&self) -> bool
        ensures { result ≡ true → self.now ≡ maps.empty }
    {
        self.writes.is_empty()
    }

    fn get(&self, id: u32) -> Option<LastWrite>
        ensures { result ≡ maps.get self.now id }
    {
        self.writes.get(&id).copied()
    }

    /// One more entry.
    fn add(&mut self, at: OpTime, session: Option<Session>) -> Mem<()>
        ensures { OnOk result ((id : ℕ)
            → maps.get self.new id ≡ later_write id (maps.get self.old id) at session) }
    {
        let Some(session) = session else {
            return Ok(());
        };
        if !is_past(self.get(session.id), session.number) {
            return Ok(());
        }
        let last = LastWrite {
            number: session.number,
            at,
        };
        self.writes.insert(session.id, last)?;
        Ok(())
    }
}

/// The last write of a session in some entries, by scanning them.
fn search(entries: &[Entry], id: u32) -> Option<LastWrite>
    ensures { result ≡ last_write id entries.now }
{
    let mut last = None;
    for entry in entries {
        last = later(id, last, entry);
    }
    last
}

/// The last write of a session with one more entry.
fn later(id: u32, last: Option<LastWrite>, entry: &Entry) -> Option<LastWrite>
    ensures { result ≡ later_write id last entry.now.optime entry.now.session }
{
    let Some(session) = entry.session else {
        return last;
    };
    if session.id == id && is_past(last, session.number) {
        Some(LastWrite {
            number: session.number,
            at: entry.optime,
        })
    } else {
        last
    }
}

/// Whether a number is greater than that of the last write.
fn is_past(last: Option<LastWrite>, number: u32) -> bool
    ensures { result ≡ is_past last number }
{
    match last {
        Some(last) => last.number < number,
        None => true,
    }
}

impl SessionLog {
    /// No entry.
    pub(crate) fn new(alloc: Global) -> Self
        ensures { result.entries ≡ [] }
    {
        SessionLog {
            alloc,
            log: OpenLog::new(alloc),
            last: Some(SessionTable::new(alloc)),
            told: Told::new(alloc),
        }
    }

    /// The log as it is read.
    pub(crate) fn written(&self) -> &OpenLog
        ensures { result.now ≡ self.now }
    {
        &self.log
    }

    /// The last write of a session in the log.
    pub(crate) fn last_write(&mut self, id: u32) -> Option<LastWrite>
        ensures last { result ≡ last_write id self.old.entries }
        ensures entries { self.new.entries ≡ self.old.entries }
        ensures spare { self.new.spare ≡ self.old.spare }
    {
        self.tabulate();
        if let Some(table) = &self.last {
            return table.get(id);
        }
        self.log.gather();
        search(self.log.settled().as_slice(), id)
    }

    /// Builds the table of sessions if it isn't there and there is memory for it.
    pub(crate) fn tabulate(&mut self)
        ensures entries { self.new.entries ≡ self.old.entries }
        ensures spare { self.new.spare ≡ self.old.spare }
    {
        if self.last.is_none() {
            self.log.gather();
            self.last = SessionTable::of(self.alloc, self.log.settled().as_slice()).ok();
        }
    }

    /// Makes room for this many entries, so that the log takes no memory for them.
    pub(crate) fn reserve(&mut self, more: usize) -> Mem<()>
        ensures entries { self.new.entries ≡ self.old.entries }
        ensures ok { OnOk result (more ≤ self.new.spare) }
        ensures never_less { self.old.spare ≤ self.new.spare }
        ensures err { OnErr result (self.new ≡ self.old) }
    {
        self.log.reserve(more)
    }

    /// Puts a primary's entry at its place, in the room that `reserve` made. A session's write comes after
    /// all others.
    pub(crate) fn insert(&mut self, entry: Entry)
        requires room { 0 < self.old.spare }
        requires stays { IsOplog (with_entry self.old.entries entry) }
        requires newest { IsSome entry.session
            → All (λ other. other.optime.ts < entry.optime.ts) self.old.entries }
        ensures entries { self.new.entries ≡ with_entry self.old.entries entry }
        ensures spare { self.new.spare ≡ self.old.spare - 1 }
    {
        let (at, session) = (entry.optime, entry.session);
        self.told.clear();
        self.log.insert(entry);
        if let Some(table) = &mut self.last {
            if table.add(at, session).is_err() {
                self.last = None;
            }
        }
    }

    /// Puts another node's entry at its place, in the room that `reserve` made.
    pub(crate) fn take_in(&mut self, entry: Entry)
        requires room { 0 < self.old.spare }
        requires stays { IsOplog (with_entry self.old.entries entry) }
        ensures entries { self.new.entries ≡ with_entry self.old.entries entry }
        ensures spare { self.new.spare ≡ self.old.spare - 1 }
    {
        let session = entry.session;
        self.told.clear();
        self.log.insert(entry);
        if session.is_some() {
            self.last = None;
        }
    }

    /// Keeps a place for the entry of a slot that opens after all others, if there is memory for it.
    pub(crate) fn open(&mut self, at: OpTime)
        ensures { self.new ≡ self.old }
    {
        self.log.open(at);
    }

    /// Gives up the place kept for the entry of a slot that closes.
    pub(crate) fn close(&mut self, at: OpTime)
        ensures entries { self.new.entries ≡ self.old.entries }
        ensures spare { self.new.spare ≡ self.old.spare }
    {
        self.log.close(at);
    }

    /// Brings all entries into one piece, which `settled` then lends.
    pub(crate) fn gather(&mut self)
        ensures { self.new
            ≡ record { entries = self.old.entries; settled = self.old.entries; spare = self.old.spare } }
    {
        self.log.gather();
    }

    /// Brings the entries up to an optime into one piece, which `settled` then lends.
    pub(crate) fn gather_up_to(&mut self, at: OpTime)
        ensures entries { self.new.entries ≡ self.old.entries }
        ensures spare { self.new.spare ≡ self.old.spare }
        ensures settled { log_up_to at self.new.settled ≡ log_up_to at self.old.entries }
    {
        self.log.gather_up_to(at);
    }

    /// Drops the entries after an optime.
    pub(crate) fn cut(&mut self, to: OpTime)
        ensures entries { self.new.entries ≡ log_up_to to self.old.entries }
        ensures spare { self.new.spare ≡ self.old.spare }
    {
        self.told.clear();
        self.log.cut(to);
        if let Some(table) = &self.last {
            if !table.is_empty() {
                self.last = None;
            }
        }
    }

    /// The answer to a fetch, as `oplog_fetcher` gives it. Out of memory is the one error.
    pub(crate) fn fetched(
        &mut self,
        visible: OpTime,
        base: OpTime,
        commit: OpTime,
        primary: bool,
    ) -> Mem<FetchReply>
        ensures reply { IfOk result (λ reply.
            reply ≡ answered self.old.entries visible base commit primary) }
        ensures entries { self.new.entries ≡ self.old.entries }
        ensures spare { self.new.spare ≡ self.old.spare }
    {
        if let Some(kept) = self.told.reply(visible, base) {
            return told_again(kept, commit, primary);
        }
        self.log.gather_up_to(visible);
        let settled = self.log.settled();
        let reply = reply_to(self.alloc, settled, visible, base, commit, primary)?;
        self.told.keep_reply(reply.copy()?);
        Ok(reply)
    }

    /// The optimes of the entries after an optime, up to another one. Out of memory is the one error.
    pub(crate) fn optimes_between(&mut self, after: OpTime, to: OpTime) -> Mem<OptimeList>
        ensures list { IfOk result (λ list.
            list ≡ optimes_of (log_after after (log_up_to to self.old.entries))) }
        ensures entries { self.new.entries ≡ self.old.entries }
        ensures spare { self.new.spare ≡ self.old.spare }
    {
        if let Some(kept) = self.told.optimes(after, to) {
            return kept.copy();
        }
        self.log.gather_up_to(to);
        let entries = log_after(self.log.settled().up_to(to), after);
        let optimes = optimes_of(self.alloc, entries)?;
        self.told.keep_optimes(after, to, optimes.copy()?);
        Ok(optimes)
    }
}
