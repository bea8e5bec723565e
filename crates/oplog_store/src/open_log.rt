ghost use Rattle.std.specs.Prelude.{◌≡◌, ◌≢◌, ◌+◌, ◌-◌, ◌<◌, ◌≤◌, [], All, Some, IfSome, IfNone, IfOk, OnOk, OnErr};
ghost use Rattle.std.specs.Option.{option_copied};
ghost use Rattle.oplog_entry.specs.Visible.{entries_before, last_of, log_up_to};
ghost use Rattle.oplog_store.specs.Log.{IsOplog, with_entry};
ghost use Rattle.oplog_store.specs.Places.{IsEntryAt};

use crate::Oplog;
use crate::places::{
    Place, begins_by, close, copy_written, entry_at, gather, last_before, open, put, settle,
};
use oplog_entry::Entry;
use rs_optime::{Mem, OpTime};
use std::alloc::{AllocError, Global};
use std::collections::VecDeque;
use std::marker::Model;

/// The oplog of a node whose slots may be open (MongoDB's "oplog holes"). A place is reserved for the entry
/// of each, so that it goes there without moving those after it. An entry without a place is still put
/// where it belongs.
#[derive(Drop)]
pub struct OpenLog {
    settled: Oplog,
    beyond: VecDeque<Place>,
    last: OpTime,
    spare: usize,
}

impl Model for OpenLog {
    ghost use Rattle.std.specs.Prelude.{◌++◌};
    ghost use Rattle.oplog_store.specs.Places.{LogWithHoles, written};
    ghost use Rattle.oplog_store.specs.Code.{log_with_holes_code};

    ghost Value = { LogWithHoles };

    ghost coded = { log_with_holes_code };

    ghost use Rattle.oplog_store.specs.Places.{IsLogWithHoles};

    ghost view = { λ o. record {
      entries = o.settled.entries ++ written o.beyond.items;
      settled = o.settled.entries;
      spare = o.spare;
    } };

    ghost invariant = { λ o. IsLogWithHoles o.settled o.beyond.items o.last o.spare };
}

/// Makes room for this many entries beyond those that the places take.
fn hold(settled: &mut Oplog, places: usize, more: usize) -> Mem<()>
    ensures entries { settled.new.entries ≡ settled.old.entries }
    ensures ok { OnOk result (more + places ≤ settled.new.spare) }
    ensures never_less { settled.old.spare ≤ settled.new.spare }
    ensures err { OnErr result (settled.new ≡ settled.old) }
{
    match more.checked_add(places) {
        Some(count) => settled.reserve(count),
        None => Err(AllocError),
    }
}

/// The later of the last entry's optime and that of another entry.
fn later(last: OpTime, at: OpTime) -> OpTime
    ensures later { last.ts ≤ at.ts → result ≡ at }
    ensures last { at.ts < last.ts → result ≡ last }
{
    if last.ts <= at.ts { at } else { last }
}

fn last_optime(entries: &[Entry]) -> OpTime
    ensures { result ≡ last_of entries.now }
{
    match entries.last() {
        Some(entry) => entry.optime,
        None => OpTime::ZERO,
    }
}

impl OpenLog {
    /// No entry.
    pub fn new(alloc: Global) -> Self
        ensures { result.entries ≡ [] }
    {
        OpenLog {
            settled: Oplog::new(alloc),
            beyond: VecDeque::new(alloc),
            last: OpTime::ZERO,
            spare: 0,
        }
    }

    /// Makes room for this many entries, so that `insert` takes no memory for them.
    pub fn reserve(&mut self, more: usize) -> Mem<()>
        ensures entries { self.new.entries ≡ self.old.entries }
        ensures ok { OnOk result (more ≤ self.new.spare) }
        ensures never_less { self.old.spare ≤ self.new.spare }
        ensures err { OnErr result (self.new ≡ self.old) }
    {
        if more <= self.spare {
            return Ok(());
        }
        hold(&mut self.settled, self.beyond.len(), more)?;
        self.spare = more;
        Ok(())
    }

    /// Puts an entry at its place, in the room that `reserve` made.
    pub fn insert(&mut self, entry: Entry)
        requires room { 0 < self.old.spare }
        requires stays { IsOplog (with_entry self.old.entries entry) }
        ensures entries { self.new.entries ≡ with_entry self.old.entries entry }
        ensures spare { self.new.spare ≡ self.old.spare - 1 }
    {
        self.spare -= 1;
        self.last = later(self.last, entry.optime);
        match put(&mut self.beyond, entry) {
            None => settle(&mut self.settled, &mut self.beyond),
            Some(entry) => {
                gather(&mut self.settled, &mut self.beyond);
                self.settled.insert(entry);
            }
        }
    }

    /// Reserves a place for the entry of a slot that opens after all others. Where memory runs out, none is
    /// reserved, and the log is the same.
    pub fn open(&mut self, at: OpTime)
        ensures { self.new ≡ self.old }
    {
        let Some(count) = self.spare.checked_add(1) else {
            return;
        };
        if hold(&mut self.settled, self.beyond.len(), count).is_ok() {
            open(&mut self.beyond, self.last, at);
        }
    }

    /// Gives up the place for the entry of a slot that closes.
    pub fn close(&mut self, at: OpTime)
        ensures entries { self.new.entries ≡ self.old.entries }
        ensures spare { self.new.spare ≡ self.old.spare }
    {
        close(&mut self.beyond, at);
        settle(&mut self.settled, &mut self.beyond);
    }

    /// Brings all entries into one piece, which `settled` then lends. No place is reserved any more.
    pub fn gather(&mut self)
        ensures { self.new
            ≡ record { entries = self.old.entries; settled = self.old.entries; spare = self.old.spare } }
    {
        gather(&mut self.settled, &mut self.beyond);
    }

    /// Brings the entries up to an optime into one piece, which `settled` then lends.
    pub fn gather_up_to(&mut self, at: OpTime)
        ensures entries { self.new.entries ≡ self.old.entries }
        ensures spare { self.new.spare ≡ self.old.spare }
        ensures settled { log_up_to at self.new.settled ≡ log_up_to at self.old.entries }
    {
        if begins_by(&self.beyond, at) {
            gather(&mut self.settled, &mut self.beyond);
        }
    }

    /// The entries that are in one piece: those before the first reserved place.
    pub fn settled(&self) -> &Oplog
        ensures { result.now.entries ≡ self.now.settled }
    {
        &self.settled
    }

    /// The entry with this optime.
    pub fn get(&self, at: OpTime) -> Option<&Entry>
        ensures found { IfSome (option_copied result) (λ entry. IsEntryAt self.now.entries at entry) }
        ensures none { IfNone result (All (λ entry. entry.optime ≢ at) self.now.entries) }
    {
        match self.settled.find(at) {
            Some(place) => self.settled.as_slice().get(place),
            None => entry_at(&self.beyond, at),
        }
    }

    /// Like `get`, but looks at a likely place first, and sets `likely` to the place after the entry.
    pub fn get_near(&self, likely: &mut usize, at: OpTime) -> Option<&Entry>
        ensures found { IfSome (option_copied result) (λ entry. IsEntryAt self.now.entries at entry) }
        ensures none { IfNone result (All (λ entry. entry.optime ≢ at) self.now.entries) }
    {
        match self.settled.find_near(*likely, at) {
            Some(place) => {
                *likely = place.wrapping_add(1);
                self.settled.as_slice().get(place)
            }
            None => entry_at(&self.beyond, at),
        }
    }

    /// The optime of the last entry, or ZERO where there is none.
    pub fn last(&self) -> OpTime
        ensures { result ≡ last_of self.now.entries }
    {
        self.last
    }

    /// The optime of the last entry before an optime, or ZERO where there is none.
    pub fn last_before(&self, at: OpTime) -> OpTime
        ensures { result ≡ last_of (entries_before (Some at) self.now.entries) }
    {
        last_before(&self.beyond, at, last_optime(self.settled.before(at)))
    }

    /// Copies of all entries, in their order.
    pub fn copies(&self, alloc: Global) -> Mem<Vec<Entry>>
        ensures { IfOk result (λ copies. copies.items ≡ self.now.entries) }
    {
        let mut copies = Vec::with_capacity(alloc, self.settled.len())?;
        for entry in self.settled.as_slice() {
            copies.push(entry.copy()?)?;
        }
        copy_written(&self.beyond, &mut copies)?;
        Ok(copies)
    }

    /// Drops the entries after an optime.
    pub fn cut(&mut self, to: OpTime)
        ensures entries { self.new.entries ≡ log_up_to to self.old.entries }
        ensures spare { self.new.spare ≡ self.old.spare }
    {
        gather(&mut self.settled, &mut self.beyond);
        self.settled.cut(to);
        self.last = self.settled.last();
    }
}
