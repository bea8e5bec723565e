// A log that isn't writable, and how far it is applied.
ghost use Rattle.std.specs.Prelude.{◌≡◌, ◌⊎◌, ◌-◌, ◌<◌, ◌≤◌, ◌++◌, false, true, All, length, take, IfOk, OnOk, OnErr};
ghost use Rattle.entry_bytes.specs.Sizes.{IsWithinEntry};
ghost use Rattle.oplog_entry.specs.Visible.{ZERO, last_of, log_up_to};
ghost use Rattle.oplog_store.specs.Log.{IsOplog};
ghost use Rattle.rs_optime.specs.Order.{is_before};
ghost use Rattle.rs_optime.specs.declared.optime.OpTime.{OpTime};
ghost use Rattle.set_model.specs.Disk.{next_batch};
ghost use Rattle.set_model.specs.Fetching.{seen_after, with_fetched};
ghost use Rattle.set_model.specs.Points.{applied_point, has_entry, last_point, later_of, log_after};
ghost use Rattle.set_model.specs.Roles.{is_primary};
ghost use Rattle.node_data.specs.NodeData.{applied_at, applied_with};
ghost use Rattle.node_data.specs.Versions.{AreSmall};

use crate::NodeData;
use crate::session_log::SessionLog;
use batch_applier::{NoGate, apply_batch};
use bson_doc::Mem;
use oplog_entry::Entry;
use optime_slots::Slots;
use rs_optime::OpTime;
use std::thread::Threads;

/// The most entries that are applied at once.
const BATCH: usize = 5_000;

/// How many workers apply a batch that nobody waits for.
const WORKERS: u32 = 4;

/// Appends entries to a log, in the room that there is.
pub(crate) fn insert_all(log: &mut SessionLog, slots: &mut Slots, entries: Vec<Entry>)
    requires room { length entries.items ≤ log.old.spare }
    requires stays { IsOplog (log.old.entries ++ entries.items) }
    ensures entries { log.new.entries ≡ log.old.entries ++ entries.items }
    ensures spare { log.new.spare ≡ log.old.spare - length entries.items }
    ensures slots { slots.new
        ≡ record { slots = slots.old.slots; mark = seen_after slots.old.mark entries.items } }
{
    for entry in entries {
        slots.seen(entry.optime.ts);
        log.take_in(entry);
    }
}

impl NodeData {
    /// Appends entries to a log that isn't writable, in the room that `reserve` made. They aren't applied
    /// yet.
    pub fn append(&mut self, entries: Vec<Entry>)
        requires role { is_primary self.old.node.role ≡ false }
        requires spare { length entries.items ≤ self.old.spare }
        requires oplog { IsOplog (self.old.node.log ++ entries.items) }
        requires later { All (λ entry. is_before (last_point self.old.node) entry.optime ≡ true)
            entries.items }
        requires within { All IsWithinEntry entries.items }
        requires small { AreSmall (self.old.node.log ++ entries.items) }
        ensures node { self.new.node ≡ with_fetched self.old.node entries.items }
        ensures spare { self.new.spare ≡ self.old.spare - length entries.items }
    {
        insert_all(&mut self.log, &mut self.slots, entries);
    }

    /// Applies the next batch, of at most 5,000 entries, by this many workers. The result is how many entries
    /// there were. Out of memory leaves all as it was.
    pub fn apply<R: Threads + Sync>(&mut self, rt: &R, workers: u32) -> Mem<usize>
        requires role { is_primary self.old.node.role ≡ false }
        requires workers { (0 < workers) × (workers ≤ 16) }
        ensures count { IfOk result (λ count. count ≡ length (next_batch self.old.node)) }
        ensures ok { OnOk result (self.new ≡ applied_with self.old (next_batch self.old.node)) }
        ensures err { OnErr result (self.new ≡ self.old) }
    {
        self.apply_next(rt, workers, BATCH)
    }

    /// Applies all entries up to an optime that aren't applied yet, batch by batch. Out of memory leaves
    /// everything as it was.
    pub fn apply_to<R: Threads + Sync>(&mut self, rt: &R, to: OpTime) -> Mem<()>
        requires { is_primary self.old.node.role ≡ false }
        ensures ok { OnOk result (self.new ≡ applied_at self.old
            (later_of self.old.node.applied (last_of (log_up_to to self.old.node.log)))) }
        ensures err { OnErr result (self.new ≡ self.old) }
    {
        self.recall_sound();
        let start = self.applied();
        let count = self.count_unapplied(to);
        let done = self.apply_batches(rt, count);
        if done.is_err() {
            self.unapply(start);
        }
        done
    }

    /// How many entries up to an optime aren't applied.
    fn count_unapplied(&mut self, to: OpTime) -> usize
        ensures count { result ≡ length (log_up_to to self.old.node.log)
            - length (log_up_to self.old.node.applied self.old.node.log) }
        ensures same { self.new ≡ self.old }
    {
        self.log.gather();
        let log = self.log.written().settled();
        log.up_to(to)
            .len()
            .saturating_sub(log.up_to(self.applied).len())
    }

    /// Applies the next `count` entries, batch by batch. Where memory runs out, some first ones of them are
    /// applied.
    fn apply_batches<R: Threads + Sync>(&mut self, rt: &R, count: usize) -> Mem<()>
        requires role { is_primary self.old.node.role ≡ false }
        requires there { count ≤ length (log_after self.old.node.applied self.old.node.log) }
        ensures ok { OnOk result (self.new
            ≡ applied_with self.old (take count (log_after self.old.node.applied self.old.node.log))) }
        ensures begun { (at : OpTime) × (self.new ≡ applied_at self.old at)
            × (is_before at self.old.node.applied ≡ false) }
    {
        self.recall_sound();
        let mut left = count;
        while left > 0 {
            left -= self.apply_next(rt, WORKERS, left.min(BATCH))?;
        }
        Ok(())
    }

    /// Applies the next entries, up to a limit, by this many workers. The result is how many there were.
    fn apply_next<R: Threads + Sync>(&mut self, rt: &R, workers: u32, most: usize) -> Mem<usize>
        requires role { is_primary self.old.node.role ≡ false }
        requires workers { (0 < workers) × (workers ≤ 16) }
        requires most { most ≤ 5000 }
        ensures count { IfOk result (λ count.
            count ≡ length (take most (log_after self.old.node.applied self.old.node.log))) }
        ensures ok { OnOk result (self.new
            ≡ applied_with self.old (take most (log_after self.old.node.applied self.old.node.log))) }
        ensures err { OnErr result (self.new ≡ self.old) }
    {
        self.log.gather();
        let entries = self.log.written().settled().after(self.applied);
        let batch = &entries[..most.min(entries.len())];
        let Some(last) = batch.last() else {
            return Ok(0);
        };
        let at = last.optime;
        let count = batch.len();
        apply_batch(rt, &mut self.store, batch, workers, &NoGate)?;
        self.applied = at;
        Ok(count)
    }

    /// Drops the entries after a point, which is an applied entry's optime or ZERO, and returns the
    /// documents to it.
    pub fn cut(&mut self, point: OpTime)
        requires role { is_primary self.old.node.role ≡ false }
        requires kept { is_before point self.old.node.stable ≡ false }
        requires applied { is_before self.old.node.applied point ≡ false }
        requires point { (point ≡ ZERO) ⊎ (has_entry self.old.node.log point ≡ true) }
        ensures node { self.new.node
            ≡ record self.old.node { log = log_up_to point self.old.node.log; applied = point } }
        ensures spare { self.old.spare ≤ self.new.spare }
    {
        self.unapply(point);
        self.drop_unapplied();
    }

    /// Returns the documents to their state at an optime; the entries after it count as not applied.
    fn unapply(&mut self, at: OpTime)
        requires role { is_primary self.old.node.role ≡ false }
        requires kept { is_before at self.old.node.stable ≡ false }
        requires applied { is_before self.old.node.applied at ≡ false }
        ensures { self.new ≡ applied_at self.old at }
    {
        self.store.back_to(at);
        self.applied = at;
    }

    /// Drops the entries that aren't applied.
    fn drop_unapplied(&mut self)
        requires role { is_primary self.old.node.role ≡ false }
        requires point { (self.old.node.applied ≡ ZERO)
            ⊎ (has_entry self.old.node.log self.old.node.applied ≡ true) }
        ensures node { self.new.node
            ≡ record self.old.node { log = log_up_to self.old.node.applied self.old.node.log } }
        ensures spare { self.old.spare ≤ self.new.spare }
    {
        self.log.cut(self.applied);
    }

    /// Lists what the store shows at an optime, so that reading all of it there visits no other documents.
    pub fn list_at(&mut self, at: OpTime)
        ensures { self.new ≡ self.old }
    {
        self.store.list_at(at);
    }

    /// Drops the versions of documents that only reads before `at` could show. By then the checkpoint has the
    /// documents as of `at`.
    pub fn prune(&mut self, at: OpTime)
        requires later { is_before at self.old.node.stable ≡ false }
        requires applied { is_before (applied_point self.old.node) at ≡ false }
        ensures { self.new ≡ record self.old { node = record self.old.node { stable = at } } }
    {
        self.store.prune(at);
        self.stable = at;
    }
}
