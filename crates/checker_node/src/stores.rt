// How a step stores: one thing after another, and it goes on once each stands there.
ghost use Rattle.std.specs.Prelude.{◌≡◌, [], false, None, IfOk, OnOk, if◌then◌else◌};
ghost use Rattle.oplog_store.specs.Log.{IsOplog};
ghost use Rattle.repl_msg.specs.Kept.{kept};
ghost use Rattle.set_model.specs.Limits.{passes_first};
ghost use Rattle.set_model.specs.Stores as stores;
ghost use Rattle.set_model.specs.declared.reply.Refusal.TheVariants.{DiskFailed};
ghost use Rattle.set_model.specs.declared.reply.Reply.TheVariants.{Refused};
ghost use Rattle.checker_node.specs.Done.{next_failed, Replies};
ghost use Rattle.checker_tables.specs.Journal.{AreJournaled, cut_of, has_entries};

use crate::answer::Answer;
use crate::node::Node;
use bson_doc::Mem;
use repl_msg::Record;
use rs_optime::OpTime;
use set_model::{Refusal, Store};
use vote_store::Vote;

/// What keeps a vote, or none, in a term.
pub fn vote_record(term: u64, candidate: Option<u32>) -> Store
    ensures { result ≡ stores.vote_record term candidate }
{
    Store::Record(Record::Vote(Vote { term, candidate }))
}

/// Whether the next store stands, where one of this number fails, counted from it. Then one is counted.
pub(crate) fn stands(failed: &mut Option<u32>) -> bool
    ensures stands { result ≡ passes_first failed.old }
    ensures left { failed.new ≡ next_failed failed.old }
{
    match *failed {
        None => true,
        Some(0) => {
            *failed = None;
            false
        }
        Some(number) => {
            *failed = Some(number - 1);
            true
        }
    }
}

/// The optime of the last checkpoint, once this is stored.
fn stable_after(stable: OpTime, item: &Store) -> OpTime
    ensures { result ≡ stores.stable_after stable item.now }
{
    match item {
        Store::Record(_) => stable,
        Store::Checkpoint(at) => *at,
    }
}

/// The optime after which something that is stored cuts.
fn cut_of(item: &Store) -> Option<OpTime>
    ensures { result ≡ cut_of item.now }
{
    match item {
        Store::Record(Record::Cut(at)) => Some(*at),
        Store::Record(
            Record::Vote(_) | Record::Config(_) | Record::Entries { .. } | Record::Form(_),
        )
        | Store::Checkpoint(_) => None,
    }
}

impl Node {
    /// Stores something. `failed` is the number of the store that fails, counted from this one: where it is
    /// this one, the node is down with it in doubt, and the answer is false.
    pub(crate) fn store(&mut self, item: Store, failed: &mut Option<u32>) -> Mem<bool>
        requires settled { self.old.doubt ≡ None }
        requires stays { IsOplog (kept (stores.stored self.old item).records).entries }
        ensures stands { IfOk result (λ stands. stands ≡ passes_first failed.old) }
        ensures node { IfOk result (λ stands. self.new
            ≡ (if stands then stores.stored self.old item else stores.in_doubt self.old item)) }
        ensures left { OnOk result (failed.new ≡ next_failed failed.old) }
    {
        if !stands(failed) {
            self.forget(false)?;
            self.doubt = Some(item);
            return Ok(false);
        }
        self.keep(item)?;
        Ok(true)
    }

    /// Stores something that is no record of entries.
    pub fn store_other(&mut self, item: Store, failed: &mut Option<u32>) -> Mem<bool>
        requires settled { self.old.doubt ≡ None }
        requires other { has_entries item ≡ false }
        ensures stands { IfOk result (λ stands. stands ≡ passes_first failed.old) }
        ensures node { IfOk result (λ stands. self.new
            ≡ (if stands then stores.stored self.old item else stores.in_doubt self.old item)) }
        ensures left { OnOk result (failed.new ≡ next_failed failed.old) }
    {
        self.recall_kept();
        self.store(item, failed)
    }

    /// The log that the records give is in order.
    pub(crate) fn recall_kept(&self)
        ensures { IsOplog (kept self.now.records).entries }
    {
        let _ = self.journal.entries().as_slice();
    }

    /// This stands on the node's disks.
    pub(crate) fn keep(&mut self, item: Store) -> Mem<()>
        requires settled { self.old.doubt ≡ None }
        requires stays { IsOplog (kept (stores.stored self.old item).records).entries }
        ensures { OnOk result (self.new ≡ stores.stored self.old item) }
    {
        let stable = stable_after(self.stable, &item);
        let journaled = self.still_journaled(&item);
        self.journal.keep(item)?;
        self.journaled = journaled;
        self.stable = stable;
        Ok(())
    }

    /// How many of the log's first entries are known to be in the journal once this is there.
    fn still_journaled(&self, item: &Store) -> usize
        ensures { AreJournaled result self.now.log (stores.records_after self.now.records item.now) }
    {
        match cut_of(item) {
            Some(at) => self.journaled.min(self.log.log().up_to(at).len()),
            None => self.journaled,
        }
    }

    /// What a node answers as a disk fails.
    pub fn failed(&self) -> Answer
        ensures { Replies result (Refused DiskFailed) [] }
    {
        self.refuses(Refusal::DiskFailed)
    }
}
