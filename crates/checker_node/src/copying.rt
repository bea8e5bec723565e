// A node once more.
ghost use Rattle.std.specs.Prelude.{◌≡◌, IfOk};

use crate::Node;
use bson_doc::Mem;
use checker_tables::{DocLog, Journal, Slots, WriterMap};
use commit_point::Progress;
use election_core::DryRun;
use member_config::Config;
use set_model::Store;
use sync_source::KnownTable;

impl Node {
    /// The same node once more, which shares the ops of its entries with this one.
    pub fn copy(&self) -> Mem<Node>
        ensures { IfOk result (λ node. node ≡ self.now) }
    {
        let stored = self.copied_tables()?;
        let configs = self.copied_configs()?;
        let heard = self.copied_tallies()?;
        let doubt = copied_store(&self.doubt)?;
        let lost = self.lost.copy()?;
        let (log, slots, writers, journal) = stored;
        let (first, config) = configs;
        let (progress, known, tally, dry_tally) = heard;
        Ok(Node {
            alloc: self.alloc,
            number: self.number,
            up: self.up,
            doubt,
            term: self.term,
            vote: self.vote,
            role: self.role,
            log,
            slots,
            writers,
            seen: self.seen,
            journal,
            journaled: self.journaled,
            durable: self.durable,
            applied: self.applied,
            commit: self.commit,
            stable: self.stable,
            first,
            config,
            progress,
            known,
            tally,
            dry_tally,
            lost,
            rollback: self.rollback,
            clock: self.clock,
        })
    }

    /// Its log, its slots, its writers and its journal.
    fn copied_tables(&self) -> Mem<(DocLog, Slots, WriterMap, Journal)>
        ensures log { IfOk result (λ copies. copies.0 ≡ self.now.log) }
        ensures slots { IfOk result (λ copies. copies.1 ≡ self.now.slots) }
        ensures writers { IfOk result (λ copies. copies.2 ≡ self.now.writers) }
        ensures journal { IfOk result (λ copies. copies.3 ≡ self.now.records) }
    {
        Ok((
            self.log.copy(self.alloc)?,
            self.slots.copy()?,
            self.writers.copy(self.alloc)?,
            self.journal.copy(self.alloc)?,
        ))
    }

    /// The first configuration, and that which it has.
    fn copied_configs(&self) -> Mem<(Config, Config)>
        ensures first { IfOk result (λ copies. copies.0 ≡ self.now.first) }
        ensures config { IfOk result (λ copies. copies.1 ≡ self.now.config) }
    {
        Ok((self.first.copy()?, self.config.copy()?))
    }

    /// What it has heard of the others, and their votes.
    fn copied_tallies(&self) -> Mem<(Progress, KnownTable, Vec<u32>, Option<DryRun>)>
        ensures progress { IfOk result (λ copies. copies.0 ≡ self.now.progress) }
        ensures known { IfOk result (λ copies. copies.1.heard ≡ self.now.known) }
        ensures tally { IfOk result (λ copies. copies.2.items ≡ self.now.tally) }
        ensures dry_tally { IfOk result (λ copies. copies.3 ≡ self.now.dry_tally) }
    {
        Ok((
            self.progress.copy()?,
            self.known.copy()?,
            self.tally.clone()?,
            copied_run(&self.dry_tally)?,
        ))
    }
}

/// The same once more, if there is something.
fn copied_store(store: &Option<Store>) -> Mem<Option<Store>>
    ensures { IfOk result (λ copy. copy ≡ store.now) }
{
    match store {
        Some(store) => Ok(Some(store.copy()?)),
        None => Ok(None),
    }
}

/// The same dry run once more, if there is one.
fn copied_run(run: &Option<DryRun>) -> Mem<Option<DryRun>>
    ensures { IfOk result (λ copy. copy ≡ run.now) }
{
    match run {
        Some(run) => Ok(Some(run.copy()?)),
        None => Ok(None),
    }
}
