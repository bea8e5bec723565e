// A node that comes back with what its disks have.
ghost use Rattle.std.specs.Prelude.{◌≡◌, ◌<◌, ◌-◌, ◌^◌, None, true, IfOk, unwrap_or};
ghost use Rattle.doc_fold.specs.Map.{documents_of};
ghost use Rattle.oplog_entry.specs.Docs.{docs};
ghost use Rattle.oplog_entry.specs.Visible.{log_up_to};
ghost use Rattle.member_config.specs.Rule.{rule};
ghost use Rattle.repl_msg.specs.Kept.{kept};
ghost use Rattle.set_model.specs.Disk.{come_back};
ghost use Rattle.node_data.specs.Sound.{IsSound};
ghost use Rattle.node_state.specs.Coherent.{IsOfTerm};
ghost use Rattle.node_state.specs.WellKept.{coming, IsReadAs, IsWellKept, StoresWell};
ghost use Rattle.node_state.specs.Ready.{IsReady, CanBeStored};

use crate::State;
use crate::turn::Continuation;
use bson_doc::{Doc, IdKey, Mem, Text};
use commit_point::Progress;
use member_config::Config;
use node_data::NodeData;
use oplog_store::Unjournaled;
use repl_msg::Kept;
use rs_optime::OpTime;
use set_model::{EntryList, LostList, Records, Role, Store};
use std::alloc::Global;
use std::collections::BTreeMap;
use std::thread::Threads;
use sync_source::KnownTable;

/// The identity of a node, and what it keeps in memory while it is down.
#[derive(Drop)]
pub struct Coming<'a> {
    /// Its number in the set.
    pub number: u32,
    /// The configuration that the set began with.
    pub first: &'a Config,
    /// The second that its clock shows.
    pub clock: u32,
    /// How often it has rolled back or come up.
    pub rollback: u64,
    pub records: Records,
}

impl State {
    /// A node that comes up with what was read of its journal (`found`), and with the documents that its
    /// checkpoint has, as of the optime `stable`. Entries after the journal's point are left out, since the
    /// node cuts its log there as it comes up. The only error is out of memory.
    pub fn restored<R: Threads + Sync>(
        rt: &R,
        alloc: Global,
        coming_up: Coming<'_>,
        found: Kept,
        stable: OpTime,
        documents: BTreeMap<(Text, IdKey), Doc>,
    ) -> Mem<State>
        requires number { coming_up.number < 50 }
        requires first { rule coming_up.first.now ≡ None }
        requires rollback { coming_up.rollback < 2 ^ 64 - 1 }
        requires kept { IsWellKept coming_up.records.list stable }
        requires read { IsReadAs found coming_up.records.list }
        requires documents { documents_of documents.entries
            ≡ docs (log_up_to stable (kept coming_up.records.list).entries) }
        ensures { IfOk result (λ state. state.node
            ≡ come_back (coming coming_up.entry.first.now coming_up.entry.number coming_up.entry.records.list
            stable coming_up.entry.rollback coming_up.entry.clock) (kept coming_up.entry.records.list)) }
    {
        let config = config_or(found.config, coming_up.first)?;
        let entries = entries_up_to(found.entries, found.point);
        let node_data = NodeData::restore(rt, alloc, entries, stable, documents)?;
        Ok(State {
            alloc,
            number: coming_up.number,
            first: coming_up.first.copy()?,
            role: Role::Secondary,
            term: found.vote.term,
            clock: coming_up.clock,
            node_data,
            vote: found.vote.candidate,
            durable: found.point,
            commit: stable,
            config,
            progress: Progress::new(alloc),
            known: KnownTable::new(alloc),
            tally: None,
            dry_run: None,
            lost: LostList::new(alloc),
            rollback: coming_up.rollback + 1,
            unjournaled: Unjournaled::new(alloc),
            records: coming_up.records,
        })
    }
}

// Facts about a node in memory, for proofs of code that stores for it.
impl State {
    /// It is up, with nothing in doubt; its log is in order and of its term; and its number and first
    /// configuration are lawful: a fact for callers' proofs, which costs nothing.
    pub fn recall_sound(&self)
        ensures sound { IsSound self.now.node }
        ensures term { IsOfTerm self.now.node.term self.now.node.log self.now.node.slots }
        ensures up { self.now.node.up ≡ true }
        ensures settled { self.now.node.doubt ≡ None }
        ensures number { self.now.node.number < 50 }
        ensures first { rule self.now.node.first ≡ None }
    {
        let _ = &self.number;
        self.node_data.recall_sound();
    }

    /// A node in memory is up.
    pub fn recall_up(&self)
        ensures { self.now.node.up ≡ true }
    {
        let _ = &self.alloc;
    }

    /// The node could come up again with its records and its checkpoint: a fact for callers' proofs,
    /// which costs nothing.
    pub fn recall_well_kept(&self)
        ensures { IsWellKept self.now.node.records self.now.node.stable }
    {
        let _ = &self.number;
        self.node_data.recall_sound();
    }

    /// The node could also come up again after this is stored: a fact for callers' proofs, which costs
    /// nothing.
    pub fn recall_stores_well(&self, _item: &Store, _then: &Continuation)
        requires ready { IsReady _item.now _then.now self.now }
        requires stored { CanBeStored _item.now }
        ensures { StoresWell self.now.node _item.now }
    {
        let _ = &self.number;
        self.node_data.recall_sound();
    }
}

/// The stored configuration, or the first one.
fn config_or(config: Option<Config>, first: &Config) -> Mem<Config>
    ensures { IfOk result (λ c. c ≡ unwrap_or config first.now) }
{
    match config {
        Some(config) => Ok(config),
        None => first.copy(),
    }
}

/// The entries at or before a point.
fn entries_up_to(entries: EntryList, point: OpTime) -> EntryList
    ensures { result ≡ log_up_to point entries }
{
    let mut entries = entries.into_entries();
    entries.retain(|entry| entry.optime <= point);
    EntryList::new(entries)
}
