ghost use Rattle.std.specs.Prelude.{◌≡◌, ◌-◌, ◌^◌, ◌<◌, [], None, length, nat_lt, IfOk};
ghost use Rattle.std.specs.FinMap as maps;
ghost use Rattle.bson_doc.specs.Place.{Place};
ghost use Rattle.rs_optime.specs.declared.optime.OpTime.{OpTime};
ghost use Rattle.oplog_entry.specs.Docs.{docs};
ghost use Rattle.oplog_entry.specs.Visible.{log_up_to};
ghost use Rattle.version_store.specs.Past.{latest_of};
ghost use Rattle.version_store.specs.Store.{shown_at, versions_at};
ghost use Rattle.member_config.specs.Rule.{rule};
ghost use Rattle.set_model.specs.Node.{opening_node};
ghost use Rattle.set_model.specs.Points.{applied_point, last_point, next_optime};
ghost use Rattle.set_model.specs.Reads.{local_documents};
ghost use Rattle.node_data.specs.NodeData.{IsNext, IsReadable};
ghost use Rattle.node_state.specs.Turns.{FinishesWith};

use crate::turn::Turn;
use bson_doc::Mem;
use commit_point::Progress;
use election_core::{DryRun, Tally};
use member_config::Config;
use node_data::NodeData;
use oplog_store::Unjournaled;
use repl_msg::{NEWEST_FORM, Record};
use rs_optime::{OpTime, next_after};
use set_model::{LostList, Records, Refusal, Reply, Role, Store};
use std::alloc::Global;
use std::marker::Model;
use sync_source::KnownTable;
use version_store::VersionStore;

/// A node that is up, as it is in memory. Its turns say what to store on its disks.
///
/// Its fields are open to the crates of commands and messages. Their invariant (`IsState`) is proved wherever
/// one of them changes.
#[derive(Drop)]
pub struct State {
    pub alloc: Global,
    /// Its number in the set, counted from 0.
    pub number: u32,
    /// The configuration that the set began with.
    pub first: Config,
    /// Its role in the set.
    pub role: Role,
    /// The term that it is in.
    pub term: u64,
    /// The second that its timestamps start from.
    pub clock: u32,
    /// Its log, with the open slots, and the documents.
    pub node_data: NodeData,
    /// The candidate that it voted for in its term.
    pub vote: Option<u32>,
    /// How far the log is durable.
    pub durable: OpTime,
    /// The commit point, as far as it is known.
    pub commit: OpTime,
    /// The configuration that it uses.
    pub config: Config,
    /// How far each member is durable, as reported to a primary.
    pub progress: Progress,
    /// What was last heard of each member.
    pub known: KnownTable,
    /// The votes for this candidate.
    pub tally: Option<Tally>,
    /// Its dry run, and who would vote for it.
    pub dry_run: Option<DryRun>,
    /// The documents that the last rollback touched, as they were.
    pub lost: LostList,
    /// How often it rolled back or came up again.
    pub rollback: u64,
    /// The optimes of the entries that aren't in the records.
    pub unjournaled: Unjournaled,
    /// What it has stored, for proofs alone.
    pub records: Records,
}

impl Model for State {
    ghost use Rattle.std.specs.Prelude.{min};
    ghost use Rattle.std.specs.Coded.{codes};
    ghost use Rattle.bson_doc.specs.Code.{fields_code};
    ghost use Rattle.rs_optime.specs.Order.{optime_code};
    ghost use Rattle.oplog_entry.specs.contracts.entry.Entry as entry;
    ghost use Rattle.bson_doc.specs.contracts.key.IdKey as key;
    ghost use Rattle.member_config.specs.contracts.config.Config as config_row;
    ghost use Rattle.repl_msg.specs.contracts.record.Record as record_kept;
    ghost use Rattle.set_model.specs.contracts.store.Store as store_row;
    ghost use Rattle.node_data.specs.Code.{writers_code, slots_code, progress_code, known_code, tally_code};
    ghost use Rattle.node_state.specs.StateView.{StateView};

    ghost Value = { StateView };

    ghost coded = { Prim.hlevel (
      codes,
      fields_code,
      optime_code,
      key.the_row.coded,
      entry.the_row.coded,
      config_row.the_row.coded,
      record_kept.the_row.coded,
      store_row.the_row.coded,
      writers_code,
      slots_code,
      progress_code,
      known_code,
      tally_code,
    ) };

    ghost use Rattle.node_state.specs.Seen.{seen_node};
    ghost use Rattle.node_state.specs.Coherent.{IsState};

    ghost view = { λ s. record {
      node = seen_node s.node_data.node (record {
        number = s.number;
        first = s.first;
        role = s.role;
        term = s.term;
        clock = s.clock;
        vote = s.vote;
        records = s.records.list;
        durable = s.durable;
        commit = s.commit;
        config = s.config;
        progress = s.progress;
        known = s.known.heard;
        tally = s.tally;
        dry_tally = s.dry_run;
        lost = s.lost;
        rollback = s.rollback;
      });
      spare = min s.node_data.spare s.unjournaled.spare;
      places = s.known.spare;
    } };

    ghost invariant = { λ s. IsState s.node_data.node (record {
      number = s.number;
      first = s.first;
      role = s.role;
      term = s.term;
      clock = s.clock;
      vote = s.vote;
      records = s.records.list;
      durable = s.durable;
      commit = s.commit;
      config = s.config;
      progress = s.progress;
      known = s.known.heard;
      tally = s.tally;
      dry_tally = s.dry_run;
      lost = s.lost;
      rollback = s.rollback;
    }) s.unjournaled.optimes };
}

impl State {
    /// A node at the opening of the set, with this number and this first configuration. The only error is out
    /// of memory.
    pub fn open(alloc: Global, number: u32, config: &Config) -> Mem<State>
        requires number { number < 50 }
        requires config { rule config.now ≡ None }
        ensures { IfOk result (λ state. state.node ≡ opening_node config.now number) }
    {
        Ok(State {
            alloc,
            number,
            first: config.copy()?,
            role: Role::Secondary,
            term: 0,
            clock: 0,
            node_data: NodeData::new(alloc)?,
            vote: None,
            durable: OpTime::ZERO,
            commit: OpTime::ZERO,
            config: config.copy()?,
            progress: Progress::new(alloc),
            known: KnownTable::new(alloc),
            tally: None,
            dry_run: None,
            lost: LostList::new(alloc),
            rollback: 0,
            unjournaled: Unjournaled::new(alloc),
            // a journal that is opened empty is of the newest form
            records: Records::none().with(&Store::Record(Record::Form(NEWEST_FORM))),
        })
    }

    /// The documents that result from the log, as of each optime that the store can show, in 64 shards.
    pub fn store(&self) -> &VersionStore
        ensures latest { (place : Place)
            → latest_of (versions_at result.now place) ≡ maps.get (local_documents self.now.node) place }
        ensures shown { (place : Place) (at : OpTime) → IsReadable self.now.node at
            → shown_at result.now place at ≡ maps.get (docs (log_up_to at self.now.node.log)) place }
        ensures shards { result.now.count ≡ 64 }
    {
        self.node_data.store()
    }

    /// A finished turn, with this reply and no message.
    pub fn answered(&self, reply: Reply) -> Turn
        ensures { FinishesWith result reply [] }
    {
        Turn::Finished {
            reply,
            sent: Vec::new(self.alloc),
        }
    }

    /// A finished turn: the command is refused.
    pub fn refused(&self, why: Refusal) -> Turn
        ensures { FinishesWith result (Reply.Refused why) [] }
    {
        self.answered(Reply::Refused(why))
    }
}

// What a node keeps while it is down, and its identity.
impl State {
    /// The node's number in the set, counted from 0.
    pub fn number(&self) -> u32
        ensures { result ≡ self.now.node.number }
    {
        self.number
    }

    /// The configuration that the set began with.
    pub fn first(&self) -> &Config
        ensures { result.now ≡ self.now.node.first }
    {
        &self.first
    }

    /// The second that the node's timestamps start from.
    pub fn clock(&self) -> u32
        ensures { result ≡ self.now.node.clock }
    {
        self.clock
    }

    /// The optime that its next entry gets.
    pub fn next(&self) -> OpTime
        requires { self.now.node.seen < 2 ^ 64 - 1 }
        ensures at { result ≡ next_optime self.now.node }
        ensures next { IsNext self.now.node.log self.now.node.slots self.now.node.seen result }
    {
        OpTime {
            term: self.term,
            ts: next_after(self.clock, self.node_data.seen()),
        }
    }

    /// Whether a term is later than the node's.
    pub fn is_below(&self, term: u64) -> bool
        ensures { result ≡ nat_lt self.now.node.term term }
    {
        self.term < term
    }

    /// The optime of the checkpoint's documents.
    pub fn stable(&self) -> OpTime
        ensures { result ≡ self.now.node.stable }
    {
        self.node_data.stable()
    }

    /// The optimes of its last entry, or ZERO, and of its commit point.
    pub fn points(&self) -> (OpTime, OpTime)
        ensures { result ≡ (last_point self.now.node, self.now.node.commit) }
    {
        (self.node_data.last(), self.commit)
    }

    /// How far its log is applied: on a primary, as far as it is visible.
    pub fn applied_point(&self) -> OpTime
        ensures { result ≡ applied_point self.now.node }
    {
        self.node_data.applied_point()
    }

    /// How many entries its log has up to its commit point.
    pub fn committed(&mut self) -> u64
        ensures count { result ≡ length (log_up_to self.old.node.commit self.old.node.log) }
        ensures same { self.new ≡ self.old }
    {
        self.node_data.count_up_to(self.commit)
    }

    /// The rollback id: how often the node rolled back or came up again.
    pub fn rollback(&self) -> u64
        ensures { result ≡ self.now.node.rollback }
    {
        self.rollback
    }

    /// The records that the node stored, which exist only in proofs.
    pub fn records(&self) -> &Records
        ensures { result.now.list ≡ self.now.node.records }
    {
        &self.records
    }
}
