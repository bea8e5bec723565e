// A node of the machine.
ghost use Rattle.std.specs.Prelude.{◌≡◌, [], IfOk, OnOk};
ghost use Rattle.set_model.specs.Limits.{is_in_doubt};
ghost use Rattle.set_model.specs.Node as nodes;
ghost use Rattle.set_model.specs.Outcome as outcomes;
ghost use Rattle.checker_node.specs.Done.{Answers, Replies};
ghost use Rattle.checker_node.specs.Forgets.{emptied};

use crate::answer::Answer;
use bson_doc::Mem;
use checker_tables::{DocLog, Journal, Slots, WriterMap};
use commit_point::Progress;
use election_core::DryRun;
use member_config::Config;
use repl_msg::{Body, Message};
use rs_optime::OpTime;
use set_model::{Ignored, LostList, Refusal, Reply, Role, Store};
use std::alloc::Global;
use std::marker::Model;
use sync_source::KnownTable;

/// A node of a replica set, field by field as set_model's `Node` has it.
#[derive(Drop)]
pub struct Node {
    pub(crate) alloc: Global,
    pub(crate) number: u32,
    pub(crate) up: bool,
    /// While it is down: what it was storing when a disk failed.
    pub(crate) doubt: Option<Store>,
    pub(crate) term: u64,
    pub(crate) vote: Option<u32>,
    pub(crate) role: Role,
    pub(crate) log: DocLog,
    /// The optimes that are reserved and not yet settled.
    pub(crate) slots: Slots,
    pub(crate) writers: WriterMap,
    /// The greatest timestamp seen.
    pub(crate) seen: u64,
    pub(crate) journal: Journal,
    /// How many of the log's first entries are known to be in the journal.
    pub(crate) journaled: usize,
    pub(crate) durable: OpTime,
    pub(crate) applied: OpTime,
    pub(crate) commit: OpTime,
    pub(crate) stable: OpTime,
    pub(crate) first: Config,
    pub(crate) config: Config,
    pub(crate) progress: Progress,
    pub(crate) known: KnownTable,
    /// The members that voted for this candidate, the last one first.
    pub(crate) tally: Vec<u32>,
    pub(crate) dry_tally: Option<DryRun>,
    pub(crate) lost: LostList,
    pub(crate) rollback: u64,
    pub(crate) clock: u32,
}

impl Model for Node {
    ghost use Rattle.std.specs.Coded.{codes};
    ghost use Rattle.bson_doc.specs.Code.{fields_code};
    ghost use Rattle.rs_optime.specs.Order.{optime_code};
    ghost use Rattle.oplog_entry.specs.contracts.entry.Entry as entry;
    ghost use Rattle.bson_doc.specs.contracts.key.IdKey as key;
    ghost use Rattle.member_config.specs.contracts.config.Config as config_row;
    ghost use Rattle.repl_msg.specs.contracts.record.Record as record_kept;
    ghost use Rattle.set_model.specs.contracts.store.Store as store_row;
    ghost use Rattle.checker_tables.specs.Code.{writers_code, slots_code, progress_code, known_code, tally_code};
    ghost use Rattle.set_model.specs.Node.{Node as Seen};

    ghost Value = { Seen };

    ghost coded = { Prim.hlevel (
      codes,
      fields_code,
      optime_code,
      key.the_row.coded,
      entry.the_row.coded,
      config_row.the_row.coded,
      record_kept.the_row.coded,
      store_row.the_row.coded,
      writers_code,
      slots_code,
      progress_code,
      known_code,
      tally_code,
    ) };

    ghost use Rattle.checker_tables.specs.Journal.{AreJournaled, MayStand};

    ghost view = { λ n. record {
      number = n.number;
      up = n.up;
      doubt = n.doubt;
      term = n.term;
      vote = n.vote;
      role = n.role;
      log = n.log;
      slots = n.slots;
      writers = n.writers;
      seen = n.seen;
      records = n.journal;
      durable = n.durable;
      applied = n.applied;
      commit = n.commit;
      stable = n.stable;
      first = n.first;
      config = n.config;
      progress = n.progress;
      known = n.known.heard;
      tally = n.tally.items;
      dry_tally = n.dry_tally;
      lost = n.lost;
      rollback = n.rollback;
      clock = n.clock;
    } };

    ghost invariant = { λ n. AreJournaled n.journaled n.log n.journal × MayStand n.journal n.doubt };
}

impl Node {
    /// A node at the opening of the set.
    pub fn open(alloc: Global, number: u32, first: &Config) -> Mem<Node>
        ensures { IfOk result (λ node. node ≡ nodes.opening_node first.now number) }
    {
        Ok(Node {
            alloc,
            number,
            up: true,
            doubt: None,
            term: 0,
            vote: None,
            role: Role::Secondary,
            log: DocLog::new(alloc),
            slots: Slots::new(alloc),
            writers: WriterMap::new(alloc),
            seen: 0,
            journal: Journal::new(alloc),
            journaled: 0,
            durable: OpTime::ZERO,
            applied: OpTime::ZERO,
            commit: OpTime::ZERO,
            stable: OpTime::ZERO,
            first: first.copy()?,
            config: first.copy()?,
            progress: Progress::new(alloc),
            known: KnownTable::new(alloc),
            tally: Vec::new(alloc),
            dry_tally: None,
            lost: LostList::new(alloc),
            rollback: 0,
            clock: 0,
        })
    }

    /// The node goes down, or comes up with nothing yet: it keeps its journal, its checkpoint, its clock and
    /// its rollback id, and what was in doubt.
    pub(crate) fn forget(&mut self, up: bool) -> Mem<()>
        ensures { OnOk result (self.new ≡ emptied self.old up) }
    {
        self.up = up;
        self.term = 0;
        self.vote = None;
        self.role = Role::Secondary;
        self.log = DocLog::new(self.alloc);
        self.slots = Slots::new(self.alloc);
        self.writers = WriterMap::new(self.alloc);
        self.seen = 0;
        self.journaled = 0;
        self.durable = OpTime::ZERO;
        self.applied = OpTime::ZERO;
        self.commit = OpTime::ZERO;
        self.config = self.first.copy()?;
        self.progress = Progress::new(self.alloc);
        self.known = KnownTable::new(self.alloc);
        self.tally.clear();
        self.dry_tally = None;
        self.lost = LostList::new(self.alloc);
        Ok(())
    }

    /// Whether it is up.
    pub fn is_up(&self) -> bool
        ensures { result ≡ self.now.up }
    {
        self.up
    }

    /// Whether it is down, with a store in doubt.
    pub fn is_in_doubt(&self) -> bool
        ensures { result ≡ is_in_doubt self.now }
    {
        !self.up && self.doubt.is_some()
    }

    /// The term that it is in.
    pub fn term(&self) -> u64
        ensures { result ≡ self.now.term }
    {
        self.term
    }

    /// Sets its clock, in seconds.
    pub fn set_clock(&mut self, seconds: u32)
        ensures { self.new ≡ record self.old { clock = seconds } }
    {
        self.clock = seconds;
    }

    /// The node replies, and sends nothing.
    pub fn replies(&self, reply: Reply) -> Answer
        ensures { Replies result reply [] }
    {
        Answer::alone(self.alloc, reply)
    }

    /// The node refuses, and changes nothing.
    pub fn refuses(&self, why: Refusal) -> Answer
        ensures { Answers (outcomes.refused why self.now) result self.now }
    {
        self.replies(Reply::Refused(why))
    }

    pub(crate) fn ignores(&self, why: Ignored) -> Answer
        ensures { Answers (outcomes.ignored why self.now) result self.now }
    {
        self.replies(Reply::Ignored(why))
    }

    /// The node sends one message.
    pub(crate) fn sends(&self, reply: Reply, to: u32, body: Body) -> Mem<Answer>
        ensures { IfOk result (λ answer. Answers (outcomes.sending reply self.now to body) answer self.now) }
    {
        let mut sent = Vec::new(self.alloc);
        sent.push(Message {
            from: self.number,
            to,
            term: self.term,
            body,
        })?;
        Ok(Answer { reply, sent })
    }
}
