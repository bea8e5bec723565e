// How a node's log, slots, writers, role and tables change.
ghost use Rattle.std.specs.Prelude.{◌≡◌, ◌<◌, ◌-◌, ◌^◌, IfOk, OnOk};
ghost use Rattle.oplog_store.specs.Log.{IsOplog, with_entry};
ghost use Rattle.set_model.specs.Changes as changes;
ghost use Rattle.set_model.specs.Points.{if_primary, last_point, next_optime};
ghost use Rattle.checker_node.specs.Sound.{CanLog};

use crate::node::Node;
use bson_doc::Mem;
use checker_tables::Slots;
use commit_point::Progress;
use oplog_entry::{Entry, Session, SharedOp};
use rs_optime::OpTime;
use set_model::{Role, Writer};

impl Node {
    /// Writes an entry at the node's next optime, for a session or none.
    pub(crate) fn log_op(&mut self, op: SharedOp, session: Option<Session>) -> Mem<OpTime>
        requires { CanLog self.old op session }
        ensures at { IfOk result (λ at. at ≡ next_optime self.old) }
        ensures node { OnOk result (self.new ≡ changes.logged self.old op session) }
    {
        self.recall_log();
        let optime = self.next_optime();
        self.put(Entry {
            optime,
            op,
            session,
        })?;
        self.seen = optime.ts;
        Ok(optime)
    }

    /// Writes an entry at its place.
    pub(crate) fn put(&mut self, entry: Entry) -> Mem<()>
        requires { IsOplog (with_entry self.old.log entry) }
        ensures { OnOk result (self.new ≡ record self.old { log = with_entry self.old.log entry }) }
    {
        let place = self.log.log().before(entry.optime).len();
        self.journaled = self.journaled.min(place);
        self.log.insert(entry)
    }

    /// Opens a writer's slot for an op at the node's next optime.
    pub(crate) fn open_slot(&mut self, writer: u32, op: SharedOp) -> Mem<OpTime>
        requires seen { self.old.seen < 2 ^ 64 - 1 }
        ensures at { IfOk result (λ at. at ≡ next_optime self.old) }
        ensures node { OnOk result (self.new ≡ changes.opened self.old writer op) }
    {
        let at = self.next_optime();
        self.slots.insert(at)?;
        self.seen = at.ts;
        self.writers.insert(writer, Writer::Open { at, op })?;
        Ok(at)
    }

    /// The node becomes a secondary: its slots are aborted, and its counts are cleared.
    pub(crate) fn be_secondary(&mut self)
        ensures { self.new ≡ changes.stepped_down self.old }
    {
        self.applied = self.applied_at_end();
        self.role = Role::Secondary;
        self.slots = Slots::new(self.alloc);
        self.writers.lose_all();
        self.progress = Progress::new(self.alloc);
        self.tally.clear();
        self.dry_tally = None;
    }

    /// How far the log is applied when the node becomes a secondary: a primary has applied all of it.
    fn applied_at_end(&self) -> OpTime
        ensures { result ≡ if_primary self.now.role (last_point self.now) self.now.applied }
    {
        match self.role {
            Role::Primary => self.last_point(),
            Role::Secondary | Role::Candidate | Role::Draining => self.applied,
        }
    }

    /// The node becomes a secondary in another term, with its vote in that term.
    pub fn enter_term(&mut self, term: u64, vote: Option<u32>)
        ensures { self.new ≡ changes.in_new_term self.old term vote }
    {
        self.be_secondary();
        self.term = term;
        self.vote = vote;
    }
}
