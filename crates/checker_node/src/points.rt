// Places in a node's log, and how they move.
ghost use Rattle.std.specs.Prelude.{◌≡◌, ◌<◌, ◌≤◌, ◌-◌, ◌^◌, length};
ghost use Rattle.oplog_store.specs.Log.{IsOplog};
ghost use Rattle.set_model.specs.Points as points;

use crate::node::Node;
use checker_tables::last_optime;
use commit_point::learn;
use rs_optime::{OpTime, next_after};
use set_model::Role;

impl Node {
    /// The log is in order.
    pub(crate) fn recall_log(&self)
        ensures { IsOplog self.now.log }
    {
        let _ = self.log.log().as_slice();
    }

    /// The optime of the last entry.
    pub(crate) fn last_point(&self) -> OpTime
        ensures { result ≡ points.last_point self.now }
    {
        self.log.log().last()
    }

    /// The last entry before the least open slot.
    pub(crate) fn visible_point(&self) -> OpTime
        ensures { result ≡ points.visible_point self.now }
    {
        match self.slots.least() {
            None => self.last_point(),
            Some(slot) => last_optime(self.log.log().before(slot)),
        }
    }

    /// How far the log is applied: on a primary, as far as it is visible.
    pub(crate) fn applied_point(&self) -> OpTime
        ensures { result ≡ points.applied_point self.now }
    {
        match self.role {
            Role::Primary => self.visible_point(),
            Role::Secondary | Role::Candidate | Role::Draining => self.applied,
        }
    }

    /// The optime that the next entry gets.
    pub(crate) fn next_optime(&self) -> OpTime
        requires { self.now.seen < 2 ^ 64 - 1 }
        ensures { result ≡ points.next_optime self.now }
    {
        OpTime {
            term: self.term,
            ts: next_after(self.clock, self.seen),
        }
    }

    /// Learns a commit point from another node.
    pub(crate) fn learn(&mut self, point: OpTime)
        ensures { self.new ≡ points.learnt self.old point }
    {
        self.commit = learn(self.commit, point, self.durable);
    }

    /// A primary's commit point becomes what a majority has reached.
    pub(crate) fn evaluate(&mut self)
        requires { length self.old.config.members ≤ 50 }
        ensures { self.new ≡ points.evaluated self.old }
    {
        if self.role == Role::Primary {
            self.commit = self.progress.advance(
                &self.config,
                self.term,
                self.number,
                self.durable,
                self.commit,
            );
        }
    }
}
