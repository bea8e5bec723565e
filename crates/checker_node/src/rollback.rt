// Rolling back what a later primary doesn't have.
ghost use Rattle.std.specs.Prelude.{◌≡◌, ◌<◌, ◌^◌, None, map, IfOk, OnOk};
ghost use Rattle.std.specs.FinMap as maps;
ghost use Rattle.oplog_entry.specs.Visible.{log_after, log_up_to};
ghost use Rattle.repl_msg.specs.Rollback as words;
ghost use Rattle.set_model.specs.Points.{visible_point};
ghost use Rattle.set_model.specs.Reads.{local_documents};
ghost use Rattle.set_model.specs.Rollback as rollbacks;
ghost use Rattle.node_messages.specs.Ahead.{in_term};
ghost use Rattle.node_messages.specs.Rolling.{point_or};
ghost use Rattle.checker_node.specs.Done.{Answers, Does};

use crate::answer::Answer;
use crate::node::Node;
use crate::reads::copied_at;
use bson_doc::{IdKey, Mem, Text};
use checker_tables::earlier;
use doc_shelf::Shelf;
use oplog_entry::Entry;
use oplog_fetcher::log_after;
use repl_msg::{Body, OptimeList, Record};
use rollback_core::{RollbackRefusal, plan, touched};
use rs_optime::OpTime;
use set_model::{Ignored, LostList, Refusal, Reply, Role, Store};
use std::alloc::Global;

/// The most optimes that are sent at once.
const MOST_OPTIMES: usize = 20_000;

/// These places, each with the document that is there, or with none.
fn stood(alloc: Global, shelf: &Shelf, places: Vec<(Text, IdKey)>) -> Mem<LostList>
    ensures { IfOk result (λ lost.
        lost ≡ map (λ place. (place, maps.get shelf.now.documents place)) places.items) }
{
    let mut lost = LostList::new(alloc);
    for place in places {
        let document = copied_at(shelf, &place)?;
        lost.push(place, document)?;
    }
    Ok(lost)
}

// Asking and answering.
impl Node {
    /// Asks another node what it has after this one's commit point.
    pub fn common(&self, next: u64, to: u32) -> Mem<Answer>
        ensures { IfOk result (λ answer. Answers (rollbacks.common next self.now to) answer self.now) }
    {
        let body = Body::CommonAsk {
            commit: self.commit,
        };
        self.sends(Reply::Sent(next), to, body)
    }

    /// The entries after one optime and up to another.
    fn between(&self, after: OpTime, to: OpTime) -> &[Entry]
        ensures { result.now ≡ log_after after (log_up_to to self.now.log) }
    {
        log_after(self.log.log().up_to(to), after)
    }

    /// How far the log is visible after a message of this term is taken.
    fn visible_in(&self, term: u64) -> OpTime
        ensures { result ≡ visible_point (in_term term self.now) }
    {
        if self.term < term {
            return self.last_point();
        }
        self.visible_point()
    }

    /// Whether there are more optimes than are sent at once.
    pub fn common_refusal(&self, term: u64, after: OpTime) -> Option<Refusal>
        ensures { result ≡ rollbacks.common_refusal self.now term after }
    {
        self.recall_log();
        if self.between(after, self.visible_in(term)).len() > MOST_OPTIMES {
            return Some(Refusal::TooManyOptimes);
        }
        None
    }

    /// Tells the visible optimes after one.
    pub fn common_asked(&mut self, next: u64, from: u32, after: OpTime) -> Mem<Answer>
        ensures answer { IfOk result (λ answer.
            Answers (rollbacks.common_asked next self.old from after) answer self.new) }
        ensures same { self.new ≡ self.old }
    {
        self.recall_log();
        let visible = self.visible_point();
        let body = Body::CommonReply {
            after,
            optimes: self.log.optimes_between(self.alloc, after, visible)?,
            visible,
        };
        self.sends(Reply::Replied(next), from, body)
    }
}

// Taking the answer.
impl Node {
    /// Up to where the node rolls back, or why it doesn't.
    fn rollback_point(
        &self,
        term: u64,
        after: OpTime,
        optimes: &OptimeList,
        visible: OpTime,
    ) -> Result<OpTime, Ignored>
        ensures { result ≡ point_or (rollbacks.rollback_reason self.now term after optimes.now visible)
            (words.common_point self.now.log after optimes.now) }
    {
        if self.role != Role::Secondary {
            return Err(Ignored::NotSecondary);
        }
        if term < self.term {
            return Err(Ignored::OldTerm);
        }
        let log = self.log.log();
        match plan(
            self.term,
            log,
            log.last(),
            visible,
            after,
            optimes.as_slice(),
        ) {
            Ok(point) => Ok(point),
            Err(RollbackRefusal::NotOlder) => Err(Ignored::NotOlder),
            Err(RollbackRefusal::SameBranch) => Err(Ignored::SameBranch),
        }
    }

    /// The documents that the entries after a point touched, as they stand.
    fn lost_after(&mut self, point: OpTime) -> Mem<LostList>
        ensures lost { IfOk result (λ lost. lost
            ≡ rollbacks.lost_documents (local_documents self.old) (log_after point self.old.log)) }
        ensures same { OnOk result (self.new ≡ self.old) }
    {
        self.recall_log();
        let places = touched(self.alloc, self.log.log().after(point))?;
        let (alloc, count) = (self.alloc, self.local_count());
        stood(alloc, self.log.local(count)?, places)
    }

    /// Rolls back to the common point, where there is reason to.
    pub fn common_told(
        &mut self,
        term: u64,
        after: OpTime,
        optimes: &OptimeList,
        visible: OpTime,
        failed: &mut Option<u32>,
    ) -> Mem<Answer>
        requires settled { self.old.doubt ≡ None }
        requires rollback { self.old.rollback < 2 ^ 62 }
        ensures { IfOk result (λ answer.
            Does (rollbacks.common_told self.old term after optimes.now visible)
            failed.old failed.new answer self.new) }
    {
        let point = match self.rollback_point(term, after, optimes, visible) {
            Ok(point) => point,
            Err(why) => return Ok(self.ignores(why)),
        };
        if !self.store_other(Store::Record(Record::Cut(point)), failed)? {
            return Ok(self.failed());
        }
        let removed = self.log.log().after(point).len() as u64;
        self.cut_back(point)?;
        Ok(self.replies(Reply::RolledBack { to: point, removed }))
    }

    /// Cuts the log after a point.
    fn cut_back(&mut self, point: OpTime) -> Mem<()>
        requires { self.old.rollback < 2 ^ 62 }
        ensures { OnOk result (self.new ≡ rollbacks.cut_back self.old point) }
    {
        self.lost = self.lost_after(point)?;
        self.journaled = self.journaled.min(self.log.log().up_to(point).len());
        self.log.cut(point);
        self.applied = point;
        self.durable = earlier(self.durable, point);
        self.rollback += 1;
        Ok(())
    }
}
