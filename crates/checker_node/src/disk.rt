// Batches, the journal, checkpoints, and what a crash leaves.
ghost use Rattle.std.specs.Prelude.{◌≡◌, ◌==◌, ◌<◌, ◌≤◌, ◌^◌, ◌&&◌, None, length, take, unwrap_or, IfOk, OnOk};
ghost use Rattle.repl_msg.specs.Kept.{kept};
ghost use Rattle.repl_msg.specs.Logs.{same_optime};
ghost use Rattle.set_model.specs.Disk as disk;
ghost use Rattle.set_model.specs.Outcome.{replied};
ghost use Rattle.checker_node.specs.Done.{Answers, Does};
ghost use Rattle.checker_node.specs.Flushing.{point_after};
ghost use Rattle.safety_laws.specs.Sound.{IsSoundNode};

use crate::answer::Answer;
use crate::node::Node;
use crate::stores::stands;
use bson_doc::Mem;
use checker_tables::{copy_unkept, earlier, last_optime, pass_kept};
use member_config::Config;
use oplog_entry::Entry;
use repl_msg::{EntryList, Record};
use rs_optime::OpTime;
use set_model::{Refusal, Reply, Role, Store};

/// The most entries of a batch.
const BATCH: usize = 5_000;

/// The most entries of a record.
const RECORD: usize = 2_000;

impl Node {
    /// Applies the next batch.
    pub fn apply(&mut self) -> Reply
        ensures { disk.apply self.old ≡ replied result self.new }
    {
        if self.role == Role::Primary {
            return Reply::Refused(Refusal::NothingToDo);
        }
        let batch = first_of(self.log.log().after(self.applied), BATCH);
        if batch.is_empty() {
            return Reply::Refused(Refusal::NothingToDo);
        }
        let (count, to) = (batch.len() as u64, last_optime(batch));
        self.applied = to;
        Reply::Applied { count, to }
    }

    /// Copies of the first `most` written entries that aren't in the journal.
    fn unjournaled(&mut self, most: usize) -> Mem<Vec<Entry>>
        ensures found { IfOk result (λ found. found.items ≡ take most (disk.unjournaled self.old)) }
        ensures same { self.new ≡ self.old }
    {
        let log = self.log.log();
        let kept = self.journal.entries();
        self.journaled = pass_kept(log, kept, self.journaled);
        copy_unkept(self.alloc, log, kept, self.journaled, most)
    }

    /// Whether there is no entry left to store, and the log is durable as far as it is visible.
    fn is_flushed(&self, next: &[Entry], visible: OpTime) -> bool
        ensures { result ≡ (length next.now == 0 && same_optime self.now.durable visible) }
    {
        next.is_empty() && self.durable == visible
    }

    /// Stores the next entries, and how far the log is durable with them.
    pub fn flush(&mut self, failed: &mut Option<u32>) -> Mem<Answer>
        requires sound { IsSoundNode self.old }
        requires members { length self.old.config.members ≤ 50 }
        ensures { IfOk result (λ answer.
            Does (disk.flush self.old) failed.old failed.new answer self.new) }
    {
        let mut next = self.unjournaled(RECORD + 1)?;
        let visible = self.visible_point();
        if self.is_flushed(&next, visible) {
            return Ok(self.refuses(Refusal::NothingToDo));
        }
        let point = next_durable(&mut next, visible);
        let count = next.len() as u64;
        let list = EntryList::new(next);
        if !self.store(Store::Record(Record::Entries { list, point }), failed)? {
            return Ok(self.failed());
        }
        self.durable = point;
        self.evaluate();
        Ok(self.replies(Reply::Flushed { count, to: point }))
    }

    /// Stores the committed and applied documents.
    pub fn checkpoint(&mut self, failed: &mut Option<u32>) -> Mem<Answer>
        requires settled { self.old.doubt ≡ None }
        ensures { IfOk result (λ answer.
            Does (disk.checkpoint self.old) failed.old failed.new answer self.new) }
    {
        let at = earlier(self.commit, self.applied_point());
        if at == self.stable {
            return Ok(self.refuses(Refusal::NothingToDo));
        }
        if !self.store_other(Store::Checkpoint(at), failed)? {
            return Ok(self.failed());
        }
        Ok(self.replies(Reply::Checkpoint(at)))
    }

    /// The node goes down, and forgets what it had in memory.
    pub fn crash(&mut self) -> Mem<Reply>
        ensures { IfOk result (λ reply. disk.crash self.old ≡ replied reply self.new) }
    {
        self.forget(false)?;
        Ok(Reply::Down)
    }

    /// The node comes up with what its disks have. `there` says whether what was in doubt is there. Opening
    /// the disks counts as a store.
    pub fn restart(&mut self, there: bool, failed: &mut Option<u32>) -> Mem<Answer>
        requires rollback { self.old.rollback < 2 ^ 62 }
        ensures { IfOk result (λ answer.
            Does (disk.restart self.old there) failed.old failed.new answer self.new) }
    {
        if self.up {
            return Ok(self.refuses(Refusal::NotDown));
        }
        if !stands(failed) {
            return Ok(self.failed());
        }
        self.settle_doubt(there)?;
        self.recover(failed)
    }

    /// The node comes up, after cutting the entries that follow a missing one.
    fn recover(&mut self, failed: &mut Option<u32>) -> Mem<Answer>
        requires settled { self.old.doubt ≡ None }
        requires rollback { self.old.rollback < 2 ^ 62 }
        ensures { IfOk result (λ answer.
            Does (disk.recovered self.old) failed.old failed.new answer self.new) }
    {
        if self.journal.has_more() {
            let point = self.journal.point();
            if !self.store_other(Store::Record(Record::Cut(point)), failed)? {
                return Ok(self.failed());
            }
        }
        self.come_back()
    }

    /// What was in doubt turns out to be on disk, or not.
    fn settle_doubt(&mut self, there: bool) -> Mem<()>
        ensures { OnOk result (self.new ≡ disk.settled_doubt self.old self.old.doubt there) }
    {
        if let Some(item) = self.doubt.take() {
            if there {
                self.keep(item)?;
            }
        }
        Ok(())
    }

    /// The node comes up, and has applied all that its journal has.
    fn come_back(&mut self) -> Mem<Answer>
        requires settled { self.old.doubt ≡ None }
        requires rollback { self.old.rollback < 2 ^ 62 }
        ensures { IfOk result (λ answer. Answers (disk.came_back self.old) answer self.new) }
    {
        self.forget(true)?;
        self.log
            .append(self.alloc, self.journal.entries().as_slice())?;
        let vote = self.journal.vote();
        self.term = vote.term;
        self.vote = vote.candidate;
        self.config = self.kept_config()?;
        let last = self.last_point();
        self.seen = last.ts;
        self.durable = self.journal.point();
        self.applied = last;
        self.commit = self.stable;
        self.rollback += 1;
        Ok(self.replies(Reply::Up(last)))
    }

    /// The last configuration that was stored, or the first one of the set.
    fn kept_config(&self) -> Mem<Config>
        ensures { IfOk result (λ config.
            config ≡ unwrap_or (kept self.now.records).config self.now.first) }
    {
        match self.journal.config() {
            Some(config) => config.copy(),
            None => self.first.copy(),
        }
    }
}

/// The first `most` of some entries.
fn first_of(entries: &[Entry], most: usize) -> &[Entry]
    ensures { result.now ≡ take most entries.now }
{
    &entries[..entries.len().min(most)]
}

/// Cuts the entries after those of one record, and gives how far the log is durable with that record: what
/// is visible, or the record's last entry where more remain and that is earlier.
fn next_durable(next: &mut Vec<Entry>, visible: OpTime) -> OpTime
    requires { length next.old.items ≤ 2001 }
    ensures next { next.new.items ≡ take 2000 next.old.items }
    ensures point { result ≡ point_after next.old.items visible }
{
    if next.len() <= RECORD {
        return visible;
    }
    next.truncate(RECORD);
    match next.last() {
        Some(entry) => earlier(visible, entry.optime),
        None => visible,
    }
}
