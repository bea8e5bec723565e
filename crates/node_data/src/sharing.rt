// What a node shows of its log and sends of it. A node that is about to step down may have entries after open
// slots, and sends them as if its slots were closed.
ghost use Rattle.std.specs.Prelude.{◌≡◌, ◌≢◌, All, IfNone, IfOk, IfSome, length, map};
ghost use Rattle.std.specs.Option.{option_copied};
ghost use Rattle.oplog_entry.specs.Visible.{log_up_to};
ghost use Rattle.oplog_fetcher.specs.Fetch.{reply_to as answered};
ghost use Rattle.oplog_store.specs.Places.{IsEntryAt};
ghost use Rattle.repl_msg.specs.Logs.{log_after};
ghost use Rattle.repl_msg.specs.Rollback.{touched_documents};
ghost use Rattle.rollback_core.specs.Lost.{lost_of};
ghost use Rattle.rollback_core.specs.Plan.{plan as planned};
ghost use Rattle.set_model.specs.Points.{last_point};
ghost use Rattle.set_model.specs.Reads.{local_documents};
ghost use Rattle.set_model.specs.Rollback.{optimes_of};
ghost use Rattle.std.specs.FinMap as maps;

use crate::NodeData;
use bson_doc::Mem;
use oplog_entry::Entry;
use oplog_fetcher::log_after;
use repl_msg::{EntryList, FetchReply, OptimeList};
use rollback_core::{LostDocument, RollbackRefusal, lost_documents, plan};
use rs_optime::OpTime;

impl NodeData {
    /// The entry with an optime.
    pub fn entry_at(&self, at: OpTime) -> Option<&Entry>
        ensures found { IfSome (option_copied result) (λ entry. IsEntryAt self.now.node.log at entry) }
        ensures none { IfNone result (All (λ entry. entry.optime ≢ at) self.now.node.log) }
    {
        self.log.written().get(at)
    }

    /// `entry_at`, which looks at a likely place of the log first, and sets that to the place after the
    /// entry. So entries that follow one another are found at once.
    pub fn entry_near(&self, likely: &mut usize, at: OpTime) -> Option<&Entry>
        ensures found { IfSome (option_copied result) (λ entry. IsEntryAt self.now.node.log at entry) }
        ensures none { IfNone result (All (λ entry. entry.optime ≢ at) self.now.node.log) }
    {
        self.log.written().get_near(likely, at)
    }

    /// Copies of all entries, in their order. The only error is out of memory.
    pub fn entries(&self) -> Mem<EntryList>
        ensures { IfOk result (λ list. list ≡ self.now.node.log) }
    {
        Ok(EntryList::new(self.log.written().copies(self.alloc)?))
    }

    /// The answer to a node whose last optime is `base`, where the log is visible up to `visible`, as
    /// `oplog_fetcher` gives it. The only error is out of memory.
    pub fn fetched(
        &mut self,
        visible: OpTime,
        base: OpTime,
        commit: OpTime,
        primary: bool,
    ) -> Mem<FetchReply>
        ensures reply { IfOk result (λ reply.
            reply ≡ answered self.old.node.log visible base commit primary) }
        ensures same { self.new ≡ self.old }
    {
        self.log.fetched(visible, base, commit, primary)
    }

    /// How many entries come after an optime, up to another one.
    pub fn count_between(&mut self, after: OpTime, to: OpTime) -> usize
        ensures count { result ≡ length (log_after after (log_up_to to self.old.node.log)) }
        ensures same { self.new ≡ self.old }
    {
        self.log.gather_up_to(to);
        log_after(self.log.written().settled().up_to(to), after).len()
    }

    /// How many entries there are up to an optime.
    pub fn count_up_to(&mut self, to: OpTime) -> u64
        ensures count { result ≡ length (log_up_to to self.old.node.log) }
        ensures same { self.new ≡ self.old }
    {
        self.log.gather_up_to(to);
        self.log.written().settled().up_to(to).len() as u64
    }

    /// The optimes of the entries that come after an optime, up to another one.
    pub fn optimes_between(&mut self, after: OpTime, to: OpTime) -> Mem<OptimeList>
        ensures list { IfOk result (λ list.
            list ≡ optimes_of (log_after after (log_up_to to self.old.node.log))) }
        ensures same { self.new ≡ self.old }
    {
        self.log.optimes_between(after, to)
    }

    /// The point to which the log is rolled back for a source that has these optimes later than `after`, as
    /// `rollback_core` plans it.
    pub fn rollback_plan(
        &mut self,
        term: u64,
        source_last: OpTime,
        after: OpTime,
        optimes: &[OpTime],
    ) -> Result<OpTime, RollbackRefusal>
        ensures plan { result
            ≡ planned term self.old.node.log (last_point self.old.node) source_last after optimes.now }
        ensures same { self.new ≡ self.old }
    {
        self.log.gather();
        plan(
            term,
            self.log.written().settled(),
            self.log.written().last(),
            source_last,
            after,
            optimes,
        )
    }

    /// How many entries come after an optime.
    pub fn count_after(&mut self, at: OpTime) -> u64
        ensures count { result ≡ length (log_after at self.old.node.log) }
        ensures same { self.new ≡ self.old }
    {
        self.log.gather();
        self.log.written().settled().after(at).len() as u64
    }

    /// The documents that the entries after an optime touched, each once, as a read at `local` shows them:
    /// what a rollback to that optime takes. The only error is out of memory.
    pub fn lost_after(&mut self, at: OpTime) -> Mem<Vec<LostDocument>>
        ensures lost { IfOk result (λ lost. map lost_of lost.items
            ≡ touched_documents (λ place. maps.get (local_documents self.old.node) place)
            (log_after at self.old.node.log)) }
        ensures same { self.new ≡ self.old }
    {
        self.log.gather();
        lost_documents(
            self.alloc,
            &self.store,
            self.log.written().settled().after(at),
        )
    }
}
