// Fetching what comes after a node's last entry.
ghost use Rattle.std.specs.Prelude.{◌≡◌, ◌++◌, IfOk, OnOk};
ghost use Rattle.oplog_store.specs.Log.{IsOplog};
ghost use Rattle.set_model.specs.Fetching as fetching;
ghost use Rattle.set_model.specs.Outcome.{replied};
ghost use Rattle.set_model.specs.Roles.{is_primary};
ghost use Rattle.checker_node.specs.Done.{Answers};
ghost use Rattle.checker_node.specs.Sound.{GoOn};

use crate::answer::Answer;
use crate::node::Node;
use bson_doc::Mem;
use oplog_entry::Entry;
use oplog_fetcher::accept;
use repl_msg::{Body, FetchReply};
use rs_optime::OpTime;
use set_model::{Ignored, Refusal, Reply, Role};

impl Node {
    /// Asks a source for what comes after the last entry.
    pub fn fetch(&self, next: u64) -> Mem<Answer>
        ensures { IfOk result (λ answer. Answers (fetching.fetch next self.now) answer self.now) }
    {
        let base = self.last_point();
        let Some(source) = self.known.source(&self.config, self.number, base) else {
            return Ok(self.refuses(Refusal::NoSource));
        };
        let reply = Reply::SentTo {
            message: next,
            source,
        };
        self.sends(reply, source, Body::Fetch { base })
    }

    /// Answers a fetch.
    pub fn fetch_told(&mut self, next: u64, from: u32, base: OpTime) -> Mem<Answer>
        ensures answer { IfOk result (λ answer.
            Answers (fetching.fetch_told next self.old from base) answer self.new) }
        ensures same { self.new ≡ self.old }
    {
        self.recall_log();
        let visible = self.visible_point();
        let primary = self.is_primary();
        let reply = self
            .log
            .fetched(self.alloc, visible, base, self.commit, primary)?;
        self.sends(Reply::Replied(next), from, Body::FetchReply(reply))
    }

    fn is_primary(&self) -> bool
        ensures { result ≡ is_primary self.now.role }
    {
        match self.role {
            Role::Primary => true,
            Role::Secondary | Role::Candidate | Role::Draining => false,
        }
    }

    /// Takes the entries of an answer, if they continue a secondary's log.
    pub fn entries_told(&mut self, from: u32, reply: &FetchReply) -> Mem<Reply>
        requires fetched { GoOn reply.now }
        ensures { IfOk result (λ told.
            fetching.entries_told self.old from reply.now ≡ replied told self.new) }
    {
        if self.role != Role::Secondary {
            return Ok(Reply::Ignored(Ignored::NotSecondary));
        }
        let Ok(entries) = accept(self.last_point(), reply) else {
            return Ok(Reply::Ignored(Ignored::OtherPlace));
        };
        self.recall_log();
        self.append(entries)?;
        self.known.make_room()?;
        self.known.set(from, reply.visible, reply.primary);
        self.learn(reply.commit);
        Ok(Reply::Took {
            count: entries.len() as u64,
            last: self.last_point(),
        })
    }

    /// Appends entries to the log.
    fn append(&mut self, entries: &[Entry]) -> Mem<()>
        requires stays { IsOplog (self.old.log ++ entries.now) }
        ensures { OnOk result (self.new ≡ fetching.with_fetched self.old entries.now) }
    {
        self.log.append(self.alloc, entries)?;
        self.seen = seen_after(self.seen, entries);
        Ok(())
    }
}

/// The greatest timestamp seen, counting these entries.
fn seen_after(seen: u64, entries: &[Entry]) -> u64
    ensures { result ≡ fetching.seen_after seen entries.now }
{
    let mut most = seen;
    for entry in entries {
        most = most.max(entry.optime.ts);
    }
    most
}
