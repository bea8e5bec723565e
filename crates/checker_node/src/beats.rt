// Heartbeats: a node tells another its state.
ghost use Rattle.std.specs.Prelude.{◌≡◌, None, IfOk};
ghost use Rattle.set_model.specs.Beats as beats;
ghost use Rattle.checker_node.specs.Done.{Answers, Does};
ghost use Rattle.checker_node.specs.Hearing.{Hears, Installs};

use crate::answer::Answer;
use crate::node::Node;
use bson_doc::Mem;
use repl_msg::{Beat, Body, Record};
use set_model::{Ignored, Reply, Role, Store};

impl Node {
    fn beat(&self) -> Mem<Beat>
        ensures { IfOk result (λ beat. beat ≡ beats.beat_of self.now) }
    {
        Ok(Beat {
            config: self.config.copy()?,
            commit: self.commit,
            visible: self.visible_point(),
            primary: self.role == Role::Primary,
        })
    }

    /// Sends a heartbeat to another node.
    pub fn heartbeat(&self, next: u64, to: u32) -> Mem<Answer>
        ensures { IfOk result (λ answer. Answers (beats.heartbeat next self.now to) answer self.now) }
    {
        self.sends(Reply::Sent(next), to, Body::Heartbeat(self.beat()?))
    }

    /// A candidate that hears a primary becomes a secondary, and its tally is cleared.
    fn give_way(&mut self, beat: &Beat)
        ensures { self.new ≡ beats.given_way self.old beat.now }
    {
        if self.role == Role::Candidate && beat.primary {
            self.role = Role::Secondary;
            self.tally.clear();
        }
    }

    /// A secondary stores a newer configuration. The result is false if that store fails.
    fn install(&mut self, beat: &Beat, failed: &mut Option<u32>) -> Mem<bool>
        requires settled { self.old.doubt ≡ None }
        ensures { IfOk result (λ stands.
            Installs self.old beat.now.config failed.old failed.new stands self.new) }
    {
        if self.role != Role::Secondary || !beat.config.is_newer(&self.config) {
            return Ok(true);
        }
        if !self.store_other(Store::Record(Record::Config(beat.config.copy()?)), failed)? {
            return Ok(false);
        }
        self.config = beat.config.copy()?;
        Ok(true)
    }

    /// A node that isn't primary learns a commit point of the term of its last entry.
    fn hear_commit(&mut self, beat: &Beat)
        ensures { self.new ≡ beats.commit_heard self.old beat.now }
    {
        if self.role != Role::Primary && beat.commit.term == self.last_point().term {
            self.learn(beat.commit);
        }
    }

    /// Takes in a heartbeat. The result is false if a store fails.
    fn hear(&mut self, from: u32, beat: &Beat, failed: &mut Option<u32>) -> Mem<bool>
        requires settled { self.old.doubt ≡ None }
        ensures { IfOk result (λ stands. Hears self.old from beat.now failed.old failed.new stands self.new) }
    {
        self.give_way(beat);
        if !self.install(beat, failed)? {
            return Ok(false);
        }
        self.known.make_room()?;
        self.known.set(from, beat.visible, beat.primary);
        self.hear_commit(beat);
        Ok(true)
    }

    /// Takes a heartbeat of a term, and answers it.
    pub fn beat_told(
        &mut self,
        next: u64,
        from: u32,
        term: u64,
        beat: &Beat,
        failed: &mut Option<u32>,
    ) -> Mem<Answer>
        requires settled { self.old.doubt ≡ None }
        ensures { IfOk result (λ answer.
            Does (beats.beat_told next self.old from term beat.now) failed.old failed.new answer self.new) }
    {
        if term < self.term {
            return Ok(self.ignores(Ignored::OldTerm));
        }
        if !self.hear(from, beat, failed)? {
            return Ok(self.failed());
        }
        self.sends(
            Reply::Replied(next),
            from,
            Body::HeartbeatReply(self.beat()?),
        )
    }

    /// Takes the answer to a heartbeat.
    pub fn beat_answered(
        &mut self,
        from: u32,
        term: u64,
        beat: &Beat,
        failed: &mut Option<u32>,
    ) -> Mem<Answer>
        requires settled { self.old.doubt ≡ None }
        ensures { IfOk result (λ answer.
            Does (beats.beat_answered self.old from term beat.now) failed.old failed.new answer self.new) }
    {
        if term < self.term {
            return Ok(self.ignores(Ignored::OldTerm));
        }
        if !self.hear(from, beat, failed)? {
            return Ok(self.failed());
        }
        Ok(self.replies(Reply::Heard))
    }
}
