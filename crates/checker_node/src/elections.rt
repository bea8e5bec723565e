// Campaigns, dry runs, draining and stepping down.
ghost use Rattle.std.specs.Prelude.{◌≡◌, ◌+◌, ◌≤◌, length, IfOk, OnOk};
ghost use Rattle.member_config.specs.Config.{in_term};
ghost use Rattle.set_model.specs.Elections as elections;
ghost use Rattle.set_model.specs.Outcome.{replied};
ghost use Rattle.checker_node.specs.Done.{Answers, Does, IsEnd};
ghost use Rattle.checker_node.specs.Sound.{IsReady};

use crate::answer::Answer;
use crate::node::Node;
use crate::stores::vote_record;
use bson_doc::Mem;
use commit_point::Progress;
use election_core::DryRun;
use member_config::Config;
use oplog_entry::SharedOp;
use repl_msg::Record;
use set_model::{Refusal, Reply, Role, Store};

/// The same members in a configuration of this term.
pub(crate) fn in_term(config: &Config, term: u64) -> Mem<Config>
    ensures { IfOk result (λ copy. copy ≡ in_term config.now term) }
{
    let mut copy = config.copy()?;
    copy.term = term;
    Ok(copy)
}

impl Node {
    /// Why the node can't be a candidate.
    fn candidate_refusal(&self) -> Option<Refusal>
        ensures { result ≡ elections.candidate_refusal self.now }
    {
        if !self.config.is_electable(self.number) {
            return Some(Refusal::NotElectable(1));
        }
        match self.role {
            Role::Draining | Role::Primary => Some(Refusal::NotElectable(2)),
            Role::Secondary | Role::Candidate => None,
        }
    }

    /// The node votes for itself in the next term, and asks the other voters.
    pub fn campaign(&mut self, next: u64, failed: &mut Option<u32>) -> Mem<Answer>
        requires ready { IsReady self.old }
        ensures { IfOk result (λ answer.
            Does (elections.campaign next self.old) failed.old failed.new answer self.new) }
    {
        if let Some(why) = self.candidate_refusal() {
            return Ok(self.refuses(why));
        }
        let term = self.term + 1;
        let own = self.number;
        if !self.store_other(vote_record(term, Some(own)), failed)? {
            return Ok(self.failed());
        }
        self.stand(term)?;
        self.ask_voters(next)
    }

    /// The node becomes a candidate in this term, with its own vote.
    fn stand(&mut self, term: u64) -> Mem<()>
        requires { term ≡ self.old.term + 1 }
        ensures { OnOk result (self.new ≡ elections.candidate self.old) }
    {
        let own = self.number;
        self.enter_term(term, Some(own));
        self.role = Role::Candidate;
        self.tally.push(own)?;
        Ok(())
    }

    /// A candidate asks the others. Where its own vote is a majority, it has won.
    fn ask_voters(&mut self, next: u64) -> Mem<Answer>
        requires { length self.old.config.members ≤ 50 }
        ensures { IfOk result (λ answer. Answers (elections.campaigned next self.old) answer self.new) }
    {
        let sent = self.asks(false)?;
        let term = self.term;
        if self.is_elected() {
            self.role = Role::Draining;
            return Ok(Answer {
                reply: Reply::Won(term),
                sent,
            });
        }
        let reply = Reply::Candidate {
            term,
            first: next,
            count: sent.len() as u32,
        };
        Ok(Answer { reply, sent })
    }

    /// The node asks who would vote for it in its term.
    pub fn dry_run(&mut self, next: u64) -> Mem<Answer>
        requires { length self.old.config.members ≤ 50 }
        ensures { IfOk result (λ answer. IsEnd (elections.dry_run next self.old) answer self.new) }
    {
        if let Some(why) = self.candidate_refusal() {
            return Ok(self.refuses(why));
        }
        let config = self.config.copy()?;
        self.dry_tally = Some(DryRun::new(self.alloc, self.number, self.term, config)?);
        let sent = self.asks(true)?;
        let reply = Reply::DryRun {
            term: self.term,
            first: next,
            count: sent.len() as u32,
        };
        Ok(Answer { reply, sent })
    }

    /// A node that won applies its log, has its configuration in its term, and is primary.
    pub fn drain(&mut self, failed: &mut Option<u32>) -> Mem<Answer>
        requires ready { IsReady self.old }
        ensures { IfOk result (λ answer.
            Does (elections.drain self.old) failed.old failed.new answer self.new) }
    {
        if self.role != Role::Draining {
            return Ok(self.refuses(Refusal::NotPrimary));
        }
        let config = in_term(&self.config, self.term)?;
        if !self.store_other(Store::Record(Record::Config(config.copy()?)), failed)? {
            return Ok(self.failed());
        }
        self.lead(config);
        let noop = self.log_op(SharedOp::noop(), None)?;
        self.evaluate();
        Ok(self.replies(Reply::Primary {
            term: self.term,
            noop,
        }))
    }

    /// The node is primary, with its configuration in its term and its whole log applied.
    fn lead(&mut self, config: Config)
        requires { config ≡ in_term self.old.config self.old.term }
        ensures { self.new ≡ elections.drained self.old }
    {
        self.config = config;
        self.applied = self.last_point();
        self.progress = Progress::new(self.alloc);
        self.role = Role::Primary;
    }

    /// A node that isn't a secondary becomes one.
    pub fn step_down(&mut self) -> Reply
        ensures { elections.step_down self.old ≡ replied result self.new }
    {
        if self.role == Role::Secondary {
            return Reply::Refused(Refusal::NotPrimary);
        }
        self.be_secondary();
        Reply::Secondary
    }
}
