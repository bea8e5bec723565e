// Reports of how far a member is durable.
ghost use Rattle.std.specs.Prelude.{◌≡◌, ◌≤◌, length, map, IfOk};
ghost use Rattle.member_config.specs.Numbers.{is_among};
ghost use Rattle.set_model.specs.Outcome.{replied};
ghost use Rattle.set_model.specs.Reports as reports;
ghost use Rattle.checker_node.specs.Done.{Answers};

use crate::answer::Answer;
use crate::node::Node;
use bson_doc::Mem;
use member_config::Member;
use repl_msg::Body;
use rs_optime::OpTime;
use set_model::{Ignored, Reply, Role};

fn has_number(members: &[Member], number: u32) -> bool
    ensures { result ≡ is_among number (map (λ m. m.number) members.now) }
{
    for member in members {
        if member.number == number {
            return true;
        }
    }
    false
}

impl Node {
    /// Reports to another node how far this one is durable.
    pub fn report(&self, next: u64, to: u32) -> Mem<Answer>
        ensures { IfOk result (λ answer. Answers (reports.report next self.now to) answer self.now) }
    {
        let body = Body::Report {
            config: (self.config.term, self.config.version),
            durable: self.durable,
        };
        self.sends(Reply::Sent(next), to, body)
    }

    /// A primary counts a report of a member.
    pub fn report_told(
        &mut self,
        from: u32,
        term: u64,
        config: (u64, u32),
        durable: OpTime,
    ) -> Mem<Reply>
        requires { length self.old.config.members ≤ 50 }
        ensures { IfOk result (λ reply.
            reports.report_told self.old from term config durable ≡ replied reply self.new) }
    {
        if term < self.term {
            return Ok(Reply::Ignored(Ignored::OldTerm));
        }
        if self.role != Role::Primary {
            return Ok(Reply::Ignored(Ignored::NotPrimary));
        }
        if !has_number(self.config.members.as_slice(), from) {
            return Ok(Reply::Ignored(Ignored::NotMember));
        }
        self.progress.note(from, config, durable)?;
        self.evaluate();
        Ok(Reply::Counted(self.commit))
    }
}
