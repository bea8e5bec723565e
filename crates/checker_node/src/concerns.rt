// Acknowledgements.
ghost use Rattle.std.specs.Prelude.{◌≡◌, ◌≤◌, length};
ghost use Rattle.std.specs.FinMap as maps;
ghost use Rattle.part_laws.specs.Concerns.{concern_of, refusal_of};
ghost use Rattle.repl_msg.specs.Logs.{has_entry};
ghost use Rattle.set_model.specs.Concerns as concerns;
ghost use Rattle.set_model.specs.Outcome.{replied};

use crate::node::Node;
use rs_optime::OpTime;
use set_model::{AckConcern, Refusal, Reply, Role, Target, Writer};
use write_concern::{Concern, ConcernAnswer, answer};

fn concern(concern: AckConcern) -> Concern
    ensures { result ≡ concern_of concern }
{
    match concern {
        AckConcern::Majority => Concern::Majority,
        AckConcern::Count(count) => Concern::Count(count),
    }
}

fn refusal(answer: ConcernAnswer) -> Option<Refusal>
    ensures { result ≡ refusal_of answer }
{
    match answer {
        ConcernAnswer::Acked => None,
        ConcernAnswer::Waiting { held, needed } => Some(Refusal::Waiting { held, needed }),
        ConcernAnswer::CannotSatisfy { members } => Some(Refusal::CannotSatisfy(members)),
    }
}

impl Node {
    /// Whether what was written is as safe as the concern asks.
    pub fn ack(&self, target: Target, concern: AckConcern) -> Reply
        requires { length self.now.config.members ≤ 50 }
        ensures { concerns.ack self.now target concern ≡ replied result self.now }
    {
        let at = match self.target_point(target) {
            Ok(at) => at,
            Err(why) => return Reply::Refused(why),
        };
        match self.ack_refusal(at, concern) {
            Some(why) => Reply::Refused(why),
            None => Reply::Acked(at),
        }
    }

    /// The optime that is to be acknowledged.
    fn target_point(&self, target: Target) -> Result<OpTime, Refusal>
        ensures { result ≡ concerns.target_point self.now target }
    {
        match target {
            Target::At(at) => Ok(at),
            Target::Writer(number) => self.written_by(number),
        }
    }

    fn written_by(&self, number: u32) -> Result<OpTime, Refusal>
        ensures { result ≡ concerns.written_by (maps.get self.now.writers number) }
    {
        match self.writers.get(number) {
            None => Err(Refusal::NoSuchWriter),
            Some(Writer::Open { .. }) => Err(Refusal::WriterOpen),
            Some(Writer::Lost(term)) => Err(Refusal::SteppedDown(*term)),
            Some(Writer::Done(at)) => Ok(*at),
        }
    }

    /// Why an optime can't be acknowledged.
    fn ack_refusal(&self, at: OpTime, concern: AckConcern) -> Option<Refusal>
        requires { length self.now.config.members ≤ 50 }
        ensures { result ≡ concerns.ack_refusal self.now at concern }
    {
        if self.role != Role::Primary {
            return Some(Refusal::NotPrimary);
        }
        if at.term != self.term {
            return Some(Refusal::SteppedDown(at.term));
        }
        if !self.has(at) {
            return Some(Refusal::NoSuchWriter);
        }
        self.unmet(at, concern)
    }

    /// Whether an entry has this optime.
    fn has(&self, at: OpTime) -> bool
        ensures { result ≡ has_entry self.now.log at }
    {
        self.log.log().find(at).is_some()
    }

    /// Why the concern isn't met.
    fn unmet(&self, at: OpTime, asked: AckConcern) -> Option<Refusal>
        requires { length self.now.config.members ≤ 50 }
        ensures { result ≡ concerns.unmet self.now at asked }
    {
        refusal(answer(
            &self.progress,
            &self.config,
            self.number,
            self.durable,
            self.commit,
            at,
            concern(asked),
        ))
    }
}
