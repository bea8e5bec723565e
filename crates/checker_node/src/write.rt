// Writes that are reserved and committed at once.
ghost use Rattle.std.specs.Prelude.{◌≡◌, IfOk, IfSome};
ghost use Rattle.set_model.specs.Outcome.{replied};
ghost use Rattle.set_model.specs.Write as writes;
ghost use Rattle.oplog_entry.specs.Lawful.{IsSession};
ghost use Rattle.checker_node.specs.Sound.{IsReady};

use crate::node::Node;
use bson_doc::Mem;
use doc_update::WriteOp;
use oplog_entry::{Op, Session, SharedOp};
use set_model::{Refusal, Reply, Role};

impl Node {
    /// A write in one step.
    pub fn write(&mut self, op: &WriteOp) -> Mem<Reply>
        requires ready { IsReady self.old }
        ensures { IfOk result (λ reply. writes.write self.old op.now ≡ replied reply self.new) }
    {
        if self.role != Role::Primary {
            return Ok(Reply::Refused(Refusal::NotPrimary));
        }
        self.write_in(None, op)
    }

    /// A write, of a session or of none.
    #[tactic(auto, using(crate::proofs::WriteLemmas::logging))]
    fn write_in(&mut self, session: Option<Session>, op: &WriteOp) -> Mem<Reply>
        requires ready { IsReady self.old }
        requires session { IfSome session IsSession }
        ensures { IfOk result (λ reply. writes.write_in self.old session op.now ≡ replied reply self.new) }
    {
        match self.op_to_log(op)? {
            Ok(op) => Ok(Reply::Written(self.log_op(op, session)?)),
            Err(reply) => Ok(reply),
        }
    }

    /// A write that a client may ask for again.
    pub fn retry(&mut self, session: Session, op: &WriteOp) -> Mem<Reply>
        requires ready { IsReady self.old }
        requires session { IsSession session }
        ensures { IfOk result (λ reply. writes.retry self.old session op.now ≡ replied reply self.new) }
    {
        if self.role != Role::Primary {
            return Ok(Reply::Refused(Refusal::NotPrimary));
        }
        if let Some(last) = self.log.last_write(session.id)? {
            if session.number < last.number {
                return Ok(Reply::Refused(Refusal::OldNumber(last.number)));
            }
            if session.number == last.number {
                return Ok(Reply::Written(last.at));
            }
        }
        self.write_in(Some(session), op)
    }

    /// An entry that touches no document.
    pub fn note(&mut self) -> Mem<Reply>
        requires ready { IsReady self.old }
        ensures { IfOk result (λ reply. writes.note self.old ≡ replied reply self.new) }
    {
        if self.role != Role::Primary {
            return Ok(Reply::Refused(Refusal::NotPrimary));
        }
        let op = SharedOp::new(self.alloc, Op::Note)?;
        Ok(Reply::Written(self.log_op(op, None)?))
    }
}
