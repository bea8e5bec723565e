// Writers in two steps.
ghost use Rattle.std.specs.Prelude.{◌≡◌, None, IfOk};
ghost use Rattle.std.specs.FinMap as maps;
ghost use Rattle.oplog_store.specs.Log.{IsOplog, with_entry};
ghost use Rattle.set_model.specs.Outcome.{replied};
ghost use Rattle.set_model.specs.Writers as writers;
ghost use Rattle.node_data.specs.Writers.{is_open};
ghost use Rattle.checker_node.specs.Slots.{slot_of};
ghost use Rattle.safety_laws.specs.Sound.{IsSoundNode};
ghost use Rattle.checker_node.specs.Sound.{IsReady};

use crate::node::Node;
use bson_doc::Mem;
use doc_update::WriteOp;
use oplog_entry::{Entry, SharedOp};
use rs_optime::OpTime;
use set_model::{Refusal, Reply, Role, Writer};

impl Node {
    /// Opens a slot for a write.
    #[tactic(auto, using(node_answers::proofs::AdmitLemmas::closed_writers, crate::proofs::WriteLemmas::logging))]
    pub fn begin(&mut self, writer: u32, op: &WriteOp) -> Mem<Reply>
        requires ready { IsReady self.old }
        ensures { IfOk result (λ reply. writers.begin self.old writer op.now ≡ replied reply self.new) }
    {
        if self.role != Role::Primary {
            return Ok(Reply::Refused(Refusal::NotPrimary));
        }
        if self.is_writing(writer) {
            return Ok(Reply::Refused(Refusal::WriterOpen));
        }
        match self.op_to_log(op)? {
            Ok(op) => Ok(Reply::Begun(self.open_slot(writer, op)?)),
            Err(reply) => Ok(reply),
        }
    }

    /// Whether a writer has an open slot.
    fn is_writing(&self, writer: u32) -> bool
        ensures { result ≡ is_open (maps.get self.now.writers writer) }
    {
        match self.writers.get(writer) {
            Some(Writer::Open { .. }) => true,
            Some(Writer::Done(_) | Writer::Lost(_)) | None => false,
        }
    }

    /// The slot of a writer and its op, or why it has none.
    fn slot(&self, writer: u32) -> Mem<Result<(OpTime, SharedOp), Refusal>>
        ensures { IfOk result (λ slot. slot ≡ slot_of (maps.get self.now.writers writer)) }
    {
        match self.writers.get(writer) {
            Some(Writer::Open { at, op }) => Ok(Ok((*at, op.copy()?))),
            Some(Writer::Lost(term)) => Ok(Err(Refusal::SteppedDown(*term))),
            Some(Writer::Done(_)) | None => Ok(Err(Refusal::NoSuchWriter)),
        }
    }

    /// Writes a writer's entry at its slot.
    pub fn commit(&mut self, writer: u32) -> Mem<Reply>
        requires { IsSoundNode self.old }
        ensures { IfOk result (λ reply. writers.commit self.old writer ≡ replied reply self.new) }
    {
        match self.slot(writer)? {
            Ok((at, op)) => self.settle(writer, at, op),
            Err(why) => Ok(Reply::Refused(why)),
        }
    }

    fn settle(&mut self, writer: u32, at: OpTime, op: SharedOp) -> Mem<Reply>
        requires { IsOplog (with_entry self.old.log (record { optime = at; op = op; session = None })) }
        ensures { IfOk result (λ reply.
            replied (Reply.Committed at) (writers.settled self.old writer at op) ≡ replied reply self.new) }
    {
        self.slots.remove(at);
        self.put(Entry {
            optime: at,
            op,
            session: None,
        })?;
        self.writers.insert(writer, Writer::Done(at))?;
        Ok(Reply::Committed(at))
    }

    /// Closes a writer's slot with no entry.
    pub fn abort(&mut self, writer: u32) -> Mem<Reply>
        ensures { IfOk result (λ reply. writers.abort self.old writer ≡ replied reply self.new) }
    {
        let at = match self.slot(writer)? {
            Ok((at, _)) => at,
            Err(why) => return Ok(Reply::Refused(why)),
        };
        self.slots.remove(at);
        self.writers.remove(writer);
        Ok(Reply::Aborted)
    }
}
