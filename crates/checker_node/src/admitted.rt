// The effect of a write on a node.
ghost use Rattle.std.specs.Prelude.{◌≡◌, IfOk};
ghost use Rattle.set_model.specs.Admitted.{admitted};
ghost use Rattle.node_answers.specs.Admits.{IsRefusal};
ghost use Rattle.checker_node.specs.Admits.{LogsSuch, MayBeLogged, op_to_log};
ghost use Rattle.safety_laws.specs.Sound.{IsSoundNode};

use crate::node::Node;
use bson_doc::Mem;
use doc_update::{Prepared, WriteOp, WriteRefusal, check, prepare};
use oplog_entry::SharedOp;
use set_model::{Refusal, Reply};
use std::alloc::AllocError;

/// The refusal for the reason against a write.
fn refusal(why: WriteRefusal) -> Mem<Refusal>
    ensures { IfOk result (λ refusal. IsRefusal why refusal) }
{
    Ok(match why {
        WriteRefusal::DuplicateKey => Refusal::DuplicateKey,
        WriteRefusal::NoId => Refusal::NoId,
        WriteRefusal::BadIdKind => Refusal::BadIdKind,
        WriteRefusal::ImmutableId => Refusal::ImmutableId,
        WriteRefusal::IncType => Refusal::IncType,
        WriteRefusal::IncOverflow => Refusal::IncOverflow,
        WriteRefusal::DocTooLarge => Refusal::DocTooLarge,
        WriteRefusal::BadUpdate(rule) => Refusal::BadUpdate(rule),
        WriteRefusal::Memory => return Err(AllocError),
    })
}

impl Node {
    /// The effect of a write on the latest documents, or why there is none.
    fn admit(&mut self, op: &WriteOp) -> Mem<Result<Prepared, Refusal>>
        requires sound { IsSoundNode self.old }
        ensures effect { IfOk result (λ effect. effect ≡ admitted self.old op.now) }
        ensures lawful { IfOk result (λ effect. IfOk effect LogsSuch) }
        ensures same { self.new ≡ self.old }
    {
        let place = match check(self.alloc, op) {
            Ok(place) => place,
            Err(why) => return Ok(Err(refusal(why)?)),
        };
        if let Some(writer) = self.writers.holder(&place)? {
            return Ok(Err(Refusal::WriteConflict(writer)));
        }
        let alloc = self.alloc;
        match prepare(alloc, op, self.log.latest(&place)?) {
            Ok(effect) => Ok(Ok(effect)),
            Err(why) => Ok(Err(refusal(why)?)),
        }
    }

    /// The op that a write logs, or the reply if it logs none.
    pub(crate) fn op_to_log(&mut self, op: &WriteOp) -> Mem<Result<SharedOp, Reply>>
        requires sound { IsSoundNode self.old }
        ensures op { IfOk result (λ found. found ≡ op_to_log (admitted self.old op.now)) }
        ensures lawful { IfOk result (λ found. IfOk found MayBeLogged) }
        ensures same { self.new ≡ self.old }
    {
        match self.admit(op)? {
            Ok(Prepared::Entry { op, .. }) => Ok(Ok(SharedOp::new(self.alloc, op)?)),
            Ok(Prepared::NoMatch) => Ok(Err(Reply::NoMatch)),
            Ok(Prepared::Unchanged) => Ok(Err(Reply::Unchanged)),
            Err(why) => Ok(Err(Reply::Refused(why))),
        }
    }
}
