// Writers in two steps.
ghost use Rattle.std.specs.Prelude.{◌≡◌, ◌-◌, ◌^◌, ◌<◌, true, false, None, Ok, IfOk, OnErr};
ghost use Rattle.std.specs.FinMap as maps;
ghost use Rattle.doc_update.specs.Borrowed.{shown};
ghost use Rattle.set_model.specs.Holds.{holder};
ghost use Rattle.set_model.specs.Limits.{is_collection, collection_of};
ghost use Rattle.set_model.specs.Outcome.{replied};
ghost use Rattle.set_model.specs.Writers.{begin, begun, commit, abort};
ghost use Rattle.node_answers.specs.Admits.{CanBeLogged};
ghost use Rattle.node_data.specs.Writers.{IsWriting, is_open};

use crate::admitted::Admission;
use crate::write::admit;
use bson_doc::Mem;
use doc_update::{BorrowedWrite, Prepared};
use node_state::State;
use set_model::{Refusal, Reply, Role, Writer};

/// Opens a slot for a write.
#[tactic(auto, using(crate::proofs::AdmitLemmas::closed_writers))]
pub(crate) fn begin(state: &mut State, writer: u32, borrowed: BorrowedWrite<'_>) -> Mem<Reply>
    requires seen { state.old.node.seen < 2 ^ 64 - 1 }
    requires name { is_collection (collection_of (shown borrowed)) ≡ true }
    ensures ok { IfOk result (λ reply.
        begin state.old.node writer (shown borrowed.entry) ≡ replied reply state.new.node) }
    ensures err { OnErr result (state.new.node ≡ state.old.node) }
{
    if state.role != Role::Primary {
        return Ok(Reply::Refused(Refusal::NotPrimary));
    }
    if state.node_data.is_writing(writer) {
        return Ok(Reply::Refused(Refusal::WriterOpen));
    }
    match admit(state, borrowed) {
        Ok(Ok(admission)) => begin_admitted(state, writer, admission),
        Ok(Err(why)) => Ok(Reply::Refused(why)),
        Err(error) => Err(error),
    }
}

/// Opens a slot for a write that isn't refused.
#[tactic(auto, using(crate::proofs::AdmitLemmas::closed_writers))]
fn begin_admitted(state: &mut State, writer: u32, admission: Admission) -> Mem<Reply>
    requires seen { state.old.node.seen < 2 ^ 64 - 1 }
    requires role { state.old.node.role ≡ Role.Primary }
    requires closed { is_open (maps.get state.old.node.writers writer) ≡ false }
    requires free { holder state.old.node (admission.ns, admission.id) ≡ None }
    requires can { CanBeLogged state.old.node (admission.ns, admission.id) admission.effect }
    ensures ok { IfOk result (λ reply.
        begun state.old.node writer (Ok admission.effect) ≡ replied reply state.new.node) }
    ensures err { OnErr result (state.new.node ≡ state.old.node) }
{
    let Admission { ns, id, effect } = admission;
    match effect {
        Prepared::NoMatch => Ok(Reply::NoMatch),
        Prepared::Unchanged => Ok(Reply::Unchanged),
        Prepared::Entry { op, .. } => {
            let at = state.next();
            state.node_data.recall_sound();
            state.node_data.open(at, writer, ns.as_str(), &id, op)?;
            Ok(Reply::Begun(at))
        }
    }
}

/// Writes a writer's entry at its slot.
pub(crate) fn commit(state: &mut State, writer: u32) -> Mem<Reply>
    ensures ok { IfOk result (λ reply. commit state.old.node writer ≡ replied reply state.new.node) }
    ensures err { OnErr result (state.new.node ≡ state.old.node) }
{
    match state.node_data.writer(writer) {
        Some(Writer::Open { .. }) => commit_open(state, writer),
        Some(Writer::Lost(term)) => Ok(Reply::Refused(Refusal::SteppedDown(*term))),
        Some(Writer::Done(_)) | None => Ok(Reply::Refused(Refusal::NoSuchWriter)),
    }
}

fn commit_open(state: &mut State, writer: u32) -> Mem<Reply>
    requires { IsWriting state.old.node.writers writer }
    ensures ok { IfOk result (λ reply. commit state.old.node writer ≡ replied reply state.new.node) }
    ensures err { OnErr result (state.new.node ≡ state.old.node) }
{
    state.node_data.recall_sound();
    state.unjournaled.reserve(1)?;
    let at = state.node_data.settle(writer)?;
    state.unjournaled.add(at);
    state.node_data.recall_sound();
    Ok(Reply::Committed(at))
}

/// Closes a writer's slot without an entry.
pub(crate) fn abort(state: &mut State, writer: u32) -> Reply
    ensures { abort state.old.node writer ≡ replied result state.new.node }
{
    match state.node_data.writer(writer) {
        Some(Writer::Open { .. }) => abort_open(state, writer),
        Some(Writer::Lost(term)) => Reply::Refused(Refusal::SteppedDown(*term)),
        Some(Writer::Done(_)) | None => Reply::Refused(Refusal::NoSuchWriter),
    }
}

fn abort_open(state: &mut State, writer: u32) -> Reply
    requires { IsWriting state.old.node.writers writer }
    ensures { abort state.old.node writer ≡ replied result state.new.node }
{
    state.node_data.recall_sound();
    state.node_data.abort(writer);
    Reply::Aborted
}
