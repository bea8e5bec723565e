// Writes that are reserved and committed at once.
ghost use Rattle.std.specs.Prelude.{◌≡◌, ◌-◌, ◌^◌, ◌<◌, true, None, Ok, IfOk, IfSome, OnErr};
ghost use Rattle.doc_update.specs.Check.{checked};
ghost use Rattle.doc_update.specs.Borrowed.{shown};
ghost use Rattle.oplog_entry.specs.Lawful.{IsSession};
ghost use Rattle.set_model.specs.Holds.{holder};
ghost use Rattle.set_model.specs.Limits.{IsSoundWrite, is_collection, collection_of};
ghost use Rattle.set_model.specs.Outcome.{replied};
ghost use Rattle.set_model.specs.Write.{note, retry, write, write_in, written};
ghost use Rattle.node_answers.specs.Admits.{Admits, CanBeLogged};

use crate::admitted::{Admission, refusal};
use bson_doc::{IdKey, Mem, Text};
use doc_update::{BorrowedWrite, Prepared, check_borrowed, prepare_borrowed};
use node_state::State;
use oplog_entry::Session;
use set_model::{Refusal, Reply, Role};

/// The effect of a write on the latest documents of a primary.
pub(crate) fn admit(state: &State, borrowed: BorrowedWrite<'_>) -> Mem<Result<Admission, Refusal>>
    requires role { state.now.node.role ≡ Role.Primary }
    requires name { is_collection (collection_of (shown borrowed)) ≡ true }
    ensures { IfOk result (λ admission. Admits state.now.node (shown borrowed.entry) admission) }
{
    state.node_data.recall_sound();
    borrowed.recall_sound();
    match check_borrowed(state.alloc, borrowed) {
        Ok((ns, id)) => admit_at(state, ns, id, borrowed),
        Err(why) => Ok(Err(refusal(why)?)),
    }
}

/// The effect of a write to this place.
fn admit_at(
    state: &State,
    ns: Text,
    id: IdKey,
    borrowed: BorrowedWrite<'_>,
) -> Mem<Result<Admission, Refusal>>
    requires role { state.now.node.role ≡ Role.Primary }
    requires name { is_collection (collection_of (shown borrowed)) ≡ true }
    requires place { checked (shown borrowed) ≡ Ok (ns, id) }
    requires sound { IsSoundWrite (shown borrowed) }
    ensures { IfOk result (λ admission. Admits state.now.node (shown borrowed.entry) admission) }
{
    state.node_data.recall_sound();
    let found = state.node_data.current(ns.as_str(), &id);
    if let Some(writer) = found.holder {
        return Ok(Err(Refusal::WriteConflict(writer)));
    }
    match prepare_borrowed(state.alloc, borrowed, found.latest) {
        Ok(effect) => Ok(Ok(Admission { ns, id, effect })),
        Err(why) => Ok(Err(refusal(why)?)),
    }
}

/// Writes an entry for a write without a session, at once.
pub(crate) fn write_at_once(state: &mut State, borrowed: BorrowedWrite<'_>) -> Mem<Reply>
    requires seen { state.old.node.seen < 2 ^ 64 - 1 }
    requires name { is_collection (collection_of (shown borrowed)) ≡ true }
    ensures ok { IfOk result (λ reply.
        write state.old.node (shown borrowed.entry) ≡ replied reply state.new.node) }
    ensures err { OnErr result (state.new.node ≡ state.old.node) }
{
    if state.role != Role::Primary {
        return Ok(Reply::Refused(Refusal::NotPrimary));
    }
    write_in(state, borrowed, None)
}

/// Writes an entry for a write that a primary takes, with its session or none.
fn write_in(state: &mut State, borrowed: BorrowedWrite<'_>, session: Option<Session>) -> Mem<Reply>
    requires seen { state.old.node.seen < 2 ^ 64 - 1 }
    requires role { state.old.node.role ≡ Role.Primary }
    requires name { is_collection (collection_of (shown borrowed)) ≡ true }
    requires session { IfSome session IsSession }
    ensures ok { IfOk result (λ reply.
        write_in state.old.node session (shown borrowed.entry) ≡ replied reply state.new.node) }
    ensures err { OnErr result (state.new.node ≡ state.old.node) }
{
    match admit(state, borrowed) {
        Ok(Ok(admission)) => write_admitted(state, admission, session),
        Ok(Err(why)) => Ok(Reply::Refused(why)),
        Err(error) => Err(error),
    }
}

/// Does a session's write, unless it was done before, or is older than the last one done.
pub(crate) fn retry(state: &mut State, session: Session, borrowed: BorrowedWrite<'_>) -> Mem<Reply>
    requires seen { state.old.node.seen < 2 ^ 64 - 1 }
    requires name { is_collection (collection_of (shown borrowed)) ≡ true }
    requires session { IsSession session }
    ensures ok { IfOk result (λ reply.
        retry state.old.node session (shown borrowed.entry) ≡ replied reply state.new.node) }
    ensures err { OnErr result (state.new.node ≡ state.old.node) }
{
    if state.role != Role::Primary {
        return Ok(Reply::Refused(Refusal::NotPrimary));
    }
    if let Some(last) = state.node_data.last_write(session.id) {
        if session.number < last.number {
            return Ok(Reply::Refused(Refusal::OldNumber(last.number)));
        }
        if session.number == last.number {
            return Ok(Reply::Written(last.at));
        }
    }
    write_in(state, borrowed, Some(session))
}

/// Writes an entry that touches no document.
pub(crate) fn note(state: &mut State) -> Mem<Reply>
    requires seen { state.old.node.seen < 2 ^ 64 - 1 }
    ensures ok { IfOk result (λ reply. note state.old.node ≡ replied reply state.new.node) }
    ensures err { OnErr result (state.new.node ≡ state.old.node) }
{
    if state.role != Role::Primary {
        return Ok(Reply::Refused(Refusal::NotPrimary));
    }
    let at = state.next();
    state.node_data.recall_sound();
    state.unjournaled.reserve(1)?;
    state.node_data.write_note(at)?;
    state.unjournaled.add(at);
    state.node_data.recall_sound();
    Ok(Reply::Written(at))
}

/// Writes an entry for a write that isn't refused.
fn write_admitted(state: &mut State, admission: Admission, session: Option<Session>) -> Mem<Reply>
    requires seen { state.old.node.seen < 2 ^ 64 - 1 }
    requires role { state.old.node.role ≡ Role.Primary }
    requires free { holder state.old.node (admission.ns, admission.id) ≡ None }
    requires session { IfSome session IsSession }
    requires can { CanBeLogged state.old.node (admission.ns, admission.id) admission.effect }
    ensures ok { IfOk result (λ reply.
        written state.old.node session (Ok admission.effect) ≡ replied reply state.new.node) }
    ensures err { OnErr result (state.new.node ≡ state.old.node) }
{
    let Admission { ns, id, effect } = admission;
    match effect {
        Prepared::NoMatch => Ok(Reply::NoMatch),
        Prepared::Unchanged => Ok(Reply::Unchanged),
        Prepared::Entry { op, after } => {
            let at = state.next();
            state.node_data.recall_sound();
            state.unjournaled.reserve(1)?;
            state.node_data.write(at, ns, id, op, after, session)?;
            state.unjournaled.add(at);
            state.node_data.recall_sound();
            Ok(Reply::Written(at))
        }
    }
}
