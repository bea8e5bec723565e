// Rolling back what a later primary doesn't have.
ghost use Rattle.std.specs.Prelude.{◌≡◌, map, nat_lt, None, IfOk, OnErr, OnOk};
ghost use Rattle.repl_msg.specs.Logs.{log_after};
ghost use Rattle.repl_msg.specs.Rollback.{common_point};
ghost use Rattle.rollback_core.specs.Lost.{lost_of};
ghost use Rattle.set_model.specs.Reads.{local_documents};
ghost use Rattle.set_model.specs.Rollback as rows;
ghost use Rattle.set_model.specs.Rollback.{cut_record};
ghost use Rattle.set_model.specs.Safety.{AtMost};
ghost use Rattle.set_model.specs.Stores.{finished, stored};
ghost use Rattle.node_messages.specs.Ahead.{IsInTerm, IsPreparedFor, in_term, view_in_term};
ghost use Rattle.node_state.specs.Bounds.{IsBounded};
ghost use Rattle.node_state.specs.Ready.{IsCut, IsReadyMessage, IsReadyTurn};
ghost use Rattle.node_messages.specs.Rolling.{point_or, reached, rolled_node};
ghost use Rattle.node_state.specs.MessageContinuation.{message_plan};
ghost use Rattle.node_state.specs.Turns.{Means, rest_of};
ghost use Rattle.node_state.specs.declared.turn.Continuation.TheVariants as continuations;
ghost use Rattle.node_state.specs.declared.turn.MessageContinuation.TheVariants as message_continuations;

use crate::preparing::{InTerm, in_term};
use bson_doc::Mem;
use node_state::{Continuation, MessageContinuation, State, Turn, earlier};
use repl_msg::{Body, Message, OptimeList, Record};
use rollback_core::{LostDocument, RollbackRefusal};
use rs_optime::OpTime;
use set_model::{Ignored, LostList, Refusal, Reply, Role, Store};
use std::alloc::Global;
use std::thread::Threads;

/// The most optimes that are sent at once.
const MOST_OPTIMES: usize = 20_000;

/// Lost documents, each by its place.
fn listed(alloc: Global, documents: Vec<LostDocument>) -> Mem<LostList>
    ensures { IfOk result (λ lost. lost ≡ map lost_of documents.items) }
{
    let mut lost = LostList::new(alloc);
    for document in documents {
        lost.push((document.ns, document.id), document.doc)?;
    }
    Ok(lost)
}

/// Refuses a request whose answer would list more than 20,000 optimes.
pub(crate) fn common_refusal(state: &mut State, term: u64, after: OpTime) -> Option<Refusal>
    ensures refusal { result ≡ rows.common_refusal state.old.node term after }
    ensures same { state.new ≡ state.old }
{
    state.recall_sound();
    let own = in_term(state, term);
    if state.node_data.count_between(after, own.visible) > MOST_OPTIMES {
        return Some(Refusal::TooManyOptimes);
    }
    None
}

/// Prepares the answer to a node that looks for the common point: the visible optimes after that
/// node's commit point.
pub(crate) fn prepare_common_asked(
    state: &mut State,
    next: u64,
    message: &Message,
    after: OpTime,
    own: InTerm,
) -> Mem<MessageContinuation>
    requires own { IsInTerm own message.now.term state.old.node }
    ensures told { IfOk result (λ told.
        IsPreparedFor told (nat_lt state.old.node.term message.now.term) message.now.term
        (λ node. finished (rows.common_asked next node message.now.from after))
        state.old.node state.new.node) }
    ensures ready { IfOk result (λ told. IsReadyMessage told
        (view_in_term (nat_lt state.old.node.term message.now.term) message.now.term state.new)) }
    ensures same { state.new ≡ state.old }
{
    state.recall_sound();
    let body = Body::CommonReply {
        after,
        optimes: state.node_data.optimes_between(after, own.visible)?,
        visible: own.visible,
    };
    let sent = state.message_in(own.term, message.from, body)?;
    Ok(MessageContinuation::Answered { next, sent })
}

/// Prepares a rollback to the common point, by the optimes later than `after` that the source has.
pub(crate) fn prepare_common_told<R: Threads + Sync>(
    state: &mut State,
    rt: &R,
    message: &Message,
    after: OpTime,
    optimes: &OptimeList,
    visible: OpTime,
    own: InTerm,
) -> Mem<MessageContinuation>
    requires bounds { IsBounded state.old.node }
    requires own { IsInTerm own message.now.term state.old.node }
    requires common { rows.rollback_reason (in_term message.now.term state.old.node) message.now.term after
        optimes.now visible ≡ None
        → AtMost state.old.node.commit (common_point state.old.node.log after optimes.now) }
    ensures told { IfOk result (λ told.
        IsPreparedFor told (nat_lt state.old.node.term message.now.term) message.now.term
        (λ node. rows.common_told node message.now.term after optimes.now visible)
        state.old.node state.new.node) }
    ensures ready { IfOk result (λ told. IsReadyMessage told
        (view_in_term (nat_lt state.old.node.term message.now.term) message.now.term state.new)) }
    ensures err { OnErr result (state.new.node ≡ state.old.node) }
{
    state.node_data.recall_sound();
    let point = match rollback_point(state, message.term, after, optimes, visible, own) {
        Ok(point) => point,
        Err(why) => return Ok(MessageContinuation::Ignored(why)),
    };
    let removed = state.node_data.count_after(point);
    let lost = lost_after(state, point)?;
    reach(state, rt, point)?;
    Ok(MessageContinuation::RolledBack {
        point,
        removed,
        lost,
    })
}

/// The point to which the node rolls back, or why it doesn't.
fn rollback_point(
    state: &mut State,
    term: u64,
    after: OpTime,
    optimes: &OptimeList,
    visible: OpTime,
    own: InTerm,
) -> Result<OpTime, Ignored>
    ensures point { result ≡ point_or
        (rows.rollback_reason (record state.old.node { term = own.term; role = own.role }) term after
        optimes.now visible) (common_point state.old.node.log after optimes.now) }
    ensures same { state.new ≡ state.old }
{
    if !own.follows() {
        return Err(Ignored::NotSecondary);
    }
    if own.is_after(term) {
        return Err(Ignored::OldTerm);
    }
    match state
        .node_data
        .rollback_plan(own.term, visible, after, optimes.as_slice())
    {
        Ok(point) => Ok(point),
        Err(RollbackRefusal::NotOlder) => Err(Ignored::NotOlder),
        Err(RollbackRefusal::SameBranch) => Err(Ignored::SameBranch),
    }
}

/// The current documents that the entries after a point touched.
fn lost_after(state: &mut State, point: OpTime) -> Mem<LostList>
    ensures lost { IfOk result (λ lost.
        lost ≡ rows.lost_documents (local_documents state.old.node) (log_after point state.old.node.log)) }
    ensures same { state.new ≡ state.old }
{
    listed(state.alloc, state.node_data.lost_after(point)?)
}

/// Applies the log up to a point, so that it can be cut there.
fn reach<R: Threads + Sync>(state: &mut State, rt: &R, point: OpTime) -> Mem<()>
    ensures ok { OnOk result (state.new.node ≡ reached state.old.node point) }
    ensures err { OnErr result (state.new.node ≡ state.old.node) }
{
    match state.role {
        Role::Primary => Ok(()),
        Role::Secondary | Role::Candidate | Role::Draining => state.node_data.apply_to(rt, point),
    }
}

/// Begins a rollback: stores the record that cuts the log after `point`.
pub(crate) fn roll_back(state: &mut State, point: OpTime, removed: u64, lost: LostList) -> Turn
    requires ready { IsCut point state.old.node }
    ensures turn { Means result state.new.node
        (message_plan (message_continuations.RolledBack point removed lost) state.old.node) }
    ensures ready { IsReadyTurn result state.new }
{
    Turn::Storing {
        item: Store::Record(Record::Cut(point)),
        then: Continuation::Cut {
            point,
            removed,
            lost,
        },
    }
}

/// Continues once the record of a rollback is in the journal: cuts the log after `point`, and replies.
pub fn go_on_cut(
    state: &mut State,
    item: &Store,
    point: OpTime,
    removed: u64,
    lost: LostList,
) -> Turn
    requires item { item.now ≡ cut_record point }
    requires ready { IsCut point state.old.node }
    ensures turn { Means result state.new.node
        (rest_of (continuations.Cut point removed lost) (stored state.old.node item.now)) }
    ensures ready { IsReadyTurn result state.new }
{
    cut_log(state, item, point, lost);
    state.answered(Reply::RolledBack { to: point, removed })
}

/// The log is cut after the point, as its record already is.
fn cut_log(state: &mut State, item: &Store, point: OpTime, lost: LostList)
    requires item { item.now ≡ cut_record point }
    requires ready { IsCut point state.old.node }
    ensures { state.new.node ≡ rolled_node (stored state.old.node item.now) point lost }
{
    state.node_data.recall_sound();
    state.node_data.cut(point);
    state.unjournaled.cut(point);
    state.records = state.records.with(item);
    state.durable = earlier(state.durable, point);
    state.lost = lost;
    state.rollback += 1;
}
