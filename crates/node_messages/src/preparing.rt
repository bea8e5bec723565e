// Messages are prepared before anything is stored: only here may memory run out.
ghost use Rattle.std.specs.Prelude.{◌≡◌, ◌<◌, nat_lt, true, IfOk, OnErr, OnOk};
ghost use Rattle.set_model.specs.Deliver as delivered;
ghost use Rattle.set_model.specs.Fetching.{fetch_told};
ghost use Rattle.set_model.specs.Roles.{is_primary, is_secondary};
ghost use Rattle.set_model.specs.Stores.{finished};
ghost use Rattle.node_messages.specs.Ahead.{IsInTerm, IsPreparedFor, view_in_term, is_prepared};
ghost use Rattle.node_state.specs.Bounds.{IsBounded};
ghost use Rattle.node_state.specs.Ready.{IsReadyMessage};
ghost use Rattle.set_model.specs.Taking.{CanTake};

use crate::beats::{prepare_answer, prepare_beat};
use crate::fetching::prepare_entries;
use crate::rollback::{prepare_common_asked, prepare_common_told};
use bson_doc::Mem;
use node_state::{MessageContinuation, State};
use repl_msg::{Body, Message};
use rs_optime::OpTime;
use set_model::{Ignored, Role};
use std::thread::Threads;

/// A node after it took the term of a message. A higher term makes it a secondary, which has no slots, so all
/// of its log is visible.
#[derive(Clone, Copy)]
pub(crate) struct InTerm {
    pub(crate) term: u64,
    pub(crate) role: Role,
    /// How far its log is visible.
    pub(crate) visible: OpTime,
}

/// Prepares to take a message of a higher term. The node is a secondary in that term, which ignores a
/// voter's answer and a report.
pub(crate) fn prepare_higher<R: Threads + Sync>(
    state: &mut State,
    rt: &R,
    next: u64,
    message: &Message,
) -> Mem<MessageContinuation>
    requires bounds { IsBounded state.old.node }
    requires message { CanTake state.old.node message.now }
    requires brings { delivered.brings_term message.now.body ≡ true }
    requires higher { state.old.node.term < message.now.term }
    ensures told { IfOk result (λ told. IsPreparedFor told true message.now.term
        (delivered.told next message.now.from message.now.term message.now.body)
        state.old.node state.new.node) }
    ensures ready { IfOk result (λ told.
        IsReadyMessage told (view_in_term true message.now.term state.new)) }
    ensures err { OnErr result (state.new.node ≡ state.old.node) }
{
    match &message.body {
        Body::VoteReply { .. } => Ok(MessageContinuation::Ignored(Ignored::NotCandidate)),
        Body::Report { .. } => Ok(MessageContinuation::Ignored(Ignored::NotPrimary)),
        _ => prepare(state, rt, next, message),
    }
}

/// Prepares to take a message, so that nothing can run out of memory once the node has its term.
pub(crate) fn prepare<R: Threads + Sync>(
    state: &mut State,
    rt: &R,
    next: u64,
    message: &Message,
) -> Mem<MessageContinuation>
    requires bounds { IsBounded state.old.node }
    requires message { CanTake state.old.node message.now }
    requires prepared_body { is_prepared message.now.body ≡ true }
    ensures told { IfOk result (λ told.
        IsPreparedFor told (nat_lt state.old.node.term message.now.term) message.now.term
        (delivered.told next message.now.from message.now.term message.now.body)
        state.old.node state.new.node) }
    ensures ready { IfOk result (λ told. IsReadyMessage told
        (view_in_term (nat_lt state.old.node.term message.now.term) message.now.term state.new)) }
    ensures err { OnErr result (state.new.node ≡ state.old.node) }
{
    let own = in_term(state, message.term);
    match &message.body {
        Body::Fetch { base } => prepare_fetch(state, next, message, *base, own),
        Body::FetchReply(reply) => prepare_entries(state, message, reply, own),
        Body::Heartbeat(beat) => {
            make_place(state)?;
            prepare_beat(state, next, message, beat, own)
        }
        Body::HeartbeatReply(beat) => {
            make_place(state)?;
            prepare_answer(state, message, beat, own)
        }
        Body::CommonAsk { commit } => prepare_common_asked(state, next, message, *commit, own),
        Body::CommonReply {
            after,
            optimes,
            visible,
        } => prepare_common_told(state, rt, message, *after, optimes, *visible, own),
        _ => unreachable!(),
    }
}

/// A node asks for the entries after its last.
fn prepare_fetch(
    state: &mut State,
    next: u64,
    message: &Message,
    base: OpTime,
    own: InTerm,
) -> Mem<MessageContinuation>
    requires own { IsInTerm own message.now.term state.old.node }
    ensures told { IfOk result (λ told.
        IsPreparedFor told (nat_lt state.old.node.term message.now.term) message.now.term
        (λ node. finished (fetch_told next node message.now.from base)) state.old.node state.new.node) }
    ensures ready { IfOk result (λ told. IsReadyMessage told
        (view_in_term (nat_lt state.old.node.term message.now.term) message.now.term state.new)) }
    ensures same { state.new ≡ state.old }
{
    state.node_data.recall_sound();
    let primary = own.leads();
    let reply = state
        .node_data
        .fetched(own.visible, base, state.commit, primary)?;
    let sent = state.message_in(own.term, message.from, Body::FetchReply(reply))?;
    Ok(MessageContinuation::Answered { next, sent })
}

/// Makes a place for what is heard of a member.
fn make_place(state: &mut State) -> Mem<()>
    ensures node { state.new.node ≡ state.old.node }
    ensures place { OnOk result (0 < state.new.places) }
{
    state.known.make_room()
}

/// The node after it took the term of a message.
pub(crate) fn in_term(state: &State, term: u64) -> InTerm
    ensures { IsInTerm result term state.now.node }
{
    if state.is_below(term) {
        return InTerm {
            term,
            role: Role::Secondary,
            visible: state.node_data.last(),
        };
    }
    InTerm {
        term: state.term,
        role: state.role,
        visible: state.node_data.visible(),
    }
}

impl InTerm {
    pub(crate) fn leads(self) -> bool
        ensures { result ≡ is_primary self.role }
    {
        self.role == Role::Primary
    }

    pub(crate) fn follows(self) -> bool
        ensures { result ≡ is_secondary self.role }
    {
        self.role == Role::Secondary
    }

    /// Whether a message of this term is old.
    pub(crate) fn is_after(self, term: u64) -> bool
        ensures { result ≡ nat_lt term self.term }
    {
        term < self.term
    }
}
