// Messages, as they arrive.
ghost use Rattle.std.specs.Prelude.{◌≡◌, ◌<◌, ◌&&◌, nat_lt, true, false, IfOk, OnErr};
ghost use Rattle.set_model.specs.Deliver as delivered;
ghost use Rattle.set_model.specs.Stores.{stored};
ghost use Rattle.node_messages.specs.Ahead.{is_prepared};
ghost use Rattle.node_state.specs.Bounds.{IsBounded, IsNumbered};
ghost use Rattle.node_state.specs.Ready.{IsReadyMessage, IsReadyTurn, IsTerm};
ghost use Rattle.set_model.specs.Taking.{CanTake};
ghost use Rattle.node_state.specs.MessageContinuation.{message_plan};
ghost use Rattle.node_state.specs.Turns.{Means, rest_of};
ghost use Rattle.node_state.specs.declared.turn.Continuation.TheVariants as continuations;

use crate::beats::hear;
use crate::fetching::take_entries;
use crate::preparing::{prepare, prepare_higher};
use crate::reports::report_told;
use crate::rollback::{common_refusal, roll_back};
use crate::votes::{vote_asked, vote_told};
use bson_doc::Mem;
use node_state::{Continuation, MessageContinuation, State, Turn, vote_record};
use repl_msg::{Body, Message};
use set_model::{Refusal, Reply, Store};
use std::thread::Threads;

/// Whether a higher term in the message makes the node take that term first.
fn brings_term(body: &Body) -> bool
    ensures { result ≡ delivered.brings_term body.now }
{
    match body {
        Body::VoteAsk(_) => false,
        _ => true,
    }
}

/// Begins what the node does with a message that arrives; `next` is the number that the next message gets.
/// The only error is out of memory, which leaves the node as it was.
pub fn take<R: Threads + Sync>(state: &mut State, rt: &R, next: u64, message: &Message) -> Mem<Turn>
    requires bounds { IsBounded state.old.node }
    requires next { IsNumbered next }
    requires message { CanTake state.old.node message.now }
    ensures turn { IfOk result (λ turn.
        Means turn state.new.node (delivered.deliver next state.old.node message.now)) }
    ensures ready { IfOk result (λ turn. IsReadyTurn turn state.new) }
    ensures err { OnErr result (state.new.node ≡ state.old.node) }
{
    state.recall_up();
    if let Some(why) = body_refusal(state, message) {
        return Ok(state.refused(why));
    }
    if brings_term(&message.body) && state.is_below(message.term) {
        return take_higher(state, rt, next, message);
    }
    take_known(state, rt, next, message)
}

/// Why a message isn't taken at all.
fn body_refusal(state: &mut State, message: &Message) -> Option<Refusal>
    ensures refusal { result ≡ delivered.body_refusal state.old.node message.now.term message.now.body }
    ensures same { state.new ≡ state.old }
{
    match &message.body {
        Body::CommonAsk { commit } => common_refusal(state, message.term, *commit),
        _ => None,
    }
}

/// Takes a message of a higher term: the term goes to the journal first.
fn take_higher<R: Threads + Sync>(
    state: &mut State,
    rt: &R,
    next: u64,
    message: &Message,
) -> Mem<Turn>
    requires bounds { IsBounded state.old.node }
    requires next { IsNumbered next }
    requires message { CanTake state.old.node message.now }
    requires brings { delivered.brings_term message.now.body ≡ true }
    requires higher { state.old.node.term < message.now.term }
    ensures turn { IfOk result (λ turn.
        Means turn state.new.node (delivered.take_term state.old.node message.now.term
        (delivered.told next message.now.from message.now.term message.now.body))) }
    ensures ready { IfOk result (λ turn. IsReadyTurn turn state.new) }
    ensures err { OnErr result (state.new.node ≡ state.old.node) }
{
    let told = prepare_higher(state, rt, next, message)?;
    Ok(Turn::Storing {
        item: vote_record(message.term, None),
        then: Continuation::TookTerm {
            term: message.term,
            told,
        },
    })
}

/// Takes a message whose term isn't higher, or a request for a vote, which has its own rule for
/// a higher term.
fn take_known<R: Threads + Sync>(
    state: &mut State,
    rt: &R,
    next: u64,
    message: &Message,
) -> Mem<Turn>
    requires bounds { IsBounded state.old.node }
    requires next { IsNumbered next }
    requires message { CanTake state.old.node message.now }
    requires known { (delivered.brings_term message.now.body
        && nat_lt state.old.node.term message.now.term) ≡ false }
    ensures turn { IfOk result (λ turn. Means turn state.new.node
        (delivered.told next message.now.from message.now.term message.now.body state.old.node)) }
    ensures ready { IfOk result (λ turn. IsReadyTurn turn state.new) }
    ensures err { OnErr result (state.new.node ≡ state.old.node) }
{
    match &message.body {
        Body::VoteAsk(ask) => vote_asked(state, next, message.from, *ask),
        Body::VoteReply {
            asked,
            dry,
            refused,
        } => vote_told(state, message.from, *asked, *dry, *refused),
        Body::Report { config, durable } => {
            report_told(state, message.from, message.term, *config, *durable)
        }
        _ => take_prepared(state, rt, next, message),
    }
}

/// Takes a message whose term isn't higher. Once it is prepared, nothing runs out of memory.
fn take_prepared<R: Threads + Sync>(
    state: &mut State,
    rt: &R,
    next: u64,
    message: &Message,
) -> Mem<Turn>
    requires bounds { IsBounded state.old.node }
    requires next { IsNumbered next }
    requires message { CanTake state.old.node message.now }
    requires known { nat_lt state.old.node.term message.now.term ≡ false }
    requires prepared_body { is_prepared message.now.body ≡ true }
    ensures turn { IfOk result (λ turn. Means turn state.new.node
        (delivered.told next message.now.from message.now.term message.now.body state.old.node)) }
    ensures ready { IfOk result (λ turn. IsReadyTurn turn state.new) }
    ensures err { OnErr result (state.new.node ≡ state.old.node) }
{
    let told = prepare(state, rt, next, message)?;
    Ok(tell(state, told))
}

/// Continues once the message's term is in the journal: enters it, and takes the message.
pub fn go_on_term(state: &mut State, item: &Store, term: u64, told: MessageContinuation) -> Turn
    requires ready { IsTerm item.now term told state.old }
    ensures turn { Means result state.new.node
        (rest_of (continuations.TookTerm term told) (stored state.old.node item.now)) }
    ensures ready { IsReadyTurn result state.new }
{
    state.enter_term(item, term, None);
    tell(state, told)
}

/// Takes a message whose term the node has. This needs no memory.
pub(crate) fn tell(state: &mut State, told: MessageContinuation) -> Turn
    requires ready { IsReadyMessage told state.old }
    ensures turn { Means result state.new.node (message_plan told state.old.node) }
    ensures ready { IsReadyTurn result state.new }
{
    match told {
        MessageContinuation::Answered { next, sent } => Turn::Finished {
            reply: Reply::Replied(next),
            sent,
        },
        MessageContinuation::Fetched { from, reply } => take_entries(state, from, reply),
        MessageContinuation::Heard { newer, hearing } => hear(state, newer, hearing),
        MessageContinuation::RolledBack {
            point,
            removed,
            lost,
        } => roll_back(state, point, removed, lost),
        MessageContinuation::Ignored(why) => state.answered(Reply::Ignored(why)),
    }
}
