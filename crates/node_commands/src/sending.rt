// Messages that a node sends.
ghost use Rattle.std.specs.Prelude.{◌≡◌, [], ◌∷◌, IfOk, OnErr};
ghost use Rattle.set_model.specs.Beats.{beat_of, heartbeat};
ghost use Rattle.set_model.specs.Fetching.{fetch};
ghost use Rattle.set_model.specs.Outcome.{message_to, sending};
ghost use Rattle.set_model.specs.Reports.{report};
ghost use Rattle.set_model.specs.Rollback.{common};
ghost use Rattle.set_model.specs.Stores.{finished};
ghost use Rattle.node_state.specs.Bounds.{IsNumbered};
ghost use Rattle.node_state.specs.Ready.{IsReadyTurn};
ghost use Rattle.node_state.specs.Turns.{Means};

use bson_doc::Mem;
use node_state::{State, Turn};
use repl_msg::{Beat, Body, Message};
use set_model::{Refusal, Reply, Role};

/// Sends a heartbeat to a member.
pub(crate) fn heartbeat(state: &mut State, next: u64, to: u32) -> Mem<Turn>
    requires next { IsNumbered next }
    ensures turn { IfOk result (λ turn.
        Means turn state.new.node (finished (heartbeat next state.old.node to))) }
    ensures ready { IfOk result (λ turn. IsReadyTurn turn state.new) }
    ensures err { OnErr result (state.new.node ≡ state.old.node) }
{
    let beat = beat(state)?;
    sends(state, Reply::Sent(next), to, Body::Heartbeat(beat))
}

/// Reports to a member how far the node is durable.
pub(crate) fn report(state: &mut State, next: u64, to: u32) -> Mem<Turn>
    requires next { IsNumbered next }
    ensures turn { IfOk result (λ turn.
        Means turn state.new.node (finished (report next state.old.node to))) }
    ensures ready { IfOk result (λ turn. IsReadyTurn turn state.new) }
    ensures err { OnErr result (state.new.node ≡ state.old.node) }
{
    let body = Body::Report {
        config: (state.config.term, state.config.version),
        durable: state.durable,
    };
    sends(state, Reply::Sent(next), to, body)
}

/// Asks a member for its optimes after the node's commit point, to find the common point of
/// the two logs.
pub(crate) fn common(state: &mut State, next: u64, to: u32) -> Mem<Turn>
    requires next { IsNumbered next }
    ensures turn { IfOk result (λ turn.
        Means turn state.new.node (finished (common next state.old.node to))) }
    ensures ready { IfOk result (λ turn. IsReadyTurn turn state.new) }
    ensures err { OnErr result (state.new.node ≡ state.old.node) }
{
    let body = Body::CommonAsk {
        commit: state.commit,
    };
    sends(state, Reply::Sent(next), to, body)
}

/// Asks the sync source for the entries after the node's last one.
pub(crate) fn fetch(state: &mut State, next: u64) -> Mem<Turn>
    requires next { IsNumbered next }
    ensures turn { IfOk result (λ turn. Means turn state.new.node (finished (fetch next state.old.node))) }
    ensures ready { IfOk result (λ turn. IsReadyTurn turn state.new) }
    ensures err { OnErr result (state.new.node ≡ state.old.node) }
{
    let last = state.node_data.last();
    let Some(source) = state.known.source(&state.config, state.number, last) else {
        return Ok(state.refused(Refusal::NoSource));
    };
    let reply = Reply::SentTo {
        message: next,
        source,
    };
    sends(state, reply, source, Body::Fetch { base: last })
}

/// What a heartbeat carries: configuration, commit point, last visible optime, and whether the node is
/// primary.
pub(crate) fn beat(state: &State) -> Mem<Beat>
    ensures { IfOk result (λ beat. beat ≡ beat_of state.now.node) }
{
    Ok(Beat {
        config: state.config.copy()?,
        commit: state.commit,
        visible: state.node_data.visible(),
        primary: state.role == Role::Primary,
    })
}

/// A turn that sends one message.
pub(crate) fn sends(state: &State, reply: Reply, to: u32, body: Body) -> Mem<Turn>
    ensures turn { IfOk result (λ turn.
        Means turn state.now.node (finished (sending reply state.now.node to body))) }
    ensures ready { IfOk result (λ turn. IsReadyTurn turn state.now) }
{
    let sent = message(state, to, body)?;
    Ok(Turn::Finished { reply, sent })
}

/// One message, in the node's term.
pub(crate) fn message(state: &State, to: u32, body: Body) -> Mem<Vec<Message>>
    ensures { IfOk result (λ sent. sent.items ≡ message_to state.now.node to body ∷ []) }
{
    state.message_in(state.term, to, body)
}
