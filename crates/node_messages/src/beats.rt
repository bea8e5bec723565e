// Heartbeats, as they arrive.
ghost use Rattle.std.specs.Prelude.{◌≡◌, ◌<◌, ◌∷◌, [], nat_lt, None, if◌then◌else◌, IfOk};
ghost use Rattle.member_config.specs.Rule.{rule};
ghost use Rattle.repl_msg.specs.declared.message.Body.TheVariants as bodies;
ghost use Rattle.set_model.specs.Beats as beats;
ghost use Rattle.set_model.specs.Changes.{heard_of};
ghost use Rattle.set_model.specs.Outcome.{message_to};
ghost use Rattle.set_model.specs.Stores.{finished, stored};
ghost use Rattle.node_messages.specs.Ahead.{IsInTerm, IsPreparedFor, in_term, view_in_term};
ghost use Rattle.node_messages.specs.HeardBeats.{beat_after, commit_learnt, installs, told_of};
ghost use Rattle.node_state.specs.Ready.{IsHeard, IsInstall, IsReadyMessage, IsReadyTurn};
ghost use Rattle.node_state.specs.MessageContinuation.{beat_in, heard_outcome, heard_with};
ghost use Rattle.node_state.specs.Turns.{Means, rest_of};
ghost use Rattle.node_state.specs.declared.turn.Continuation.TheVariants as continuations;

use crate::preparing::InTerm;
use bson_doc::Mem;
use commit_point::learn;
use member_config::Config;
use node_state::{Answer, Continuation, HeardBeat, MessageContinuation, NewConfig, State, Turn};
use repl_msg::{Beat, Body, Message, Record};
use rs_optime::OpTime;
use set_model::{Ignored, Reply, Role, Store};

/// Prepares to take a heartbeat, with the answer to it.
pub(crate) fn prepare_beat(
    state: &State,
    next: u64,
    message: &Message,
    beat: &Beat,
    own: InTerm,
) -> Mem<MessageContinuation>
    requires place { 0 < state.now.places }
    requires config { rule beat.now.config ≡ None }
    requires own { IsInTerm own message.now.term state.now.node }
    ensures told { IfOk result (λ told.
        IsPreparedFor told (nat_lt state.now.node.term message.now.term) message.now.term
        (λ node. beats.beat_told next node message.now.from message.now.term beat.now)
        state.now.node state.now.node) }
    ensures ready { IfOk result (λ told. IsReadyMessage told
        (view_in_term (nat_lt state.now.node.term message.now.term) message.now.term state.now)) }
{
    if own.is_after(message.term) {
        return Ok(MessageContinuation::Ignored(Ignored::OldTerm));
    }
    let answer = beat_answer(state, next, message, beat, own)?;
    let told = heard_of(state, message.from, beat, own.role, Some(answer))?;
    Ok(told)
}

/// Prepares to take the answer to a heartbeat, which isn't answered itself.
pub(crate) fn prepare_answer(
    state: &State,
    message: &Message,
    beat: &Beat,
    own: InTerm,
) -> Mem<MessageContinuation>
    requires place { 0 < state.now.places }
    requires config { rule beat.now.config ≡ None }
    requires own { IsInTerm own message.now.term state.now.node }
    ensures told { IfOk result (λ told.
        IsPreparedFor told (nat_lt state.now.node.term message.now.term) message.now.term
        (λ node. beats.beat_answered node message.now.from message.now.term beat.now)
        state.now.node state.now.node) }
    ensures ready { IfOk result (λ told. IsReadyMessage told
        (view_in_term (nat_lt state.now.node.term message.now.term) message.now.term state.now)) }
{
    if own.is_after(message.term) {
        return Ok(MessageContinuation::Ignored(Ignored::OldTerm));
    }
    let told = heard_of(state, message.from, beat, own.role, None)?;
    Ok(told)
}

/// What the heartbeat says, with its configuration if the node will install it in this role.
fn heard_of(
    state: &State,
    from: u32,
    beat: &Beat,
    role: Role,
    answer: Option<Answer>,
) -> Mem<MessageContinuation>
    requires config { rule beat.now.config ≡ None }
    ensures { IfOk result (λ told. told ≡ told_of from beat.now
        (installs (record state.now.node { role = role }) beat.now) answer) }
{
    let newer = if installs(state, beat, role) {
        Some(NewConfig {
            journaled: beat.config.copy()?,
            installed: beat.config.copy()?,
        })
    } else {
        None
    };
    let hearing = HeardBeat {
        from,
        visible: beat.visible,
        primary: beat.primary,
        commit: beat.commit,
        answer,
    };
    Ok(MessageContinuation::Heard { newer, hearing })
}

/// Whether a node in this role installs the configuration of a heartbeat.
fn installs(state: &State, beat: &Beat, role: Role) -> bool
    ensures { result ≡ installs (record state.now.node { role = role }) beat.now }
{
    let follows = match role {
        Role::Secondary => true,
        Role::Candidate => beat.primary,
        Role::Draining | Role::Primary => false,
    };
    follows && beat.config.is_newer(&state.config)
}

/// The answer to a heartbeat: configuration, commit point, last visible optime, and whether the node is
/// primary, as they will be after the heartbeat is taken.
fn beat_answer(state: &State, next: u64, message: &Message, beat: &Beat, own: InTerm) -> Mem<Answer>
    requires own { IsInTerm own message.now.term state.now.node }
    ensures next { IfOk result (λ answer. answer.next ≡ next) }
    ensures sent { IfOk result (λ answer.
        answer.sent.items ≡ message_to (in_term message.now.term state.now.node) message.now.from
        (bodies.HeartbeatReply (beat_after (in_term message.now.term state.now.node) beat.now)) ∷ []) }
{
    let config = config_after(state, beat, own.role)?;
    let commit = commit_after(state, beat.commit, own.role);
    let primary = own.leads();
    let body = Body::HeartbeatReply(Beat {
        config,
        commit,
        visible: own.visible,
        primary,
    });
    let sent = state.message_in(own.term, message.from, body)?;
    Ok(Answer { next, sent })
}

/// The configuration of a node in this role once a heartbeat is taken.
fn config_after(state: &State, beat: &Beat, role: Role) -> Mem<Config>
    ensures { IfOk result (λ config.
        config ≡ (if installs (record state.now.node { role = role }) beat.now
        then beat.now.config else state.now.node.config)) }
{
    if installs(state, beat, role) {
        return beat.config.copy();
    }
    state.config.copy()
}

/// The commit point of a node in this role once a heartbeat is taken. A node that isn't primary learns
/// the sender's commit point, as far as its own log is durable, if that point is in the term of its
/// own last entry.
fn commit_after(state: &State, heard: OpTime, role: Role) -> OpTime
    ensures { result ≡ commit_learnt (record state.now.node { role = role }) heard }
{
    if role == Role::Primary || heard.term != state.node_data.last().term {
        return state.commit;
    }
    learn(state.commit, heard, state.durable)
}

/// Takes a heartbeat, or the answer to one. A newer configuration goes to the journal first.
pub(crate) fn hear(state: &mut State, newer: Option<NewConfig>, hearing: HeardBeat) -> Turn
    requires ready { IsHeard newer hearing state.old }
    ensures turn { Means result state.new.node
        (heard_with hearing newer (beats.given_way state.old.node (beat_in hearing state.old.node))) }
    ensures ready { IsReadyTurn result state.new }
{
    give_way(state, &hearing);
    let Some(newer) = newer else {
        return heard(state, hearing);
    };
    let NewConfig {
        journaled,
        installed,
    } = newer;
    Turn::Storing {
        item: Store::Record(Record::Config(journaled)),
        then: Continuation::Installed {
            config: installed,
            hearing,
        },
    }
}

/// Continues once the newer configuration is in the journal: installs it, and takes the heartbeat.
pub fn go_on_installed(state: &mut State, item: &Store, config: Config, hearing: HeardBeat) -> Turn
    requires ready { IsInstall item.now config state.old }
    ensures turn { Means result state.new.node
        (rest_of (continuations.Installed config hearing) (stored state.old.node item.now)) }
    ensures ready { IsReadyTurn result state.new }
{
    state.have_config(item, config);
    heard(state, hearing)
}

/// A candidate that hears a primary becomes a secondary, and its tally is cleared.
fn give_way(state: &mut State, hearing: &HeardBeat)
    ensures node { state.new.node ≡ beats.given_way state.old.node (beat_in hearing.now state.old.node) }
    ensures places { state.new.places ≡ state.old.places }
{
    if hearing.primary && state.role == Role::Candidate {
        state.role = Role::Secondary;
        state.tally = None;
    }
}

/// Notes what the heartbeat says about its sender, learns its commit point, and sends the answer if
/// there is one.
fn heard(state: &mut State, hearing: HeardBeat) -> Turn
    requires place { 0 < state.old.places }
    ensures turn { Means result state.new.node (finished (heard_outcome hearing state.old.node)) }
    ensures ready { IsReadyTurn result state.new }
{
    learn_of(state, &hearing);
    match hearing.answer {
        Some(answer) => Turn::Finished {
            reply: Reply::Replied(answer.next),
            sent: answer.sent,
        },
        None => state.answered(Reply::Heard),
    }
}

/// Notes how far the sender's log is visible and whether it is primary, and learns its commit point.
fn learn_of(state: &mut State, hearing: &HeardBeat)
    requires place { 0 < state.old.places }
    ensures { state.new.node ≡ beats.commit_heard
        (heard_of state.old.node hearing.now.from hearing.now.visible hearing.now.primary)
        (beat_in hearing.now state.old.node) }
{
    state.commit = commit_after(state, hearing.commit, state.role);
    state
        .known
        .set(hearing.from, hearing.visible, hearing.primary);
}
