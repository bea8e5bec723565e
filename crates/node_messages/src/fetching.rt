// Fetched entries, as they arrive.
ghost use Rattle.std.specs.Prelude.{◌≡◌, ◌<◌, ◌≤◌, ◌-◌, nat_lt, fold, length, map, true, IfOk, OnOk, OnErr};
ghost use Rattle.repl_msg.specs.Fetching.{continues};
ghost use Rattle.oplog_store.specs.Unjournaled.{with_optime};
ghost use Rattle.set_model.specs.Changes.{heard_of};
ghost use Rattle.set_model.specs.Fetching as rows;
ghost use Rattle.set_model.specs.Outcome.{replied};
ghost use Rattle.set_model.specs.Points.{last_point, learnt};
ghost use Rattle.set_model.specs.Stores.{finished};
ghost use Rattle.set_model.specs.declared.reply.Reply.TheVariants.{Took};
ghost use Rattle.set_model.specs.declared.role.Role.TheVariants.{Secondary};
ghost use Rattle.node_messages.specs.Ahead.{IsInTerm, IsPreparedFor, view_in_term};
ghost use Rattle.node_messages.specs.Fetched.{ignored_for};
ghost use Rattle.node_state.specs.Ready.{IsFetched, IsReadyMessage, IsReadyTurn};
ghost use Rattle.set_model.specs.Taking.{CanTakeEntries};
ghost use Rattle.node_state.specs.Turns.{Means};

use crate::preparing::InTerm;
use bson_doc::Mem;
use commit_point::learn;
use node_state::{MessageContinuation, State, TakenReply, Turn};
use oplog_entry::Entry;
use oplog_fetcher::{OtherPlace, accept};
use oplog_store::Unjournaled;
use repl_msg::{FetchReply, Message};
use rs_optime::OpTime;
use set_model::{Ignored, Reply, Role};

/// Notes that these entries aren't in the journal yet.
fn note_all(unjournaled: &mut Unjournaled, entries: &[Entry])
    requires room { length entries.now ≤ unjournaled.old.spare }
    ensures { unjournaled.new ≡ record {
      optimes = fold with_optime unjournaled.old.optimes (map (λ e. e.optime) entries.now);
      spare = unjournaled.old.spare - length entries.now;
    } }
{
    for entry in entries {
        unjournaled.add(entry.optime);
    }
}

/// Prepares to take an answer to a fetch. One that the node ignores isn't copied.
pub(crate) fn prepare_entries(
    state: &mut State,
    message: &Message,
    reply: &FetchReply,
    own: InTerm,
) -> Mem<MessageContinuation>
    requires fetched { CanTakeEntries state.old.node message.now.term reply.now }
    requires own { IsInTerm own message.now.term state.old.node }
    ensures told { IfOk result (λ told.
        IsPreparedFor told (nat_lt state.old.node.term message.now.term) message.now.term
        (λ node. finished (rows.entries_told node message.now.from reply.now))
        state.old.node state.new.node) }
    ensures ready { IfOk result (λ told. IsReadyMessage told
        (view_in_term (nat_lt state.old.node.term message.now.term) message.now.term state.new)) }
    ensures err { OnErr result (state.new.node ≡ state.old.node) }
{
    if let Some(why) = ignored_for(own.role, state.node_data.last(), reply) {
        return Ok(MessageContinuation::Ignored(why));
    }
    prepare_taking(state, message, reply)
}

/// Why a node of this role whose log ends there ignores an answer.
fn ignored_for(role: Role, last: OpTime, reply: &FetchReply) -> Option<Ignored>
    ensures { result ≡ ignored_for role last reply.now }
{
    if role != Role::Secondary {
        return Some(Ignored::NotSecondary);
    }
    match accept(last, reply) {
        Ok(_) => None,
        Err(OtherPlace) => Some(Ignored::OtherPlace),
    }
}

/// Prepares to take the entries of an answer: memory for them is reserved before anything else changes.
fn prepare_taking(
    state: &mut State,
    message: &Message,
    reply: &FetchReply,
) -> Mem<MessageContinuation>
    requires fetched { CanTakeEntries state.old.node message.now.term reply.now }
    ensures told { IfOk result (λ told.
        IsPreparedFor told (nat_lt state.old.node.term message.now.term) message.now.term
        (λ node. finished (rows.entries_told node message.now.from reply.now))
        state.old.node state.new.node) }
    ensures ready { IfOk result (λ told. IsReadyMessage told
        (view_in_term (nat_lt state.old.node.term message.now.term) message.now.term state.new)) }
    ensures err { OnErr result (state.new.node ≡ state.old.node) }
{
    let reply = TakenReply::of(state.alloc, reply)?;
    make_room(state, reply.as_slice().len())?;
    Ok(MessageContinuation::Fetched {
        from: message.from,
        reply,
    })
}

/// Makes room for this many entries, and for what is heard of their sender.
fn make_room(state: &mut State, count: usize) -> Mem<()>
    ensures node { state.new.node ≡ state.old.node }
    ensures room { OnOk result (count ≤ state.new.spare) }
    ensures place { OnOk result (0 < state.new.places) }
{
    state.known.make_room()?;
    state.unjournaled.reserve(count)?;
    state.node_data.reserve(count)
}

/// Appends the entries if they continue a secondary's log, and replies with their number and the
/// log's last optime.
pub(crate) fn take_entries(state: &mut State, from: u32, reply: TakenReply) -> Turn
    requires ready { IsFetched reply state.old }
    ensures turn { Means result state.new.node (finished (rows.entries_told state.old.node from reply)) }
    ensures ready { IsReadyTurn result state.new }
{
    if state.role != Role::Secondary {
        return state.answered(Reply::Ignored(Ignored::NotSecondary));
    }
    let Ok(_) = accept(state.node_data.last(), reply.reply()) else {
        return state.answered(Reply::Ignored(Ignored::OtherPlace));
    };
    follow(state, from, reply)
}

fn follow(state: &mut State, from: u32, reply: TakenReply) -> Turn
    requires ready { IsFetched reply state.old }
    requires role { state.old.node.role ≡ Secondary }
    requires base { continues (last_point state.old.node) reply ≡ true }
    ensures turn { Means result state.new.node (finished
        (replied (Took (length reply.entries) (last_point (rows.taken state.old.node from reply)))
        (rows.taken state.old.node from reply))) }
    ensures ready { IsReadyTurn result state.new }
{
    let count = reply.as_slice().len() as u64;
    let told = reply.reply();
    let (visible, commit, primary) = (told.visible, told.commit, told.primary);
    append(state, reply);
    learn_from(state, from, visible, commit, primary);
    state.answered(Reply::Took {
        count,
        last: state.node_data.last(),
    })
}

/// Notes how far the sender's log is visible and whether it is primary, and learns its commit point.
fn learn_from(state: &mut State, from: u32, visible: OpTime, commit: OpTime, primary: bool)
    requires { 0 < state.old.places }
    ensures { state.new.node ≡ learnt (heard_of state.old.node from visible primary) commit }
{
    state.commit = learn(state.commit, commit, state.durable);
    state.known.set(from, visible, primary);
}

/// Its entries are appended to the log.
fn append(state: &mut State, reply: TakenReply)
    requires fetched { CanTakeEntries state.old.node state.old.node.term reply }
    requires room { length reply.entries ≤ state.old.spare }
    requires role { state.old.node.role ≡ Secondary }
    requires base { continues (last_point state.old.node) reply ≡ true }
    ensures node { state.new.node ≡ rows.with_fetched state.old.node reply.entries }
    ensures places { state.new.places ≡ state.old.places }
{
    state.node_data.recall_sound();
    note_all(&mut state.unjournaled, reply.as_slice());
    state.node_data.append(reply.into_entries());
    state.node_data.recall_sound();
}
