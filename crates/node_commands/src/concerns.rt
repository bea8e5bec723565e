// Acknowledgements.
ghost use Rattle.std.specs.Prelude.{◌≡◌};
ghost use Rattle.std.specs.FinMap as maps;
ghost use Rattle.repl_msg.specs.Logs.{has_entry};
ghost use Rattle.set_model.specs.Concerns as concerns;
ghost use Rattle.set_model.specs.Stores.{finished};
ghost use Rattle.part_laws.specs.Concerns.{concern_of, refusal_of};
ghost use Rattle.node_state.specs.Ready.{IsReadyTurn};
ghost use Rattle.node_state.specs.Turns.{Means};

use node_state::{State, Turn};
use rs_optime::OpTime;
use set_model::{AckConcern, Refusal, Reply, Role, Target, Writer};
use write_concern::{Concern, ConcernAnswer, answer};

fn concern(concern: AckConcern) -> Concern
    ensures { result ≡ concern_of concern }
{
    match concern {
        AckConcern::Majority => Concern::Majority,
        AckConcern::Count(count) => Concern::Count(count),
    }
}

fn refusal(answer: ConcernAnswer) -> Option<Refusal>
    ensures { result ≡ refusal_of answer }
{
    match answer {
        ConcernAnswer::Acked => None,
        ConcernAnswer::Waiting { held, needed } => Some(Refusal::Waiting { held, needed }),
        ConcernAnswer::CannotSatisfy { members } => Some(Refusal::CannotSatisfy(members)),
    }
}

/// Whether what was written is as safe as the concern asks.
pub(crate) fn ack(state: &State, target: Target, concern: AckConcern) -> Turn
    ensures turn { Means result state.now.node (finished (concerns.ack state.now.node target concern)) }
    ensures ready { IsReadyTurn result state.now }
{
    match target_point(state, target) {
        Ok(at) => ack_at(state, at, concern),
        Err(why) => state.refused(why),
    }
}

/// The optime to acknowledge: the one named, or that of the writer's entry.
fn target_point(state: &State, target: Target) -> Result<OpTime, Refusal>
    ensures { result ≡ concerns.target_point state.now.node target }
{
    match target {
        Target::At(at) => Ok(at),
        Target::Writer(number) => written_by(state, number),
    }
}

fn written_by(state: &State, number: u32) -> Result<OpTime, Refusal>
    ensures { result ≡ concerns.written_by (maps.get state.now.node.writers number) }
{
    match state.node_data.writer(number) {
        None => Err(Refusal::NoSuchWriter),
        Some(Writer::Open { .. }) => Err(Refusal::WriterOpen),
        Some(Writer::Lost(term)) => Err(Refusal::SteppedDown(*term)),
        Some(Writer::Done(at)) => Ok(*at),
    }
}

fn ack_at(state: &State, at: OpTime, concern: AckConcern) -> Turn
    ensures turn { Means result state.now.node
        (finished (concerns.acked state.now.node at (concerns.ack_refusal state.now.node at concern))) }
    ensures ready { IsReadyTurn result state.now }
{
    match ack_refusal(state, at, concern) {
        Some(why) => state.refused(why),
        None => state.answered(Reply::Acked(at)),
    }
}

/// Why an optime can't be acknowledged.
fn ack_refusal(state: &State, at: OpTime, concern: AckConcern) -> Option<Refusal>
    ensures { result ≡ concerns.ack_refusal state.now.node at concern }
{
    if state.role != Role::Primary {
        return Some(Refusal::NotPrimary);
    }
    if at.term != state.term {
        return Some(Refusal::SteppedDown(at.term));
    }
    if !has(state, at) {
        return Some(Refusal::NoSuchWriter);
    }
    unmet(state, at, concern)
}

/// Whether an entry has this optime.
fn has(state: &State, at: OpTime) -> bool
    ensures { result ≡ has_entry state.now.node.log at }
{
    state.node_data.entry_at(at).is_some()
}

/// Why the concern isn't met.
fn unmet(state: &State, at: OpTime, asked: AckConcern) -> Option<Refusal>
    ensures { result ≡ concerns.unmet state.now.node at asked }
{
    refusal(answer(
        &state.progress,
        &state.config,
        state.number,
        state.durable,
        state.commit,
        at,
        concern(asked),
    ))
}
