// Campaigns, dry runs, draining and stepping down.
ghost use Rattle.std.specs.Prelude.{◌≡◌, Some, IfOk, OnErr};
ghost use Rattle.set_model.specs.Elections as elections;
ghost use Rattle.set_model.specs.Stores.{finished, stored};
ghost use Rattle.node_state.specs.Bounds.{IsBounded, IsNumbered};
ghost use Rattle.node_state.specs.Ready.{IsCandidacy, IsDrained, IsReadyTurn};
ghost use Rattle.node_state.specs.Turns.{Means, rest_of};
ghost use Rattle.node_state.specs.declared.turn.Continuation.TheVariants as continuations;

use crate::asking::asks;
use bson_doc::Mem;
use election_core::{DryRun, Tally};
use member_config::Config;
use node_state::{Continuation, State, Turn, vote_record};
use repl_msg::{Message, Record};
use set_model::{Refusal, Reply, Role, Store};
use std::thread::Threads;

/// Why the node can't be a candidate.
fn candidate_refusal(state: &State) -> Option<Refusal>
    ensures { result ≡ elections.candidate_refusal state.now.node }
{
    if !state.config.is_electable(state.number) {
        return Some(Refusal::NotElectable(1));
    }
    match state.role {
        Role::Draining | Role::Primary => Some(Refusal::NotElectable(2)),
        Role::Secondary | Role::Candidate => None,
    }
}

/// Starts a campaign: the node votes for itself in the next term, and asks the other voters once that vote is
/// in the journal.
pub(crate) fn start_campaign(state: &mut State, next: u64) -> Mem<Turn>
    requires bounds { IsBounded state.old.node }
    requires next { IsNumbered next }
    ensures turn { IfOk result (λ turn.
        Means turn state.new.node (elections.campaign next state.old.node)) }
    ensures ready { IfOk result (λ turn. IsReadyTurn turn state.new) }
    ensures err { OnErr result (state.new.node ≡ state.old.node) }
{
    if let Some(why) = candidate_refusal(state) {
        return Ok(state.refused(why));
    }
    let term = state.term + 1;
    let tally = Tally::new(state.alloc, state.number, &state.config)?;
    let sent = asks(state, term, false)?;
    let item = vote_record(term, Some(state.number));
    let then = Continuation::Campaign { next, tally, sent };
    Ok(Turn::Storing { item, then })
}

/// Continues once the candidate's own vote is in the journal: it is a candidate in the next term, or has won,
/// and asks the other voters.
pub fn go_on_campaign(
    state: &mut State,
    item: &Store,
    next: u64,
    tally: Tally,
    sent: Vec<Message>,
) -> Turn
    requires ready { IsCandidacy item.now tally sent.items state.old.node }
    ensures turn { Means result state.new.node
        (rest_of (continuations.Campaign next tally sent) (stored state.old.node item.now)) }
    ensures ready { IsReadyTurn result state.new }
{
    let term = state.term + 1;
    let count = sent.len() as u32;
    state.enter_term(item, term, Some(state.number));
    state.stand(tally);
    if state.has_won() {
        return Turn::Finished {
            reply: Reply::Won(term),
            sent,
        };
    }
    Turn::Finished {
        reply: Reply::Candidate {
            term,
            first: next,
            count,
        },
        sent,
    }
}

pub(crate) fn dry_run(state: &mut State, next: u64) -> Mem<Turn>
    requires bounds { IsBounded state.old.node }
    requires next { IsNumbered next }
    ensures turn { IfOk result (λ turn. Means turn state.new.node (elections.dry_run next state.old.node)) }
    ensures ready { IfOk result (λ turn. IsReadyTurn turn state.new) }
    ensures err { OnErr result (state.new.node ≡ state.old.node) }
{
    if let Some(why) = candidate_refusal(state) {
        return Ok(state.refused(why));
    }
    let term = state.term;
    let dry_run = new_dry_run(state)?;
    let sent = asks(state, term, true)?;
    let count = sent.len() as u32;
    state.dry_run = Some(dry_run);
    Ok(Turn::Finished {
        reply: Reply::DryRun {
            term,
            first: next,
            count,
        },
        sent,
    })
}

/// A dry run in the node's term, with its own vote.
fn new_dry_run(state: &State) -> Mem<DryRun>
    ensures { IfOk result (λ dry_run.
        elections.trying state.now.node ≡ record state.now.node { dry_tally = Some dry_run }) }
{
    let config = state.config.copy()?;
    DryRun::new(state.alloc, state.number, state.term, config)
}

/// Drains a node that won: it applies its whole log, and then stores its configuration in its own term.
pub(crate) fn start_drain<R: Threads + Sync>(state: &mut State, rt: &R) -> Mem<Turn>
    requires bounds { IsBounded state.old.node }
    ensures turn { IfOk result (λ turn. Means turn state.new.node (elections.drain state.old.node)) }
    ensures ready { IfOk result (λ turn. IsReadyTurn turn state.new) }
    ensures err { OnErr result (state.new.node ≡ state.old.node) }
{
    if state.role != Role::Draining {
        return Ok(state.refused(Refusal::NotPrimary));
    }
    let config = state.config_in_term()?;
    let item = Store::Record(Record::Config(config.copy()?));
    state.reserve(1)?;
    state.apply_all(rt)?;
    Ok(Turn::Storing {
        item,
        then: Continuation::Drain { config },
    })
}

/// Continues once the configuration in the node's term is in the journal: the node is primary, and
/// writes a no-op.
pub fn go_on_drain(state: &mut State, item: &Store, config: Config) -> Turn
    requires ready { IsDrained item.now config state.old }
    ensures turn { Means result state.new.node
        (rest_of (continuations.Drain config) (stored state.old.node item.now)) }
    ensures ready { IsReadyTurn result state.new }
{
    state.lead(item, config);
    let noop = state.log_noop();
    state.evaluate();
    state.answered(Reply::Primary {
        term: state.term,
        noop,
    })
}

pub(crate) fn step_down(state: &mut State) -> Turn
    ensures turn { Means result state.new.node (finished (elections.step_down state.old.node)) }
    ensures ready { IsReadyTurn result state.new }
{
    if state.role == Role::Secondary {
        return state.refused(Refusal::NotPrimary);
    }
    state.be_secondary();
    state.answered(Reply::Secondary)
}
