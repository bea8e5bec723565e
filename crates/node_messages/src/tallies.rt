// How a node counts the answers of the voters that it asked.
ghost use Rattle.std.specs.Prelude.{◌≡◌, length, IfOk, OnOk, OnErr};
ghost use Rattle.member_config.specs.Voters.{majority};
ghost use Rattle.set_model.specs.Stores.{finished};
ghost use Rattle.set_model.specs.Votes as votes;
ghost use Rattle.set_model.specs.declared.role.Role.TheVariants.{Candidate};
ghost use Rattle.node_state.specs.Ready.{IsReadyTurn};
ghost use Rattle.node_messages.specs.Trying.{is_trying, with_dry_vote, dry_count};
ghost use Rattle.node_state.specs.Turns.{Means};

use bson_doc::Mem;
use election_core::Count;
use node_state::{State, Turn};
use repl_msg::VoteRefusal;
use set_model::{Ignored, Reply, Role};

/// Takes a voter's answer to a candidate, and counts the vote if it was given.
pub(crate) fn election_told(
    state: &mut State,
    from: u32,
    asked: u64,
    why: Option<VoteRefusal>,
) -> Mem<Turn>
    ensures turn { IfOk result (λ turn.
        Means turn state.new.node (finished (votes.vote_told state.old.node from asked why))) }
    ensures ready { IfOk result (λ turn. IsReadyTurn turn state.new) }
    ensures err { OnErr result (state.new.node ≡ state.old.node) }
{
    if state.role != Role::Candidate {
        return Ok(state.answered(Reply::Ignored(Ignored::NotCandidate)));
    }
    let term = state.term;
    if asked != term {
        return Ok(state.answered(Reply::Ignored(Ignored::OldTerm)));
    }
    if let Some(why) = why {
        return Ok(state.answered(Reply::VoteRefused(why)));
    }
    let count = add_vote(state, from)?;
    if state.has_won() {
        return Ok(state.answered(Reply::Won(term)));
    }
    Ok(state.answered(Reply::Votes {
        yes: count.yes,
        needed: count.needed,
    }))
}

/// Counts a vote for the candidate.
fn add_vote(state: &mut State, from: u32) -> Mem<Count>
    requires role { state.old.node.role ≡ Candidate }
    ensures ok { OnOk result (state.new.node ≡ record state.old.node {
      tally = votes.with_vote state.old.node.config state.old.node.tally from;
    }) }
    ensures count { IfOk result (λ count.
        count ≡ record { yes = length state.new.node.tally; needed = majority state.new.node.config }) }
    ensures err { OnErr result (state.new.node ≡ state.old.node) }
{
    match &mut state.tally {
        None => Ok(Count { yes: 0, needed: 0 }),
        Some(tally) => tally.add(from),
    }
}

/// Takes a voter's answer in a dry run, and counts the vote if it would be given.
pub(crate) fn dry_told(
    state: &mut State,
    from: u32,
    asked: u64,
    why: Option<VoteRefusal>,
) -> Mem<Turn>
    ensures turn { IfOk result (λ turn. Means turn state.new.node
        (finished (votes.dry_told state.old.node from asked why state.old.node.dry_tally))) }
    ensures ready { IfOk result (λ turn. IsReadyTurn turn state.new) }
    ensures err { OnErr result (state.new.node ≡ state.old.node) }
{
    if !is_trying(state, asked) {
        return Ok(state.answered(Reply::Ignored(Ignored::NotCandidate)));
    }
    if let Some(why) = why {
        return Ok(state.answered(Reply::VoteRefused(why)));
    }
    let count = add_dry_vote(state, from)?;
    Ok(state.answered(Reply::DryVotes {
        yes: count.yes,
        needed: count.needed,
    }))
}

/// Whether the node's dry run is of the term `asked`, and the node is still in that term.
fn is_trying(state: &State, asked: u64) -> bool
    ensures { result ≡ is_trying state.now.node.dry_tally asked state.now.node.term }
{
    match &state.dry_run {
        None => false,
        Some(dry_run) => dry_run.term() == asked && asked == state.term,
    }
}

/// Counts who would vote for it.
fn add_dry_vote(state: &mut State, from: u32) -> Mem<Count>
    ensures ok { OnOk result (state.new.node
        ≡ record state.old.node { dry_tally = with_dry_vote state.old.node.dry_tally from }) }
    ensures count { IfOk result (λ count. count ≡ dry_count state.new.node.dry_tally) }
    ensures err { OnErr result (state.new.node ≡ state.old.node) }
{
    match &mut state.dry_run {
        None => Ok(Count { yes: 0, needed: 0 }),
        Some(dry_run) => dry_run.add(from),
    }
}
