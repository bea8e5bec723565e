// Votes: what a node answers a candidate, and how it counts the answers.
ghost use Rattle.std.specs.Prelude.{◌≡◌, ◌^◌, ◌<◌, ◌∷◌, [], IfOk, IfSome, OnErr};
ghost use Rattle.repl_msg.specs.declared.message.Body.TheVariants as bodies;
ghost use Rattle.set_model.specs.Deliver.{vote_reply_told};
ghost use Rattle.set_model.specs.Outcome.{message_to};
ghost use Rattle.set_model.specs.Stores.{finished, stored};
ghost use Rattle.set_model.specs.Votes as votes;
ghost use Rattle.node_state.specs.Bounds.{IsBounded, IsNumbered};
ghost use Rattle.node_state.specs.Ready.{IsVoteGiven, IsVoteInTerm, IsReadyTurn};
ghost use Rattle.node_state.specs.Turns.{Means, rest_of};
ghost use Rattle.node_state.specs.declared.turn.Continuation.TheVariants as continuations;

use crate::tallies::{dry_told, election_told};
use bson_doc::Mem;
use election_core::{VoterView, decide};
use node_state::{Continuation, State, Turn, vote_record};
use repl_msg::{Body, Message, VoteAsk, VoteRefusal};
use set_model::{Reply, Store};

/// The candidate that the vote is for, unless there is a reason against it.
fn vote_for(from: u32, why: Option<VoteRefusal>) -> Option<u32>
    requires from { from < 50 }
    ensures vote { result ≡ votes.vote_for from why }
    ensures within { IfSome result (λ voter. voter < 50) }
{
    match why {
        None => Some(from),
        Some(_) => None,
    }
}

/// Decides on a request for a vote, and answers it. A vote or a higher term goes to the journal first.
pub(crate) fn vote_asked(state: &mut State, next: u64, from: u32, ask: VoteAsk) -> Mem<Turn>
    requires bounds { IsBounded state.old.node }
    requires next { IsNumbered next }
    requires from { from < 50 }
    requires asked { ask.asked < 2 ^ 63 }
    ensures turn { IfOk result (λ turn.
        Means turn state.new.node (votes.vote_asked next state.old.node from ask)) }
    ensures ready { IfOk result (λ turn. IsReadyTurn turn state.new) }
    ensures err { OnErr result (state.new.node ≡ state.old.node) }
{
    let why = vote_refusal(state, from, &ask);
    let term = state.term;
    if !ask.dry && term < ask.asked {
        let sent = vote_reply(state, ask.asked, from, &ask, why)?;
        return Ok(Turn::Storing {
            item: vote_record(ask.asked, vote_for(from, why)),
            then: Continuation::VoteInTerm {
                next,
                from,
                ask,
                why,
                sent,
            },
        });
    }
    let sent = vote_reply(state, term, from, &ask, why)?;
    if !ask.dry && ask.asked == term && why.is_none() {
        return Ok(Turn::Storing {
            item: vote_record(term, Some(from)),
            then: Continuation::VoteGiven {
                next,
                from,
                ask,
                why,
                sent,
            },
        });
    }
    Ok(Turn::Finished {
        reply: Reply::Replied(next),
        sent,
    })
}

/// The first reason against a vote.
fn vote_refusal(state: &State, from: u32, ask: &VoteAsk) -> Option<VoteRefusal>
    ensures { result ≡ votes.vote_refusal state.now.node ask.now }
{
    let own = VoterView {
        term: state.term,
        vote: state.vote,
        config_term: state.config.term,
        config_version: state.config.version,
        last: state.node_data.last(),
    };
    match decide(&own, from, ask) {
        Ok(_) => None,
        Err(why) => Some(why),
    }
}

/// The answer to a candidate, in a term.
fn vote_reply(
    state: &State,
    term: u64,
    to: u32,
    ask: &VoteAsk,
    why: Option<VoteRefusal>,
) -> Mem<Vec<Message>>
    ensures { IfOk result (λ sent. sent.items ≡ message_to (record state.now.node { term = term }) to
        (bodies.VoteReply ask.now.asked ask.now.dry why) ∷ []) }
{
    let mut sent = Vec::new(state.alloc);
    sent.push(Message {
        from: state.number,
        to,
        term,
        body: Body::VoteReply {
            asked: ask.asked,
            dry: ask.dry,
            refused: why,
        },
    })?;
    Ok(sent)
}

/// Continues once the higher term with its vote is in the journal: enters it, and answers the candidate.
pub fn go_on_vote_in_term(
    state: &mut State,
    item: &Store,
    next: u64,
    from: u32,
    ask: VoteAsk,
    why: Option<VoteRefusal>,
    sent: Vec<Message>,
) -> Turn
    requires ready { IsVoteInTerm item.now next from ask why sent.items state.old.node }
    ensures turn { Means result state.new.node
        (rest_of (continuations.VoteInTerm next from ask why sent) (stored state.old.node item.now)) }
    ensures ready { IsReadyTurn result state.new }
{
    state.enter_term(item, ask.asked, vote_for(from, why));
    Turn::Finished {
        reply: Reply::Replied(next),
        sent,
    }
}

/// Continues once the vote is in the journal, and answers the candidate.
pub fn go_on_vote_given(
    state: &mut State,
    item: &Store,
    next: u64,
    from: u32,
    ask: VoteAsk,
    why: Option<VoteRefusal>,
    sent: Vec<Message>,
) -> Turn
    requires ready { IsVoteGiven item.now from ask why sent.items state.old.node }
    ensures turn { Means result state.new.node
        (rest_of (continuations.VoteGiven next from ask why sent) (stored state.old.node item.now)) }
    ensures ready { IsReadyTurn result state.new }
{
    state.set_vote(item, from);
    Turn::Finished {
        reply: Reply::Replied(next),
        sent,
    }
}

/// Takes a voter's answer, in an election or a dry run. The message's term isn't higher than the node's.
pub(crate) fn vote_told(
    state: &mut State,
    from: u32,
    asked: u64,
    dry: bool,
    why: Option<VoteRefusal>,
) -> Mem<Turn>
    ensures turn { IfOk result (λ turn.
        Means turn state.new.node (finished (vote_reply_told state.old.node from asked dry why))) }
    ensures ready { IfOk result (λ turn. IsReadyTurn turn state.new) }
    ensures err { OnErr result (state.new.node ≡ state.old.node) }
{
    if dry {
        dry_told(state, from, asked, why)
    } else {
        election_told(state, from, asked, why)
    }
}
