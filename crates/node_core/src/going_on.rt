// How a node goes on after a store.
ghost use Rattle.set_model.specs.Stores.{stored};
ghost use Rattle.node_state.specs.Ready.{IsReady, IsReadyTurn};
ghost use Rattle.node_state.specs.Turns.{Means, rest_of};

use node_commands::{go_on_campaign, go_on_checkpoint, go_on_drain, go_on_flush, go_on_reconfig};
use node_messages::{go_on_cut, go_on_installed, go_on_term, go_on_vote_given, go_on_vote_in_term};
use node_state::{Continuation, State, Turn};
use set_model::Store;

/// Goes on after `item`, which a turn asked to store, is on the node's disk; `then` is what the turn gave
/// with it. It can't run out of memory.
pub(crate) fn go_on(state: &mut State, item: &Store, then: Continuation) -> Turn
    requires ready { IsReady item.now then state.old }
    ensures turn { Means result state.new.node (rest_of then (stored state.old.node item.now)) }
    ensures ready { IsReadyTurn result state.new }
{
    match then {
        Continuation::Campaign { next, tally, sent } => go_on_campaign(
            state, item, next, tally, sent,
        ),
        Continuation::Drain { config } => go_on_drain(state, item, config),
        Continuation::Flush { count, point } => go_on_flush(state, item, count, point),
        Continuation::Checkpoint { at } => go_on_checkpoint(state, item, at),
        Continuation::Reconfig { config } => go_on_reconfig(state, item, config),
        Continuation::VoteInTerm {
            next,
            from,
            ask,
            why,
            sent,
        } => go_on_vote_in_term(state, item, next, from, ask, why, sent),
        Continuation::VoteGiven {
            next,
            from,
            ask,
            why,
            sent,
        } => go_on_vote_given(state, item, next, from, ask, why, sent),
        Continuation::TookTerm { term, told } => go_on_term(state, item, term, told),
        Continuation::Installed { config, hearing } => go_on_installed(
            state, item, config, hearing,
        ),
        Continuation::Cut {
            point,
            removed,
            lost,
        } => go_on_cut(state, item, point, removed, lost),
    }
}
