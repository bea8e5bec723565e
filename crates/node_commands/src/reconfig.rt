// A primary's new configurations.
ghost use Rattle.std.specs.Prelude.{◌≡◌, IfOk, OnErr};
ghost use Rattle.set_model.specs.Reconfig as change;
ghost use Rattle.set_model.specs.Stores.{stored};
ghost use Rattle.part_laws.specs.Points.{refusal_of};
ghost use Rattle.node_state.specs.Bounds.{IsBounded};
ghost use Rattle.node_state.specs.Ready.{IsNewConfig, IsReadyTurn};
ghost use Rattle.node_state.specs.Turns.{Means, rest_of};
ghost use Rattle.node_state.specs.declared.turn.Continuation.TheVariants as continuations;

use bson_doc::Mem;
use member_config::Config;
use node_state::{Continuation, State, Turn, in_term};
use reconfig_core::{ConfigRefusal, check};
use repl_msg::Record;
use set_model::{Refusal, Reply, Role, Store};

fn refusal_of(why: ConfigRefusal) -> Refusal
    ensures { result ≡ refusal_of why }
{
    match why {
        ConfigRefusal::WrongVersion => Refusal::WrongVersion,
        ConfigRefusal::ConfigRule(rule) => Refusal::ConfigRule(rule),
        ConfigRefusal::PrimaryNotMember => Refusal::PrimaryNotMember,
        ConfigRefusal::TwoVoters => Refusal::TwoVoters,
        ConfigRefusal::ConfigNotCommitted { count, needed } => {
            Refusal::ConfigNotCommitted { count, needed }
        }
        ConfigRefusal::TermNotCommitted(commit) => Refusal::TermNotCommitted(commit),
        ConfigRefusal::OplogNotCommitted { count, needed } => {
            Refusal::OplogNotCommitted { count, needed }
        }
        ConfigRefusal::UnknownMember(number) => Refusal::UnknownMember(number),
    }
}

/// Why the node doesn't take a configuration, in a set of `nodes` nodes.
fn reconfig_refusal(state: &State, nodes: u32, config: &Config) -> Option<Refusal>
    ensures { result ≡ change.reconfig_refusal nodes state.now.node config.now }
{
    if state.role != Role::Primary {
        return Some(Refusal::NotPrimary);
    }
    let term = state.term;
    match check(
        &state.config,
        config,
        state.number,
        nodes,
        term,
        &state.progress,
        state.durable,
        state.commit,
    ) {
        Ok(()) => None,
        Err(why) => Some(refusal_of(why)),
    }
}

pub(crate) fn start_reconfig(state: &mut State, nodes: u32, config: &Config) -> Mem<Turn>
    requires bounds { IsBounded state.old.node }
    ensures turn { IfOk result (λ turn.
        Means turn state.new.node (change.reconfig nodes state.old.node config.now)) }
    ensures ready { IfOk result (λ turn. IsReadyTurn turn state.new) }
    ensures err { OnErr result (state.new.node ≡ state.old.node) }
{
    if let Some(why) = reconfig_refusal(state, nodes, config) {
        return Ok(state.refused(why));
    }
    let config = in_term(config, state.term)?;
    Ok(Turn::Storing {
        item: Store::Record(Record::Config(config.copy()?)),
        then: Continuation::Reconfig { config },
    })
}

/// Continues once the new configuration is in the journal: the primary uses it.
pub fn go_on_reconfig(state: &mut State, item: &Store, config: Config) -> Turn
    requires ready { IsNewConfig item.now config state.old.node }
    ensures turn { Means result state.new.node
        (rest_of (continuations.Reconfig config) (stored state.old.node item.now)) }
    ensures ready { IsReadyTurn result state.new }
{
    let term = config.term;
    let version = config.version;
    state.have_config(item, config);
    state.evaluate();
    state.answered(Reply::Config { term, version })
}
