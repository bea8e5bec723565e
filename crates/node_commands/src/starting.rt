// The commands that aren't answered at once.
ghost use Rattle.std.specs.Prelude.{◌≡◌, true, false, IfOk, OnErr};
ghost use Rattle.set_model.specs.Limits.{is_within};
ghost use Rattle.set_model.specs.Rows.{row};
ghost use Rattle.node_state.specs.Bounds.{IsBounded, IsNumbered, is_long, is_own, is_plain};
ghost use Rattle.node_state.specs.Ready.{IsReadyTurn};
ghost use Rattle.node_state.specs.Turns.{Means};

use crate::concerns::ack;
use crate::disk::{apply, start_checkpoint, start_flush};
use crate::elections::{dry_run, start_campaign, start_drain, step_down};
use crate::reconfig::start_reconfig;
use crate::sending::{common, fetch, heartbeat, report};
use bson_doc::Mem;
use node_state::{State, Turn};
use set_model::Command;
use std::thread::Threads;

/// Begins what a command asks of a node. `nodes` is how many nodes the set has, and `next` the number that
/// the next message gets. For a plain command there is `node_answers::answer`. The only error is out of
/// memory, which leaves the node as it was. A command that may run out of memory while it stores (`is_long`)
/// has changed nothing by then.
#[tactic(auto, using(node_state::proofs::TurnLemmas::while_up))]
pub fn start<R: Threads + Sync>(
    state: &mut State,
    rt: &R,
    nodes: u32,
    next: u64,
    command: &Command,
) -> Mem<Turn>
    requires bounds { IsBounded state.old.node }
    requires next { IsNumbered next }
    requires own { is_own command.now ≡ true }
    requires turn { is_plain command.now ≡ false }
    requires within { is_within command.now ≡ true }
    ensures turn { IfOk result (λ turn.
        Means turn state.new.node (row nodes next false state.old.node command.now)) }
    ensures ready { IfOk result (λ turn. IsReadyTurn turn state.new) }
    ensures quiet { is_long command.now ≡ true → state.new.node ≡ state.old.node }
    ensures err { OnErr result (state.new.node ≡ state.old.node) }
{
    state.recall_up();
    match command {
        Command::Campaign { .. } => start_campaign(state, next),
        Command::Drain { .. } => start_drain(state, rt),
        Command::DryRun { .. } => dry_run(state, next),
        Command::StepDown { .. } => Ok(step_down(state)),
        Command::Heartbeat { to, .. } => heartbeat(state, next, *to),
        Command::Report { to, .. } => report(state, next, *to),
        Command::Common { to, .. } => common(state, next, *to),
        Command::Fetch { .. } => fetch(state, next),
        Command::Ack {
            target,
            concern,
            ..
        } => Ok(ack(state, *target, *concern)),
        Command::Apply { workers, .. } => apply(state, rt, *workers),
        Command::Flush { .. } => start_flush(state),
        Command::Checkpoint { .. } => Ok(start_checkpoint(state)),
        Command::Reconfig { config, .. } => start_reconfig(state, nodes, config),
        Command::Read { .. }
        | Command::Dump { .. }
        | Command::Log { .. }
        | Command::State { .. }
        | Command::Rolled { .. }
        | Command::Clock { .. }
        | Command::Begin { .. }
        | Command::Commit { .. }
        | Command::Abort { .. }
        | Command::Retry { .. }
        | Command::Note { .. }
        | Command::Insert { .. }
        | Command::Replace { .. }
        | Command::Update { .. }
        | Command::Delete { .. }
        | Command::Deliver { .. }
        | Command::DeliverLatest { .. }
        | Command::Crash { .. }
        | Command::Restart { .. }
        | Command::DiskFail { .. } => unreachable!(),
    }
}
