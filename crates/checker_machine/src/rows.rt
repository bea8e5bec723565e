// What each command does at the node that it names.
ghost use Rattle.std.specs.Prelude.{◌≡◌, true, false, Some, IfOk};
ghost use Rattle.set_model.specs.Limits.{is_within, write_of};
ghost use Rattle.set_model.specs.Outcome.{replied};
ghost use Rattle.set_model.specs.Rows.{row};
ghost use Rattle.set_model.specs.Stores.{finished};
ghost use Rattle.checker_node.specs.Done.{Does};
ghost use Rattle.checker_machine.specs.Plain.{is_plain, is_reading, is_up_only, is_write};
ghost use Rattle.checker_node.specs.Sound.{IsReady, IsSound};

use bson_doc::Mem;
use checker_node::{Answer, Node};
use doc_update::WriteOp;
use set_model::{Command, Refusal, Reply};

/// Does a command of a node's own, in a set of `nodes` nodes, where the next message gets the number `next`.
/// `there` says whether what the node was storing when a disk failed is on disk, and `failed` is the number
/// of the store that fails.
#[tactic(auto, using(crate::proofs::StepLemmas::does_reply))]
pub fn act(
    node: &mut Node,
    nodes: u32,
    next: u64,
    there: bool,
    command: &Command,
    failed: &mut Option<u32>,
) -> Mem<Answer>
    requires sound { IsSound node.old }
    requires within { is_within command.now ≡ true }
    ensures { IfOk result (λ answer.
        Does (row nodes next there node.old command.now) failed.old failed.new answer node.new) }
{
    match command {
        Command::Restart { .. } => node.restart(there, failed),
        Command::DiskFail { .. } => Ok(node.replies(Reply::Armed)),
        Command::Clock { seconds, .. } => {
            node.set_clock(*seconds);
            Ok(node.replies(Reply::Clock(*seconds)))
        }
        Command::Deliver { .. } | Command::DeliverLatest { .. } => {
            Ok(node.refuses(Refusal::NoSuchMessage))
        }
        _ => act_up(node, nodes, next, command, failed),
    }
}

/// Does a command that a node does only where it is up.
#[tactic(auto, using(crate::proofs::UpLemmas::does_down))]
fn act_up(
    node: &mut Node,
    nodes: u32,
    next: u64,
    command: &Command,
    failed: &mut Option<u32>,
) -> Mem<Answer>
    requires sound { IsSound node.old }
    requires within { is_within command.now ≡ true }
    requires up { is_up_only command.now ≡ true }
    ensures { IfOk result (λ answer.
        Does (row nodes next false node.old command.now) failed.old failed.new answer node.new) }
{
    if !node.is_up() {
        return Ok(node.refuses(Refusal::NodeDown));
    }
    act_here(node, nodes, next, command, failed)
}

/// Does it if the node is up.
#[tactic(auto, using(node_state::proofs::TurnLemmas::while_up))]
fn act_here(
    node: &mut Node,
    nodes: u32,
    next: u64,
    command: &Command,
    failed: &mut Option<u32>,
) -> Mem<Answer>
    requires ready { IsReady node.old }
    requires up { node.old.up ≡ true }
    requires within { is_within command.now ≡ true }
    requires only { is_up_only command.now ≡ true }
    ensures { IfOk result (λ answer.
        Does (row nodes next false node.old command.now) failed.old failed.new answer node.new) }
{
    match command {
        Command::Campaign { .. } => node.campaign(next, failed),
        Command::Drain { .. } => node.drain(failed),
        Command::DryRun { .. } => node.dry_run(next),
        Command::Heartbeat { to, .. } => node.heartbeat(next, *to),
        Command::Report { to, .. } => node.report(next, *to),
        Command::Common { to, .. } => node.common(next, *to),
        Command::Fetch { .. } => node.fetch(next),
        Command::Flush { .. } => node.flush(failed),
        Command::Checkpoint { .. } => node.checkpoint(failed),
        Command::Reconfig { config, .. } => node.reconfig(nodes, config, failed),
        _ => {
            let reply = act_plainly(node, command)?;
            Ok(node.replies(reply))
        }
    }
}

/// Does a command that stores and sends nothing.
#[tactic(auto, using(node_state::proofs::TurnLemmas::while_up))]
fn act_plainly(node: &mut Node, command: &Command) -> Mem<Reply>
    requires ready { IsReady node.old }
    requires up { node.old.up ≡ true }
    requires within { is_within command.now ≡ true }
    requires plain { is_plain command.now ≡ true }
    ensures { IfOk result (λ reply. row 0 0 false node.old command.now
        ≡ finished (replied reply node.new)) }
{
    match command {
        Command::Insert { .. }
        | Command::Replace { .. }
        | Command::Update { .. }
        | Command::Delete { .. } => act_write(node, command),
        Command::Retry { session, op, .. } => node.retry(*session, op),
        Command::Note { .. } => node.note(),
        Command::Begin { writer, op, .. } => node.begin(*writer, op),
        Command::Commit { writer, .. } => node.commit(*writer),
        Command::Abort { writer, .. } => node.abort(*writer),
        Command::Ack {
            target,
            concern,
            ..
        } => Ok(node.ack(*target, *concern)),
        Command::Apply { .. } => Ok(node.apply()),
        Command::StepDown { .. } => Ok(node.step_down()),
        Command::Crash { .. } => node.crash(),
        _ => act_reading(node, command),
    }
}

/// Does a command that shows something of the node, and changes nothing.
#[tactic(auto, using(node_state::proofs::TurnLemmas::while_up))]
fn act_reading(node: &mut Node, command: &Command) -> Mem<Reply>
    requires up { node.old.up ≡ true }
    requires reading { is_reading command.now ≡ true }
    ensures { IfOk result (λ reply. row 0 0 false node.old command.now
        ≡ finished (replied reply node.new)) }
{
    match command {
        Command::Read {
            level,
            collection,
            id,
            ..
        } => node.read(*level, collection, id),
        Command::Dump { level, .. } => node.dump(*level),
        Command::Log { .. } => node.show_log(),
        Command::State { .. } => Ok(node.show_state()),
        Command::Rolled { .. } => node.rolled(),
        _ => unreachable!(),
    }
}

/// Does a write in one step.
fn act_write(node: &mut Node, command: &Command) -> Mem<Reply>
    requires ready { IsReady node.old }
    requires up { node.old.up ≡ true }
    requires write { is_write command.now ≡ true }
    ensures { IfOk result (λ reply. row 0 0 false node.old command.now
        ≡ finished (replied reply node.new)) }
{
    let op = asked_write(command)?;
    node.write(&op)
}

/// The write that a command asks for, which is done in one step.
fn asked_write(command: &Command) -> Mem<WriteOp>
    requires { is_write command.now ≡ true }
    ensures { IfOk result (λ op. write_of command.now ≡ Some op) }
{
    Ok(match command {
        Command::Insert {
            collection,
            document,
            ..
        } => WriteOp::Insert {
            ns: collection.copy()?,
            doc: document.copy()?,
        },
        Command::Replace {
            collection,
            id,
            document,
            ..
        } => WriteOp::Replace {
            ns: collection.copy()?,
            id: id.copy()?,
            doc: document.copy()?,
        },
        Command::Update {
            collection,
            id,
            operators,
            ..
        } => WriteOp::Update {
            ns: collection.copy()?,
            id: id.copy()?,
            operators: operators.copy()?,
        },
        Command::Delete { collection, id, .. } => WriteOp::Delete {
            ns: collection.copy()?,
            id: id.copy()?,
        },
        _ => unreachable!(),
    })
}
