// The commands that are answered at once: writes, and questions about the node.
ghost use Rattle.std.specs.Prelude.{◌≡◌, true, IfOk, OnErr};
ghost use Rattle.set_model.specs.Clock.{set_clock};
ghost use Rattle.set_model.specs.Limits.{is_within};
ghost use Rattle.set_model.specs.Outcome.{replied};
ghost use Rattle.set_model.specs.Stores.{finished};
ghost use Rattle.node_state.specs.Bounds.{IsBounded, is_plain, is_write, is_show};
ghost use Rattle.node_answers.specs.Plain.{plain_row};

use crate::reads::{dump, list_shown, read, rolled, show_log, show_state};
use crate::write::{note, retry, write_at_once};
use crate::writers::{abort, begin, commit};
use bson_doc::Mem;
use doc_update::BorrowedWrite;
use node_state::State;
use set_model::{Command, Reply};

/// Whether a command is answered at once: a write, a writer's step, or a question about the node. None of
/// these stores or sends anything.
pub fn is_plain(command: &Command) -> bool
    ensures { result ≡ is_plain command.now }
{
    is_write(command) || is_show(command)
}

/// Whether a command is a write, or a writer's step.
fn is_write(command: &Command) -> bool
    ensures { result ≡ is_write command.now }
{
    matches!(
        command,
        Command::Insert { .. }
            | Command::Replace { .. }
            | Command::Update { .. }
            | Command::Delete { .. }
            | Command::Retry { .. }
            | Command::Note { .. }
            | Command::Begin { .. }
            | Command::Commit { .. }
            | Command::Abort { .. }
    )
}

/// Whether a command is a question about the node, or sets its clock.
fn is_show(command: &Command) -> bool
    ensures { result ≡ is_show command.now }
{
    matches!(
        command,
        Command::Read { .. }
            | Command::Dump { .. }
            | Command::Log { .. }
            | Command::State { .. }
            | Command::Rolled { .. }
            | Command::Clock { .. }
    )
}

/// Does a command that is answered at once. The only error is out of memory, which leaves the node as it was.
pub fn answer(state: &mut State, command: &Command) -> Mem<Reply>
    requires bounds { IsBounded state.old.node }
    requires plain { is_plain command.now ≡ true }
    requires within { is_within command.now ≡ true }
    ensures ok { IfOk result (λ reply.
        plain_row state.old.node command.now ≡ finished (replied reply state.new.node)) }
    ensures err { OnErr result (state.new.node ≡ state.old.node) }
{
    if is_write(command) {
        return write(state, command);
    }
    show(state, command)
}

/// Does a write, or a writer's step.
#[tactic(auto, using(node_state::proofs::TurnLemmas::while_up))]
fn write(state: &mut State, command: &Command) -> Mem<Reply>
    requires bounds { IsBounded state.old.node }
    requires write { is_write command.now ≡ true }
    requires within { is_within command.now ≡ true }
    ensures ok { IfOk result (λ reply.
        plain_row state.old.node command.now ≡ finished (replied reply state.new.node)) }
    ensures err { OnErr result (state.new.node ≡ state.old.node) }
{
    state.recall_up();
    match command {
        Command::Begin { writer, op, .. } => begin(state, *writer, op.borrowed()),
        Command::Commit { writer, .. } => commit(state, *writer),
        Command::Abort { writer, .. } => Ok(abort(state, *writer)),
        Command::Insert {
            collection: ns,
            document: doc,
            ..
        } => write_at_once(state, BorrowedWrite::Insert { ns, doc }),
        Command::Replace {
            collection: ns,
            id,
            document: doc,
            ..
        } => write_at_once(state, BorrowedWrite::Replace { ns, id, doc }),
        Command::Update {
            collection: ns,
            id,
            operators,
            ..
        } => write_at_once(state, BorrowedWrite::Update { ns, id, operators }),
        Command::Delete {
            collection: ns,
            id,
            ..
        } => write_at_once(state, BorrowedWrite::Delete { ns, id }),
        Command::Retry { session, op, .. } => retry(state, *session, op.borrowed()),
        Command::Note { .. } => note(state),
        _ => unreachable!(),
    }
}

/// Answers a question about the node, or sets its clock.
#[tactic(auto, using(node_state::proofs::TurnLemmas::while_up))]
fn show(state: &mut State, command: &Command) -> Mem<Reply>
    requires show { is_show command.now ≡ true }
    ensures ok { IfOk result (λ reply.
        plain_row state.old.node command.now ≡ finished (replied reply state.new.node)) }
    ensures err { OnErr result (state.new.node ≡ state.old.node) }
{
    state.recall_up();
    match command {
        Command::Read {
            level,
            collection,
            id,
            ..
        } => read(state, *level, collection, id),
        Command::Dump { level, .. } => {
            list_shown(state, *level);
            dump(state, *level)
        }
        Command::Log { .. } => show_log(state),
        Command::State { .. } => Ok(show_state(state)),
        Command::Rolled { .. } => rolled(state),
        Command::Clock { seconds, .. } => Ok(set_clock(state, *seconds)),
        _ => unreachable!(),
    }
}

fn set_clock(state: &mut State, seconds: u32) -> Reply
    ensures { set_clock state.old.node seconds ≡ replied result state.new.node }
{
    state.clock = seconds;
    Reply::Clock(seconds)
}
