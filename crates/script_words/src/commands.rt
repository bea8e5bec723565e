// The command of a line.
ghost use Rattle.std.specs.Prelude.{◌≡◌, false};
ghost use Rattle.std.specs.Option.{option_copied};
ghost use Rattle.script_words.specs.Gives.{Reads, Gives};
ghost use Rattle.script_words.specs.Commands.{commit_at, abort_at, ack_at, dump_at, heartbeat_at, report_at, common_at, apply_at, reconfig_at, or_zero, crash_at, disk_fail_at, clock_at, read_at, begin_at, retry_at, of_node, deliver_one, deliver_latest, deliver_at, keyword_at, verb_at, words_at, write_command, node_shape, ends_in_value};
ghost use Rattle.script_words.specs.Words.{ended, after_word};

use crate::choices::{concern, disk, level, target};
use crate::configs::config_of;
use crate::rule::{LineError, ScriptRule};
use crate::values::{last_value, text};
use crate::verb::{Keyword, NodeVerb, Verb, WriteKind};
use crate::words::{
    Left, after_word, collection, has_shape, message, node, number, optional, other_node, pick,
    word, writer,
};
use crate::writes::write;
use bson_doc::Text;
use doc_update::WriteOp;
use oplog_entry::Session;
use set_model::Command;
use std::alloc::Global;

/// The first word of a line that has as many words as it asks for.
#[tactic(auto, unfolding(crate::specs::Commands::keyword_at))]
pub fn keyword(text: &str) -> Result<(Keyword, Left<'_>), ScriptRule>
    ensures { Reads (λ x. (x.0, option_copied x.1)) result (keyword_at text.now) }
{
    let (first, left) = word(Some(text))?;
    let Some(keyword) = Keyword::named(first) else {
        return Err(ScriptRule::UnknownCommand);
    };
    if has_shape(left, keyword.shape()) {
        Ok((keyword, left))
    } else {
        Err(ScriptRule::WordCount)
    }
}

/// The first word of a command that has as many words as it asks for. No other first word is known here.
#[tactic(auto, unfolding(crate::specs::Commands::verb_at))]
pub fn command_verb(text: &str) -> Result<(Verb, Left<'_>), ScriptRule>
    ensures { Reads (λ x. (x.0, option_copied x.1)) result (verb_at text.now) }
{
    let (first, left) = word(Some(text))?;
    let Some(verb) = Verb::named(first) else {
        return Err(ScriptRule::UnknownCommand);
    };
    if has_shape(left, verb.shape()) {
        Ok((verb, left))
    } else {
        Err(ScriptRule::WordCount)
    }
}

/// The command with this first word, from the words that are left, in a set of this size.
pub fn command(alloc: Global, nodes: u32, verb: Verb, left: Left<'_>) -> Result<Command, LineError>
    ensures { Gives (λ command. command) result (words_at nodes verb (option_copied left.entry)) }
{
    match verb {
        Verb::Deliver => Ok(deliver(nodes, left)?),
        Verb::Node(verb) => {
            let (node, left) = node(left, nodes)?;
            of_node(alloc, nodes, verb, node, left)
        }
    }
}

/// A message, or two nodes.
fn deliver(nodes: u32, left: Left<'_>) -> Result<Command, ScriptRule>
    ensures { result ≡ deliver_at nodes (after_word (option_copied left.entry)) (option_copied left.entry) }
{
    match after_word(left) {
        None => deliver_one(left),
        Some(_) => deliver_latest(nodes, left),
    }
}

/// `MESSAGE`
#[tactic(auto, unfolding(crate::specs::Commands::deliver_one))]
fn deliver_one(left: Left<'_>) -> Result<Command, ScriptRule>
    ensures { result ≡ deliver_one (option_copied left.entry) }
{
    let (message, left) = message(left)?;
    ended(left, Command::Deliver { message })
}

/// `NODE NODE`
#[tactic(auto, unfolding(crate::specs::Commands::deliver_latest))]
fn deliver_latest(nodes: u32, left: Left<'_>) -> Result<Command, ScriptRule>
    ensures { result ≡ deliver_latest nodes (option_copied left.entry) }
{
    let (from, left) = node(left, nodes)?;
    let (to, left) = other_node(left, nodes, from)?;
    ended(left, Command::DeliverLatest { from, to })
}

/// The command whose words after the node are left.
pub fn of_node(
    alloc: Global,
    nodes: u32,
    verb: NodeVerb,
    node: u32,
    left: Left<'_>,
) -> Result<Command, LineError>
    ensures { Gives (λ command. command) result (of_node nodes verb node (option_copied left.entry)) }
{
    match verb {
        NodeVerb::Write(kind) => Ok(write_command(node, write(alloc, kind, left)?)),
        NodeVerb::Retry => retry(alloc, node, left),
        NodeVerb::Begin => begin(alloc, node, left),
        NodeVerb::Read => read(alloc, node, left),
        NodeVerb::Reconfig => reconfig(alloc, node, left),
        _ => Ok(of_words(nodes, verb, node, left)?),
    }
}

/// The command if its words hold no value. It takes no memory.
fn of_words(nodes: u32, verb: NodeVerb, node: u32, left: Left<'_>) -> Result<Command, ScriptRule>
    requires { ends_in_value (node_shape verb) ≡ false }
    ensures { result ≡ of_node nodes verb node (option_copied left.entry) }
{
    match verb {
        NodeVerb::Commit => commit(node, left),
        NodeVerb::Abort => abort(node, left),
        NodeVerb::Ack => ack(node, left),
        NodeVerb::Dump => dump(node, left),
        NodeVerb::Log => ended(left, Command::Log { node }),
        NodeVerb::State => ended(left, Command::State { node }),
        NodeVerb::Rolled => ended(left, Command::Rolled { node }),
        NodeVerb::Campaign => ended(left, Command::Campaign { node }),
        NodeVerb::DryRun => ended(left, Command::DryRun { node }),
        NodeVerb::Drain => ended(left, Command::Drain { node }),
        NodeVerb::StepDown => ended(left, Command::StepDown { node }),
        NodeVerb::Heartbeat => heartbeat(nodes, node, left),
        NodeVerb::Report => report(nodes, node, left),
        NodeVerb::Common => common(nodes, node, left),
        NodeVerb::Fetch => ended(left, Command::Fetch { node }),
        NodeVerb::Apply => apply(node, left),
        NodeVerb::Flush => ended(left, Command::Flush { node }),
        NodeVerb::Checkpoint => ended(left, Command::Checkpoint { node }),
        NodeVerb::Crash => crash(node, left),
        NodeVerb::Restart => ended(left, Command::Restart { node }),
        NodeVerb::DiskFail => disk_fail(node, left),
        NodeVerb::Clock => clock(node, left),
        NodeVerb::Note => ended(left, Command::Note { node }),
        _ => unreachable!(),
    }
}

/// The command, if nothing is left. It is inlined, which saves a move of the command.
#[inline(always)]
fn ended(left: Left<'_>, command: Command) -> Result<Command, ScriptRule>
    ensures { result ≡ ended (option_copied left.entry) command }
{
    match left {
        None => Ok(command),
        Some(_) => Err(ScriptRule::WordCount),
    }
}

/// `WRITER`
#[tactic(auto, unfolding(crate::specs::Commands::commit_at))]
fn commit(node: u32, left: Left<'_>) -> Result<Command, ScriptRule>
    ensures { result ≡ commit_at node (option_copied left.entry) }
{
    let (writer, left) = writer(left)?;
    ended(left, Command::Commit { node, writer })
}

/// `WRITER`
#[tactic(auto, unfolding(crate::specs::Commands::abort_at))]
fn abort(node: u32, left: Left<'_>) -> Result<Command, ScriptRule>
    ensures { result ≡ abort_at node (option_copied left.entry) }
{
    let (writer, left) = writer(left)?;
    ended(left, Command::Abort { node, writer })
}

/// `TARGET CONCERN`
#[tactic(auto, unfolding(crate::specs::Commands::ack_at))]
fn ack(node: u32, left: Left<'_>) -> Result<Command, ScriptRule>
    ensures { result ≡ ack_at node (option_copied left.entry) }
{
    let (target, left) = target(left)?;
    let (concern, left) = concern(left)?;
    ended(
        left,
        Command::Ack {
            node,
            target,
            concern,
        },
    )
}

/// `LEVEL COLLECTION ID`
#[tactic(auto, unfolding(crate::specs::Commands::read_at))]
fn read(alloc: Global, node: u32, left: Left<'_>) -> Result<Command, LineError>
    ensures { Gives (λ command. command) result (read_at node (option_copied left.entry)) }
{
    let (level, left) = level(left)?;
    let (collection, left) = collection(left)?;
    let id = last_value(alloc, text(left)?)?;
    Ok(Command::Read {
        node,
        level,
        collection: Text::from_str(alloc, collection)?,
        id,
    })
}

/// `LEVEL`
#[tactic(auto, unfolding(crate::specs::Commands::dump_at))]
fn dump(node: u32, left: Left<'_>) -> Result<Command, ScriptRule>
    ensures { result ≡ dump_at node (option_copied left.entry) }
{
    let (level, left) = level(left)?;
    ended(left, Command::Dump { node, level })
}

/// `NODE`
#[tactic(auto, unfolding(crate::specs::Commands::heartbeat_at))]
fn heartbeat(nodes: u32, node: u32, left: Left<'_>) -> Result<Command, ScriptRule>
    ensures { result ≡ heartbeat_at nodes node (option_copied left.entry) }
{
    let (to, left) = other_node(left, nodes, node)?;
    ended(left, Command::Heartbeat { node, to })
}

/// `NODE`
#[tactic(auto, unfolding(crate::specs::Commands::report_at))]
fn report(nodes: u32, node: u32, left: Left<'_>) -> Result<Command, ScriptRule>
    ensures { result ≡ report_at nodes node (option_copied left.entry) }
{
    let (to, left) = other_node(left, nodes, node)?;
    ended(left, Command::Report { node, to })
}

/// `NODE`
#[tactic(auto, unfolding(crate::specs::Commands::common_at))]
fn common(nodes: u32, node: u32, left: Left<'_>) -> Result<Command, ScriptRule>
    ensures { result ≡ common_at nodes node (option_copied left.entry) }
{
    let (to, left) = other_node(left, nodes, node)?;
    ended(left, Command::Common { node, to })
}

/// `WORKERS`, or nothing
#[tactic(auto, unfolding(crate::specs::Commands::apply_at))]
fn apply(node: u32, left: Left<'_>) -> Result<Command, ScriptRule>
    ensures { result ≡ apply_at node (option_copied left.entry) }
{
    let (workers, left) = optional(left, 4, 1, 16)?;
    ended(left, Command::Apply { node, workers })
}

/// `CONFIGURATION`
#[tactic(auto, unfolding(crate::specs::Commands::reconfig_at))]
fn reconfig(alloc: Global, node: u32, left: Left<'_>) -> Result<Command, LineError>
    ensures { Gives (λ command. command) result (reconfig_at node (option_copied left.entry)) }
{
    let config = config_of(alloc, text(left)?)?;
    Ok(Command::Reconfig { node, config })
}

/// `PICK`, or nothing
#[tactic(auto, unfolding(crate::specs::Commands::crash_at))]
fn crash(node: u32, left: Left<'_>) -> Result<Command, ScriptRule>
    ensures { result ≡ crash_at node (option_copied left.entry) }
{
    let (pick, left) = pick(left)?;
    let pick = or_zero(pick);
    ended(left, Command::Crash { node, pick })
}

fn or_zero(pick: Option<u64>) -> u64
    ensures { result ≡ or_zero pick }
{
    match pick {
        Some(pick) => pick,
        None => 0,
    }
}

/// `DISK CALL`, and `PICK` or nothing
#[tactic(auto, unfolding(crate::specs::Commands::disk_fail_at))]
fn disk_fail(node: u32, left: Left<'_>) -> Result<Command, ScriptRule>
    ensures { result ≡ disk_fail_at node (option_copied left.entry) }
{
    let (disk, left) = disk(left)?;
    let (call, left) = number(left, 1, 1000)?;
    let (pick, left) = pick(left)?;
    ended(
        left,
        Command::DiskFail {
            node,
            disk,
            call,
            pick,
        },
    )
}

/// `SECONDS`
#[tactic(auto, unfolding(crate::specs::Commands::clock_at))]
fn clock(node: u32, left: Left<'_>) -> Result<Command, ScriptRule>
    ensures { result ≡ clock_at node (option_copied left.entry) }
{
    let (seconds, left) = number(left, 0, 2_147_483_647)?;
    ended(left, Command::Clock { node, seconds })
}

/// `SESSION NUMBER`, and the words of a write
#[tactic(auto, unfolding(crate::specs::Commands::retry_at))]
fn retry(alloc: Global, node: u32, left: Left<'_>) -> Result<Command, LineError>
    ensures { Gives (λ command. command) result (retry_at node (option_copied left.entry)) }
{
    let (id, left) = number(left, 0, 4_294_967_295)?;
    let (number, left) = number(left, 1, 2_147_483_647)?;
    let (kind, left) = word(left)?;
    let Some(kind) = WriteKind::named(kind) else {
        return Err(LineError::Rule(ScriptRule::BadWord));
    };
    let op = write(alloc, kind, left)?;
    let session = Session { id, number };
    Ok(Command::Retry { node, session, op })
}

/// `WRITER`, and the words of a write
#[tactic(auto, unfolding(crate::specs::Commands::begin_at))]
fn begin(alloc: Global, node: u32, left: Left<'_>) -> Result<Command, LineError>
    ensures { Gives (λ command. command) result (begin_at node (option_copied left.entry)) }
{
    let (writer, left) = writer(left)?;
    let (kind, left) = word(left)?;
    let Some(kind) = WriteKind::named(kind) else {
        return Err(LineError::Rule(ScriptRule::BadWord));
    };
    let op = write(alloc, kind, left)?;
    Ok(Command::Begin { node, writer, op })
}

/// A write that is reserved and committed at once. It is inlined, which saves a move of the write.
#[inline(always)]
fn write_command(node: u32, op: WriteOp) -> Command
    ensures { result ≡ write_command node op }
{
    match op {
        WriteOp::Insert { ns, doc } => Command::Insert {
            node,
            collection: ns,
            document: doc,
        },
        WriteOp::Replace { ns, id, doc } => Command::Replace {
            node,
            collection: ns,
            id,
            document: doc,
        },
        WriteOp::Update { ns, id, operators } => Command::Update {
            node,
            collection: ns,
            id,
            operators,
        },
        WriteOp::Delete { ns, id } => Command::Delete {
            node,
            collection: ns,
            id,
        },
    }
}
