ghost use Rattle.std.specs.Prelude.{◌≡◌, ◌≢◌, ◌<◌, ◌≤◌, length, Err, Ok, IfErr, IfOk, IfSome, IsErrOf, All, OnErr, option_map};
ghost use Rattle.oplog_entry.specs.Lawful.{IsLawful};
ghost use Rattle.oplog_entry.specs.Log.{IsOplog};
ghost use Rattle.set_world.specs.declared.error.StepError.{StepError as AStepError};
ghost use Rattle.set_world.specs.Stepper.{AddsOne, IsDefined, Learns};
ghost use Rattle.change_stream.specs.declared.error.WatchError.{WatchError as AWatchError};
ghost use Rattle.change_stream.specs.Asking.{Does, OwnBreaks, OwnFails, OwnReads, OwnTells};
ghost use Rattle.change_stream.specs.Calls.{token_of_last};
ghost use Rattle.change_stream.specs.Shown.{shown_log, shown_state};
ghost use Rattle.set_model.specs.Run.{HISTORY_LIMIT};

use crate::WatchError;
use crate::answering::{next_entries, token_of_last};
use oplog_entry::Entry;
use repl_msg::EntryList;
use rs_optime::OpTime;
use safety_laws::{logs_rise, numbers_stay_small};
use set_model::{Command, Reply};
use set_world::{StepError, Stepper};
use std::sync::Wait;
use std::thread::Threads;

/// The events of a call aren't on a line of a script.
const NO_LINE: u32 = 0;

/// A consumer of a set's changes: where it began, and the last entry that it was given.
#[derive(Clone, Copy, Debug, PartialEq, Eq)]
pub struct ChangeStream {
    pub start: OpTime,
    /// The resume token: with it a stream can go on at any node.
    pub token: OpTime,
}

/// A stream of what comes after a token. ZERO is before all entries.
pub fn open(token: OpTime) -> ChangeStream
    ensures { result ≡ record { start = token; token = token } }
{
    ChangeStream {
        start: token,
        token,
    }
}

/// Asks a node for its state and then for its log. It gives the log's first `max` entries that are after the
/// token, and at or before the commit point in that state.
///
/// # Errors
/// `NodeDown`, `UnknownToken` where the log is committed as far as the token and doesn't have its entry, and
/// those of a step. The stream stays as it was.
pub fn next<R: Threads + Wait + Sync, S: Stepper>(
    stream: &mut ChangeStream,
    rt: &R,
    set: &mut S,
    node: u32,
    max: u32,
) -> Result<Vec<Entry>, WatchError>
    requires node { node < (S.sizes set.old).nodes }
    requires max { 1 ≤ max }
    requires most { max ≤ 1000 }
    ensures ok { IfOk result (λ entries. OwnTells S.is_alone (S.sizes set.old) (S.known set.old)
        (S.known set.new) (S.own set.old) (S.own set.new) stream.old.token node max (Ok entries.items)) }
    ensures err { IfErr result (λ error. OwnFails S.is_alone (S.sizes set.old) (S.known set.old)
        (S.known set.new) (S.own set.old) (S.own set.new) stream.old.token node max error) }
    ensures lawful { IfOk result (λ entries. All IsLawful entries.items) }
    ensures start { stream.new.start ≡ stream.old.start }
    ensures token { IfOk result (λ entries. stream.new.token
        ≡ token_of_last stream.old.token entries.items) }
    ensures left { OnErr result (stream.new ≡ stream.old) }
    ensures sizes { S.sizes set.new ≡ S.sizes set.old }
    ensures stays { S.stays set.old set.new }
    ensures whole { S.is_whole set.old → result ≢ Err AWatchError.Memory → S.is_whole set.new }
    ensures defined { IsDefined (S.sizes set.new) (S.known set.new) }
{
    let (commit, log) = read(rt, set, node)?;
    let Some(entries) = next_entries(&log, stream.token, commit, max) else {
        return Err(WatchError::UnknownToken);
    };
    let given = EntryList::of_slice(*log.allocator(), entries)?.into_entries();
    stream.token = token_of_last(stream.token, &given);
    Ok(given)
}

/// The two events of a call: a node's commit point, and then its log.
fn read<R: Threads + Wait + Sync, S: Stepper>(
    rt: &R,
    set: &mut S,
    node: u32,
) -> Result<(OpTime, Vec<Entry>), WatchError>
    requires { node < (S.sizes set.old).nodes }
    ensures ok { IfOk result (λ shown. OwnReads S.is_alone (S.sizes set.old) (S.known set.old)
        (S.known set.new) (S.own set.old) (S.own set.new) node shown.0 shown.1.items) }
    ensures oplog { IfOk result (λ shown. IsOplog shown.1.items) }
    ensures err { IfErr result (λ error. OwnBreaks S.is_alone (S.sizes set.old) (S.known set.old)
        (S.known set.new) (S.own set.old) (S.own set.new) node error) }
    ensures sizes { S.sizes set.new ≡ S.sizes set.old }
    ensures stays { S.stays set.old set.new }
    ensures whole { S.is_whole set.old → result ≢ Err AWatchError.Memory → S.is_whole set.new }
    ensures defined { IsDefined (S.sizes set.new) (S.known set.new) }
{
    numbers_stay_small();
    logs_rise();
    let state = ask_state(rt, set, node)?;
    let Some(commit) = commit_shown(&state) else {
        return Err(WatchError::NodeDown);
    };
    let reply = ask_log(rt, set, node)?;
    let Some(log) = log_shown(reply) else {
        return Err(WatchError::NodeDown);
    };
    Ok((commit, log))
}

/// The first event of a call.
fn ask_state<R: Threads + Wait + Sync, S: Stepper>(
    rt: &R,
    set: &mut S,
    node: u32,
) -> Result<Reply, StepError>
    requires { node < (S.sizes set.old).nodes }
    ensures step { IfOk result (λ reply. Does S.is_alone (S.sizes set.old) (S.known set.old) (S.known set.new)
        (Command.State node) reply) }
    ensures err { OnErr result (Learns S.is_alone (S.known set.old) (S.known set.new)) }
    ensures own { IfOk result (λ reply. AddsOne (S.known set.new) (S.own set.old) (S.own set.new)) }
    ensures idle { OnErr result (S.own set.new ≡ S.own set.old) }
    ensures full { IsErrOf result AStepError.HistoryFull → length (S.known set.new) ≡ HISTORY_LIMIT }
    ensures sizes { S.sizes set.new ≡ S.sizes set.old }
    ensures stays { S.stays set.old set.new }
    ensures whole { S.is_whole set.old → result ≢ Err AStepError.Memory → S.is_whole set.new }
    ensures defined { IsDefined (S.sizes set.new) (S.known set.new) }
{
    let command = Command::State { node };
    set.step(rt, NO_LINE, &command)
}

/// The second event of a call.
fn ask_log<R: Threads + Wait + Sync, S: Stepper>(
    rt: &R,
    set: &mut S,
    node: u32,
) -> Result<Reply, StepError>
    requires { node < (S.sizes set.old).nodes }
    ensures step { IfOk result (λ reply. Does S.is_alone (S.sizes set.old) (S.known set.old) (S.known set.new)
        (Command.Log node) reply) }
    ensures err { OnErr result (Learns S.is_alone (S.known set.old) (S.known set.new)) }
    ensures own { IfOk result (λ reply. AddsOne (S.known set.new) (S.own set.old) (S.own set.new)) }
    ensures idle { OnErr result (S.own set.new ≡ S.own set.old) }
    ensures full { IsErrOf result AStepError.HistoryFull → length (S.known set.new) ≡ HISTORY_LIMIT }
    ensures sizes { S.sizes set.new ≡ S.sizes set.old }
    ensures stays { S.stays set.old set.new }
    ensures whole { S.is_whole set.old → result ≢ Err AStepError.Memory → S.is_whole set.new }
    ensures defined { IsDefined (S.sizes set.new) (S.known set.new) }
{
    let command = Command::Log { node };
    set.step(rt, NO_LINE, &command)
}

/// The commit point in a state.
fn commit_shown(reply: &Reply) -> Option<OpTime>
    ensures { result ≡ option_map (λ state. state.1) (shown_state reply.now) }
{
    match reply {
        Reply::State { commit, .. } => Some(*commit),
        _ => None,
    }
}

/// The entries of a log that was shown; none where the reply shows no log.
pub fn log_shown(reply: Reply) -> Option<Vec<Entry>>
    ensures log { option_map (λ log. log.items) result ≡ shown_log reply }
    ensures lawful { IfSome result (λ log. All IsLawful log.items) }
{
    match reply {
        Reply::Entries(list) => Some(list.into_entries()),
        _ => None,
    }
}
