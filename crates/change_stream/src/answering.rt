// The part of a log that a call gives.
ghost use Rattle.std.specs.Prelude.{◌≡◌, true, false, not, All, IfNone, IfSome, take};
ghost use Rattle.oplog_entry.specs.Lawful.{IsLawful};
ghost use Rattle.oplog_entry.specs.Log.{IsOplog};
ghost use Rattle.oplog_entry.specs.Visible.{is_before, log_up_to};
ghost use Rattle.repl_msg.specs.Logs.{has_entry};
ghost use Rattle.change_stream.specs.Calls.{is_unknown, part, token_of_last};

use oplog_entry::Entry;
use oplog_fetcher::log_after;
use rs_optime::OpTime;

/// The next committed entries after a token, at most `most`; none where the token is unknown.
pub(crate) fn next_entries(
    log: &[Entry],
    token: OpTime,
    commit: OpTime,
    most: u32,
) -> Option<&[Entry]>
    requires { IsOplog log.now }
    ensures unknown { IfNone result (is_unknown token commit log.now ≡ true) }
    ensures known { IfSome result (λ next. is_unknown token commit log.now ≡ false) }
    ensures next { IfSome result (λ next. next.now ≡ take most (part token commit log.now)) }
    ensures lawful { IfSome result (λ next. All IsLawful next.now) }
{
    if is_unknown(log, token, commit) {
        return None;
    }
    let entries = log_after(up_to(log, commit), token);
    Some(&entries[..entries.len().min(most as usize)])
}

/// Whether a log is committed as far as a token, and doesn't have its entry.
fn is_unknown(log: &[Entry], token: OpTime, commit: OpTime) -> bool
    requires { IsOplog log.now }
    ensures { result ≡ is_unknown token commit log.now }
{
    token != OpTime::ZERO && token <= commit && !has_entry(log, token)
}

/// Whether an entry of a log has this optime.
fn has_entry(log: &[Entry], at: OpTime) -> bool
    requires { IsOplog log.now }
    ensures { result ≡ has_entry log.now at }
{
    match up_to(log, at).last() {
        Some(last) => last.optime == at,
        None => false,
    }
}

/// The entries of a log up to an optime.
pub fn up_to(log: &[Entry], at: OpTime) -> &[Entry]
    requires { IsOplog log.now }
    ensures cut { result.now ≡ log_up_to at log.now }
    ensures oplog { IsOplog result.now }
{
    let count = log.partition_point(
        |entry| -> bool
            ensures { result ≡ not (is_before at entry.now.optime) }
        { entry.optime <= at },
    );
    &log[..count]
}

/// The token after these entries were given.
pub(crate) fn token_of_last(token: OpTime, entries: &[Entry]) -> OpTime
    ensures { result ≡ token_of_last token entries.now }
{
    match entries.last() {
        Some(last) => last.optime,
        None => token,
    }
}
