ghost use Rattle.std.specs.Prelude.{◌≡◌, not, All, take, IfOk};
ghost use Rattle.oplog_entry.specs.Lawful.{IsLawful};
ghost use Rattle.oplog_entry.specs.Visible.{is_before, log_up_to};
ghost use Rattle.oplog_store.specs.Log.{IsOplog};
ghost use Rattle.repl_msg.specs.Logs.{log_after};
ghost use Rattle.repl_msg.specs.Fetching.{holds as has_place};
ghost use Rattle.oplog_fetcher.specs.Fetch.{reply_to as answered};

use member_config::Mem;
use oplog_entry::Entry;
use oplog_store::Oplog;
use repl_msg::{FetchReply, SharedEntries};
use rs_optime::OpTime;
use std::alloc::Global;

/// The most entries of one answer.
pub const MOST_ENTRIES: usize = 5_000;

/// Answers a fetch by a node whose last optime is `base`, from a log that is visible up to `visible`: the
/// next visible entries after `base`, at most 5,000. Where `base` is neither ZERO nor a visible entry's
/// optime, there are none, and `holds` is false. The only error is out of memory.
pub fn reply_to(
    alloc: Global,
    log: &Oplog,
    visible: OpTime,
    base: OpTime,
    commit: OpTime,
    primary: bool,
) -> Mem<FetchReply>
    ensures { IfOk result (λ reply. reply ≡ answered log.now.entries visible base commit primary) }
{
    let holds = holds(log, visible, base);
    let entries = if holds {
        SharedEntries::of_slice(alloc, next_entries(log, visible, base))?
    } else {
        SharedEntries::new(alloc, Vec::new(alloc))?
    };
    Ok(FetchReply {
        base,
        holds,
        entries,
        visible,
        commit,
        primary,
    })
}

/// Whether an answer can begin after this optime: it is ZERO, or a visible entry's.
fn holds(log: &Oplog, visible: OpTime, base: OpTime) -> bool
    ensures { result ≡ has_place (log_up_to visible log.now.entries) base }
{
    base == OpTime::ZERO || (is_within(base, visible) && log.find(base).is_some())
}

/// Whether an optime is at or before another.
fn is_within(at: OpTime, visible: OpTime) -> bool
    ensures { result ≡ not (is_before visible at) }
{
    at <= visible
}

/// The next visible entries after a place.
fn next_entries(log: &Oplog, visible: OpTime, base: OpTime) -> &[Entry]
    ensures entries { result.now ≡ take 5000 (log_after base (log_up_to visible log.now.entries)) }
    ensures lawful { All IsLawful result.now }
{
    let entries = log_after(log.up_to(visible), base);
    &entries[..entries.len().min(MOST_ENTRIES)]
}

/// The entries of a log after an optime.
pub fn log_after(entries: &[Entry], at: OpTime) -> &[Entry]
    requires { IsOplog entries.now }
    ensures entries { result.now ≡ log_after at entries.now }
    ensures lawful { All IsLawful result.now }
{
    let count = entries.partition_point(
        |entry| -> bool
            ensures { result ≡ not (is_before at entry.now.optime) }
        { entry.optime <= at },
    );
    &entries[count..]
}
