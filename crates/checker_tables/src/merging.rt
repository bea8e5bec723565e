// Entries that are put into a log one after another.
ghost use Rattle.std.specs.Prelude.{◌≡◌, ◌≤◌, ◌++◌, ℕ, length, take, IfOk, OnOk, OnErr};
ghost use Rattle.oplog_store.specs.Log.{IsOplog};
ghost use Rattle.repl_msg.specs.Kept.{with_entries};

use bson_doc::Mem;
use oplog_entry::Entry;
use oplog_store::Oplog;
use std::alloc::Global;

/// Puts entries at their places in a log. Out of memory leaves it as it was.
pub(crate) fn merge(log: &mut Oplog, entries: Vec<Entry>) -> Mem<()>
    requires { (count : ℕ) → IsOplog (with_entries log.old.entries (take count entries.items)) }
    ensures ok { OnOk result (log.new.entries ≡ with_entries log.old.entries entries.items) }
    ensures err { OnErr result (log.new.entries ≡ log.old.entries) }
{
    log.reserve(entries.len())?;
    put_all(log, entries);
    Ok(())
}

fn put_all(log: &mut Oplog, entries: Vec<Entry>)
    requires room { length entries.items ≤ log.old.spare }
    requires stays { (count : ℕ) → IsOplog (with_entries log.old.entries (take count entries.items)) }
    ensures { log.new.entries ≡ with_entries log.old.entries entries.items }
{
    for entry in entries {
        log.insert(entry);
    }
}

/// Appends entries to a log. Out of memory leaves it as it was.
pub(crate) fn append(alloc: Global, log: &mut Oplog, entries: &[Entry]) -> Mem<()>
    requires { IsOplog (log.old.entries ++ entries.now) }
    ensures ok { OnOk result (log.new.entries ≡ log.old.entries ++ entries.now) }
    ensures err { OnErr result (log.new.entries ≡ log.old.entries) }
{
    let entries = copies(alloc, entries)?;
    merge(log, entries)
}

fn copies(alloc: Global, entries: &[Entry]) -> Mem<Vec<Entry>>
    ensures { IfOk result (λ copies. copies.items ≡ entries.now) }
{
    let mut copies = Vec::with_capacity(alloc, entries.len())?;
    for entry in entries {
        copies.push(entry.copy()?)?;
    }
    Ok(copies)
}
