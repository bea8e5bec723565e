// Which entries of a log aren't in a journal.
ghost use Rattle.std.specs.Prelude.{◌≡◌, ◌+◌, ◌<◌, ◌≤◌, false, true, All, IsTrue, drop, length, slice_index_or, take, IfOk};
ghost use Rattle.std.specs.List.{AllPairs};
ghost use Rattle.oplog_entry.specs.declared.entry.Entry.{Entry as Seen};
ghost use Rattle.oplog_store.specs.Log.{StandsBefore};
ghost use Rattle.repl_msg.specs.Logs.{has_entry};
ghost use Rattle.checker_tables.specs.Journal.{AreKept, unkept};

use bson_doc::Mem;
use oplog_entry::Entry;
use oplog_store::Oplog;
use rs_optime::OpTime;
use std::alloc::Global;

/// How many first entries of a log are known to be in the journal, looking up those after the first `count`.
pub fn pass_kept(log: &Oplog, kept: &Oplog, count: usize) -> usize
    requires { AreKept count log.now.entries kept.now.entries }
    ensures { AreKept result log.now.entries kept.now.entries }
{
    let mut place = count;
    let mut likely = count;
    while place < log.len() {
        let passed = next_kept(log, place, kept, &mut likely);
        if passed == 0 {
            return place;
        }
        place += passed;
    }
    place
}

/// Copies of the first `most` entries that aren't in the journal, which has the first `count`.
pub fn copy_unkept(
    alloc: Global,
    log: &Oplog,
    kept: &Oplog,
    count: usize,
    most: usize,
) -> Mem<Vec<Entry>>
    requires { AreKept count log.now.entries kept.now.entries }
    ensures { IfOk result (λ found.
        found.items ≡ take most (unkept log.now.entries kept.now.entries)) }
{
    let entries = log.as_slice();
    let mut found = Vec::new(alloc);
    let mut place = count;
    let mut likely = count;
    while place < entries.len() {
        if found.len() == most {
            return Ok(found);
        }
        let passed = next_kept(log, place, kept, &mut likely);
        if passed > 0 {
            place += passed;
            continue;
        }
        found.push(entries[place].copy()?)?;
        place += 1;
    }
    Ok(found)
}

/// How many entries from a place on are found to be in the journal: none where the first isn't. A likely
/// place is looked at first; it then is the one after the last of them.
fn next_kept(log: &Oplog, place: usize, kept: &Oplog, likely: &mut usize) -> usize
    requires { place < length log.now.entries }
    ensures within { place + result ≤ length log.now.entries }
    ensures there { All (λ entry. has_entry kept.now.entries entry.optime ≡ true)
        (take result (drop place log.now.entries)) }
    ensures none { (d : Seen) → result ≡ 0
        → has_entry kept.now.entries (slice_index_or log.now.entries place d).optime ≡ false }
{
    let passed = kept_run(log.as_slice(), place, kept.as_slice(), *likely);
    if passed > 0 {
        *likely = likely.wrapping_add(passed);
        return passed;
    }
    if is_kept(kept, likely, log.as_slice()[place].optime) {
        1
    } else {
        0
    }
}

/// How many entries from a place on have the optimes of those of another log from a place on, as far as a
/// few looks tell: all that are left, or half of them, and so on.
fn kept_run(entries: &[Entry], place: usize, kept: &[Entry], at: usize) -> usize
    requires order { AllPairs StandsBefore entries.now }
    requires kept { AllPairs StandsBefore kept.now }
    requires within { place ≤ length entries.now }
    ensures within { place + result ≤ length entries.now }
    ensures there { All (λ entry. has_entry kept.now entry.optime ≡ true)
        (take result (drop place entries.now)) }
{
    let left = entries.len().saturating_sub(place);
    let mut count = left.min(kept.len().saturating_sub(at));
    while count > 0 {
        if is_run(entries, place, kept, at, count) {
            return count;
        }
        count /= 2;
    }
    0
}

/// Whether so many entries have the optimes of those of another log, as their first and last ones tell: where
/// timestamps rise by one each, there are no others between.
fn is_run(entries: &[Entry], place: usize, kept: &[Entry], at: usize, count: usize) -> bool
    requires order { AllPairs StandsBefore entries.now }
    requires kept { AllPairs StandsBefore kept.now }
    requires some { 0 < count }
    requires within { place + count ≤ length entries.now }
    requires within_kept { at + count ≤ length kept.now }
    ensures { IsTrue result
        → All (λ entry. has_entry kept.now entry.optime ≡ true) (take count (drop place entries.now)) }
{
    let steps = count - 1;
    let first = entries[place].optime;
    let last = entries[place + steps].optime;
    if first != kept[at].optime {
        return false;
    }
    if last != kept[at + steps].optime {
        return false;
    }
    are_in_a_row(first, last, steps)
}

/// Whether so many steps lead from one optime to another.
fn are_in_a_row(first: OpTime, last: OpTime, steps: usize) -> bool
    ensures { IsTrue result → (first.term ≡ last.term) × (last.ts ≡ first.ts + steps) }
{
    first.term == last.term && first.ts <= last.ts && last.ts - first.ts == steps as u64
}

/// Whether an entry is in the journal. A likely place is looked at first; it then is the one after it.
fn is_kept(kept: &Oplog, likely: &mut usize, at: OpTime) -> bool
    ensures { result ≡ has_entry kept.now.entries at }
{
    let found = kept.find_near(*likely, at);
    if let Some(place) = found {
        *likely = place.wrapping_add(1);
    }
    found.is_some()
}
