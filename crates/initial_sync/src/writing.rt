// What a copy writes: the term, the entries, and last the documents.
ghost use Rattle.std.specs.Prelude.{◌≡◌, ◌++◌, ◌≤◌, List, drop, length, take, IfOk, OnOk, IsErrOf};
ghost use Rattle.std.specs.List.{All};
ghost use Rattle.oplog_entry.specs.Lawful.{IsLawful};
ghost use Rattle.oplog_entry.specs.Visible.{last_of};
ghost use Rattle.entry_bytes.specs.Sizes.{IsWithinEntry};
ghost use Rattle.rs_disk.specs.Moments.{EachMoment};
ghost use Rattle.rs_disk.specs.State.{Keeps};
ghost use Rattle.repl_msg.specs.declared.record.Record.{Record as ARecord};
ghost use Rattle.node_journal.specs.Files.{IsAtRest as JournalAtRest, IsOpen as IsOpenJournal};
ghost use Rattle.checkpoint_store.specs.Files.{IsAtRest as CheckpointsAtRest, IsBeforeOrAfter};
ghost use Rattle.initial_sync.specs.Copies.{documents_of};
ghost use Rattle.initial_sync.specs.Missing.{BATCH, HasFront, batch_of, batches, missing, term_missing};
ghost use Rattle.initial_sync.specs.Pinned.{IsPinned, copy_of};

use crate::Pinned;
use crate::documents::store_of;
use checkpoint_store::{Checkpoints, Stable};
use node_journal::Journal;
use oplog_entry::Entry;
use record_file::FileError;
use repl_msg::{EntryList, Kept, Record};
use rs_disk::Disk;
use rs_optime::{Mem, OpTime};
use std::alloc::Global;
use vote_store::Vote;

// The most entries in one record.
const PIECE: usize = 2000;

fn last_of_entries(entries: &[Entry]) -> OpTime
    ensures { result ≡ last_of entries.now }
{
    match entries.last() {
        Some(entry) => entry.optime,
        None => OpTime::ZERO,
    }
}

// The record of some entries.
fn batch(alloc: Global, entries: &[Entry]) -> Mem<Record>
    requires { All IsLawful entries.now }
    ensures { IfOk result (λ item. item ≡ batch_of entries.now) }
{
    Ok(Record::Entries {
        list: EntryList::of_slice(alloc, entries)?,
        point: last_of_entries(entries),
    })
}

// The entries of the next record, and those after them.
fn next_piece(entries: &[Entry]) -> (&[Entry], &[Entry])
    ensures piece { result.0.now ≡ take BATCH entries.now }
    ensures few { length result.0.now ≤ BATCH }
    ensures rest { result.1.now ≡ drop BATCH entries.now }
{
    entries.split_at(entries.len().min(PIECE))
}

// Adds these entries, in as few records as possible.
fn add_entries<D: Disk>(
    alloc: Global,
    journal: &mut Journal<D>,
    entries: &[Entry],
) -> Result<(), FileError>
    requires open { IsOpenJournal (D.state journal.old.0) }
    requires lawful { All IsLawful entries.now }
    requires within { All IsWithinEntry entries.now }
    ensures ok { OnOk result ((items : List ARecord) → JournalAtRest (D.state journal.old.0) items
        → JournalAtRest (D.state journal.new.0) (items ++ batches entries.now)) }
    ensures any_moment { (items : List ARecord) → JournalAtRest (D.state journal.old.0) items
        → EachMoment (HasFront items (batches entries.now)) (D.state journal.old.0) (D.state journal.new.0) }
    ensures keeps { Keeps (IsErrOf result FileError.Disk) (D.state journal.old.0) (D.state journal.new.0) }
{
    let mut rest = entries;
    while !rest.is_empty() {
        let (piece, after) = next_piece(rest);
        journal.add(&batch(alloc, piece)?)?;
        rest = after;
    }
    Ok(())
}

// Adds the term if the journal doesn't have it.
fn add_term<D: Disk>(journal: &mut Journal<D>, term: u64, kept: u64) -> Result<(), FileError>
    requires open { IsOpenJournal (D.state journal.old.0) }
    ensures ok { OnOk result ((items : List ARecord) → JournalAtRest (D.state journal.old.0) items
        → JournalAtRest (D.state journal.new.0) (items ++ term_missing term kept)) }
    ensures open { OnOk result (IsOpenJournal (D.state journal.new.0)) }
    ensures any_moment { (items : List ARecord) → JournalAtRest (D.state journal.old.0) items
        → EachMoment (HasFront items (term_missing term kept))
        (D.state journal.old.0) (D.state journal.new.0) }
    ensures keeps { Keeps (IsErrOf result FileError.Disk) (D.state journal.old.0) (D.state journal.new.0) }
{
    if kept == term {
        return Ok(());
    }
    let vote = Vote {
        term,
        candidate: None,
    };
    journal.add(&Record::Vote(vote))
}

/// Adds what the journal still needs after what it has.
pub(crate) fn add_missing<D: Disk>(
    alloc: Global,
    journal: &mut Journal<D>,
    pinned: &Pinned,
    kept: &Kept,
) -> Result<(), FileError>
    requires open { IsOpenJournal (D.state journal.old.0) }
    requires pinned { IsPinned pinned.now }
    requires kept { length kept.now.entries ≤ length pinned.now.entries.items }
    ensures ok { OnOk result ((items : List ARecord) → JournalAtRest (D.state journal.old.0) items
        → JournalAtRest (D.state journal.new.0) (items ++ missing (copy_of pinned.now) kept.now)) }
    ensures any_moment { (items : List ARecord) → JournalAtRest (D.state journal.old.0) items
        → EachMoment (HasFront items (missing (copy_of pinned.now) kept.now))
        (D.state journal.old.0) (D.state journal.new.0) }
    ensures keeps { Keeps (IsErrOf result FileError.Disk) (D.state journal.old.0) (D.state journal.new.0) }
{
    add_term(journal, pinned.term, kept.vote.term)?;
    add_entries(alloc, journal, entries_left(pinned, kept))
}

// The entries after those that the journal has.
fn entries_left<'a>(pinned: &'a Pinned, kept: &Kept) -> &'a [Entry]
    requires { length kept.now.entries ≤ length pinned.now.entries.items }
    ensures { result.now ≡ drop (length kept.now.entries) pinned.now.entries.items }
{
    pinned.entries.split_at(kept.entries.as_slice().len()).1
}

/// Saves the documents, unless the last checkpoint is theirs.
pub(crate) fn save_documents<D: Disk>(
    alloc: Global,
    checkpoints: &mut Checkpoints<D>,
    pinned: &Pinned,
    stable: &Stable,
) -> Result<(), FileError>
    requires pinned { IsPinned pinned.now }
    requires rests { CheckpointsAtRest (D.state checkpoints.old) stable.now }
    requires there { stable.now.at ≡ pinned.now.at → stable.now ≡ documents_of pinned.now.entries.items }
    ensures ok { OnOk result (CheckpointsAtRest (D.state checkpoints.new)
        (documents_of pinned.now.entries.items)) }
    ensures any_moment { EachMoment (IsBeforeOrAfter stable.now (documents_of pinned.now.entries.items))
        (D.state checkpoints.old) (D.state checkpoints.new) }
    ensures keeps { Keeps (IsErrOf result FileError.Disk) (D.state checkpoints.old)
        (D.state checkpoints.new) }
{
    if stable.at == pinned.at {
        return Ok(());
    }
    let store = store_of(alloc, pinned.at, &pinned.documents)?;
    checkpoints.save(pinned.at, &store)
}
