// Opens both disks, looks at what is there, and adds what is missing.
ghost use Rattle.std.specs.Prelude.{◌≡◌, ◌↔◌, ◌++◌, List, Ok, Some, IfErr, IfOk, OnOk, IsErrOf, true};
ghost use Rattle.rs_disk.specs.File.{contents};
ghost use Rattle.repl_msg.specs.declared.record.Record.{Record as ARecord};
ghost use Rattle.repl_msg.specs.Kept.{kept};
ghost use Rattle.node_journal.specs.Files.{HasJournal, IsAtRest as JournalAtRest, IsJournalDisk};
ghost use Rattle.node_journal.specs.Renewed.{renewed};
ghost use Rattle.checkpoint_store.specs.Files.{HasCheckpoint, IsAtRest as CheckpointsAtRest, IsCheckpointDisk};
ghost use Rattle.checkpoint_store.specs.declared.stable.Stable.{Stable as AStable};
ghost use Rattle.initial_sync.specs.Answers.{LeavesAsRead, RanBoth, checkpoints_after, error_after, error_of, journal_after};
ghost use Rattle.initial_sync.specs.Copies.{AreCopyDisks, IsPartOrWhole, IsWhole, LeaveBoth, documents_of};
ghost use Rattle.initial_sync.specs.Missing.{IsOfThis, missing};
ghost use Rattle.initial_sync.specs.Moments.{EachMomentOfBoth, IsBeforeOrContinued};
ghost use Rattle.initial_sync.specs.Pinned.{IsPinned, copy_of};
ghost use Rattle.initial_sync.specs.Runs.{Fills, Goes, IsFound, OpensBoth, Ran};

use crate::comparing::begin_with;
use crate::writing::{add_missing, save_documents};
use crate::{CopyError, Pinned};
use checkpoint_store::{Checkpoints, Stable};
use node_journal::Journal;
use record_file::FileError;
use repl_msg::Kept;
use rs_disk::Disk;
use rs_optime::{Mem, OpTime};
use std::alloc::Global;

// What was read from both disks.
#[derive(Drop)]
pub(crate) struct Found {
    pub(crate) kept: Kept,
    pub(crate) stable: Stable,
}

// Both disks, opened.
#[derive(Drop)]
pub(crate) struct Disks<D: Disk> {
    journal: Journal<D>,
    checkpoints: Checkpoints<D>,
}

impl Found {
    // Whether it can be part or all of this copy.
    fn is_of(&self, alloc: Global, pinned: &Pinned) -> Mem<bool>
        requires { IsPinned pinned.now }
        ensures { IfOk result (λ is. is ≡ true
            ↔ IsOfThis (copy_of pinned.now) self.now.kept self.now.stable.at) }
    {
        let term = self.kept.vote.term;
        let stable = self.stable.at;
        if term != 0 && term != pinned.term || stable != OpTime::ZERO && stable != pinned.at {
            return Ok(false);
        }
        begin_with(alloc, &pinned.entries, self.kept.entries.as_slice())
    }
}

impl<D: Disk> Disks<D> {
    // Adds what is missing: the journal's records, and after them the checkpoint.
    fn fill(&mut self, alloc: Global, pinned: &Pinned, found: &Found) -> Result<(), FileError>
        requires pinned { IsPinned pinned.now }
        requires this { IsOfThis (copy_of pinned.now) found.now.kept found.now.stable.at }
        requires journal { (items : List ARecord) × JournalAtRest (D.state self.old.journal.0) items }
        requires checkpoints { CheckpointsAtRest (D.state self.old.checkpoints) found.now.stable }
        requires there { found.now.stable.at ≡ pinned.now.at
            → found.now.stable ≡ documents_of pinned.now.entries.items }
        ensures fills { (items : List ARecord) → JournalAtRest (D.state self.old.journal.0) items
            → found.now.kept ≡ kept items
            → Fills (copy_of pinned.now) items found.now.stable (result ≡ Ok tt)
            (D.state self.old.journal.0) (D.state self.new.journal.0)
            (D.state self.old.checkpoints) (D.state self.new.checkpoints) }
        ensures ran { RanBoth (IsErrOf result FileError.Disk)
            (D.state self.old.journal.0) (D.state self.new.journal.0)
            (D.state self.old.checkpoints) (D.state self.new.checkpoints) }
    {
        match add_missing(alloc, &mut self.journal, pinned, &found.kept) {
            Ok(()) => save_documents(alloc, &mut self.checkpoints, pinned, &found.stable),
            Err(error) => Err(error),
        }
    }

    // The same, if what was found is of this copy.
    fn fill_if_same(
        &mut self,
        alloc: Global,
        pinned: &Pinned,
        found: &Found,
    ) -> Result<(), CopyError>
        requires pinned { IsPinned pinned.now }
        requires journal { (items : List ARecord) × JournalAtRest (D.state self.old.journal.0) items
            × (found.now.kept ≡ kept items) }
        requires checkpoints { CheckpointsAtRest (D.state self.old.checkpoints) found.now.stable }
        requires there { IsOfThis (copy_of pinned.now) found.now.kept found.now.stable.at
            → found.now.stable.at ≡ pinned.now.at
            → found.now.stable ≡ documents_of pinned.now.entries.items }
        ensures goes { Goes (copy_of pinned.now) found.now.kept found.now.stable (error_of result)
            (D.state self.old.journal.0) (D.state self.new.journal.0)
            (D.state self.old.checkpoints) (D.state self.new.checkpoints) }
        ensures ran { RanBoth (error_of result ≡ Some CopyError.Disk)
            (D.state self.old.journal.0) (D.state self.new.journal.0)
            (D.state self.old.checkpoints) (D.state self.new.checkpoints) }
    {
        if !found.is_of(alloc, pinned)? {
            return Err(CopyError::OtherCopy);
        }
        match self.fill(alloc, pinned, found) {
            Ok(()) => Ok(()),
            Err(error) => Err(CopyError::from(error)),
        }
    }

    // Hands both disks back.
    pub(crate) fn close(self) -> (D, D)
        ensures journal { result.0 ≡ self.journal.0 }
        ensures checkpoints { result.1 ≡ self.checkpoints }
    {
        let Disks {
            journal,
            checkpoints,
        } = self;
        (journal.close(), checkpoints.close())
    }
}

// Opens the journal, and then the checkpoints.
pub(crate) fn open_both<D: Disk>(
    alloc: Global,
    journal: D,
    checkpoints: D,
) -> Result<(Disks<D>, Found), (D, D, FileError)>
    requires journal { IsJournalDisk (D.state journal) }
    requires checkpoints { IsCheckpointDisk (D.state checkpoints) }
    ensures found { IfOk result (λ opened. IsFound opened.1.kept opened.1.stable
        (D.state journal) (D.state opened.0.journal.0)
        (D.state checkpoints) (D.state opened.0.checkpoints)) }
    ensures opened { IfOk result (λ opened. OpensBoth
        (D.state journal) (D.state opened.0.journal.0)
        (D.state checkpoints) (D.state opened.0.checkpoints)) }
    ensures refused { IfErr result (λ refused. OpensBoth
        (D.state journal) (D.state refused.0) (D.state checkpoints) (D.state refused.1)) }
    ensures ran { IfOk result (λ opened. RanBoth ⊥
        (D.state journal) (D.state opened.0.journal.0)
        (D.state checkpoints) (D.state opened.0.checkpoints)) }
    ensures failed { IfErr result (λ refused. RanBoth (refused.2 ≡ FileError.Disk)
        (D.state journal) (D.state refused.0) (D.state checkpoints) (D.state refused.1)) }
{
    match Journal::open(alloc, journal) {
        Ok((journal, kept)) => match Checkpoints::open(alloc, checkpoints) {
            Ok((checkpoints, stable)) => Ok((
                Disks {
                    journal,
                    checkpoints,
                },
                Found { kept, stable },
            )),
            Err((checkpoints, error)) => Err((journal.close(), checkpoints, error)),
        },
        Err((journal, error)) => Err((journal, checkpoints, error)),
    }
}

// Goes on after what was found on the disks that were opened.
fn go_on<D: Disk>(
    alloc: Global,
    pinned: &Pinned,
    disks: Disks<D>,
    found: &Found,
) -> Result<(D, D), (D, D, CopyError)>
    requires pinned { IsPinned pinned.now }
    requires journal { (items : List ARecord) × JournalAtRest (D.state disks.journal.0) items
        × (found.now.kept ≡ kept items) }
    requires checkpoints { CheckpointsAtRest (D.state disks.checkpoints) found.now.stable }
    requires there { IsOfThis (copy_of pinned.now) found.now.kept found.now.stable.at
        → found.now.stable.at ≡ pinned.now.at
        → found.now.stable ≡ documents_of pinned.now.entries.items }
    ensures goes { Goes (copy_of pinned.now) found.now.kept found.now.stable (error_after result)
        (D.state disks.journal.0) (D.state (journal_after result))
        (D.state disks.checkpoints) (D.state (checkpoints_after result)) }
    ensures ran { RanBoth (error_after result ≡ Some CopyError.Disk)
        (D.state disks.journal.0) (D.state (journal_after result))
        (D.state disks.checkpoints) (D.state (checkpoints_after result)) }
{
    let mut disks = disks;
    let filled = disks.fill_if_same(alloc, pinned, found);
    let (journal, checkpoints) = disks.close();
    match filled {
        Ok(()) => Ok((journal, checkpoints)),
        Err(error) => Err((journal, checkpoints, error)),
    }
}

// A copy, step by step.
fn run<D: Disk>(
    alloc: Global,
    pinned: &Pinned,
    journal: D,
    checkpoints: D,
) -> Result<(D, D), (D, D, CopyError)>
    requires pinned { IsPinned pinned.now }
    requires disks { AreCopyDisks (D.state journal) (D.state checkpoints) }
    ensures ran { Ran (copy_of pinned.now) (error_after result)
        (D.state journal) (D.state (journal_after result))
        (D.state checkpoints) (D.state (checkpoints_after result)) }
    ensures both { RanBoth (error_after result ≡ Some CopyError.Disk)
        (D.state journal) (D.state (journal_after result))
        (D.state checkpoints) (D.state (checkpoints_after result)) }
{
    match open_both(alloc, journal, checkpoints) {
        Ok((disks, found)) => go_on(alloc, pinned, disks, &found),
        Err((journal, checkpoints, error)) => Err((journal, checkpoints, CopyError::from(error))),
    }
}

/// Makes the disks of a new member a copy of what is pinned: first the term, then the entries, and last the
/// documents. On disks where a copy was cut off it continues after the last record.
///
/// # Errors
/// `Disk` where a disk failed. `OtherCopy` where the disks have a term other than 0 and that of the copy,
/// entries that the copy's entries don't begin with, or a checkpoint of another optime; then nothing was
/// added but the newest form of the journal. After each error both disks are handed back, and the copy may be
/// tried again on them.
pub fn copy<D: Disk>(
    alloc: Global,
    pinned: &Pinned,
    journal: D,
    checkpoints: D,
) -> Result<(D, D), (D, D, CopyError)>
    requires pinned { IsPinned pinned.now }
    requires disks { AreCopyDisks (D.state journal) (D.state checkpoints) }

    // Every crash leaves the whole copy.
    ensures whole { IfOk result (λ disks. LeaveBoth (IsWhole (copy_of pinned.now))
        (D.state disks.0).file (D.state disks.1).file) }
    // The existing records stay, in the newest form, and the missing ones follow them.
    ensures goes_on { IfOk result (λ disks.
        (items : List ARecord) → HasJournal (contents (D.state journal).file) items
        → JournalAtRest (D.state disks.0) (renewed items ++ missing (copy_of pinned.now) (kept items))) }

    // Disks with another copy are refused, and no others are.
    ensures other { error_after result ≡ Some CopyError.OtherCopy → (items : List ARecord) (stable : AStable)
        → HasJournal (contents (D.state journal).file) items
        → HasCheckpoint (contents (D.state checkpoints).file) stable
        → ¬ IsOfThis (copy_of pinned.now) (kept items) stable.at }
    ensures this { OnOk result ((items : List ARecord) (stable : AStable)
        → HasJournal (contents (D.state journal).file) items
        → HasCheckpoint (contents (D.state checkpoints).file) stable
        → IsOfThis (copy_of pinned.now) (kept items) stable.at) }
    ensures nothing_added { error_after result ≡ Some CopyError.OtherCopy → LeavesAsRead
        (D.state journal) (D.state (journal_after result))
        (D.state checkpoints) (D.state (checkpoints_after result)) }
    ensures left { AreCopyDisks (D.state (journal_after result)) (D.state (checkpoints_after result)) }

    // A crash at any moment leaves what one before the call might have left, with or without the newest form
    // of the journal, or that continued by part or all of the copy.
    ensures any_moment { EachMomentOfBoth
        (IsBeforeOrContinued (D.state journal) (D.state checkpoints) (copy_of pinned.now))
        (D.state journal) (D.state (journal_after result))
        (D.state checkpoints) (D.state (checkpoints_after result)) }
    // On disks with part or all of this copy, a crash leaves part or all of it again.
    ensures goes_on_after_a_crash { LeaveBoth (IsPartOrWhole (copy_of pinned.now))
        (D.state journal).file (D.state checkpoints).file
        → EachMomentOfBoth (IsPartOrWhole (copy_of pinned.now))
        (D.state journal) (D.state (journal_after result))
        (D.state checkpoints) (D.state (checkpoints_after result)) }
    ensures ran { RanBoth (error_after result ≡ Some CopyError.Disk)
        (D.state journal) (D.state (journal_after result))
        (D.state checkpoints) (D.state (checkpoints_after result)) }
{
    run(alloc, pinned, journal, checkpoints)
}
