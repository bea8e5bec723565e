// Makes two empty disks a new member's.
ghost use Rattle.std.specs.Prelude.{◌≡◌, ◌≢◌, Err, IsErrOf};
ghost use Rattle.rs_disk.specs.File.{IsEmpty};
ghost use Rattle.rs_io.specs.Fault.{HasCause};
ghost use Rattle.initial_sync.specs.Answers.{RanBoth};
ghost use Rattle.initial_sync.specs.Copies.{AreCopyDisks, IsWhole, LeaveBoth};
ghost use Rattle.initial_sync.specs.Moments.{EachMomentOfBoth};
ghost use Rattle.initial_sync.specs.Pinned.{IsPinned, copy_of};
ghost use Rattle.sync_copy.specs.Making.{BecomesMember, of_copy, of_file, pinned_text};
ghost use Rattle.sync_words.specs.Putting.{PutsText};

use crate::telling::put_synced;
use initial_sync::{CopyError, Pinned, copy, read};
use record_file::FileError;
use rs_disk::Disk;
use rs_io::Sink;
use std::alloc::Global;
use sync_words::SyncStop;

/// Makes two empty disks a copy of what is pinned, the journal and the checkpoints of a new member of this
/// number; reads it back, and puts the lines about what was read.
///
/// # Errors
/// `DiskFault` where one of the disks failed, `WriteFault` where the sink failed, and `Memory`. Both disks
/// are handed back, with a part of the copy on them, or the whole.
pub fn make<D: Disk, K: Sink>(
    alloc: Global,
    number: u32,
    pinned: &Pinned,
    journal: D,
    checkpoints: D,
    sink: &mut K,
) -> (Result<(), SyncStop>, D, D)
    requires pinned { IsPinned pinned.now }
    requires journal { IsEmpty (D.state journal).file }
    requires checkpoints { IsEmpty (D.state checkpoints).file }
    ensures disks { BecomesMember (copy_of pinned.now) result.0 (D.state journal) (D.state result.1)
        (D.state checkpoints) (D.state result.2) }
    ensures ran { RanBoth (result.0 ≡ Err SyncStop.DiskFault) (D.state journal) (D.state result.1)
        (D.state checkpoints) (D.state result.2) }
    ensures puts { PutsText (K.held sink.old) (K.held sink.new) (pinned_text number pinned.now) result.0 }
    ensures cause { HasCause (K.faults sink.old) (K.faults sink.new) (IsErrOf result.0 SyncStop.WriteFault) }
    ensures steady { K.steady sink.old → K.steady sink.new × (result.0 ≢ Err SyncStop.WriteFault) }
{
    match copy(alloc, pinned, journal, checkpoints) {
        Ok((journal, checkpoints)) => tell(alloc, number, pinned, journal, checkpoints, sink),
        Err((journal, checkpoints, error)) => (Err(of_copy(error)), journal, checkpoints),
    }
}

/// Reads back a whole copy, and puts the lines about what was read.
fn tell<D: Disk, K: Sink>(
    alloc: Global,
    number: u32,
    pinned: &Pinned,
    journal: D,
    checkpoints: D,
    sink: &mut K,
) -> (Result<(), SyncStop>, D, D)
    requires pinned { IsPinned pinned.now }
    requires disks { AreCopyDisks (D.state journal) (D.state checkpoints) }
    requires whole { LeaveBoth (IsWhole (copy_of pinned.now)) (D.state journal).file
        (D.state checkpoints).file }
    ensures disks { EachMomentOfBoth (IsWhole (copy_of pinned.now)) (D.state journal) (D.state result.1)
        (D.state checkpoints) (D.state result.2) }
    ensures ran { RanBoth (result.0 ≡ Err SyncStop.DiskFault) (D.state journal) (D.state result.1)
        (D.state checkpoints) (D.state result.2) }
    ensures puts { PutsText (K.held sink.old) (K.held sink.new) (pinned_text number pinned.now) result.0 }
    ensures cause { HasCause (K.faults sink.old) (K.faults sink.new) (IsErrOf result.0 SyncStop.WriteFault) }
    ensures steady { K.steady sink.old → K.steady sink.new × (result.0 ≢ Err SyncStop.WriteFault) }
{
    let _ = pinned;
    match read(alloc, journal, checkpoints) {
        Ok((journal, checkpoints, standing)) => {
            let told = put_synced(alloc, number, standing, sink);
            (told, journal, checkpoints)
        }
        Err((journal, checkpoints, error)) => (Err(of_file(error)), journal, checkpoints),
    }
}

/// Empty disks have no other copy, so copying onto them fails only by a disk's fault, or when memory runs
/// out.
fn of_copy(error: CopyError) -> SyncStop
    ensures { result ≡ of_copy error }
{
    match error {
        CopyError::Memory => SyncStop::Memory,
        CopyError::Disk | CopyError::OtherCopy => SyncStop::DiskFault,
    }
}

fn of_file(error: FileError) -> SyncStop
    ensures { result ≡ of_file error }
{
    match error {
        FileError::Memory => SyncStop::Memory,
        FileError::Disk => SyncStop::DiskFault,
    }
}
