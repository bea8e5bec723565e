// Reads what a copy left.
ghost use Rattle.std.specs.Prelude.{◌≡◌, IfErr, IfOk};
ghost use Rattle.initial_sync.specs.Answers.{RanBoth};
ghost use Rattle.initial_sync.specs.Copies.{AreCopyDisks, Copy, IsOf, IsWhole, LeaveBoth, documents_of};
ghost use Rattle.initial_sync.specs.Reading.{AreRead, ReadsOver};

use crate::copying::open_both;
use checkpoint_store::Stable;
use record_file::FileError;
use repl_msg::Kept;
use rs_disk::Disk;
use std::alloc::Global;

/// What is on the two disks of a member: the state that the journal's records add up to, and
/// the last checkpoint.
#[derive(Drop)]
pub struct Standing {
    pub kept: Kept,
    pub stable: Stable,
}

/// Reads what a copy left on two disks, and hands them back.
///
/// # Errors
/// `Disk` where a disk failed, or `Memory`; both disks are handed back, and may be read again.
pub fn read<D: Disk>(
    alloc: Global,
    journal: D,
    checkpoints: D,
) -> Result<(D, D, Standing), (D, D, FileError)>
    requires { AreCopyDisks (D.state journal) (D.state checkpoints) }

    // The records of the journal and the last checkpoint are read.
    ensures standing { IfOk result (λ read. AreRead (D.state journal) (D.state checkpoints)
        read.2.kept read.2.stable) }
    // For a whole copy that is its term without a vote, its entries, and their documents.
    ensures whole { IfOk result (λ read. (copy : Copy)
        → LeaveBoth (IsWhole copy) (D.state journal).file (D.state checkpoints).file
        → IsOf copy.term copy.entries read.2.kept × (read.2.stable ≡ documents_of copy.entries)) }

    // A crash at any moment leaves what one before the call might have left, except that a journal of the
    // first form may have the record of the newest one. A copy or a reading may be tried on them again.
    ensures read { IfOk result (λ read. ReadsOver (D.state journal) (D.state read.0)
        (D.state checkpoints) (D.state read.1)) }
    ensures refused { IfErr result (λ refused. ReadsOver (D.state journal) (D.state refused.0)
        (D.state checkpoints) (D.state refused.1)) }
    ensures ran { IfOk result (λ read. RanBoth ⊥ (D.state journal) (D.state read.0)
        (D.state checkpoints) (D.state read.1)) }
    ensures failed { IfErr result (λ refused. RanBoth (refused.2 ≡ FileError.Disk)
        (D.state journal) (D.state refused.0) (D.state checkpoints) (D.state refused.1)) }
{
    match open_both(alloc, journal, checkpoints) {
        Ok((disks, found)) => {
            let (journal, checkpoints) = disks.close();
            let standing = Standing {
                kept: found.kept,
                stable: found.stable,
            };
            Ok((journal, checkpoints, standing))
        }
        Err(refused) => Err(refused),
    }
}
