// How a file is opened: its records are read, and its end is repaired.
ghost use Rattle.std.specs.Prelude.{◌≡◌, [], ◌∷◌, length, IfOk, IsErrOf};
ghost use Rattle.rs_disk.specs.File.{contents};
ghost use Rattle.rs_disk.specs.State.{Keeps};
ghost use Rattle.rs_disk.specs.Steps.{syncs};
ghost use Rattle.record_file.specs.Files.{EndsBy, IsAtRest, IsRecordDisk, OpensBy};
ghost use Rattle.record_file.specs.Records.{HasRecords, lists};

use crate::FileError;
use crate::repair::{begin, repair};
use rs_disk::Disk;
use std::alloc::Global;

// Reads the records of a disk that a record file left, and repairs its end.
pub(crate) fn prepare<D: Disk>(alloc: Global, disk: &mut D) -> Result<Vec<Vec<u8>>, FileError>
    requires { IsRecordDisk (D.state disk.old) }
    ensures records { IfOk result (λ records.
        HasRecords (contents (D.state disk.old).file) (lists records.items)) }
    ensures at_rest { IfOk result (λ records. IsAtRest (D.state disk.new) (lists records.items)) }
    ensures calls { OpensBy result (D.state disk.old) (D.state disk.new) }
    ensures keeps { Keeps (IsErrOf result FileError.Disk) (D.state disk.old) (D.state disk.new) }
{
    let len = settle(disk)?;
    if len <= 1 {
        begin(disk)?;
        return Ok(Vec::new(alloc));
    }
    repair(alloc, disk)
}

// Syncs, so that every crash leaves what is read from here on, and says how long the file is.
fn settle<D: Disk>(disk: &mut D) -> Result<u64, FileError>
    ensures length { IfOk result (λ len. len ≡ length (contents (D.state disk.new).file)) }
    ensures calls { EndsBy result (syncs ∷ []) (D.state disk.old) (D.state disk.new) }
    ensures keeps { Keeps (IsErrOf result FileError.Disk) (D.state disk.old) (D.state disk.new) }
{
    disk.sync()?;
    Ok(disk.len())
}
