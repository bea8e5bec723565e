// The disk calls after the first sync of an opening.
ghost use Rattle.std.specs.Prelude.{◌≡◌, ◌<◌, ◌≤◌, List, ℕ, IfOk, OnOk, IsErrOf, [], ◌∷◌, length};
ghost use Rattle.rs_disk.specs.File.{contents, cut, settled, write};
ghost use Rattle.rs_disk.specs.State.{Keeps};
ghost use Rattle.rs_disk.specs.Steps.{reads, changes, syncs};
ghost use Rattle.record_file.specs.Files.{EndsBy, IsAtRest, IsRecordDisk};
ghost use Rattle.record_file.specs.Parsed.{IsParsed};
ghost use Rattle.record_file.specs.Records.{HasRecords, lists};

use crate::FileError;
use crate::parse::parse;
use crate::store::put;
use rs_disk::Disk;
use std::alloc::Global;

// Writes the first gate.
pub(crate) fn begin<D: Disk>(disk: &mut D) -> Result<(), FileError>
    requires synced { (D.state disk.old).file ≡ settled (contents (D.state disk.old).file) }
    requires short { length (contents (D.state disk.old).file) ≤ 1 }
    ensures at_rest { OnOk result (IsAtRest (D.state disk.new) []) }
    ensures calls { EndsBy result (changes (write 0 (0 ∷ [])) ∷ syncs ∷ []) (D.state disk.old)
        (D.state disk.new) }
    ensures keeps { Keeps (IsErrOf result FileError.Disk) (D.state disk.old) (D.state disk.new) }
{
    put(disk, 0, &[0])
}

// Reads the records, and cuts the file after the first closed gate.
pub(crate) fn repair<D: Disk>(alloc: Global, disk: &mut D) -> Result<Vec<Vec<u8>>, FileError>
    requires synced { (D.state disk.old).file ≡ settled (contents (D.state disk.old).file) }
    requires long { 1 < length (contents (D.state disk.old).file) }
    requires has { IsRecordDisk (D.state disk.old) }
    ensures records { IfOk result (λ records.
        HasRecords (contents (D.state disk.old).file) (lists records.items)) }
    ensures at_rest { IfOk result (λ records. IsAtRest (D.state disk.new) (lists records.items)) }
    ensures calls { (records : List (List ℕ))
        × (end : ℕ) × IsParsed (contents (D.state disk.old).file) records end
        × EndsBy result (reads ∷ changes (cut end) ∷ syncs ∷ []) (D.state disk.old) (D.state disk.new) }
    ensures keeps { Keeps (IsErrOf result FileError.Disk) (D.state disk.old) (D.state disk.new) }
{
    let bytes = read_whole(alloc, disk)?;
    let (records, end) = parse(alloc, &bytes)?;
    disk.cut(end as u64)?;
    disk.sync()?;
    Ok(records)
}

// The bytes of the whole file.
fn read_whole<D: Disk>(alloc: Global, disk: &mut D) -> Result<Vec<u8>, FileError>
    ensures bytes { IfOk result (λ bytes. bytes.items ≡ contents (D.state disk.old).file) }
    ensures calls { EndsBy result (reads ∷ []) (D.state disk.old) (D.state disk.new) }
    ensures keeps { Keeps (IsErrOf result FileError.Disk) (D.state disk.old) (D.state disk.new) }
{
    let mut bytes = Vec::from_elem(alloc, 0, disk.len() as usize)?;
    disk.read_at(0, &mut bytes)?;
    Ok(bytes)
}
