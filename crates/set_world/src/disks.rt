// Disks for a set that is gone when the program ends.
ghost use Rattle.std.specs.Prelude.{◌≡◌, All, vec_len, IfOk};
ghost use Rattle.rs_disk.specs.File.{IsEmpty};
ghost use Rattle.rs_disk.specs.Memory.{state_of};

use bson_doc::Mem;
use rs_disk::MemDisk;
use std::alloc::Global;

/// How many disks a set needs.
const DISKS: usize = 100;

/// As many empty disks in memory as a set needs.
pub fn empty_disks(alloc: Global) -> Mem<Vec<MemDisk>>
    ensures len { IfOk result (λ disks. vec_len disks ≡ 100) }
    ensures empty { IfOk result (λ disks.
        All (λ (disk : MemDisk). IsEmpty (state_of disk).file) disks.items) }
{
    let mut disks = Vec::with_capacity(alloc, DISKS)?;
    for place in 0..DISKS {
        disks.push(MemDisk::new(alloc))?;
    }
    Ok(disks)
}
