// Records on a disk in memory.
ghost use Rattle.rs_disk.specs.Memory.{state_of};
ghost use Rattle.record_file.specs.Files.{IsRecordDisk};

use record_file::{FileError, RecordFile};
use rs_disk::{Disk, MemDisk};
use std::alloc::Global;
use std::test::Fail;

fn fresh(alloc: Global) -> MemDisk
    ensures { IsRecordDisk (state_of result) }
{
    MemDisk::new(alloc)
}

#[test]
fn a_record_is_lost_with_its_gate(rt: HostRuntime) -> Result<(), Fail> {
    let alloc = rt.alloc();
    let Ok((mut file, _)) = RecordFile::open(alloc, fresh(alloc)) else {
        return Err(Fail::from(FileError::Disk));
    };
    file.reserve(9)?;
    file.arm(7, Some(0));
    file.append(&[7, 8])?;
    assert_eq!(rt; file.append(&[9]), Err(FileError::Disk));
    let Ok((again, found)) = RecordFile::open(alloc, file.close()) else {
        return Err(Fail::from(FileError::Disk));
    };
    assert_eq!(rt; found.len(), 1);
    let mut disk = again.close();
    let mut bytes = [9; 8];
    assert_eq!(rt; disk.len(), 8);
    disk.read_at(0, &mut bytes)?;
    assert_eq!(rt; bytes, [1, 2, 0, 0, 0, 7, 8, 0]);
    Ok(())
}
