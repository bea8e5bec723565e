// A disk in memory.
use rs_disk::{Disk, DiskError, MemDisk};
use std::alloc::Global;
use std::test::Fail;

fn write(disk: &mut MemDisk, at: u64, bytes: &[u8]) -> Result<(), DiskError> {
    if at > disk.len() {
        return Err(DiskError::Failed);
    }
    disk.write_at(at, bytes)
}

fn read(alloc: Global, disk: &mut MemDisk) -> Result<Vec<u8>, DiskError> {
    let mut bytes = Vec::from_elem(alloc, 0, disk.len() as usize)?;
    disk.read_at(0, &mut bytes)?;
    Ok(bytes)
}

#[test]
fn a_call_fails_in_a_power_cut(rt: HostRuntime) -> Result<(), Fail> {
    let alloc = rt.alloc();
    let mut disk = MemDisk::new(alloc);
    disk.reserve(6)?;
    write(&mut disk, 0, &[10, 11, 12, 13])?;
    disk.sync()?;
    write(&mut disk, 1, &[91])?;
    disk.arm(1, Some(2));
    assert_eq!(rt; write(&mut disk, 4, &[94, 95]), Err(DiskError::Failed));
    assert_eq!(rt;
        read(alloc, &mut disk)?.as_slice(),
        [10, 3, 12, 13, 6, 7].as_slice()
    );
    Ok(())
}

fn sends<T: Send + Drop>(_value: T) {}

#[test]
fn a_disk_goes_to_another_thread(rt: HostRuntime) -> Result<(), Fail> {
    sends(MemDisk::new(rt.alloc()));
    Ok(())
}
