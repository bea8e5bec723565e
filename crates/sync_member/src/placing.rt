// The disks of a node in the list of all disks.
ghost use Rattle.std.specs.Prelude.{◌≡◌, ◌≢◌, ◌<◌, ◌≤◌, ◌+◌, ◌*◌, All, Err, IsErrOf, drop, insert, vec_capacity, vec_len};
ghost use Rattle.rs_disk.specs.File.{IsEmpty};
ghost use Rattle.rs_io.specs.Fault.{HasCause};
ghost use Rattle.initial_sync.specs.Pinned.{IsPinned, copy_of};
ghost use Rattle.set_world.specs.Disks.{OneChanged};
ghost use Rattle.sync_copy.specs.Making.{pinned_text};
ghost use Rattle.sync_member.specs.Adding.{DisksOfMember};
ghost use Rattle.sync_words.specs.Putting.{PutsText};

use initial_sync::Pinned;
use rs_disk::Disk;
use rs_io::Sink;
use std::alloc::Global;
use sync_copy::make;
use sync_words::SyncStop;

/// Makes the two disks of a node of this number those of a new member. The others stay.
pub(crate) fn make_at<D: Disk, K: Sink>(
    alloc: Global,
    number: u32,
    pinned: &Pinned,
    disks: Vec<D>,
    sink: &mut K,
) -> (Result<(), SyncStop>, Vec<D>)
    requires pinned { IsPinned pinned.now }
    requires few { number ≤ 50 }
    requires room { 2 * number + 2 ≤ vec_len disks }
    requires spare { All (λ (disk : D). IsEmpty (D.state disk).file) (drop (2 * number) disks.items) }
    ensures member { OneChanged D.state (DisksOfMember (copy_of pinned.now) result.0) number disks.items
        result.1.items }
    ensures puts { PutsText (K.held sink.old) (K.held sink.new) (pinned_text number pinned.now) result.0 }
    ensures cause { HasCause (K.faults sink.old) (K.faults sink.new) (IsErrOf result.0 SyncStop.WriteFault) }
    ensures steady { K.steady sink.old → K.steady sink.new × (result.0 ≢ Err SyncStop.WriteFault) }
{
    let mut disks = disks;
    let place = 2 * number as usize;
    let journal = disks.remove(place);
    let checkpoints = disks.remove(place);
    let (made, journal, checkpoints) = make(alloc, number, pinned, journal, checkpoints, sink);
    put_at(&mut disks, place, checkpoints);
    put_at(&mut disks, place, journal);
    (made, disks)
}

/// Puts a disk at a place of a list that has room for it.
fn put_at<D: Disk>(disks: &mut Vec<D>, place: usize, disk: D)
    requires place { place ≤ vec_len disks.old }
    requires room { vec_len disks.old < vec_capacity disks.old }
    ensures items { disks.new.items ≡ insert disks.old.items place disk }
    ensures len { vec_len disks.new ≡ vec_len disks.old + 1 }
    ensures capacity { vec_capacity disks.old ≤ vec_capacity disks.new }
{
    match disks.insert(place, disk) {
        Ok(()) => {}
        Err(_) => unreachable!(),
    }
}
