// Closes a set, and adds a new member.
ghost use Rattle.std.specs.Prelude.{◌≡◌, ◌≢◌, ◌<◌, ◌≤◌, ◌+◌, ◌*◌, All, Err, IfErr, IfOk, IsErrOf, drop, length, true};
ghost use Rattle.rs_disk.specs.File.{IsEmpty};
ghost use Rattle.rs_io.specs.Fault.{HasCause};
ghost use Rattle.sync_member.specs.Adding.{AddsMember, AddsNoMember};
ghost use Rattle.sync_pin.specs.Asking.{MOST};

use crate::placing::make_at;
use rs_disk::Disk;
use rs_io::Sink;
use safety_laws::numbers_stay_small;
use set_model::Event;
use set_world::World;
use std::alloc::Global;
use std::sync::Wait;
use std::thread::Threads;
use sync_pin::pin;
use sync_words::SyncStop;

/// Asks a node of a set what a new member begins with, and closes the set. The next two disks after those of
/// its nodes become the member's, and the lines about what they have are put. Hands back the set's events and
/// its disks; or the set, if the node wasn't asked to the end or has nothing to begin with.
///
/// # Errors
/// Those of `pin`, which leave the set, and those of `make`, which leave its events and disks.
pub fn add_member<K: Sink, D: Disk, R: Threads + Wait + Sync>(
    rt: &R,
    alloc: Global,
    node: u32,
    world: World<D>,
    sink: &mut K,
) -> (Result<(), SyncStop>, Result<(Vec<Event>, Vec<D>), World<D>>)
    requires whole { world.whole ≡ true }
    requires room { world.sizes.nodes < MOST → 2 * world.sizes.nodes + 2 ≤ length world.disks }
    requires spare { All (λ (disk : D). IsEmpty (D.state disk).file)
        (drop (2 * world.sizes.nodes) world.disks) }
    ensures adds { IfOk result.1 (λ parts. AddsMember D.state node world (K.held sink.old) (K.held sink.new)
        result.0 parts.0.items parts.1.items) }
    ensures no_member { IfErr result.1 (λ left. AddsNoMember D.state node world left (K.held sink.old)
        (K.held sink.new) result.0) }
    ensures cause { HasCause (K.faults sink.old) (K.faults sink.new) (IsErrOf result.0 SyncStop.WriteFault) }
    ensures steady { K.steady sink.old → K.steady sink.new × (result.0 ≢ Err SyncStop.WriteFault) }
{
    let mut world = world;
    let size = world.size();
    match pin(rt, alloc, &mut world, size, node, sink) {
        Ok(pinned) => {
            numbers_stay_small();
            world.recall_run();
            world.recall_stands();
            let (events, disks) = world.close();
            let (made, disks) = make_at(alloc, size, &pinned, disks, sink);
            (made, Ok((events, disks)))
        }
        Err(stop) => (Err(stop), Err(world)),
    }
}
