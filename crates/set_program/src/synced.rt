// A script, played for its replies, and then a new member for its set.
ghost use Rattle.std.specs.Prelude.{◌≡◌, ◌≢◌, ◌≤◌, ◌*◌, [], All, drop, length, true, Err, IsErrOf};
ghost use Rattle.std.specs.List.{AllPass};
ghost use Rattle.rs_disk.specs.File.{IsEmpty};
ghost use Rattle.rs_io.specs.Fault.{HasCause};
ghost use Rattle.fault_script.specs.Script.{lines_in, sizes_of};
ghost use Rattle.fault_script.specs.Lines.{MOST_LINES};
ghost use Rattle.set_program.specs.AfterScript.{EndsAfterScript};
ghost use Rattle.task_words.specs.declared.words.Task.TheVariants.{Sync as IsSync};
ghost use Rattle.set_program.specs.Left.{IfParts, IfSet};
ghost use Rattle.set_program.specs.Parts.{can_be_run, DisksEnd};
ghost use Rattle.set_program.specs.Syncing.{MakesMember, MakesNoMember, ended_so, left_so};

use crate::outcome::Left;
use crate::play::play;
use crate::stop::Stop;
use batch_applier::Gate;
use fault_script::Script;
use rs_disk::Disk;
use rs_io::Sink;
use safety_laws::numbers_stay_small;
use set_model::Event;
use set_world::World;
use std::alloc::Global;
use std::sync::Wait;
use std::thread::Threads;
use sync_member::add_member;
use sync_words::SyncStop;

/// Plays the parts of a script one after another and puts their replies, and then adds a new member that
/// begins with what a node has committed.
pub fn play_synced<K: Sink, D: Disk + Send, G: Gate + Sync, R: Threads + Wait + Sync>(
    rt: &R,
    alloc: Global,
    gate: &G,
    node: u32,
    script: Script,
    sink: &mut K,
    world: World<D>,
) -> (Result<(), Stop>, Left<D>)
    requires start { world.history ≡ [] }
    requires whole { world.whole ≡ true }
    requires script { world.sizes ≡ sizes_of script }
    requires few { length (lines_in script.parts) ≤ MOST_LINES }
    requires fits { AllPass (can_be_run world.sizes.nodes) script.parts }
    requires many { length world.disks ≡ 100 }
    requires spare { All (λ (disk : D). IsEmpty (D.state disk).file)
        (drop (2 * world.sizes.nodes) world.disks) }
    ensures ends { IfSet result.1 (λ set. EndsAfterScript script.parts (K.held sink.old) (K.held sink.new)
        (MakesNoMember node set.sizes set.history (K.held sink.new)) result.0 set) }
    ensures sizes { IfSet result.1 (λ set. set.sizes ≡ world.sizes) }
    ensures disks { IfSet result.1 (λ set. DisksEnd D.state (IsSync node) script.parts world.disks set
        (result.0 ≡ Err Stop.Memory)) }
    ensures member { IfParts result.1 (λ events disks. MakesMember D.state node script.parts world.sizes
        world.disks (K.held sink.old) (K.held sink.new) result.0 events disks) }
    ensures cause { HasCause (K.faults sink.old) (K.faults sink.new) (IsErrOf result.0 Stop.WriteFault) }
    ensures steady { K.steady sink.old → K.steady sink.new × (result.0 ≢ Err Stop.WriteFault) }
{
    match play(rt, alloc, gate, script.parts, sink, world) {
        (Ok(()), played) => {
            numbers_stay_small();
            played.recall_run();
            let (ended, left) = add_member(rt, alloc, node, played, sink);
            (stop_of(ended), left_of(left))
        }
        (Err(stop), played) => (Err(stop), Left::World(played)),
    }
}

fn stop_of(ended: Result<(), SyncStop>) -> Result<(), Stop>
    ensures { result ≡ ended_so ended }
{
    match ended {
        Ok(()) => Ok(()),
        Err(stop) => Err(Stop::from(stop)),
    }
}

fn left_of<D: Disk>(left: Result<(Vec<Event>, Vec<D>), World<D>>) -> Left<D>
    ensures { result ≡ left_so left }
{
    match left {
        Ok((events, disks)) => Left::Parts(events, disks),
        Err(world) => Left::World(world),
    }
}
