// A script, played for its replies, and then for what a linear read shows.
ghost use Rattle.std.specs.Prelude.{◌≡◌, ◌≢◌, ◌≤◌, [], length, true, Err, IsErrOf};
ghost use Rattle.std.specs.List.{AllPass};
ghost use Rattle.rs_io.specs.Fault.{HasCause};
ghost use Rattle.fault_script.specs.Script.{lines_in, sizes_of};
ghost use Rattle.fault_script.specs.Lines.{MOST_LINES};
ghost use Rattle.set_world.specs.Went.{WentOn};
ghost use Rattle.set_program.specs.AfterScript.{EndsAfterScript};
ghost use Rattle.task_words.specs.declared.words.Task.TheVariants.{Linear as IsLinear};
ghost use Rattle.set_program.specs.Parts.{can_be_run, DisksEnd};
ghost use Rattle.set_program.specs.ReadingLinearly.{ReadsLinearly};

use crate::play::play;
use crate::stop::Stop;
use batch_applier::Gate;
use fault_script::Script;
use linear_tell::tell;
use linear_words::Linear;
use rs_disk::Disk;
use rs_io::Sink;
use set_world::World;
use std::alloc::Global;
use std::sync::Wait;
use std::thread::Threads;

/// Plays the parts of a script one after another and puts their replies, and then reads.
pub fn play_linear<K: Sink, D: Disk + Send, G: Gate + Sync, R: Threads + Wait + Sync>(
    rt: &R,
    alloc: Global,
    gate: &G,
    linear: Linear,
    script: Script,
    sink: &mut K,
    world: World<D>,
) -> (Result<(), Stop>, World<D>)
    requires start { world.history ≡ [] }
    requires whole { world.whole ≡ true }
    requires script { world.sizes ≡ sizes_of script }
    requires few { length (lines_in script.parts) ≤ MOST_LINES }
    requires fits { AllPass (can_be_run world.sizes.nodes) script.parts }
    ensures ends { EndsAfterScript script.parts (K.held sink.old) (K.held sink.new)
        (ReadsLinearly linear result.1.sizes result.1.history (K.held sink.new)) result.0 result.1 }
    ensures sizes { result.1.sizes ≡ world.sizes }
    ensures disks { DisksEnd D.state (IsLinear linear) script.parts world.disks result.1
        (result.0 ≡ Err Stop.Memory) }
    ensures cause { HasCause (K.faults sink.old) (K.faults sink.new) (IsErrOf result.0 Stop.WriteFault) }
    ensures steady { K.steady sink.old → K.steady sink.new × (result.0 ≢ Err Stop.WriteFault) }
{
    let size = script.nodes;
    match play(rt, alloc, gate, script.parts, sink, world) {
        (Ok(()), played) => {
            let mut world = played;
            let ended = read_on(rt, alloc, &linear, size, sink, &mut world);
            (ended, world)
        }
        (Err(stop), played) => (Err(stop), played),
    }
}

/// Reads linearly in a set whose script was played.
fn read_on<K: Sink, D: Disk, R: Threads + Wait + Sync>(
    rt: &R,
    alloc: Global,
    linear: &Linear,
    size: u32,
    sink: &mut K,
    world: &mut World<D>,
) -> Result<(), Stop>
    requires size { size ≡ world.old.sizes.nodes }
    ensures reads { ReadsLinearly linear.now world.old.sizes world.new.history (K.held sink.new)
        result world.old.history (K.held sink.old) }
    ensures sizes { world.new.sizes ≡ world.old.sizes }
    ensures went { WentOn D.state world.old world.new }
    ensures whole { world.old.whole ≡ true → result ≢ Err Stop.Memory → world.new.whole ≡ true }
    ensures cause { HasCause (K.faults sink.old) (K.faults sink.new) (IsErrOf result Stop.WriteFault) }
    ensures steady { K.steady sink.old → K.steady sink.new × (result ≢ Err Stop.WriteFault) }
{
    tell(rt, alloc, linear, size, world, sink)?;
    Ok(())
}
