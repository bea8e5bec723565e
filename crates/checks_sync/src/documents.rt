// What a node of a running set pins of a log of 1,001 documents, which a checkpoint stores in two pieces.
ghost use Rattle.std.specs.Prelude.{◌≡◌, true, IfOk};
ghost use Rattle.std.specs.List.{list_all};
ghost use Rattle.fault_script.specs.Script.{is_part_for};
ghost use Rattle.initial_sync.specs.Pinned.{IsPinned};

use fault_script::{Part, parse};
use initial_sync::Pinned;
use rs_disk::MemDisk;
use rs_io::MemSink;
use set_world::{World, empty_disks};
use std::alloc::{AllocError, Global};
use std::fmt::Write;
use std::sync::Wait;
use std::test::Fail;
use std::thread::Threads;
use sync_pin::pin;

/// How many documents are inserted.
pub(crate) const DOCUMENTS: u64 = 1_001;

/// A node writes all of them, and has them committed.
fn script(alloc: Global) -> Result<String, AllocError> {
    let mut text = String::from_str(alloc, "set 1\ncampaign n0\ndrain n0\n")?;
    for key in 0..DOCUMENTS {
        write!(text, "insert n0 t {{_id: {key}}}\n")?;
    }
    text.push_str("flush n0\n")?;
    Ok(text)
}

/// Does each line.
fn play<R: Threads + Sync>(rt: &R, world: &mut World<MemDisk>, parts: &[Part]) -> Result<(), Fail>
    requires fits { list_all (is_part_for world.old.sizes.nodes) parts.now ≡ true }
    ensures sizes { world.new.sizes ≡ world.old.sizes }
{
    for part in parts {
        if let Part::Line(line, command) = part {
            world.step(rt, *line, command)?;
        }
    }
    Ok(())
}

/// What a new member begins with after that script.
pub(crate) fn documents<R: Threads + Wait + Sync>(rt: &R, alloc: Global) -> Result<Pinned, Fail>
    ensures { IfOk result (λ pinned. IsPinned pinned) }
{
    let script = parse(alloc, script(alloc)?.as_bytes())?;
    let (nodes, voters, members) = (script.nodes, script.voters, script.members);
    let Ok(mut world) = World::open(alloc, nodes, voters, members, empty_disks(alloc)?) else {
        return Err(Fail::new("the set can't be opened"));
    };
    play(rt, &mut world, script.parts.as_slice())?;
    let mut sink = MemSink::new(alloc, Vec::new(alloc));
    match pin(rt, alloc, &mut world, nodes, 0, &mut sink) {
        Ok(pinned) => Ok(pinned),
        Err(_) => Err(Fail::new("nothing is pinned")),
    }
}
