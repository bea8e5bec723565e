// A set that threads share, and looks at its commit points.
ghost use Rattle.std.specs.Prelude.{◌≡◌, true, IfOk};
ghost use Rattle.std.specs.List.{list_all};
ghost use Rattle.fault_script.specs.Script.{is_part_for};
ghost use Rattle.shared_set.specs.Passes.{IsPass, sizes_of, view};
ghost use Rattle.set_model.specs.Run.{AreSizes};
ghost use Rattle.turn_board.specs.Passes.{IsFree};

use fault_script::{Part, parse};
use rs_disk::MemDisk;
use set_world::{World, empty_disks};
use shared_set::{Pass, SharedSet};
use std::alloc::Global;
use std::sync::Wait;
use std::test::Fail;
use std::thread::Threads;

// A set of this many nodes on empty disks.
pub fn set_of(alloc: Global, nodes: u32, voters: u32, members: u32) -> Result<World<MemDisk>, Fail>
    requires sizes { AreSizes (record { nodes = nodes; voters = voters; members = members }) }
    ensures sizes { IfOk result (λ world.
        world.sizes ≡ record { nodes = nodes; voters = voters; members = members }) }
{
    let Ok(world) = World::open(alloc, nodes, voters, members, empty_disks(alloc)?) else {
        return Err(Fail::new("the set can't be opened"));
    };
    Ok(world)
}

pub type Shared = (SharedSet<MemDisk>, Pass<MemDisk>);

// A shared set of this many nodes on empty disks.
pub fn shared(alloc: Global, nodes: u32, voters: u32, members: u32) -> Result<Shared, Fail>
    requires sizes { AreSizes (record { nodes = nodes; voters = voters; members = members }) }
    ensures pass { IfOk result (λ shared. IsPass shared.0 shared.1 × IsFree shared.1) }
    ensures parts { IfOk result (λ shared. (view shared.1).parts ≡ 65536) }
    ensures nodes { IfOk result (λ shared. (sizes_of shared.0).nodes ≡ nodes) }
{
    let world = set_of(alloc, nodes, voters, members)?;
    let Ok(shared) = SharedSet::new(alloc, world) else {
        return Err(Fail::new("the set can't be shared"));
    };
    Ok(shared)
}

// Whether each part that is a line has a reply.
pub fn are_stepped<R: Threads + Wait + Sync>(
    rt: &R,
    set: &SharedSet<MemDisk>,
    pass: &mut Pass<MemDisk>,
    parts: &[Part],
) -> bool
    requires pass { IsPass set.now pass.old × IsFree pass.old }
    requires fits { list_all (is_part_for (sizes_of set.now).nodes) parts.now ≡ true }
    ensures pass { IsPass set.now pass.new × IsFree pass.new }
{
    for part in parts {
        if let Part::Line(line, command) = part {
            if set.step(rt, pass, *line, command).is_err() {
                return false;
            }
        }
    }
    true
}

// A write that two of three nodes have, and that its writer knows to be committed.
const COMMITTED: &str =
    "set 3\ncampaign n0\ndeliver m0\ndeliver m2\ndrain n0\ninsert n0 t {_id: 1}\nflush n0
heartbeat n0 n1\ndeliver n0 n1\nfetch n1\ndeliver n1 n0\ndeliver n0 n1\nflush n1\nreport n1 n0\ndeliver n1 n0\n";

// The commit points of the first two nodes after that.
fn committed<R: Threads + Wait + Sync>(rt: &R, alloc: Global) -> Result<(u64, u64), Fail> {
    let script = parse(alloc, COMMITTED.as_bytes())?;
    let (set, mut pass) = shared(alloc, script.nodes, script.voters, script.members)?;
    if script.nodes < 2 || !are_stepped(rt, &set, &mut pass, script.parts.as_slice()) {
        return Err(Fail::new("the script isn't played"));
    }
    let first = set.peek_commit(&mut pass, 0);
    Ok((first, set.peek_commit(&mut pass, 1)))
}

// The other node has the write, and doesn't know yet that it is committed.
#[test]
fn a_look_gives_what_is_committed(rt: HostRuntime) -> Result<(), Fail> {
    assert_eq!(rt; committed(&rt, rt.alloc())?, (2, 0));
    Ok(())
}
