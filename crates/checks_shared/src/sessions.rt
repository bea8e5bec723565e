// A session's write that is asked for again, and once more after it was rolled back.
ghost use Rattle.std.specs.Prelude.{◌≡◌, true};
ghost use Rattle.std.specs.List.{list_all};
ghost use Rattle.fault_script.specs.Script.{is_part_for};

use crate::shared::set_of;
use fault_script::{Part, parse};
use rs_disk::MemDisk;
use rs_optime::OpTime;
use set_model::Reply;
use set_world::World;
use std::alloc::Global;
use std::test::Fail;
use std::thread::Threads;

// The first node writes it, and is asked again. It rolls the write back, is elected again, and is asked
// twice.
const ASKED_AGAIN: &str =
    "set 3\ncampaign n0\ndeliver n0 n1\ndeliver n1 n0\ndrain n0\nheartbeat n0 n1\ndeliver n0 n1
fetch n1\ndeliver n1 n0\ndeliver n0 n1\nretry n0 7 1 insert t {_id: 1}\nretry n0 7 1 insert t {_id: 1}
campaign n1\ndeliver n1 n2\ndeliver n2 n1\ndrain n1\nheartbeat n1 n0\ndeliver n1 n0
common n0 n1\ndeliver n0 n1\ndeliver n1 n0\nfetch n0\ndeliver n0 n1\ndeliver n1 n0
campaign n0\ndeliver n0 n2\ndeliver n2 n0\ndrain n0
retry n0 7 1 insert t {_id: 1}\nretry n0 7 1 insert t {_id: 1}\n";

// The optime of the write in each answer.
const EXPECTED: [OpTime; 4] = [
    OpTime { term: 1, ts: 2 },
    OpTime { term: 1, ts: 2 },
    OpTime { term: 3, ts: 4 },
    OpTime { term: 3, ts: 4 },
];

// Does each line, and keeps the optimes that are answered as written.
fn written<R: Threads + Sync>(
    rt: &R,
    alloc: Global,
    world: &mut World<MemDisk>,
    parts: &[Part],
) -> Result<Vec<OpTime>, Fail>
    requires fits { list_all (is_part_for world.old.sizes.nodes) parts.now ≡ true }
{
    let mut optimes = Vec::new(alloc);
    for part in parts {
        if let Part::Line(line, command) = part {
            if let Reply::Written(at) = world.step(rt, *line, command)? {
                optimes.push(at)?;
            }
        }
    }
    Ok(optimes)
}

#[test]
fn a_write_is_told_again_and_done_again_where_it_was_rolled_back(
    rt: HostRuntime,
) -> Result<(), Fail> {
    let alloc = rt.alloc();
    let script = parse(alloc, ASKED_AGAIN.as_bytes())?;
    let mut world = set_of(alloc, script.nodes, script.voters, script.members)?;
    let optimes = written(&rt, alloc, &mut world, script.parts.as_slice())?;
    assert!(rt; optimes.iter().copied().eq(EXPECTED.iter().copied()));
    Ok(())
}
