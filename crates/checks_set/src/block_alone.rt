// A block of a script, run on a set that threads share.
ghost use Rattle.std.specs.Prelude.{◌≡◌, true, IfOk};
ghost use Rattle.std.specs.List.{list_all};
ghost use Rattle.fault_script.specs.Script.{is_part_for};
ghost use Rattle.shared_set.specs.Passes.{IsPass, sizes_of, view};
ghost use Rattle.turn_board.specs.Passes.{IsFree};

use crate::blocks::{Held, LINES, LISTS, block};
use fault_script::{Part, parse};
use rs_disk::MemDisk;
use set_model::Reply;
use set_program::run_block;
use set_world::{World, empty_disks};
use shared_set::{Pass, SharedSet};
use std::alloc::Global;
use std::sync::Wait;
use std::test::Fail;
use std::thread::Threads;

// A set of one node on empty disks, and the pass of its first caller.
fn one_node(alloc: Global) -> Result<(SharedSet<MemDisk>, Pass<MemDisk>), Fail>
    ensures pass { IfOk result (λ shared. IsPass shared.0 shared.1 × IsFree shared.1) }
    ensures parts { IfOk result (λ shared. (view shared.1).parts ≡ 65536) }
    ensures nodes { IfOk result (λ shared. (sizes_of shared.0).nodes ≡ 1) }
{
    let Ok(world) = World::open(alloc, 1, 1, 1, empty_disks(alloc)?) else {
        return Err(Fail::new("no set"));
    };
    let Ok(shared) = SharedSet::new(alloc, world) else {
        return Err(Fail::new("no shared set"));
    };
    Ok(shared)
}

// Runs a block, the only part, on a shared set.
fn run_only_block<R: Threads + Wait + Sync>(
    rt: &R,
    alloc: Global,
    set: &SharedSet<MemDisk>,
    pass: &mut Pass<MemDisk>,
    parts: &[Part],
    held: &Held,
) -> Result<Vec<(u32, u32, Reply)>, Fail>
    requires pass { IsPass set.now pass.old × IsFree pass.old }
    requires parts { (view pass.old).parts ≡ 65536 }
    requires fits { list_all (is_part_for (sizes_of set.now).nodes) parts.now ≡ true }
{
    let [Part::Par(lists)] = parts else {
        return Err(Fail::new("no block"));
    };
    let lists = lists.as_slice();
    if lists.len() > 16 {
        return Err(Fail::new("too many lists"));
    }
    Ok(run_block(rt, alloc, set, pass, lists, held)?)
}

fn told_of_block<R: Threads + Wait + Sync>(
    rt: &R,
    alloc: Global,
    held: &Held,
) -> Result<Vec<(u32, u32, Reply)>, Fail> {
    let script = parse(alloc, block(alloc)?.as_bytes())?;
    if script.nodes != 1 {
        return Err(Fail::new("another set"));
    }
    let (set, mut pass) = one_node(alloc)?;
    run_only_block(rt, alloc, &set, &mut pass, script.parts.as_slice(), held)
}

// Each line of the block is reported once, by place.
#[test]
fn a_block_runs_its_lists_side_by_side(rt: HostRuntime) -> Result<(), Fail> {
    let held = Held::new();
    let told = told_of_block(&rt, rt.alloc(), &held)?;
    assert!(rt; held.passed_in_time());
    assert!(rt; told.iter().map(|one| one.0).eq(0..LISTS * LINES));
    Ok(())
}
