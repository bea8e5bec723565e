// A stream that asks all nodes in turn after each line of a script, over a failover.
ghost use Rattle.std.specs.Prelude.{◌≡◌, true};
ghost use Rattle.std.specs.List.{list_all};
ghost use Rattle.fault_script.specs.Script.{is_part_for};

use crate::shared::set_of;
use bson_doc::{Doc, Text};
use change_stream::{ChangeStream, next, open};
use fault_script::{Part, parse};
use oplog_entry::{Entry, Op};
use rs_disk::MemDisk;
use rs_optime::OpTime;
use set_model::{Command, Reply};
use set_world::World;
use std::alloc::Global;
use std::sync::Wait;
use std::test::Fail;
use std::thread::Threads;

// An entry of an older term reaches a majority: it is committed together with the next term's first one.
const FAILOVER: &str = "set 3\ncampaign n0\ndeliver m0\ndeliver m2\ndrain n0\ninsert n0 t {_id: 1}
heartbeat n0 n1\ndeliver n0 n1\nfetch n1\ndeliver n1 n0\ndeliver n0 n1\nflush n1
campaign n1\ndeliver m8\ndeliver m9
heartbeat n1 n2\ndeliver n1 n2\nfetch n2\ndeliver n2 n1\ndeliver n1 n2\nflush n2
drain n1\nreport n2 n1\ndeliver n2 n1\nflush n1
heartbeat n1 n2\ndeliver n1 n2\nfetch n2\ndeliver n2 n1\ndeliver n1 n2\nflush n2
report n2 n1\ndeliver n2 n1\n";

// Asks every node once, and keeps what they give.
fn ask_each<R: Threads + Wait + Sync>(
    rt: &R,
    world: &mut World<MemDisk>,
    stream: &mut ChangeStream,
    joined: &mut Vec<Entry>,
) -> Result<(), Fail>
    ensures sizes { world.new.sizes ≡ world.old.sizes }
{
    for node in 0..world.size() {
        let given = next(stream, rt, world, node, 1000)?;
        joined.extend(given)?;
    }
    Ok(())
}

// Does each line, and asks every node after it.
fn follow<R: Threads + Wait + Sync>(
    rt: &R,
    world: &mut World<MemDisk>,
    stream: &mut ChangeStream,
    joined: &mut Vec<Entry>,
    parts: &[Part],
) -> Result<(), Fail>
    requires fits { list_all (is_part_for world.old.sizes.nodes) parts.now ≡ true }
{
    for part in parts {
        if let Part::Line(line, command) = part {
            world.step(rt, *line, command)?;
            ask_each(rt, world, stream, joined)?;
        }
    }
    Ok(())
}

// The set after the script, and everything that the stream gave.
fn followed<R: Threads + Wait + Sync>(
    rt: &R,
    alloc: Global,
) -> Result<(World<MemDisk>, Vec<Entry>), Fail> {
    let script = parse(alloc, FAILOVER.as_bytes())?;
    let mut world = set_of(alloc, script.nodes, script.voters, script.members)?;
    let mut stream = open(OpTime::ZERO);
    let mut joined = Vec::new(alloc);
    let parts = script.parts.as_slice();
    follow(rt, &mut world, &mut stream, &mut joined, parts)?;
    Ok((world, joined))
}

const EXPECTED: [OpTime; 3] = [
    OpTime { term: 1, ts: 1 },
    OpTime { term: 1, ts: 2 },
    OpTime { term: 2, ts: 3 },
];

fn are_expected(entries: &[Entry]) -> bool {
    entries
        .iter()
        .map(|entry| entry.optime)
        .eq(EXPECTED.iter().copied())
}

fn is_insert(op: &Op, collection: &Text, document: &Doc) -> bool {
    match op {
        Op::Insert { ns, o } => ns == collection && o == document,
        _ => false,
    }
}

// Whether two ops are the same. This script logs only inserts and no-ops.
fn does_the_same(one: &Op, other: &Op) -> bool {
    match one {
        Op::Insert { ns, o } => is_insert(other, ns, o),
        Op::Noop => matches!(other, Op::Noop),
        _ => false,
    }
}

fn is_same(one: &Entry, other: &Entry) -> bool {
    one.optime == other.optime
        && one.session == other.session
        && does_the_same(one.op.or(&Op::Noop), other.op.or(&Op::Noop))
}

fn are_same(some: &[Entry], others: &[Entry]) -> bool {
    some.len() == others.len()
        && some
            .iter()
            .zip(others.iter())
            .all(|(one, other)| is_same(one, other))
}

// Whether the log of a node has these entries and no others.
fn has_all<R: Threads + Sync>(
    rt: &R,
    world: &mut World<MemDisk>,
    node: u32,
    entries: &[Entry],
) -> Result<bool, Fail>
    ensures sizes { world.new.sizes ≡ world.old.sizes }
{
    if node >= world.size() {
        return Ok(false);
    }
    match world.take(rt, 0, Command::Log { node })? {
        Reply::Entries(log) => Ok(are_same(log.as_slice(), entries)),
        _ => Ok(false),
    }
}

#[test]
fn each_committed_entry_is_told_once(rt: HostRuntime) -> Result<(), Fail> {
    let (mut world, joined) = followed(&rt, rt.alloc())?;
    assert!(rt; are_expected(&joined));
    assert!(rt; has_all(&rt, &mut world, 1, &joined)?);
    assert!(rt; has_all(&rt, &mut world, 2, &joined)?);
    Ok(())
}
