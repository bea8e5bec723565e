// Runs a script on disks in memory.
ghost use Rattle.std.specs.Prelude.{◌≡◌, All, vec_len, IfOk};
ghost use Rattle.rs_disk.specs.File.{IsEmpty};
ghost use Rattle.rs_disk.specs.Memory.{state_of};

use batch_applier::{Gate, NoGate};
use rs_disk::{Disk, MemDisk};
use rs_io::{MemSink, MemSource};
use set_program::{Outcome, run_set};
use std::alloc::{AllocError, Global};
use std::str::from_utf8;
use std::sync::Wait;
use std::test::Fail;
use std::thread::Threads;

/// The words that ask for a run of a script.
pub const RUN: &[&str] = &["run"];

/// A write that a set of one node has committed.
pub const WRITTEN: &str = "set 1\ncampaign n0\ndrain n0\ninsert n0 t {_id: 1}\nflush n0\n";

/// How many disks a set is given.
const DISKS: usize = 100;

/// What fails in a run: calls of the source and of the sink, by their numbers from 1, and a call of a disk.
#[derive(Clone, Copy, Drop)]
pub struct Failing<'a> {
    pub source: &'a [u32],
    pub sink: &'a [u32],
    /// Which of the disks, from 0.
    pub disk: usize,
    /// Which of its calls, from 1.
    pub call: u32,
    /// What a power cut within the call leaves, if it is one.
    pub pick: Option<u64>,
}

/// No call fails: the set has no such disk.
pub const NOTHING: Failing<'_> = Failing {
    source: &[],
    sink: &[],
    disk: DISKS,
    call: 1,
    pick: None,
};

/// How a run ends, and its output, where the lists of a block pass a gate.
pub fn ran<G: Gate + Sync, R: Threads + Wait + Sync>(
    rt: &R,
    alloc: Global,
    words: &[&str],
    script: &str,
    failing: Failing<'_>,
    gate: &G,
) -> Result<(Outcome<MemDisk>, MemSink), Fail> {
    let mut owned = Vec::new(alloc);
    for word in words {
        owned.push(String::from_str(alloc, word)?)?;
    }
    let input = script.as_bytes().to_vec(alloc)?;
    let mut source = MemSource::new(input, failing.source.to_vec(alloc)?);
    let mut sink = MemSink::new(alloc, failing.sink.to_vec(alloc)?);
    let disks = disks_with(alloc, failing)?;
    let outcome = run_set(rt, alloc, &owned, &mut source, &mut sink, disks, gate);
    Ok((outcome, sink))
}

/// The status that a run ends with, and its output.
pub fn ended<R: Threads + Wait + Sync>(
    rt: &R,
    alloc: Global,
    words: &[&str],
    script: &str,
    failing: Failing<'_>,
) -> Result<(u8, String), Fail> {
    let (outcome, sink) = ran(rt, alloc, words, script, failing, &NoGate)?;
    Ok((outcome.status, text_of(alloc, &sink)?))
}

/// What a sink got, which is text.
fn text_of(alloc: Global, sink: &MemSink) -> Result<String, Fail> {
    match from_utf8(sink.bytes()) {
        Ok(text) => Ok(String::from_str(alloc, text)?),
        Err(_) => Err(Fail::new("no text")),
    }
}

/// As many empty disks as a set is given, one of which may fail.
fn disks_with(alloc: Global, failing: Failing<'_>) -> Result<Vec<MemDisk>, AllocError>
    ensures len { IfOk result (λ disks. vec_len disks ≡ 100) }
    ensures empty { IfOk result (λ disks.
        All (λ (disk : MemDisk). IsEmpty (state_of disk).file) disks.items) }
{
    let mut disks = Vec::with_capacity(alloc, DISKS)?;
    for place in 0..DISKS {
        disks.push(disk(alloc, place == failing.disk, failing.call, failing.pick))?;
    }
    Ok(disks)
}

/// An empty disk, which fails in that call if it should.
fn disk(alloc: Global, is_armed: bool, call: u32, pick: Option<u64>) -> MemDisk
    ensures { IsEmpty (state_of result).file }
{
    let mut disk = MemDisk::new(alloc);
    if !is_armed {
        return disk;
    }
    disk.arm(call, pick);
    disk
}
