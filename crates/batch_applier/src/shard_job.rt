// A shard with its entries, as a job for a worker.
ghost use Rattle.std.specs.Prelude.{◌≡◌, ◌≤◌, ◌<◌, ◌^◌, length, OnOk, OnErr, IfOk};
ghost use Rattle.std.specs.Mem.Slots.{slots_items, slots_len, IsFull};
ghost use Rattle.batch_applier.specs.Jobs.{AreJobs, AreAllJobs, AreBack, AreAllApplied};
ghost use Rattle.batch_applier.specs.Parts.{AreReady, AreApplied, IsReady, IsApplied, IsBegun};

use crate::claims::Job;
use crate::gate::Gate;
use crate::part::Part;
use crate::workers::done_by_workers;
use atomic_table::Closed;
use rs_optime::Mem;
use std::alloc::{AllocError, Global};
use std::mem::replace;
use std::thread::Threads;
use version_store::Shard;

#[derive(Drop)]
pub(crate) struct ShardJob<'p, 'e> {
    shard: Shard,
    part: &'p Part<'e>,
    alloc: Global,
    applied: Mem<()>,
}

impl<'p, 'e> Job for ShardJob<'p, 'e> {
    ghost ready = { λ job. IsReady job.shard job.part.now };

    ghost done = { λ before after. OnOk after.applied (IsApplied before.shard after.shard before.part.now)
        × IsBegun before.shard after.shard before.part.now };

    fn run(self) -> Self {
        let ShardJob {
            mut shard,
            part,
            alloc,
            applied: _,
        } = self;
        let applied = part.apply(alloc, &mut shard);
        ShardJob {
            shard,
            part,
            alloc,
            applied,
        }
    }
}

/// Applies the parts of all shards, with this many workers that claim them.
pub(crate) fn apply_claimed<R: Threads + Sync, G: Gate + Sync>(
    rt: &R,
    gate: &G,
    alloc: Global,
    workers: u32,
    parts: &[Part<'_>],
    shards: &mut [Shard],
) -> Mem<()>
    requires workers { (0 < workers) × (workers ≤ 16) }
    requires few { length shards.old ≤ 2 ^ 32 }
    requires ready { AreReady shards.old parts.now }
    ensures { AreApplied result shards.old shards.new parts.now }
{
    let jobs = jobs_of(alloc, parts, shards)?;
    match done_by_workers(rt, gate, alloc, workers, jobs) {
        Ok(closed) => take_back(closed, shards),
        Err(jobs) => {
            give_back(jobs, shards);
            Err(AllocError)
        }
    }
}

// Moves each shard into a job.
fn jobs_of<'p, 'e>(
    alloc: Global,
    parts: &'p [Part<'e>],
    shards: &mut [Shard],
) -> Mem<Vec<Option<ShardJob<'p, 'e>>>>
    requires { length parts.now ≡ length shards.old }
    ensures long { length shards.new ≡ length shards.old }
    ensures ok { IfOk result (λ jobs. AreJobs shards.old parts.now jobs.items) }
    ensures err { OnErr result (shards.new ≡ shards.old) }
{
    let mut jobs = Vec::with_capacity(alloc, shards.len())?;
    for place in 0..shards.len() {
        let shard = replace(&mut shards[place], Shard::new(alloc, 0, 0));
        let job = ShardJob {
            shard,
            part: &parts[place],
            alloc,
            applied: Ok(()),
        };
        let Ok(()) = jobs.push(Some(job)) else {
            unreachable!()
        };
    }
    Ok(jobs)
}

// Moves each shard out of its slot. An error is that of some job.
fn take_back(mut closed: Closed<Option<ShardJob<'_, '_>>, Global>, shards: &mut [Shard]) -> Mem<()>
    requires full { IsFull closed.slots × (slots_len closed.slots ≡ length shards.old)
        × (length (slots_items closed.slots) ≡ length shards.old) }
    requires jobs { AreAllJobs (slots_items closed.slots) }
    ensures back { AreBack (slots_items closed.entry.slots) shards.new }
    ensures ok { OnOk result (AreAllApplied (slots_items closed.entry.slots)) }
{
    let mut all = Ok(());
    for place in 0..shards.len() {
        let Some(ShardJob { shard, applied, .. }) = closed.take(place) else {
            unreachable!()
        };
        shards[place] = shard;
        all = all.and(applied);
    }
    closed.free();
    all
}

// Moves each shard out of its job.
fn give_back(mut jobs: Vec<Option<ShardJob<'_, '_>>>, shards: &mut [Shard])
    requires long { length shards.old ≡ length jobs.items }
    requires jobs { AreAllJobs jobs.items }
    ensures { AreBack jobs.entry.items shards.new }
{
    while let Some(job) = jobs.pop() {
        let Some(ShardJob { shard, .. }) = job else {
            unreachable!()
        };
        shards[jobs.len()] = shard;
    }
}
