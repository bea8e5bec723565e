ghost use Rattle.std.specs.Prelude.{◌≡◌, ◌<◌, ◌≤◌, ◌^◌, [], All, length, OnOk, OnErr};
ghost use Rattle.oplog_entry.specs.Lawful.{IsLawful};
ghost use Rattle.version_store.specs.Past.{back_before};
ghost use Rattle.version_store.specs.Store.{AreShards, ChangesEach};
ghost use Rattle.batch_applier.specs.Applied.{IsBatch, HasApplied};
ghost use Rattle.batch_applier.specs.Parts.{IsApplied, IsBegun, IsEachReady, EachOf, AreReady, AreApplied};

use crate::each::apply_each;
use crate::gate::Gate;
use crate::part::{Part, apply_in_turn};
use crate::parting::parted_by;
use crate::shard_job::apply_claimed;
use oplog_entry::Entry;
use rs_optime::{Mem, OpTime};
use std::alloc::{AllocError, Global};
use std::thread::Threads;
use version_store::{Shard, VersionStore};

/// How many entries make a thread worthwhile.
const SHARE: usize = 1000;

/// Applies a batch of at most 5,000 entries to a store, with 1 to 16 workers. A worker claims one shard after
/// another and applies the entries on its documents, in order, so entries on one document stay in order. Each
/// document then has the versions that the entries leave, one after another. Out of memory leaves each
/// document as it was.
///
/// The entries are lawful, with rising optimes later than every version in the store.
pub fn apply_batch<R: Threads + Sync, G: Gate + Sync>(
    rt: &R,
    store: &mut VersionStore,
    entries: &[Entry],
    workers: u32,
    gate: &G,
) -> Mem<()>
    requires batch { IsBatch store.old entries.now }
    requires most { length entries.now ≤ 5000 }
    requires workers { (0 < workers) × (workers ≤ 16) }
    ensures ok { OnOk result (HasApplied store.old store.new entries.now) }
    ensures err { OnErr result (HasApplied store.old store.new []) }
{
    let Some(first) = entries.first() else {
        return Ok(());
    };
    let count = store.shard_count();
    let mut shards = store.take_shards();
    if shards.is_empty() {
        return Err(AllocError);
    }
    let alloc = *shards.allocator();
    let done = apply_to(rt, &mut shards, count, alloc, entries, workers, gate);
    put_back(store, shards, first.optime, done)
}

/// Puts the shards back. Where the batch failed, they lose what its entries left; those begin at `first`.
fn put_back(store: &mut VersionStore, shards: Vec<Shard>, first: OpTime, done: Mem<()>) -> Mem<()>
    requires { AreShards store.old.count shards.items }
    ensures same { result ≡ done }
    ensures ok { OnOk result (store.new ≡ record { count = store.old.count; shards = shards.items }) }
    ensures err { OnErr result
        (ChangesEach (record { count = store.old.count; shards = shards.items }) store.new
        (back_before first)) }
{
    store.put_shards(shards);
    if done.is_err() {
        store.back_before(first);
    }
    done
}

/// Applies the entries. Where threads may pay off, they split the entries over the shards for the workers.
/// Where memory runs out, each shard has had some of its entries applied, from the first on.
fn apply_to<R: Threads + Sync, G: Gate + Sync>(
    rt: &R,
    shards: &mut [Shard],
    count: u32,
    alloc: Global,
    entries: &[Entry],
    workers: u32,
    gate: &G,
) -> Mem<()>
    requires lawful { All IsLawful entries.now }
    requires workers { (0 < workers) × (workers ≤ 16) }
    requires count { (0 < count) × (length shards.old ≡ count) }
    requires ready { IsEachReady shards.old entries.now }
    ensures ok { OnOk result (EachOf IsApplied shards.old shards.new entries.now) }
    ensures begun { EachOf IsBegun shards.old shards.new entries.now }
{
    if entries.len() < 2 * SHARE {
        pass_all(gate, workers);
        return apply_each(alloc, count, entries, shards);
    }
    let parts = parted_by(rt, alloc, paying(workers, entries.len()), entries, count)?;
    apply_parts(rt, gate, alloc, workers, &parts, shards)
}

/// How many of the workers are worth their threads, where they share this many entries.
fn paying(workers: u32, entries: usize) -> u32 {
    (entries / SHARE).min(workers as usize) as u32
}

/// Makes all workers pass the gate, the first one last.
fn pass_all<G: Gate>(gate: &G, workers: u32) {
    for other in 2..=workers {
        gate.pass(other);
    }
    gate.pass(1);
}

/// How many of the workers save more than their threads cost: each has at least a thousand entries to do, and
/// at least as many as the largest part, which one worker does alone.
fn worthwhile(workers: u32, parts: &[Part<'_>]) -> u32
    requires { 0 < workers }
    ensures { (0 < result) × (result ≤ workers) }
{
    let mut all: usize = 0;
    let mut largest = 0;
    for part in parts {
        all = all.saturating_add(part.len());
        largest = largest.max(part.len());
    }
    (all / largest.max(SHARE)).min(workers as usize).max(1) as u32
}

/// Applies the parts with workers that claim the shards. Workers that aren't worth a thread pass the gate in
/// the caller, before the others begin.
fn apply_parts<R: Threads + Sync, G: Gate + Sync>(
    rt: &R,
    gate: &G,
    alloc: Global,
    workers: u32,
    parts: &[Part<'_>],
    shards: &mut [Shard],
) -> Mem<()>
    requires workers { (0 < workers) × (workers ≤ 16) }
    requires count { length shards.old ≤ 2 ^ 32 }
    requires ready { AreReady shards.old parts.now }
    ensures { AreApplied result shards.old shards.new parts.now }
{
    let threads = worthwhile(workers, parts);
    for other in threads + 1..=workers {
        gate.pass(other);
    }
    if threads > 1 {
        return apply_claimed(rt, gate, alloc, threads, parts, shards);
    }
    gate.pass(1);
    apply_in_turn(alloc, parts, shards)
}
