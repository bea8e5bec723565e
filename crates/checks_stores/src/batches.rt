// Batches applied to a new store: documents at their optimes, and workers side by side.
ghost use Rattle.std.specs.Prelude.{◌≡◌, ◌+◌, ◌<◌, ◌≤◌, ℕ, None, IfOk, length, slice_index_or};
ghost use Rattle.oplog_entry.specs.declared.entry.Entry.{Entry as Seen};
ghost use Rattle.oplog_entry.specs.Lawful.{IsLawful};

use batch_applier::{Gate, NoGate, apply_batch};
use bson_doc::{Doc, IdKey, Items, Text, Value};
use oplog_entry::{Entry, Op, SharedOp};
use rs_optime::OpTime;
use std::alloc::Global;
use std::sync::atomic::{AtomicU64, Ordering};
use std::test::Fail;
use std::thread;
use std::thread::Threads;
use version_store::VersionStore;

// How often the first worker looks for the second.
const TURNS: u32 = 1_000_000;

// So few entries that workers take no threads, and enough for four.
const FEW: u32 = 300;

const MANY: u32 = 4000;

// The longest batch.
const MOST: usize = 5000;

// A new document.
fn insert(alloc: Global, id: i32) -> Result<Op, Fail>
    ensures { IfOk result (λ op.
        (ts : ℕ) → IsLawful (record { optime = record { term = 1; ts = ts }; op = op; session = None })) }
{
    let mut o = Doc::new(alloc);
    o.push(Text::from_str(alloc, "_id")?, Value::Int32(id))?;
    let ns = Text::from_str(alloc, "t")?;
    Ok(Op::Insert { ns, o })
}

// `n` is set in an existing document.
fn update(alloc: Global, id: i32, n: i32) -> Result<Op, Fail>
    ensures { IfOk result (λ op.
        (ts : ℕ) → IsLawful (record { optime = record { term = 1; ts = ts }; op = op; session = None })) }
{
    let mut sets = Doc::new(alloc);
    sets.push(Text::from_str(alloc, "n")?, Value::Int32(n))?;
    let ns = Text::from_str(alloc, "t")?;
    let unsets = Items::new(alloc);
    Ok(Op::Fields {
        ns,
        id: Value::Int32(id),
        sets,
        unsets,
    })
}

// A new document with its `n`.
fn insert_with(alloc: Global, id: i32, n: i32) -> Result<Op, Fail>
    ensures { IfOk result (λ op.
        (ts : ℕ) → IsLawful (record { optime = record { term = 1; ts = ts }; op = op; session = None })) }
{
    let mut o = Doc::new(alloc);
    o.push(Text::from_str(alloc, "_id")?, Value::Int32(id))?;
    o.push(Text::from_str(alloc, "n")?, Value::Int32(n))?;
    let ns = Text::from_str(alloc, "t")?;
    Ok(Op::Insert { ns, o })
}

// The document is gone.
fn delete(alloc: Global, id: i32) -> Result<Op, Fail>
    ensures { IfOk result (λ op.
        (ts : ℕ) → IsLawful (record { optime = record { term = 1; ts = ts }; op = op; session = None })) }
{
    let ns = Text::from_str(alloc, "t")?;
    Ok(Op::Delete {
        ns,
        id: Value::Int32(id),
    })
}

#[derive(Clone, Copy)]
enum Change {
    Insert(i32),
    InsertWith(i32, i32),
    Set(i32, i32),
    Delete(i32),
}

fn op_of(alloc: Global, change: Change) -> Result<Op, Fail>
    ensures { IfOk result (λ op.
        (ts : ℕ) → IsLawful (record { optime = record { term = 1; ts = ts }; op = op; session = None })) }
{
    match change {
        Change::Insert(id) => insert(alloc, id),
        Change::InsertWith(id, n) => insert_with(alloc, id, n),
        Change::Set(id, n) => update(alloc, id, n),
        Change::Delete(id) => delete(alloc, id),
    }
}

// The changes at rising optimes.
fn batch(alloc: Global, changes: &[Change]) -> Result<Vec<Entry>, Fail>
    ensures len { IfOk result (λ entries. length entries.items ≡ length changes.now) }
    ensures each { IfOk result (λ entries. (k : ℕ) (d : Seen) → k < length entries.items
        → IsLawful (slice_index_or entries.items k d)
        × ((slice_index_or entries.items k d).optime ≡ record { term = 1; ts = k + 1 })) }
{
    let mut entries = Vec::new(alloc);
    for place in 0..changes.len() {
        let optime = OpTime {
            term: 1,
            ts: place as u64 + 1,
        };
        let change = op_of(alloc, changes[place])?;
        let op = SharedOp::new(alloc, change)?;
        entries.push(Entry {
            optime,
            op,
            session: None,
        })?;
    }
    Ok(entries)
}

fn applied<R: Threads + Sync, G: Gate + Sync>(
    rt: &R,
    alloc: Global,
    shards: u32,
    changes: &[Change],
    workers: u32,
    gate: &G,
) -> Result<VersionStore, Fail>
    requires shards { 0 < shards }
    requires few { length changes.now ≤ 5000 }
    requires workers { (0 < workers) × (workers ≤ 16) }
{
    let mut store = VersionStore::new(alloc, shards)?;
    let entries = batch(alloc, changes)?;
    apply_batch(rt, &mut store, &entries, workers, gate)?;
    Ok(store)
}

// What a read at an optime shows of a document's `n`: none if there is no document, and 0 if it has no `n`.
fn n_at(store: &VersionStore, id: i64, ts: u64) -> Option<i32> {
    let document = store.read_at("t", &IdKey::Number(id), OpTime { term: 1, ts })?;
    match document.get("n") {
        Some(Value::Int32(n)) => Some(*n),
        _ => Some(0),
    }
}

#[test]
fn documents_are_there_at_their_optimes(rt: HostRuntime) -> Result<(), Fail> {
    let changes = [
        Change::Insert(1),
        Change::Insert(2),
        Change::Set(1, 7),
        Change::Insert(3),
        Change::Set(1, 8),
    ];
    let store = applied(&rt, rt.alloc(), 8, &changes, 2, &NoGate)?;
    assert_eq!(rt; n_at(&store, 1, 2), Some(0));
    assert_eq!(rt; n_at(&store, 1, 3), Some(7));
    assert_eq!(rt; n_at(&store, 1, 4), Some(7));
    assert_eq!(rt; n_at(&store, 1, 5), Some(8));
    assert_eq!(rt; n_at(&store, 3, 3), None);
    assert_eq!(rt; n_at(&store, 3, 4), Some(0));
    assert_eq!(rt; n_at(&store, 4, 5), None);
    Ok(())
}

// Holds the first worker until the second has passed, for a number of turns.
#[derive(Drop)]
struct Held {
    second: AtomicU64,
    in_time: AtomicU64,
}

impl Gate for Held {
    fn pass(&self, worker: u32) {
        if worker == 2 {
            self.second.store(1, Ordering::SeqCst);
            return;
        }
        for _ in 0..TURNS {
            if self.second.load(Ordering::SeqCst) == 1 {
                self.in_time.store(1, Ordering::SeqCst);
                return;
            }
            thread::yield_now();
        }
    }
}

// This many changes of one document.
fn of_one_document(alloc: Global, count: u32) -> Result<Vec<Change>, Fail>
    requires { count ≤ 5000 }
{
    let mut changes = Vec::new(alloc);
    changes.push(Change::Insert(1))?;
    for n in 1..count {
        changes.push(Change::Set(1, n as i32))?;
    }
    Ok(changes)
}

// If all entries are on one document, all threads but one have nothing to do. Each worker passes the gate all
// the same.
#[test]
fn workers_without_a_shard_pass_the_gate(rt: HostRuntime) -> Result<(), Fail> {
    for count in [MANY, FEW] {
        let held = Held {
            second: AtomicU64::new(0),
            in_time: AtomicU64::new(0),
        };
        let changes = of_one_document(rt.alloc(), count)?;
        assert!(rt; changes.len() <= MOST);
        let store = applied(&rt, rt.alloc(), 2, &changes, 2, &held)?;
        assert_eq!(rt; held.second.load(Ordering::SeqCst), 1);
        assert_eq!(rt; held.in_time.load(Ordering::SeqCst), 1);
        assert_eq!(rt; n_at(&store, 1, 1), Some(0));
        assert_eq!(rt; n_at(&store, 1, u64::from(count)), Some(count as i32 - 1));
    }
    Ok(())
}

// Holds each of two workers until the other has come, for a number of turns.
#[derive(Drop)]
struct Meeting {
    came: [AtomicU64; 2],
    met: AtomicU64,
}

impl Gate for Meeting {
    fn pass(&self, worker: u32) {
        let own = usize::from(worker == 2);
        self.came[own].store(1, Ordering::SeqCst);
        for _ in 0..TURNS {
            if self.came[1 - own].load(Ordering::SeqCst) == 1 {
                self.met.fetch_add(1, Ordering::SeqCst);
                return;
            }
            thread::yield_now();
        }
    }
}

#[test]
fn workers_run_side_by_side(rt: HostRuntime) -> Result<(), Fail> {
    let meeting = Meeting {
        came: [AtomicU64::new(0), AtomicU64::new(0)],
        met: AtomicU64::new(0),
    };
    let changes = in_turns(rt.alloc(), 1, MANY)?;
    assert!(rt; changes.len() <= MOST);
    applied(&rt, rt.alloc(), 16, &changes, 2, &meeting)?;
    assert_eq!(rt; meeting.met.load(Ordering::SeqCst), 2);
    Ok(())
}

// This many entries, each on one of forty documents, in turns that `first` begins. A third of them are
// deletes.
fn in_turns(alloc: Global, first: u32, count: u32) -> Result<Vec<Change>, Fail>
    requires { (first ≤ 200) × (count ≤ 5000) }
{
    let mut changes = Vec::new(alloc);
    for n in 1..=count {
        let id = ((7 * n + first) % 40) as i32;
        changes.push(if n % 3 == 0 {
            Change::Delete(id)
        } else {
            Change::InsertWith(id, n as i32)
        })?;
    }
    Ok(changes)
}

// At each of this many optimes, each of the forty documents is the same in both.
fn are_same(one: &VersionStore, other: &VersionStore, count: u32) -> bool {
    for id in 0..40 {
        for ts in 1..=u64::from(count) {
            if n_at(one, id, ts) != n_at(other, id, ts) {
                return false;
            }
        }
    }
    true
}

// Whether 1, 2, 7 and 16 workers leave the same after such a batch.
fn leave_the_same<R: Threads + Sync>(
    rt: &R,
    alloc: Global,
    first: u32,
    count: u32,
) -> Result<bool, Fail>
    requires { (first ≤ 200) × (count ≤ 5000) }
{
    let changes = in_turns(alloc, first, count)?;
    if changes.len() > MOST {
        return Ok(false);
    }
    let alone = applied(rt, alloc, 16, &changes, 1, &NoGate)?;
    if n_at(&alone, i64::from((7 + first) % 40), 1) != Some(1) {
        return Ok(false);
    }
    for workers in [2, 7, 16] {
        let store = applied(rt, alloc, 16, &changes, workers, &NoGate)?;
        if !are_same(&alone, &store, count) {
            return Ok(false);
        }
    }
    Ok(true)
}

#[test]
fn any_number_of_workers_leaves_the_same(rt: HostRuntime) -> Result<(), Fail> {
    for first in 1..=200 {
        let same = leave_the_same(&rt, rt.alloc(), first, FEW)?;
        assert!(rt; same);
    }
    for first in 1..=2 {
        let same = leave_the_same(&rt, rt.alloc(), first, MANY)?;
        assert!(rt; same);
    }
    Ok(())
}
