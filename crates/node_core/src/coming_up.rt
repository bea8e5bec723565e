// A node that is down opens its disks again, learns whether what was in doubt is there, and comes up with
// that.
ghost use Rattle.std.specs.Prelude.{◌≡◌, ◌↔◌, ◌<◌, ◌≤◌, ◌-◌, ◌^◌, [], Err, None, Some, true, false, IfOk, IfSome, OnOk, OnErr, IsErrOf, IsSome};
ghost use Rattle.record_file.specs.Files.{spare};
ghost use Rattle.rs_disk.specs.Moments.{EachMoment};
ghost use Rattle.node_journal.specs.Files.{IsJournalDisk, IsOneOf as IsOneJournal};
ghost use Rattle.checkpoint_store.specs.Files.{IsCheckpointDisk, IsOneOf as IsOneCheckpoint};
ghost use Rattle.set_model.specs.Disk.{has_more as is_more, recovered, restart, settled_doubt};
ghost use Rattle.set_model.specs.Limits.{passes_first};
ghost use Rattle.set_model.specs.Node.{Node};
ghost use Rattle.set_model.specs.Stores.{storing};
ghost use Rattle.node_state.specs.WellKept.{IsWellKept};
ghost use Rattle.node_core.specs.Acting.{AreReopened, Follows, IsThere, RunsWithoutOrders};
ghost use Rattle.node_core.specs.Coming.{IsFound, IsPrepared, IsRead, cut_point, cut_records, is_there as is_kept, settled as settled_node};
ghost use Rattle.node_core.specs.Opening.{ReopensInTurn};
ghost use Rattle.node_core.specs.Down.{down_node, down_state, seen_node};
ghost use Rattle.node_core.specs.Putting.{SHORT};
ghost use Rattle.node_core.specs.OnDisks.{IsOnDisks, DownOnDisks, UpOnDisks};
ghost use Rattle.node_core.specs.Stands.{Stands};

use crate::Done;
use crate::disks::{Disks, SHORT_RECORD};
use crate::down::DownState;
use bson_doc::Mem;
use checkpoint_store::Stable;
use node_state::{Coming, State};
use record_file::FileError;
use repl_msg::{Kept, Record};
use rs_disk::Disk;
use rs_optime::OpTime;
use set_model::{Records, Refusal, Reply, Store};
use std::alloc::{AllocError, Global};
use std::thread::Threads;

/// What was read from a node's disks.
#[derive(Drop)]
pub(crate) struct Found {
    pub(crate) kept: Kept,
    pub(crate) stable: Stable,
}

/// A node that can come up and needs no more memory for it.
#[derive(Drop)]
pub(crate) struct Prepared {
    /// The node in memory, when it comes up.
    pub(crate) state: State,
    /// What it kept while it was down, with what was in doubt if that is there.
    pub(crate) left: DownState,
    /// The store in doubt is there.
    pub(crate) kept: bool,
    /// How many records its journal has.
    pub(crate) count: u64,
    /// The journal's point, if entries come after it.
    pub(crate) cut: Option<OpTime>,
    /// The last entry up to the point.
    pub(crate) last: OpTime,
}

/// Opens the disks of a node that is down, and comes up with what is there. Out of memory leaves the node
/// as it was.
pub(crate) fn come_up<D: Disk, R: Threads + Sync>(
    alloc: Global,
    rt: &R,
    state: &mut State,
    disks: &mut Disks<D>,
    up: &mut bool,
    left: &mut DownState,
) -> Mem<Done>
    requires down { up.old ≡ false }
    requires rollback { left.old.rollback < 2 ^ 64 - 1 }
    requires lies { DownOnDisks (down_node state.old.node (down_state left.old)) disks.old.count
        (D.state disks.old.journal.0) (D.state disks.old.checkpoints) }
    ensures follows { IfOk result (λ done.
        Follows (restart (down_node state.old.node (down_state left.old)) done.kept)
        (seen_node up.new state.new.node (down_state left.new)) done) }
    ensures settles { IfOk result (λ done.
        done.kept ≡ true → (IsSome left.old.doubt × (passes_first done.failed ≡ true))) }
    ensures found { IfOk result (λ done. passes_first done.failed ≡ true → IfSome left.old.doubt (λ item.
        done.kept ≡ true ↔ IsThere (down_node state.old.node (down_state left.old)) item
        (D.state disks.old.journal.0) (D.state disks.old.checkpoints))) }
    ensures rests { IfOk result (λ done. IsOnDisks up.new state.new.node (down_state left.new) disks.new.count
        (D.state disks.new.journal.0) (D.state disks.new.checkpoints)) }
    ensures runs { IfOk result (λ done. RunsWithoutOrders (IsSome done.failed) (D.state disks.old.journal.0)
        (D.state disks.new.journal.0) (D.state disks.old.checkpoints) (D.state disks.new.checkpoints)) }
    ensures opening { IfOk result (λ done. done.failed ≡ Some 0
        → ReopensInTurn {T = Unit {0}} (Err FileError.Disk) (D.state disks.old.journal.0)
        (D.state disks.new.journal.0) (D.state disks.old.checkpoints) (D.state disks.new.checkpoints)) }
    ensures same { OnErr result (seen_node up.new state.new.node (down_state left.new)
        ≡ down_node state.old.node (down_state left.old)) }
    ensures left { OnErr result (IsOnDisks up.new state.new.node (down_state left.new) disks.new.count
        (D.state disks.new.journal.0) (D.state disks.new.checkpoints)) }
    ensures reopened { OnErr result (AreReopened (D.state disks.old.journal.0) (D.state disks.new.journal.0)
        (D.state disks.old.checkpoints) (D.state disks.new.checkpoints)) }
{
    match open_both(disks) {
        Ok(found) => {
            let prepared = prepare(alloc, rt, state, left, disks.count, found)?;
            Ok(go_up(alloc, state, disks, up, left, prepared))
        }
        Err(FileError::Memory) => Err(AllocError),
        Err(FileError::Disk) => Ok(disk_failed(alloc, 0, false)),
    }
}

// Opens both disks, the journal first, and reserves memory for one short record.
fn open_both<D: Disk>(disks: &mut Disks<D>) -> Result<Found, FileError>
    requires journal { IsJournalDisk (D.state disks.old.journal.0) }
    requires checkpoints { IsCheckpointDisk (D.state disks.old.checkpoints) }
    ensures read { IfOk result (λ found. IsRead found (D.state disks.old.journal.0)
        (D.state disks.new.journal.0) (D.state disks.old.checkpoints) (D.state disks.new.checkpoints)) }
    ensures stands { (node : Node) → Stands node (D.state disks.old.journal.0) (D.state disks.old.checkpoints)
        → Stands node (D.state disks.new.journal.0) (D.state disks.new.checkpoints) }
    ensures room { OnOk result (SHORT ≤ spare (D.state disks.new.journal.0) disks.new.journal.1) }
    ensures count { disks.new.count ≡ disks.old.count }
    ensures calls { ReopensInTurn result (D.state disks.old.journal.0) (D.state disks.new.journal.0)
        (D.state disks.old.checkpoints) (D.state disks.new.checkpoints) }
    ensures journal { EachMoment (IsOneJournal (D.state disks.old.journal.0))
        (D.state disks.old.journal.0) (D.state disks.new.journal.0) }
    ensures checkpoints { EachMoment (IsOneCheckpoint (D.state disks.old.checkpoints))
        (D.state disks.old.checkpoints) (D.state disks.new.checkpoints) }
    ensures runs { RunsWithoutOrders (IsErrOf result FileError.Disk) (D.state disks.old.journal.0)
        (D.state disks.new.journal.0) (D.state disks.old.checkpoints) (D.state disks.new.checkpoints) }
{
    let kept = disks.journal.reopen()?;
    let stable = disks.checkpoints.reopen()?;
    disks.journal.reserve(SHORT_RECORD)?;
    Ok(Found { kept, stable })
}

// Settles what was in doubt, and reserves memory for a node that comes up with that.
fn prepare<R: Threads + Sync>(
    alloc: Global,
    rt: &R,
    state: &State,
    left: &DownState,
    count: u64,
    found: Found,
) -> Mem<Prepared>
    requires rollback { left.now.rollback < 2 ^ 64 - 1 }
    requires found { IsFound (settled_node (down_node state.now.node (down_state left.now)) count found)
        found }
    ensures kept { IfOk result (λ prepared. prepared.kept ≡ is_kept left.now.doubt count found) }
    ensures left { IfOk result (λ prepared. down_node state.now.node (down_state prepared.left)
        ≡ settled_node (down_node state.now.node (down_state left.now)) count found) }
    ensures prepared { IfOk result (λ prepared.
        IsPrepared (down_node state.now.node (down_state prepared.left)) prepared) }
{
    let there = is_there(&left.doubt, count, &found);
    restore(alloc, rt, state, settled(left, there), there, found)
}

// Whether what was in doubt is there, given the number of records.
fn is_there(doubt: &Option<Store>, count: u64, found: &Found) -> bool
    ensures { result ≡ is_kept doubt.now count found.now }
{
    match doubt {
        Some(Store::Record(_)) => count < found.kept.count,
        Some(Store::Checkpoint(at)) => found.stable.at == *at,
        None => false,
    }
}

// The node that is down, after that is known.
fn settled(left: &DownState, there: bool) -> DownState
    ensures settled { (node : Node) → down_node node (down_state result)
        ≡ settled_doubt (down_node node (down_state left.now)) left.now.doubt there }
    ensures rollback { result.rollback ≡ left.now.rollback }
{
    if !there {
        return undoubted(left, left.stable, left.records.same());
    }
    match &left.doubt {
        Some(Store::Checkpoint(at)) => undoubted(left, *at, left.records.same()),
        Some(item) => undoubted(left, left.stable, left.records.with(item)),
        None => undoubted(left, left.stable, left.records.same()),
    }
}

// The same with other documents and records, and nothing in doubt.
fn undoubted(left: &DownState, stable: OpTime, records: Records) -> DownState
    ensures { down_state result
        ≡ record (down_state left.now) { stable = stable; records = records.list; doubt = None } }
{
    DownState {
        clock: left.clock,
        stable,
        rollback: left.rollback,
        records,
        doubt: None,
    }
}

// The node that comes up with what was found.
fn restore<R: Threads + Sync>(
    alloc: Global,
    rt: &R,
    state: &State,
    left: DownState,
    kept: bool,
    found: Found,
) -> Mem<Prepared>
    requires rollback { left.rollback < 2 ^ 64 - 1 }
    requires found { IsFound (down_node state.now.node (down_state left)) found }
    ensures kept { IfOk result (λ prepared. prepared.kept ≡ kept) }
    ensures left { IfOk result (λ prepared. down_state prepared.left ≡ down_state left) }
    ensures prepared { IfOk result (λ prepared.
        IsPrepared (down_node state.now.node (down_state left)) prepared) }
{
    state.recall_sound();
    let Found { kept: read, stable } = found;
    let Stable { at, documents } = stable;
    let count = read.count;
    let last = read.point;
    let cut = point_to_cut(&read);
    let coming = Coming {
        number: state.number(),
        first: state.first(),
        clock: left.clock,
        rollback: left.rollback,
        records: records_cut(&left.records, cut),
    };
    let state = State::restored(rt, alloc, coming, read, at, documents.into_map())?;
    Ok(Prepared {
        state,
        left,
        kept,
        count,
        cut,
        last,
    })
}

// The point, if entries come after it.
fn point_to_cut(kept: &Kept) -> Option<OpTime>
    ensures { result ≡ cut_point kept.now }
{
    if has_more(kept) {
        Some(kept.point)
    } else {
        None
    }
}

fn has_more(kept: &Kept) -> bool
    ensures { result ≡ is_more kept.now }
{
    let point = kept.point;
    kept.entries
        .as_slice()
        .iter()
        .any(|entry| point < entry.optime)
}

// The records with a cut there.
fn records_cut(records: &Records, cut: Option<OpTime>) -> Records
    ensures { result.list ≡ cut_records cut records.now.list }
{
    match cut {
        Some(at) => records.with(&Store::Record(Record::Cut(at))),
        None => records.same(),
    }
}

// Comes up. Entries after the point are cut first, if there are any.
fn go_up<D: Disk>(
    alloc: Global,
    state: &mut State,
    disks: &mut Disks<D>,
    up: &mut bool,
    left: &mut DownState,
    prepared: Prepared,
) -> Done
    requires down { up.old ≡ false }
    requires prepared { IsPrepared (down_node state.old.node (down_state prepared.left)) prepared }
    requires well { IsWellKept prepared.left.records.list prepared.left.stable }
    requires rests { UpOnDisks (down_node state.old.node (down_state prepared.left)) prepared.count
        (D.state disks.old.journal.0) (D.state disks.old.checkpoints) }
    requires room { SHORT ≤ spare (D.state disks.old.journal.0) disks.old.journal.1 }
    ensures follows { (broken : Node)
        → Follows (storing broken (recovered (down_node state.old.node (down_state prepared.left))))
        (seen_node up.new state.new.node (down_state left.new)) result }
    ensures rests { IsOnDisks up.new state.new.node (down_state left.new) disks.new.count
        (D.state disks.new.journal.0) (D.state disks.new.checkpoints) }
    ensures kept { result.kept ≡ prepared.kept }
    ensures passes { passes_first result.failed ≡ true }
    ensures runs { RunsWithoutOrders (IsSome result.failed) (D.state disks.old.journal.0)
        (D.state disks.new.journal.0) (D.state disks.old.checkpoints) (D.state disks.new.checkpoints) }
{
    disks.count = prepared.count;
    let Some(at) = prepared.cut else {
        return is_up(alloc, state, up, prepared);
    };
    match disks.add(&Record::Cut(at)) {
        Ok(()) => is_up(alloc, state, up, prepared),
        Err(_) => cut_failed(alloc, left, prepared, at),
    }
}

// The cut may be there or not. The opening before it has the number 0.
fn cut_failed(alloc: Global, left: &mut DownState, prepared: Prepared, at: OpTime) -> Done
    ensures left { down_state left.new
        ≡ record (down_state prepared.left) { doubt = Some (Store.Record (Record.Cut at)) } }
    ensures reply { result.reply ≡ Reply.Refused Refusal.DiskFailed }
    ensures sent { result.sent.items ≡ [] }
    ensures failed { result.failed ≡ Some 1 }
    ensures kept { result.kept ≡ prepared.kept }
{
    let Prepared {
        left: settled,
        kept,
        ..
    } = prepared;
    *left = doubting(settled, at);
    disk_failed(alloc, 1, kept)
}

// The node that is down, with a cut in doubt.
fn doubting(left: DownState, at: OpTime) -> DownState
    ensures { down_state result ≡ record (down_state left) { doubt = Some (Store.Record (Record.Cut at)) } }
{
    let mut left = left;
    left.doubt = Some(Store::Record(Record::Cut(at)));
    left
}

// Marks the node as up.
fn is_up(alloc: Global, state: &mut State, up: &mut bool, prepared: Prepared) -> Done
    ensures state { state.new.node ≡ prepared.state.node }
    ensures up { up.new ≡ true }
    ensures reply { result.reply ≡ Reply.Up prepared.last }
    ensures sent { result.sent.items ≡ [] }
    ensures failed { result.failed ≡ None }
    ensures kept { result.kept ≡ prepared.kept }
{
    let Prepared {
        state: restored,
        kept,
        last,
        ..
    } = prepared;
    *state = restored;
    *up = true;
    Done {
        reply: Reply::Up(last),
        sent: Vec::new(alloc),
        failed: None,
        kept,
    }
}

// The store of this number failed.
fn disk_failed(alloc: Global, number: u32, kept: bool) -> Done
    ensures reply { result.reply ≡ Reply.Refused Refusal.DiskFailed }
    ensures sent { result.sent.items ≡ [] }
    ensures failed { result.failed ≡ Some number }
    ensures kept { result.kept ≡ kept }
{
    Done {
        reply: Reply::Refused(Refusal::DiskFailed),
        sent: Vec::new(alloc),
        failed: Some(number),
        kept,
    }
}
