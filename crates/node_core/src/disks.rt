// A node's two disks.
ghost use Rattle.std.specs.Prelude.{◌≡◌, ◌≢◌, ◌+◌, ◌≤◌, ℕ, List, length, Ok, Err, IfOk, OnOk, IsErrOf, MatchResult};
ghost use Rattle.rs_disk.specs.File.{IsEmpty};
ghost use Rattle.rs_disk.specs.State.{IsCut};
ghost use Rattle.record_file.specs.Files.{spare};
ghost use Rattle.member_config.specs.declared.config.Config.{Config};
ghost use Rattle.repl_msg.specs.declared.record.Record.{Record as ARecord};
ghost use Rattle.node_journal.specs.Bounds.{CanBeKept};
ghost use Rattle.node_journal.specs.Files.{IsAtRest as JournalAtRest};
ghost use Rattle.node_journal.specs.Room.{IsShort};
ghost use Rattle.node_core.specs.Acting.{AreSame, Arms, RunsWithoutOrders};
ghost use Rattle.node_core.specs.Putting.{CanBePut, IsKeepable, IsShortStore, Puts, SHORT};
ghost use Rattle.node_core.specs.OnDisks.{UpOnDisks};
ghost use Rattle.node_core.specs.Opening.{OpensInTurn, unopened_node};
ghost use Rattle.node_core.specs.Stands.{StandsSince};
ghost use Rattle.set_model.specs.Node.{Node, opening_node};

use bson_doc::Mem;
use checkpoint_store::Checkpoints;
use node_journal::Journal;
use node_state::State;
use record_file::FileError;
use repl_msg::Record;
use rs_disk::Disk;
use set_model::{DiskName, Store};
use std::alloc::Global;

/// How many bytes a record without entries may take in the journal.
pub(crate) const SHORT_RECORD: u64 = 473;

/// The journal and the checkpoints.
#[derive(Drop)]
pub(crate) struct Disks<D: Disk> {
    pub(crate) journal: Journal<D>,
    pub(crate) checkpoints: Checkpoints<D>,
    /// How many records the journal has.
    pub(crate) count: u64,
}

impl<D: Disk> Disks<D> {
    /// Opens both empty disks, the journal first.
    ///
    /// # Errors
    /// `Memory`, or `Disk` where one of them failed. They are handed back in the same order.
    pub(crate) fn open(
        alloc: Global,
        journal: D,
        checkpoint: D,
    ) -> Result<Disks<D>, (D, D, FileError)>
        requires journal { IsEmpty (D.state journal).file }
        requires checkpoint { IsEmpty (D.state checkpoint).file }
        ensures rests { (config : Config) (number : ℕ)
            → IfOk result (λ disks. UpOnDisks (opening_node config number) disks.count
            (D.state disks.journal.0) (D.state disks.checkpoints)) }
        ensures any_moment { (config : Config) (number : ℕ) → MatchResult result
            (λ disks. StandsSince (unopened_node config number) (D.state journal)
            (D.state disks.journal.0) (D.state checkpoint) (D.state disks.checkpoints))
            (λ failed. StandsSince (unopened_node config number) (D.state journal) (D.state failed.0)
            (D.state checkpoint) (D.state failed.1)) }
        ensures calls { MatchResult result
            (λ disks. OpensInTurn {T = Unit {0}} (Ok tt) (D.state journal) (D.state disks.journal.0)
            (D.state checkpoint) (D.state disks.checkpoints))
            (λ failed. OpensInTurn {T = Unit {0}} (Err failed.2) (D.state journal) (D.state failed.0)
            (D.state checkpoint) (D.state failed.1)) }
        ensures runs { MatchResult result
            (λ disks. RunsWithoutOrders ⊥ (D.state journal) (D.state disks.journal.0)
            (D.state checkpoint) (D.state disks.checkpoints))
            (λ failed. RunsWithoutOrders (failed.2 ≡ FileError.Disk) (D.state journal) (D.state failed.0)
            (D.state checkpoint) (D.state failed.1)) }
    {
        let (journal, count) = match Journal::open(alloc, journal) {
            Ok((journal, kept)) => (journal, kept.count),
            Err((journal, error)) => return Err((journal, checkpoint, error)),
        };
        match Checkpoints::open(alloc, checkpoint) {
            Ok((checkpoints, _)) => Ok(Disks {
                journal,
                checkpoints,
                count,
            }),
            Err((checkpoint, error)) => Err((journal.close(), checkpoint, error)),
        }
    }

    /// Stores this on its disk, for the node of this state.
    pub(crate) fn put(&mut self, item: &Store, state: &State) -> Result<(), FileError>
        requires rests { UpOnDisks state.now.node self.old.count (D.state self.old.journal.0)
            (D.state self.old.checkpoints) }
        requires can { CanBePut state.now.node item.now }
        ensures puts { Puts result state.now.node item.now self.new.count (D.state self.new.journal.0)
            (D.state self.new.checkpoints) }
        ensures runs { RunsWithoutOrders (IsErrOf result FileError.Disk) (D.state self.old.journal.0)
            (D.state self.new.journal.0) (D.state self.old.checkpoints) (D.state self.new.checkpoints) }
        ensures memory { result ≡ Err FileError.Memory
            → AreSame (D.state self.old.journal.0) (D.state self.new.journal.0)
            (D.state self.old.checkpoints) (D.state self.new.checkpoints) }
        ensures room { IsShortStore item.now → SHORT ≤ spare (D.state self.old.journal.0) self.old.journal.1
            → result ≢ Err FileError.Memory }
        ensures spare { OnOk result
            (IsShortStore item.now → spare (D.state self.old.journal.0) self.old.journal.1
            ≤ spare (D.state self.new.journal.0) self.new.journal.1 + SHORT) }
    {
        match item {
            Store::Record(record) => self.add(record),
            Store::Checkpoint(at) => self.checkpoints.save(*at, state.store()),
        }
    }

    /// Adds a record to the journal.
    pub(crate) fn add(&mut self, item: &Record) -> Result<(), FileError>
        requires rests { (items : List ARecord) × JournalAtRest (D.state self.old.journal.0) items
            × (self.old.count ≡ length items) }
        requires bounds { CanBeKept item.now }
        ensures puts { (node : Node)
            → UpOnDisks node self.old.count (D.state self.old.journal.0) (D.state self.old.checkpoints)
            → IsKeepable node item.now
            → Puts result node (Store.Record item.now) self.new.count (D.state self.new.journal.0)
            (D.state self.new.checkpoints) }
        ensures runs { RunsWithoutOrders (IsErrOf result FileError.Disk) (D.state self.old.journal.0)
            (D.state self.new.journal.0) (D.state self.old.checkpoints) (D.state self.new.checkpoints) }
        ensures memory { result ≡ Err FileError.Memory
            → AreSame (D.state self.old.journal.0) (D.state self.new.journal.0)
            (D.state self.old.checkpoints) (D.state self.new.checkpoints) }
        ensures room { IsShort item.now → SHORT ≤ spare (D.state self.old.journal.0) self.old.journal.1
            → result ≢ Err FileError.Memory }
        ensures spare { OnOk result (IsShort item.now → spare (D.state self.old.journal.0) self.old.journal.1
            ≤ spare (D.state self.new.journal.0) self.new.journal.1 + SHORT) }
    {
        self.journal.recall_count_fits();
        match self.journal.add(item) {
            Ok(()) => {
                self.count += 1;
                Ok(())
            }
            Err(error) => Err(error),
        }
    }

    /// Makes one of them fail at its `call`-th call from now on, with a power cut if there is a pick.
    pub(crate) fn arm(&mut self, disk: DiskName, call: u32, pick: Option<u64>)
        ensures armed { Arms disk call pick (D.state self.old.journal.0) (D.state self.new.journal.0)
            (D.state self.old.checkpoints) (D.state self.new.checkpoints) }
        ensures count { self.new.count ≡ self.old.count }
    {
        match disk {
            DiskName::Journal => self.journal.arm(call, pick),
            DiskName::Checkpoint => self.checkpoints.arm(call, pick),
        }
    }

    /// Cuts the power of both. The pick chooses among what may be left.
    pub(crate) fn cut_power(&mut self, pick: u64)
        ensures journal { IsCut pick (D.state self.old.journal.0) (D.state self.new.journal.0) }
        ensures checkpoints { IsCut pick (D.state self.old.checkpoints) (D.state self.new.checkpoints) }
        ensures count { self.new.count ≡ self.old.count }
    {
        self.journal.power_cut(pick);
        self.checkpoints.power_cut(pick);
    }

    /// Reserves memory for two short records.
    pub(crate) fn reserve(&mut self) -> Mem<()>
        ensures rests { (node : Node)
            → UpOnDisks node self.old.count (D.state self.old.journal.0) (D.state self.old.checkpoints)
            → UpOnDisks node self.new.count (D.state self.new.journal.0) (D.state self.new.checkpoints) }
        ensures same { AreSame (D.state self.old.journal.0) (D.state self.new.journal.0)
            (D.state self.old.checkpoints) (D.state self.new.checkpoints) }
        ensures runs { RunsWithoutOrders ⊥ (D.state self.old.journal.0) (D.state self.new.journal.0)
            (D.state self.old.checkpoints) (D.state self.new.checkpoints) }
        ensures room { OnOk result (SHORT + SHORT ≤ spare (D.state self.new.journal.0) self.new.journal.1) }
    {
        self.journal.reserve(2 * SHORT_RECORD)
    }
}
