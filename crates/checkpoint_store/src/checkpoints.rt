ghost use Rattle.std.specs.Prelude.{◌≡◌, ◌≢◌, List, ◌++◌, Err, IfErr, IfOk, OnOk, IsErrOf, length, map};
ghost use Rattle.rs_disk.specs.File.{contents};
ghost use Rattle.rs_disk.specs.Moments.{EachMoment};
ghost use Rattle.rs_disk.specs.State.{Keeps, IsArmed, IsCut, SameButRoom};
ghost use Rattle.record_file.specs.Files.{EndsBy, OpensBy, adding_steps, answer_of};
ghost use Rattle.oplog_entry.specs.Docs.{Documents};
ghost use Rattle.checkpoint_store.specs.Checkpoint.{checkpoint};
ghost use Rattle.checkpoint_store.specs.Files.{HasCheckpoint, IsAtRest, IsBeforeOrAfter, IsCheckpointDisk, IsOneOf, IsOpen, IsAtRestWith, disk_after};
ghost use Rattle.checkpoint_store.specs.Layout.{Record as ARecord, record_bytes};
ghost use Rattle.checkpoint_store.specs.Shown.{AllCanBeSaved, Shows};
ghost use Rattle.checkpoint_store.specs.declared.stable.Stable.{Stable as AStable};

use crate::Stable;
use crate::fold::stable_of;
use crate::saving::checkpoint_records;
use record_file::{FileError, RecordFile};
use rs_disk::Disk;
use rs_optime::OpTime;
use std::alloc::Global;
use std::marker::Model;
use version_store::VersionStore;

/// The checkpoints of a node on one disk. Contracts see it as its disk.
#[derive(Drop)]
pub struct Checkpoints<D: Disk> {
    alloc: Global,
    file: RecordFile<D>,
}

impl<D: Disk> Model for Checkpoints<D> {
    ghost Value = { D };

    ghost view = { λ checkpoints. checkpoints.file.0 };
}

impl<D: Disk> Checkpoints<D> {
    /// Reads the last whole checkpoint of a disk: no documents as of `OpTime::ZERO` where there is no
    /// checkpoint. The disk is empty, or a checkpoint store left it.
    ///
    /// # Errors
    /// `Disk` where the disk failed. Either error hands the disk back, and opening it may be tried again.
    pub fn open(alloc: Global, disk: D) -> Result<(Checkpoints<D>, Stable), (D, FileError)>
        requires { IsCheckpointDisk (D.state disk) }

        ensures stable { IfOk result (λ opened. HasCheckpoint (contents (D.state disk).file) opened.1) }
        ensures at_rest { IfOk result (λ opened. IsAtRest (D.state opened.0) opened.1) }
        ensures open { IfOk result (λ opened. IsOpen (D.state opened.0)) }
        ensures handed_back { IfErr result (λ refused. IsCheckpointDisk (D.state refused.0)) }

        ensures calls { OpensBy (answer_of result) (D.state disk) (D.state (disk_after result)) }

        // A crash at any moment leaves a checkpoint that a crash before the call might have left.
        ensures any_moment { EachMoment (IsOneOf (D.state disk)) (D.state disk)
            (D.state (disk_after result)) }
        ensures keeps { Keeps (IsErrOf (answer_of result) FileError.Disk)
            (D.state disk) (D.state (disk_after result)) }
    {
        let mut checkpoints = Checkpoints {
            alloc,
            file: RecordFile::unopened(alloc, disk),
        };
        match checkpoints.reopen() {
            Ok(stable) => Ok((checkpoints, stable)),
            Err(error) => Err((checkpoints.close(), error)),
        }
    }

    /// Reads the last whole checkpoint of its disk again, even where the store has failed.
    ///
    /// # Errors
    /// `Disk` where the disk failed. After either error it may be tried again.
    pub fn reopen(&mut self) -> Result<Stable, FileError>
        requires { IsCheckpointDisk (D.state self.old) }

        ensures stable { IfOk result (λ stable. HasCheckpoint (contents (D.state self.old).file) stable) }
        ensures at_rest { IfOk result (λ stable. IsAtRest (D.state self.new) stable) }
        ensures open { OnOk result (IsOpen (D.state self.new)) }
        ensures left { IsCheckpointDisk (D.state self.new) }
        ensures calls { OpensBy result (D.state self.old) (D.state self.new) }

        // A crash at any moment leaves a checkpoint that a crash before the call might have left.
        ensures any_moment { EachMoment (IsOneOf (D.state self.old)) (D.state self.old) (D.state self.new) }
        ensures keeps { Keeps (IsErrOf result FileError.Disk) (D.state self.old) (D.state self.new) }
    {
        let pieces = self.file.reopen()?;
        Ok(stable_of(self.alloc, &pieces)?)
    }

    /// Saves the documents that a store shows as of an optime. After `Ok` every crash leaves them.
    ///
    /// # Errors
    /// `Memory` leaves the file as it was: memory for the whole checkpoint is reserved before its first
    /// record is added. After `Disk` the store has failed, and only `close` is left.
    pub fn save(&mut self, at: OpTime, store: &VersionStore) -> Result<(), FileError>
        requires open { IsOpen (D.state self.old) }
        requires can { AllCanBeSaved store.now at }

        ensures ok { OnOk result ((documents : Documents) → Shows store.now at documents
            → (stable : AStable) → IsAtRest (D.state self.old) stable
            → IsAtRest (D.state self.new) (record { at = at; documents = documents })) }
        ensures records { OnOk result ((documents : Documents) → Shows store.now at documents
            → (records : List ARecord) → IsAtRestWith (D.state self.old) records
            → IsAtRestWith (D.state self.new)
            (records ++ checkpoint (record { at = at; documents = documents }))) }
        ensures shows { result ≢ Err FileError.Memory
            → (documents : Documents) × Shows store.now at documents }
        ensures memory { result ≡ Err FileError.Memory → SameButRoom (D.state self.old) (D.state self.new) }
        ensures open { OnOk result (IsOpen (D.state self.new)) }
        ensures still_open { result ≡ Err FileError.Memory → IsOpen (D.state self.new) }
        ensures left { IsCheckpointDisk (D.state self.new) }
        ensures calls { (documents : Documents) → Shows store.now at documents → EndsBy result
            (adding_steps (length (contents (D.state self.old).file))
            (map record_bytes (checkpoint (record { at = at; documents = documents }))))
            (D.state self.old) (D.state self.new) }

        // A crash at any moment of the call leaves the last whole checkpoint from before it, or the new one.
        ensures any_moment { (documents : Documents) → Shows store.now at documents
            → (stable : AStable) → IsAtRest (D.state self.old) stable
            → EachMoment (IsBeforeOrAfter stable (record { at = at; documents = documents }))
            (D.state self.old) (D.state self.new) }
        ensures keeps { Keeps (IsErrOf result FileError.Disk) (D.state self.old) (D.state self.new) }
    {
        let records = checkpoint_records(self.alloc, store, at)?;
        self.file.append_all(&records)
    }

    /// Makes the disk fail at its `call`-th call from now on, with a power cut where there is a pick.
    pub fn arm(&mut self, call: u32, pick: Option<u64>)
        ensures disk { IsArmed call pick (D.state self.old) (D.state self.new) }
        ensures open { IsOpen (D.state self.old) → IsOpen (D.state self.new) }
    {
        self.file.arm(call, pick);
    }

    /// Cuts the power of the disk. The pick chooses what is left.
    pub fn power_cut(&mut self, pick: u64)
        ensures disk { IsCut pick (D.state self.old) (D.state self.new) }
        ensures left { IsCheckpointDisk (D.state self.old) → IsCheckpointDisk (D.state self.new) }
    {
        self.file.power_cut(pick);
    }

    /// Hands the disk back.
    pub fn close(self) -> D
        ensures disk { result ≡ self }
        ensures left { IsOpen (D.state self) → IsCheckpointDisk (D.state result) }
    {
        let Checkpoints { file, .. } = self;
        file.close()
    }
}
