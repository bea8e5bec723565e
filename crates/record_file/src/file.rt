// An append-only list of byte records on one disk.
//
// The gate of a new record is closed and synced before anything after it is written, and it is opened only
// after the record is synced. So no checksum is needed: what a crash tears comes after a closed gate.
ghost use Rattle.std.specs.Prelude.{◌≡◌, ◌≢◌, ◌+◌, ◌^◌, ◌<◌, ◌≤◌, List, ℕ, [], ◌∷◌, ◌++◌, All, length, Err, IfErr, IfOk, OnOk, IsErrOf};
ghost use Rattle.rs_disk.specs.File.{contents};
ghost use Rattle.rs_disk.specs.Moments.{EachMoment};
ghost use Rattle.rs_disk.specs.State.{Keeps, IsArmed, IsCut, SameButRoom};
ghost use Rattle.record_file.specs.Files.{IsOpen, IsAtRest, IsBeforeOrAfter, IsOneOf, IsRecordDisk, EndsBy, OpensBy, HasFirst, adding_steps, append_steps, answer_of, disk_after, spare};
ghost use Rattle.record_file.specs.Records.{HasRecords, body, lists};

use crate::FileError;
use crate::adding::{add, add_all};
use crate::opening::prepare;
use rs_disk::Disk;
use std::alloc::{AllocError, Global};
use std::marker::Model;

/// A record file. Contracts see it as its disk and the number of bytes that its buffer can take.
#[derive(Drop)]
pub struct RecordFile<D: Disk> {
    disk: D,
    buffer: Vec<u8>,
}

impl<D: Disk> Model for RecordFile<D> {
    ghost use Rattle.std.specs.Prelude.{ℕ, vec_capacity};

    ghost Value = { D × ℕ };

    ghost view = { λ file. (file.disk, vec_capacity file.buffer) };
}

impl<D: Disk> RecordFile<D> {
    /// A file that `reopen` has yet to open.
    pub fn unopened(alloc: Global, disk: D) -> Self
        ensures { result.0 ≡ disk }
    {
        RecordFile {
            disk,
            buffer: Vec::new(alloc),
        }
    }

    /// Reads the records of a disk that is empty or that a record file left, and repairs its end.
    ///
    /// # Errors
    /// `Disk` where the disk failed. Either error hands the disk back, and opening it may be tried again.
    pub fn open(alloc: Global, disk: D) -> Result<(RecordFile<D>, Vec<Vec<u8>>), (D, FileError)>
        requires { IsRecordDisk (D.state disk) }

        ensures records { IfOk result (λ opened.
            HasRecords (contents (D.state disk).file) (lists opened.1.items)) }
        ensures only { IfOk result (λ opened.
            (records : List (List ℕ)) → HasRecords (contents (D.state disk).file) records
            → lists opened.1.items ≡ records) }
        ensures at_rest { IfOk result (λ opened. IsAtRest (D.state opened.0.0) (lists opened.1.items)) }
        ensures open { IfOk result (λ opened. IsOpen (D.state opened.0.0)) }
        ensures handed_back { IfErr result (λ refused. IsRecordDisk (D.state refused.0)) }
        ensures calls { OpensBy (answer_of result) (D.state disk) (D.state (disk_after result)) }

        // A crash at any moment leaves one of the lists that a crash before the call might have left.
        ensures any_moment { EachMoment (IsOneOf (D.state disk)) (D.state disk)
            (D.state (disk_after result)) }
        ensures keeps { Keeps (IsErrOf (answer_of result) FileError.Disk) (D.state disk)
            (D.state (disk_after result)) }
    {
        let mut file = RecordFile::unopened(alloc, disk);
        match file.reopen() {
            Ok(records) => Ok((file, records)),
            Err(error) => Err((file.close(), error)),
        }
    }

    /// Reads the records of its disk again, even where the file has failed, and repairs its end.
    ///
    /// # Errors
    /// `Disk` where the disk failed. After either error it may be tried again.
    pub fn reopen(&mut self) -> Result<Vec<Vec<u8>>, FileError>
        requires { IsRecordDisk (D.state self.old.0) }

        ensures records { IfOk result (λ read.
            HasRecords (contents (D.state self.old.0).file) (lists read.items)) }
        ensures only { IfOk result (λ read.
            (records : List (List ℕ)) → HasRecords (contents (D.state self.old.0).file) records
            → lists read.items ≡ records) }
        ensures at_rest { IfOk result (λ read. IsAtRest (D.state self.new.0) (lists read.items)) }
        ensures open { OnOk result (IsOpen (D.state self.new.0)) }
        ensures left { IsRecordDisk (D.state self.new.0) }
        ensures calls { OpensBy result (D.state self.old.0) (D.state self.new.0) }

        // A crash at any moment leaves one of the lists that a crash before the call might have left.
        ensures any_moment { EachMoment (IsOneOf (D.state self.old.0)) (D.state self.old.0)
            (D.state self.new.0) }
        ensures keeps { Keeps (IsErrOf result FileError.Disk) (D.state self.old.0) (D.state self.new.0) }
        ensures buffer { self.new.1 ≡ self.old.1 }
    {
        prepare(*self.buffer.allocator(), &mut self.disk)
    }

    /// The length of the file in bytes.
    pub fn len(&self) -> u64
        ensures length { result ≡ length (contents (D.state self.now.0).file) }
        ensures bound { result < 2 ^ 63 }
    {
        self.disk.len()
    }

    /// Adds a record. After `Ok` every crash leaves it.
    ///
    /// # Errors
    /// `Memory` leaves the file as it was. After `Disk` the file has failed, and only `close` is left.
    pub fn append(&mut self, piece: &[u8]) -> Result<(), FileError>
        requires open { IsOpen (D.state self.old.0) }
        requires short { length piece.now < 2 ^ 32 }

        ensures ok { OnOk result ((records : List (List ℕ)) → IsAtRest (D.state self.old.0) records
            → IsAtRest (D.state self.new.0) (records ++ piece.now ∷ [])) }
        ensures memory { result ≡ Err FileError.Memory
            → SameButRoom (D.state self.old.0) (D.state self.new.0) }
        ensures open { OnOk result (IsOpen (D.state self.new.0)) }
        ensures still_open { result ≡ Err FileError.Memory → IsOpen (D.state self.new.0) }
        ensures left { IsRecordDisk (D.state self.new.0) }
        ensures calls { EndsBy result
            (append_steps (length (contents (D.state self.old.0).file)) (body piece.now ++ 0 ∷ []))
            (D.state self.old.0) (D.state self.new.0) }

        // A crash at any moment of the call leaves the records from before it, with or without the new one.
        ensures any_moment { (records : List (List ℕ)) → IsAtRest (D.state self.old.0) records
            → EachMoment (IsBeforeOrAfter records piece.now) (D.state self.old.0) (D.state self.new.0) }
        ensures keeps { Keeps (IsErrOf result FileError.Disk) (D.state self.old.0) (D.state self.new.0) }

        // A record takes 5 bytes more than its length.
        ensures room { length piece.now + 5 ≤ spare (D.state self.old.0) self.old.1
            → result ≢ Err FileError.Memory }
        ensures spare { OnOk result (spare (D.state self.old.0) self.old.1
            ≤ spare (D.state self.new.0) self.new.1 + (length piece.now + 5)) }
    {
        add(&mut self.disk, &mut self.buffer, piece)
    }

    /// Adds records one after the other. After `Ok` every crash leaves all of them.
    ///
    /// # Errors
    /// `Memory` leaves the file as it was: memory for all of them is reserved before the first is added.
    /// After `Disk` the file has failed, and only `close` is left.
    pub fn append_all(&mut self, pieces: &[Vec<u8>]) -> Result<(), FileError>
        requires open { IsOpen (D.state self.old.0) }
        requires short { All (λ piece. length piece.items < 2 ^ 32) pieces.now }

        ensures ok { OnOk result ((records : List (List ℕ)) → IsAtRest (D.state self.old.0) records
            → IsAtRest (D.state self.new.0) (records ++ lists pieces.now)) }
        ensures memory { result ≡ Err FileError.Memory
            → SameButRoom (D.state self.old.0) (D.state self.new.0) }
        ensures open { OnOk result (IsOpen (D.state self.new.0)) }
        ensures still_open { result ≡ Err FileError.Memory → IsOpen (D.state self.new.0) }
        ensures left { IsRecordDisk (D.state self.new.0) }
        ensures calls { EndsBy result
            (adding_steps (length (contents (D.state self.old.0).file)) (lists pieces.now))
            (D.state self.old.0) (D.state self.new.0) }

        // A crash at any moment of the call leaves the records from before it, followed by the first few of
        // the new ones or none.
        ensures any_moment { (records : List (List ℕ)) → IsAtRest (D.state self.old.0) records
            → EachMoment (HasFirst records (lists pieces.now)) (D.state self.old.0) (D.state self.new.0) }
        ensures keeps { Keeps (IsErrOf result FileError.Disk) (D.state self.old.0) (D.state self.new.0) }
    {
        add_all(&mut self.disk, &mut self.buffer, pieces)
    }

    /// Reserves memory for records of `more` bytes together, where each counts as 5 more than its length. Out
    /// of memory leaves the file as it was.
    pub fn reserve(&mut self, more: u64) -> Result<(), AllocError>
        ensures same { SameButRoom (D.state self.old.0) (D.state self.new.0) }
        ensures open { IsOpen (D.state self.old.0) → IsOpen (D.state self.new.0) }
        ensures kept { spare (D.state self.old.0) self.old.1 ≤ spare (D.state self.new.0) self.new.1 }
        ensures room { OnOk result (more ≤ spare (D.state self.new.0) self.new.1) }
    {
        self.disk.reserve(more)?;
        self.buffer.clear();
        self.buffer.reserve(more as usize)
    }

    /// Makes the disk fail at its `call`-th call from now on, with a power cut where there is a pick.
    pub fn arm(&mut self, call: u32, pick: Option<u64>)
        ensures disk { IsArmed call pick (D.state self.old.0) (D.state self.new.0) }
        ensures buffer { self.new.1 ≡ self.old.1 }
        ensures open { IsOpen (D.state self.old.0) → IsOpen (D.state self.new.0) }
    {
        self.disk.arm(call, pick);
    }

    /// Cuts the power of the disk. The pick chooses what is left of what was not synced.
    pub fn power_cut(&mut self, pick: u64)
        ensures disk { IsCut pick (D.state self.old.0) (D.state self.new.0) }
        ensures buffer { self.new.1 ≡ self.old.1 }
        ensures left { IsRecordDisk (D.state self.old.0) → IsRecordDisk (D.state self.new.0) }
    {
        self.disk.power_cut(pick);
    }

    /// Hands the disk back.
    pub fn close(self) -> D
        ensures disk { result ≡ self.0 }
        ensures left { IsOpen (D.state self.0) → IsRecordDisk (D.state result) }
    {
        let RecordFile {
            disk,
            buffer: _buffer,
        } = self;
        disk
    }
}
