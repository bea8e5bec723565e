ghost use Rattle.std.specs.Prelude.{◌≡◌, ◌≢◌, ◌+◌, ◌^◌, ◌<◌, ◌≤◌, List, ◌∷◌, [], ◌++◌, length, Err, IfErr, IfOk, OnOk, IsErrOf};
ghost use Rattle.rs_disk.specs.File.{contents};
ghost use Rattle.rs_disk.specs.Moments.{EachMoment};
ghost use Rattle.rs_disk.specs.State.{Keeps, IsArmed, IsCut, SameButRoom};
ghost use Rattle.record_file.specs.Files.{EndsBy, OpensBy, answer_of, append_steps, disk_after, spare};
ghost use Rattle.record_file.specs.Records.{body};
ghost use Rattle.repl_msg.specs.declared.record.Record.{Record as ARecord};
ghost use Rattle.repl_msg.specs.Kept.{kept};
ghost use Rattle.node_journal.specs.Bounds.{CanBeKept};
ghost use Rattle.node_journal.specs.Files.{AddsForm, HasJournal, IsAtRest, IsBeforeOrAfter, IsJournalDisk, IsKeptOf, IsOneOf, IsOneOfRenewed, IsOpen, IsThemOrRenewed, OpensInForm};
ghost use Rattle.node_journal.specs.Layout.{record_bytes};
ghost use Rattle.node_journal.specs.Renewed.{is_first, renewed};
ghost use Rattle.node_journal.specs.Room.{IsShort};

use crate::fold::{kept_of, with_form};
use crate::writing::lay;
use record_file::{FileError, RecordFile};
use repl_msg::{FIRST_FORM, Kept, NEWEST_FORM, Record};
use rs_disk::Disk;
use rs_optime::Mem;
use std::alloc::Global;
use std::marker::Model;

/// The journal of a node on one disk. Contracts see it as its disk and the number of bytes that its
/// buffers can take.
#[derive(Drop)]
pub struct Journal<D: Disk> {
    file: RecordFile<D>,
    buffer: Vec<u8>,
}

impl<D: Disk> Model for Journal<D> {
    ghost use Rattle.std.specs.Prelude.{ℕ, min, vec_capacity};

    ghost Value = { D × ℕ };

    ghost view = { λ journal. (journal.file.0, min journal.file.1 (vec_capacity journal.buffer)) };
}

impl<D: Disk> Journal<D> {
    /// Reads the journal on a disk. The disk is empty, or a journal left it. A journal of the first form gets
    /// a record of the newest form at its end before it is open.
    ///
    /// # Errors
    /// `Disk` where the disk failed. Either error hands the disk back, and opening it may be tried again.
    pub fn open(alloc: Global, disk: D) -> Result<(Journal<D>, Kept), (D, FileError)>
        requires { IsJournalDisk (D.state disk) }

        ensures kept { IfOk result (λ opened.
            (records : List ARecord) → HasJournal (contents (D.state disk).file) records
            → opened.1 ≡ kept (renewed records)) }
        ensures at_rest { IfOk result (λ opened.
            (records : List ARecord) → HasJournal (contents (D.state disk).file) records
            → IsAtRest (D.state opened.0.0) (renewed records)) }
        ensures open { IfOk result (λ opened. IsOpen (D.state opened.0.0)) }
        ensures handed_back { IfErr result (λ refused. IsJournalDisk (D.state refused.0)) }
        ensures calls { (records : List ARecord) → HasJournal (contents (D.state disk).file) records
            → OpensInForm (is_first records) (answer_of result) (D.state disk)
            (D.state (disk_after result)) }

        // A crash at any moment leaves records that a crash before the call might have left, as they were or
        // in the newest form.
        ensures any_moment { EachMoment (IsOneOfRenewed (D.state disk)) (D.state disk)
            (D.state (disk_after result)) }
        ensures keeps { Keeps (IsErrOf (answer_of result) FileError.Disk) (D.state disk)
            (D.state (disk_after result)) }
    {
        let mut journal = Journal {
            file: RecordFile::unopened(alloc, disk),
            buffer: Vec::new(alloc),
        };
        match journal.open_renewed() {
            Ok(kept) => Ok((journal, kept)),
            Err(error) => Err((journal.close(), error)),
        }
    }

    // Reads the journal on its disk, with the records brought to the newest form.
    fn open_renewed(&mut self) -> Result<Kept, FileError>
        requires { IsJournalDisk (D.state self.old.0) }
        ensures kept { IfOk result (λ read.
            (records : List ARecord) → HasJournal (contents (D.state self.old.0).file) records
            → read ≡ kept (renewed records)) }
        ensures at_rest { OnOk result
            ((records : List ARecord) → HasJournal (contents (D.state self.old.0).file) records
            → IsAtRest (D.state self.new.0) (renewed records)) }
        ensures open { OnOk result (IsOpen (D.state self.new.0)) }
        ensures left { IsJournalDisk (D.state self.new.0) }
        ensures calls { (records : List ARecord) → HasJournal (contents (D.state self.old.0).file) records
            → OpensInForm (is_first records) result (D.state self.old.0) (D.state self.new.0) }
        ensures any_moment { EachMoment (IsOneOfRenewed (D.state self.old.0)) (D.state self.old.0)
            (D.state self.new.0) }
        ensures keeps { Keeps (IsErrOf result FileError.Disk) (D.state self.old.0) (D.state self.new.0) }
    {
        let read = self.reopen()?;
        self.renew(read)
    }

    // Adds the newest form after records of the first one.
    fn renew(&mut self, read: Kept) -> Result<Kept, FileError>
        requires open { IsOpen (D.state self.old.0) }
        requires read { IsKeptOf read (D.state self.old.0) }
        ensures kept { IfOk result (λ found.
            (records : List ARecord) → IsAtRest (D.state self.old.0) records
            → found ≡ kept (renewed records)) }
        ensures at_rest { OnOk result ((records : List ARecord) → IsAtRest (D.state self.old.0) records
            → IsAtRest (D.state self.new.0) (renewed records)) }
        ensures open { OnOk result (IsOpen (D.state self.new.0)) }
        ensures left { IsJournalDisk (D.state self.new.0) }
        ensures calls { (records : List ARecord) → IsAtRest (D.state self.old.0) records
            → AddsForm (is_first records) result (D.state self.old.0) (D.state self.new.0) }
        ensures any_moment { (records : List ARecord) → IsAtRest (D.state self.old.0) records
            → EachMoment (IsThemOrRenewed records) (D.state self.old.0) (D.state self.new.0) }
        ensures keeps { Keeps (IsErrOf result FileError.Disk) (D.state self.old.0) (D.state self.new.0) }
    {
        if read.form != FIRST_FORM {
            return Ok(read);
        }
        self.recall_count_fits();
        self.add(&Record::Form(NEWEST_FORM))?;
        Ok(with_form(read, NEWEST_FORM))
    }

    /// Reads the journal on its disk again, even where it has failed.
    ///
    /// # Errors
    /// `Disk` where the disk failed. After either error it may be tried again.
    pub fn reopen(&mut self) -> Result<Kept, FileError>
        requires { IsJournalDisk (D.state self.old.0) }

        ensures kept { IfOk result (λ read.
            (records : List ARecord) → HasJournal (contents (D.state self.old.0).file) records
            → read ≡ kept records) }
        ensures at_rest { OnOk result
            ((records : List ARecord) → HasJournal (contents (D.state self.old.0).file) records
            → IsAtRest (D.state self.new.0) records) }
        ensures open { OnOk result (IsOpen (D.state self.new.0)) }
        ensures left { IsJournalDisk (D.state self.new.0) }
        ensures calls { OpensBy result (D.state self.old.0) (D.state self.new.0) }

        // A crash at any moment leaves records that a crash before the call might have left.
        ensures any_moment { EachMoment (IsOneOf (D.state self.old.0)) (D.state self.old.0)
            (D.state self.new.0) }
        ensures keeps { Keeps (IsErrOf result FileError.Disk) (D.state self.old.0) (D.state self.new.0) }
        ensures room { self.new.1 ≡ self.old.1 }
    {
        let pieces = self.file.reopen()?;
        Ok(kept_of(*self.buffer.allocator(), &pieces)?)
    }

    /// Adds a record: a vote for anyone but 4,294,967,295, a configuration of at most 50 members, at most
    /// 2,000 entries, each within the bounds of an entry, a cut or a form. After `Ok` every crash leaves it.
    ///
    /// # Errors
    /// `Memory` leaves the journal as it was. After `Disk` it has failed, and only `close` is left.
    pub fn add(&mut self, item: &Record) -> Result<(), FileError>
        requires open { IsOpen (D.state self.old.0) }
        requires bounds { CanBeKept item.now }

        ensures ok { OnOk result ((records : List ARecord) → IsAtRest (D.state self.old.0) records
            → IsAtRest (D.state self.new.0) (records ++ item.now ∷ [])) }
        ensures open { OnOk result (IsOpen (D.state self.new.0)) }
        ensures memory { result ≡ Err FileError.Memory
            → SameButRoom (D.state self.old.0) (D.state self.new.0) }
        ensures still_open { result ≡ Err FileError.Memory → IsOpen (D.state self.new.0) }
        ensures left { IsJournalDisk (D.state self.new.0) }
        ensures calls { EndsBy result
            (append_steps (length (contents (D.state self.old.0).file))
            (body (record_bytes item.now) ++ 0 ∷ [])) (D.state self.old.0) (D.state self.new.0) }

        // A crash at any moment of the call leaves the records from before it, with or without the new one.
        ensures any_moment { (records : List ARecord) → IsAtRest (D.state self.old.0) records
            → EachMoment (IsBeforeOrAfter records item.now) (D.state self.old.0) (D.state self.new.0) }
        ensures keeps { Keeps (IsErrOf result FileError.Disk) (D.state self.old.0) (D.state self.new.0) }

        // A record without entries takes 5 bytes more than its length of what was reserved.
        ensures room { IsShort item.now
            → length (record_bytes item.now) + 5 ≤ spare (D.state self.old.0) self.old.1
            → result ≢ Err FileError.Memory }
        ensures spare { OnOk result (spare (D.state self.old.0) self.old.1
            ≤ spare (D.state self.new.0) self.new.1 + (length (record_bytes item.now) + 5)) }
    {
        lay(&mut self.buffer, item)?;
        self.file.append(&self.buffer)
    }

    /// There are fewer than 2^63 records: a fact for proofs of callers that count them, which costs nothing.
    pub fn recall_count_fits(&self)
        ensures { (records : List ARecord) → IsAtRest (D.state self.now.0) records → length records < 2 ^ 63 }
    {
        let _len = self.file.len();
    }

    /// Reserves memory for records without entries that have `more` bytes together, counting 5
    /// extra for each.
    pub fn reserve(&mut self, more: u64) -> Mem<()>
        ensures same { SameButRoom (D.state self.old.0) (D.state self.new.0) }
        ensures open { IsOpen (D.state self.old.0) → IsOpen (D.state self.new.0) }
        ensures kept { spare (D.state self.old.0) self.old.1 ≤ spare (D.state self.new.0) self.new.1 }
        ensures room { OnOk result (more ≤ spare (D.state self.new.0) self.new.1) }
    {
        self.file.reserve(more)?;
        self.buffer.clear();
        self.buffer.reserve(more as usize)
    }

    /// Makes the disk fail at its `call`-th call from now on, with a power cut where there is a pick.
    pub fn arm(&mut self, call: u32, pick: Option<u64>)
        ensures disk { IsArmed call pick (D.state self.old.0) (D.state self.new.0) }
        ensures room { self.new.1 ≡ self.old.1 }
        ensures open { IsOpen (D.state self.old.0) → IsOpen (D.state self.new.0) }
    {
        self.file.arm(call, pick);
    }

    /// Cuts the power of the disk. The pick chooses what is left of what was not synced.
    pub fn power_cut(&mut self, pick: u64)
        ensures disk { IsCut pick (D.state self.old.0) (D.state self.new.0) }
        ensures room { self.new.1 ≡ self.old.1 }
        ensures left { IsJournalDisk (D.state self.old.0) → IsJournalDisk (D.state self.new.0) }
    {
        self.file.power_cut(pick);
    }

    /// Hands the disk back.
    pub fn close(self) -> D
        ensures disk { result ≡ self.0 }
        ensures left { IsOpen (D.state self.0) → IsJournalDisk (D.state result) }
    {
        let Journal {
            file,
            buffer: _buffer,
        } = self;
        file.close()
    }
}
