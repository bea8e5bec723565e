// What a node has written and will write, and the documents that result from its log.
ghost use Rattle.std.specs.Prelude.{◌≡◌, ◌≤◌, IfOk, OnOk};
ghost use Rattle.std.specs.Option.{option_copied};
ghost use Rattle.std.specs.FinMap as maps;
ghost use Rattle.set_model.specs.Node.{opening_node};
ghost use Rattle.set_model.specs.Points.{applied_point, last_point, visible_point};
ghost use Rattle.set_model.specs.Sessions.{last_write};
ghost use Rattle.node_data.specs.Kept.{AreApart};
ghost use Rattle.node_data.specs.NodeData.{nobody};
ghost use Rattle.node_data.specs.Sound.{IsSound};
ghost use Rattle.node_data.specs.Writers.{is_open};

use crate::session_log::SessionLog;
use crate::writer_map::WriterMap;
use bson_doc::Mem;
use optime_slots::Slots;
use rs_optime::OpTime;
use set_model::{LastWrite, Writer};
use std::alloc::Global;
use std::marker::Model;
use version_store::VersionStore;
use visibility_point::visible_open;

/// How many shards the documents are spread over.
pub(crate) const SHARDS: u32 = 64;

/// The log of a node, the open slots with their writers, and the documents. It is writable on a primary, and
/// otherwise follows what other nodes wrote.
///
/// The documents are those of the whole log where that is writable. Otherwise they are those of the log as
/// far as it is applied, and no slot is open.
#[derive(Drop)]
pub struct NodeData {
    pub(crate) alloc: Global,
    pub(crate) writable: bool,
    pub(crate) log: SessionLog,
    pub(crate) slots: Slots,
    pub(crate) writers: WriterMap,
    pub(crate) store: VersionStore,
    pub(crate) applied: OpTime,
    pub(crate) stable: OpTime,
}

impl Model for NodeData {
    ghost use Rattle.std.specs.Coded.{codes};
    ghost use Rattle.bson_doc.specs.Code.{fields_code};
    ghost use Rattle.rs_optime.specs.Order.{optime_code};
    ghost use Rattle.oplog_entry.specs.contracts.entry.Entry as entry;
    ghost use Rattle.bson_doc.specs.contracts.key.IdKey as key;
    ghost use Rattle.member_config.specs.contracts.config.Config as config;
    ghost use Rattle.repl_msg.specs.contracts.record.Record as record_kept;
    ghost use Rattle.set_model.specs.contracts.store.Store as stored_item;
    ghost use Rattle.node_data.specs.Code.{writers_code, slots_code, progress_code, known_code, tally_code};
    ghost use Rattle.node_data.specs.NodeData.{NodeData as Seen, data_node};

    ghost Value = { Seen };

    ghost coded = { Prim.hlevel (
      codes,
      fields_code,
      optime_code,
      key.the_row.coded,
      entry.the_row.coded,
      config.the_row.coded,
      record_kept.the_row.coded,
      stored_item.the_row.coded,
      writers_code,
      slots_code,
      progress_code,
      known_code,
      tally_code,
    ) };

    ghost use Rattle.node_data.specs.Kept.{IsKept};

    ghost view = { λ d. record {
      node = data_node d.writable d.log.entries d.slots.slots d.writers d.slots.mark d.applied d.stable;
      spare = d.log.spare;
    } };

    ghost invariant = { λ d. IsKept (data_node d.writable d.log.entries d.slots.slots d.writers d.slots.mark
        d.applied d.stable) d.store };
}

impl NodeData {
    /// The data of a node that has written nothing yet, and follows. The only error is out of memory.
    pub fn new(alloc: Global) -> Mem<Self>
        ensures { IfOk result (λ made. made.node ≡ opening_node nobody 0) }
    {
        Ok(NodeData {
            alloc,
            writable: false,
            log: SessionLog::new(alloc),
            slots: Slots::new(alloc),
            writers: WriterMap::new(alloc),
            store: VersionStore::new(alloc, SHARDS)?,
            applied: OpTime::ZERO,
            stable: OpTime::ZERO,
        })
    }

    /// The log is in order and lawful, and no two writers hold the same document: facts for callers' proofs,
    /// which cost nothing.
    pub fn recall_sound(&self)
        ensures node { IsSound self.now.node }
        ensures writers { AreApart self.now.node }
    {
        let _ = &self.writable;
    }

    /// How far a log that isn't writable is applied. While the log is writable, this stays where it was
    /// before; see `applied_point`.
    pub fn applied(&self) -> OpTime
        ensures { result ≡ self.now.node.applied }
    {
        self.applied
    }

    /// The optime of the checkpoint's documents. No read may go back further.
    pub fn stable(&self) -> OpTime
        ensures { result ≡ self.now.node.stable }
    {
        self.stable
    }

    /// How far the log is applied; where it is writable, how far it is visible.
    pub fn applied_point(&self) -> OpTime
        ensures { result ≡ applied_point self.now.node }
    {
        if self.writable {
            self.visible()
        } else {
            self.applied
        }
    }

    /// The optime of the last entry, or ZERO.
    pub fn last(&self) -> OpTime
        ensures { result ≡ last_point self.now.node }
    {
        self.log.written().last()
    }

    /// The optime of the last entry before the earliest open slot, or ZERO.
    pub fn visible(&self) -> OpTime
        ensures { result ≡ visible_point self.now.node }
    {
        visible_open(&self.slots, self.log.written())
    }

    /// The greatest timestamp seen.
    pub fn seen(&self) -> u64
        ensures { result ≡ self.now.node.seen }
    {
        self.slots.mark()
    }

    /// The writer of this number, as its last step left it, or none where no writer has the number.
    pub fn writer(&self, number: u32) -> Option<&Writer>
        ensures { option_copied result ≡ maps.get self.now.node.writers number }
    {
        self.writers.get(number)
    }

    /// Whether a writer has an open slot.
    pub fn is_writing(&self, number: u32) -> bool
        ensures { result ≡ is_open (maps.get self.now.node.writers number) }
    {
        match self.writers.get(number) {
            Some(Writer::Open { .. }) => true,
            Some(Writer::Done(_) | Writer::Lost(_)) | None => false,
        }
    }

    /// The last write of a session in the log: the greatest number, and the optime of its entry.
    pub fn last_write(&mut self, id: u32) -> Option<LastWrite>
        ensures last { result ≡ last_write id self.old.node.log }
        ensures same { self.new ≡ self.old }
    {
        self.log.last_write(id)
    }

    /// Reserves memory for `more` entries, which are then written without taking any. Out of memory changes
    /// nothing but how much is reserved.
    pub fn reserve(&mut self, more: usize) -> Mem<()>
        ensures node { self.new.node ≡ self.old.node }
        ensures ok { OnOk result (more ≤ self.new.spare) }
        ensures never_less { self.old.spare ≤ self.new.spare }
    {
        self.log.reserve(more)
    }
}
