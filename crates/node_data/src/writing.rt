// Entries that are written at once, where the log is writable.
ghost use Rattle.std.specs.Prelude.{◌≡◌, ◌⊎◌, ◌-◌, ◌<◌, All, None, Some, IfSome, OnOk, OnErr};
ghost use Rattle.std.specs.FinMap as maps;
ghost use Rattle.entry_bytes.specs.Sizes.{IsWithinEntry};
ghost use Rattle.oplog_entry.specs.Docs.{docs};
ghost use Rattle.oplog_entry.specs.Lawful.{IsLawfulOp, IsSession};
ghost use Rattle.oplog_entry.specs.Step.{place_of, document_after};
ghost use Rattle.oplog_entry.specs.declared.entry.Op.TheVariants.{Noop, Note};
ghost use Rattle.oplog_store.specs.Log.{IsOplog, with_entry};
ghost use Rattle.optime_slots.specs.Reserved.{with_seen};
ghost use Rattle.set_model.specs.Changes.{logged_at};
ghost use Rattle.set_model.specs.Holds.{holder};
ghost use Rattle.set_model.specs.declared.role.Role.TheVariants.{Primary};
ghost use Rattle.node_data.specs.NodeData.{IsNext};
ghost use Rattle.node_data.specs.Versions.{IsSmall};

use crate::NodeData;
use crate::session_log::SessionLog;
use bson_doc::{Doc, IdKey, Mem, Text};
use oplog_entry::{Entry, Op, Session, SharedOp};
use optime_slots::Slots;
use rs_optime::OpTime;

/// Writes an entry after all others, in the room that there is.
fn append(log: &mut SessionLog, slots: &mut Slots, entry: Entry)
    requires room { 0 < log.old.spare }
    requires stays { IsOplog (with_entry log.old.entries entry) }
    requires newest { All (λ other. other.optime.ts < entry.optime.ts) log.old.entries }
    ensures entries { log.new.entries ≡ with_entry log.old.entries entry }
    ensures spare { log.new.spare ≡ log.old.spare - 1 }
    ensures slots { slots.new ≡ with_seen slots.old entry.optime.ts }
{
    let ts = entry.optime.ts;
    log.insert(entry);
    slots.seen(ts);
}

impl NodeData {
    /// Writes an entry past all others, for a document that no writer holds. `after` is what the op leaves of
    /// the document, and `session` is the session's write, if the entry is one. Out of memory leaves all as
    /// it was.
    pub fn write(
        &mut self,
        at: OpTime,
        ns: Text,
        id: IdKey,
        op: Op,
        after: Option<Doc>,
        session: Option<Session>,
    ) -> Mem<()>
        requires role { self.old.node.role ≡ Primary }
        requires next { IsNext self.old.node.log self.old.node.slots self.old.node.seen at }
        requires free { holder self.old.node (ns, id) ≡ None }
        requires lawful { IsLawfulOp op }
        requires session { IfSome session IsSession }
        requires within { IsWithinEntry (record {
          optime = at;
          op = op;
          session = session;
        }) }
        requires place { place_of op ≡ Some (ns, id) }
        requires left { after ≡ document_after op (maps.get (docs self.old.node.log) (ns, id)) }
        requires small { IsSmall after }
        ensures ok { OnOk result (self.new.node ≡ logged_at at self.old.node op session) }
        ensures err { OnErr result (self.new.node ≡ self.old.node) }
    {
        self.log.reserve(1)?;
        let op = SharedOp::new(self.alloc, op)?;
        self.store.put(ns, id, at, after)?;
        let entry = Entry {
            optime: at,
            op,
            session,
        };
        append(&mut self.log, &mut self.slots, entry);
        Ok(())
    }

    /// Writes a no-op after all other entries, in the room that `reserve` made.
    pub fn append_noop(&mut self, at: OpTime)
        requires role { self.old.node.role ≡ Primary }
        requires next { IsNext self.old.node.log self.old.node.slots self.old.node.seen at }
        requires spare { 0 < self.old.spare }
        ensures { self.new
            ≡ record { node = logged_at at self.old.node Noop None; spare = self.old.spare - 1 } }
    {
        self.append_idle(at, SharedOp::noop());
    }

    /// Writes a note after all other entries. Out of memory leaves everything as it was.
    pub fn write_note(&mut self, at: OpTime) -> Mem<()>
        requires role { self.old.node.role ≡ Primary }
        requires next { IsNext self.old.node.log self.old.node.slots self.old.node.seen at }
        ensures ok { OnOk result (self.new.node ≡ logged_at at self.old.node Note None) }
        ensures err { OnErr result (self.new.node ≡ self.old.node) }
    {
        self.log.reserve(1)?;
        let op = SharedOp::new(self.alloc, Op::Note)?;
        self.append_idle(at, op);
        Ok(())
    }

    /// Writes an entry that touches no document, after all others.
    fn append_idle(&mut self, at: OpTime, op: SharedOp)
        requires role { self.old.node.role ≡ Primary }
        requires next { IsNext self.old.node.log self.old.node.slots self.old.node.seen at }
        requires spare { 0 < self.old.spare }
        requires idle { (op ≡ Noop) ⊎ (op ≡ Note) }
        ensures { self.new
            ≡ record { node = logged_at at self.old.node op None; spare = self.old.spare - 1 } }
    {
        let entry = Entry {
            optime: at,
            op,
            session: None,
        };
        append(&mut self.log, &mut self.slots, entry);
    }
}
