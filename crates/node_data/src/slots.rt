// Entries that writers write in two steps, where the log is writable.
ghost use Rattle.std.specs.Prelude.{◌≡◌, ◌<◌, None, Some, IfOk, OnOk, OnErr};
ghost use Rattle.std.specs.FinMap as maps;
ghost use Rattle.entry_bytes.specs.Sizes.{IsWithinEntry};
ghost use Rattle.rs_optime.specs.declared.optime.OpTime.{OpTime};
ghost use Rattle.oplog_entry.specs.declared.entry.Op.{Op};
ghost use Rattle.oplog_entry.specs.Docs.{docs};
ghost use Rattle.oplog_entry.specs.Lawful.{IsLawfulOp};
ghost use Rattle.oplog_entry.specs.Step.{place_of, document_after};
ghost use Rattle.bson_doc.specs.Place.{Place};
ghost use Rattle.optime_slots.specs.Reserved.{opened as opened_slot};
ghost use Rattle.version_store.specs.Past.{held_by};
ghost use Rattle.version_store.specs.Store.{past_at, holder_at, Changes};
ghost use Rattle.set_model.specs.Changes.{opened_at};
ghost use Rattle.set_model.specs.Holds.{holder};
ghost use Rattle.set_model.specs.Writers.{settled, aborted};
ghost use Rattle.set_model.specs.declared.role.Role.TheVariants.{Primary};
ghost use Rattle.node_data.specs.NodeData.{IsNext};
ghost use Rattle.node_data.specs.Versions.{IsSmall};
ghost use Rattle.node_data.specs.Writers.{HasOpen, IsWriting};

use crate::NodeData;
use crate::writer_map::Held;
use bson_doc::{Doc, IdKey, Mem, Text};
use doc_fold::document_after;
use oplog_entry::{Entry, Op, SharedOp};
use optime_slots::Slots;
use rs_optime::OpTime;
use set_model::Writer;
use std::alloc::AllocError;
use version_store::{HoldError, VersionStore};

/// Lets a writer hold a document that nobody holds, and opens a slot.
fn hold(
    store: &mut VersionStore,
    slots: &mut Slots,
    ns: &str,
    id: &IdKey,
    number: u32,
    at: OpTime,
) -> Mem<()>
    requires past { slots.old.mark < at.ts }
    requires free { holder_at store.old (ns.now, id.now) ≡ None }
    ensures slot { OnOk result (slots.new ≡ opened_slot slots.old at) }
    ensures held { OnOk result (Changes store.old store.new (ns.now, id.now)
        (held_by (past_at store.old (ns.now, id.now)) (Some number))) }
    ensures no_slot { OnErr result (slots.new ≡ slots.old) }
    ensures count { store.new.count ≡ store.old.count }
    ensures not_held { OnErr result ((place : Place) → past_at store.new place ≡ past_at store.old place) }
{
    match store.hold(ns, id, number) {
        Ok(()) => {}
        Err(HoldError::Memory) => return Err(AllocError),
        Err(HoldError::Held(_)) => unreachable!(),
    }
    if let Err(error) = slots.open(at) {
        store.release(ns, id);
        return Err(error);
    }
    Ok(())
}

/// The slot of a writer, and the place of its document.
#[derive(Drop)]
struct Slot {
    at: OpTime,
    ns: Text,
    id: IdKey,
}

impl NodeData {
    /// Opens a slot after all entries for a writer's op, whose document no writer holds. The writer then
    /// holds the document. Out of memory leaves everything as it was.
    pub fn open(&mut self, at: OpTime, number: u32, ns: &str, id: &IdKey, op: Op) -> Mem<()>
        requires role { self.old.node.role ≡ Primary }
        requires next { IsNext self.old.node.log self.old.node.slots self.old.node.seen at }
        requires free { holder self.old.node (ns.now, id.now) ≡ None }
        requires closed { ¬ IsWriting self.old.node.writers number }
        requires lawful { IsLawfulOp op }
        requires within { IsWithinEntry (record {
          optime = at;
          op = op;
          session = None;
        }) }
        requires place { place_of op ≡ Some (ns.now, id.now) }
        requires small { IsSmall (document_after op (maps.get (docs self.old.node.log) (ns.now, id.now))) }
        ensures ok { OnOk result (self.new.node ≡ opened_at at self.old.node number op) }
        ensures err { OnErr result (self.new.node ≡ self.old.node) }
    {
        let Some(place) = op.key()? else {
            unreachable!()
        };
        let op = SharedOp::new(self.alloc, op)?;
        let old = self.writers.insert(number, Held::open(at, op, place))?;
        if let Err(error) = hold(&mut self.store, &mut self.slots, ns, id, number, at) {
            self.writers.put_back(number, old);
            return Err(error);
        }
        self.log.open(at);
        Ok(())
    }

    /// Writes a writer's entry at its slot, closes the slot, and returns its optime. The writer no longer
    /// holds its document. Out of memory leaves everything as it was.
    pub fn settle(&mut self, number: u32) -> Mem<OpTime>
        requires { IsWriting self.old.node.writers number }
        ensures ok { IfOk result (λ at. (op : Op) × HasOpen self.old.node.writers number at op
            × (self.new.node ≡ settled self.old.node number at op)) }
        ensures err { OnErr result (self.new.node ≡ self.old.node) }
    {
        let slot = self.slot(number)?;
        let after = self.after(number, &slot.ns, &slot.id)?;
        self.log.reserve(1)?;
        self.store
            .put(slot.ns.copy()?, slot.id.copy()?, slot.at, after)?;
        let op = self.writers.finish(number, slot.at);
        self.log.insert(Entry {
            optime: slot.at,
            op,
            session: None,
        });
        let _ = self.slots.settle(slot.at);
        self.store.release(slot.ns.as_str(), &slot.id);
        Ok(slot.at)
    }

    /// Aborts a writer: its slot is closed without an entry, its document is free again, and its number
    /// may be reused.
    pub fn abort(&mut self, number: u32)
        requires { IsWriting self.old.node.writers number }
        ensures node { (at : OpTime) × (op : Op) × HasOpen self.old.node.writers number at op
            × (self.new.node ≡ aborted self.old.node number at) }
        ensures spare { self.new.spare ≡ self.old.spare }
    {
        let Some(held) = self.writers.take(number) else {
            unreachable!()
        };
        let Some((at, (ns, id))) = held.slot() else {
            unreachable!()
        };
        let _ = self.slots.abort(at);
        self.log.close(at);
        self.store.release(ns.as_str(), &id);
    }

    fn slot(&self, number: u32) -> Mem<Slot>
        requires { IsWriting self.now.node.writers number }
        ensures { IfOk result (λ slot. (op : Op) × HasOpen self.now.node.writers number slot.at op
            × (place_of op ≡ Some (slot.ns, slot.id))) }
    {
        let Some(Writer::Open { at, op }) = self.writers.get(number) else {
            unreachable!()
        };
        let Some((ns, id)) = op.or(&Op::Noop).key()? else {
            unreachable!()
        };
        Ok(Slot { at: *at, ns, id })
    }

    /// What a writer's op leaves of its document.
    fn after(&self, number: u32, ns: &Text, id: &IdKey) -> Mem<Option<Doc>>
        requires { IsWriting self.now.node.writers number }
        ensures { (at : OpTime) (op : Op) → HasOpen self.now.node.writers number at op
            → IfOk result (λ after.
            after ≡ document_after op (maps.get (docs self.now.node.log) (ns.now, id.now))) }
    {
        let Some(Writer::Open { op, .. }) = self.writers.get(number) else {
            unreachable!()
        };
        document_after(self.alloc, op.or(&Op::Noop), self.latest(ns.as_str(), id))
    }
}
