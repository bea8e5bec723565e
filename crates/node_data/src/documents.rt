// The documents that result from the log.
ghost use Rattle.std.specs.Prelude.{◌≡◌, Some, IfSome};
ghost use Rattle.std.specs.Option.{option_copied};
ghost use Rattle.std.specs.FinMap as maps;
ghost use Rattle.bson_doc.specs.Place.{Place};
ghost use Rattle.rs_optime.specs.declared.optime.OpTime.{OpTime};
ghost use Rattle.oplog_entry.specs.Docs.{docs};
ghost use Rattle.oplog_entry.specs.Lawful.{BeginsWithId};
ghost use Rattle.oplog_entry.specs.Step.{id_key};
ghost use Rattle.oplog_entry.specs.Visible.{log_up_to};
ghost use Rattle.version_store.specs.Past.{latest_of};
ghost use Rattle.version_store.specs.Store.{versions_at, shown_at};
ghost use Rattle.set_model.specs.Holds.{holder};
ghost use Rattle.set_model.specs.Reads.{local_documents, shown_log};
ghost use Rattle.set_model.specs.declared.command.ReadLevel.TheVariants.{Local};
ghost use Rattle.node_data.specs.NodeData.{IsReadable};

use crate::NodeData;
use bson_doc::{Doc, IdKey};
use rs_optime::OpTime;
use version_store::{Current, VersionStore};

impl NodeData {
    /// The documents, as of each optime that can still be read, in 64 shards.
    pub fn store(&self) -> &VersionStore
        ensures latest { (place : Place)
            → latest_of (versions_at result.now place) ≡ maps.get (local_documents self.now.node) place }
        ensures shown { (place : Place) (at : OpTime) → IsReadable self.now.node at
            → shown_at result.now place at ≡ maps.get (docs (log_up_to at self.now.node.log)) place }
        ensures shards { result.now.count ≡ 64 }
    {
        &self.store
    }

    /// The optime at which a read at `local` shows documents: one later than every entry where the log is
    /// writable, and otherwise how far it is applied.
    pub fn local_point(&self) -> OpTime
        ensures readable { IsReadable self.now.node result }
        ensures shown { log_up_to result self.now.node.log ≡ shown_log self.now.node Local }
    {
        if self.writable {
            OpTime {
                term: u64::MAX,
                ts: 0,
            }
        } else {
            self.applied
        }
    }

    /// A document as a read at `local` shows it. It begins with its `_id`.
    pub fn latest(&self, ns: &str, id: &IdKey) -> Option<&Doc>
        ensures latest { option_copied result ≡ maps.get (local_documents self.now.node) (ns.now, id.now) }
        ensures own { IfSome (option_copied result)
            (λ document. BeginsWithId document × (id_key document ≡ Some id.now)) }
    {
        self.store.latest(ns, id)
    }

    /// A document as of an optime. It begins with its `_id`.
    pub fn read_at(&self, ns: &str, id: &IdKey, at: OpTime) -> Option<&Doc>
        requires { IsReadable self.now.node at }
        ensures shown { option_copied result
            ≡ maps.get (docs (log_up_to at self.now.node.log)) (ns.now, id.now) }
        ensures own { IfSome (option_copied result)
            (λ document. BeginsWithId document × (id_key document ≡ Some id.now)) }
    {
        self.store.read_at(ns, id, at)
    }

    /// The open writer that holds a document.
    pub fn holder(&self, ns: &str, id: &IdKey) -> Option<u32>
        ensures { result ≡ holder self.now.node (ns.now, id.now) }
    {
        self.store.holder(ns, id)
    }

    /// What `latest` and `holder` give, in one look-up.
    pub fn current(&self, ns: &str, id: &IdKey) -> Current<'_>
        ensures latest { option_copied result.latest
            ≡ maps.get (local_documents self.now.node) (ns.now, id.now) }
        ensures own { IfSome (option_copied result.latest)
            (λ document. BeginsWithId document × (id_key document ≡ Some id.now)) }
        ensures holder { result.holder ≡ holder self.now.node (ns.now, id.now) }
    {
        self.store.current(ns, id)
    }
}
