// A node's data, restored from its disks.
ghost use Rattle.std.specs.Prelude.{◌≡◌, false, None, All, IfOk};
ghost use Rattle.std.specs.FinMap as maps;
ghost use Rattle.bson_doc.specs.Place.{Place};
ghost use Rattle.doc_fold.specs.Map.{documents_of};
ghost use Rattle.entry_bytes.specs.Sizes.{IsWithinEntry};
ghost use Rattle.oplog_entry.specs.Docs.{docs};
ghost use Rattle.oplog_entry.specs.Visible.{last_of, log_up_to};
ghost use Rattle.oplog_store.specs.Log.{IsOplog};
ghost use Rattle.rs_optime.specs.Order.{is_before};
ghost use Rattle.node_data.specs.NodeData.{restored};
ghost use Rattle.node_data.specs.Versions.{AreSmall, version_as_of};
ghost use Rattle.version_store.specs.Store.{versions_at, holder_at};

use crate::NodeData;
use crate::following::insert_all;
use crate::keeping::SHARDS;
use crate::session_log::SessionLog;
use crate::writer_map::WriterMap;
use bson_doc::{Doc, IdKey, Mem, Text};
use optime_slots::Slots;
use rs_optime::OpTime;
use set_model::EntryList;
use std::alloc::Global;
use std::collections::BTreeMap;
use std::thread::Threads;
use version_store::VersionStore;

/// A store of these documents, as of an optime.
fn stored(alloc: Global, documents: BTreeMap<(Text, IdKey), Doc>, at: OpTime) -> Mem<VersionStore>
    ensures versions { IfOk result (λ store. (place : Place)
        → versions_at store place ≡ version_as_of at (maps.get (documents_of documents.entries) place)) }
    ensures free { IfOk result (λ store. (place : Place) → holder_at store place ≡ None) }
    ensures count { IfOk result (λ store. store.count ≡ 64) }
{
    let mut store = VersionStore::new(alloc, SHARDS)?;
    for ((ns, id), document) in documents {
        store.put(ns, id, at, Some(document))?;
    }
    Ok(store)
}

impl NodeData {
    /// The data of a node that comes up, and follows: the log is these entries, all applied, and `documents`
    /// are those that the checkpoint has, as of the optime `at`. The only error is out of memory.
    pub fn restore<R: Threads + Sync>(
        rt: &R,
        alloc: Global,
        entries: EntryList,
        at: OpTime,
        documents: BTreeMap<(Text, IdKey), Doc>,
    ) -> Mem<Self>
        requires oplog { IsOplog entries }
        requires within { All IsWithinEntry entries }
        requires small { AreSmall entries }
        requires reached { is_before (last_of entries) at ≡ false }
        requires documents { documents_of documents.entries ≡ docs (log_up_to at entries) }
        ensures { IfOk result (λ made. made.node ≡ restored entries at) }
    {
        let entries = entries.into_entries();
        let mut log = SessionLog::new(alloc);
        log.reserve(entries.len())?;
        let mut slots = Slots::new(alloc);
        insert_all(&mut log, &mut slots, entries);
        let last = log.written().last();
        let mut node_data = NodeData {
            alloc,
            writable: false,
            log,
            slots,
            writers: WriterMap::new(alloc),
            store: stored(alloc, documents, at)?,
            applied: at,
            stable: at,
        };
        node_data.apply_to(rt, last)?;
        Ok(node_data)
    }
}
