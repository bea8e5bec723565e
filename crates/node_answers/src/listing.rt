// Copies of documents for a reply.
ghost use Rattle.std.specs.Prelude.{◌≡◌, IfOk};
ghost use Rattle.std.specs.FinMap.{get};
ghost use Rattle.bson_doc.specs.Place.{Place};
ghost use Rattle.oplog_entry.specs.Docs.{Documents};
ghost use Rattle.version_store.specs.Store.{shown_at};
ghost use Rattle.set_model.specs.Reads.{listed};
ghost use Rattle.node_answers.specs.Listing.{found_at};

use bson_doc::{IdKey, Mem, Text};
use rs_optime::OpTime;
use set_model::DocumentList;
use std::alloc::Global;
use version_store::VersionStore;

/// The documents as of an optime, each with its collection, in order of collection and key.
pub(crate) fn listed(alloc: Global, store: &VersionStore, at: OpTime) -> Mem<DocumentList>
    ensures { (documents : Documents) → ((place : Place) → shown_at store.now place at ≡ get documents place)
        → IfOk result (λ list. list ≡ listed documents) }
{
    found(alloc, store, at, &store.keys_at(at)?)
}

/// The documents at some places, as of an optime.
fn found(
    alloc: Global,
    store: &VersionStore,
    at: OpTime,
    places: &[(Text, IdKey)],
) -> Mem<DocumentList>
    ensures { IfOk result (λ list. list ≡ found_at (λ place. shown_at store.now place at) places.now) }
{
    let mut documents = DocumentList::new(alloc);
    for (ns, id) in places {
        if let Some(document) = store.read_at(ns.as_str(), id, at) {
            documents.push(ns.copy()?, document.copy()?)?;
        }
    }
    Ok(documents)
}
