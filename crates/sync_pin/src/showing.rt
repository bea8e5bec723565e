// What a node shows as the start of a new member.
ghost use Rattle.std.specs.Prelude.{◌≡◌, All, IfOk, IsSome, Some};
ghost use Rattle.oplog_entry.specs.Lawful.{IsLawful};
ghost use Rattle.oplog_entry.specs.Log.{IsOplog};
ghost use Rattle.oplog_entry.specs.Step.{id_key};
ghost use Rattle.oplog_entry.specs.Visible.{log_up_to};
ghost use Rattle.initial_sync.specs.Pinned.{listed_of};
ghost use Rattle.sync_pin.specs.Showing.{shown_documents, shown_point};

use bson_doc::{Doc, IdKey, KeyError, Mem, Text};
use change_stream::up_to;
use initial_sync::Kept1;
use oplog_entry::Entry;
use rs_optime::OpTime;
use set_model::{DocumentList, Reply};
use std::alloc::{AllocError, Global};

/// The term of a node, and the lesser of its commit point and what it has applied.
pub(crate) fn point_shown(reply: &Reply) -> Option<(u64, OpTime)>
    ensures { result ≡ shown_point reply.now }
{
    match reply {
        Reply::State {
            term,
            applied,
            commit,
            ..
        } => Some((*term, if commit < applied { *commit } else { *applied })),
        _ => None,
    }
}

/// The documents that were shown; none where the reply shows no documents.
pub(crate) fn documents_shown(reply: Reply) -> Option<DocumentList>
    ensures { result ≡ shown_documents reply }
{
    match reply {
        Reply::Documents(documents) => Some(documents),
        _ => None,
    }
}

/// The entries of a log up to an optime.
pub(crate) fn front(log: Vec<Entry>, at: OpTime) -> Vec<Entry>
    requires { IsOplog log.items }
    ensures entries { result.items ≡ log_up_to at log.items }
    ensures lawful { All IsLawful result.items }
{
    let mut front = log;
    let count = up_to(&front, at).len();
    front.truncate(count);
    front
}

/// Copies of documents, each with its key. They share their fields with the ones given.
pub(crate) fn keyed(alloc: Global, documents: &[(Text, Doc)]) -> Mem<Vec<Kept1>>
    requires { All (λ one. IsSome (id_key one.1)) documents.now }
    ensures listed { IfOk result (λ kept. listed_of kept.items ≡ documents.now) }
    ensures keys { IfOk result (λ kept. All (λ one. id_key one.doc ≡ Some one.id) kept.items) }
{
    let mut kept = Vec::with_capacity(alloc, documents.len())?;
    for (ns, doc) in documents {
        kept.push(Kept1 {
            ns: ns.copy()?,
            id: key_of(doc)?,
            doc: doc.copy()?,
        })?;
    }
    Ok(kept)
}

fn key_of(document: &Doc) -> Mem<IdKey>
    requires { IsSome (id_key document.now) }
    ensures { IfOk result (λ key. id_key document.now ≡ Some key) }
{
    let Some(id) = document.get("_id") else {
        unreachable!();
    };
    match IdKey::of(id) {
        Ok(key) => Ok(key),
        Err(KeyError::Memory) => Err(AllocError),
        Err(KeyError::Kind(_)) => unreachable!(),
    }
}
