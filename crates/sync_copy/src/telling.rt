// Puts the lines about what the disks of a new member have.
ghost use Rattle.std.specs.Prelude.{◌≡◌, ◌≢◌, Err, IfOk, IsErrOf, length};
ghost use Rattle.rs_io.specs.Fault.{HasCause};
ghost use Rattle.set_model.specs.Reads.{listed};
ghost use Rattle.sync_words.specs.Putting.{PutsText};
ghost use Rattle.sync_words.specs.Texts.{synced_text};

use bson_doc::Mem;
use checkpoint_store::Stable;
use initial_sync::Standing;
use rs_io::Sink;
use set_model::DocumentList;
use std::alloc::Global;
use sync_words::{SyncStop, put_text, set_synced};

/// Puts the lines about what the disks of the new member of this number have.
pub(crate) fn put_synced<K: Sink>(
    alloc: Global,
    number: u32,
    standing: Standing,
    sink: &mut K,
) -> Result<(), SyncStop>
    ensures puts { PutsText (K.held sink.old) (K.held sink.new)
        (synced_text number standing.stable.at (length standing.kept.entries)
        (listed standing.stable.documents)) result }
    ensures no_disk { result ≢ Err SyncStop.DiskFault }
    ensures cause { HasCause (K.faults sink.old) (K.faults sink.new) (IsErrOf result SyncStop.WriteFault) }
    ensures steady { K.steady sink.old → K.steady sink.new × (result ≢ Err SyncStop.WriteFault) }
{
    let count = standing.kept.entries.as_slice().len() as u64;
    let at = standing.stable.at;
    let documents = documents_of(alloc, standing.stable)?;
    let mut text = String::new(alloc);
    set_synced(number, at, count, documents.as_slice(), &mut text)?;
    put_text(text.as_bytes(), sink)
}

/// The documents of a checkpoint, each with its collection, in order of collection and key.
fn documents_of(alloc: Global, stable: Stable) -> Mem<DocumentList>
    ensures { IfOk result (λ list. list ≡ listed stable.documents) }
{
    let mut documents = DocumentList::new(alloc);
    for (place, document) in stable.documents.into_map() {
        let (ns, _id) = place;
        documents.push(ns, document)?;
    }
    Ok(documents)
}
