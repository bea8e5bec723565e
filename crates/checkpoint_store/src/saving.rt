// The records of a checkpoint: its beginning, its documents in pieces, and its end. Only the end
// makes it count.
ghost use Rattle.std.specs.Prelude.{◌≡◌, ◌≤◌, IfOk, OnOk, drop, length, map, take};
ghost use Rattle.record_file.specs.Records.{lists};
ghost use Rattle.oplog_entry.specs.Docs.{Documents};
ghost use Rattle.version_store.specs.Shown.{placed};
ghost use Rattle.checkpoint_store.specs.Checkpoint.{checkpoint, checkpoint_of};
ghost use Rattle.checkpoint_store.specs.Files.{AreSpelled};
ghost use Rattle.checkpoint_store.specs.Shown.{AllCanBeSaved, EachCanBeSaved, Shows};

use crate::writing::{begin_bytes, documents_bytes, end_bytes};
use rs_optime::{Mem, OpTime};
use std::alloc::Global;
use version_store::{Shown, VersionStore};

// The most documents in one record.
const PIECE: usize = 1000;

/// The records of the documents that a store shows as of an optime.
pub(crate) fn checkpoint_records(
    alloc: Global,
    store: &VersionStore,
    at: OpTime,
) -> Mem<Vec<Vec<u8>>>
    requires { AllCanBeSaved store.now at }
    ensures shows { OnOk result ((documents : Documents) × Shows store.now at documents) }
    ensures records { IfOk result (λ records. (documents : Documents) → Shows store.now at documents
        → AreSpelled (checkpoint (record { at = at; documents = documents })) (lists records.items)) }
{
    let documents = store.documents_at(at)?;
    records_of(alloc, at, &documents)
}

// The records of a checkpoint of some documents.
fn records_of(alloc: Global, at: OpTime, documents: &[Shown<'_>]) -> Mem<Vec<Vec<u8>>>
    requires { EachCanBeSaved documents.now }
    ensures { IfOk result (λ records.
        AreSpelled (checkpoint_of at (map placed documents.now)) (lists records.items)) }
{
    let mut records = Vec::new(alloc);
    records.push(begin_bytes(alloc, at)?)?;
    let mut place = 0;
    while place < documents.len() {
        records.push(documents_bytes(alloc, piece_at(documents, place))?)?;
        place += PIECE;
    }
    records.push(end_bytes(alloc)?)?;
    Ok(records)
}

// The piece of some documents that begins at a place.
fn piece_at<'a, 'b>(documents: &'a [Shown<'b>], place: usize) -> &'a [Shown<'b>]
    requires { place ≤ length documents.now }
    ensures piece { result.now ≡ take 1000 (drop place documents.now) }
    ensures few { length result.now ≤ 1000 }
{
    let rest = documents.split_at(place).1;
    rest.split_at(rest.len().min(PIECE)).0
}
