// The documents, as a store shows them.
ghost use Rattle.std.specs.Prelude.{◌≡◌, IfOk, map};
ghost use Rattle.std.specs.FinMap.{entries};
ghost use Rattle.oplog_entry.specs.Docs.{Documents};
ghost use Rattle.checkpoint_store.specs.Shown.{Shows};
ghost use Rattle.initial_sync.specs.Pinned.{placed};

use crate::Kept1;
use rs_optime::{Mem, OpTime};
use std::alloc::Global;
use version_store::VersionStore;

/// A store that shows these documents as of an optime. They share their fields with the arguments.
pub(crate) fn store_of(alloc: Global, at: OpTime, documents: &[Kept1]) -> Mem<VersionStore>
    requires { (of : Documents) × (map placed documents.now ≡ entries of) }
    ensures { IfOk result (λ store. (of : Documents) → map placed documents.now ≡ entries of
        → Shows store at of) }
{
    let mut store = VersionStore::new(alloc, 1)?;
    for one in documents {
        store.put(one.ns.copy()?, one.id.copy()?, at, Some(one.doc.copy()?))?;
    }
    Ok(store)
}
