// A log without documents.
ghost use Rattle.std.specs.Prelude.{◌<◌, ◌^◌, IfOk};
ghost use Rattle.initial_sync.specs.Pinned.{IsPinned};

use initial_sync::Pinned;
use oplog_entry::{Entry, SharedOp};
use rs_optime::{Mem, OpTime};
use std::alloc::Global;

/// This many entries of term 1, pinned at the last one, by a member in this term.
pub(crate) fn noops(alloc: Global, term: u64, count: u64) -> Mem<Pinned>
    requires some { 0 < count }
    requires few { count < 2 ^ 32 }
    ensures { IfOk result (λ pinned. IsPinned pinned) }
{
    let mut entries = Vec::new(alloc);
    for before in 0..count {
        entries.push(Entry {
            optime: OpTime {
                term: 1,
                ts: before + 1,
            },
            op: SharedOp::noop(),
            session: None,
        })?;
    }
    Ok(Pinned {
        term,
        at: OpTime { term: 1, ts: count },
        entries,
        documents: Vec::new(alloc),
    })
}
