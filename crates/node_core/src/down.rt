// A node that goes down: what it keeps, and what it answers.
ghost use Rattle.std.specs.Prelude.{◌≡◌, ℕ, true, false, IsSome};
ghost use Rattle.rs_disk.specs.State.{State as OnDisk};
ghost use Rattle.set_model.specs.Node.{down};
ghost use Rattle.set_model.specs.Stores.{Plan};
ghost use Rattle.node_core.specs.Acting.{Follows};
ghost use Rattle.node_core.specs.Down.{down_node, down_state, seen_node};
ghost use Rattle.node_core.specs.OnDisks.{IsOnDisks};
ghost use Rattle.node_core.specs.Putting.{EndsFrom, IsStoreFailed, LeavesOnDisks};

use crate::Done;
use crate::storing::Ended;
use node_state::State;
use rs_optime::OpTime;
use set_model::{Records, Refusal, Reply, Store};
use std::alloc::Global;

/// What a node that is down has besides its disks.
#[derive(Drop)]
pub(crate) struct DownState {
    pub(crate) clock: u32,
    pub(crate) stable: OpTime,
    pub(crate) rollback: u64,
    pub(crate) records: Records,
    /// What was being stored when a disk failed.
    pub(crate) doubt: Option<Store>,
}

/// What was done, by how a turn ended. A node whose store failed is down from then on.
pub(crate) fn told(
    alloc: Global,
    state: &State,
    up: &mut bool,
    left: &mut DownState,
    ended: Ended,
) -> Done
    requires { up.old ≡ true }
    ensures follows { (plan : Plan) → EndsFrom 0 plan state.now.node ended
        → Follows plan (seen_node up.new state.now.node (down_state left.new)) result }
    ensures rests { (count : ℕ) (journal checkpoints : OnDisk)
        → LeavesOnDisks ended state.now.node count journal checkpoints
        → IsOnDisks up.new state.now.node (down_state left.new) count journal checkpoints }
    ensures failed { IsSome result.failed → IsStoreFailed ended }
    ensures unkept { result.kept ≡ false }
{
    match ended {
        Ended::WithReply { reply, sent } => Done {
            reply,
            sent,
            failed: None,
            kept: false,
        },
        Ended::StoreFailed { item, number } => {
            *up = false;
            *left = left_of(state, Some(item));
            Done {
                reply: Reply::Refused(Refusal::DiskFailed),
                sent: Vec::new(alloc),
                failed: Some(number),
                kept: false,
            }
        }
    }
}

/// What a node that goes down keeps, with what was being stored when a disk failed.
pub(crate) fn left_of(state: &State, doubt: Option<Store>) -> DownState
    ensures { down_node state.now.node (down_state result) ≡ record (down state.now.node) { doubt = doubt } }
{
    DownState {
        clock: state.clock(),
        stable: state.stable(),
        rollback: state.rollback(),
        records: state.records().same(),
        doubt,
    }
}
