// Slots, and how far a log with them can be read.
ghost use Rattle.std.specs.Prelude.{◌≡◌, None};
ghost use Rattle.oplog_entry.specs.declared.entry.Op.TheVariants.{Noop};

use oplog_entry::{Entry, SharedOp};
use oplog_store::Oplog;
use optime_slots::{NoSuchSlot, Slots};
use rs_optime::OpTime;
use std::test::Fail;
use visibility_point::visible;

fn noop(optime: OpTime) -> Entry
    ensures { result ≡ record { optime = optime; op = Noop; session = None } }
{
    Entry {
        optime,
        op: SharedOp::noop(),
        session: None,
    }
}

#[test]
fn an_open_slot_hides_what_is_after_it(rt: HostRuntime) -> Result<(), Fail> {
    let alloc = rt.alloc();
    let first = OpTime { term: 1, ts: 1 };
    let third = OpTime { term: 1, ts: 3 };
    let mut slots = Slots::new(alloc);
    let mut oplog = Oplog::new(alloc);
    oplog.reserve(2)?;
    oplog.insert(noop(third));
    oplog.insert(noop(first));
    assert_eq!(rt; oplog.find(third), Some(1));
    slots.seen(1);
    assert!(rt; slots.mark() < u64::MAX);
    let second = slots.reserve(1, 0)?;
    assert_eq!(rt; visible(&slots, &oplog), first);
    assert_eq!(rt; slots.settle(second), Ok(()));
    assert_eq!(rt; slots.settle(second), Err(NoSuchSlot));
    assert_eq!(rt; visible(&slots, &oplog), third);
    Ok(())
}
