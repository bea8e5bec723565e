// A new member after a script: the lines about it, and about one that can't be made.
use crate::running::{Failing, NOTHING, WRITTEN, ended};
use std::test::Fail;

const SYNC: &[&str] = &["sync", "n0"];

/// A write that isn't flushed.
const NOT_FLUSHED: &str = "set 1\ncampaign n0\ndrain n0\ninsert n0 t {_id: 1}\n";

/// The new member's journal fails at its first call.
const NO_JOURNAL: Failing<'_> = Failing {
    disk: 2,
    call: 1,
    ..NOTHING
};

const ENDS: [(&str, Failing<'_>, u8, &str); 3] = [
    (
        WRITTEN,
        NOTHING,
        0,
        "2: won 1\n3: primary 1 noop 1/0/1\n4: written 1/0/2\n5: flushed 2 to 1/0/2
synced n1 to 1/0/2 entries 2 documents 1\n  t {_id: 1}\n",
    ),
    (
        NOT_FLUSHED,
        NOTHING,
        9,
        "2: won 1\n3: primary 1 noop 1/0/1\n4: written 1/0/2\nsync refused 4 NothingCommitted\n",
    ),
    (
        WRITTEN,
        NO_JOURNAL,
        8,
        "2: won 1\n3: primary 1 noop 1/0/1\n4: written 1/0/2\n5: flushed 2 to 1/0/2\n",
    ),
];

#[test]
fn a_member_is_made_of_what_is_committed(rt: HostRuntime) -> Result<(), Fail> {
    for (script, failing, status, put) in ENDS {
        let (ended_so, told) = ended(&rt, rt.alloc(), SYNC, script, failing)?;
        assert_eq!(rt; ended_so, status, "{script}");
        assert!(rt; told.as_str() == put, "{told}");
    }
    Ok(())
}
