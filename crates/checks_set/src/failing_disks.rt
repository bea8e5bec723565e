// Disks that fail: each disk of a run, in each of its calls in turn and in each way.
use crate::restarts::{are_answered, is_brought_back};
use crate::running::{Failing, NOTHING, RUN, WRITTEN, ended};
use std::alloc::Global;
use std::sync::Wait;
use std::test::Fail;
use std::thread::Threads;

/// How many calls of a disk come before everything else, and how a run ends if one of these fails: its
/// status, and its output.
#[derive(Clone, Copy, Drop)]
struct Opening {
    calls: u32,
    status: u8,
    put: &'static str,
}

/// An empty journal is synced, gets its first byte, is synced again, and is given the record of its form.
const JOURNAL: Opening = Opening {
    calls: 7,
    status: 7,
    put: "",
};

/// Empty checkpoints are synced, get their first byte, and are synced again.
const CHECKPOINTS: Opening = Opening {
    calls: 3,
    status: 7,
    put: "",
};

/// All calls of a new member's disks are part of the copy: the journal gets two records besides that of its
/// form, the checkpoints get three, and both are read again.
const MEMBER: Opening = Opening {
    calls: 19,
    status: 8,
    put: "2: won 1\n3: primary 1 noop 1/0/1\n4: written 1/0/2\n5: flushed 2 to 1/0/2\n",
};

/// A write that isn't flushed.
const FIRST: &str = "set 1\ncampaign n0\ndrain n0\ninsert n0 t {_id: 1}\nrestart n0\nlog n0\n";

/// A crash while a write is open that has an earlier optime than another.
const HOLE_AND_CRASH: &str = "set 1\ncampaign n0\ndrain n0\nbegin n0 w1 insert t {_id: 1}
begin n0 w2 insert t {_id: 2}\ncommit n0 w2\nflush n0\ncrash n0\nrestart n0\ncampaign n0\ndrain n0\nflush n0
crash n0\nrestart n0\nrestart n0\nlog n0\n";

/// A primary rolls back what it wrote while another was elected.
pub const TWO_LOST: &str =
    "set 3\ncampaign n0\ndeliver m0\ndeliver m2\ndrain n0\nheartbeat n0 n1\ndeliver n0 n1
fetch n1\ndeliver n1 n0\ndeliver n0 n1\ninsert n0 t {_id: 1}\ninsert n0 t {_id: 2}\ncampaign n1\ndeliver m8
deliver m9\ndrain n1\ncommon n0 n1\ndeliver m10\ndeliver m11\nrolled n0
restart n0\nlog n0\nrestart n1\nlog n1\nrestart n2\nlog n2\n";

/// A node comes up from a checkpoint.
const CHECKPOINT: &str =
    "set 1\ncampaign n0\ndrain n0\ninsert n0 t {_id: 1}\nflush n0\ncheckpoint n0
checkpoint n0\ncrash n0\nrestart n0\nread n0 majority t 1\nrestart n0\nlog n0\n";

const SYNC: &[&str] = &["sync", "n0"];

/// Words, a script, one of the set's disks, its opening, and how many calls it gets if none fails: storing a
/// record takes four, and so does opening a file that has one. The nodes' journals and checkpoints come in
/// turn, and after them those of a new member.
type OnDisk = (&'static [&'static str], &'static str, usize, Opening, u32);

const DISKS: [OnDisk; 15] = [
    (RUN, FIRST, 0, JOURNAL, 15),
    (RUN, FIRST, 1, CHECKPOINTS, 3),
    (RUN, FIRST, 2, JOURNAL, 0),
    (RUN, HOLE_AND_CRASH, 0, JOURNAL, 43),
    (RUN, HOLE_AND_CRASH, 1, CHECKPOINTS, 9),
    (RUN, TWO_LOST, 0, JOURNAL, 23),
    (RUN, TWO_LOST, 1, CHECKPOINTS, 3),
    (RUN, TWO_LOST, 2, JOURNAL, 23),
    (RUN, TWO_LOST, 3, CHECKPOINTS, 3),
    (RUN, TWO_LOST, 4, JOURNAL, 11),
    (RUN, TWO_LOST, 5, CHECKPOINTS, 3),
    (RUN, CHECKPOINT, 0, JOURNAL, 23),
    (RUN, CHECKPOINT, 1, CHECKPOINTS, 19),
    (SYNC, WRITTEN, 2, MEMBER, 19),
    (SYNC, WRITTEN, 3, MEMBER, 19),
];

/// How a call fails: as in a crash, and in power cuts that leave what these picks name.
const PICKS: [Option<u64>; 4] = [None, Some(0), Some(1), Some(2)];

/// Whether a run in which a call of a disk failed is like one in which none did, up to the command whose call
/// it was: only that command is refused for it.
fn is_refused_once(put: &str, whole: &str) -> bool {
    match put.split_once(": refused 29 DiskFailed\n") {
        Some((before, after)) => whole.starts_with(before) && !after.contains("DiskFailed"),
        None => false,
    }
}

/// The same, and whether the node comes back then, and each added restart is answered.
fn is_refused<R: Threads + Wait + Sync>(
    rt: &R,
    alloc: Global,
    script: &str,
    put: &str,
    whole: &str,
    failing: Failing<'_>,
) -> Result<bool, Fail> {
    if !is_refused_once(put, whole) || !are_answered(script, put) {
        return Ok(false);
    }
    is_brought_back(rt, alloc, script, put, failing)
}

/// Whether the run ends as it should, whichever of the disk's calls fails, and in whichever way. After the
/// last call there is none to fail.
fn is_borne<R: Threads + Wait + Sync>(rt: &R, alloc: Global, on: OnDisk) -> Result<bool, Fail> {
    let (words, script, disk, opening, calls) = on;
    let (_, whole) = ended(rt, alloc, words, script, NOTHING)?;
    for call in 1..=calls.saturating_add(1) {
        for pick in PICKS {
            let failing = Failing {
                disk,
                call,
                pick,
                ..NOTHING
            };
            let (status, put) = ended(rt, alloc, words, script, failing)?;
            let is_so = if call > calls {
                status == 0 && put == whole
            } else if call > opening.calls {
                status == 0 && is_refused(rt, alloc, script, &put, &whole, failing)?
            } else {
                status == opening.status && put.as_str() == opening.put
            };
            if !is_so {
                return Ok(false);
            }
        }
    }
    Ok(true)
}

#[test]
fn an_armed_disk_strikes_in_the_call_that_it_names(rt: HostRuntime) -> Result<(), Fail> {
    for on in DISKS {
        assert!(rt; is_borne(&rt, rt.alloc(), on)?, "disk {} of {}", on.2, on.1);
    }
    Ok(())
}
