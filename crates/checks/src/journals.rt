// A journal, over a fault in each call of a short script, without a power cut and with some.
ghost use Rattle.rs_disk.specs.Memory.{state_of};
ghost use Rattle.node_journal.specs.Files.{IsJournalDisk, IsOpen};

use node_journal::{Journal, Record};
use rs_disk::{Disk, MemDisk};
use rs_optime::OpTime;
use std::alloc::Global;
use std::test::Fail;
use vote_store::Vote;

const VOTE: Vote = Vote {
    term: 3,
    candidate: Some(1),
};

const CUT: OpTime = OpTime { term: 2, ts: 7 };

#[derive(Drop)]
struct Run {
    disk: MemDisk,
    // How many records the opening found, and the term in them.
    found: u64,
    term: u64,
    added: u64,
}

fn add_both(journal: &mut Journal<MemDisk>) -> u64
    requires { IsOpen (state_of journal.old.0) }
    ensures { IsJournalDisk (state_of journal.new.0) }
{
    if journal.add(&Record::Vote(VOTE)).is_err() {
        return 0;
    }
    if journal.add(&Record::Cut(CUT)).is_err() {
        return 1;
    }
    2
}

// Opens the disk, adds a vote and a cut, and closes the journal.
fn play(alloc: Global, disk: MemDisk) -> Run
    requires { IsJournalDisk (state_of disk) }
    ensures { IsJournalDisk (state_of result.disk) }
{
    match Journal::open(alloc, disk) {
        Ok((mut journal, kept)) => {
            let added = add_both(&mut journal);
            Run {
                disk: journal.close(),
                found: kept.count,
                term: kept.vote.term,
                added,
            }
        }
        Err((disk, _)) => Run {
            disk,
            found: 0,
            term: 0,
            added: 0,
        },
    }
}

fn fresh(alloc: Global, call: u32, pick: Option<u64>) -> MemDisk
    ensures { IsJournalDisk (state_of result) }
{
    let mut disk = MemDisk::new(alloc);
    disk.arm(call, pick);
    disk
}

// An opening of an empty disk makes 3 calls, the addition of the form 4, and each other addition 4.
#[test]
fn each_call_fails_in_turn(rt: HostRuntime) -> Result<(), Fail> {
    let alloc = rt.alloc();
    for pick in [None, Some(0), Some(1), Some(2)] {
        for call in 1..16 {
            let first = play(alloc, fresh(alloc, call, pick));
            assert!(rt; first.added < 2, "armed for call {call}");
            let again = play(alloc, first.disk);
            assert_eq!(rt; again.added, 2, "armed for call {call}");
            let lost = again.found == first.added + 1;
            assert!(rt;
                lost || again.found == first.added + 2,
                "armed for call {call}"
            );
            assert_eq!(rt; again.term == 3, again.found > 1, "armed for call {call}");
        }
    }
    Ok(())
}
