// Copies of a log of 4,001 entries, and of one with documents: the power goes at each call of a disk, and a
// second copy goes on.
ghost use Rattle.std.specs.Prelude.{◌<◌, ◌^◌};
ghost use Rattle.rs_disk.specs.Memory.{state_of};
ghost use Rattle.initial_sync.specs.Copies.{AreCopyDisks};
ghost use Rattle.initial_sync.specs.Pinned.{IsPinned};

use crate::documents::{DOCUMENTS, documents};
use crate::noops::noops;
use checkpoint_store::Checkpoints;
use initial_sync::{CopyError, Pinned, copy};
use node_journal::Journal;
use rs_disk::{Disk, MemDisk};
use rs_optime::OpTime;
use std::alloc::Global;
use std::test::Fail;

const COUNT: u64 = 4_001;

// The disks of a new member, and how the last copy onto them ended.
#[derive(Drop)]
struct Target {
    journal: MemDisk,
    checkpoints: MemDisk,
    error: Option<CopyError>,
}

fn empty(alloc: Global) -> Target
    ensures { AreCopyDisks (state_of result.journal) (state_of result.checkpoints) }
{
    Target {
        journal: MemDisk::new(alloc),
        checkpoints: MemDisk::new(alloc),
        error: None,
    }
}

#[derive(Clone, Copy)]
enum Name {
    Journal,
    Checkpoints,
}

// One of the disks fails at its `call`-th call from now on.
fn armed(target: Target, name: Name, call: u32, pick: Option<u64>) -> Target
    requires { AreCopyDisks (state_of target.journal) (state_of target.checkpoints) }
    ensures { AreCopyDisks (state_of result.journal) (state_of result.checkpoints) }
{
    let mut target = target;
    match name {
        Name::Journal => target.journal.arm(call, pick),
        Name::Checkpoints => target.checkpoints.arm(call, pick),
    }
    target
}

fn copied(alloc: Global, pinned: &Pinned, target: Target) -> Target
    requires pinned { IsPinned pinned.now }
    requires disks { AreCopyDisks (state_of target.journal) (state_of target.checkpoints) }
    ensures { AreCopyDisks (state_of result.journal) (state_of result.checkpoints) }
{
    let Target {
        journal,
        checkpoints,
        ..
    } = target;
    match copy(alloc, pinned, journal, checkpoints) {
        Ok((journal, checkpoints)) => Target {
            journal,
            checkpoints,
            error: None,
        },
        Err((journal, checkpoints, error)) => Target {
            journal,
            checkpoints,
            error: Some(error),
        },
    }
}

// What the journal and the checkpoints have, opened on the disks.
#[derive(Clone, Copy, Debug, PartialEq, Eq)]
struct Contents {
    records: u64,
    term: u64,
    entries: u64,
    point: OpTime,
    at: OpTime,
    documents: u64,
}

fn contents_of(alloc: Global, target: Target) -> Result<Contents, Fail>
    requires { AreCopyDisks (state_of target.journal) (state_of target.checkpoints) }
{
    let Ok((_, kept)) = Journal::open(alloc, target.journal) else {
        return Err(Fail::from(CopyError::Disk));
    };
    let Ok((_, stable)) = Checkpoints::open(alloc, target.checkpoints) else {
        return Err(Fail::from(CopyError::Disk));
    };
    Ok(Contents {
        records: kept.count,
        term: kept.vote.term,
        entries: kept.entries.as_slice().len() as u64,
        point: kept.point,
        at: stable.at,
        documents: stable.documents.into_map().len() as u64,
    })
}

// The form, a term, three records of entries, and a checkpoint of the last.
const WHOLE: Contents = Contents {
    records: 5,
    term: 3,
    entries: COUNT,
    point: OpTime { term: 1, ts: COUNT },
    at: OpTime { term: 1, ts: COUNT },
    documents: 0,
};

#[test]
fn a_copy_is_whole(rt: HostRuntime) -> Result<(), Fail> {
    let alloc = rt.alloc();
    let pinned = noops(alloc, 3, COUNT)?;
    let target = copied(alloc, &pinned, empty(alloc));
    assert_eq!(rt; target.error, None);
    assert_eq!(rt; contents_of(alloc, target)?, WHOLE);
    Ok(())
}

// A copy that is cut off at this call, and a second one after it.
fn cut_and_gone_on(
    alloc: Global,
    pinned: &Pinned,
    name: Name,
    call: u32,
    pick: Option<u64>,
) -> Result<(Option<CopyError>, Option<CopyError>, Contents), Fail>
    requires { IsPinned pinned.now }
{
    let first = copied(alloc, pinned, armed(empty(alloc), name, call, pick));
    let cut = first.error;
    let second = copied(alloc, pinned, first);
    let end = second.error;
    Ok((cut, end, contents_of(alloc, second)?))
}

// The opening of an empty disk makes 3 calls, and each record 4.
#[test]
fn a_copy_goes_on_where_the_journal_was_cut_off(rt: HostRuntime) -> Result<(), Fail> {
    let alloc = rt.alloc();
    let pinned = noops(alloc, 3, COUNT)?;
    for pick in [None, Some(0), Some(1), Some(2)] {
        for call in 1..24 {
            let (cut, end, contents) = cut_and_gone_on(alloc, &pinned, Name::Journal, call, pick)?;
            assert_eq!(rt; cut, Some(CopyError::Disk), "armed for call {call}");
            assert_eq!(rt; end, None, "armed for call {call}");
            assert_eq!(rt; contents, WHOLE, "armed for call {call}");
        }
    }
    Ok(())
}

// A checkpoint without documents is two records.
#[test]
fn a_copy_goes_on_where_the_checkpoints_were_cut_off(rt: HostRuntime) -> Result<(), Fail> {
    let alloc = rt.alloc();
    let pinned = noops(alloc, 3, COUNT)?;
    for pick in [None, Some(0), Some(1), Some(2)] {
        for call in 1..12 {
            let (cut, end, contents) = cut_and_gone_on(
                alloc,
                &pinned,
                Name::Checkpoints,
                call,
                pick,
            )?;
            assert_eq!(rt; cut, Some(CopyError::Disk), "armed for call {call}");
            assert_eq!(rt; end, None, "armed for call {call}");
            assert_eq!(rt; contents, WHOLE, "armed for call {call}");
        }
    }
    Ok(())
}

// The form, a term, one record of a no-op and all inserts, and a checkpoint of the last.
const ALL_DOCUMENTS: Contents = Contents {
    records: 3,
    term: 1,
    entries: DOCUMENTS + 1,
    point: OpTime {
        term: 1,
        ts: DOCUMENTS + 1,
    },
    at: OpTime {
        term: 1,
        ts: DOCUMENTS + 1,
    },
    documents: DOCUMENTS,
};

// The opening of an empty disk makes 3 calls, and each record 4: the checkpoint has four, one for each of
// its two pieces, one before them and one after.
#[test]
fn a_copy_of_documents_goes_on_where_it_was_cut_off(rt: HostRuntime) -> Result<(), Fail> {
    let alloc = rt.alloc();
    let pinned = documents(&rt, alloc)?;
    for (name, calls) in [(Name::Journal, 15), (Name::Checkpoints, 19)] {
        for pick in [None, Some(0), Some(1), Some(2)] {
            for call in 1..=calls {
                let (cut, end, contents) = cut_and_gone_on(alloc, &pinned, name, call, pick)?;
                assert_eq!(rt; cut, Some(CopyError::Disk), "armed for call {call}");
                assert_eq!(rt; end, None, "armed for call {call}");
                assert_eq!(rt; contents, ALL_DOCUMENTS, "armed for call {call}");
            }
        }
    }
    Ok(())
}

// The result of a copy of this many entries onto disks that have another one, and what is there then.
fn over_another(alloc: Global, term: u64, count: u64) -> Result<(Option<CopyError>, Contents), Fail>
    requires some { 0 < count }
    requires few { count < 2 ^ 32 }
{
    let first = copied(alloc, &noops(alloc, 3, 5)?, empty(alloc));
    let second = copied(alloc, &noops(alloc, term, count)?, first);
    let error = second.error;
    Ok((error, contents_of(alloc, second)?))
}

#[test]
fn another_copy_is_refused(rt: HostRuntime) -> Result<(), Fail> {
    let alloc = rt.alloc();
    let (same, before) = over_another(alloc, 3, 5)?;
    assert_eq!(rt; same, None);
    let (other_term, after) = over_another(alloc, 4, 5)?;
    assert_eq!(rt; other_term, Some(CopyError::OtherCopy));
    assert_eq!(rt; after, before);
    let (more, after) = over_another(alloc, 3, 6)?;
    assert_eq!(rt; more, Some(CopyError::OtherCopy));
    assert_eq!(rt; after, before);
    let (fewer, after) = over_another(alloc, 3, 4)?;
    assert_eq!(rt; fewer, Some(CopyError::OtherCopy));
    assert_eq!(rt; after, before);
    Ok(())
}
