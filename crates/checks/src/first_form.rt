// A journal of the first form, which is written record by record, and its opening over a fault in each call.
ghost use Rattle.std.specs.Prelude.{◌≡◌, IfOk};
ghost use Rattle.rs_disk.specs.Memory.{fresh, state_of};
ghost use Rattle.node_journal.specs.Files.{IsJournalDisk};

use bson_doc::Value;
use member_config::Config;
use node_journal::{Journal, Kept};
use oplog_entry::{Entry, Op};
use record_file::{FileError, RecordFile};
use rs_disk::{Disk, MemDisk};
use rs_optime::OpTime;
use std::alloc::Global;
use std::test::Fail;
use vote_store::Vote;

// A vote for the member 1 in term 3.
const VOTE: &[u8] = b"\x01\x03\0\0\0\0\0\0\0\x01\0\0\0";

// A configuration of one member.
const CONFIG: &[u8] = b"\x02\x03\0\0\0\0\0\0\0\x01\0\0\0\x01\x01\0\0\0\0\0\0\0\x01\x01\0\0\0";

// A no-op and an insert, both of which count.
const ENTRIES: &[u8] =
    b"\x03\x01\0\0\0\0\0\0\0\x02\0\0\0\0\0\0\0\x02\0\0\0S\0\0\0S\0\0\0\x11ts\0\x01\0\0\0\0\0\0\0\x12t\0\x01\0\0\0\0\0\0\0\x10v\0\x02\0\0\0\x02op\0\x02\0\0\0n\0\x02ns\0\x01\0\0\0\0\x03o\0\x1a\0\0\0\x02msg\0\x0c\0\0\0new primary\0\0\0H\0\0\0H\0\0\0\x11ts\0\x02\0\0\0\0\0\0\0\x12t\0\x01\0\0\0\0\0\0\0\x10v\0\x02\0\0\0\x02op\0\x02\0\0\0i\0\x02ns\0\x02\0\0\0t\0\x03o\0\x0e\0\0\0\x10_id\0\x05\0\0\0\0\0";

// A cut after the insert.
const CUT: &[u8] = b"\x04\x01\0\0\0\0\0\0\0\x02\0\0\0\0\0\0\0";

// The form 2.
const FORM: &[u8] = b"\x05\x02\0\0\0";

const NOOP_AT: OpTime = OpTime { term: 1, ts: 1 };

const INSERT_AT: OpTime = OpTime { term: 1, ts: 2 };

fn empty(alloc: Global) -> MemDisk
    ensures { state_of result ≡ fresh }
{
    MemDisk::new(alloc)
}

fn first_form(alloc: Global) -> Result<MemDisk, Fail>
    ensures { IfOk result (λ disk. IsJournalDisk (state_of disk)) }
{
    let Ok((mut file, _)) = RecordFile::open(alloc, empty(alloc)) else {
        return Err(Fail::from(FileError::Disk));
    };
    file.append(VOTE)?;
    file.append(CONFIG)?;
    file.append(ENTRIES)?;
    file.append(CUT)?;
    Ok(file.close())
}

// The disk fails at its `call`-th call from now on.
fn armed(disk: MemDisk, call: u32, pick: Option<u64>) -> MemDisk
    requires { IsJournalDisk (state_of disk) }
    ensures { IsJournalDisk (state_of result) }
{
    let mut disk = disk;
    disk.arm(call, pick);
    disk
}

#[derive(Drop)]
struct Opened {
    disk: MemDisk,
    kept: Option<Kept>,
}

fn open_journal(alloc: Global, disk: MemDisk) -> Opened
    requires { IsJournalDisk (state_of disk) }
    ensures { IsJournalDisk (state_of result.disk) }
{
    match Journal::open(alloc, disk) {
        Ok((journal, kept)) => Opened {
            disk: journal.close(),
            kept: Some(kept),
        },
        Err((disk, _)) => Opened { disk, kept: None },
    }
}

fn is_noop(entry: &Entry) -> bool {
    entry.optime == NOOP_AT && entry.session.is_none() && matches!(entry.op.or(&Op::Noop), Op::Noop)
}

fn inserts_five(op: &Op) -> bool {
    match op {
        Op::Insert { ns, o } => {
            ns.as_str() == "t" && o.len() == 1 && matches!(o.get("_id"), Some(Value::Int32(5)))
        }
        _ => false,
    }
}

fn is_insert(entry: &Entry) -> bool {
    entry.optime == INSERT_AT && entry.session.is_none() && inserts_five(entry.op.or(&Op::Noop))
}

fn is_of_one(config: &Config) -> bool {
    config.term == 3 && config.version == 1 && config.members.as_slice().len() == 1
}

// Whether this is what the records give, with the form after them.
fn is_whole(kept: &Kept) -> bool {
    let vote = Vote {
        term: 3,
        candidate: Some(1),
    };
    let Some(config) = &kept.config else {
        return false;
    };
    let [noop, insert] = kept.entries.as_slice() else {
        return false;
    };
    kept.form == 2
        && kept.vote == vote
        && is_of_one(config)
        && is_noop(noop)
        && is_insert(insert)
        && kept.point == INSERT_AT
        && kept.count == 5
}

// Whether the records are those that were written, and the form.
fn has_form_after(alloc: Global, disk: MemDisk) -> Result<bool, Fail>
    requires { IsJournalDisk (state_of disk) }
{
    let Ok((_, pieces)) = RecordFile::open(alloc, disk) else {
        return Err(Fail::from(FileError::Disk));
    };
    let [vote, config, entries, cut, form] = pieces.as_slice() else {
        return Ok(false);
    };
    Ok(
        vote.as_slice() == VOTE
            && config.as_slice() == CONFIG
            && entries.as_slice() == ENTRIES
            && cut.as_slice() == CUT
            && form.as_slice() == FORM,
    )
}

#[test]
fn a_journal_of_the_first_form_gets_the_newest(rt: HostRuntime) -> Result<(), Fail> {
    let alloc = rt.alloc();
    let Opened { disk, kept } = open_journal(alloc, first_form(alloc)?);
    let Some(kept) = kept else {
        return Err(Fail::from(FileError::Disk));
    };
    assert!(rt; is_whole(&kept));
    assert!(rt; has_form_after(alloc, disk)?);
    Ok(())
}

// What a second opening gives, if the first one fails at this call.
fn open_again(alloc: Global, call: u32, pick: Option<u64>) -> Result<Opened, Fail>
    ensures { IfOk result (λ again. IsJournalDisk (state_of again.disk)) }
{
    let first = open_journal(alloc, armed(first_form(alloc)?, call, pick));
    if first.kept.is_some() {
        return Err(Fail::from(FileError::Disk));
    }
    Ok(open_journal(alloc, first.disk))
}

// An opening makes 4 calls, and the addition of the form 4 more.
#[test]
fn the_form_is_added_once_where_a_call_fails(rt: HostRuntime) -> Result<(), Fail> {
    let alloc = rt.alloc();
    for pick in [None, Some(0), Some(1), Some(2)] {
        for call in 1..9 {
            let Opened { disk, kept } = open_again(alloc, call, pick)?;
            let Some(kept) = kept else {
                return Err(Fail::from(FileError::Disk));
            };
            assert!(rt; is_whole(&kept), "armed for call {call}");
            assert!(rt; has_form_after(alloc, disk)?, "armed for call {call}");
        }
    }
    Ok(())
}
