// Records as they are read.
ghost use Rattle.std.specs.Prelude.{◌≡◌, ◌<◌, ◌^◌, ℕ, List, IfOk};
ghost use Rattle.bson_codec.specs.Numbers.{number_bytes};
ghost use Rattle.entry_bytes.specs.Optimes.{optime_bytes};
ghost use Rattle.record_file.specs.Turn.{BeginsWith, Reads, StandInTurn};
ghost use Rattle.oplog_entry.specs.declared.entry.Entry.{Entry as AnEntry};
ghost use Rattle.member_config.specs.declared.config.Member.{Member as AMember};
ghost use Rattle.repl_msg.specs.declared.record.Record.{Record as ARecord};
ghost use Rattle.node_journal.specs.Layout.{config_bytes, member_bytes, batch_bytes, sized_entry, vote_bytes};
ghost use Rattle.node_journal.specs.Spelled.{AreEntries, IsConfig, IsEntry, IsMember, IsOptime, IsSpelled, IsVote};

use crate::numbers::{truth_of, u32_of, u64_of};
use crate::writing::NOBODY;
use entry_bytes::{EntryError, of_bytes};
use member_config::{Config, Member, MemberList};
use oplog_entry::Entry;
use repl_msg::{EntryList, Record};
use rs_optime::{Mem, OpTime};
use std::alloc::{AllocError, Global};
use vote_store::Vote;

fn optime_of(bytes: &[u8]) -> (OpTime, &[u8])
    requires { BeginsWith IsOptime optime_bytes bytes.now }
    ensures { Reads IsOptime optime_bytes bytes.now result.0 result.1.now }
{
    let (term, rest) = u64_of(bytes);
    let (ts, rest) = u64_of(rest);
    (OpTime { term, ts }, rest)
}

fn cut_of(bytes: &[u8]) -> OpTime
    requires { (at : OpTime) × IsOptime at × (bytes.now ≡ optime_bytes at) }
    ensures { (at : OpTime) → IsOptime at → bytes.now ≡ optime_bytes at → result ≡ at }
{
    optime_of(bytes).0
}

fn vote_of(bytes: &[u8]) -> Vote
    requires { (vote : Vote) × IsVote vote × (bytes.now ≡ vote_bytes vote) }
    ensures { (vote : Vote) → IsVote vote → bytes.now ≡ vote_bytes vote → result ≡ vote }
{
    let (term, rest) = u64_of(bytes);
    let (number, _) = u32_of(rest);
    let candidate = if number == NOBODY { None } else { Some(number) };
    Vote { term, candidate }
}

fn member_of(bytes: &[u8]) -> (Member, &[u8])
    requires { BeginsWith IsMember member_bytes bytes.now }
    ensures { Reads IsMember member_bytes bytes.now result.0 result.1.now }
{
    let (number, rest) = u32_of(bytes);
    let (votes, rest) = truth_of(rest);
    let (priority, rest) = u32_of(rest);
    let member = Member {
        number,
        votes,
        priority,
    };
    (member, rest)
}

fn members_of(alloc: Global, count: u32, bytes: &[u8]) -> Mem<MemberList>
    requires { (members : List AMember) × StandInTurn IsMember member_bytes count members bytes.now }
    ensures { IfOk result (λ read. (members : List AMember)
        → StandInTurn IsMember member_bytes count members bytes.now → read ≡ members) }
{
    let mut members = MemberList::new(alloc);
    let mut rest = bytes;
    for _ in 0..count {
        let (member, after) = member_of(rest);
        members.push(member)?;
        rest = after;
    }
    Ok(members)
}

fn config_of(alloc: Global, bytes: &[u8]) -> Mem<Config>
    requires { (config : Config) × IsConfig config × (bytes.now ≡ config_bytes config) }
    ensures { IfOk result (λ read.
        (config : Config) → IsConfig config → bytes.now ≡ config_bytes config → read ≡ config) }
{
    let (term, rest) = u64_of(bytes);
    let (version, rest) = u32_of(rest);
    let (chaining, rest) = truth_of(rest);
    let (count, rest) = u32_of(rest);
    let members = members_of(alloc, count, rest)?;
    Ok(Config {
        term,
        version,
        members,
        chaining,
    })
}

fn entry_of(alloc: Global, bytes: &[u8]) -> Mem<(Entry, &[u8])>
    requires { BeginsWith IsEntry sized_entry bytes.now }
    ensures { IfOk result (λ read. Reads IsEntry sized_entry bytes.now read.0 read.1.now) }
{
    let (size, rest) = u32_of(bytes);
    let (piece, rest) = rest.split_at(size as usize);
    match of_bytes(alloc, piece) {
        Ok(entry) => Ok((entry, rest)),
        Err(EntryError::Memory) => Err(AllocError),
        // The bytes are an entry's.
        Err(EntryError::Codec(_)) => unreachable!(),
        Err(EntryError::Shape) => unreachable!(),
    }
}

fn entries_of(alloc: Global, count: u32, bytes: &[u8]) -> Mem<Vec<Entry>>
    requires { (entries : List AnEntry) × StandInTurn IsEntry sized_entry count entries bytes.now }
    ensures { IfOk result (λ read. (entries : List AnEntry)
        → StandInTurn IsEntry sized_entry count entries bytes.now → read.items ≡ entries) }
{
    let mut entries = Vec::with_capacity(alloc, count as usize)?;
    let mut rest = bytes;
    for _ in 0..count {
        let (entry, after) = entry_of(alloc, rest)?;
        entries.push(entry)?;
        rest = after;
    }
    Ok(entries)
}

// The record of a point and of entries.
fn batch_of(alloc: Global, bytes: &[u8]) -> Mem<Record>
    requires { (entries : List AnEntry) × (point : OpTime) × IsOptime point × AreEntries entries
        × (bytes.now ≡ batch_bytes entries point) }
    ensures { IfOk result (λ read.
        (entries : List AnEntry) (point : OpTime) → IsOptime point → AreEntries entries
        → bytes.now ≡ batch_bytes entries point → read ≡ ARecord.Entries entries point) }
{
    let (point, rest) = optime_of(bytes);
    let (count, rest) = u32_of(rest);
    let list = EntryList::new(entries_of(alloc, count, rest)?);
    Ok(Record::Entries { list, point })
}

fn form_of(bytes: &[u8]) -> u32
    requires { (form : ℕ) × (form < 2 ^ 32) × (bytes.now ≡ number_bytes 4 form) }
    ensures { (form : ℕ) → form < 2 ^ 32 → bytes.now ≡ number_bytes 4 form → result ≡ form }
{
    u32_of(bytes).0
}

// The record that these bytes spell.
pub(crate) fn record_of(alloc: Global, bytes: &[u8]) -> Mem<Record>
    requires { (item : ARecord) × IsSpelled item bytes.now }
    ensures { IfOk result (λ read. (item : ARecord) → IsSpelled item bytes.now → read ≡ item) }
{
    let rest = &bytes[1..];
    match bytes[0] {
        1 => Ok(Record::Vote(vote_of(rest))),
        2 => Ok(Record::Config(config_of(alloc, rest)?)),
        3 | 6 => batch_of(alloc, rest),
        5 => Ok(Record::Form(form_of(rest))),
        _ => Ok(Record::Cut(cut_of(rest))),
    }
}

// How many entries the records in these bytes have, so that room for them is made beforehand.
pub(crate) fn entries_in(pieces: &[Vec<u8>]) -> usize {
    let mut count: usize = 0;
    for piece in pieces {
        count = count.saturating_add(entry_count(piece));
    }
    count
}

// The number after the point, if these bytes are a record of entries.
fn entry_count(bytes: &[u8]) -> usize {
    match bytes.get(17..21) {
        Some(number) if matches!(bytes[0], 3 | 6) => u32_of(number).0 as usize,
        _ => 0,
    }
}
