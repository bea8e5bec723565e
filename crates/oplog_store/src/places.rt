// What is in a log from the first hole on.
ghost use Rattle.std.specs.Prelude.{◌≡◌, ◌≢◌, ◌<◌, ◌≤◌, ◌∷◌, ◌++◌, ℕ, List, [], All, Some, length, take, slice_get, slice_set, nat_lt, IsTrue, MatchOption, IfSome, IfNone, OnOk, false, not};
ghost use Rattle.std.specs.List.{AllPairs, AllWithin};
ghost use Rattle.std.specs.Option.{option_copied};
ghost use Rattle.oplog_entry.specs.Visible.{entries_before, is_before, last_of, log_up_to};
ghost use Rattle.oplog_entry.specs.declared.entry.Entry.{Entry};
ghost use Rattle.rs_optime.specs.declared.optime.OpTime.{OpTime};
ghost use Rattle.oplog_store.specs.Log.{IsOplog, with_entry};
ghost use Rattle.oplog_store.specs.Places.{AllPrecede, IsEntryAt, IsHeld, Moved, Placed, Precedes, StandsFirst, optime_of, written};
ghost use Rattle.oplog_store.specs.declared.places.Place.TheVariants.{Open, Written};

use crate::Oplog;
use oplog_entry::Entry;
use rs_optime::{Mem, OpTime};
use std::collections::VecDeque;

/// What is at an optime.
#[derive(Drop)]
pub(crate) enum Place {
    /// A slot whose entry may still come.
    Open(OpTime),
    Written(Entry),
    /// A slot that was closed without an entry.
    Closed(OpTime),
}

impl Place {
    pub(crate) fn optime(&self) -> OpTime
        ensures { result ≡ optime_of self.now }
    {
        match self {
            Place::Open(at) | Place::Closed(at) => *at,
            Place::Written(entry) => entry.optime,
        }
    }

    /// Its entry, where it has one.
    fn entry(&self) -> Option<&Entry>
        ensures { MatchOption (option_copied result) (written (self.now ∷ []) ≡ [])
            (λ entry. self.now ≡ Written entry) }
    {
        match self {
            Place::Written(entry) => Some(entry),
            Place::Open(_) | Place::Closed(_) => None,
        }
    }

    fn into_entry(self) -> Option<Entry>
        ensures { MatchOption result (written (self ∷ []) ≡ []) (λ entry. self ≡ Written entry) }
    {
        match self {
            Place::Written(entry) => Some(entry),
            Place::Open(_) | Place::Closed(_) => None,
        }
    }
}

/// Whether an optime may come after another one.
pub(crate) fn precedes(one: OpTime, two: OpTime) -> bool
    ensures { IsTrue result → Precedes one two }
{
    one.ts < two.ts && one.term <= two.term
}

/// Reserves a place for the entry of a slot that opens. None is reserved where something comes after it, or
/// where memory runs out. `last` is the optime of the last entry.
pub(crate) fn open(beyond: &mut VecDeque<Place>, last: OpTime, at: OpTime)
    ensures { (settled : List Entry) → IsHeld settled beyond.old.items
        → last ≡ last_of (settled ++ written beyond.old.items)
        → Moved settled beyond.old.items 0 settled beyond.new.items 1 }
{
    if precedes(end_of(beyond, last), at) && beyond.reserve(1).is_ok() {
        beyond.push_back_reserved(Place::Open(at));
    }
}

/// The optime of the last place, or of the last entry where there is no place.
fn end_of(beyond: &VecDeque<Place>, last: OpTime) -> OpTime
    ensures { (settled : List Entry) (at : OpTime) → IsHeld settled beyond.now.items
        → last ≡ last_of (settled ++ written beyond.now.items) → Precedes result at
        → AllPrecede settled beyond.now.items at }
{
    match beyond.back() {
        Some(place) => place.optime(),
        None => last,
    }
}

/// Puts an entry at the place reserved for it, or after all places. It comes back where there is no place, or
/// where memory runs out.
pub(crate) fn put(beyond: &mut VecDeque<Place>, entry: Entry) -> Option<Entry>
    ensures placed { IfNone result ((settled : List Entry) → IsHeld settled beyond.old.items
        → IsOplog (with_entry (settled ++ written beyond.old.items) entry)
        → Placed settled beyond.old.items entry beyond.new.items) }
    ensures back { IfSome result (λ other. (other ≡ entry) × (beyond.new.items ≡ beyond.old.items)) }
{
    let Some(last) = beyond.back() else {
        return Some(entry);
    };
    if precedes(last.optime(), entry.optime) {
        return push(beyond, entry);
    }
    fill(beyond, entry)
}

fn push(beyond: &mut VecDeque<Place>, entry: Entry) -> Option<Entry>
    ensures pushed { IfNone result (beyond.new.items ≡ beyond.old.items ++ Written entry ∷ []) }
    ensures back { IfSome result (λ other. (other ≡ entry) × (beyond.new.items ≡ beyond.old.items)) }
{
    if beyond.reserve(1).is_err() {
        return Some(entry);
    }
    beyond.push_back_reserved(Place::Written(entry));
    None
}

fn fill(beyond: &mut VecDeque<Place>, entry: Entry) -> Option<Entry>
    ensures filled { IfNone result
        ((place : ℕ) × (slice_get beyond.old.items place ≡ Some (Open entry.optime))
        × (beyond.new.items ≡ slice_set beyond.old.items place (Written entry))) }
    ensures back { IfSome result (λ other. (other ≡ entry) × (beyond.new.items ≡ beyond.old.items)) }
{
    let place = place_from(beyond, entry.optime.ts);
    if !is_open_at(beyond, place, entry.optime) {
        return Some(entry);
    }
    beyond[place] = Place::Written(entry);
    None
}

/// Closes the slot at an optime, if a place is reserved for it.
pub(crate) fn close(beyond: &mut VecDeque<Place>, at: OpTime)
    ensures { (settled : List Entry) → IsHeld settled beyond.old.items
        → Moved settled beyond.old.items 0 settled beyond.new.items 0 }
{
    let place = place_from(beyond, at.ts);
    if is_open_at(beyond, place, at) {
        beyond[place] = Place::Closed(at);
    }
}

/// Whether the first place is at or before an optime.
pub(crate) fn begins_by(beyond: &VecDeque<Place>, at: OpTime) -> bool
    requires { AllPairs StandsFirst beyond.now.items }
    ensures { result ≡ false → log_up_to at (written beyond.now.items) ≡ [] }
{
    match beyond.front() {
        Some(place) => is_up_to(place.optime(), at),
        None => false,
    }
}

fn is_up_to(one: OpTime, at: OpTime) -> bool
    ensures { result ≡ not (is_before at one) }
{
    one <= at
}

/// Copies all entries, after those already copied.
pub(crate) fn copy_written(beyond: &VecDeque<Place>, copies: &mut Vec<Entry>) -> Mem<()>
    ensures { OnOk result (copies.new.items ≡ copies.old.items ++ written beyond.now.items) }
{
    for place in 0..beyond.len() {
        copy_entry(&beyond[place], copies)?;
    }
    Ok(())
}

fn copy_entry(place: &Place, copies: &mut Vec<Entry>) -> Mem<()>
    ensures { OnOk result (copies.new.items ≡ copies.old.items ++ written (place.now ∷ [])) }
{
    if let Some(entry) = place.entry() {
        copies.push(entry.copy()?)?;
    }
    Ok(())
}

/// The entry at an optime.
pub(crate) fn entry_at(beyond: &VecDeque<Place>, at: OpTime) -> Option<&Entry>
    requires { AllPairs StandsFirst beyond.now.items }
    ensures found { IfSome (option_copied result) (λ entry. IsEntryAt (written beyond.now.items) at entry) }
    ensures none { IfNone result (All (λ entry. entry.optime ≢ at) (written beyond.now.items)) }
{
    let Some(place) = beyond.get(place_from(beyond, at.ts)) else {
        return None;
    };
    let Some(entry) = place.entry() else {
        return None;
    };
    if entry.optime != at {
        return None;
    }
    Some(entry)
}

/// The first place that isn't before a timestamp.
fn place_from(beyond: &VecDeque<Place>, ts: u64) -> usize
    ensures front { AllPairs StandsFirst beyond.now.items
        → AllWithin (λ place. (optime_of place).ts < ts) beyond.now.items 0 result }
    ensures back { AllPairs StandsFirst beyond.now.items
        → AllWithin (λ place. ts ≤ (optime_of place).ts) beyond.now.items result (length beyond.now.items) }
{
    beyond.partition_point(
        |place| -> bool
            ensures { result ≡ nat_lt (optime_of place.now).ts ts }
        { place.optime().ts < ts },
    )
}

fn is_open_at(beyond: &VecDeque<Place>, place: usize, at: OpTime) -> bool
    ensures { IsTrue result → slice_get beyond.now.items place ≡ Some (Open at) }
{
    match beyond.get(place) {
        Some(Place::Open(slot)) => *slot == at,
        Some(Place::Written(_) | Place::Closed(_)) | None => false,
    }
}

/// Moves all entries before the first open slot.
pub(crate) fn settle(settled: &mut Oplog, beyond: &mut VecDeque<Place>)
    requires held { IsHeld settled.old.entries beyond.old.items }
    requires room { length beyond.old.items ≤ settled.old.spare }
    ensures { Moved settled.old.entries beyond.old.items settled.old.spare settled.new.entries
        beyond.new.items settled.new.spare }
{
    while begins_settled(beyond) {
        move_first(settled, beyond);
    }
}

/// Moves all entries. No place is reserved for an open slot any more.
pub(crate) fn gather(settled: &mut Oplog, beyond: &mut VecDeque<Place>)
    requires held { IsHeld settled.old.entries beyond.old.items }
    requires room { length beyond.old.items ≤ settled.old.spare }
    ensures moved { Moved settled.old.entries beyond.old.items settled.old.spare settled.new.entries
        beyond.new.items settled.new.spare }
    ensures none { beyond.new.items ≡ [] }
{
    while !beyond.is_empty() {
        move_first(settled, beyond);
    }
}

fn begins_settled(beyond: &VecDeque<Place>) -> bool
    ensures { IsTrue result → 0 < length beyond.now.items }
{
    match beyond.front() {
        Some(Place::Written(_) | Place::Closed(_)) => true,
        Some(Place::Open(_)) | None => false,
    }
}

/// Removes the first place. Its entry, where it has one, is settled.
fn move_first(settled: &mut Oplog, beyond: &mut VecDeque<Place>)
    requires held { IsHeld settled.old.entries beyond.old.items }
    requires some { 0 < length beyond.old.items }
    requires room { length beyond.old.items ≤ settled.old.spare }
    ensures moved { Moved settled.old.entries beyond.old.items settled.old.spare settled.new.entries
        beyond.new.items settled.new.spare }
    ensures fewer { length beyond.new.items < length beyond.old.items }
{
    let Some(place) = beyond.pop_front() else {
        unreachable!()
    };
    match place.into_entry() {
        Some(entry) => settled.insert(entry),
        None => {}
    }
}

/// The optime of the last entry at a place before an optime, or another optime where there is none.
pub(crate) fn last_before(beyond: &VecDeque<Place>, at: OpTime, other: OpTime) -> OpTime
    requires { AllPairs StandsFirst beyond.now.items }
    ensures { (settled : List Entry) → other ≡ last_of settled
        → result ≡ last_of (settled ++ entries_before (Some at) (written beyond.now.items)) }
{
    let count = beyond.partition_point(
        |place| -> bool
            ensures { result ≡ is_before (optime_of place.now) at }
        { place.optime() < at },
    );
    last_written(beyond, count, other)
}

/// The optime of the last entry at one of the first places, or another optime where there is none.
fn last_written(beyond: &VecDeque<Place>, count: usize, other: OpTime) -> OpTime
    requires { count ≤ length beyond.now.items }
    ensures { (settled : List Entry) → other ≡ last_of settled
        → result ≡ last_of (settled ++ written (take count beyond.now.items)) }
{
    let mut last = other;
    for place in 0..count {
        last = written_or(&beyond[place], last);
    }
    last
}

/// The optime of the entry at a place, or another optime where there is none.
fn written_or(place: &Place, other: OpTime) -> OpTime
    ensures { (entries : List Entry) → other ≡ last_of entries
        → result ≡ last_of (entries ++ written (place.now ∷ [])) }
{
    match place.entry() {
        Some(entry) => entry.optime,
        None => other,
    }
}
