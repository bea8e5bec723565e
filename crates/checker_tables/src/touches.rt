// How late the documents of a log are touched, so that an entry that comes late is known to touch another one
// than all after it. Where memory runs out, nothing is known any more.
ghost use Rattle.std.specs.Prelude.{◌≡◌, ◌++◌, ◌∷◌, [], false, All, IsTrue, List, IfOk};
ghost use Rattle.std.specs.BTreeMap.{get};
ghost use Rattle.bson_doc.specs.Place.{place_cmp};
ghost use Rattle.doc_shelf.specs.Shelf.{AreApart};
ghost use Rattle.oplog_entry.specs.Visible.{is_before};
ghost use Rattle.oplog_entry.specs.declared.entry.Entry.{Entry as Seen};
ghost use Rattle.oplog_store.specs.Log.{with_entry};
ghost use Rattle.checker_tables.specs.Touching.{EndAll, EndAlso, ends_before};

use crate::writer_map::touched;
use bson_doc::{IdKey, Mem, Text};
use oplog_entry::{Entry, Op};
use rs_optime::OpTime;
use std::alloc::Global;
use std::collections::BTreeMap;

/// For each document that an entry touches, an optime that no such entry is later than. It is made as the
/// first entry comes late, and follows the log from then on.
#[derive(Drop)]
pub(crate) struct Touches {
    alloc: Global,
    ends: Option<BTreeMap<(Text, IdKey), OpTime>>,
}

impl Touches {
    /// Nothing is known.
    pub(crate) fn new(alloc: Global) -> Self
        ensures { (log : List Seen) → EndAll log result.ends }
    {
        Touches { alloc, ends: None }
    }

    /// Whether an entry that comes to a place in a log is known to touch another document than
    /// each after it.
    pub(crate) fn is_apart(&mut self, entries: &[Entry], place: usize, entry: &Entry) -> bool
        ensures ends { EndAll entries.now self.old.ends → EndAll entries.now self.new.ends }
        ensures apart { EndAll entries.now self.old.ends → IsTrue result
            → All (λ other. is_before other.optime entry.now.optime ≡ false → AreApart entry.now other)
            entries.now }
    {
        if place == entries.len() {
            return false;
        }
        self.ends = known(self.alloc, self.ends.take(), entries);
        is_apart(&self.ends, entry)
    }

    /// An entry comes to its place.
    pub(crate) fn note(&mut self, entry: &Entry)
        ensures { (log : List Seen) → EndAll log self.old.ends
            → EndAll (with_entry log entry.now) self.new.ends }
    {
        self.ends = with(self.ends.take(), entry);
    }

    /// Entries come after all others.
    pub(crate) fn note_all(&mut self, entries: &[Entry])
        ensures { (log : List Seen) → EndAll log self.old.ends
            → EndAll (log ++ entries.now) self.new.ends }
    {
        self.ends = with_all(self.ends.take(), entries);
    }
}

/// What is known of a log, or what is found by going through it.
fn known(
    alloc: Global,
    ends: Option<BTreeMap<(Text, IdKey), OpTime>>,
    entries: &[Entry],
) -> Option<BTreeMap<(Text, IdKey), OpTime>>
    ensures { EndAll entries.now ends → EndAll entries.now result }
{
    if ends.is_some() {
        return ends;
    }
    with_all(Some(BTreeMap::new(alloc)), entries)
}

/// Whether an entry is known to touch another document than each after it.
#[tactic(auto, using(crate::proofs::TouchLemmas::apart_none, crate::proofs::TouchLemmas::apart_of))]
fn is_apart(ends: &Option<BTreeMap<(Text, IdKey), OpTime>>, entry: &Entry) -> bool
    ensures { (log : List Seen) → EndAll log ends.now → IsTrue result
        → All (λ other. is_before other.optime entry.now.optime ≡ false → AreApart entry.now other) log }
{
    let Some(ends) = ends else {
        return false;
    };
    let Ok(place) = touched(entry.op.or(&Op::Noop)) else {
        return false;
    };
    let Some(place) = place else {
        return true;
    };
    ends_before(ends, &place, entry.optime)
}

/// Whether the end of a document is before an optime, or there is none.
fn ends_before(ends: &BTreeMap<(Text, IdKey), OpTime>, place: &(Text, IdKey), at: OpTime) -> bool
    ensures { result ≡ ends_before (get place_cmp ends.now place.now) at }
{
    match ends.get(place) {
        Some(end) => *end < at,
        None => true,
    }
}

/// With some entries more, after all others.
fn with_all(
    ends: Option<BTreeMap<(Text, IdKey), OpTime>>,
    entries: &[Entry],
) -> Option<BTreeMap<(Text, IdKey), OpTime>>
    ensures { (log : List Seen) → EndAll log ends → EndAll (log ++ entries.now) result }
{
    let mut ends = ends;
    for entry in entries {
        ends = with(ends, entry);
    }
    ends
}

/// With an entry more, wherever it comes.
fn with(
    ends: Option<BTreeMap<(Text, IdKey), OpTime>>,
    entry: &Entry,
) -> Option<BTreeMap<(Text, IdKey), OpTime>>
    ensures after { (log : List Seen) → EndAll log ends → EndAll (log ++ entry.now ∷ []) result }
    ensures placed { (log : List Seen) → EndAll log ends → EndAll (with_entry log entry.now) result }
{
    let Some(ends) = ends else {
        return None;
    };
    let Ok(place) = touched(entry.op.or(&Op::Noop)) else {
        return None;
    };
    let Some(place) = place else {
        return Some(ends);
    };
    let Ok(ends) = with_end(ends, place, entry.optime) else {
        return None;
    };
    Some(ends)
}

/// With an optime that the end of a document isn't before.
#[tactic(auto, using(crate::proofs::TouchLemmas::end_put, crate::proofs::TouchLemmas::end_there))]
fn with_end(
    ends: BTreeMap<(Text, IdKey), OpTime>,
    place: (Text, IdKey),
    at: OpTime,
) -> Mem<BTreeMap<(Text, IdKey), OpTime>>
    ensures { IfOk result (λ new. EndAlso place at ends new) }
{
    let mut ends = ends;
    if !ends_before(&ends, &place, at) {
        return Ok(ends);
    }
    ends.insert(place, at)?;
    Ok(ends)
}
