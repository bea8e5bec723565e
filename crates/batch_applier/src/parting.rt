// A batch split over shards by parallel threads. Most of that time is spent waiting for memory, since what an
// entry touches is first looked at here.
ghost use Rattle.std.specs.Prelude.{◌≡◌, ◌<◌, [], All, length, IfOk};
ghost use Rattle.std.specs.Thread.{IsSync};
ghost use Rattle.oplog_entry.specs.Lawful.{IsLawful};
ghost use Rattle.batch_applier.specs.Parts.{AreJoined, AreParts};

use crate::part::Part;
use crate::touches::{Piece, Touches};
use oplog_entry::Entry;
use rs_optime::Mem;
use std::alloc::Global;
use std::thread::{Threads, join};

/// Splits a batch over this many shards, with this many threads, each of which splits a piece of it. The
/// caller makes the room, so that a thread takes no memory of its own for it.
#[cycle(parting)]
pub(crate) fn parted_by<'a, R: Threads + Sync>(
    rt: &R,
    alloc: Global,
    threads: u32,
    entries: &'a [Entry],
    count: u32,
) -> Mem<Vec<Part<'a>>>
    requires some { 0 < count }
    requires lawful { All IsLawful entries.now }
    ensures { IfOk result (λ parts. AreParts entries.now count parts.items) }
{
    if threads <= 1 {
        let piece = Piece::new(alloc, entries, count)?;
        return appended(empty_parts(alloc, count)?, piece.parted(count)?);
    }
    let own = entries.len() / threads as usize;
    let (front, back) = entries.split_at(entries.len() - own);
    let piece = Piece::new(alloc, back, count)?;
    let last = || -> Mem<Vec<Touches<'_>>>
        requires { (0 < count) × AreParts [] count piece.parts.items × All IsLawful piece.entries.now }
        ensures { IfOk result (λ parts. AreParts piece.entry.entries.now count parts.items) }
    { piece.parted(count) };
    let others = || -> Mem<Vec<Part<'_>>>
        requires { IsSync R.row × (0 < count) × (1 < threads) × All IsLawful front.now }
        ensures { IfOk result (λ parts. AreParts front.entry.now count parts.items) }
    { parted_by(rt, alloc, threads - 1, front, count) };
    let (last, parts) = join(rt, last, others);
    appended(parts?, last?)
}

/// Parts without entries.
fn empty_parts<'a>(alloc: Global, count: u32) -> Mem<Vec<Part<'a>>>
    ensures { IfOk result (λ parts. AreParts [] count parts.items) }
{
    let mut parts = Vec::with_capacity(alloc, count as usize)?;
    for _ in 0..count {
        parts.push(Part::new(alloc))?;
    }
    Ok(parts)
}

/// Appends to each part what belongs to it of the next piece of a batch.
fn appended<'a>(mut parts: Vec<Part<'a>>, piece: Vec<Touches<'a>>) -> Mem<Vec<Part<'a>>>
    requires { length parts.items ≡ length piece.items }
    ensures { IfOk result (λ all. AreJoined parts.entry.items piece.entry.items all.items) }
{
    let mut place = 0;
    for touches in piece {
        parts[place].append(touches)?;
        place += 1;
    }
    Ok(parts)
}
