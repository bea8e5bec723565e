// The entries of a piece of a batch, by the shards that their documents belong to.
ghost use Rattle.std.specs.Prelude.{◌≡◌, ◌<◌, ◌++◌, ◌∷◌, [], All, length, IfOk, OnErr, OnOk};
ghost use Rattle.oplog_entry.specs.Lawful.{IsLawful};
ghost use Rattle.batch_applier.specs.Parts.{AreParts, IsAdded, IsApplied, IsBegun, IsReady};

use crate::touch::Touch;
use oplog_entry::Entry;
use rs_optime::Mem;
use std::alloc::Global;
use std::marker::Model;
use version_store::Shard;

/// Entries on documents of one shard, in order.
#[derive(Drop)]
pub(crate) struct Touches<'a> {
    touches: Vec<Touch<'a>>,
}

impl<'a> Model for Touches<'a> {
    ghost use Rattle.std.specs.Prelude.{List};
    ghost use Rattle.std.specs.Coded.{coded_list};
    ghost use Rattle.oplog_entry.specs.declared.entry.Entry.{Entry as Seen};
    ghost use Rattle.oplog_entry.specs.contracts.entry.Entry.{the_row};

    ghost Value = { List Seen };

    ghost coded = { coded_list the_row.coded };

    ghost view = { λ t. t.touches.items };
}

impl<'a> Touches<'a> {
    /// No entry, with room for this many.
    fn with_capacity(alloc: Global, room: usize) -> Mem<Self>
        ensures { IfOk result (λ touches. touches ≡ []) }
    {
        Ok(Touches {
            touches: Vec::with_capacity(alloc, room)?,
        })
    }

    fn push(&mut self, touch: Touch<'a>) -> Mem<()>
        ensures ok { OnOk result (self.new ≡ self.old ++ touch.entry ∷ []) }
        ensures err { OnErr result (self.new ≡ self.old) }
    {
        Ok(self.touches.push(touch)?)
    }

    pub(crate) fn len(&self) -> usize
        ensures { result ≡ length self.now }
    {
        self.touches.len()
    }

    /// Applies the entries to their shard, in order. Where memory runs out, some of them have been applied,
    /// from the first on.
    pub(crate) fn apply(&self, alloc: Global, shard: &mut Shard) -> Mem<()>
        requires { IsReady shard.old self.now }
        ensures ok { OnOk result (IsApplied shard.old shard.new self.now) }
        ensures begun { IsBegun shard.old shard.new self.now }
    {
        for touch in &self.touches {
            touch.apply(alloc, shard)?;
        }
        Ok(())
    }
}

/// A piece of a batch, with room for its parts.
#[derive(Drop)]
pub(crate) struct Piece<'a> {
    entries: &'a [Entry],
    parts: Vec<Touches<'a>>,
}

impl<'a> Piece<'a> {
    /// These entries, with room for their parts if they are spread evenly over this many shards.
    pub(crate) fn new(alloc: Global, entries: &'a [Entry], count: u32) -> Mem<Self>
        requires { 0 < count }
        ensures entries { IfOk result (λ piece. piece.entries.now ≡ entries.now) }
        ensures parts { IfOk result (λ piece. AreParts [] count piece.parts.items) }
    {
        let room = entries.len() / count as usize * 2;
        Ok(Piece {
            entries,
            parts: empty_parts(alloc, count, room)?,
        })
    }

    /// Splits the entries over this many shards.
    pub(crate) fn parted(self, count: u32) -> Mem<Vec<Touches<'a>>>
        requires some { 0 < count }
        requires parts { AreParts [] count self.parts.items }
        requires lawful { All IsLawful self.entries.now }
        ensures { IfOk result (λ parts. AreParts self.entry.entries.now count parts.items) }
    {
        let Piece { entries, mut parts } = self;
        for entry in entries {
            add(&mut parts, count, entry)?;
        }
        Ok(parts)
    }
}

/// Adds an entry after those on documents of its shard.
fn add<'a>(parts: &mut [Touches<'a>], count: u32, entry: &'a Entry) -> Mem<()>
    requires some { (0 < count) × (length parts.old ≡ count) }
    requires lawful { IsLawful entry.now }
    ensures long { length parts.new ≡ length parts.old }
    ensures added { OnOk result (IsAdded parts.old parts.new count entry.now) }
{
    let Some(touch) = Touch::of(entry)? else {
        return Ok(());
    };
    let place = touch.shard(count) as usize;
    let part = &mut parts[place];
    part.push(touch)
}

/// Parts without entries, each with room for this many.
fn empty_parts<'a>(alloc: Global, count: u32, room: usize) -> Mem<Vec<Touches<'a>>>
    ensures { IfOk result (λ parts. AreParts [] count parts.items) }
{
    let mut parts = Vec::with_capacity(alloc, count as usize)?;
    for _ in 0..count {
        parts.push(Touches::with_capacity(alloc, room)?)?;
    }
    Ok(parts)
}
