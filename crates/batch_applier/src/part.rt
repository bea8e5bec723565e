// The entries of a batch on the documents of one shard.
ghost use Rattle.std.specs.Prelude.{◌≡◌, ◌++◌, [], OnErr, OnOk};
ghost use Rattle.batch_applier.specs.Parts.{AreApplied, AreReady, IsApplied, IsBegun, IsReady};

use crate::touches::Touches;
use rs_optime::Mem;
use std::alloc::Global;
use std::marker::Model;
use version_store::Shard;

/// The entries of a batch on documents of one shard, in order, as they came in each of its pieces.
#[derive(Drop)]
pub(crate) struct Part<'a> {
    pieces: Vec<Touches<'a>>,
}

impl<'a> Model for Part<'a> {
    ghost use Rattle.std.specs.Prelude.{List};
    ghost use Rattle.std.specs.Coded.{coded_list};
    ghost use Rattle.oplog_entry.specs.declared.entry.Entry.{Entry as Seen};
    ghost use Rattle.oplog_entry.specs.contracts.entry.Entry.{the_row};
    ghost use Rattle.batch_applier.specs.Parts.{joined};

    ghost Value = { List Seen };

    ghost coded = { coded_list the_row.coded };

    ghost view = { λ p. joined p.pieces.items };
}

impl<'a> Part<'a> {
    /// No entry.
    pub(crate) fn new(alloc: Global) -> Self
        ensures { result ≡ [] }
    {
        Part {
            pieces: Vec::new(alloc),
        }
    }

    /// Appends those of the next piece.
    pub(crate) fn append(&mut self, touches: Touches<'a>) -> Mem<()>
        ensures ok { OnOk result (self.new ≡ self.old ++ touches.entry) }
        ensures err { OnErr result (self.new ≡ self.old) }
    {
        Ok(self.pieces.push(touches)?)
    }

    /// How many entries there are, or the greatest number if there are more.
    pub(crate) fn len(&self) -> usize {
        let mut len: usize = 0;
        for touches in &self.pieces {
            len = len.saturating_add(touches.len());
        }
        len
    }

    /// Applies the entries to their shard, in order. Where memory runs out, some of them have been applied,
    /// from the first on.
    pub(crate) fn apply(&self, alloc: Global, shard: &mut Shard) -> Mem<()>
        requires { IsReady shard.old self.now }
        ensures ok { OnOk result (IsApplied shard.old shard.new self.now) }
        ensures begun { IsBegun shard.old shard.new self.now }
    {
        for touches in &self.pieces {
            touches.apply(alloc, shard)?;
        }
        Ok(())
    }
}

/// Applies the parts of all shards, one after another. Where memory runs out, some of the entries have been
/// applied.
pub(crate) fn apply_in_turn(alloc: Global, parts: &[Part<'_>], shards: &mut [Shard]) -> Mem<()>
    requires { AreReady shards.old parts.now }
    ensures { AreApplied result shards.old shards.new parts.now }
{
    for place in 0..shards.len() {
        parts[place].apply(alloc, &mut shards[place])?;
    }
    Ok(())
}
