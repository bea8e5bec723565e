// Entries applied one after another, each to the shard of its document.
ghost use Rattle.std.specs.Prelude.{◌≡◌, ◌<◌, ◌∷◌, [], All, length, OnErr, OnOk};
ghost use Rattle.oplog_entry.specs.Lawful.{IsLawful};
ghost use Rattle.batch_applier.specs.Parts.{EachOf, IsApplied, IsBegun, IsEachReady, IsReadyFor};

use crate::touch::Touch;
use oplog_entry::Entry;
use rs_optime::Mem;
use std::alloc::Global;
use version_store::Shard;

/// Applies entries one after another, each to the shard of its document, without splitting the batch. Where
/// memory runs out, some of the entries have been applied.
pub(crate) fn apply_each(
    alloc: Global,
    count: u32,
    entries: &[Entry],
    shards: &mut [Shard],
) -> Mem<()>
    requires lawful { All IsLawful entries.now }
    requires count { (0 < count) × (length shards.old ≡ count) }
    requires ready { IsEachReady shards.old entries.now }
    ensures ok { OnOk result (EachOf IsApplied shards.old shards.new entries.now) }
    ensures begun { EachOf IsBegun shards.old shards.new entries.now }
{
    for entry in entries {
        apply_one(alloc, count, entry, shards)?;
    }
    Ok(())
}

/// Applies an entry to the shard of its document.
fn apply_one(alloc: Global, count: u32, entry: &Entry, shards: &mut [Shard]) -> Mem<()>
    requires count { (0 < count) × (length shards.old ≡ count) }
    requires lawful { IsLawful entry.now }
    requires ready { IsReadyFor shards.old entry.now }
    ensures ok { OnOk result (EachOf IsApplied shards.old shards.new (entry.now ∷ [])) }
    ensures err { OnErr result (shards.new ≡ shards.old) }
{
    let Some(touch) = Touch::of(entry)? else {
        return Ok(());
    };
    let place = touch.shard(count) as usize;
    touch.apply(alloc, &mut shards[place])
}
