// An entry of a batch, with the document that it touches.
ghost use Rattle.std.specs.Prelude.{◌≡◌, ◌<◌, ◌∷◌, [], All, None, Some, IfOk, MatchOption, OnErr, OnOk, true};
ghost use Rattle.std.specs.Option.{option_copied};
ghost use Rattle.bson_doc.specs.Place.{Place};
ghost use Rattle.oplog_entry.specs.Lawful.{IsLawful};
ghost use Rattle.oplog_entry.specs.Step.{place_of, document_after};
ghost use Rattle.version_store.specs.Past.{is_before, latest_of};
ghost use Rattle.version_store.specs.Shards.{past_of, BelongsTo};
ghost use Rattle.batch_applier.specs.Parts.{is_in, IsApplied};

use bson_doc::{Doc, IdKey, Text};
use doc_fold::document_after;
use oplog_entry::{Entry, Op};
use rs_optime::Mem;
use std::alloc::Global;
use std::marker::Model;
use version_store::{Shard, shard_of};

/// An entry, and the document that it touches.
#[derive(Drop)]
pub(crate) struct Touch<'a> {
    ns: &'a Text,
    id: IdKey,
    entry: &'a Entry,
}

impl<'a> Model for Touch<'a> {
    ghost use Rattle.std.specs.Prelude.{◌≡◌, Some};
    ghost use Rattle.oplog_entry.specs.declared.entry.Entry.{Entry as Seen};
    ghost use Rattle.oplog_entry.specs.contracts.entry.Entry.{the_row};
    ghost use Rattle.oplog_entry.specs.Step.{place_of};

    ghost Value = { Seen };

    ghost coded = { the_row.coded };

    ghost view = { λ t. t.entry.now };

    ghost invariant = { λ t. place_of t.entry.now.op ≡ Some (t.ns.now, t.id) };
}

impl<'a> Touch<'a> {
    /// What an entry touches. None for a no-op and a note.
    pub(crate) fn of(entry: &'a Entry) -> Mem<Option<Self>>
        requires { IsLawful entry.now }
        ensures { IfOk result (λ touch.
            MatchOption touch (place_of entry.now.op ≡ None) (λ t. t ≡ entry.now)) }
    {
        let Some((ns, id)) = entry.touched()? else {
            return Ok(None);
        };
        Ok(Some(Touch { ns, id, entry }))
    }

    /// The number of the document's shard among `count` shards, counted from 0.
    pub(crate) fn shard(&self, count: u32) -> u32
        requires { 0 < count }
        ensures { is_in count result (place_of self.now.op) ≡ true }
    {
        shard_of(self.ns.as_str(), &self.id, count)
    }

    pub(crate) fn apply(&self, alloc: Global, shard: &mut Shard) -> Mem<()>
        requires own { (place : Place) → place_of self.now.op ≡ Some place
            → BelongsTo shard.old.number shard.old.count place }
        requires later { (place : Place) → place_of self.now.op ≡ Some place
            → All (λ version. is_before version.at self.now.optime ≡ true)
            (past_of shard.old place).versions }
        ensures ok { OnOk result (IsApplied shard.old shard.new (self.now ∷ [])) }
        ensures err { OnErr result (shard.new ≡ shard.old) }
    {
        let ns = self.ns.as_str();
        let before = self.base(shard);
        let after = document_after(alloc, self.entry.op.or(&Op::Noop), before)?;
        shard.put_in(ns, self.id.copy()?, self.entry.optime, after)
    }

    /// The document whose fields the op changes. Other ops leave the same whatever was there, so for these
    /// nothing is looked up.
    fn base<'s>(&self, shard: &'s Shard) -> Option<&'s Doc>
        ensures { (place : Place) → place_of self.now.op ≡ Some place
            → document_after self.now.op (option_copied result)
            ≡ document_after self.now.op (latest_of (past_of shard.now place).versions) }
    {
        match self.entry.op.or(&Op::Noop) {
            Op::Fields { .. } | Op::Noop | Op::Note => shard.latest(self.ns.as_str(), &self.id),
            Op::Insert { .. } | Op::Replace { .. } | Op::Delete { .. } => None,
        }
    }
}
