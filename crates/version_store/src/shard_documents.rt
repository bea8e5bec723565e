// The documents whose places hash to one number.
ghost use Rattle.std.specs.Prelude.{◌≡◌, [], All, Some, None, true, false, MatchOption, OnOk, OnErr};
ghost use Rattle.std.specs.Option.{option_copied};
ghost use Rattle.version_store.specs.Past.{no_past, is_before, shown, with_version, held_by, IsRising};
ghost use Rattle.version_store.specs.Cuts.{left_by};
ghost use Rattle.version_store.specs.Shown.{AddsShown};
ghost use Rattle.version_store.specs.Documents.{ChangesEachIn};
ghost use Rattle.version_store.specs.Shards.{documents_of, past_of, BelongsTo, HasItsOwn, OwnsAll, ChangesCollection, ChangesOf, ChangesEachOf};

use crate::collection::Collection;
use crate::cut::Cut;
use crate::history::History;
use crate::shown::Shown;
use bson_doc::{Doc, IdKey};
use rs_optime::{Mem, OpTime};
use std::alloc::Global;
use std::collections::BTreeMap;
use std::marker::Model;

/// The documents of one shard, by collection and then by key, so that no look-up makes a key. A shard has a
/// number, and knows how many shards there are: a document belongs to it where `shard_of` gives that number.
#[derive(Drop)]
pub(crate) struct ShardDocuments {
    alloc: Global,
    number: u32,
    count: u32,
    collections: BTreeMap<String, Collection>,
}

impl Model for ShardDocuments {
    ghost use Rattle.version_store.specs.Shards.{Shard as Seen, HasItsOwn};
    ghost use Rattle.version_store.specs.ShardView.{collections_of};
    ghost use Rattle.version_store.specs.Code.{shard_code};

    ghost Value = { Seen };

    ghost coded = { shard_code };

    ghost view = { λ s.
        record { number = s.number; count = s.count; collections = collections_of s.collections.entries } };

    ghost invariant = { λ s. HasItsOwn (record {
      number = s.number;
      count = s.count;
      collections = collections_of s.collections.entries;
    }) };
}

impl ShardDocuments {
    /// A shard without documents: shard `number` of `count`.
    pub(crate) fn new(alloc: Global, number: u32, count: u32) -> Self
        ensures { result ≡ record { number = number; count = count; collections = [] } }
    {
        ShardDocuments {
            alloc,
            number,
            count,
            collections: BTreeMap::new(alloc),
        }
    }

    /// The newest version of a document at or before an optime. None where that is a deletion, or
    /// there is none.
    pub(crate) fn read_at(&self, ns: &str, id: &IdKey, at: OpTime) -> Option<&Doc>
        ensures shown { option_copied result ≡ shown at (past_of self.now (ns.now, id.now)).versions }
        ensures rising { IsRising (past_of self.now (ns.now, id.now)).versions }
    {
        self.history(ns, id)?.read_at(at)
    }

    pub(crate) fn history(&self, ns: &str, id: &IdKey) -> Option<&History>
        ensures { MatchOption result (past_of self.now (ns.now, id.now) ≡ no_past)
            (λ history. past_of self.now (ns.now, id.now) ≡ history.now) }
    {
        self.collection(ns)?.history(id)
    }

    pub(crate) fn hold(&mut self, ns: &str, id: &IdKey, writer: u32) -> Mem<()>
        requires { BelongsTo self.old.number self.old.count (ns.now, id.now) }
        ensures ok { OnOk result (ChangesOf self.old self.new (ns.now, id.now)
            (held_by (past_of self.old (ns.now, id.now)) (Some writer))) }
        ensures err { OnErr result (self.new ≡ self.old) }
    {
        if let Some(collection) = self.collections.get_mut(ns) {
            collection.hold(id, writer)?;
            return Ok(());
        }
        let mut collection = Collection::new(self.alloc);
        collection.hold(id, writer)?;
        self.add(ns, collection)?;
        Ok(())
    }

    pub(crate) fn release(&mut self, ns: &str, id: &IdKey)
        requires { BelongsTo self.old.number self.old.count (ns.now, id.now) }
        ensures { ChangesOf self.old self.new (ns.now, id.now)
            (held_by (past_of self.old (ns.now, id.now)) None) }
    {
        let Some(collection) = self.collections.get_mut(ns) else {
            return;
        };
        collection.release(id);
    }

    /// Adds a version of one of the shard's documents, newer than each that it has. None is a deletion.
    pub(crate) fn put_in(&mut self, ns: &str, id: IdKey, at: OpTime, doc: Option<Doc>) -> Mem<()>
        requires own { BelongsTo self.old.number self.old.count (ns.now, id) }
        requires later { All (λ version. is_before version.at at ≡ true)
            (past_of self.old (ns.now, id)).versions }
        ensures ok { OnOk result (ChangesOf self.old self.new (ns.now, id)
            (with_version (past_of self.old (ns.now, id)) (record { at = at; doc = doc }))) }
        ensures err { OnErr result (self.new ≡ self.old) }
    {
        if let Some(collection) = self.collections.get_mut(ns) {
            collection.put(id, at, doc)?;
            return Ok(());
        }
        let mut collection = Collection::new(self.alloc);
        collection.put(id, at, doc)?;
        self.add(ns, collection)?;
        Ok(())
    }

    pub(crate) fn cut(&mut self, cut: Cut)
        ensures { ChangesEachOf self.old self.new (left_by cut) }
    {
        self.collections.retain(
            |_name, collection| -> bool
                ensures each { ChangesEachIn collection.old collection.new (left_by cut) }
                ensures dropped { result ≡ false → collection.new ≡ [] }
            {
                collection.cut(cut);
                !collection.is_empty()
            },
        );
    }

    /// Adds the documents that a read at an optime shows, in runs, each of one collection and in order of its
    /// keys, and the length of each run.
    pub(crate) fn add_shown<'a>(
        &'a self,
        at: OpTime,
        gathered: &mut Vec<Shown<'a>>,
        lengths: &mut Vec<usize>,
    ) -> Mem<()>
        ensures shown { OnOk result (AddsShown gathered.old.items gathered.new.items (λ place.
            shown at (past_of self.now place).versions)) }
        ensures own { HasItsOwn self.now }
    {
        for (name, collection) in &self.collections {
            collection.add_shown(name, at, gathered, lengths)?;
        }
        Ok(())
    }

    /// Recalls that each document belongs to the shard.
    pub(crate) fn recall_own(&self)
        ensures { HasItsOwn self.now }
    {
        let _ = &self.number;
    }

    /// How many documents have a history.
    pub(crate) fn len(&self) -> usize {
        let mut len: usize = 0;
        for (_, collection) in &self.collections {
            len = len.saturating_add(collection.len());
        }
        len
    }

    fn collection(&self, ns: &str) -> Option<&Collection>
        ensures { MatchOption result (documents_of self.now.collections ns.now ≡ [])
            (λ c. documents_of self.now.collections ns.now ≡ c.now) }
    {
        self.collections.get(ns)
    }

    /// Adds a collection, or replaces the one that has its name.
    fn add(&mut self, ns: &str, collection: Collection) -> Mem<()>
        requires { OwnsAll self.old.number self.old.count ns.now collection }
        ensures ok { OnOk result (ChangesCollection self.old self.new ns.now collection) }
        ensures err { OnErr result (self.new ≡ self.old) }
    {
        let name = String::from_str(self.alloc, ns)?;
        self.collections.insert(name, collection)?;
        Ok(())
    }
}
