ghost use Rattle.std.specs.Prelude.{◌≡◌, ◌≢◌, ◌↔◌, [], ◌<◌, ℕ, All, Contains, Some, None, IsSome, true, IfOk, IsErrOf, MatchOption, OnOk, OnErr};
ghost use Rattle.std.specs.Option.{option_copied};
ghost use Rattle.bson_doc.specs.Place.{Place, place_cmp};
ghost use Rattle.std.specs.List.Sorted.{IsStrictlySortedBy};
ghost use Rattle.version_store.specs.Past.{no_past, is_before, latest_of, with_version, held_by, back_to, back_before, pruned, IsRising};
ghost use Rattle.version_store.specs.Cuts.{left_by};
ghost use Rattle.version_store.specs.Shards.{past_of};
ghost use Rattle.version_store.specs.Shown.{AddsShown, AreShown};
ghost use Rattle.version_store.specs.Store.{past_at, versions_at, holder_at, shown_at, AreShards, AreAllOrNone, Changes, ChangesEach};

use crate::cut::Cut;
use crate::history::History;
use crate::place::shard_of;
use crate::shard::Shard;
use crate::shown::{Shown, in_order, keys_of};
use bson_doc::{Doc, IdKey, Text};
use rs_optime::{Mem, OpTime};
use std::alloc::{AllocError, Global};
use std::marker::Model;
use std::mem::replace;
use thiserror::Error;

/// Why a document wasn't held.
#[derive(Clone, Copy, Debug, PartialEq, Eq, Error)]
pub enum HoldError {
    /// Another writer holds it: this one.
    #[error("writer {0} holds the document")]
    Held(u32),
    #[error("out of memory")]
    Memory,
}

impl From<AllocError> for HoldError {
    ghost use Rattle.std.specs.Prelude.{◌≡◌};
    ghost use Rattle.version_store.specs.declared.store.HoldError.TheVariants.{Memory};

    ghost from_gives = { λ _ e. e ≡ Memory };

    fn from(_: AllocError) -> Self {
        HoldError::Memory
    }
}

/// The newest version of a document, and the writer that holds it.
#[derive(Drop)]
pub struct Current<'a> {
    /// None where it was deleted or never existed.
    pub latest: Option<&'a Doc>,
    pub holder: Option<u32>,
}

/// Documents with their versions by optime, and the writers that hold them, in shards. From `take_shards` to
/// `put_shards` it has no shards: nothing is found, and `put` and `hold` return out of memory.
#[derive(Drop)]
pub struct VersionStore {
    count: u32,
    shards: Vec<Shard>,
}

impl Model for VersionStore {
    ghost use Rattle.version_store.specs.Store.{Store};
    ghost use Rattle.version_store.specs.Code.{store_code};

    ghost Value = { Store };

    ghost coded = { store_code };

    ghost use Rattle.version_store.specs.Store.{AreAllOrNone};

    ghost view = { λ s. record { count = s.count; shards = s.shards.items } };

    ghost invariant = { λ s. AreAllOrNone s.count s.shards.items };
}

impl VersionStore {
    /// A store of `shards` shards without documents. The only error is out of memory.
    pub fn new(alloc: Global, shards: u32) -> Mem<Self>
        requires { 0 < shards }
        ensures count { IfOk result (λ store. store.count ≡ shards) }
        ensures whole { IfOk result (λ store. AreShards shards store.shards) }
        ensures empty { IfOk result (λ store. (place : Place) → past_at store place ≡ no_past) }
    {
        let mut list = Vec::with_capacity(alloc, shards as usize)?;
        for number in 0..shards {
            list.push(Shard::new(alloc, number, shards))?;
        }
        Ok(VersionStore {
            count: shards,
            shards: list,
        })
    }

    /// The newest version of a document. None where it was deleted or never existed.
    pub fn latest(&self, ns: &str, id: &IdKey) -> Option<&Doc>
        ensures latest { option_copied result ≡ latest_of (versions_at self.now (ns.now, id.now)) }
        ensures rising { IsRising (versions_at self.now (ns.now, id.now)) }
    {
        self.history(ns, id)?.latest()
    }

    /// The newest version of a document at or before an optime. None where that is a deletion, or
    /// there is none.
    pub fn read_at(&self, ns: &str, id: &IdKey, at: OpTime) -> Option<&Doc>
        ensures shown { option_copied result ≡ shown_at self.now (ns.now, id.now) at }
        ensures rising { IsRising (versions_at self.now (ns.now, id.now)) }
    {
        self.history(ns, id)?.read_at(at)
    }

    /// The writer that holds a document.
    pub fn holder(&self, ns: &str, id: &IdKey) -> Option<u32>
        ensures { result ≡ holder_at self.now (ns.now, id.now) }
    {
        self.history(ns, id)?.holder()
    }

    /// What `latest` and `holder` give, in one look-up.
    pub fn current(&self, ns: &str, id: &IdKey) -> Current<'_>
        ensures latest { option_copied result.latest ≡ latest_of (versions_at self.now (ns.now, id.now)) }
        ensures rising { IsRising (versions_at self.now (ns.now, id.now)) }
        ensures holder { result.holder ≡ holder_at self.now (ns.now, id.now) }
    {
        match self.history(ns, id) {
            Some(history) => Current {
                latest: history.latest(),
                holder: history.holder(),
            },
            None => Current {
                latest: None,
                holder: None,
            },
        }
    }

    /// Lets a writer hold a document. `Held` where another writer holds it. An error leaves the store
    /// as it was.
    pub fn hold(&mut self, ns: &str, id: &IdKey, writer: u32) -> Result<(), HoldError>
        ensures ok { OnOk result (Changes self.old self.new (ns.now, id.now)
            (held_by (past_at self.old (ns.now, id.now)) (Some writer))) }
        ensures held { (other : ℕ) → IsErrOf result (HoldError.Held other)
            ↔ ((holder_at self.old (ns.now, id.now) ≡ Some other) × (other ≢ writer)) }
        ensures err { OnErr result (self.new ≡ self.old) }
    {
        if let Some(other) = self.holder(ns, id)
            && other != writer
        {
            return Err(HoldError::Held(other));
        }
        let place = shard_of(ns, id, self.count) as usize;
        let Some(shard) = self.shards.get_mut(place) else {
            return Err(HoldError::Memory);
        };
        shard.hold(ns, id, writer)?;
        Ok(())
    }

    /// Makes nobody hold a document, whoever held it.
    pub fn release(&mut self, ns: &str, id: &IdKey)
        ensures { Changes self.old self.new (ns.now, id.now)
            (held_by (past_at self.old (ns.now, id.now)) None) }
    {
        let place = shard_of(ns, id, self.count) as usize;
        let Some(shard) = self.shards.get_mut(place) else {
            return;
        };
        shard.release(ns, id);
    }

    /// Adds a version of a document, newer than each that it has. None is a deletion. Out of memory leaves
    /// the store as it was.
    pub fn put(&mut self, ns: Text, id: IdKey, at: OpTime, doc: Option<Doc>) -> Mem<()>
        requires { All (λ version. is_before version.at at ≡ true) (versions_at self.old (ns, id)) }
        ensures ok { OnOk result (Changes self.old self.new (ns, id)
            (with_version (past_at self.old (ns, id)) (record { at = at; doc = doc }))) }
        ensures err { OnErr result (self.new ≡ self.old) }
    {
        self.put_in(ns.as_str(), id, at, doc)
    }

    /// The places of the documents that a read at an optime shows, in order of collection and key.
    pub fn keys_at(&self, at: OpTime) -> Mem<Vec<(Text, IdKey)>>
        ensures order { IfOk result (λ keys. IsStrictlySortedBy place_cmp keys.items) }
        ensures shown { IfOk result (λ keys.
            (place : Place) → Contains keys.items place ↔ IsSome (shown_at self.now place at)) }
    {
        keys_of(*self.shards.allocator(), &self.documents_at(at)?)
    }

    /// The documents that a read at an optime shows, in order of collection and key.
    pub fn documents_at(&self, at: OpTime) -> Mem<Vec<Shown<'_>>>
        ensures { IfOk result (λ documents. AreShown self.now at documents.items) }
    {
        let mut lengths = Vec::new(*self.shards.allocator());
        let documents = self.gathered(at, &mut lengths)?;
        let ordered = in_order(documents, lengths)?;
        Ok(ordered)
    }

    /// Lists what a read at an optime shows, so that `keys_at` and `documents_at` there visit no other
    /// documents, neither deleted ones nor later ones, until versions are dropped. The last two optimes
    /// listed are remembered. Where memory runs out, nothing is listed.
    pub fn list_at(&mut self, at: OpTime)
        ensures { self.new ≡ self.old }
    {
        for shard in self.shards.iter_mut() {
            shard.list_at(at);
        }
    }

    /// Drops every version after an optime.
    pub fn back_to(&mut self, at: OpTime)
        ensures { ChangesEach self.old self.new (back_to at) }
    {
        self.cut(Cut::After(at));
    }

    /// Drops every version at or after an optime.
    pub fn back_before(&mut self, at: OpTime)
        ensures { ChangesEach self.old self.new (back_before at) }
    {
        self.cut(Cut::From(at));
    }

    /// Drops the versions that make no difference to a read at or after an optime: those before the newest
    /// one at or before it, and that one too where it is a deletion.
    pub fn prune(&mut self, at: OpTime)
        ensures dropped { ChangesEach self.old self.new (pruned at) }
    {
        self.cut(Cut::Unseen(at));
    }

    /// How many shards the documents are spread over.
    pub fn shard_count(&self) -> u32
        ensures count { result ≡ self.now.count }
        ensures some { 0 < result }
    {
        self.count
    }

    /// Takes the shards out, in order of their numbers, so that threads may work on them. Returns no shards
    /// where they are already out.
    pub fn take_shards(&mut self) -> Vec<Shard>
        ensures taken { result.items ≡ self.old.shards }
        ensures whole { AreAllOrNone self.old.count result.items }
        ensures left { self.new ≡ record { count = self.old.count; shards = [] } }
    {
        let none = Vec::new(*self.shards.allocator());
        replace(&mut self.shards, none)
    }

    /// Puts the shards back: as many as were taken, in order of their numbers.
    pub fn put_shards(&mut self, shards: Vec<Shard>)
        requires { AreShards self.old.count shards.items }
        ensures { self.new ≡ record { count = self.old.count; shards = shards.items } }
    {
        self.shards = shards;
    }

    fn cut(&mut self, cut: Cut)
        ensures { ChangesEach self.old self.new (left_by cut) }
    {
        for shard in self.shards.iter_mut() {
            shard.cut(cut);
        }
    }

    fn put_in(&mut self, ns: &str, id: IdKey, at: OpTime, doc: Option<Doc>) -> Mem<()>
        requires { All (λ version. is_before version.at at ≡ true) (versions_at self.old (ns.now, id)) }
        ensures ok { OnOk result (Changes self.old self.new (ns.now, id)
            (with_version (past_at self.old (ns.now, id)) (record { at = at; doc = doc }))) }
        ensures err { OnErr result (self.new ≡ self.old) }
    {
        let place = shard_of(ns, &id, self.count) as usize;
        let Some(shard) = self.shards.get_mut(place) else {
            return Err(AllocError);
        };
        shard.put_in(ns, id, at, doc)?;
        Ok(())
    }

    // The documents that a read at an optime shows, in runs, each in order of its keys, and the length
    // of each run.
    fn gathered(&self, at: OpTime, lengths: &mut Vec<usize>) -> Mem<Vec<Shown<'_>>>
        ensures { IfOk result (λ documents.
            AddsShown [] documents.items (λ place. shown_at self.now place at)) }
    {
        let mut documents = Vec::with_capacity(*self.shards.allocator(), self.count_at(at))?;
        for shard in &self.shards {
            shard.add_shown(at, &mut documents, lengths)?;
        }
        Ok(documents)
    }

    // How many documents `gathered` visits.
    fn count_at(&self, at: OpTime) -> usize {
        let mut count: usize = 0;
        for shard in &self.shards {
            count = count.saturating_add(shard.count_at(at));
        }
        count
    }

    fn history(&self, ns: &str, id: &IdKey) -> Option<&History>
        ensures { MatchOption result (past_at self.now (ns.now, id.now) ≡ no_past)
            (λ history. past_at self.now (ns.now, id.now) ≡ history.now) }
    {
        self.shard(ns, id)?.history(ns, id)
    }

    fn shard(&self, ns: &str, id: &IdKey) -> Option<&Shard>
        ensures { MatchOption result (past_at self.now (ns.now, id.now) ≡ no_past)
            (λ shard. past_of shard.now (ns.now, id.now) ≡ past_at self.now (ns.now, id.now)) }
    {
        self.shards.get(shard_of(ns, id, self.count) as usize)
    }
}
