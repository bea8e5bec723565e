// The documents whose places hash to one number.
ghost use Rattle.std.specs.Prelude.{◌≡◌, [], All, Some, None, MatchOption, IfSome, OnOk, OnErr, true};
ghost use Rattle.std.specs.Option.{option_copied};
ghost use Rattle.version_store.specs.Past.{no_past, is_before, latest_of, shown, with_version, held_by, back_to, IsRising};
ghost use Rattle.version_store.specs.Cuts.{left_by};
ghost use Rattle.version_store.specs.Listed.{Lists};
ghost use Rattle.version_store.specs.Shown.{AddsShown};
ghost use Rattle.version_store.specs.Shards.{past_of, BelongsTo, HasItsOwn, ChangesOf, ChangesEachOf};

use crate::cut::Cut;
use crate::history::History;
use crate::listing::{Listing, add_listed, is_of, listed, listing_of, noted};
use crate::shard_documents::ShardDocuments;
use crate::shown::Shown;
use bson_doc::{Doc, IdKey, Text};
use rs_optime::{Mem, OpTime};
use std::alloc::Global;
use std::marker::Model;
use std::mem::{replace, swap};

/// The documents of one shard. A shard has a number, and knows how many shards there are: a document belongs
/// to it where `shard_of` gives that number.
#[derive(Drop)]
pub struct Shard {
    alloc: Global,
    documents: ShardDocuments,
    /// What is shown at the optime that was listed last, and at the one listed before it: so reads at two
    /// optimes may alternate.
    recent: Option<Listing>,
    earlier: Option<Listing>,
}

impl Model for Shard {
    ghost use Rattle.version_store.specs.Shards.{Shard as Seen};
    ghost use Rattle.version_store.specs.Code.{shard_code};
    ghost use Rattle.version_store.specs.Listed.{ListsBoth};

    ghost Value = { Seen };

    ghost coded = { shard_code };

    ghost view = { λ s. s.documents };

    ghost invariant = { λ s. ListsBoth s.documents s.recent s.earlier };
}

impl Shard {
    /// A shard without documents: shard `number` of `count`.
    pub fn new(alloc: Global, number: u32, count: u32) -> Self
        ensures { result ≡ record { number = number; count = count; collections = [] } }
    {
        Shard {
            alloc,
            documents: ShardDocuments::new(alloc, number, count),
            recent: None,
            earlier: None,
        }
    }

    /// The newest version of a document. None where it was deleted, never existed, or belongs
    /// to another shard.
    pub fn latest(&self, ns: &str, id: &IdKey) -> Option<&Doc>
        ensures latest { option_copied result ≡ latest_of (past_of self.now (ns.now, id.now)).versions }
        ensures rising { IsRising (past_of self.now (ns.now, id.now)).versions }
    {
        self.history(ns, id)?.latest()
    }

    /// The newest version of a document at or before an optime. None where that is a deletion, or
    /// there is none.
    pub fn read_at(&self, ns: &str, id: &IdKey, at: OpTime) -> Option<&Doc>
        ensures shown { option_copied result ≡ shown at (past_of self.now (ns.now, id.now)).versions }
        ensures rising { IsRising (past_of self.now (ns.now, id.now)).versions }
    {
        self.history(ns, id)?.read_at(at)
    }

    pub(crate) fn history(&self, ns: &str, id: &IdKey) -> Option<&History>
        ensures { MatchOption result (past_of self.now (ns.now, id.now) ≡ no_past)
            (λ history. past_of self.now (ns.now, id.now) ≡ history.now) }
    {
        self.documents.history(ns, id)
    }

    pub(crate) fn hold(&mut self, ns: &str, id: &IdKey, writer: u32) -> Mem<()>
        requires { BelongsTo self.old.number self.old.count (ns.now, id.now) }
        ensures ok { OnOk result (ChangesOf self.old self.new (ns.now, id.now)
            (held_by (past_of self.old (ns.now, id.now)) (Some writer))) }
        ensures err { OnErr result (self.new ≡ self.old) }
    {
        self.documents.hold(ns, id, writer)
    }

    pub(crate) fn release(&mut self, ns: &str, id: &IdKey)
        requires { BelongsTo self.old.number self.old.count (ns.now, id.now) }
        ensures { ChangesOf self.old self.new (ns.now, id.now)
            (held_by (past_of self.old (ns.now, id.now)) None) }
    {
        self.documents.release(ns, id);
    }

    /// Adds a version of one of the shard's documents, newer than each that it has. None is a deletion.
    pub fn put(&mut self, ns: Text, id: IdKey, at: OpTime, doc: Option<Doc>) -> Mem<()>
        requires own { BelongsTo self.old.number self.old.count (ns, id) }
        requires later { All (λ version. is_before version.at at ≡ true)
            (past_of self.old (ns, id)).versions }
        ensures ok { OnOk result (ChangesOf self.old self.new (ns, id)
            (with_version (past_of self.old (ns, id)) (record { at = at; doc = doc }))) }
        ensures err { OnErr result (self.new ≡ self.old) }
    {
        self.put_in(ns.as_str(), id, at, doc)
    }

    /// `put` with the collection's name by reference.
    pub fn put_in(&mut self, ns: &str, id: IdKey, at: OpTime, doc: Option<Doc>) -> Mem<()>
        requires own { BelongsTo self.old.number self.old.count (ns.now, id) }
        requires later { All (λ version. is_before version.at at ≡ true)
            (past_of self.old (ns.now, id)).versions }
        ensures ok { OnOk result (ChangesOf self.old self.new (ns.now, id)
            (with_version (past_of self.old (ns.now, id)) (record { at = at; doc = doc }))) }
        ensures err { OnErr result (self.new ≡ self.old) }
    {
        if self.recent.is_none() && self.earlier.is_none() {
            return self.documents.put_in(ns, id, at, doc);
        }
        self.put_noted(ns, id, at, doc)
    }

    /// `put_in` where a listing takes note of the version.
    #[inline(never)]
    fn put_noted(&mut self, ns: &str, id: IdKey, at: OpTime, doc: Option<Doc>) -> Mem<()>
        requires own { BelongsTo self.old.number self.old.count (ns.now, id) }
        requires later { All (λ version. is_before version.at at ≡ true)
            (past_of self.old (ns.now, id)).versions }
        ensures ok { OnOk result (ChangesOf self.old self.new (ns.now, id)
            (with_version (past_of self.old (ns.now, id)) (record { at = at; doc = doc }))) }
        ensures err { OnErr result (self.new ≡ self.old) }
    {
        let place = (Text::from_str(self.alloc, ns)?, id.copy()?);
        let stands = doc.is_some();
        self.documents.put_in(ns, id, at, doc)?;
        self.recent = noted(self.recent.take(), &place, at, stands);
        self.earlier = noted(self.earlier.take(), &place, at, stands);
        Ok(())
    }

    /// Drops every version after an optime.
    pub fn back_to(&mut self, at: OpTime)
        ensures { ChangesEachOf self.old self.new (back_to at) }
    {
        self.cut(Cut::After(at));
    }

    pub(crate) fn cut(&mut self, cut: Cut)
        ensures { ChangesEachOf self.old self.new (left_by cut) }
    {
        self.recent = None;
        self.earlier = None;
        self.documents.cut(cut);
    }

    /// Lists what a read at an optime shows, so that the next such reads visit no other documents. Where
    /// memory runs out, nothing is listed.
    pub(crate) fn list_at(&mut self, at: OpTime)
        ensures { self.new ≡ self.old }
    {
        if is_of(&self.recent, at) {
            return;
        }
        if is_of(&self.earlier, at) {
            swap(&mut self.recent, &mut self.earlier);
            return;
        }
        let Ok(listing) = listing_of(self.alloc, &self.documents, at) else {
            return;
        };
        self.earlier = replace(&mut self.recent, Some(listing));
    }

    /// Adds the documents that a read at an optime shows, in runs, and the length of each run.
    pub(crate) fn add_shown<'a>(
        &'a self,
        at: OpTime,
        gathered: &mut Vec<Shown<'a>>,
        lengths: &mut Vec<usize>,
    ) -> Mem<()>
        ensures shown { OnOk result (AddsShown gathered.old.items gathered.new.items (λ place.
            shown at (past_of self.now place).versions)) }
        ensures own { HasItsOwn self.now }
    {
        self.documents.recall_own();
        match self.listed(at) {
            Some(listing) => add_listed(&self.documents, listing, gathered, lengths),
            None => self.documents.add_shown(at, gathered, lengths),
        }
    }

    /// A lower bound on the number of documents that `add_shown` visits.
    pub(crate) fn count_at(&self, at: OpTime) -> usize {
        match self.listed(at) {
            Some(listing) => listing.len(),
            None => self.documents.len(),
        }
    }

    /// What is shown at an optime, where that is listed.
    fn listed(&self, at: OpTime) -> Option<&Listing>
        ensures { IfSome result (λ listing. (listing.now.at ≡ at) × Lists self.now listing.now) }
    {
        match listed(&self.recent, at) {
            Some(listing) => Some(listing),
            None => listed(&self.earlier, at),
        }
    }
}
