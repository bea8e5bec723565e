// Documents by key in a row, in order of their keys. Most arrive in that order. In a row they take half the
// memory that they would take in a tree, whose nodes would then be half full.
ghost use Rattle.std.specs.Prelude.{◌≡◌, ◌<◌, ◌++◌, ◌∷◌, [], ◌↔◌, All, Some, None, IsTrue, MatchOption, OnOk, OnErr, true, false, length, slice_get, if◌then◌else◌};
ghost use Rattle.std.specs.Map.{lookup};
ghost use Rattle.std.specs.Ordering.{eq_by_cmp, is_lt, nat_cmp};
ghost use Rattle.std.specs.Cmp.Lexicographic.{slice_cmp};
ghost use Rattle.std.specs.declared.cmp.Ordering.TheVariants.{Less};
ghost use Rattle.bson_doc.specs.Key.{key_cmp};
ghost use Rattle.version_store.specs.Cuts.{left_by};
ghost use Rattle.version_store.specs.Documents.{past_in, ChangesEachIn};
ghost use Rattle.bson_doc.specs.declared.key.IdKey.{IdKey as AnIdKey};
ghost use Rattle.version_store.specs.Past.{Past, no_past, is_before, shown, with_version, held_by};
ghost use Rattle.version_store.specs.Row.{IsInOrder, StandsIn, AddsNoKey, changed_at};
ghost use Rattle.version_store.specs.Shown.{AddsShown};

use crate::cut::Cut;
use crate::history::History;
use crate::shown::{Shown, by_key};
use bson_doc::{Doc, IdKey};
use rs_optime::{Mem, OpTime};
use std::alloc::Global;
use std::cmp::Ordering;
use std::marker::Model;

#[derive(Drop)]
pub(crate) struct Row {
    alloc: Global,
    entries: Vec<(IdKey, History)>,
}

impl Model for Row {
    ghost use Rattle.version_store.specs.Documents.{Documents};
    ghost use Rattle.version_store.specs.Code.{documents_code};
    ghost use Rattle.version_store.specs.Row.{IsInOrder};

    ghost Value = { Documents };

    ghost coded = { documents_code };

    ghost view = { λ r. r.entries.items };

    ghost invariant = { λ r. IsInOrder r.entries.items };
}

impl Row {
    pub(crate) fn new(alloc: Global) -> Self
        ensures { result ≡ [] }
    {
        Row {
            alloc,
            entries: Vec::new(alloc),
        }
    }

    pub(crate) fn is_empty(&self) -> bool
        ensures { IsTrue result ↔ (self.now ≡ []) }
    {
        self.entries.is_empty()
    }

    pub(crate) fn len(&self) -> usize {
        self.entries.len()
    }

    /// The place of a document, found by binary search.
    pub(crate) fn place(&self, id: &IdKey) -> Option<usize>
        ensures found { MatchOption result (lookup (eq_by_cmp key_cmp id.now) self.now ≡ None)
            (StandsIn self.now id.now) }
        ensures order { IsInOrder self.now }
    {
        if self.comes_after(id) {
            return None;
        }
        let place = self.entries.partition_point(
            |entry| -> bool
                ensures { result ≡ is_lt (key_cmp entry.now.0 id.entry.now) }
            { by_key(&entry.0, id).is_lt() },
        );
        if place >= self.entries.len() {
            return None;
        }
        match by_key(&self.entries[place].0, id) {
            Ordering::Equal => Some(place),
            _ => None,
        }
    }

    /// Whether a key comes after all existing ones.
    pub(crate) fn comes_after(&self, id: &IdKey) -> bool
        ensures after { IsTrue result → All (λ entry. key_cmp entry.0 id.now ≡ Less) self.now }
        ensures order { IsInOrder self.now }
    {
        let Some(last) = self.entries.last() else {
            return true;
        };
        match by_key(&last.0, id) {
            Ordering::Less => true,
            _ => false,
        }
    }

    /// The versions of the document at a place.
    pub(crate) fn at(&self, place: usize) -> &History
        requires { place < length self.now }
        ensures { (id : AnIdKey) (past : Past) → slice_get self.now place ≡ Some (id, past)
            → result.now ≡ past }
    {
        &self.entries[place].1
    }

    pub(crate) fn set_holder(&mut self, place: usize, holder: Option<u32>)
        requires { place < length self.old }
        ensures { self.new ≡ changed_at self.old place (λ past. held_by past holder) }
    {
        self.entries[place].1.set_holder(holder);
    }

    pub(crate) fn put(&mut self, place: usize, at: OpTime, doc: Option<Doc>) -> Mem<()>
        requires place { place < length self.old }
        requires later { (id : AnIdKey) (past : Past) → slice_get self.old place ≡ Some (id, past)
            → All (λ version. is_before version.at at ≡ true) past.versions }
        ensures ok { OnOk result (self.new
            ≡ changed_at self.old place (λ past. with_version past (record { at = at; doc = doc }))) }
        ensures err { OnErr result (self.new ≡ self.old) }
    {
        self.entries[place].1.put(self.alloc, at, doc)?;
        Ok(())
    }

    /// Puts a document after the others.
    pub(crate) fn push(&mut self, id: IdKey, history: History) -> Mem<()>
        requires { All (λ entry. key_cmp entry.0 id ≡ Less) self.old }
        ensures ok { OnOk result (self.new ≡ self.old ++ (id, history) ∷ []) }
        ensures err { OnErr result (self.new ≡ self.old) }
    {
        self.make_room()?;
        Ok(self.entries.push((id, history))?)
    }

    /// Makes room for one more document. A full row grows by a quarter and four more: if it doubled, half of
    /// it would be empty.
    fn make_room(&mut self) -> Mem<()>
        ensures { self.new ≡ self.old }
    {
        if self.entries.len() == self.entries.capacity() {
            let more = self.entries.len() / 4 + 4;
            self.entries.reserve_exact(more)?;
        }
        Ok(())
    }

    pub(crate) fn cut(&mut self, cut: Cut)
        ensures each { ChangesEachIn self.old self.new (left_by cut) }
        ensures kept { AddsNoKey self.old self.new }
    {
        self.entries.retain_mut(
            |entry| -> bool
                ensures key { entry.new.0 ≡ entry.old.0 }
                ensures past { entry.new.1 ≡ left_by cut entry.old.1 }
                ensures dropped { result ≡ false → entry.new.1 ≡ no_past }
            {
                entry.1.cut(cut);
                !entry.1.is_empty()
            },
        );
    }

    /// Adds the documents that a read at an optime shows, in order of their keys.
    pub(crate) fn add_shown<'a>(
        &'a self,
        ns: &'a str,
        at: OpTime,
        gathered: &mut Vec<Shown<'a>>,
    ) -> Mem<()>
        ensures { OnOk result (AddsShown gathered.old.items gathered.new.items (λ place.
            if eq_by_cmp (slice_cmp nat_cmp) place.0 ns.now then shown at (past_in self.now place.1).versions
            else None)) }
    {
        for entry in &self.entries {
            if let Some(document) = entry.1.read_at(at) {
                gathered.push(Shown {
                    ns,
                    id: &entry.0,
                    document,
                })?;
            }
        }
        Ok(())
    }
}
