ghost use Rattle.std.specs.Prelude.{◌≡◌, ◌<◌, ◌≤◌, List, length, take, drop, insert, All, IsTrue, IfOk, OnOk};
ghost use Rattle.std.specs.Option.{option_copied};
ghost use Rattle.std.specs.FinMap as maps;
ghost use Rattle.doc_fold.specs.Map.{documents_of};
ghost use Rattle.oplog_entry.specs.Docs.{applied};
ghost use Rattle.oplog_entry.specs.Lawful.{IsLawful};
ghost use Rattle.oplog_entry.specs.Step.{document_after as op_left};
ghost use Rattle.oplog_entry.specs.declared.entry.Entry.{Entry};
ghost use Rattle.doc_shelf.specs.Shelf.{Shelf as Shown, AreApart, IsOfFront, empty_shelf, shelf_of, stood_before, with_applied};

use crate::documents::{copy_at, document_at, put_at};
use crate::stood::Stood;
use bson_doc::{Doc, IdKey, Mem, Text};
use doc_fold::{apply_entry, document_after};
use oplog_entry::{Entry, Op};
use std::alloc::Global;
use std::collections::BTreeMap;
use std::marker::Model;

/// The documents that result from the first entries of a log, with what is needed to undo each entry: what
/// was at its place, and none where it touches no document.
#[derive(Drop)]
pub struct Shelf {
    alloc: Global,
    documents: BTreeMap<(Text, IdKey), Doc>,
    before: Vec<Stood>,
}

impl Model for Shelf {
    ghost use Rattle.doc_fold.specs.Map.{documents_of};
    ghost use Rattle.doc_shelf.specs.Code.{shelf_code};
    ghost use Rattle.doc_shelf.specs.Shelf.{Shelf as Seen};

    ghost Value = { Seen };

    ghost coded = { shelf_code };

    ghost view = { λ s. record { documents = documents_of s.documents.entries; before = s.before.items } };
}

impl Shelf {
    /// No entry is applied.
    pub fn new(alloc: Global) -> Self
        ensures { result ≡ empty_shelf }
    {
        Shelf {
            alloc,
            documents: BTreeMap::new(alloc),
            before: Vec::new(alloc),
        }
    }

    /// How many entries of the log are applied.
    pub fn count(&self) -> usize
        ensures { result ≡ length self.now.before }
    {
        self.before.len()
    }

    /// Goes to the documents of the first `count` entries of a log. Each entry between the two counts costs a
    /// look-up or two. Where memory runs out, no entry is applied.
    pub fn go_to(&mut self, entries: &[Entry], count: usize) -> Mem<()>
        requires front { IsOfFront entries.now self.old }
        requires lawful { All IsLawful entries.now }
        requires within { count ≤ length entries.now }
        ensures shelf { OnOk result (self.new ≡ shelf_of (take count entries.now)) }
        ensures front { IsOfFront entries.now self.new }
    {
        self.back_to(entries, count);
        match self.forth_to(entries, count) {
            Ok(()) => Ok(()),
            Err(error) => {
                self.clear();
                Err(error)
            }
        }
    }

    /// Goes back to the first `count` entries of a log, where more are applied. Where memory runs out, no
    /// entry is applied.
    pub fn back_to(&mut self, entries: &[Entry], count: usize)
        requires front { IsOfFront entries.now self.old }
        ensures front { IsOfFront entries.now self.new }
        ensures count { length self.new.before ≤ count }
        ensures never_more { length self.new.before ≤ length self.old.before }
    {
        let _ = entries;
        while self.count() > count {
            self.back();
        }
    }

    /// Follows an insertion of an entry into the log at a place. `is_apart` says that no later entry touches
    /// the same document: then none of these is undone. Where memory runs out, no entry is applied.
    pub fn insert(&mut self, entries: &[Entry], place: usize, entry: &Entry, is_apart: bool)
        requires front { IsOfFront entries.now self.old }
        requires within { place ≤ length entries.now }
        requires lawful { IsLawful entry.now }
        requires apart { IsTrue is_apart → All (AreApart entry.now) (drop place entries.now) }
        ensures { IsOfFront (insert entries.now place entry.now) self.new }
    {
        if !is_apart {
            self.back_to(entries, place);
            return;
        }
        if self.count() <= place {
            return;
        }
        if self.insert_applied(entries, place, entry).is_err() {
            self.clear();
        }
    }

    /// Follows an insertion of an entry into the log at a place before applied ones, which touch other
    /// documents.
    fn insert_applied(&mut self, entries: &[Entry], place: usize, entry: &Entry) -> Mem<()>
        requires front { IsOfFront entries.now self.old }
        requires applied { place ≤ length self.old.before }
        requires lawful { IsLawful entry.now }
        requires apart { All (AreApart entry.now) (drop place entries.now) }
        ensures { OnOk result (IsOfFront (insert entries.now place entry.now) self.new) }
    {
        let _ = entries;
        let stood = self.standing(entry)?;
        self.put_in(place, entry, stood)?;
        Ok(())
    }

    /// No entry is applied any more.
    fn clear(&mut self)
        ensures { self.new ≡ empty_shelf }
    {
        *self = Shelf::new(self.alloc);
    }

    /// Applies an entry with this state before it as the one at a place.
    fn put_in(&mut self, place: usize, entry: &Entry, stood: Stood) -> Mem<()>
        requires within { place ≤ length self.old.before }
        requires lawful { IsLawful entry.now }
        ensures documents { OnOk result (self.new.documents ≡ applied self.old.documents entry.now) }
        ensures before { OnOk result (self.new.before ≡ insert self.old.before place stood) }
    {
        apply_entry(self.alloc, &mut self.documents, entry)?;
        self.before.insert(place, stood)?;
        Ok(())
    }

    /// Applies entries up to the first `count` of a log.
    fn forth_to(&mut self, entries: &[Entry], count: usize) -> Mem<()>
        requires front { IsOfFront entries.now self.old }
        requires before { length self.old.before ≤ count }
        requires lawful { All IsLawful entries.now }
        requires within { count ≤ length entries.now }
        ensures shelf { OnOk result (self.new ≡ shelf_of (take count entries.now)) }
        ensures front { OnOk result (IsOfFront entries.now self.new) }
    {
        let mut place = self.count();
        while place < count {
            self.forth(&entries[place])?;
            place += 1;
        }
        Ok(())
    }

    /// Applies one more entry.
    fn forth(&mut self, entry: &Entry) -> Mem<()>
        requires { IsLawful entry.now }
        ensures { OnOk result (self.new ≡ with_applied self.old entry.now) }
    {
        let Some(place) = entry.key()? else {
            self.before.push(Stood::none())?;
            return Ok(());
        };
        let after = self.left_at(&place, entry)?;
        let own = (place.0.copy()?, place.1.copy()?);
        let stood = put_at(&mut self.documents, own, after)?;
        self.before.push(Stood::new(self.alloc, place, stood)?)?;
        Ok(())
    }

    /// What an entry leaves at its place. Only an op that changes fields looks at what is there.
    fn left_at(&self, place: &(Text, IdKey), entry: &Entry) -> Mem<Option<Doc>>
        ensures { IfOk result (λ after. after
            ≡ op_left entry.now.op (maps.get self.now.documents place.now)) }
    {
        let op = entry.op.or(&Op::Noop);
        match op {
            Op::Insert { .. } | Op::Replace { .. } | Op::Delete { .. } => {
                document_after(self.alloc, op, None)
            }
            Op::Fields { .. } | Op::Noop | Op::Note => {
                document_after(self.alloc, op, self.get(place))
            }
        }
    }

    /// What is at the place of an entry.
    fn standing(&self, entry: &Entry) -> Mem<Stood>
        requires { IsLawful entry.now }
        ensures { IfOk result (λ stood. stood ≡ stood_before self.now.documents entry.now) }
    {
        let Some(place) = entry.key()? else {
            return Ok(Stood::none());
        };
        let document = copy_at(&self.documents, &place)?;
        Stood::new(self.alloc, place, document)
    }

    /// Undoes the last entry. Where memory runs out, no entry is applied.
    fn back(&mut self)
        requires { 0 < length self.old.before }
        ensures { (log : List Entry) → IsOfFront log self.old
            → IsOfFront log self.new × (length self.new.before < length self.old.before) }
    {
        if self.take_back().is_err() {
            self.clear();
        }
    }

    /// Undoes the last entry.
    fn take_back(&mut self) -> Mem<()>
        ensures { (shelf : Shown) (entry : Entry) → self.old ≡ with_applied shelf entry
            → OnOk result (self.new ≡ shelf) }
    {
        let Some(last) = self.before.pop() else {
            return Ok(());
        };
        let Some((place, document)) = last.into_parts() else {
            return Ok(());
        };
        put_at(&mut self.documents, place, document)?;
        Ok(())
    }

    /// The document at a place.
    pub fn get(&self, place: &(Text, IdKey)) -> Option<&Doc>
        ensures { option_copied result ≡ maps.get self.now.documents place.now }
    {
        document_at(&self.documents, place)
    }

    /// All documents, in order of collection and key.
    pub fn documents(&self) -> &BTreeMap<(Text, IdKey), Doc>
        ensures { documents_of result.now.entries ≡ self.now.documents }
    {
        &self.documents
    }
}
