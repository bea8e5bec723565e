// Documents by key in a tree, whatever order they arrived in.
ghost use Rattle.std.specs.Prelude.{◌≡◌, ◌↔◌, IsTrue, [], All, Some, None, true, false, MatchOption, OnOk, OnErr, if◌then◌else◌};
ghost use Rattle.version_store.specs.Past.{no_past, is_before, shown, with_version, held_by};
ghost use Rattle.version_store.specs.Cuts.{left_by};
ghost use Rattle.std.specs.Ordering.{eq_by_cmp, nat_cmp};
ghost use Rattle.std.specs.Cmp.Lexicographic.{slice_cmp};
ghost use Rattle.version_store.specs.Shown.{AddsShown};
ghost use Rattle.version_store.specs.Documents.{past_in, ChangesIn, ChangesEachIn};

use crate::cut::Cut;
use crate::history::History;
use crate::shown::Shown;
use bson_doc::{Doc, IdKey};
use rs_optime::{Mem, OpTime};
use std::alloc::Global;
use std::collections::BTreeMap;
use std::collections::btree_map::Entry;
use std::marker::Model;

#[derive(Drop)]
pub(crate) struct Tree {
    alloc: Global,
    documents: BTreeMap<IdKey, History>,
}

impl Model for Tree {
    ghost use Rattle.version_store.specs.Documents.{Documents};
    ghost use Rattle.version_store.specs.Code.{documents_code};

    ghost Value = { Documents };

    ghost coded = { documents_code };

    ghost view = { λ c. c.documents.entries };
}

impl Tree {
    pub(crate) fn new(alloc: Global) -> Self
        ensures { result ≡ [] }
    {
        Tree {
            alloc,
            documents: BTreeMap::new(alloc),
        }
    }

    pub(crate) fn is_empty(&self) -> bool
        ensures { IsTrue result ↔ (self.now ≡ []) }
    {
        self.documents.is_empty()
    }

    pub(crate) fn len(&self) -> usize {
        self.documents.len()
    }

    pub(crate) fn history(&self, id: &IdKey) -> Option<&History>
        ensures { MatchOption result (past_in self.now id.now ≡ no_past)
            (λ history. past_in self.now id.now ≡ history.now) }
    {
        self.documents.get(id)
    }

    /// Lets a writer hold a document that no writer holds.
    pub(crate) fn hold(&mut self, id: &IdKey, writer: u32) -> Mem<()>
        ensures ok { OnOk result
            (ChangesIn self.old self.new id.now (held_by (past_in self.old id.now) (Some writer))) }
        ensures err { OnErr result (self.new ≡ self.old) }
    {
        let entry = self.documents.entry(id.copy()?)?;
        let history = entry.or_insert(History::new());
        history.set_holder(Some(writer));
        Ok(())
    }

    pub(crate) fn release(&mut self, id: &IdKey)
        ensures { ChangesIn self.old self.new id.now (held_by (past_in self.old id.now) None) }
    {
        let Some(history) = self.documents.get_mut(id) else {
            return;
        };
        history.set_holder(None);
    }

    pub(crate) fn put(&mut self, id: IdKey, at: OpTime, doc: Option<Doc>) -> Mem<()>
        requires { All (λ version. is_before version.at at ≡ true) (past_in self.old id).versions }
        ensures ok { OnOk result (ChangesIn self.old self.new id
            (with_version (past_in self.old id) (record { at = at; doc = doc }))) }
        ensures err { OnErr result (self.new ≡ self.old) }
    {
        match self.documents.entry(id)? {
            Entry::Occupied(entry) => entry.into_mut().put(self.alloc, at, doc)?,
            Entry::Vacant(entry) => {
                Entry::Vacant(entry).or_try_insert_with(|| History::start(self.alloc, at, doc))?;
            }
        }
        Ok(())
    }

    pub(crate) fn cut(&mut self, cut: Cut)
        ensures { ChangesEachIn self.old self.new (left_by cut) }
    {
        self.documents.retain(
            |_id, history| -> bool
                ensures past { history.new ≡ left_by cut history.old }
                ensures dropped { result ≡ false → history.new ≡ no_past }
            {
                history.cut(cut);
                !history.is_empty()
            },
        );
    }

    /// Adds the documents that a read at an optime shows, in order of their keys.
    pub(crate) fn add_shown<'a>(
        &'a self,
        ns: &'a str,
        at: OpTime,
        gathered: &mut Vec<Shown<'a>>,
    ) -> Mem<()>
        ensures { OnOk result (AddsShown gathered.old.items gathered.new.items (λ place.
            if eq_by_cmp (slice_cmp nat_cmp) place.0 ns.now then shown at (past_in self.now place.1).versions
            else None)) }
    {
        for (id, history) in &self.documents {
            if let Some(document) = history.read_at(at) {
                gathered.push(Shown { ns, id, document })?;
            }
        }
        Ok(())
    }
}
