// What a node shows.
ghost use Rattle.std.specs.Prelude.{◌≡◌, ◌≤◌, length, take, IfOk, OnOk};
ghost use Rattle.std.specs.FinMap as maps;
ghost use Rattle.bson_doc.specs.View.{tree_of};
ghost use Rattle.set_model.specs.Outcome.{replied};
ghost use Rattle.set_model.specs.Reads as reads;
ghost use Rattle.set_model.specs.Rollback as rollbacks;
ghost use Rattle.set_model.specs.declared.command.ReadLevel.TheVariants.{Local, Majority};

use crate::node::Node;
use bson_doc::{Doc, IdKey, KeyError, Mem, Text, Value};
use checker_tables::earlier;
use doc_shelf::Shelf;
use repl_msg::EntryList;
use set_model::{DocumentList, ReadLevel, Refusal, Reply, Role};
use std::alloc::{AllocError, Global};

/// A copy of the document at a place of a shelf.
pub(crate) fn copied_at(shelf: &Shelf, place: &(Text, IdKey)) -> Mem<Option<Doc>>
    ensures { IfOk result (λ document. document ≡ maps.get shelf.now.documents place.now) }
{
    match shelf.get(place) {
        Some(document) => Ok(Some(document.copy()?)),
        None => Ok(None),
    }
}

/// Copies of the documents of a shelf, each with its collection, in order of collection and key.
fn listed(alloc: Global, shelf: &Shelf) -> Mem<DocumentList>
    ensures { IfOk result (λ list. list ≡ reads.listed shelf.now.documents) }
{
    let mut list = DocumentList::new(alloc);
    for (place, document) in shelf.documents() {
        list.push(place.0.copy()?, document.copy()?)?;
    }
    Ok(list)
}

impl Node {
    /// How many of the log's entries a read at local shows.
    pub(crate) fn local_count(&self) -> usize
        ensures shown { take result self.now.log ≡ reads.shown_log self.now Local }
        ensures within { result ≤ length self.now.log }
    {
        match self.role {
            Role::Primary => self.log.log().len(),
            Role::Secondary | Role::Candidate | Role::Draining => {
                self.log.log().up_to(self.applied).len()
            }
        }
    }

    /// How many of them a read at majority shows.
    fn majority_count(&self) -> usize
        ensures shown { take result self.now.log ≡ reads.shown_log self.now Majority }
        ensures within { result ≤ length self.now.log }
    {
        let point = earlier(self.commit, self.applied_point());
        self.log.log().up_to(point).len()
    }

    /// A copy of the document at a place that a read shows.
    fn shown_at(&mut self, level: ReadLevel, place: &(Text, IdKey)) -> Mem<Option<Doc>>
        ensures document { IfOk result (λ document.
            document ≡ maps.get (reads.shown_documents self.old level) place.now) }
        ensures same { OnOk result (self.new ≡ self.old) }
    {
        match level {
            ReadLevel::Local => {
                let count = self.local_count();
                copied_at(self.log.local(count)?, place)
            }
            ReadLevel::Majority => {
                let count = self.majority_count();
                copied_at(self.log.majority(count)?, place)
            }
        }
    }

    /// Copies of all documents that a read shows.
    fn shown(&mut self, level: ReadLevel) -> Mem<DocumentList>
        ensures list { IfOk result (λ list. list ≡ reads.listed (reads.shown_documents self.old level)) }
        ensures same { OnOk result (self.new ≡ self.old) }
    {
        let alloc = self.alloc;
        match level {
            ReadLevel::Local => {
                let count = self.local_count();
                listed(alloc, self.log.local(count)?)
            }
            ReadLevel::Majority => {
                let count = self.majority_count();
                listed(alloc, self.log.majority(count)?)
            }
        }
    }

    /// The document of a key.
    pub fn read(&mut self, level: ReadLevel, collection: &Text, id: &Value) -> Mem<Reply>
        ensures reply { IfOk result (λ reply.
            reads.read self.old level collection.now (tree_of id.now) ≡ replied reply self.old) }
        ensures same { OnOk result (self.new ≡ self.old) }
    {
        let key = match IdKey::of(id) {
            Ok(key) => key,
            Err(KeyError::Kind(_)) => return Ok(Reply::Refused(Refusal::BadIdKind)),
            Err(KeyError::Memory) => return Err(AllocError),
        };
        let place = (collection.copy()?, key);
        match self.shown_at(level, &place)? {
            Some(document) => Ok(Reply::Found(document)),
            None => Ok(Reply::Missing),
        }
    }

    /// All documents.
    pub fn dump(&mut self, level: ReadLevel) -> Mem<Reply>
        ensures reply { IfOk result (λ reply. reads.dump self.old level ≡ replied reply self.old) }
        ensures same { OnOk result (self.new ≡ self.old) }
    {
        Ok(Reply::Documents(self.shown(level)?))
    }

    /// The entries that are written.
    pub fn show_log(&self) -> Mem<Reply>
        ensures { IfOk result (λ reply. reads.show_log self.now ≡ replied reply self.now) }
    {
        let entries = self.log.log().as_slice();
        Ok(Reply::Entries(EntryList::of_slice(self.alloc, entries)?))
    }

    /// Role, term, vote, points and configuration.
    pub fn show_state(&self) -> Reply
        ensures { reads.show_state self.now ≡ replied result self.now }
    {
        Reply::State {
            role: self.role,
            term: self.term,
            vote: self.vote,
            last: self.last_point(),
            durable: self.durable,
            applied: self.applied_point(),
            commit: self.commit,
            config: (self.config.term, self.config.version),
            rollback: self.rollback,
        }
    }

    /// The documents that the last rollback touched.
    pub fn rolled(&self) -> Mem<Reply>
        ensures { IfOk result (λ reply. rollbacks.rolled self.now ≡ replied reply self.now) }
    {
        Ok(Reply::Rolled(self.lost.copy()?))
    }
}
