// The documents as of an optime.
ghost use Rattle.std.specs.Prelude.{◌≡◌, IfOk, OnOk};
ghost use Rattle.std.specs.Option.{option_copied};
ghost use Rattle.std.specs.BTreeMap.{IsFromIterResult};
ghost use Rattle.std.specs.FinMap as maps;
ghost use Rattle.bson_doc.specs.Place.{place_cmp};
ghost use Rattle.doc_fold.specs.Map.{documents_of};
ghost use Rattle.checkpoint_store.specs.Checkpoint.{with_documents};

use bson_doc::{Doc, IdKey, Text};
use rs_optime::{Mem, OpTime};
use std::alloc::Global;
use std::collections::BTreeMap;
use std::marker::Model;

/// Documents by collection and key, which contracts see as a finite map.
#[derive(Drop)]
pub struct DocumentMap {
    alloc: Global,
    documents: BTreeMap<(Text, IdKey), Doc>,
}

impl Model for DocumentMap {
    ghost use Rattle.oplog_entry.specs.Docs.{Documents};
    ghost use Rattle.doc_fold.specs.Map.{documents_of};
    ghost use Rattle.checkpoint_store.specs.Code.{documents_code};

    ghost Value = { Documents };

    ghost coded = { documents_code };

    ghost view = { λ m. documents_of m.documents.entries };
}

impl DocumentMap {
    pub fn new(alloc: Global) -> Self
        ensures { result ≡ maps.empty }
    {
        DocumentMap {
            alloc,
            documents: BTreeMap::new(alloc),
        }
    }

    /// Documents at their places. Where a place occurs more than once, the last one counts.
    pub(crate) fn of(alloc: Global, documents: Vec<((Text, IdKey), Doc)>) -> Mem<Self>
        ensures { IfOk result (λ m. m ≡ with_documents maps.empty documents.items) }
    {
        Ok(DocumentMap {
            alloc,
            documents: collected(alloc, documents)?,
        })
    }

    pub fn get(&self, place: &(Text, IdKey)) -> Option<&Doc>
        ensures { option_copied result ≡ maps.get self.now place.now }
    {
        self.documents.get(place)
    }

    /// The documents by their places, in order of collection and key.
    pub fn into_map(self) -> BTreeMap<(Text, IdKey), Doc>
        ensures { documents_of result.entries ≡ self }
    {
        let DocumentMap { documents, .. } = self;
        documents
    }

    /// Puts a document at a place, replacing the one there, if any.
    pub fn insert(&mut self, place: (Text, IdKey), document: Doc) -> Mem<()>
        ensures { OnOk result (self.new ≡ maps.insert self.old place document) }
    {
        self.documents.insert(place, document)?;
        Ok(())
    }

    /// A copy of the documents.
    pub fn copy(&self) -> Mem<DocumentMap>
        ensures { IfOk result (λ m. m ≡ self.now) }
    {
        let mut copies = DocumentMap::new(self.alloc);
        for ((ns, id), document) in &self.documents {
            copies.insert((ns.copy()?, id.copy()?), document.copy()?)?;
        }
        Ok(copies)
    }
}

fn collected(
    alloc: Global,
    documents: Vec<((Text, IdKey), Doc)>,
) -> Mem<BTreeMap<(Text, IdKey), Doc>>
    ensures { IfOk result (IsFromIterResult place_cmp documents.items) }
{
    documents.into_iter().collect(alloc)
}

/// The documents as of an optime. Without a checkpoint there are none, as of `OpTime::ZERO`.
#[derive(Drop)]
pub struct Stable {
    pub at: OpTime,
    pub documents: DocumentMap,
}

impl Stable {
    /// A copy.
    pub fn copy(&self) -> Mem<Stable>
        ensures { IfOk result (λ s. s ≡ self.now) }
    {
        Ok(Stable {
            at: self.at,
            documents: self.documents.copy()?,
        })
    }
}
