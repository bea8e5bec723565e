// Documents in a map, by place.
ghost use Rattle.std.specs.Prelude.{◌≡◌, None, Some, IfOk, OnOk};
ghost use Rattle.std.specs.Option.{option_copied};
ghost use Rattle.std.specs.FinMap as maps;
ghost use Rattle.doc_fold.specs.Map.{documents_of};
ghost use Rattle.oplog_entry.specs.Docs.{put_at as with_at};

use bson_doc::{Doc, IdKey, Mem, Text};
use std::collections::BTreeMap;

/// The document at a place.
pub fn document_at<'a>(
    documents: &'a BTreeMap<(Text, IdKey), Doc>,
    place: &(Text, IdKey),
) -> Option<&'a Doc>
    ensures { option_copied result ≡ maps.get (documents_of documents.now.entries) place.now }
{
    documents.get(place)
}

/// A copy of the document at a place.
pub fn copy_at(documents: &BTreeMap<(Text, IdKey), Doc>, place: &(Text, IdKey)) -> Mem<Option<Doc>>
    ensures { IfOk result (λ copy. copy ≡ maps.get (documents_of documents.now.entries) place.now) }
{
    match document_at(documents, place) {
        Some(document) => Ok(Some(document.copy()?)),
        None => Ok(None),
    }
}

/// Puts a document at a place, or none, and returns what was there.
pub fn put_at(
    documents: &mut BTreeMap<(Text, IdKey), Doc>,
    place: (Text, IdKey),
    document: Option<Doc>,
) -> Mem<Option<Doc>>
    ensures stood { IfOk result (λ stood. stood ≡ maps.get (documents_of documents.old.entries) place) }
    ensures put { OnOk result (documents_of documents.new.entries
        ≡ with_at (documents_of documents.old.entries) place document) }
{
    match document {
        Some(document) => put(documents, place, document),
        None => Ok(take_away(documents, &place)),
    }
}

fn put(
    documents: &mut BTreeMap<(Text, IdKey), Doc>,
    place: (Text, IdKey),
    document: Doc,
) -> Mem<Option<Doc>>
    ensures stood { IfOk result (λ stood. stood ≡ maps.get (documents_of documents.old.entries) place) }
    ensures put { OnOk result (documents_of documents.new.entries
        ≡ with_at (documents_of documents.old.entries) place (Some document)) }
{
    Ok(documents.insert(place, document)?)
}

fn take_away(documents: &mut BTreeMap<(Text, IdKey), Doc>, place: &(Text, IdKey)) -> Option<Doc>
    ensures stood { result ≡ maps.get (documents_of documents.old.entries) place.now }
    ensures put { documents_of documents.new.entries
        ≡ with_at (documents_of documents.old.entries) place.now None }
{
    documents.remove(place)
}
