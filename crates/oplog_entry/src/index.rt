// Looking up names of one document many times.
ghost use Rattle.std.specs.Prelude.{◌≡◌, IfOk, option_map};
ghost use Rattle.bson_doc.specs.Tree.{found, IsDocument};
ghost use Rattle.bson_doc.specs.View.{tree_of};
ghost use Rattle.oplog_entry.specs.Index.{AreAllPlaces};

use bson_doc::{Doc, FEW_FIELDS, Mem, Text, Value};
use std::alloc::Global;
use std::collections::BTreeMap;
use std::marker::Model;

/// A document with its names in order, seen as its fields. A look-up takes O(log n) comparisons. Where few
/// names are looked up, or the document is small, the document itself is searched.
#[derive(Drop)]
pub struct FieldIndex<'a> {
    document: &'a Doc,
    places: Option<BTreeMap<Text, usize>>,
}

impl<'a> Model for FieldIndex<'a> {
    ghost use Rattle.bson_doc.specs.Tree.{Fields};
    ghost use Rattle.bson_doc.specs.Code.{fields_code};

    ghost Value = { Fields };

    ghost coded = { fields_code };

    ghost use Rattle.oplog_entry.specs.Index.{ArePlaces};

    ghost view = { λ i. i.document.now };

    ghost invariant = { λ i. ArePlaces i.document.now i.places };
}

impl<'a> FieldIndex<'a> {
    /// The index of a document in which `look_ups` names are looked up. If they are few, they are looked up
    /// in the document itself. The only error is out of memory.
    pub fn new(alloc: Global, document: &'a Doc, look_ups: usize) -> Mem<Self>
        ensures index { IfOk result (λ index. index ≡ document.now) }
        ensures names { IsDocument document.now }
    {
        document.recall_sound();
        if document.len().min(look_ups) <= FEW_FIELDS {
            return Ok(FieldIndex {
                document,
                places: None,
            });
        }
        Ok(FieldIndex {
            document,
            places: Some(places_of(alloc, document)?),
        })
    }

    /// The value under a name.
    pub fn get(&self, name: &Text) -> Option<&'a Value>
        ensures { option_map (λ v. tree_of v.now) result ≡ found name.now self.now }
    {
        let Some(places) = &self.places else {
            return self.document.get(name.as_str());
        };
        let place = places.get(name)?;
        let (_, value) = self.document.at(*place)?;
        Some(value)
    }
}

/// The place of each name.
fn places_of(alloc: Global, document: &Doc) -> Mem<BTreeMap<Text, usize>>
    ensures { IfOk result (AreAllPlaces document.now) }
{
    let mut places = BTreeMap::new(alloc);
    for place in (0..document.len()).rev() {
        let Some((name, _)) = document.at(place) else {
            unreachable!()
        };
        places.insert(Text::from_str(alloc, name)?, place)?;
    }
    Ok(places)
}
