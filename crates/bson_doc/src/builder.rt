// A document that is built field by field, with its names at hand.
ghost use Rattle.std.specs.Prelude.{◌≡◌, ◌<◌, Contains, IfOk, None, is_some};
ghost use Rattle.bson_doc.specs.Tree.{no_fields, Tree, found, with_field};
ghost use Rattle.bson_doc.specs.Names.{AreNames, AreAllNames};
ghost use Rattle.bson_doc.specs.View.{tree_of};

use crate::names::FieldNames;
use crate::{Doc, Mem, Text, Value};
use std::alloc::Global;
use std::marker::Model;

/// A document with at most this many fields is searched for a name field by field. Only a larger one keeps
/// its names in order.
pub const FEW_FIELDS: usize = 16;

/// A document that is being built, seen as the fields so far. A name is looked up in O(log n). A small
/// document takes no memory but its own.
#[derive(Drop)]
pub struct DocBuilder {
    alloc: Global,
    doc: Doc,
    names: Option<FieldNames>,
}

impl Model for DocBuilder {
    ghost use Rattle.bson_doc.specs.Tree.{Fields};
    ghost use Rattle.bson_doc.specs.Code.{fields_code};

    ghost Value = { Fields };

    ghost coded = { fields_code };

    ghost use Rattle.bson_doc.specs.Names.{AreNames};

    ghost view = { λ b. b.doc };

    ghost invariant = { λ b. AreNames b.doc b.names };
}

impl DocBuilder {
    /// A document without fields.
    pub fn new(alloc: Global) -> Self
        ensures { result ≡ no_fields }
    {
        DocBuilder {
            alloc,
            doc: Doc::new(alloc),
            names: None,
        }
    }

    /// Whether a field has the name.
    pub fn has(&self, name: &str) -> bool
        ensures { result ≡ is_some (found name.now self.now) }
    {
        match &self.names {
            Some(names) => names.has(name),
            None => self.doc.get(name).is_some(),
        }
    }

    /// The document with one more field, under a name that is new and has no zero byte. Room for two is made
    /// at first, since `finish_with` adds the last one.
    pub fn with(self, name: Text, value: Value) -> Mem<Self>
        requires clean { ¬ Contains name 0 }
        requires new { found name self ≡ None }
        ensures { IfOk result (λ b. b ≡ with_field self name (tree_of value)) }
    {
        let more = self.doc.len().max(2);
        self.with_in(more, name, value)
    }

    /// The document with one more field. Where there is no room, room for `more` fields is made.
    #[tactic(auto, using(crate::proofs::DocLemmas::doc_lemmas))]
    fn with_in(self, more: usize, name: Text, value: Value) -> Mem<Self>
        requires more { 0 < more }
        requires clean { ¬ Contains name 0 }
        requires new { found name self ≡ None }
        ensures { IfOk result (λ b. b ≡ with_field self name (tree_of value)) }
    {
        let DocBuilder {
            alloc,
            mut doc,
            names,
        } = self;
        let names = with_name(alloc, names, &doc, name.as_str())?;
        doc.append_in(more, name, value)?;
        Ok(DocBuilder { alloc, doc, names })
    }

    /// The document as it is, with no room for further fields.
    pub fn finish(self) -> Doc
        ensures { result ≡ self }
    {
        let mut doc = self.doc;
        doc.shrink_to_fit();
        doc
    }

    /// The document with this as its last field, under a name that is new and has no zero byte. It is
    /// inlined, which saves one move of the document.
    #[inline(always)]
    pub fn finish_with(self, name: Text, value: Value) -> Mem<Doc>
        requires clean { ¬ Contains name 0 }
        requires new { found name self ≡ None }
        ensures { IfOk result (λ d. d ≡ with_field self name (tree_of value)) }
    {
        let mut doc = self.doc;
        doc.append_in(1, name, value)?;
        doc.shrink_to_fit();
        Ok(doc)
    }
}

/// The names of a document that gets one more field, where it then has more than a few.
fn with_name(
    alloc: Global,
    names: Option<FieldNames>,
    doc: &Doc,
    name: &str,
) -> Mem<Option<FieldNames>>
    requires { AreNames doc.now names }
    ensures { IfOk result (λ names. (value : Tree) → AreNames (with_field doc.now name.now value) names) }
{
    let mut all = match names {
        Some(all) => all,
        None if doc.len() < FEW_FIELDS => return Ok(None),
        None => all_names(alloc, doc)?,
    };
    all.insert(alloc, name)?;
    Ok(Some(all))
}

/// The names of a document's fields.
fn all_names(alloc: Global, doc: &Doc) -> Mem<FieldNames>
    ensures { IfOk result (AreAllNames doc.now) }
{
    let mut names = FieldNames::new(alloc);
    for place in (0..doc.len()).rev() {
        let Some((name, _)) = doc.at(place) else {
            unreachable!()
        };
        names.insert(alloc, name)?;
    }
    Ok(names)
}
