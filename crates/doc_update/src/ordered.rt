// Fields in byte order of their names.
ghost use Rattle.std.specs.Prelude.{◌≡◌, IfOk, OnOk};
ghost use Rattle.bson_doc.specs.Tree.{no_fields, IsDocument};
ghost use Rattle.bson_doc.specs.View.{tree_of};
ghost use Rattle.doc_update.specs.Check.{names_of};
ghost use Rattle.doc_update.specs.Ordered.{placed, as_strings};

use bson_doc::{Doc, Items, Mem, Text, Value};
use std::alloc::Global;
use std::collections::BTreeMap;
use std::marker::Model;

/// Fields in byte order of their names, seen as fields. Each is put in its place in O(log n) comparisons.
#[derive(Drop)]
pub(crate) struct Ordered {
    fields: BTreeMap<Text, Value>,
}

impl Model for Ordered {
    ghost use Rattle.bson_doc.specs.Tree.{Fields};
    ghost use Rattle.bson_doc.specs.Code.{fields_code};
    ghost use Rattle.doc_update.specs.Entries.{fields_in};

    ghost Value = { Fields };

    ghost coded = { fields_code };

    ghost view = { λ o. fields_in o.fields.entries };
}

impl Ordered {
    pub(crate) fn new(alloc: Global) -> Self
        ensures { result ≡ no_fields }
    {
        Ordered {
            fields: BTreeMap::new(alloc),
        }
    }

    pub(crate) fn put(&mut self, name: Text, value: Value) -> Mem<()>
        ensures { OnOk result (self.new ≡ placed self.old name (tree_of value)) }
    {
        self.fields.insert(name, value)?;
        Ok(())
    }

    /// The fields as a document.
    pub(crate) fn document(self, alloc: Global) -> Mem<Doc>
        requires { IsDocument self }
        ensures { IfOk result (λ d. d ≡ self) }
    {
        let mut document = Doc::new(alloc);
        for (name, value) in self.fields {
            document.append(name, value)?;
        }
        Ok(document)
    }

    /// The names as strings.
    pub(crate) fn names(&self, alloc: Global) -> Mem<Items>
        ensures { IfOk result (λ names. names ≡ as_strings (names_of self.now)) }
    {
        let mut names = Items::new(alloc);
        for name in self.fields.keys() {
            names.push(Value::Text(name.copy()?))?;
        }
        Ok(names)
    }
}
