// A checkpoint that was begun and isn't complete yet.
ghost use Rattle.std.specs.Prelude.{◌≡◌, IfOk, OnOk};
ghost use Rattle.std.specs.FinMap as maps;

use crate::{DocumentMap, Stable};
use bson_doc::{Doc, IdKey, Text};
use rs_optime::{Mem, OpTime};
use std::alloc::Global;
use std::marker::Model;

// Its documents as they were read. They come in order of their places, so no place is looked up when
// one is added.
#[derive(Drop)]
pub(crate) struct Begun {
    at: OpTime,
    documents: Vec<((Text, IdKey), Doc)>,
}

impl Model for Begun {
    ghost use Rattle.std.specs.FinMap.{empty};
    ghost use Rattle.checkpoint_store.specs.Checkpoint.{with_documents};
    ghost use Rattle.checkpoint_store.specs.contracts.stable.Stable.{the_row};
    ghost use Rattle.checkpoint_store.specs.declared.stable.Stable.{Stable};

    ghost Value = { Stable };

    ghost coded = { the_row.coded };

    ghost view = { λ b. record { at = b.at; documents = with_documents empty b.documents.items } };
}

impl Begun {
    pub(crate) fn new(alloc: Global, at: OpTime) -> Self
        ensures { result ≡ record { at = at; documents = maps.empty } }
    {
        Begun {
            at,
            documents: Vec::new(alloc),
        }
    }

    /// Puts a document at a place, replacing the one there, if any.
    pub(crate) fn insert(&mut self, place: (Text, IdKey), document: Doc) -> Mem<()>
        ensures { OnOk result (self.new ≡ record {
          at = self.old.at;
          documents = maps.insert self.old.documents place document;
        }) }
    {
        self.documents.push((place, document))?;
        Ok(())
    }

    /// The completed checkpoint, which ends here.
    pub(crate) fn ended(self) -> Mem<Stable>
        ensures { IfOk result (λ stable. stable ≡ self) }
    {
        let Begun { at, documents } = self;
        let documents = DocumentMap::of(*documents.allocator(), documents)?;
        Ok(Stable { at, documents })
    }
}
