// What an entry is undone with.
ghost use Rattle.std.specs.Prelude.{◌≡◌, None, Some, IfOk};

use bson_doc::{Doc, IdKey, Mem, Text};
use std::alloc::Global;
use std::marker::Model;

/// The place that an entry touches, with what was there before; none where the entry touches no document. It
/// takes one word in a list, so that one put into the middle moves as little as can be.
#[derive(Drop)]
pub(crate) struct Stood {
    stood: Option<Box<((Text, IdKey), Option<Doc>)>>,
}

impl Model for Stood {
    ghost use Rattle.std.specs.Option.{option_map};
    ghost use Rattle.doc_shelf.specs.Code.{before_code};
    ghost use Rattle.doc_shelf.specs.Shelf.{Before};

    ghost Value = { Before };

    ghost coded = { before_code };

    ghost view = { λ s. option_map (λ kept. kept.value) s.stood };
}

impl Stood {
    /// The entry touches no document.
    pub(crate) fn none() -> Self
        ensures { result ≡ None }
    {
        Stood { stood: None }
    }

    /// What was at the place that it touches. Out of memory is the one error.
    pub(crate) fn new(alloc: Global, place: (Text, IdKey), document: Option<Doc>) -> Mem<Self>
        ensures { IfOk result (λ stood. stood ≡ Some (place, document)) }
    {
        Ok(Stood {
            stood: Some(Box::new(alloc, (place, document))?),
        })
    }

    /// The place and the document themselves.
    pub(crate) fn into_parts(self) -> Option<((Text, IdKey), Option<Doc>)>
        ensures { result ≡ self }
    {
        match self.stood {
            Some(stood) => Some(Box::into_inner(stood)),
            None => None,
        }
    }
}
