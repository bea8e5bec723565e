// Writes that a node accepts.
ghost use Rattle.std.specs.Prelude.{IfOk};
ghost use Rattle.node_answers.specs.Admits.{IsRefusal};

use bson_doc::{IdKey, Mem, Text};
use doc_update::{Prepared, WriteRefusal};
use set_model::Refusal;
use std::alloc::AllocError;

/// The effect of a write that nothing refuses, with the place of its document.
#[derive(Drop)]
pub(crate) struct Admission {
    pub(crate) ns: Text,
    pub(crate) id: IdKey,
    pub(crate) effect: Prepared,
}

/// The refusal of a write.
pub(crate) fn refusal(why: WriteRefusal) -> Mem<Refusal>
    ensures { IfOk result (λ refusal. IsRefusal why refusal) }
{
    Ok(match why {
        WriteRefusal::DuplicateKey => Refusal::DuplicateKey,
        WriteRefusal::NoId => Refusal::NoId,
        WriteRefusal::BadIdKind => Refusal::BadIdKind,
        WriteRefusal::ImmutableId => Refusal::ImmutableId,
        WriteRefusal::IncType => Refusal::IncType,
        WriteRefusal::IncOverflow => Refusal::IncOverflow,
        WriteRefusal::DocTooLarge => Refusal::DocTooLarge,
        WriteRefusal::BadUpdate(rule) => Refusal::BadUpdate(rule),
        WriteRefusal::Memory => return Err(AllocError),
    })
}
