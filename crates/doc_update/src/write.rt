ghost use Rattle.std.specs.Prelude.{◌≡◌, IfOk};
ghost use Rattle.doc_update.specs.Write.{IsSoundWrite};

use bson_doc::{Doc, KeyError, Mem, Text, Value};
use oplog_entry::Op;
use std::alloc::{AllocError, AllocFailed};
use thiserror::Error;

/// A write to one document of the collection `ns`. `id` is the value that the document's `_id` is compared
/// with, as a key.
#[derive(Drop)]
pub enum WriteOp {
    /// Inserts `doc`, unless a document with its `_id` exists.
    Insert { ns: Text, doc: Doc },
    /// Replaces the existing document by `doc`. The `_id` stays.
    Replace { ns: Text, id: Value, doc: Doc },
    /// Changes the document by `$set`, `$unset` and `$inc`.
    Update { ns: Text, id: Value, operators: Doc },
    /// Deletes the document.
    Delete { ns: Text, id: Value },
}

impl WriteOp {
    /// What the write brings is sound at every level: a fact for callers' proofs, which costs
    /// nothing.
    pub fn recall_sound(&self)
        ensures { IsSoundWrite self.now }
    {
        self.borrowed().recall_sound();
    }

    /// A copy of the write.
    pub fn copy(&self) -> Mem<WriteOp>
        ensures { IfOk result (λ op. op ≡ self.now) }
    {
        Ok(match self {
            WriteOp::Insert { ns, doc } => WriteOp::Insert {
                ns: ns.copy()?,
                doc: doc.copy()?,
            },
            WriteOp::Replace { ns, id, doc } => WriteOp::Replace {
                ns: ns.copy()?,
                id: id.copy()?,
                doc: doc.copy()?,
            },
            WriteOp::Update { ns, id, operators } => WriteOp::Update {
                ns: ns.copy()?,
                id: id.copy()?,
                operators: operators.copy()?,
            },
            WriteOp::Delete { ns, id } => WriteOp::Delete {
                ns: ns.copy()?,
                id: id.copy()?,
            },
        })
    }
}

/// The effect of a write on the existing document, if there is one.
#[derive(Drop)]
pub enum Prepared {
    /// This op is logged, and it leaves this document.
    Entry { op: Op, after: Option<Doc> },
    /// No document has the key. Nothing is logged.
    NoMatch,
    /// The document stays as it is, byte for byte. Nothing is logged.
    Unchanged,
}

impl Prepared {
    /// A copy of the effect.
    pub fn copy(&self) -> Mem<Prepared>
        ensures { IfOk result (λ p. p ≡ self.now) }
    {
        Ok(match self {
            Prepared::Entry { op, after } => Prepared::Entry {
                op: op.copy()?,
                after: copied(after)?,
            },
            Prepared::NoMatch => Prepared::NoMatch,
            Prepared::Unchanged => Prepared::Unchanged,
        })
    }
}

/// A copy of the document, if there is one.
fn copied(document: &Option<Doc>) -> Mem<Option<Doc>>
    ensures { IfOk result (λ copy. copy ≡ document.now) }
{
    match document {
        Some(document) => Ok(Some(document.copy()?)),
        None => Ok(None),
    }
}

/// Why a write is refused.
#[derive(Clone, Copy, Debug, PartialEq, Eq, Error)]
pub enum WriteRefusal {
    #[error("a document with this key is there")]
    DuplicateKey,
    #[error("the document has no _id")]
    NoId,
    #[error("the _id is of a kind that is no key")]
    BadIdKind,
    #[error("the _id can't change")]
    ImmutableId,
    #[error("$inc takes integers")]
    IncType,
    #[error("the sum has no room in 64 bits")]
    IncOverflow,
    #[error("the document is too large")]
    DocTooLarge,
    /// 1: an operator is unknown. 2: there is no operator, or the value of one isn't a document. 3: a name is
    /// empty, begins with a dollar sign or has a dot. 4: a name occurs twice.
    #[error("the update breaks rule {0}")]
    BadUpdate(u32),
    #[error("out of memory")]
    Memory,
}

impl From<AllocError> for WriteRefusal {
    ghost use Rattle.doc_update.specs.declared.write.WriteRefusal.TheVariants.{Memory};

    ghost from_gives = { λ _ e. e ≡ Memory };

    fn from(_: AllocError) -> Self {
        WriteRefusal::Memory
    }
}

impl<T: Drop> From<AllocFailed<T>> for WriteRefusal {
    ghost use Rattle.doc_update.specs.declared.write.WriteRefusal.TheVariants.{Memory};

    ghost from_gives = { λ _ e. e ≡ Memory };

    fn from(_: AllocFailed<T>) -> Self {
        WriteRefusal::Memory
    }
}

impl From<KeyError> for WriteRefusal {
    ghost use Rattle.doc_update.specs.Refusal.{refusal_of_key};

    ghost from_gives = { λ e r. r ≡ refusal_of_key e };

    fn from(error: KeyError) -> Self {
        match error {
            KeyError::Kind(_) => WriteRefusal::BadIdKind,
            KeyError::Memory => WriteRefusal::Memory,
        }
    }
}
