ghost use Rattle.std.specs.Prelude.{◌≡◌};
ghost use Rattle.doc_update.specs.Borrowed.{shown};
ghost use Rattle.doc_update.specs.Write.{IsSoundWrite};

use crate::WriteOp;
use bson_doc::{Doc, Text, Value};

/// A `WriteOp` by reference, so that a write is checked and prepared without a copy.
#[derive(Clone, Copy)]
pub enum BorrowedWrite<'a> {
    Insert {
        ns: &'a Text,
        doc: &'a Doc,
    },
    Replace {
        ns: &'a Text,
        id: &'a Value,
        doc: &'a Doc,
    },
    Update {
        ns: &'a Text,
        id: &'a Value,
        operators: &'a Doc,
    },
    Delete {
        ns: &'a Text,
        id: &'a Value,
    },
}

impl BorrowedWrite<'_> {
    /// What the write brings is sound at every level: a fact for callers' proofs, which costs
    /// nothing.
    pub fn recall_sound(self)
        ensures { IsSoundWrite (shown self.entry) }
    {
        match self {
            BorrowedWrite::Insert { doc, .. } => doc.recall_sound(),
            BorrowedWrite::Replace { id, doc, .. } => {
                id.recall_sound();
                doc.recall_sound();
            }
            BorrowedWrite::Update { id, operators, .. } => {
                id.recall_sound();
                operators.recall_sound();
            }
            BorrowedWrite::Delete { id, .. } => id.recall_sound(),
        }
    }
}

impl WriteOp {
    /// The write by reference.
    pub fn borrowed(&self) -> BorrowedWrite<'_>
        ensures { shown result ≡ self.now }
    {
        match self {
            WriteOp::Insert { ns, doc } => BorrowedWrite::Insert { ns, doc },
            WriteOp::Replace { ns, id, doc } => BorrowedWrite::Replace { ns, id, doc },
            WriteOp::Update { ns, id, operators } => BorrowedWrite::Update { ns, id, operators },
            WriteOp::Delete { ns, id } => BorrowedWrite::Delete { ns, id },
        }
    }
}
