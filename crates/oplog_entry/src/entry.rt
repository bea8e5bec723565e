ghost use Rattle.std.specs.Prelude.{◌≡◌, IfOk, option_map};
ghost use Rattle.oplog_entry.specs.Lawful.{IsLawful, IsLawfulOp};
ghost use Rattle.oplog_entry.specs.Step.{place_of};
ghost use Rattle.oplog_entry.specs.declared.entry.Op.TheVariants.{Noop};

use bson_doc::{Doc, IdKey, Items, KeyError, Mem, Text, Value};
use rs_optime::OpTime;
use std::alloc::{AllocError, Global};
use std::marker::Model;
use std::sync::Arc;

/// What an entry of the oplog does to one document. `ns` is the collection, and `id` the document's `_id`.
#[derive(Drop)]
pub enum Op {
    /// Inserts the document `o`, with its `_id` first.
    Insert {
        ns: Text,
        o: Doc,
    },
    /// Replaces the document by `o`, with its `_id` first.
    Replace {
        ns: Text,
        id: Value,
        o: Doc,
    },
    /// Sets each field of `sets`, and then removes the names in `unsets`.
    Fields {
        ns: Text,
        id: Value,
        sets: Doc,
        unsets: Items,
    },
    /// Deletes the document.
    Delete {
        ns: Text,
        id: Value,
    },
    /// Changes no document. A new primary writes it.
    Noop,
    /// Changes no document. A client has it written.
    Note,
}

/// Which of a client's writes an entry is, so that the client may retry it: the number of the client's
/// session, and the number of the write within the session.
#[derive(Clone, Copy, Debug, PartialEq, Eq)]
pub struct Session {
    pub id: u32,
    pub number: u32,
}

/// One entry of an oplog. An entry is lawful (`IsLawful`) where its term is below 2^63, its `_id` is a key,
/// its fields leave that `_id` alone, and a no-op or a note has no session.
#[derive(Drop)]
pub struct Entry {
    pub optime: OpTime,
    pub op: SharedOp,
    /// The write of a session that the entry is, if a client may retry it.
    pub session: Option<Session>,
}

/// A shared op, with one owner for each copy. A no-op takes no memory.
#[derive(Drop)]
pub struct SharedOp {
    op: Option<Arc<Op, Global>>,
}

impl Model for SharedOp {
    ghost use Rattle.oplog_entry.specs.declared.entry.Op.{Op as Seen};
    ghost use Rattle.oplog_entry.specs.contracts.entry.Op.{the_row};
    ghost use Rattle.oplog_entry.specs.Shared.{op_of};

    ghost Value = { Seen };

    ghost coded = { the_row.coded };

    ghost view = { λ s. op_of s.op };
}

impl SharedOp {
    /// A no-op.
    pub fn noop() -> Self
        ensures { result ≡ Noop }
    {
        SharedOp { op: None }
    }

    /// An op with one owner. The only error is out of memory.
    pub fn new(alloc: Global, op: Op) -> Mem<Self>
        ensures { IfOk result (λ shared. shared ≡ op) }
    {
        Ok(SharedOp {
            op: Some(Arc::new(alloc, op)?),
        })
    }

    /// The op itself. A no-op isn't stored, so for one it is the argument.
    pub fn or<'a>(&'a self, no_op: &'a Op) -> &'a Op
        requires { no_op.now ≡ Noop }
        ensures { result.now ≡ self.now }
    {
        match &self.op {
            Some(op) => op,
            None => no_op,
        }
    }

    /// The same op with one more owner. It is out of memory where the owners are too many to count.
    pub fn copy(&self) -> Mem<Self>
        ensures { IfOk result (λ shared. shared ≡ self.now) }
    {
        Ok(SharedOp {
            op: match &self.op {
                Some(op) => Some(Arc::try_clone(op)?),
                None => None,
            },
        })
    }
}

impl Op {
    /// A copy of the op.
    pub fn copy(&self) -> Mem<Op>
        ensures { IfOk result (λ op. op ≡ self.now) }
    {
        Ok(match self {
            Op::Insert { ns, o } => Op::Insert {
                ns: ns.copy()?,
                o: o.copy()?,
            },
            Op::Replace { ns, id, o } => Op::Replace {
                ns: ns.copy()?,
                id: id.copy()?,
                o: o.copy()?,
            },
            Op::Fields {
                ns,
                id,
                sets,
                unsets,
            } => Op::Fields {
                ns: ns.copy()?,
                id: id.copy()?,
                sets: sets.copy()?,
                unsets: unsets.copy()?,
            },
            Op::Delete { ns, id } => Op::Delete {
                ns: ns.copy()?,
                id: id.copy()?,
            },
            Op::Noop => Op::Noop,
            Op::Note => Op::Note,
        })
    }

    /// The collection and the key of the document that the op touches. None for a no-op and a note.
    pub fn touched(&self) -> Mem<Option<(&Text, IdKey)>>
        requires { IsLawfulOp self.now }
        ensures { IfOk result (λ touched. option_map (λ t. (t.0.now, t.1)) touched ≡ place_of self.now) }
    {
        let (ns, id) = match self {
            Op::Insert { ns, o } => match o.get("_id") {
                Some(id) => (ns, id),
                None => unreachable!(),
            },
            Op::Replace { ns, id, .. } | Op::Fields { ns, id, .. } | Op::Delete { ns, id } => (
                ns, id,
            ),
            Op::Noop | Op::Note => return Ok(None),
        };
        let key = match IdKey::of(id) {
            Ok(key) => key,
            Err(KeyError::Memory) => return Err(AllocError),
            Err(KeyError::Kind(_)) => unreachable!(),
        };
        Ok(Some((ns, key)))
    }

    /// What `touched` gives, with a copy of the collection's name.
    pub fn key(&self) -> Mem<Option<(Text, IdKey)>>
        requires { IsLawfulOp self.now }
        ensures { IfOk result (λ place. place ≡ place_of self.now) }
    {
        let Some((ns, key)) = self.touched()? else {
            return Ok(None);
        };
        Ok(Some((ns.copy()?, key)))
    }
}

impl Entry {
    /// A copy of the entry.
    pub fn copy(&self) -> Mem<Entry>
        ensures { IfOk result (λ entry. entry ≡ self.now) }
    {
        Ok(Entry {
            optime: self.optime,
            op: self.op.copy()?,
            session: self.session,
        })
    }

    /// The collection and the key of the document that the entry touches. None for a no-op and a note.
    pub fn touched(&self) -> Mem<Option<(&Text, IdKey)>>
        requires { IsLawful self.now }
        ensures { IfOk result (λ touched. option_map (λ t. (t.0.now, t.1)) touched ≡ place_of self.now.op) }
    {
        match &self.op.op {
            Some(op) => op.touched(),
            None => Ok(None),
        }
    }

    /// What `touched` gives, with a copy of the collection's name.
    pub fn key(&self) -> Mem<Option<(Text, IdKey)>>
        requires { IsLawful self.now }
        ensures { IfOk result (λ place. place ≡ place_of self.now.op) }
    {
        self.op.or(&Op::Noop).key()
    }
}
