// The writers of a node, by their numbers.
ghost use Rattle.std.specs.Prelude.{◌≡◌, IsTrue, IfOk, OnOk};
ghost use Rattle.std.specs.Option.{option_copied};
ghost use Rattle.std.specs.FinMap as maps;
ghost use Rattle.bson_doc.specs.Place.{Place};
ghost use Rattle.oplog_entry.specs.Step.{is_at, place_of};
ghost use Rattle.set_model.specs.Changes.{all_lost, lost_writer};
ghost use Rattle.set_model.specs.Holds as holds;
ghost use Rattle.checker_tables.specs.Holding.{LeadToOthers};

use crate::holders::{emptied, with, without};
use crate::sameness::same_writer;
use bson_doc::{IdKey, KeyError, Mem, Text};
use oplog_entry::Op;
use set_model::Writer;
use std::alloc::{AllocError, Global};
use std::collections::BTreeMap;
use std::marker::Model;

/// The writers, and for each document that an open one holds, that writer's number.
#[derive(Drop)]
pub struct WriterMap {
    writers: BTreeMap<u32, Writer>,
    holders: Option<BTreeMap<(Text, IdKey), u32>>,
}

impl Model for WriterMap {
    ghost use Rattle.std.specs.FinMap as maps;
    ghost use Rattle.std.specs.Ordering.{nat_cmp};
    ghost use Rattle.set_model.specs.declared.writer.Writer.{Writer as Seen};
    ghost use Rattle.checker_tables.specs.Code.{writers_code};
    ghost use Rattle.checker_tables.specs.Holding.{LeadToAll};

    ghost Value = { maps.FinMap nat_cmp Seen };

    ghost coded = { writers_code };

    ghost view = { λ w. maps.from_entries w.writers.entries };

    ghost invariant = { λ w. LeadToAll w.holders (maps.from_entries w.writers.entries) };
}

impl WriterMap {
    /// No writer.
    pub fn new(alloc: Global) -> Self
        ensures { result ≡ maps.empty }
    {
        WriterMap {
            writers: BTreeMap::new(alloc),
            holders: Some(BTreeMap::new(alloc)),
        }
    }

    /// The writer of a number.
    pub fn get(&self, number: u32) -> Option<&Writer>
        ensures { option_copied result ≡ maps.get self.now number }
    {
        self.writers.get(&number)
    }

    /// Puts a writer at a number. The only error is out of memory, after which the writers are of no use.
    pub fn insert(&mut self, number: u32, writer: Writer) -> Mem<()>
        ensures { OnOk result (self.new ≡ maps.insert self.old number writer) }
    {
        let holders = self.holders.take();
        let place = held(&writer)?;
        let gone = self.writers.insert(number, writer)?;
        let left = left_by(holders, number, &gone);
        self.holders = with(left, place, number)?;
        Ok(())
    }

    /// Takes the writer of a number out.
    pub fn remove(&mut self, number: u32)
        ensures { self.new ≡ maps.remove self.old number }
    {
        let holders = self.holders.take();
        let gone = self.writers.remove(&number);
        self.holders = left_by(holders, number, &gone);
    }

    /// Each open writer is lost.
    pub fn lose_all(&mut self)
        ensures { self.new ≡ maps.from_entries (all_lost (maps.entries self.old)) }
    {
        self.writers.retain(|_, writer| {
            lose(writer);
            true
        });
        self.holders = emptied(self.holders.take());
    }

    /// The first open writer that holds the document at a place.
    pub fn holder(&self, place: &(Text, IdKey)) -> Mem<Option<u32>>
        ensures { IfOk result (λ holder.
            holder ≡ holds.holder_among (maps.entries self.now) place.now) }
    {
        let Some(holders) = &self.holders else {
            return self.first_holder(place);
        };
        let Some(number) = holders.get(place) else {
            return Ok(None);
        };
        let Some(writer) = self.get(*number) else {
            return Ok(None);
        };
        if holds(writer, place)? {
            return Ok(Some(*number));
        }
        Ok(None)
    }

    /// What `holder` gives, by a scan of the writers.
    fn first_holder(&self, place: &(Text, IdKey)) -> Mem<Option<u32>>
        ensures { IfOk result (λ holder.
            holder ≡ holds.holder_among (maps.entries self.now) place.now) }
    {
        for (number, writer) in &self.writers {
            if holds(writer, place)? {
                return Ok(Some(*number));
            }
        }
        Ok(None)
    }

    /// Whether the writers are the same as others.
    pub fn same(&self, other: &WriterMap) -> bool
        ensures { IsTrue result → self.now ≡ other.now }
    {
        let mut others = other.writers.iter();
        for (number, writer) in &self.writers {
            let Some((other_number, other_writer)) = others.next() else {
                return false;
            };
            if number != other_number || !same_writer(writer, other_writer) {
                return false;
            }
        }
        others.next().is_none()
    }

    /// The same writers once more, which share their ops.
    pub fn copy(&self, alloc: Global) -> Mem<Self>
        ensures { IfOk result (λ writers. writers ≡ self.now) }
    {
        let mut copies = WriterMap::new(alloc);
        for (number, writer) in self.writers.iter().rev() {
            copies.insert(*number, writer.copy()?)?;
        }
        Ok(copies)
    }
}

/// An open writer is lost, with the term of its slot.
fn lose(writer: &mut Writer)
    ensures { writer.new ≡ lost_writer writer.old }
{
    if let Writer::Open { at, .. } = &*writer {
        let term = at.term;
        *writer = Writer::Lost(term);
    }
}

/// What leads to the writers that are left after one goes.
fn left_by(
    holders: Option<BTreeMap<(Text, IdKey), u32>>,
    number: u32,
    gone: &Option<Writer>,
) -> Option<BTreeMap<(Text, IdKey), u32>>
    ensures { LeadToOthers number holders result }
{
    let Some(gone) = gone else {
        return holders;
    };
    let Ok(place) = held(gone) else {
        return None;
    };
    without(holders, place, number)
}

/// Whether a writer holds the document at a place.
fn holds(writer: &Writer, place: &(Text, IdKey)) -> Mem<bool>
    ensures { IfOk result (λ held. held ≡ holds.holds writer.now place.now) }
{
    Ok(is_place(&held(writer)?, place))
}

/// The place of the document that a writer holds.
fn held(writer: &Writer) -> Mem<Option<(Text, IdKey)>>
    ensures { IfOk result (λ held. (place : Place) → is_at held place ≡ holds.holds writer.now place) }
{
    match writer {
        Writer::Open { op, .. } => touched(op.or(&Op::Noop)),
        Writer::Done(_) | Writer::Lost(_) => Ok(None),
    }
}

/// The place of the document that an op touches, which need not be lawful.
pub(crate) fn touched(op: &Op) -> Mem<Option<(Text, IdKey)>>
    ensures { IfOk result (λ place. place ≡ place_of op.now) }
{
    let (ns, id) = match op {
        Op::Insert { ns, o } => match o.get("_id") {
            Some(id) => (ns, id),
            None => return Ok(None),
        },
        Op::Replace { ns, id, .. } | Op::Fields { ns, id, .. } | Op::Delete { ns, id } => (ns, id),
        Op::Noop | Op::Note => return Ok(None),
    };
    match IdKey::of(id) {
        Ok(key) => Ok(Some((ns.copy()?, key))),
        Err(KeyError::Memory) => Err(AllocError),
        Err(KeyError::Kind(_)) => Ok(None),
    }
}

fn is_place(own: &Option<(Text, IdKey)>, place: &(Text, IdKey)) -> bool
    ensures { result ≡ is_at own.now place.now }
{
    match own {
        Some(own) => own.cmp(place).is_eq(),
        None => false,
    }
}
