// The writers of a node, by their numbers.
ghost use Rattle.std.specs.Prelude.{◌≡◌, None, Some, IfOk, OnOk, OnErr, IsSome, MatchOption};
ghost use Rattle.std.specs.Option.{option_copied};
ghost use Rattle.std.specs.FinMap as maps;
ghost use Rattle.bson_doc.specs.Place.{Place};
ghost use Rattle.rs_optime.specs.declared.optime.OpTime.{OpTime};
ghost use Rattle.oplog_entry.specs.declared.entry.Op.{Op};
ghost use Rattle.oplog_entry.specs.Step.{place_of};
ghost use Rattle.version_store.specs.Store.{versions_at, holder_at};
ghost use Rattle.set_model.specs.Changes.{all_lost, lost_writer};
ghost use Rattle.node_data.specs.Kept.{IsHolder};
ghost use Rattle.node_data.specs.Writers.{HasOpen, IsWriting, held_place, put_back};

use bson_doc::{IdKey, Mem, Text};
use oplog_entry::SharedOp;
use rs_optime::OpTime;
use set_model::Writer;
use std::alloc::Global;
use std::collections::BTreeMap;
use std::marker::Model;
use version_store::VersionStore;

/// A writer, with the place of the document that it holds.
#[derive(Drop)]
pub(crate) struct Held {
    writer: Writer,
    place: Option<(Text, IdKey)>,
}

impl Model for Held {
    ghost use Rattle.std.specs.Prelude.{◌≡◌};
    ghost use Rattle.set_model.specs.declared.writer.Writer.{Writer as Seen};
    ghost use Rattle.set_model.specs.contracts.writer.Writer.{the_row};
    ghost use Rattle.node_data.specs.Writers.{held_place};

    ghost Value = { Seen };

    ghost coded = { the_row.coded };

    ghost view = { λ h. h.writer };

    ghost invariant = { λ h. h.place ≡ held_place h.writer };
}

impl Held {
    /// A writer that opens a slot for an op on the document at a place.
    pub(crate) fn open(at: OpTime, op: SharedOp, place: (Text, IdKey)) -> Self
        requires { place_of op ≡ Some place }
        ensures { result ≡ Writer.Open at op }
    {
        Held {
            writer: Writer::Open { at, op },
            place: Some(place),
        }
    }

    fn done(at: OpTime) -> Self
        ensures { result ≡ Writer.Done at }
    {
        Held {
            writer: Writer::Done(at),
            place: None,
        }
    }

    fn writer(&self) -> &Writer
        ensures { result.now ≡ self.now }
    {
        &self.writer
    }

    /// The place of the document that it holds.
    fn place(&self) -> Option<&(Text, IdKey)>
        ensures { option_copied result ≡ held_place self.now }
    {
        self.place.as_ref()
    }

    /// An open writer's slot, and the place of its document.
    pub(crate) fn slot(self) -> Option<(OpTime, (Text, IdKey))>
        ensures { MatchOption result
            ((at : OpTime) (op : Op) → IsSome (place_of op) → self ≡ Writer.Open at op → ⊥)
            (λ slot. (op : Op) × (self ≡ Writer.Open slot.0 op) × (place_of op ≡ Some slot.1)) }
    {
        let Held { writer, place } = self;
        match (writer, place) {
            (Writer::Open { at, .. }, Some(place)) => Some((at, place)),
            _ => None,
        }
    }

    /// The op of an open writer.
    fn op(self) -> SharedOp
        requires { (at : OpTime) × (op : Op) × (self ≡ Writer.Open at op) }
        ensures { (at : OpTime) (op : Op) → self ≡ Writer.Open at op → result ≡ op }
    {
        let Held {
            writer,
            place: _place,
        } = self;
        match writer {
            Writer::Open { op, .. } => op,
            Writer::Done(_) | Writer::Lost(_) => unreachable!(),
        }
    }

    /// Marks an open writer as lost: the node stepped down before it committed.
    fn lose(&mut self)
        ensures { self.new ≡ lost_writer self.old }
    {
        if let Writer::Open { at, .. } = &self.writer {
            let term = at.term;
            self.writer = Writer::Lost(term);
            self.place = None;
        }
    }
}

#[derive(Drop)]
pub(crate) struct WriterMap {
    writers: BTreeMap<u32, Held>,
}

impl Model for WriterMap {
    ghost use Rattle.std.specs.FinMap as maps;
    ghost use Rattle.node_data.specs.Writers.{Writers, writers_code};

    ghost Value = { Writers };

    ghost coded = { writers_code };

    ghost view = { λ w. maps.from_entries w.writers.entries };
}

impl WriterMap {
    pub(crate) fn new(alloc: Global) -> Self
        ensures { result ≡ maps.empty }
    {
        WriterMap {
            writers: BTreeMap::new(alloc),
        }
    }

    pub(crate) fn get(&self, number: u32) -> Option<&Writer>
        ensures { option_copied result ≡ maps.get self.now number }
    {
        match self.writers.get(&number) {
            Some(held) => Some(held.writer()),
            None => None,
        }
    }

    /// Inserts a writer, and returns the previous one with its number. Only a new number takes memory.
    pub(crate) fn insert(&mut self, number: u32, writer: Held) -> Mem<Option<Held>>
        ensures ok { OnOk result (self.new ≡ maps.insert self.old number writer) }
        ensures old { IfOk result (λ old. old ≡ maps.get self.old number) }
        ensures err { OnErr result (self.new ≡ self.old) }
        ensures absent { OnErr result (maps.get self.old number ≡ None) }
    {
        Ok(self.writers.insert(number, writer)?)
    }

    /// Marks an open writer as done, and returns its op.
    pub(crate) fn finish(&mut self, number: u32, at: OpTime) -> SharedOp
        requires { IsWriting self.old number }
        ensures done { self.new ≡ maps.insert self.old number (Writer.Done at) }
        ensures op { (slot : OpTime) (op : Op) → HasOpen self.old number slot op → result ≡ op }
    {
        match self.insert(number, Held::done(at)) {
            Ok(Some(held)) => held.op(),
            _ => unreachable!(),
        }
    }

    /// Removes the writer with this number, and returns it, or none.
    pub(crate) fn take(&mut self, number: u32) -> Option<Held>
        ensures map { self.new ≡ maps.remove self.old number }
        ensures taken { result ≡ maps.get self.old number }
    {
        self.writers.remove(&number)
    }

    /// Undoes `insert`: the number again has the writer that it had before, or none.
    pub(crate) fn put_back(&mut self, number: u32, old: Option<Held>)
        requires { IsSome (maps.get self.old number) }
        ensures { self.new ≡ put_back self.old number old }
    {
        match old {
            None => {
                let _ = self.take(number);
            }
            Some(writer) => match self.insert(number, writer) {
                Ok(_) => {}
                Err(_) => unreachable!(),
            },
        }
    }

    /// Releases in the store each document that a writer holds.
    pub(crate) fn release_all(&self, store: &mut VersionStore)
        requires { (place : Place) → IsHolder self.now place (holder_at store.old place) }
        ensures versions { (place : Place) → versions_at store.new place ≡ versions_at store.old place }
        ensures free { (place : Place) → holder_at store.new place ≡ None }
        ensures count { store.new.count ≡ store.old.count }
    {
        for (_, held) in &self.writers {
            if let Some((ns, id)) = held.place() {
                store.release(ns.as_str(), id);
            }
        }
    }

    /// Marks each open writer as lost.
    pub(crate) fn lose_all(&mut self)
        ensures { self.new ≡ maps.from_entries (all_lost (maps.entries self.old)) }
    {
        self.writers.retain(|_, held| {
            held.lose();
            true
        });
    }
}
