// What a node stored, and what its records give.
ghost use Rattle.std.specs.Prelude.{◌≡◌, ◌∷◌, [], IfOk, OnOk, OnErr};
ghost use Rattle.std.specs.Option.{option_copied};
ghost use Rattle.oplog_store.specs.Log.{IsOplog};
ghost use Rattle.repl_msg.specs.Kept.{NEWEST_FORM, kept};
ghost use Rattle.repl_msg.specs.declared.record.Record.TheVariants.{Form};
ghost use Rattle.set_model.specs.Disk.{has_more};
ghost use Rattle.set_model.specs.Stores.{records_after};

use crate::merging::{append, merge};
use crate::optimes::earlier;
use bson_doc::Mem;
use member_config::Config;
use oplog_store::Oplog;
use repl_msg::{NEWEST_FORM, Record};
use rs_optime::OpTime;
use set_model::{Records, Store};
use std::alloc::Global;
use std::marker::Model;
use vote_store::Vote;

/// The records of a node, as what they give. The records themselves exist in proofs alone.
#[derive(Drop)]
pub struct Journal {
    records: Records,
    vote: Vote,
    config: Option<Config>,
    entries: Oplog,
    point: OpTime,
}

impl Model for Journal {
    ghost use Rattle.std.specs.Prelude.{List};
    ghost use Rattle.std.specs.Coded.{coded_list};
    ghost use Rattle.repl_msg.specs.declared.record.Record.{Record};
    ghost use Rattle.repl_msg.specs.contracts.record.Record.{the_row};
    ghost use Rattle.checker_tables.specs.Journal.{ComesTo};

    ghost Value = { List Record };

    ghost coded = { coded_list the_row.coded };

    ghost view = { λ j. j.records.list };

    ghost invariant = { λ j. ComesTo j.records.list j.vote j.config j.entries.entries j.point };
}

impl Journal {
    /// A journal that is opened empty: it is of the newest form.
    pub fn new(alloc: Global) -> Self
        ensures { result ≡ Form NEWEST_FORM ∷ [] }
    {
        Journal {
            records: Records::none().with(&Store::Record(Record::Form(NEWEST_FORM))),
            vote: Vote {
                term: 0,
                candidate: None,
            },
            config: None,
            entries: Oplog::new(alloc),
            point: OpTime::ZERO,
        }
    }

    /// The last vote that is in the records.
    pub fn vote(&self) -> Vote
        ensures { result ≡ (kept self.now).vote }
    {
        self.vote
    }

    /// The last configuration that is in the records.
    pub fn config(&self) -> Option<&Config>
        ensures { option_copied result ≡ (kept self.now).config }
    {
        self.config.as_ref()
    }

    /// The entries that are in the records and weren't cut.
    pub fn entries(&self) -> &Oplog
        ensures { result.now.entries ≡ (kept self.now).entries }
    {
        &self.entries
    }

    /// The point up to which no entry is missing.
    pub fn point(&self) -> OpTime
        ensures { result ≡ (kept self.now).point }
    {
        self.point
    }

    /// Whether there are entries after that point.
    pub fn has_more(&self) -> bool
        ensures { result ≡ has_more (kept self.now) }
    {
        !self.entries.after(self.point).is_empty()
    }

    /// Adds what is stored, if it is a record. Out of memory leaves it as it was.
    pub fn keep(&mut self, item: Store) -> Mem<()>
        requires stays { IsOplog (kept (records_after self.old item)).entries }
        ensures ok { OnOk result (self.new ≡ records_after self.old item) }
        ensures err { OnErr result (self.new ≡ self.old) }
    {
        let records = self.records.with(&item);
        match item {
            Store::Record(Record::Vote(vote)) => self.vote = vote,
            Store::Record(Record::Config(config)) => self.config = Some(config),
            Store::Record(Record::Entries { list, point }) => {
                merge(&mut self.entries, list.into_entries())?;
                self.point = point;
            }
            Store::Record(Record::Cut(at)) => {
                self.entries.cut(at);
                self.point = earlier(self.point, at);
            }
            Store::Record(Record::Form(_)) | Store::Checkpoint(_) => {}
        }
        self.records = records;
        Ok(())
    }

    /// The same journal once more, with the same ops.
    pub fn copy(&self, alloc: Global) -> Mem<Self>
        ensures { IfOk result (λ journal. journal ≡ self.now) }
    {
        let config = copied(&self.config)?;
        let mut entries = Oplog::new(alloc);
        append(alloc, &mut entries, self.entries.as_slice())?;
        Ok(Journal {
            records: self.records.same(),
            vote: self.vote,
            config,
            entries,
            point: self.point,
        })
    }
}

/// The same configuration once more, if there is one.
fn copied(config: &Option<Config>) -> Mem<Option<Config>>
    ensures { IfOk result (λ copy. copy ≡ config.now) }
{
    match config {
        Some(config) => Ok(Some(config.copy()?)),
        None => Ok(None),
    }
}
