// The last write of each session.
ghost use Rattle.std.specs.Prelude.{◌≡◌, ℕ, OnErr, OnOk};
ghost use Rattle.std.specs.FinMap as maps;
ghost use Rattle.set_model.specs.Sessions.{is_past, later_write};

use bson_doc::Mem;
use oplog_entry::Session;
use rs_optime::OpTime;
use set_model::LastWrite;
use std::alloc::Global;
use std::collections::BTreeMap;
use std::marker::Model;

#[derive(Drop)]
pub(crate) struct LastWrites {
    writes: BTreeMap<u32, LastWrite>,
}

impl Model for LastWrites {
    ghost use Rattle.checker_tables.specs.SessionTable.{Writes, writes_code};
    ghost use Rattle.std.specs.FinMap as maps;

    ghost Value = { Writes };

    ghost coded = { writes_code };

    ghost view = { λ t. maps.from_entries t.writes.entries };
}

/// A number is greater than that of the last write.
fn is_past(last: Option<LastWrite>, number: u32) -> bool
    ensures { result ≡ is_past last number }
{
    match last {
        None => true,
        Some(last) => last.number < number,
    }
}

impl LastWrites {
    /// No write.
    pub(crate) fn new(alloc: Global) -> Self
        ensures { result ≡ maps.empty }
    {
        LastWrites {
            writes: BTreeMap::new(alloc),
        }
    }

    pub(crate) fn get(&self, id: u32) -> Option<LastWrite>
        ensures { result ≡ maps.get self.now id }
    {
        self.writes.get(&id).copied()
    }

    /// Adds an entry, of a session or of none. Out of memory leaves all as it was.
    pub(crate) fn add(&mut self, at: OpTime, session: Option<Session>) -> Mem<()>
        ensures ok { OnOk result ((id : ℕ)
            → maps.get self.new id ≡ later_write id (maps.get self.old id) at session) }
        ensures err { OnErr result (self.new ≡ self.old) }
    {
        let Some(session) = session else {
            return Ok(());
        };
        if !is_past(self.get(session.id), session.number) {
            return Ok(());
        }
        let last = LastWrite {
            number: session.number,
            at,
        };
        self.writes.insert(session.id, last)?;
        Ok(())
    }
}
