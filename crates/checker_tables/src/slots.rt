// The open slots of a node.
ghost use Rattle.std.specs.Prelude.{◌≡◌, IsTrue, IfOk, OnOk};
ghost use Rattle.std.specs.FinSet as sets;
ghost use Rattle.oplog_entry.specs.Visible.{least};

use bson_doc::Mem;
use rs_optime::OpTime;
use std::alloc::Global;
use std::collections::BTreeSet;
use std::marker::Model;

/// The optimes that are reserved and not yet settled.
#[derive(Drop)]
pub struct Slots {
    slots: BTreeSet<OpTime>,
}

impl Model for Slots {
    ghost use Rattle.std.specs.FinSet as sets;
    ghost use Rattle.rs_optime.specs.Order.{optime_cmp};
    ghost use Rattle.checker_tables.specs.Code.{slots_code};

    ghost Value = { sets.FinSet optime_cmp };

    ghost coded = { slots_code };

    ghost view = { λ s. sets.from_list s.slots.keys };
}

impl Slots {
    /// No slot.
    pub fn new(alloc: Global) -> Self
        ensures { result ≡ sets.empty }
    {
        Slots {
            slots: BTreeSet::new(alloc),
        }
    }

    /// The earliest open slot.
    pub fn least(&self) -> Option<OpTime>
        ensures { result ≡ least (sets.items self.now) }
    {
        self.slots.first().copied()
    }

    /// Opens a slot. The only error is out of memory.
    pub fn insert(&mut self, at: OpTime) -> Mem<()>
        ensures { OnOk result (self.new ≡ sets.insert self.old at) }
    {
        self.slots.insert(at)?;
        Ok(())
    }

    /// Closes a slot.
    pub fn remove(&mut self, at: OpTime)
        ensures { self.new ≡ sets.remove self.old at }
    {
        self.slots.remove(&at);
    }

    /// Whether the same slots are open as in another.
    pub fn same(&self, other: &Slots) -> bool
        ensures { IsTrue result → self.now ≡ other.now }
    {
        self.slots == other.slots
    }

    /// The same slots once more.
    pub fn copy(&self) -> Mem<Self>
        ensures { IfOk result (λ slots. slots ≡ self.now) }
    {
        Ok(Slots {
            slots: self.slots.clone()?,
        })
    }
}
