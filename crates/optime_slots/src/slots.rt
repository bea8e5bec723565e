ghost use Rattle.std.specs.Prelude.{◌≡◌, ◌-◌, ◌^◌, ◌<◌, IfOk, OnOk, OnErr, MatchOption, is_ok};
ghost use Rattle.std.specs.FinSet as set;
ghost use Rattle.optime_slots.specs.Reserved.{AreSeen, IsLeast, none_reserved, next_slot, opened, closed, all_closed, with_seen};

use rs_optime::{Mem, OpTime, next_after};
use std::alloc::Global;
use std::collections::BTreeSet;
use std::marker::Model;
use thiserror::Error;

/// The optimes that are given out and not yet settled, and the greatest timestamp seen.
#[derive(Drop)]
pub struct Slots {
    slots: BTreeSet<OpTime>,
    mark: u64,
}

impl Model for Slots {
    ghost use Rattle.std.specs.FinSet as set;
    ghost use Rattle.optime_slots.specs.Reserved.{Reserved, reserved_code, AreSeen};

    ghost Value = { Reserved };

    ghost coded = { reserved_code };

    ghost view = { λ s. record { slots = set.from_list s.slots.keys; mark = s.mark } };

    ghost invariant = { λ s. AreSeen (set.from_list s.slots.keys) s.mark };
}

/// No slot is open at the optime.
#[derive(Clone, Copy, Debug, PartialEq, Eq, Error)]
#[error("no slot is open at this optime")]
pub struct NoSuchSlot;

impl Slots {
    /// No slot, and no timestamp seen.
    pub fn new(alloc: Global) -> Self
        ensures { result ≡ none_reserved }
    {
        Slots {
            slots: BTreeSet::new(alloc),
            mark: 0,
        }
    }

    /// The greatest timestamp seen. No slot is later, and none has the timestamp of ZERO.
    pub fn mark(&self) -> u64
        ensures mark { result ≡ self.now.mark }
        ensures seen { AreSeen self.now.slots self.now.mark }
    {
        self.mark
    }

    /// Opens a slot at the next timestamp, which is later than every one seen.
    pub fn reserve(&mut self, term: u64, clock: u32) -> Mem<OpTime>
        requires { self.old.mark < 2 ^ 64 - 1 }
        ensures next { IfOk result (λ at. at ≡ next_slot self.old term clock) }
        ensures ok { IfOk result (λ at. self.new ≡ opened self.old at) }
        ensures err { OnErr result (self.new ≡ self.old) }
    {
        let at = OpTime {
            term,
            ts: next_after(clock, self.mark),
        };
        self.open(at)?;
        Ok(at)
    }

    /// Opens a slot at an optime later than every timestamp seen.
    pub fn open(&mut self, at: OpTime) -> Mem<()>
        requires { self.old.mark < at.ts }
        ensures ok { OnOk result (self.new ≡ opened self.old at) }
        ensures err { OnErr result (self.new ≡ self.old) }
    {
        self.slots.insert(at)?;
        self.mark = at.ts;
        Ok(())
    }

    /// Raises the greatest timestamp seen, for an entry that had no slot.
    pub fn seen(&mut self, ts: u64)
        ensures { self.new ≡ with_seen self.old ts }
    {
        self.mark = self.mark.max(ts);
    }

    /// Closes the slot of an entry that is written.
    pub fn settle(&mut self, at: OpTime) -> Result<(), NoSuchSlot>
        ensures open { is_ok result ≡ set.contains self.old.slots at }
        ensures ok { OnOk result (self.new ≡ closed self.old at) }
        ensures err { OnErr result (self.new ≡ self.old) }
    {
        if !self.slots.remove(&at) {
            return Err(NoSuchSlot);
        }
        Ok(())
    }

    /// Closes the slot of an entry that will not be written.
    pub fn abort(&mut self, at: OpTime) -> Result<(), NoSuchSlot>
        ensures open { is_ok result ≡ set.contains self.old.slots at }
        ensures ok { OnOk result (self.new ≡ closed self.old at) }
        ensures err { OnErr result (self.new ≡ self.old) }
    {
        self.settle(at)
    }

    /// Closes every slot.
    pub fn abort_all(&mut self)
        ensures { self.new ≡ all_closed self.old }
    {
        self.slots.clear();
    }

    /// The earliest open slot.
    pub fn least(&self) -> Option<OpTime>
        ensures { MatchOption result (self.now.slots ≡ set.empty) (IsLeast self.now) }
    {
        self.slots.first().copied()
    }
}
