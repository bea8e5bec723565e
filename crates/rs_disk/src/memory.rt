ghost use Rattle.std.specs.Prelude.{◌≡◌, ◌^◌, ◌<◌, IsErr, IsErrOf};
ghost use Rattle.rs_disk.specs.Pages.{Holds, room_of};

use crate::arm::Arm;
use crate::disk::{Disk, DiskError, Failed};
use crate::pages::Pages;
use crate::past::{Call, End, Event, Past};
use std::alloc::{AllocError, Global};

/// Each file is shorter than this.
const LIMIT: u64 = 1 << 63;

/// A disk in memory. It fails in exactly the calls that it is armed for, and its picks name what a power cut
/// leaves.
#[derive(Drop)]
pub struct MemDisk {
    pages: Pages,
    past: Past,
    arm: Option<Arm>,
    faults: u64,
    ghost holds: { Holds pages past.file },
    ghost short: { room_of pages < 2 ^ 63 },
}

impl MemDisk {
    ghost use Rattle.rs_disk.specs.Calls.{CanCall};
    ghost use Rattle.rs_disk.specs.Memory.{state_of, arm_of, fresh};
    ghost use Rattle.rs_disk.specs.Past.{during, done, failed_past, done_past};
    ghost use Rattle.rs_disk.specs.State.{Ends, Keeps};
    ghost use Rattle.rs_disk.specs.FailsAsArmed.{FailsAsArmed};

    /// An empty disk without orders, which isn't armed.
    pub fn new(alloc: Global) -> MemDisk
        ensures state { state_of result ≡ fresh }
        ensures arm { arm_of result ≡ None }
    {
        MemDisk {
            pages: Pages::new(alloc),
            past: Past::new(),
            arm: None,
            faults: 0,
        }
    }

    // One of the calls that an arm counts.
    fn call(&mut self, call: &Call<'_>) -> Result<(), Failed>
        requires { CanCall call.now self.old.pages }
        ensures outcome { Ends (during call.now (state_of self.old).file)
            (done call.now (state_of self.old).file) result (state_of self.old) (state_of self.new) }
        ensures keeps { Keeps (IsErr result) (state_of self.old) (state_of self.new) }
        ensures fails_next { FailsAsArmed (during call.now (state_of self.old).file) (IsErr result)
            (arm_of self.old) (arm_of self.new) (state_of self.old) (state_of self.new) }
    {
        match Arm::count(&mut self.arm) {
            None => {
                self.run(call);
                Ok(())
            }
            Some(arm) => {
                self.faults = self.faults.saturating_add(1);
                self.fail(call, arm.pick);
                Err(Failed)
            }
        }
    }

    fn run(&mut self, call: &Call<'_>)
        requires { CanCall call.now self.old.pages }
        ensures past { self.new.past ≡ done_past call.now self.old.past }
        ensures arm { self.new.arm ≡ self.old.arm }
        ensures faults { self.new.faults ≡ self.old.faults }
        ensures room { room_of self.new.pages ≡ room_of self.old.pages }
    {
        self.pages.begin(call);
        if let Call::Sync = *call {
            self.pages.settle();
        }
        self.past = self.past.then(&Event {
            call: *call,
            end: End::Done,
        });
    }

    fn fail(&mut self, call: &Call<'_>, pick: Option<u64>)
        requires { CanCall call.now self.old.pages }
        ensures past { self.new.past ≡ failed_past call.now pick self.old.past }
        ensures arm { self.new.arm ≡ self.old.arm }
        ensures faults { self.new.faults ≡ self.old.faults }
        ensures room { room_of self.new.pages ≡ room_of self.old.pages }
    {
        let Some(pick) = pick else {
            self.past = self.past.then(&Event {
                call: *call,
                end: End::Undone,
            });
            return;
        };
        self.pages.begin(call);
        self.pages.lose(pick);
        self.past = self.past.then(&Event {
            call: *call,
            end: End::Left(&self.pages.now[..self.pages.end]),
        });
    }
}

impl Disk for MemDisk {
    ghost use Rattle.std.specs.Prelude.{◌≢◌, ◌+◌, ◌≤◌, Err, OnOk, length, max, slice_range};
    ghost use Rattle.rs_disk.specs.File.{changed, contents, write, cut, settled};
    ghost use Rattle.rs_disk.specs.Memory.{state_of, arm_of};
    ghost use Rattle.rs_disk.specs.Picks.{picked};
    ghost use Rattle.rs_disk.specs.State.{Ends, Writes, Keeps, IsArmed, IsCut, SameButRoom};
    ghost use Rattle.rs_disk.specs.FailsAsArmed.{FailsAsArmed};

    ghost state = { state_of };

    fn len(&self) -> u64 {
        self.pages.end as u64
    }

    fn read_at(&mut self, at: u64, into: &mut [u8]) -> Result<(), Failed>
        requires { at + length into.old ≤ length (contents (state_of self.old).file) }
        ensures bytes { OnOk result
            (into.new ≡ slice_range (contents (state_of self.old).file) at (at + length into.old)) }
        ensures outcome { Ends (state_of self.old).file (state_of self.old).file result (state_of self.old)
            (state_of self.new) }
        ensures keeps { Keeps (IsErr result) (state_of self.old) (state_of self.new) }
        ensures fails_next { FailsAsArmed (state_of self.old).file (IsErr result)
            (arm_of self.old) (arm_of self.new) (state_of self.old) (state_of self.new) }
    {
        self.call(&Call::Read)?;
        let at = at as usize;
        into.copy_from_slice(&self.pages.now[at..at + into.len()]);
        Ok(())
    }

    fn write_at(&mut self, at: u64, bytes: &[u8]) -> Result<(), DiskError>
        requires { at ≤ length (contents (state_of self.old).file) }
        ensures outcome { Writes at bytes.now result (state_of self.old) (state_of self.new) }
        ensures keeps { Keeps (IsErrOf result DiskError.Failed) (state_of self.old) (state_of self.new) }
        ensures too_long { 2 ^ 63 ≤ at + length bytes.now → IsErrOf result DiskError.Memory }
        ensures room { at + length bytes.now
            ≤ max (length (contents (state_of self.old).file)) (state_of self.old).room
            → result ≢ Err DiskError.Memory }
        ensures fails_next { result ≢ Err DiskError.Memory
            → FailsAsArmed (changed (write at bytes.now) (state_of self.old).file)
            (IsErrOf result DiskError.Failed) (arm_of self.old) (arm_of self.new) (state_of self.old)
            (state_of self.new) }
        ensures uncounted { result ≡ Err DiskError.Memory → arm_of self.new ≡ arm_of self.old }
    {
        if bytes.len() as u64 >= LIMIT - at {
            return Err(DiskError::Memory);
        }
        self.pages.grow(at as usize + bytes.len())?;
        self.call(&Call::Write(at, bytes))?;
        Ok(())
    }

    fn cut(&mut self, to: u64) -> Result<(), Failed>
        requires { to ≤ length (contents (state_of self.old).file) }
        ensures outcome { Ends (changed (cut to) (state_of self.old).file)
            (changed (cut to) (state_of self.old).file) result (state_of self.old) (state_of self.new) }
        ensures keeps { Keeps (IsErr result) (state_of self.old) (state_of self.new) }
        ensures fails_next { FailsAsArmed (changed (cut to) (state_of self.old).file) (IsErr result)
            (arm_of self.old) (arm_of self.new) (state_of self.old) (state_of self.new) }
    {
        self.call(&Call::Cut(to))
    }

    fn sync(&mut self) -> Result<(), Failed>
        ensures outcome { Ends (state_of self.old).file (settled (contents (state_of self.old).file)) result
            (state_of self.old) (state_of self.new) }
        ensures keeps { Keeps (IsErr result) (state_of self.old) (state_of self.new) }
        ensures fails_next { FailsAsArmed (state_of self.old).file (IsErr result)
            (arm_of self.old) (arm_of self.new) (state_of self.old) (state_of self.new) }
    {
        self.call(&Call::Sync)
    }

    fn reserve(&mut self, more: u64) -> Result<(), AllocError>
        ensures same { SameButRoom (state_of self.old) (state_of self.new) }
        ensures kept { (state_of self.old).room ≤ (state_of self.new).room }
        ensures room { OnOk result
            (length (contents (state_of self.old).file) + more ≤ (state_of self.new).room) }
        ensures too_long { 2 ^ 63 ≤ length (contents (state_of self.old).file) + more → IsErr result }
        ensures arm { arm_of self.new ≡ arm_of self.old }
    {
        let end = self.len();
        if more >= LIMIT - end {
            return Err(AllocError);
        }
        self.pages.grow((end + more) as usize)
    }

    fn arm(&mut self, call: u32, pick: Option<u64>)
        ensures armed { IsArmed call pick (state_of self.old) (state_of self.new) }
        ensures arm { arm_of self.new ≡ Some (record { calls = call; pick = pick }) }
    {
        self.past = self.past.then(&Event {
            call: Call::Arm(call, pick),
            end: End::Done,
        });
        self.arm = Some(Arm { calls: call, pick });
    }

    fn power_cut(&mut self, pick: u64)
        ensures cut { IsCut pick (state_of self.old) (state_of self.new) }
        ensures left { (state_of self.new).file ≡ settled (picked pick (state_of self.old).file) }
        ensures arm { arm_of self.new ≡ arm_of self.old }
    {
        self.pages.lose(pick);
        self.past = self.past.then(&Event {
            call: Call::PowerCut(pick),
            end: End::Left(&self.pages.now[..self.pages.end]),
        });
    }
}
