ghost use Rattle.std.specs.Prelude.{◌≡◌, ◌≢◌, ◌+◌, ◌^◌, ◌<◌, ◌≤◌, length, max, slice_range, IsErr, IsErrOf, OnOk};
ghost use Rattle.rs_disk.specs.File.{changed, contents, cut, settled, IsImage};
ghost use Rattle.rs_disk.specs.declared.disk.DiskError.TheVariants.{Memory, Failed as HasFailed};

use std::alloc::AllocError;
use thiserror::Error;

/// The disk failed.
#[derive(Clone, Copy, Debug, PartialEq, Eq, Error)]
#[error("the disk failed")]
pub struct Failed;

/// Why a write to a disk failed.
#[derive(Clone, Copy, Debug, PartialEq, Eq, Error)]
pub enum DiskError {
    #[error("the disk failed")]
    Failed,
    #[error("out of memory")]
    Memory,
}

impl From<AllocError> for DiskError {
    ghost from_gives = { λ _ e. e ≡ Memory };

    fn from(_: AllocError) -> Self {
        DiskError::Memory
    }
}

impl From<Failed> for DiskError {
    ghost from_gives = { λ _ e. e ≡ HasFailed };

    fn from(_: Failed) -> Self {
        DiskError::Failed
    }
}

/// One file on a disk with a volatile cache. What was written since the last `sync` may be lost, in part or
/// wholly, or be torn.
///
/// A call of `read_at`, `write_at`, `cut` or `sync` that fails leaves the file as a crash within that call
/// may have left it.
pub trait Disk {
    ghost use Rattle.rs_disk.specs.State.{State, Ends, Writes, Keeps, IsArmed, IsCut, SameButRoom};

    /// What a read gives, what a crash may leave now or might have left earlier, the faults, the orders,
    /// and the room.
    ghost state: { Self → State };

    /// The file's length in bytes, below 2^63.
    fn len(&self) -> u64
        ensures length { result ≡ length (contents (state self.now).file) }
        ensures bound { result < 2 ^ 63 };

    /// Fills the slice with the bytes from that place on.
    fn read_at(&mut self, at: u64, into: &mut [u8]) -> Result<(), Failed>
        requires { at + length into.old ≤ length (contents (state self.old).file) }
        ensures bytes { OnOk result
            (into.new ≡ slice_range (contents (state self.old).file) at (at + length into.old)) }
        ensures outcome { Ends (state self.old).file (state self.old).file result (state self.old)
            (state self.new) }
        ensures keeps { Keeps (IsErr result) (state self.old) (state self.new) };

    /// Overwrites what is there, and may extend the file past its end.
    ///
    /// # Errors
    /// `Memory` comes for a write that would pass 2^63 bytes, and otherwise only for one that ends past both
    /// the file's end and the reserved room. It leaves the disk as it was.
    fn write_at(&mut self, at: u64, bytes: &[u8]) -> Result<(), DiskError>
        requires { at ≤ length (contents (state self.old).file) }
        ensures outcome { Writes at bytes.now result (state self.old) (state self.new) }
        ensures keeps { Keeps (IsErrOf result DiskError.Failed) (state self.old) (state self.new) }
        ensures too_long { 2 ^ 63 ≤ at + length bytes.now → IsErrOf result DiskError.Memory }
        ensures room { at + length bytes.now
            ≤ max (length (contents (state self.old).file)) (state self.old).room
            → result ≢ Err DiskError.Memory };

    /// Cuts the file to its first `to` bytes.
    fn cut(&mut self, to: u64) -> Result<(), Failed>
        requires { to ≤ length (contents (state self.old).file) }
        ensures outcome { Ends (changed (cut to) (state self.old).file)
            (changed (cut to) (state self.old).file) result (state self.old) (state self.new) }
        ensures keeps { Keeps (IsErr result) (state self.old) (state self.new) };

    /// Makes what was written durable: after it, a crash leaves what a read gives.
    fn sync(&mut self) -> Result<(), Failed>
        ensures outcome { Ends (state self.old).file (settled (contents (state self.old).file)) result
            (state self.old) (state self.new) }
        ensures keeps { Keeps (IsErr result) (state self.old) (state self.new) };

    /// Reserves memory for writes of up to `more` bytes past the end, which then can't run out of it. An
    /// error, which also comes where 2^63 bytes would be reached, leaves the file as it was.
    fn reserve(&mut self, more: u64) -> Result<(), AllocError>
        ensures same { SameButRoom (state self.old) (state self.new) }
        ensures kept { (state self.old).room ≤ (state self.new).room }
        ensures room { OnOk result (length (contents (state self.old).file) + more ≤ (state self.new).room) }
        ensures too_long { 2 ^ 63 ≤ length (contents (state self.old).file) + more → IsErr result };

    /// Makes the `call`-th call after this one fail, counted from 1 over `read_at`, `write_at`, `cut` and
    /// `sync`; 0 means the next. With a pick, a power cut strikes within that call. It replaces an earlier
    /// `arm` that hasn't struck.
    fn arm(&mut self, call: u32, pick: Option<u64>)
        ensures { IsArmed call pick (state self.old) (state self.new) };

    /// Cuts the power: what was written since the last `sync` may be lost or torn. The pick chooses among
    /// what may be left.
    fn power_cut(&mut self, pick: u64)
        ensures { IsCut pick (state self.old) (state self.new) };

    ghost use Rattle.rs_disk.specs.Images.{read_is_image};

    /// A disk as it reads is one of its images.
    ghost reads_an_image: { (disk : Self)
        → IsImage (state disk).file (contents (state disk).file) } = { λ disk.
            read_is_image (state disk).file };
}
