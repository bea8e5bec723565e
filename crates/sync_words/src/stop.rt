ghost use Rattle.std.specs.Prelude.{◌≡◌};
ghost use Rattle.sync_words.specs.Causes.{of_sink};
ghost use Rattle.sync_words.specs.declared.stop.SyncStop.TheVariants.{Memory as IsMemory};

use crate::SyncRefusal;
use rs_io::SinkError;
use std::alloc::AllocError;

/// Why no new member was made.
#[derive(Clone, Copy, Debug, PartialEq, Eq)]
pub enum SyncStop {
    /// None can be made, or not from what this node has.
    Refused(SyncRefusal),
    /// A disk of the new member failed.
    DiskFault,
    /// The sink failed.
    WriteFault,
    /// Out of memory.
    Memory,
}

impl From<AllocError> for SyncStop {
    ghost from_gives = { λ _ s. s ≡ IsMemory };

    fn from(_: AllocError) -> Self {
        SyncStop::Memory
    }
}

impl From<SinkError> for SyncStop {
    ghost from_gives = { λ e s. s ≡ of_sink e };

    fn from(error: SinkError) -> Self {
        match error {
            SinkError::Failed => SyncStop::WriteFault,
            SinkError::Memory => SyncStop::Memory,
        }
    }
}
