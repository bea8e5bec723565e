// Why a check counts no events.
ghost use Rattle.std.specs.Prelude.{◌≡◌};
ghost use Rattle.trace_check.specs.Causes.{of_read, of_sink};
ghost use Rattle.trace_check.specs.declared.stop.CheckStop.TheVariants.{Memory as IsMemory};

use rs_io::{ReadAllError, SinkError};
use std::alloc::AllocError;

/// Why a check counts no events.
#[derive(Clone, Copy, Debug, PartialEq, Eq)]
pub enum CheckStop {
    /// The bytes aren't a trace, and the line that says so was put.
    NoTrace,
    /// The source failed.
    ReadFault,
    /// There are more bytes than are checked.
    TooLong,
    /// The sink failed.
    WriteFault,
    /// Out of memory.
    Memory,
}

impl From<AllocError> for CheckStop {
    ghost from_gives = { λ _ s. s ≡ IsMemory };

    fn from(_: AllocError) -> Self {
        CheckStop::Memory
    }
}

impl From<ReadAllError> for CheckStop {
    ghost from_gives = { λ e s. s ≡ of_read e };

    fn from(error: ReadAllError) -> Self {
        match error {
            ReadAllError::ReadFault => CheckStop::ReadFault,
            ReadAllError::TooLong => CheckStop::TooLong,
            ReadAllError::Memory => CheckStop::Memory,
        }
    }
}

impl From<SinkError> for CheckStop {
    ghost from_gives = { λ e s. s ≡ of_sink e };

    fn from(error: SinkError) -> Self {
        match error {
            SinkError::Failed => CheckStop::WriteFault,
            SinkError::Memory => CheckStop::Memory,
        }
    }
}
