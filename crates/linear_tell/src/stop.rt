// Why a linear read gives no answer.
ghost use Rattle.std.specs.Prelude.{◌≡◌};
ghost use Rattle.linear_tell.specs.Causes.{of_sink};
ghost use Rattle.linear_tell.specs.declared.stop.LinearStop.TheVariants.{Memory as IsMemory};

use rs_io::SinkError;
use set_world::StepError;
use std::alloc::AllocError;

/// Why a linear read that words ask for has no answer.
#[derive(Clone, Copy, Debug, PartialEq, Eq)]
pub enum LinearStop {
    /// It was refused, and the line that says so was put.
    Refused,
    /// The sink failed.
    WriteFault,
    /// Out of memory.
    Memory,
}

impl From<AllocError> for LinearStop {
    ghost from_gives = { λ _ s. s ≡ IsMemory };

    fn from(_: AllocError) -> Self {
        LinearStop::Memory
    }
}

impl From<SinkError> for LinearStop {
    ghost from_gives = { λ e s. s ≡ of_sink e };

    fn from(error: SinkError) -> Self {
        match error {
            SinkError::Failed => LinearStop::WriteFault,
            SinkError::Memory => LinearStop::Memory,
        }
    }
}

impl From<StepError> for LinearStop {
    ghost from_gives = { λ _ s. s ≡ IsMemory };

    // A full history has no room for one more event.
    fn from(_: StepError) -> Self {
        LinearStop::Memory
    }
}
