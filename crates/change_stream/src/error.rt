ghost use Rattle.std.specs.Prelude.{◌≡◌};
ghost use Rattle.change_stream.specs.Errors.{of_step};
ghost use Rattle.change_stream.specs.declared.error.WatchError.TheVariants.{Memory as IsMemory};

use set_world::StepError;
use std::alloc::AllocError;
use thiserror::Error;

/// Why a call of a stream gave no entries. It leaves the stream as it was.
#[derive(Clone, Copy, Debug, PartialEq, Eq, Error)]
pub enum WatchError {
    /// The node is down.
    #[error("the node is down")]
    NodeDown,
    /// The node's log is committed as far as the token, and doesn't have its entry.
    #[error("the token is unknown")]
    UnknownToken,
    #[error("the history is full")]
    HistoryFull,
    #[error("out of memory")]
    Memory,
}

impl From<StepError> for WatchError {
    ghost from_gives = { λ s e. e ≡ of_step s };

    fn from(error: StepError) -> Self {
        match error {
            StepError::Memory => WatchError::Memory,
            StepError::HistoryFull => WatchError::HistoryFull,
        }
    }
}

impl From<AllocError> for WatchError {
    ghost from_gives = { λ _ e. e ≡ IsMemory };

    fn from(_: AllocError) -> Self {
        WatchError::Memory
    }
}
