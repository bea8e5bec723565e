ghost use Rattle.std.specs.Prelude.{◌≡◌};
ghost use Rattle.set_world.specs.declared.error.StepError.TheVariants.{Memory};

use std::alloc::AllocError;
use thiserror::Error;

/// Why a step wasn't done.
#[derive(Clone, Copy, Debug, PartialEq, Eq, Error)]
pub enum StepError {
    #[error("out of memory")]
    Memory,
    #[error("the history is full")]
    HistoryFull,
}

impl From<AllocError> for StepError {
    ghost from_gives = { λ _ e. e ≡ Memory };

    fn from(_: AllocError) -> Self {
        StepError::Memory
    }
}
