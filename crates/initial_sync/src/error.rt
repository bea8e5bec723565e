ghost use Rattle.std.specs.Prelude.{◌≡◌};
ghost use Rattle.initial_sync.specs.declared.error.CopyError.TheVariants.{Memory};
ghost use Rattle.initial_sync.specs.Answers.{copy_error};

use record_file::FileError;
use std::alloc::AllocError;
use thiserror::Error;

/// Why a copy ended before it was whole.
#[derive(Clone, Copy, Debug, PartialEq, Eq, Error)]
pub enum CopyError {
    #[error("a disk failed")]
    Disk,
    #[error("the disks have another copy")]
    OtherCopy,
    #[error("out of memory")]
    Memory,
}

impl From<AllocError> for CopyError {
    ghost from_gives = { λ _ e. e ≡ Memory };

    fn from(_: AllocError) -> Self {
        CopyError::Memory
    }
}

impl From<FileError> for CopyError {
    ghost from_gives = { λ error e. e ≡ copy_error error };

    fn from(error: FileError) -> Self {
        match error {
            FileError::Disk => CopyError::Disk,
            FileError::Memory => CopyError::Memory,
        }
    }
}
