ghost use Rattle.std.specs.Prelude.{◌≡◌};
ghost use Rattle.record_file.specs.declared.error.FileError.TheVariants.{Disk as IsDisk, Memory};
ghost use Rattle.record_file.specs.Causes.{file_error};

use rs_disk::{DiskError, Failed};
use std::alloc::AllocError;
use thiserror::Error;

/// Why a call of a record file failed.
#[derive(Clone, Copy, Debug, PartialEq, Eq, Error)]
pub enum FileError {
    #[error("the disk failed")]
    Disk,
    #[error("out of memory")]
    Memory,
}

impl From<AllocError> for FileError {
    ghost from_gives = { λ _ e. e ≡ Memory };

    fn from(_: AllocError) -> Self {
        FileError::Memory
    }
}

impl From<Failed> for FileError {
    ghost from_gives = { λ _ e. e ≡ IsDisk };

    fn from(_: Failed) -> Self {
        FileError::Disk
    }
}

impl From<DiskError> for FileError {
    ghost from_gives = { λ error e. e ≡ file_error error };

    fn from(error: DiskError) -> Self {
        match error {
            DiskError::Failed => FileError::Disk,
            DiskError::Memory => FileError::Memory,
        }
    }
}
