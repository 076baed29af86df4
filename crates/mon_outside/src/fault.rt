//! What a call of the outside answers where it does not do its work.

use std::alloc::AllocError;
use thiserror::Error;

/// The outside failed, and has counted it.
#[derive(Clone, Copy, Debug, Error)]
#[error("Failed")]
pub struct Failed;

/// Why a read gave no bytes to a buffer that grows.
#[derive(Clone, Copy, Debug, Error)]
pub enum ReadFault {
    /// The outside failed.
    #[error("Failed")]
    Failed,
    /// The memory for the bytes was refused.
    #[error("Memory")]
    Memory,
}

impl From<AllocError> for ReadFault {
    ghost use Rattle.std.specs.Prelude.{◌≡◌};
    ghost use Rattle.mon_outside.specs.declared.fault.ReadFault.TheVariants.{Memory};

    ghost from_gives = { λ _ fault. fault ≡ Memory };

    fn from(_: AllocError) -> Self {
        ReadFault::Memory
    }
}

/// Why a file was not loaded.
#[derive(Clone, Copy, Debug, Error)]
pub enum LoadFault {
    /// The outside failed.
    #[error("Failed")]
    Failed,
    /// More bytes were given than the limit allows.
    #[error("TooLong")]
    TooLong,
    /// The memory for the bytes was refused.
    #[error("Memory")]
    Memory,
}

impl From<AllocError> for LoadFault {
    ghost use Rattle.std.specs.Prelude.{◌≡◌};
    ghost use Rattle.mon_outside.specs.declared.fault.LoadFault.TheVariants.{Memory};

    ghost from_gives = { λ _ fault. fault ≡ Memory };

    fn from(_: AllocError) -> Self {
        LoadFault::Memory
    }
}
