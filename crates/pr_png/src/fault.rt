//! Why no picture is made.

ghost use Rattle.std.specs.Prelude.{◌≡◌};

use std::alloc::{AllocError, AllocFailed};
use thiserror::Error;

/// Why no picture is made.
#[derive(Clone, Copy, Debug, Error, PartialEq, Eq)]
pub enum PngFault {
    /// The picture has more lines of pixels than [`crate::LIMIT`].
    #[error("picture too large")]
    TooLarge,
    /// Memory was refused.
    #[error("out of memory")]
    NoMemory,
}

impl From<AllocError> for PngFault {
    ghost use Rattle.pr_png.specs.declared.fault.PngFault.TheVariants.{NoMemory};

    ghost from_gives = { λ _ fault. fault ≡ NoMemory };

    fn from(_refused: AllocError) -> PngFault {
        PngFault::NoMemory
    }
}

impl<T: Drop> From<AllocFailed<T>> for PngFault {
    ghost use Rattle.pr_png.specs.declared.fault.PngFault.TheVariants.{NoMemory};

    ghost from_gives = { λ _ fault. fault ≡ NoMemory };

    fn from(_refused: AllocFailed<T>) -> PngFault {
        PngFault::NoMemory
    }
}
