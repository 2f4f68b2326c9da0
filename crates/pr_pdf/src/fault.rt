//! Why no document is made.

ghost use Rattle.std.specs.Prelude.{◌≡◌};

use std::alloc::{AllocError, AllocFailed};
use thiserror::Error;

/// Why no document is made.
#[derive(Clone, Copy, Debug, Error, PartialEq, Eq)]
pub enum PdfFault {
    /// The document has more bytes than [`crate::LIMIT`].
    #[error("document too large")]
    TooLarge,
    /// Memory was refused.
    #[error("out of memory")]
    NoMemory,
}

impl From<AllocError> for PdfFault {
    ghost use Rattle.pr_pdf.specs.declared.fault.PdfFault.TheVariants.{NoMemory};

    ghost from_gives = { λ _ fault. fault ≡ NoMemory };

    fn from(_refused: AllocError) -> PdfFault {
        PdfFault::NoMemory
    }
}

impl<T: Drop> From<AllocFailed<T>> for PdfFault {
    ghost use Rattle.pr_pdf.specs.declared.fault.PdfFault.TheVariants.{NoMemory};

    ghost from_gives = { λ _ fault. fault ≡ NoMemory };

    fn from(_refused: AllocFailed<T>) -> PdfFault {
        PdfFault::NoMemory
    }
}
