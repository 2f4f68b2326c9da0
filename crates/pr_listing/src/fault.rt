//! Why a listing is refused.

ghost use Rattle.std.specs.Prelude.{◌≡◌};

use std::alloc::AllocError;
use thiserror::Error;

/// Why a listing is refused, before its statements are read; or lack of memory. Lines and columns
/// are counted from 1.
#[derive(Clone, Copy, Debug, PartialEq, Eq, Error)]
pub enum ListingFault {
    /// A saved program has fewer bytes than its load address.
    #[error("not a saved program")]
    NoAddress,
    /// A saved program has no line: its first link is 0.
    #[error("saved program without a line")]
    NoLine,
    /// A saved program ends in this line: in its link, in its number, or before the 0 after it.
    #[error("line {0}: cut off")]
    CutOff(usize),
    /// In a string of petcat's text or of a magazine's listing, at this line and this column: a brace
    /// with no name in it that they have, or without its other brace; so for a magazine's `[<`.
    #[error("line {0}, column {1}: unknown name")]
    UnknownName(usize, usize),
    /// In a string of petcat's text or of a magazine's listing, at this line and this column: a byte
    /// that its strings do not have. A magazine's have no small letters.
    #[error("line {0}, column {1}: bad byte")]
    BadByte(usize, usize),
    /// Memory was refused.
    #[error("out of memory")]
    NoMemory,
}

impl From<AllocError> for ListingFault {
    fn from(_refused: AllocError) -> ListingFault
        ensures { result ≡ ListingFault.NoMemory }
    {
        ListingFault::NoMemory
    }
}
