//! Why a file has no shapes.

use thiserror::Error;

/// Why a file has no shapes of characters.
#[derive(Clone, Copy, Debug, PartialEq, Eq, Error)]
pub enum CharactersFault {
    /// The first line, from 1, that is not what it has to be, or that is missing.
    #[error("line {0}: bad character line")]
    BadLine(usize),
}
