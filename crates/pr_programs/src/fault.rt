//! Why a text has no script as a program.

ghost use Rattle.std.specs.Prelude.{◌≡◌};

use pr_listing::ListingFault;
use std::alloc::AllocError;
use thiserror::Error;

/// What is refused at a place of a program.
#[derive(Clone, Copy, Debug, PartialEq, Eq, Error)]
pub enum Reason {
    /// A row does not begin with a line number, or that of a saved program is not above the one before.
    #[error("no line number")]
    NoLineNumber,
    /// A line number is above 63999.
    #[error("line number above 63999")]
    LargeLineNumber,
    /// No expression can have this there: the machine reports `?SYNTAX ERROR` where it comes to it.
    #[error("syntax error")]
    Syntax,
    /// A brace in a string begins no name of a key.
    #[error("unknown name")]
    Name,
    /// A string or an item of DATA has a byte that is none of 32 to 126, or an item of DATA a brace.
    #[error("bad byte")]
    Byte,
    /// What the machine would do is not certain: a value, or the screen's column.
    #[error("not certain")]
    NotCertain,
    /// A statement is not run, as INPUT or SYS, or a function or a variable has no known value, as RND or TI.
    #[error("not supported")]
    NotTaken,
    /// POKE to this address may change what is printed.
    #[error("POKE not supported")]
    Poke,
    /// OPEN of a device other than 4 to 30.
    #[error("bad device")]
    Device,
    /// OPEN with a secondary address above 15.
    #[error("bad secondary address")]
    SecondAddress,
    /// OPEN or CLOSE with a file name.
    #[error("file name not supported")]
    FileName,
    /// A list of more than 255 bytes.
    #[error("too long")]
    LongList,
    /// CLR while a file is open.
    #[error("CLR with an open file")]
    OpenFiles,
    /// The machine's stack may be full.
    #[error("stack may be full")]
    FullStack,
    /// The machine's memory may be full.
    #[error("memory may be full")]
    FullMemory,
}

/// Why a text has no script as a program.
#[derive(Clone, Copy, Debug, PartialEq, Eq, Error)]
pub enum BasicFault {
    /// Something is refused, in this row of the text and at this column of it, both counted from 1.
    #[error("line {row}, column {column}: {reason}")]
    Refused {
        row: usize,
        column: usize,
        reason: Reason,
    },
    /// The file is no whole saved program.
    #[error("{0}")]
    Listing(ListingFault),
    /// The run has as many steps as it may have, and is in this line of the program.
    #[error("too many steps in {0}")]
    TooManySteps(u16),
    /// Memory was refused.
    #[error("out of memory")]
    NoMemory,
}

impl From<AllocError> for BasicFault {
    fn from(_refused: AllocError) -> BasicFault
        ensures { result ≡ BasicFault.NoMemory }
    {
        BasicFault::NoMemory
    }
}
