//! Why a script is refused.

ghost use Rattle.std.specs.Prelude.{◌≡◌};
ghost use Rattle.pr_basic.specs.FaultPlaces.{at_number};

use thiserror::Error;

/// The first fault of a script from the left, with the number of its line, counted from 1; or
/// lack of memory, which can come at any point. The rules are the profile's.
#[derive(Clone, Copy, Debug, PartialEq, Eq, Error)]
pub enum ScriptFault {
    /// No keyword where a statement must begin, a byte that cannot go on the statement, a comma of
    /// CMD or PRINT# with no list after it, or a missing parenthesis.
    #[error("line {0}: unknown word")]
    UnknownWord(usize),
    /// A line number above 63999, a file number that is missing or above 255, or no digits in
    /// CHR$.
    #[error("line {0}: bad number")]
    BadNumber(usize),
    /// In OPEN no comma after the file, or no device of 4 to 30 after it.
    #[error("line {0}: bad device")]
    BadDevice(usize),
    /// No secondary address of at most 15 after OPEN's second comma.
    #[error("line {0}: bad secondary address")]
    BadSecond(usize),
    /// A byte outside 32 to 126 in a string, or a CHR$ of more than 255.
    #[error("line {0}: bad byte")]
    BadByte(usize),
    /// The 256th byte of one list.
    #[error("line {0}: too long")]
    TooLong(usize),
    /// The keyword of the statement past the limit of 1,000,000.
    #[error("line {0}: too many statements")]
    TooMany(usize),
    /// Memory was refused.
    #[error("out of memory")]
    NoMemory,
}

/// The first fault of a script, and where it is.
#[derive(Clone, Copy, Debug, PartialEq, Eq, Error)]
#[error("{fault}")]
pub struct FaultAt {
    /// The fault, with the number of its line.
    pub fault: ScriptFault,
    /// How many bytes of the text come before it; where memory was refused, before where the reading had
    /// come.
    pub place: usize,
}

/// The first fault of a line, without the line's number, which the line's reader does not know:
/// [`LineFault::at`] adds it. The names are written twice, since callers match [`ScriptFault`]'s
/// variants with their numbers.
#[derive(Clone, Copy, Debug, PartialEq, Eq)]
pub enum LineFault {
    UnknownWord,
    BadNumber,
    BadDevice,
    BadSecond,
    BadByte,
    TooLong,
    TooMany,
    NoMemory,
}

/// The first fault of a line, and where it is.
#[derive(Clone, Copy, Debug)]
pub struct Flaw<'a> {
    pub fault: LineFault,
    /// The bytes of the line that were left to read there, with the spaces before the place.
    pub rest: &'a [u8],
    /// How many bytes of the next lexeme come before the place, inside a string.
    pub inside: usize,
}

impl LineFault {
    /// The fault of a script, of which this is the first line with a fault.
    pub fn at(self, line: usize) -> ScriptFault
        ensures { result ≡ at_number self line }
    {
        match self {
            LineFault::UnknownWord => ScriptFault::UnknownWord(line),
            LineFault::BadNumber => ScriptFault::BadNumber(line),
            LineFault::BadDevice => ScriptFault::BadDevice(line),
            LineFault::BadSecond => ScriptFault::BadSecond(line),
            LineFault::BadByte => ScriptFault::BadByte(line),
            LineFault::TooLong => ScriptFault::TooLong(line),
            LineFault::TooMany => ScriptFault::TooMany(line),
            LineFault::NoMemory => ScriptFault::NoMemory,
        }
    }

    /// The fault after this many bytes of the first lexeme of these bytes, which were left to read.
    pub fn inside(self, rest: &[u8], inside: usize) -> Flaw<'_>
        ensures { (result.fault ≡ self) × (result.rest.now ≡ rest.now) × (result.inside ≡ inside) }
    {
        Flaw {
            fault: self,
            rest,
            inside,
        }
    }

    /// The fault at the first of these bytes that is no space, which were left to read.
    pub fn before(self, rest: &[u8]) -> Flaw<'_>
        ensures { (result.fault ≡ self) × (result.rest.now ≡ rest.now) × (result.inside ≡ 0) }
    {
        self.inside(rest, 0)
    }
}
