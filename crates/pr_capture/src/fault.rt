//! Why a recording can not be read.

ghost use Rattle.std.specs.Prelude.{◌≡◌};

use pr_wire::NoMemory;
use std::alloc::AllocFailed;
use thiserror::Error;

/// A line of the bus, by its name.
#[derive(Clone, Copy, Debug, Drop, Error, PartialEq, Eq)]
pub enum Wire {
    #[error("ATN")]
    Atn,
    #[error("CLOCK")]
    Clock,
    #[error("DATA")]
    Data,
}

/// Why a recording can not be read. The number is that of the line of the text, from 1.
#[derive(Clone, Copy, Debug, Drop, Error, PartialEq, Eq)]
pub enum CaptureFault {
    /// No signal has the wire's name, or only one that another wire has.
    #[error("line {0}: no signal {1}")]
    NoSignal(usize, Wire),
    /// Neither the first column of a table nor the last one is of times in a known unit: the first has other counts by its
    /// name, no rate of samples is known, or a later column has times or counts by its name; or, in a row at a rate, it has a cell that is
    /// no level, and its name does not say of what, or a later column has a number that is no level.
    #[error("line {0}: no time")]
    NoTime(usize),
    /// A word that can not be here.
    #[error("line {0}: bad word")]
    BadWord(usize),
    /// A section that the text does not end.
    #[error("line {0}: no $end")]
    NoEnd(usize),
    /// The header does not end with `$enddefinitions`.
    #[error("line {0}: no $enddefinitions")]
    NoDefinitions(usize),
    /// Another signal has the wire's name, and they are not the same: on this line.
    #[error("line {0}: another signal {1}")]
    TwoSignals(usize, Wire),
    /// No `$timescale`.
    #[error("line {0}: no timescale")]
    NoTimescale(usize),
    /// A `$timescale` that is not 1, 10 or 100 units from fs to s.
    #[error("line {0}: bad timescale")]
    BadTimescale(usize),
    /// A time that is no number of its unit, or not below 2^64 microseconds or 2^64 of a dump's own unit.
    #[error("line {0}: bad time")]
    BadTime(usize),
    /// A time before an earlier one; times are compared in whole microseconds.
    #[error("line {0}: time goes back")]
    GoesBack(usize),
    /// The row has no level of the wire, or the dump that ends on the line has given none that is still known.
    #[error("line {0}: no level of {1}")]
    NoLevel(usize, Wire),
    /// The wire's level is not known.
    #[error("line {0}: level x")]
    Unknown(usize),
    /// Nobody drives the wire.
    #[error("line {0}: level z")]
    Floating(usize),
    /// A level that is not one of 0, 1, L, H, x and z.
    #[error("line {0}: bad level")]
    BadLevel(usize),
    /// The text has 16 bits a letter, as that of UTF-16.
    #[error("UTF-16 text")]
    WideText,
    /// A zip archive, as .sr, .sal and .dsl files are.
    #[error("zip archive")]
    Archive,
    /// Memory was refused.
    #[error("out of memory")]
    NoMemory,
}

impl<T: Drop> From<AllocFailed<T>> for CaptureFault {
    ghost use Rattle.pr_capture.specs.declared.fault.CaptureFault.TheVariants.{NoMemory};

    ghost from_gives = { λ _ e. e ≡ NoMemory };

    fn from(_e: AllocFailed<T>) -> CaptureFault {
        CaptureFault::NoMemory
    }
}

impl From<NoMemory> for CaptureFault {
    ghost use Rattle.pr_capture.specs.declared.fault.CaptureFault.TheVariants.{NoMemory};

    ghost from_gives = { λ _ e. e ≡ NoMemory };

    fn from(_e: NoMemory) -> CaptureFault {
        CaptureFault::NoMemory
    }
}
