//! How a channel call stops or fails.

ghost use Rattle.std.specs.Prelude.{◌≡◌};
ghost use Rattle.pr_channels.specs.Stops.{stop_number};

use thiserror::Error;

/// An error of BASIC that ends a run (Programmer's Reference Guide, KERNAL error codes).
#[derive(Clone, Copy, Debug, PartialEq, Eq, Error)]
pub enum Stop {
    /// Ten files are open: error 1.
    #[error("too many files")]
    TooManyFiles,
    /// The file is open already: error 2.
    #[error("file open")]
    FileOpen,
    /// The file is not open: error 3.
    #[error("file not open")]
    FileNotOpen,
    /// No answer came: error 5.
    #[error("device not present")]
    DeviceNotPresent,
    /// File 0 cannot be opened: error 6.
    #[error("not input file")]
    NotInputFile,
}

impl Stop {
    /// Returns the number of the error: 1, 2, 3, 5 or 6.
    pub fn number(self) -> u8
        ensures { result ≡ stop_number self }
    {
        match self {
            Stop::TooManyFiles => 1,
            Stop::FileOpen => 2,
            Stop::FileNotOpen => 3,
            Stop::DeviceNotPresent => 5,
            Stop::NotInputFile => 6,
        }
    }
}

/// Why a channel call that may stop has failed.
#[derive(Clone, Copy, Debug, PartialEq, Eq, Error)]
pub enum Fault {
    /// An error of BASIC.
    #[error(transparent)]
    Stop(Stop),
    /// Memory was refused, in this call or in an earlier one.
    #[error("out of memory")]
    NoMemory,
}
