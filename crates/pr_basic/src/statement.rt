//! Statements and what they are made of.

ghost use Rattle.std.specs.Prelude.{◌≡◌, ℕ, ◌≤◌, ◌<◌, ◌⊎◌, IfSome, IfNone, IfOk};
ghost use Rattle.std.specs.Option.{ForSome};

use std::alloc::{AllocError, Global};
use std::marker::Model;

/// What a printing statement prints: at most 255 bytes, and whether the line ends after them.
///
/// Contracts see a line as its list of bytes and `ends`, not as a place in memory. The bound of 255
/// bytes is the model's invariant, so whoever makes a line from its fields proves it.
#[derive(Debug, Drop)]
pub struct Line {
    /// The bytes of the list, in the order in which they are sent, at most 255.
    pub bytes: Vec<u8>,
    /// Whether a carriage return follows them: false exactly if the list's last token is `;`
    /// (Programmer's Reference Guide, PRINT and PRINT#).
    pub ends: bool,
}

impl Model for Line {
    ghost use Rattle.std.specs.Prelude.{◌≤◌, vec_len};
    ghost use Rattle.pr_basic.specs.Limits.{byte_limit};
    ghost use Rattle.pr_basic.specs.Text.{Text};

    ghost Value = { Text };

    ghost view = { λ l. record { bytes = l.bytes.items; ends = l.ends } };

    ghost invariant = { λ l. vec_len l.bytes ≤ byte_limit };
}

impl Line {
    /// Makes the same line once more. It is no `Clone`, whose contract could compare the result
    /// only with the `Vec` itself.
    ///
    /// # Errors
    ///
    /// `AllocError` where memory was refused.
    pub fn copy(&self, alloc: Global) -> Result<Line, AllocError>
        ensures { IfOk result (λ line. line ≡ self.now) }
    {
        let bytes = Vec::from_slice(alloc, &self.bytes)?;
        Ok(Line {
            bytes,
            ends: self.ends,
        })
    }
}

/// A device number on the serial bus, 4 to 30.
#[derive(Clone, Copy, Debug, PartialEq, Eq)]
pub struct Device {
    number: u8,
}

impl Model for Device {
    ghost use Rattle.std.specs.Prelude.{ℕ, ◌≤◌};

    ghost Value = { ℕ };

    ghost view = { λ d. d.number };

    ghost invariant = { λ d. (4 ≤ d.number) × (d.number ≤ 30) };

    ghost inverse = { λ n. record { number = n } };
}

impl Device {
    /// Makes the device with this number; None exactly outside 4 to 30 (profile: devices 0 to 3 are
    /// no devices of the bus). The reader judges the device of an OPEN by bounds of its own first,
    /// so that the fault is a bad device.
    pub fn new(number: u8) -> Option<Self>
        ensures some { IfSome result (λ device. (device ≡ number) × (4 ≤ number) × (number ≤ 30)) }
        ensures none { IfNone result ((number < 4) ⊎ (30 < number)) }
    {
        if number < 4 || number > 30 {
            return None;
        }
        Some(Device { number })
    }

    /// Returns the device's number, 4 to 30.
    pub fn get(self) -> u8
        ensures number { result ≡ self }
        ensures low { 4 ≤ result }
        ensures high { result ≤ 30 }
    {
        self.number
    }
}

/// A secondary address, 0 to 15.
#[derive(Clone, Copy, Debug, PartialEq, Eq)]
pub struct Second {
    number: u8,
}

impl Model for Second {
    ghost use Rattle.std.specs.Prelude.{ℕ, ◌≤◌};

    ghost Value = { ℕ };

    ghost view = { λ s. s.number };

    ghost invariant = { λ s. s.number ≤ 15 };

    ghost inverse = { λ n. record { number = n } };
}

impl Second {
    /// Makes the secondary address with this number; None exactly above 15 (profile).
    pub fn new(number: u8) -> Option<Self>
        ensures some { IfSome result (λ second. (second ≡ number) × (number ≤ 15)) }
        ensures none { IfNone result (15 < number) }
    {
        if number > 15 {
            return None;
        }
        Some(Second { number })
    }

    /// Returns the secondary address's number, 0 to 15.
    pub fn get(self) -> u8
        ensures number { result ≡ self }
        ensures high { result ≤ 15 }
    {
        self.number
    }
}

/// Returns the number of a secondary address, 0 to 15, where there is one.
pub fn number_of_second(second: Option<Second>) -> Option<u8>
    ensures same { result ≡ second }
    ensures in_range { ForSome result (λ s. s ≤ 15) }
{
    match second {
        Some(second) => Some(second.get()),
        None => None,
    }
}

/// A statement of a script. File numbers are 0 to 255.
#[derive(Debug, Drop)]
pub enum Statement {
    /// `OPEN file, device` and perhaps `, second`.
    OpenFile {
        file: u8,
        device: Device,
        second: Option<Second>,
    },
    /// `CMD file` and perhaps a list.
    Cmd {
        file: u8,
        line: Line,
    },
    /// `PRINT# file` and perhaps a list.
    PrintTo {
        file: u8,
        line: Line,
    },
    /// `PRINT` and a list.
    Print {
        line: Line,
    },
    /// `CLOSE file`.
    CloseFile {
        file: u8,
    },
    /// A remark.
    Rem,
}

impl Statement {
    /// Makes the same statement once more.
    ///
    /// # Errors
    ///
    /// `AllocError` where memory was refused.
    pub fn copy(&self, alloc: Global) -> Result<Statement, AllocError>
        ensures { IfOk result (λ statement. statement ≡ self.now) }
    {
        match self {
            Statement::OpenFile {
                file,
                device,
                second,
            } => Ok(Statement::OpenFile {
                file: *file,
                device: *device,
                second: *second,
            }),
            Statement::Cmd { file, line } => {
                let line = line.copy(alloc)?;
                Ok(Statement::Cmd { file: *file, line })
            }
            Statement::PrintTo { file, line } => {
                let line = line.copy(alloc)?;
                Ok(Statement::PrintTo { file: *file, line })
            }
            Statement::Print { line } => {
                let line = line.copy(alloc)?;
                Ok(Statement::Print { line })
            }
            Statement::CloseFile { file } => Ok(Statement::CloseFile { file: *file }),
            Statement::Rem => Ok(Statement::Rem),
        }
    }
}
