//! The bytes of a command that has not all come.

ghost use Rattle.std.specs.Prelude.{◌≡◌};
ghost use Rattle.std.specs.Prelude.{◌==◌, ◌||◌};
ghost use Rattle.pr_page.specs.Steps.{pending_after, begun_by};

use crate::codes::{COLUMN, ESCAPE, REPEAT};

/// What has come of a command with parameters.
#[derive(Clone, Copy, Debug, PartialEq, Eq)]
pub enum Pending {
    /// No command is begun.
    Idle,
    ColumnCode,
    /// A column code and its first digit.
    ColumnTens(u8),
    RepeatCode,
    /// A repeat code and its count.
    RepeatCount(u8),
    EscapeCode,
    /// An escape and a column code.
    AddressCode,
    /// The same and the dot address's high byte.
    AddressHigh(u8),
}

/// Whether a byte that no command takes begins one.
#[inline(always)]
pub fn begins_command(b: u8) -> bool
    ensures { result ≡ (b == 16 || (b == 26 || b == 27)) }
{
    b == COLUMN || b == REPEAT || b == ESCAPE
}

impl Pending {
    /// What is pending after a byte that no command took.
    fn begun_with(b: u8) -> Pending
        ensures { result ≡ begun_by b }
    {
        match b {
            COLUMN => Pending::ColumnCode,
            REPEAT => Pending::RepeatCode,
            ESCAPE => Pending::EscapeCode,
            _ => Pending::Idle,
        }
    }

    /// What is pending after one more byte.
    pub fn after(self, b: u8) -> Pending
        ensures { result ≡ pending_after self b }
    {
        match self {
            Pending::Idle => Pending::begun_with(b),
            Pending::ColumnCode => Pending::ColumnTens(b),
            Pending::RepeatCode => Pending::RepeatCount(b),
            Pending::EscapeCode if b == COLUMN => Pending::AddressCode,
            Pending::EscapeCode => Pending::begun_with(b),
            Pending::AddressCode => Pending::AddressHigh(b),
            Pending::ColumnTens(_) | Pending::RepeatCount(_) | Pending::AddressHigh(_) =>
                Pending::Idle,
        }
    }
}
