//! What a byte makes a printer do.

ghost use Rattle.std.specs.Prelude.{◌≡◌, Bool};
ghost use Rattle.pr_page.specs.Token.{Plain};
ghost use Rattle.pr_page.specs.Acts.{acts_in, is_cell, moves_to_column, moves_to_dot};
ghost use Rattle.pr_page.specs.Steps.{acts_of_tokens, acts_of_work, tokens_by, FitsLine};

use crate::codes::ends_line;
use crate::paper::Mark;
use crate::pending::{Pending, begins_command};
use crate::settings::Settings;

/// The dot columns of a line (VIC-1525 User's Manual: 480 dots a line, 80 characters of 6).
pub const LINE_DOTS: u16 = 480;

/// The character columns of a line.
const LINE_COLUMNS: u16 = 80;

/// The width of a cell, in dots.
const CELL_DOTS: u16 = 6;

/// What a byte does where the next mark goes.
#[derive(Clone, Copy)]
pub enum Work {
    Nothing,
    /// The line ends.
    EndLine,
    /// A mark is made, this many dots wide.
    Print(Mark, u16),
    /// Equal columns of dots are made, this many.
    PrintColumns(u8, u8),
    /// The next mark goes to this dot column.
    MoveTo(u16),
}

/// Whether a code marks a cell in character mode.
fn marks_a_cell(b: u8) -> bool
    ensures { result ≡ is_cell b }
{
    matches!(b, 32..=127 | 160..=255)
}

impl Work {
    /// What a byte by itself does under these settings and with this set selected.
    #[inline(always)]
    pub fn of_plain(settings: Settings, lower: bool, b: u8) -> Work
        ensures acts { acts_of_work settings.graphic result ≡ acts_in settings (Plain lower b) }
        ensures fits { FitsLine result }
    {
        if ends_line(b) {
            Work::EndLine
        } else if settings.graphic {
            if b >= 128 {
                Work::Print(Mark::Dots(b - 128), 1)
            } else {
                Work::Nothing
            }
        } else if marks_a_cell(b) {
            let cell = Mark::Cell {
                code: b,
                lower: settings.override_set.unwrap_or(lower),
                reverse: settings.reverse,
                wide: settings.wide,
            };
            let width = if settings.wide {
                2 * CELL_DOTS
            } else {
                CELL_DOTS
            };
            Work::Print(cell, width)
        } else {
            Work::Nothing
        }
    }

    /// What two bytes after a column code do.
    fn of_column(tens: u8, ones: u8) -> Work
        ensures acts { (graphic : Bool) → acts_of_work graphic result ≡ moves_to_column tens ones }
        ensures fits { FitsLine result }
    {
        if tens.is_ascii_digit() && ones.is_ascii_digit() {
            let column = 10 * u16::from(tens - b'0') + u16::from(ones - b'0');
            if column < LINE_COLUMNS {
                return Work::MoveTo(CELL_DOTS * column);
            }
        }
        Work::Nothing
    }

    /// What two bytes of a dot address do.
    fn of_address(high: u8, low: u8) -> Work
        ensures acts { (graphic : Bool) → acts_of_work graphic result ≡ moves_to_dot high low }
        ensures fits { FitsLine result }
    {
        let dot = u16::from_be_bytes([high, low]);
        if dot < LINE_DOTS {
            Work::MoveTo(dot)
        } else {
            Work::Nothing
        }
    }

    /// What a byte does after the bytes of a command that are pending: what the tokens do that it completes.
    #[inline(always)]
    pub fn of_byte(pending: Pending, settings: Settings, lower: bool, b: u8) -> Work
        ensures acts { acts_of_work settings.graphic result ≡ acts_of_tokens settings (tokens_by pending lower b) }
        ensures fits { FitsLine result }
    {
        match pending {
            Pending::Idle | Pending::EscapeCode if !begins_command(b) => Work::of_plain(
                settings, lower, b,
            ),
            Pending::RepeatCount(n) if settings.graphic && b >= 128 => Work::PrintColumns(
                b - 128,
                n,
            ),
            Pending::ColumnTens(tens) => Work::of_column(tens, b),
            Pending::AddressHigh(high) => Work::of_address(high, b),
            Pending::Idle
            | Pending::EscapeCode
            | Pending::ColumnCode
            | Pending::RepeatCode
            | Pending::RepeatCount(_)
            | Pending::AddressCode => Work::Nothing,
        }
    }
}
