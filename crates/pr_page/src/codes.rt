//! The control codes of the VIC-1525 (VIC-1525 User's Manual, "Control codes").

ghost use Rattle.std.specs.Prelude.{◌≡◌};
ghost use Rattle.pr_page.specs.Codes.{code_of};

/// Graphic mode: each byte of 128 or more marks one dot column.
pub const GRAPHIC_MODE: u8 = 8;

/// The line ends.
pub const LINE_FEED: u8 = 10;

/// The line ends, and with it the override and reverse.
pub const CARRIAGE_RETURN: u8 = 13;

/// Character mode, cells of double width.
pub const DOUBLE_WIDTH: u8 = 14;

/// Character mode, cells of standard width.
pub const STANDARD_WIDTH: u8 = 15;

/// Character column: two digits follow. After [`ESCAPE`], a dot address: two bytes follow.
pub const COLUMN: u8 = 16;

/// Override: the lower/upper case set.
pub const LOWER_CASE: u8 = 17;

/// Reverse printing on.
pub const REVERSE_ON: u8 = 18;

/// Repeat: a count and a dot column follow.
pub const REPEAT: u8 = 26;

/// Before [`COLUMN`] the beginning of a dot address, before any other byte nothing.
pub const ESCAPE: u8 = 27;

/// Override, in character mode: the graphic/upper case set.
pub const UPPER_CASE: u8 = 145;

/// Reverse printing off, in character mode.
pub const REVERSE_OFF: u8 = 146;

/// Whether a code ends the line.
#[inline(always)]
#[tactic(auto, unfolding(crate::specs::Codes::code_of))]
pub fn ends_line(b: u8) -> bool
    ensures { result ≡ (code_of b).ends_line }
{
    b == LINE_FEED || b == CARRIAGE_RETURN
}

/// Returns the name of a control code (VIC-1525 User's Manual); other bytes have none.
#[tactic(auto, unfolding(crate::specs::Codes::code_of))]
pub fn code_name(b: u8) -> &'static [u8]
    ensures { result.now ≡ (code_of b).name }
{
    match b {
        GRAPHIC_MODE => b"graphic mode",
        LINE_FEED => b"line feed",
        CARRIAGE_RETURN => b"return",
        DOUBLE_WIDTH => b"double width",
        STANDARD_WIDTH => b"standard width",
        COLUMN => b"column",
        LOWER_CASE => b"lower case",
        REVERSE_ON => b"reverse on",
        REPEAT => b"repeat",
        ESCAPE => b"escape",
        UPPER_CASE => b"upper case",
        REVERSE_OFF => b"reverse off",
        _ => b"",
    }
}
