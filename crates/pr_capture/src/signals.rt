//! Which signals of a recording are the lines of the bus.

ghost use Rattle.std.specs.Prelude.{◌≡◌, option_copied};
ghost use Rattle.std.specs.List.{list_all};
ghost use Rattle.pr_capture.specs.Recording.{alike, behind_letter, behind_sign, inverts, inverts_any, is_framing, is_named, level_in, second_name, shared, without_front};
ghost use Rattle.pr_capture.specs.Words.{is_space};

use crate::fault::{CaptureFault, Wire};
use crate::volts::Threshold;

/// What probes show: which of them invert, so that 0 is released, and levels or volts.
#[derive(Clone, Copy)]
pub struct Probes {
    /// Whether ATN's does.
    pub atn: bool,
    /// Whether CLOCK's does.
    pub clock: bool,
    /// Whether DATA's does.
    pub line: bool,
    /// By which volts in a table's cells a line is 1 or 0; None where cells are levels.
    pub threshold: Option<Threshold>,
}

impl Probes {
    /// Returns probes that all invert, or none of which does, and that show levels.
    pub const fn alike(inverted: bool) -> Probes
        ensures { result ≡ alike inverted }
    {
        Probes {
            atn: inverted,
            clock: inverted,
            line: inverted,
            threshold: None,
        }
    }

    /// Returns whether any of them inverts.
    pub fn inverts_any(self) -> bool
        ensures { result ≡ inverts_any self }
    {
        self.atn || self.clock || self.line
    }

    /// Whether that of a wire does.
    pub(crate) fn inverts(self, wire: Wire) -> bool
        ensures { result ≡ inverts self wire }
    {
        match wire {
            Wire::Atn => self.atn,
            Wire::Clock => self.clock,
            Wire::Data => self.line,
        }
    }
}

/// Which signals of a recording are the lines of the bus, and how their levels are meant.
#[derive(Clone, Copy)]
pub struct Signals<'a> {
    /// ATN's name, as bytes. Its letters may be capitals or not, and white space in it does not count.
    pub atn: &'a [u8],
    /// CLOCK's name, likewise. Where it is CLOCK and no signal is called so, one called CLK is CLOCK.
    pub clock: &'a [u8],
    /// DATA's name, likewise.
    pub line: &'a [u8],
    /// What the probes show.
    pub probes: Probes,
}

/// Whether a byte is white space.
pub fn is_space(b: u8) -> bool
    ensures { result ≡ is_space b }
{
    b == b' ' || (b >= 9 && b <= 13)
}

/// White space or a quotation mark.
pub fn is_framing(b: u8) -> bool
    ensures { result ≡ is_framing b }
{
    b == b' ' || b == b'"' || (b >= 9 && b <= 13)
}

/// Whether only white space and quotation marks are here.
pub fn are_framing(bytes: &[u8]) -> bool
    ensures { result ≡ list_all is_framing bytes.now }
{
    for b in bytes {
        if !is_framing(*b) {
            return false;
        }
    }
    true
}

/// What follows the white space and quotation marks in front.
pub fn without_front(bytes: &[u8]) -> &[u8]
    ensures { result.now ≡ without_front bytes.now }
{
    for (i, b) in bytes.iter().enumerate() {
        if !is_framing(*b) {
            return &bytes[i..];
        }
    }
    &[]
}

/// What follows a letter, if it is here, a capital or not.
pub fn behind_letter(letter: u8, bytes: &[u8]) -> Option<&[u8]>
    ensures { option_copied result ≡ behind_letter letter bytes.now }
{
    match bytes {
        [] => None,
        [b, rest @ ..] => {
            if letter.eq_ignore_ascii_case(b) {
                Some(rest)
            } else {
                None
            }
        }
    }
}

/// What follows a letter of a name, in which white space and quotation marks do not count.
fn behind_sign(letter: u8, bytes: &[u8]) -> Option<&[u8]>
    ensures { option_copied result ≡ behind_sign letter bytes.now }
{
    if is_framing(letter) {
        return Some(bytes);
    }
    behind_letter(letter, without_front(bytes))
}

/// Whether a field is a signal's name: its letters, in either case. White space and quotation marks do
/// not count.
pub fn is_named(name: &[u8], field: &[u8]) -> bool
    ensures { result ≡ is_named name.now field.now }
{
    let mut left = field;
    for letter in name {
        let Some(rest) = behind_sign(*letter, left) else {
            return false;
        };
        left = rest;
    }
    are_framing(left)
}

impl Signals<'_> {
    /// Returns the name that counts for CLOCK where no signal has CLOCK's own (`clk` where that is
    /// `clock`, and else the same name).
    pub fn second_name(&self) -> &[u8]
        ensures { result.now ≡ second_name self.now }
    {
        if is_named(b"clock", self.clock) {
            b"clk"
        } else {
            self.clock
        }
    }
}

/// The fault of a wire that has no signal of its own, on a line: where CLOCK has that of ATN, or DATA that of another.
pub fn shared(number: usize, has_clock: bool, has_data: bool) -> Option<CaptureFault>
    ensures { result ≡ shared number has_clock has_data }
{
    if has_clock {
        Some(CaptureFault::NoSignal(number, Wire::Clock))
    } else if has_data {
        Some(CaptureFault::NoSignal(number, Wire::Data))
    } else {
        None
    }
}

/// A level: 1 and H are released, 0 and L pulled, unless the levels are inverted. The number is that of
/// the line.
pub fn level_in(number: usize, is_inverted: bool, b: u8) -> Result<bool, CaptureFault>
    ensures { result ≡ level_in number is_inverted b }
{
    match b {
        b'0' | b'L' | b'l' => Ok(is_inverted),
        b'1' | b'H' | b'h' => Ok(!is_inverted),
        b'x' | b'X' => Err(CaptureFault::Unknown(number)),
        b'z' | b'Z' => Err(CaptureFault::Floating(number)),
        _ => Err(CaptureFault::BadLevel(number)),
    }
}
