//! What is known of the wires among the changes of a dump.

ghost use Rattle.std.specs.Prelude.{◌≡◌, if◌then◌else◌, None};
ghost use Rattle.std.specs.List.{list_all};
ghost use Rattle.pr_base.specs.Digits.{is_digit};
ghost use Rattle.pr_capture.specs.VcdReading.{all_known, is_blank, is_number, level_behind, sample_in, time_at, whole_micros, without_level};

use crate::fault::{CaptureFault, Wire};
use crate::numbers::number_from;
use crate::signals::level_in;
use pr_base::is_digit;
use pr_wire::{Edge, Levels};

/// A microsecond, in femtoseconds.
const MICROSECOND: u128 = 1_000_000_000;

/// What is known at a place among the changes: the time in microseconds, and the levels.
#[derive(Clone, Copy)]
pub struct Seen {
    pub time: u64,
    pub atn: Option<bool>,
    pub clock: Option<bool>,
    pub line: Option<bool>,
}

/// Whether all of these are decimal digits.
fn are_digits(bytes: &[u8]) -> bool
    ensures { result ≡ list_all is_digit bytes.now }
{
    for b in bytes {
        if !is_digit(*b) {
            return false;
        }
    }
    true
}

/// A number of units, in whole microseconds; a unit has `scale` femtoseconds.
fn whole_micros(scale: u64, number: Option<u64>) -> Option<u64>
    ensures { result ≡ whole_micros scale number }
{
    let number = number?;
    u64::try_from(u128::from(number) * u128::from(scale) / MICROSECOND).ok()
}

/// Whether these are digits, at least one.
pub fn is_number(letters: &[u8]) -> bool
    ensures { result ≡ is_number letters.now }
{
    !letters.is_empty() && are_digits(letters)
}

/// The microseconds that the digits of a time stamp spell.
pub fn time_at(scale: u64, digits: &[u8]) -> Option<u64>
    ensures { result ≡ time_at scale digits.now }
{
    if !is_number(digits) {
        return None;
    }
    whole_micros(scale, number_from(0, digits))
}

/// A wire's level on a line: x and z leave it not known, as long as the three levels have not all been
/// known at once.
pub fn level_behind(
    known: bool,
    line: usize,
    is_inverted: bool,
    level: u8,
) -> Result<Option<bool>, CaptureFault>
    ensures { result ≡ level_behind known line is_inverted level }
{
    if (level == b'x' || level == b'X' || level == b'z' || level == b'Z') && !known {
        return Ok(None);
    }
    let level = level_in(line, is_inverted, level)?;
    Ok(Some(level))
}

impl Seen {
    /// Whether all three levels are known.
    pub fn all_known(self) -> bool
        ensures { result ≡ all_known self.atn self.clock self.line }
    {
        self.atn.is_some() && self.clock.is_some() && self.line.is_some()
    }

    /// The first wire without a level, if a dump ends here that is not blank: in which a level was said,
    /// or a moment after 0.
    pub fn missing(self) -> Option<Wire>
        ensures { result ≡ if is_blank self.time self.atn self.clock self.line then None else without_level self.atn self.clock self.line }
    {
        if self.time == 0 && self.atn.is_none() && self.clock.is_none() && self.line.is_none() {
            return None;
        }
        if self.atn.is_none() {
            return Some(Wire::Atn);
        }
        if self.clock.is_none() {
            return Some(Wire::Clock);
        }
        if self.line.is_none() {
            return Some(Wire::Data);
        }
        None
    }

    /// A sample, once all three levels are known.
    pub fn sample(self) -> Option<Edge>
        ensures { result ≡ sample_in self.time self.atn self.clock self.line }
    {
        let atn = self.atn?;
        let clock = self.clock?;
        let line = self.line?;
        let levels = Levels { atn, clock, line };
        Some(Edge {
            time: self.time,
            levels,
        })
    }
}
