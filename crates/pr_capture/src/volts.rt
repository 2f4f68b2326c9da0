//! Volts in the cells of a table.

ghost use Rattle.std.specs.Prelude.{◌≡◌};
ghost use Rattle.pr_capture.specs.Volts.{is_at_least, level_by, volts_in};

use crate::times::{behind_plus_minus, is_minus, unsigned_in};

/// A voltage, in whole microvolts above or below 0.
#[derive(Clone, Copy)]
pub struct Volts {
    /// Whether it is below.
    pub is_negative: bool,
    pub micros: u64,
}

/// From which volts on a line is 1, and below which it is 0.
#[derive(Clone, Copy)]
pub struct Threshold {
    /// Below it a line is 0.
    pub low: Volts,
    /// From it on a line is 1. Between the two it stays as it was.
    pub high: Volts,
}

impl Threshold {
    /// The level of a line with these volts, which was on this level before.
    pub(crate) fn level(self, is_inverted: bool, before: bool, volts: Volts) -> bool
        ensures { result ≡ level_by is_inverted before self volts }
    {
        if volts.is_at_least(self.high) {
            !is_inverted
        } else if volts.is_at_least(self.low) {
            before
        } else {
            is_inverted
        }
    }
}

impl Volts {
    /// Whether it is at least another one.
    pub fn is_at_least(self, least: Volts) -> bool
        ensures { result ≡ is_at_least self least }
    {
        match (self.is_negative, least.is_negative) {
            (false, false) => least.micros <= self.micros,
            (false, true) => true,
            (true, false) => self.micros == 0 && least.micros == 0,
            (true, true) => self.micros <= least.micros,
        }
    }
}

/// The volts that a field of a table with this separator spells, rounded down to microvolts.
pub fn volts_in(separator: u8, field: &[u8]) -> Option<Volts>
    ensures { result ≡ volts_in separator field.now }
{
    let number = unsigned_in(separator, 0, is_minus(field), behind_plus_minus(field))?;
    Some(Volts {
        is_negative: number.is_negative,
        micros: number.micros,
    })
}

/// Reads volts as a cell of a table that commas separate has them: a sign, digits, a point and decimals, and an exponent up to
/// 255, of which only digits are needed; rounded down to microvolts (profile). None for any other text, and where there are
/// 2^64 microvolts or more. It takes no memory.
pub fn read_volts(text: &str) -> Option<Volts>
    ensures { result ≡ volts_in 44 text.now }
{
    volts_in(b',', text.as_bytes())
}
