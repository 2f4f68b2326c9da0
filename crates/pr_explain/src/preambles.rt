//! What an oscilloscope writes before the rows of a table: lines before the names of the columns, and one of units
//! behind them.

use crate::names::{begins_with, first_field, is_level, separator_of, split_field};
use crate::tables::{begins_number, is_in_front};
use crate::texts::{line_with, unframed};
use pr_basic::cut_line;
use pr_wire::NoMemory;

/// The units of an oscilloscope's columns, and its word for numbers of samples.
const UNITS: [&[u8]; 12] = [
    b"s",
    b"sec",
    b"second",
    b"seconds",
    b"ms",
    b"us",
    b"ns",
    b"sequence",
    b"v",
    b"mv",
    b"volt",
    b"volts",
];

/// The lines before the first row of a table, by their numbers from 1.
#[derive(Clone, Copy)]
pub struct Heading {
    /// That of the names, as it seems: the last one that has no units.
    names: usize,
    /// That of units behind it, if there is one.
    units: Option<usize>,
}

/// The lines before the first row of a table; None where there is no row, or no line before it that may have names: the
/// cell behind the first is then no number, or units follow.
pub fn heading_of(bytes: &[u8]) -> Option<Heading> {
    let mut rest = bytes;
    let mut number: usize = 0;
    let mut names = 0;
    let mut has_names = false;
    let mut units = None;
    while !rest.is_empty() {
        let (line, more) = cut_line(rest);
        rest = more;
        number = number.wrapping_add(1);
        if is_in_front(line) {
            continue;
        }
        if is_row(line) {
            return if has_names || units.is_some() {
                Some(Heading { names, units })
            } else {
                None
            };
        }
        if names > 0 && has_units(line) {
            units = Some(number);
        } else {
            names = number;
            has_names = !begins_number(second_cell(line));
            units = None;
        }
    }
    None
}

/// Whether a line is one of a table's rows: it begins with a number, or with two levels.
fn is_row(line: &[u8]) -> bool {
    let Some(separator) = separator_of(line) else {
        return false;
    };
    let first = first_field(separator, line);
    let second = second_cell(line);
    begins_number(first) || (is_level(first) && (is_level(second) || begins_number(second)))
}

/// The second cell of a line; empty where there is none.
fn second_cell(line: &[u8]) -> &[u8] {
    let separator = separator_of(line).unwrap_or(b',');
    let (_, rest) = split_field(separator, line);
    first_field(separator, rest)
}

/// Whether a line has two units or more, and else numbers alone.
fn has_units(line: &[u8]) -> bool {
    let Some(separator) = separator_of(line) else {
        return false;
    };
    let mut count: usize = 0;
    let mut rest = line;
    while !rest.is_empty() {
        let (field, more) = split_field(separator, rest);
        rest = more;
        let cell = unframed(field);
        if is_unit(cell) {
            count = count.wrapping_add(1);
        } else if !cell.is_empty() && !begins_number(cell) {
            return false;
        }
    }
    count > 1
}

/// A unit without the brackets around it.
fn without_brackets(cell: &[u8]) -> &[u8] {
    match cell {
        [b'(', inner @ .., b')'] => inner,
        [b'[', inner @ .., b']'] => inner,
        whole => whole,
    }
}

/// The sign of a unit of times.
fn sign_of(cell: &[u8]) -> Option<&'static str> {
    let name = without_brackets(cell);
    if name.eq_ignore_ascii_case(b"ms") {
        Some("ms")
    } else if name.eq_ignore_ascii_case(b"us") {
        Some("us")
    } else if name.eq_ignore_ascii_case(b"ns") {
        Some("ns")
    } else if name.eq_ignore_ascii_case(b"s") || begins_with(name, b"sec") {
        Some("s")
    } else {
        None
    }
}

/// Whether a cell is a unit, with brackets around it or without.
fn is_unit(cell: &[u8]) -> bool {
    let name = without_brackets(cell);
    for unit in UNITS {
        if name.eq_ignore_ascii_case(unit) {
            return true;
        }
    }
    false
}

impl Heading {
    /// Whether a line comes before that of the names.
    pub fn begins_later(self, number: usize) -> bool {
        number < self.names
    }

    /// Whether a line is that of units.
    pub fn has_units_at(self, number: usize) -> bool {
        self.units == Some(number)
    }

    /// Adds which line has the names, and what to delete.
    pub fn push_names(self, text: &mut String) -> Result<(), NoMemory> {
        let names = self.names;
        write!(
            text,
            "  the names of the columns seem to be in line {names}: delete the lines before it\n"
        )
    }

    /// The sign of the unit of times with which the line of units begins, if it does.
    pub fn unit_in(self, bytes: &[u8]) -> Option<&'static str> {
        let line = line_with(bytes, self.units?);
        let cell = first_field(separator_of(line)?, line);
        sign_of(cell)
    }

    /// Whether the line of units says that the first column has the numbers of samples.
    pub fn counts_samples(self, bytes: &[u8]) -> bool {
        let Some(units) = self.units else {
            return false;
        };
        let line = line_with(bytes, units);
        begins_with(
            first_field(separator_of(line).unwrap_or(b','), line),
            b"sequence",
        )
    }

    /// Adds what to do with numbers of samples, if the line of units is not before that of this number.
    pub fn push_samples(self, text: &mut String, number: usize) -> Result<(), NoMemory> {
        match self.units {
            Some(units) if number <= units => write!(
                text,
                "  the first column has the numbers of samples: call it Sample, delete line {units}, and give --rate, which is \
                 1 by the seconds between two samples, such as --rate 500k for 2.0e-6\n"
            ),
            _ => Ok(()),
        }
    }

    /// Adds which line has units, if one has that is not before that of this number, and the sign of a unit of times.
    pub fn push_units(self, text: &mut String, number: usize, sign: &str) -> Result<(), NoMemory> {
        match self.units {
            Some(units) if number <= units => write!(
                text,
                "  line {units} has units: delete it; the unit of times belongs in their name, such as Time [{sign}]\n"
            ),
            _ => Ok(()),
        }
    }
}
