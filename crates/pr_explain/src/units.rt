//! The unit in which a table's times may be whose column names none, or hardly the right one.

use crate::input::read_input;
use crate::oddities::has_byte;
use crate::tables::{begins_number, is_in_front};
use crate::timed::{TimedTable, table_of, time_of, whole_lines};
use pr_basic::cut_line;
use pr_capture::{InputFormat, TraceInput};
use pr_wire::NoMemory;
use std::alloc::Global;

/// A unit of times: its sign, and its word.
#[derive(Clone, Copy, Debug, PartialEq, Eq)]
pub struct TimeUnit {
    pub sign: &'static str,
    pub word: &'static str,
}

const SECOND: TimeUnit = TimeUnit {
    sign: "s",
    word: "seconds",
};

const MILLI: TimeUnit = TimeUnit {
    sign: "ms",
    word: "milliseconds",
};

const MICRO: TimeUnit = TimeUnit {
    sign: "us",
    word: "microseconds",
};

const NANO: TimeUnit = TimeUnit {
    sign: "ns",
    word: "nanoseconds",
};

const PICO: TimeUnit = TimeUnit {
    sign: "ps",
    word: "picoseconds",
};

/// Microseconds such as 2.173 for 2173.
const THOUSANDS: TimeUnit = TimeUnit {
    sign: "ms",
    word: "milliseconds, or microseconds with a point or a comma between thousands",
};

/// The units that are tried where all times are whole numbers, the most likely first.
const WHOLE: [TimeUnit; 3] = [MICRO, NANO, PICO];

/// Those that are tried where some are not.
const DECIMAL: [TimeUnit; 3] = [MILLI, MICRO, NANO];

/// How many bytes of a table show nearly always that a line changes (profile).
const FRONT: usize = 1 << 16;

/// How a table's times are written.
#[derive(Clone, Copy)]
enum Times {
    /// As whole numbers.
    Whole,
    /// Some of them with decimals.
    Decimal,
}

/// Those that are tried where the name has a unit by which no line changes.
const LONGER: [TimeUnit; 3] = [SECOND, MILLI, MICRO];

/// The unit in which a table's times may be: the column of its times is called by a word for time without a unit, all its
/// times are numbers, and no byte is acknowledged but by times in this unit. A unit in that name is doubted where no line
/// changes by it, or no byte is acknowledged; the times may then have a mark before their last three digits. Of the table
/// the first lines are enough.
///
/// # Errors
///
/// [`NoMemory`] where memory was refused.
pub fn unit_meant(
    alloc: Global,
    recording: &[u8],
    input: TraceInput<'_>,
) -> Result<Option<TimeUnit>, NoMemory> {
    if input.source != InputFormat::Csv {
        return Ok(None);
    }
    let lines = whole_lines(recording);
    let Some(table) = table_of(lines) else {
        return Ok(None);
    };
    let Some(times) = times_in(table) else {
        return Ok(None);
    };
    if !table.has_unit {
        if has_byte(alloc, lines, input)? {
            return Ok(None);
        }
        return match times {
            Times::Whole => fitting_of(alloc, table, input, &WHOLE),
            Times::Decimal => fitting_of(alloc, table, input, &DECIMAL),
        };
    }
    if is_still(alloc, lines, input)? {
        return fitting_of(alloc, table, input, &LONGER);
    }
    if has_byte(alloc, lines, input)? {
        return Ok(None);
    }
    if are_thousands(table) {
        return fitting_of(alloc, table, input, &[THOUSANDS]);
    }
    match times {
        Times::Whole => fitting_of(alloc, table, input, &WHOLE),
        Times::Decimal => fitting_of(alloc, table, input, &DECIMAL),
    }
}

/// The first of some units by which a byte is acknowledged.
fn fitting_of(
    alloc: Global,
    table: TimedTable<'_>,
    input: TraceInput<'_>,
    units: &[TimeUnit],
) -> Result<Option<TimeUnit>, NoMemory> {
    for unit in units {
        let tried = in_unit(alloc, table, *unit)?;
        if has_byte(alloc, tried.as_slice(), input)? {
            return Ok(Some(*unit));
        }
    }
    Ok(None)
}

/// Whether no line changes in these lines, which can be read to their end. In most recordings one does soon.
fn is_still(alloc: Global, lines: &[u8], input: TraceInput<'_>) -> Result<bool, NoMemory> {
    let front = whole_lines(&lines[..lines.len().min(FRONT)]);
    if read_input(alloc, front, input)?.edges.len() > 1 {
        return Ok(false);
    }
    let said = read_input(alloc, lines, input)?;
    Ok(said.fault.is_none() && said.edges.len() == 1)
}

/// What the times of a table's rows are; None where one of these is no number.
fn times_in(table: TimedTable<'_>) -> Option<Times> {
    let mut rest = table.rest;
    let mut is_row = false;
    let mut times = Times::Whole;
    while !rest.is_empty() {
        let (line, more) = cut_line(rest);
        if is_row && !is_in_front(line) {
            let cell = time_of(table, line);
            if !is_number(cell) {
                return None;
            }
            if !is_whole(cell) {
                times = Times::Decimal;
            }
        }
        // (the names come first)
        is_row = true;
        rest = more;
    }
    Some(times)
}

/// Whether each time of a table's rows has three digits at most, or as many, a point or a comma and three digits.
fn are_thousands(table: TimedTable<'_>) -> bool {
    let mut is_row = false;
    for line in table.rest.split(|byte| *byte == b'\n') {
        if is_row && !is_in_front(line) && !is_in_thousands(time_of(table, line)) {
            return false;
        }
        is_row = true;
    }
    true
}

/// Whether a cell is such a time.
fn is_in_thousands(cell: &[u8]) -> bool {
    match cell {
        [
            front @ ..,
            b'.' | b',',
            b'0'..=b'9',
            b'0'..=b'9',
            b'0'..=b'9',
        ] => is_short(front),
        whole => is_short(whole),
    }
}

/// Whether a cell is one digit, two or three.
fn is_short(cell: &[u8]) -> bool {
    matches!(cell.len(), 1..=3) && is_whole(cell)
}

/// Whether a cell is digits alone.
fn is_whole(cell: &[u8]) -> bool {
    cell.iter().all(|byte| byte.is_ascii_digit())
}

/// Whether a cell is a number, which may have a comma for its point.
fn is_number(cell: &[u8]) -> bool {
    begins_number(cell) && cell.iter().all(|byte| is_of_number(*byte))
}

/// Whether a byte is one of numbers: a digit, a sign, a point, a comma, or the letter of an exponent.
fn is_of_number(byte: u8) -> bool {
    byte.is_ascii_digit() || matches!(byte, b'+' | b'-' | b'.' | b',' | b'e' | b'E')
}

/// A table with this unit as the name of the column of its times.
fn in_unit(alloc: Global, table: TimedTable<'_>, unit: TimeUnit) -> Result<Vec<u8>, NoMemory> {
    let mut text = Vec::new(alloc);
    text.extend_from_slice(table.front)?;
    text.extend_from_slice(unit.sign.as_bytes())?;
    text.extend_from_slice(table.rest)?;
    Ok(text)
}
