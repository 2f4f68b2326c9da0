//! Lines of a table that are probably not meant as they are read.

use crate::names::{first_field, is_level, split_field};
use crate::tables::{has_word_of_rates, is_in_front, separator_at};
use crate::texts::unframed;
use crate::timed::last_field;
use pr_capture::{InputFormat, TraceInput};

/// A line of a table that is probably not meant as it is read, by its number from 1.
#[derive(Clone, Copy)]
pub enum Misread {
    /// The line of the names has levels alone.
    Names(usize),
    /// It has mV, where a threshold is one of volts.
    Millivolts(usize),
    /// A remark behind the names has a rate.
    Rate(usize),
    /// A remark has as many cells as the names.
    Remark(usize),
    /// A blank line is before a row that begins with a level.
    Blank(usize),
    /// A row has more cells than the names.
    Surplus(usize),
    /// An instant has another month or another offset from UTC than the one before it.
    Instant(usize),
}

/// Microvolts from which on a threshold is hardly one of volts: 50 V.
const MILLIVOLTS: u64 = 50_000_000;

/// What is known of a table at one of its rows.
#[derive(Clone, Copy)]
struct Rows<'a> {
    separator: u8,
    /// How many separators are between the names.
    count: usize,
    /// The first cell of the row before; empty before the first row.
    before: &'a [u8],
    /// A line before the row is blank.
    is_apart: bool,
}

/// The first line of a table that is probably not meant as it is read.
pub fn misread_line(recording: &[u8], input: TraceInput<'_>) -> Option<Misread> {
    if input.source != InputFormat::Csv {
        return None;
    }
    let mut rows: Option<Rows<'_>> = None;
    let mut number: usize = 0;
    for line in recording.split(|byte| *byte == b'\n') {
        number = number.wrapping_add(1);
        match rows {
            Some(table) => {
                let found = misread_row(table, line, number);
                if found.is_some() {
                    return found;
                }
                rows = Some(behind(table, line));
            }
            None if is_in_front(line) => {}
            None => {
                let separator = separator_at(recording, line, number).unwrap_or(b',');
                let found = misread_names(separator, line, number, input);
                if found.is_some() {
                    return found;
                }
                rows = Some(Rows {
                    separator,
                    count: separator_count(separator, line),
                    before: &[],
                    is_apart: false,
                });
            }
        }
    }
    None
}

/// What is probably not meant of the line of the names.
fn misread_names(
    separator: u8,
    line: &[u8],
    number: usize,
    input: TraceInput<'_>,
) -> Option<Misread> {
    match input.signals.probes.threshold {
        Some(threshold) if threshold.high.micros < MILLIVOLTS && has_millivolts(line) => {
            Some(Misread::Millivolts(number))
        }
        None if are_levels(separator, line) => Some(Misread::Names(number)),
        _ => None,
    }
}

/// Whether a line has mV.
fn has_millivolts(line: &[u8]) -> bool {
    for i in 0..line.len() {
        if line[i..].starts_with(b"mV") {
            return true;
        }
    }
    false
}

/// Whether all cells of a line are the letters of levels.
fn are_levels(separator: u8, line: &[u8]) -> bool {
    let mut rest = line;
    while !rest.is_empty() {
        let (field, more) = split_field(separator, rest);
        rest = more;
        if !matches!(unframed(field), [b'H' | b'h' | b'L' | b'l']) {
            return false;
        }
    }
    true
}

/// What is probably not meant of a line behind the names.
fn misread_row(table: Rows<'_>, line: &[u8], number: usize) -> Option<Misread> {
    let count = separator_count(table.separator, line);
    let cell = first_field(table.separator, line);
    match unframed(line) {
        [] => None,
        [b';' | b'#', ..] if has_word_of_rates(line) => Some(Misread::Rate(number)),
        [b';' | b'#', ..] if count >= table.count && count > 0 => Some(Misread::Remark(number)),
        [b';' | b'#', ..] => None,
        _ if table.is_apart && is_level(cell) => Some(Misread::Blank(number.saturating_sub(1))),
        _ if count > table.count && !unframed(last_field(table.separator, line)).is_empty() => {
            Some(Misread::Surplus(number))
        }
        _ if are_apart(table.before, cell) => Some(Misread::Instant(number)),
        _ => None,
    }
}

/// What is known behind a line.
fn behind<'a>(table: Rows<'a>, line: &'a [u8]) -> Rows<'a> {
    match unframed(line) {
        [] => Rows {
            is_apart: true,
            ..table
        },
        [b';' | b'#', ..] => table,
        _ => Rows {
            before: first_field(table.separator, line),
            is_apart: false,
            ..table
        },
    }
}

/// How many separators a line has. One between quotation marks separates nothing.
fn separator_count(separator: u8, line: &[u8]) -> usize {
    let mut count: usize = 0;
    let mut is_quoted = false;
    for byte in line {
        if *byte == separator && !is_quoted {
            count = count.wrapping_add(1);
        }
        if *byte == b'"' {
            is_quoted = !is_quoted;
        }
    }
    count
}

/// Whether two cells are instants of which the year, the month or the offset differ.
fn are_apart(before: &[u8], cell: &[u8]) -> bool {
    if !is_instant(before) || !is_instant(cell) {
        return false;
    }
    month_of(before) != month_of(cell) || offset_of(before) != offset_of(cell)
}

/// Whether a cell begins as an instant does, as 2026-11-29T12:00:00.
fn is_instant(cell: &[u8]) -> bool {
    cell.len() >= 19 && cell[4] == b'-' && cell[7] == b'-' && cell[13] == b':'
}

/// The year and the month of an instant.
fn month_of(cell: &[u8]) -> &[u8] {
    &cell[..cell.len().min(7)]
}

/// What an instant has behind its seconds.
fn offset_of(cell: &[u8]) -> &[u8] {
    match cell
        .iter()
        .rposition(|byte| matches!(*byte, b'+' | b'-' | b'Z' | b'z'))
    {
        Some(at) if at >= 19 => &cell[at..],
        _ => &[],
    }
}
