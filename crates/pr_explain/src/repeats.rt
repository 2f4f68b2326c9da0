//! Rows of a table that lose levels, since another row has the same time.

use crate::input::read_input;
use crate::tables::is_in_front;
use crate::timed::{TimedTable, around_time, table_of, time_of, whole_lines};
use pr_capture::{InputFormat, TraceInput};
use pr_wire::{Edge, Levels, NoMemory};
use std::alloc::Global;

/// How many rows of a table have the time of the row before, as it is written, and other levels: 0 also where these are the
/// first ones of their times to change, so that no levels are lost, though the last row of a time counts alone.
///
/// # Errors
///
/// [`NoMemory`] where memory was refused.
pub fn repeated_rows(
    alloc: Global,
    recording: &[u8],
    input: TraceInput<'_>,
) -> Result<usize, NoMemory> {
    if input.source != InputFormat::Csv {
        return Ok(0);
    }
    let Some(table) = table_of(whole_lines(recording)) else {
        return Ok(0);
    };
    if !has_repeats(table) {
        return Ok(0);
    }
    let numbered = numbered(alloc, table)?;
    let said = read_input(alloc, numbered.as_slice(), plain(input))?;
    match said.fault {
        None => Ok(count_repeats(table, said.edges.as_slice())),
        Some(_) => Ok(0),
    }
}

/// Whether the levels of some rows of a table with times differ, whatever the times are.
///
/// # Errors
///
/// [`NoMemory`] where memory was refused.
pub fn rows_change(
    alloc: Global,
    recording: &[u8],
    input: TraceInput<'_>,
) -> Result<bool, NoMemory> {
    if input.source != InputFormat::Csv {
        return Ok(false);
    }
    let Some(table) = table_of(whole_lines(recording)) else {
        return Ok(false);
    };
    let numbered = numbered(alloc, table)?;
    let said = read_input(alloc, numbered.as_slice(), plain(input))?;
    Ok(said.fault.is_none() && said.edges.len() > 1)
}

/// The same input from its beginning, with all pulses.
fn plain(input: TraceInput<'_>) -> TraceInput<'_> {
    TraceInput {
        start: 0,
        pulse: 0,
        ..input
    }
}

/// Whether a row has the time of the row before, as it is written, and is another.
fn has_repeats(table: TimedTable<'_>) -> bool {
    let mut is_row = false;
    let mut before: Option<&[u8]> = None;
    for line in table.rest.split(|byte| *byte == b'\n') {
        if is_row && !is_in_front(line) {
            if let Some(other) = before {
                if line != other && time_of(table, line) == time_of(table, other) {
                    return true;
                }
            }
            before = Some(line);
        }
        // (the names come first)
        is_row = true;
    }
    false
}

/// A table whose rows have their numbers, from 0, as times in microseconds.
fn numbered(alloc: Global, table: TimedTable<'_>) -> Result<Vec<u8>, NoMemory> {
    let mut text = Vec::new(alloc);
    text.extend_from_slice(table.front)?;
    text.extend_from_slice(b"us")?;
    let mut digits = String::new(alloc);
    let mut number: u64 = 0;
    let mut is_row = false;
    for line in table.rest.split(|byte| *byte == b'\n') {
        if !is_row {
            text.extend_from_slice(line)?;
        } else if !is_in_front(line) {
            digits.clear();
            write!(digits, "{number}")?;
            let (front, rest) = around_time(table, line);
            text.push(b'\n')?;
            text.extend_from_slice(front)?;
            text.extend_from_slice(digits.as_bytes())?;
            text.extend_from_slice(rest)?;
            number = number.wrapping_add(1);
        }
        is_row = true;
    }
    text.push(b'\n')?;
    Ok(text)
}

/// How many rows have the time of the row before and other levels, if levels of one that have changed are lost. The edges
/// have the numbers of rows as times.
fn count_repeats(table: TimedTable<'_>, edges: &[Edge]) -> usize {
    let mut rest = edges;
    let mut number: u64 = 0;
    let mut count: usize = 0;
    let mut time: &[u8] = &[];
    let mut before: Option<Levels> = None;
    let mut last: Option<Levels> = None;
    let mut is_lost = false;
    let mut is_row = false;
    for line in table.rest.split(|byte| *byte == b'\n') {
        if is_row && !is_in_front(line) {
            let mut levels = last;
            if let [edge, more @ ..] = rest {
                if edge.time == number {
                    levels = Some(edge.levels);
                    rest = more;
                }
            }
            let this = time_of(table, line);
            if number == 0 || this != time {
                before = last;
            } else if levels != last {
                count = count.wrapping_add(1);
                is_lost = is_lost || last != before;
            }
            time = this;
            last = levels;
            number = number.wrapping_add(1);
        }
        is_row = true;
    }
    if is_lost { count } else { 0 }
}
