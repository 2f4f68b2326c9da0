//! Tables whose rows have times, by the name of the first column or of the last.

use crate::names::first_field;
use crate::tables::{is_in_front, separator_at};
use crate::texts::unframed;
use crate::time_names::{has_time_unit, is_time_alone};
use pr_basic::cut_line;

/// A table with a column of times, around the name of that column.
#[derive(Clone, Copy)]
pub struct TimedTable<'a> {
    /// What comes before that name.
    pub front: &'a [u8],
    /// What comes after it.
    pub rest: &'a [u8],
    pub separator: u8,
    /// It is the last column, and not the first.
    pub is_last: bool,
    /// The name has a unit, and is not a word for time alone.
    pub has_unit: bool,
}

/// The lines of a text that have an end.
pub fn whole_lines(text: &[u8]) -> &[u8] {
    match text.iter().rposition(|byte| *byte == b'\n') {
        Some(last) => &text[..last],
        None => text,
    }
}

/// A table whose first or last column has times by its name; None of any other.
pub fn table_of(lines: &[u8]) -> Option<TimedTable<'_>> {
    let mut rest = lines;
    let mut number: usize = 1;
    while !rest.is_empty() {
        let (line, more) = cut_line(rest);
        if !is_in_front(line) {
            let separator = separator_at(lines, line, number)?;
            let len = line.iter().position(|byte| *byte == separator)?;
            let before = lines.len().saturating_sub(rest.len());
            let first = first_field(separator, line);
            if is_time_alone(first) || has_time_unit(first) {
                return Some(TimedTable {
                    front: &lines[..before],
                    rest: &rest[len..],
                    separator,
                    is_last: false,
                    has_unit: !is_time_alone(first),
                });
            }
            let last = last_field(separator, line);
            if !is_time_alone(last) && !has_time_unit(last) {
                return None;
            }
            let len = line.len().saturating_sub(last.len());
            let before = before.saturating_add(len).min(lines.len());
            return Some(TimedTable {
                front: &lines[..before],
                rest: &rest[line.len()..],
                separator,
                is_last: true,
                has_unit: !is_time_alone(last),
            });
        }
        number = number.wrapping_add(1);
        rest = more;
    }
    None
}

/// The last field of a line, with what is around it. A separator between quotation marks does not end one.
pub fn last_field(separator: u8, line: &[u8]) -> &[u8] {
    let mut last = line;
    let mut is_quoted = false;
    for (i, byte) in line.iter().enumerate() {
        if *byte == separator && !is_quoted {
            last = &line[i + 1..];
        }
        if *byte == b'"' {
            is_quoted = !is_quoted;
        }
    }
    last
}

/// Whether a table has its times in its last column, by the line of its names.
pub fn has_times_last(separator: u8, names: &[u8]) -> bool {
    let first = first_field(separator, names);
    let last = last_field(separator, names);
    !is_time_alone(first) && !has_time_unit(first) && (is_time_alone(last) || has_time_unit(last))
}

/// The time of a row, as it is written.
pub fn time_of<'r>(table: TimedTable<'_>, row: &'r [u8]) -> &'r [u8] {
    if table.is_last {
        unframed(last_field(table.separator, row))
    } else {
        first_field(table.separator, row)
    }
}

/// What a row has before its time, and what behind it.
pub fn around_time<'r>(table: TimedTable<'_>, row: &'r [u8]) -> (&'r [u8], &'r [u8]) {
    if table.is_last {
        let len = row
            .len()
            .saturating_sub(last_field(table.separator, row).len());
        return (&row[..len], &[]);
    }
    match row.iter().position(|byte| *byte == table.separator) {
        Some(end) => (&[], &row[end..]),
        None => (&[], &[]),
    }
}
