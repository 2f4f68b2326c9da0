//! The names of a recording's signals.

ghost use Rattle.std.specs.Prelude.{◌<◌, length};

use crate::declared::{paths_called, paths_in};
use crate::texts::{Cut, unframed};
use pr_capture::Signals;
use pr_wire::NoMemory;
use std::alloc::Global;

/// The most names that are shown (profile).
const NAMES: usize = 20;

/// Adds a name after this many others, unless it is empty or enough are shown, and gives how many
/// there are with it.
fn push_name(text: &mut String, count: usize, name: &[u8]) -> Result<usize, NoMemory> {
    if name.is_empty() {
        return Ok(count);
    }
    if count == 0 {
        write!(text, "  the recording has the signals {}", Cut(name))?;
    } else if count < NAMES {
        write!(text, ", {}", Cut(name))?;
    }
    Ok(count.saturating_add(1))
}

/// Adds that there are more names than are shown, or none, and how the three lines are called by
/// them.
fn push_names_end(text: &mut String, count: usize, no_signal: &str) -> Result<(), NoMemory> {
    if count == 0 {
        write!(text, "  the recording has {no_signal}")?;
    } else if count > NAMES {
        write!(text, ", ..")?;
    }
    write!(
        text,
        "\n  name the signals of ATN, CLOCK and DATA with --names, such as --names D0,D1,D2\n"
    )
}

/// Adds the paths of a dump's signals, and how a bit of one is named, where one has more.
pub fn push_dump_names(alloc: Global, text: &mut String, dump: &[u8]) -> Result<(), NoMemory> {
    let paths = paths_in(alloc, dump)?;
    let mut count = 0;
    let mut has_range = false;
    for path in &paths {
        count = push_name(text, count, path.as_slice())?;
        has_range = has_range || path.as_slice().contains(&b':');
    }
    push_names_end(
        text,
        count,
        "no 1-bit signal, and none with a range such as [2:0]",
    )?;
    if has_range {
        write!(
            text,
            "  a bit of a signal with a range has its index, such as IEC[0]\n"
        )?;
    }
    Ok(())
}

/// Whether a name means a signal of a dump. A bit of one with a range is none.
pub fn has_signal(alloc: Global, dump: &[u8], name: &[u8]) -> Result<bool, NoMemory> {
    let paths = paths_in(alloc, dump)?;
    let called = paths_called(alloc, paths.as_slice(), name)?;
    for path in &called {
        if !path.contains(&b':') {
            return Ok(true);
        }
    }
    Ok(false)
}

/// Adds the paths of the signals of a dump that one name means, or else a second name, and how one of them
/// is named.
pub fn push_same_names(
    alloc: Global,
    text: &mut String,
    dump: &[u8],
    name: &[u8],
    second: &[u8],
) -> Result<(), NoMemory> {
    let paths = paths_in(alloc, dump)?;
    let first = paths_called(alloc, paths.as_slice(), name)?;
    if first.len() > 1 {
        return push_paths(text, first.as_slice(), name);
    }
    let others = paths_called(alloc, paths.as_slice(), second)?;
    push_paths(text, others.as_slice(), second)
}

/// A path, up to its range if it has one.
fn without_range(path: &[u8]) -> &[u8] {
    match path.iter().position(|b| *b == b'[') {
        Some(at) => unframed(&path[..at]),
        None => path,
    }
}

/// The index in a name of a bit, with its brackets; nothing in the name of a signal.
fn index_in(name: &[u8]) -> &[u8] {
    match name.iter().position(|b| *b == b'[') {
        Some(at) => &name[at..],
        None => &[],
    }
}

/// Adds that these paths are meant by one name, and what to do.
fn push_paths(text: &mut String, paths: &[&[u8]], name: &[u8]) -> Result<(), NoMemory> {
    write!(text, "  two signals have the name {}:", Cut(name))?;
    for (i, path) in paths.iter().enumerate() {
        if i < NAMES {
            let comma = if i == 0 { "" } else { "," };
            write!(text, "{comma} {}", Cut(*path))?;
        }
    }
    match paths {
        [first, second, ..] if !first.eq_ignore_ascii_case(*second) => write!(
            text,
            "\n  add the scopes in --names, such as {}{}\n",
            Cut(without_range(*second)),
            Cut(index_in(name))
        ),
        _ => write!(
            text,
            "\n  no scope tells them apart: give one of them another name in the dump\n"
        ),
    }
}

/// What separates the fields of a table, by the line of their names: the first comma, semicolon or tab.
/// None where it has none.
pub fn separator_of(line: &[u8]) -> Option<u8> {
    for byte in line {
        if matches!(*byte, b',' | b';' | b'\t') {
            return Some(*byte);
        }
    }
    None
}

/// Whether a field is digits, points, signs and, after a digit, the letter of an exponent alone, with a
/// digit among them.
pub fn is_number(field: &[u8]) -> bool {
    let mut has_digit = false;
    for byte in field {
        if byte.is_ascii_digit() {
            has_digit = true;
        } else if !is_mark_of_number(*byte, has_digit) {
            return false;
        }
    }
    has_digit
}

/// Whether a byte that is no digit is one of numbers, after a digit or before any.
fn is_mark_of_number(byte: u8, has_digit: bool) -> bool {
    byte == b'.' || byte == b'-' || byte == b'+' || (has_digit && byte.eq_ignore_ascii_case(&b'e'))
}

/// Adds the name of a table's first column, and the names of the others, by the line of their
/// names.
pub fn push_table_names(text: &mut String, separator: u8, line: &[u8]) -> Result<(), NoMemory> {
    let (time, mut rest) = split_field(separator, line);
    let name = unframed(time);
    if name.is_empty() {
        write!(text, "  the first column has no name\n")?;
    } else {
        write!(text, "  the first column is named {}\n", Cut(name))?;
    }
    let mut count = 0;
    while !rest.is_empty() {
        let (field, more) = split_field(separator, rest);
        rest = more;
        count = push_name(text, count, unframed(field))?;
    }
    push_names_end(text, count, "no named signal")
}

/// Whether two columns of a table are called `logic`, by the line of their names: sigrok-cli writes this unit
/// where it is not asked for the names of channels.
pub fn has_units(separator: u8, line: &[u8]) -> bool {
    let mut has_one = false;
    let mut rest = line;
    while !rest.is_empty() {
        let (field, more) = split_field(separator, rest);
        rest = more;
        if unframed(field) == b"logic".as_slice() {
            if has_one {
                return true;
            }
            has_one = true;
        }
    }
    false
}

/// Whether a column behind the first one has a word for time first in its name.
pub fn has_times_behind(separator: u8, line: &[u8]) -> bool {
    let (_, fields) = split_field(separator, line);
    let mut rest = fields;
    while !rest.is_empty() {
        let (field, more) = split_field(separator, rest);
        rest = more;
        if begins_time(unframed(field)) {
            return true;
        }
    }
    false
}

/// Whether a table has a column that this name means, by the line of its names: one that is called so, or, where it is a number, one
/// with this number, from 0, unless one is called by a number. Columns of times in front do not count.
pub fn has_column(separator: u8, line: &[u8], name: &[u8]) -> bool {
    let (first, later) = split_field(separator, line);
    let mut rest = if is_front(unframed(first)) {
        later
    } else {
        line
    };
    let mut left = if has_number_as_name(separator, rest) {
        None
    } else {
        number_of(name)
    };
    while !rest.is_empty() {
        let (field, more) = split_field(separator, rest);
        rest = more;
        if left == Some(0) || unframed(field).eq_ignore_ascii_case(name) {
            return true;
        }
        left = match left {
            Some(number) => number.checked_sub(1),
            None => None,
        };
    }
    false
}

/// Whether one of these columns is called by a number.
fn has_number_as_name(separator: u8, columns: &[u8]) -> bool {
    let mut rest = columns;
    while !rest.is_empty() {
        let (field, more) = split_field(separator, rest);
        rest = more;
        if number_of(unframed(field)).is_some() {
            return true;
        }
    }
    false
}

/// Whether a first column has times or numbers of samples by its name, as it seems.
fn is_front(name: &[u8]) -> bool {
    begins_time(name) || begins_with(name, b"sample") || begins_with(name, b"index")
}

/// The number that a name is, if it is one.
pub fn number_of(name: &[u8]) -> Option<usize> {
    match str::from_utf8(name) {
        Ok(name) => name.parse().ok(),
        Err(_) => None,
    }
}

/// Whether a column is called as one of the signals, in capitals or not.
pub fn is_signal(name: &[u8], signals: Signals<'_>) -> bool {
    name.eq_ignore_ascii_case(signals.atn)
        || name.eq_ignore_ascii_case(signals.clock)
        || name.eq_ignore_ascii_case(signals.line)
        || name.eq_ignore_ascii_case(b"CLK")
}

/// Whether a column behind the first one has a name, and is none of the signals.
pub fn has_others(separator: u8, line: &[u8], signals: Signals<'_>) -> bool {
    let (_, fields) = split_field(separator, line);
    let mut rest = fields;
    while !rest.is_empty() {
        let (field, more) = split_field(separator, rest);
        rest = more;
        if is_other(unframed(field), signals) {
            return true;
        }
    }
    false
}

/// Whether a name is there, and is none of the signals'.
fn is_other(name: &[u8], signals: Signals<'_>) -> bool {
    !name.is_empty() && !is_signal(name, signals)
}

/// Adds that a column behind the first one has times or sample numbers, where a rate is given, and which columns are none of
/// the signals, by the line of their names.
pub fn push_later_columns(
    text: &mut String,
    separator: u8,
    line: &[u8],
    signals: Signals<'_>,
) -> Result<(), NoMemory> {
    write!(
        text,
        "  a later column has times or sample numbers by its name, which do not go with a rate"
    )?;
    let (_, mut rest) = split_field(separator, line);
    let mut place: usize = 1;
    let mut count: usize = 0;
    while !rest.is_empty() {
        let (field, more) = split_field(separator, rest);
        rest = more;
        place = place.wrapping_add(1);
        let name = unframed(field);
        if is_other(name, signals) {
            let sign = if count == 0 { " (" } else { "; " };
            write!(text, "{sign}column {place}, {}", Cut(name))?;
            count = count.wrapping_add(1);
        }
    }
    let end = if count == 0 { "" } else { ")" };
    write!(
        text,
        "{end}: move it to the front (times need no rate), or rename it\n"
    )
}

/// Adds which columns behind the first one have numbers in a row at a rate that are no levels, and are none of the
/// signals, by the line of the names.
pub fn push_later_numbers(
    text: &mut String,
    separator: u8,
    names: &[u8],
    row: &[u8],
    signals: Signals<'_>,
) -> Result<(), NoMemory> {
    write!(
        text,
        "  at a rate a later column has numbers that are no levels"
    )?;
    let (_, mut names) = split_field(separator, names);
    let (_, mut rest) = split_field(separator, row);
    let mut place: usize = 1;
    let mut count: usize = 0;
    while !rest.is_empty() {
        let (name, later) = split_field(separator, names);
        let (cell, more) = split_field(separator, rest);
        names = later;
        rest = more;
        place = place.wrapping_add(1);
        let name = unframed(name);
        if is_other_number(unframed(cell)) && !is_signal(name, signals) {
            let sign = if count == 0 { " (" } else { "; " };
            write!(text, "{sign}column {place}, {}", Cut(name))?;
            count = count.wrapping_add(1);
        }
    }
    let end = if count == 0 { "" } else { ")" };
    write!(
        text,
        "{end}: move it to the front and name this column: Time [us], Sample; if it has neither, leave it out\n"
    )
}

/// Whether a cell begins with a digit, after a sign or a point or not, and is no level.
fn is_other_number(cell: &[u8]) -> bool {
    let number = match cell {
        [b'-' | b'+', rest @ ..] => rest,
        _ => cell,
    };
    matches!(number, [b'0'..=b'9', ..] | [b'.' | b',', b'0'..=b'9', ..]) && !is_level(cell)
}

/// Whether a cell is a level, known or not, which may have a point and zeros behind it.
pub fn is_level(cell: &[u8]) -> bool {
    match cell {
        [level, rest @ ..] if b"01LlHhXxZz".contains(level) => {
            matches!(rest, [] | [b'.', ..]) && !rest.iter().any(|byte| matches!(*byte, b'1'..=b'9'))
        }
        _ => false,
    }
}

/// Whether a name begins with a word for time.
fn begins_time(name: &[u8]) -> bool {
    begins_with(name, b"time") || begins_with(name, b"elapsed") || begins_with(name, b"delta")
}

/// Whether a name begins with a word, in capitals or not.
pub fn begins_with(name: &[u8], word: &[u8]) -> bool {
    name.len() >= word.len() && name[..word.len()].eq_ignore_ascii_case(word)
}

/// The first field of a line, without what is around it.
pub fn first_field(separator: u8, line: &[u8]) -> &[u8] {
    let (field, _) = split_field(separator, line);
    unframed(field)
}

/// Whether a field behind the first one is 5, or has a point between digits, as volts have.
pub fn has_volts(separator: u8, line: &[u8]) -> bool {
    let (_, fields) = split_field(separator, line);
    let mut rest = fields;
    while !rest.is_empty() {
        let (field, more) = split_field(separator, rest);
        rest = more;
        if is_volts(unframed(field)) {
            return true;
        }
    }
    false
}

/// Whether a row has a whole number of two digits or more in a column that is called as one of the signals, by the line of
/// the names.
pub fn has_number_of_signal(separator: u8, names: &[u8], row: &[u8], signals: Signals<'_>) -> bool {
    let mut names = names;
    let mut rest = row;
    while !rest.is_empty() {
        let (name, later) = split_field(separator, names);
        let (cell, more) = split_field(separator, rest);
        names = later;
        rest = more;
        if is_signal(unframed(name), signals) && is_large(unframed(cell)) {
            return true;
        }
    }
    false
}

/// Whether a cell is two digits or more.
fn is_large(cell: &[u8]) -> bool {
    cell.len() > 1 && cell.iter().all(|byte| byte.is_ascii_digit())
}

/// Whether a cell is 5, or has a point between digits, as volts have.
pub fn is_volts(cell: &[u8]) -> bool {
    cell == b"5".as_slice() || has_fraction(cell)
}

/// Whether a cell has a point between digits.
fn has_fraction(cell: &[u8]) -> bool {
    for (i, byte) in cell.iter().enumerate() {
        if *byte == b'.' && 0 < i && begins_fraction(&cell[i - 1..]) {
            return true;
        }
    }
    false
}

/// Whether bytes begin with a digit, a point and a digit.
fn begins_fraction(bytes: &[u8]) -> bool {
    matches!(bytes, [b'0'..=b'9', b'.', b'0'..=b'9', ..])
}

/// The first field of a line, and what follows its separator; nothing, where it has none. One between
/// quotation marks does not end it.
pub fn split_field(separator: u8, line: &[u8]) -> (&[u8], &[u8])
    ensures less { 0 < length line.now → length result.1.now < length line.now }
{
    let mut is_quoted = false;
    for (i, byte) in line.iter().enumerate() {
        if *byte == separator && !is_quoted {
            return (&line[..i], &line[i + 1..]);
        }
        if *byte == b'"' {
            is_quoted = !is_quoted;
        }
    }
    (line, &[])
}
