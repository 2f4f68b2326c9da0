//! What separates the fields of a table, and which of its columns has the times.

use crate::names::{
    begins_with, first_field, has_others, has_times_behind, is_level, is_signal,
    push_later_columns, push_later_numbers, separator_of,
};
use crate::texts::unframed;
use crate::time_names::{behind_letters, is_time_alone};
use pr_capture::{TraceInput, read_rate};
use pr_wire::NoMemory;

/// A line that says what separates fields, as `sep=;` does.
#[derive(Clone, Copy)]
pub struct Said {
    /// Its number, from 1.
    number: usize,
    separator: u8,
}

/// What separates the fields of a line of this number: what a line before it says, or else its own first separator.
pub fn separator_at(bytes: &[u8], line: &[u8], number: usize) -> Option<u8> {
    match said_before(bytes, number) {
        Some(said) => Some(said.separator),
        None => separator_of(line),
    }
}

/// The line before that of this number which says last what separates fields, if one does.
fn said_before(bytes: &[u8], number: usize) -> Option<Said> {
    let mut said = None;
    let mut at: usize = 0;
    for line in bytes.split(|byte| *byte == b'\n') {
        at = at.wrapping_add(1);
        if at >= number {
            break;
        }
        if let Some(separator) = separator_in(line) {
            said = Some(Said {
                number: at,
                separator,
            });
        }
    }
    said
}

/// What a line says of the fields' separator, if it says no more.
fn separator_in(line: &[u8]) -> Option<u8> {
    let at = line.iter().position(|byte| *byte == b'=')?;
    match &line[at..] {
        [_, separator, rest @ ..]
            if matches!(*separator, b',' | b';' | b'\t')
                && unframed(&line[..at]).eq_ignore_ascii_case(b"sep")
                && unframed(rest).is_empty() => { Some(*separator) }
        _ => None,
    }
}

/// The line that says what separates fields, where the names of the columns have another separator alone.
pub fn other_said(bytes: &[u8], names: &[u8], number: usize) -> Option<Said> {
    let said = said_before(bytes, number)?;
    if names.contains(&said.separator) || separator_of(names).is_none() {
        return None;
    }
    Some(said)
}

/// Adds that a line says what separates fields, and nothing else that the names of the columns have.
pub fn push_other_said(text: &mut String, said: Said) -> Result<(), NoMemory> {
    let number = said.number;
    let sign = match said.separator {
        b',' => "a comma",
        b';' => "a semicolon",
        _ => "a tab",
    };
    write!(
        text,
        "  line {number} says that {sign} separates the fields, and here is none: correct line {number}, \
         or leave it out\n"
    )
}

/// Whether a table that is refused in the line of this number has a rate, by an option or, as it seems, by a remark.
fn has_rate(bytes: &[u8], input: TraceInput<'_>, number: usize) -> bool {
    input.rate.is_some() || has_rate_remark(bytes, number)
}

/// Whether a line before that of this number has the word rate in it, and then a digit.
fn has_rate_remark(bytes: &[u8], number: usize) -> bool {
    let mut at: usize = 0;
    for line in bytes.split(|byte| *byte == b'\n') {
        at = at.wrapping_add(1);
        if at >= number {
            break;
        }
        if has_word_of_rates(line) {
            return true;
        }
    }
    false
}

/// Whether a line before that of this number is the one with a rate that sigrok-cli writes in front.
pub fn has_meta(bytes: &[u8], number: usize) -> bool {
    let mut at: usize = 0;
    for line in bytes.split(|byte| *byte == b'\n') {
        at = at.wrapping_add(1);
        if at >= number {
            break;
        }
        if is_meta(line) {
            return true;
        }
    }
    false
}

/// Whether a line is that line.
fn is_meta(line: &[u8]) -> bool {
    begins_with(line, b"META samplerate")
}

/// Whether a line has the word rate in it, or a longer one, and then a digit.
pub fn has_word_of_rates(line: &[u8]) -> bool {
    for i in 0..line.len() {
        if begins_with(&line[i..], b"rate") {
            return has_digit(&line[i..]);
        }
    }
    false
}

/// Whether a digit is among bytes.
fn has_digit(bytes: &[u8]) -> bool {
    for byte in bytes {
        if byte.is_ascii_digit() {
            return true;
        }
    }
    false
}

/// The line before that of this number which has the names of a table's columns: the first that is no remark and does
/// not say a rate or what separates fields. None where that line has them itself.
pub fn names_before(bytes: &[u8], number: usize) -> Option<&[u8]> {
    let mut at: usize = 0;
    for line in bytes.split(|byte| *byte == b'\n') {
        at = at.wrapping_add(1);
        if at >= number {
            break;
        }
        if !is_in_front(line) {
            return Some(line);
        }
    }
    None
}

/// Whether a line comes before that of the names.
pub fn is_in_front(line: &[u8]) -> bool {
    matches!(unframed(line), [] | [b';' | b'#', ..])
        || is_meta(line)
        || separator_in(line).is_some()
}

/// Whether the first column of a table is one of the signals or has numbers of samples, by its name.
fn is_lawful(name: &[u8], input: TraceInput<'_>) -> bool {
    is_signal(name, input.signals) || begins_with(name, b"sample") || begins_with(name, b"index")
}

/// Adds what a row of a table at a rate has, after this line of names, that is refused since it may have times: a first
/// cell that is no level, or a later one that is a number.
pub fn push_row_rule(
    text: &mut String,
    names: &[u8],
    row: &[u8],
    separator: u8,
    input: TraceInput<'_>,
) -> Result<(), NoMemory> {
    let cell = first_field(separator, row);
    if is_level(cell) || is_lawful(first_field(separator, names), input) {
        return push_later_numbers(text, separator, names, row, input.signals);
    }
    write!(
        text,
        "  this first column has no levels, and its name is none of times: name this column: Time [us], \
         Sample; or leave it out if it has neither\n"
    )
}

/// Whether remarks before the line of this number give sample rates that differ, or one that is not read beside another.
pub fn have_two_rates(bytes: &[u8], number: usize) -> bool {
    let mut known = None;
    let mut at: usize = 0;
    for line in bytes.split(|byte| *byte == b'\n') {
        at = at.wrapping_add(1);
        if at >= number {
            break;
        }
        if let Some(text) = behind_rate_word(line) {
            let rate = rate_of(text);
            if known.is_some() && known != rate {
                return true;
            }
            known = rate;
        }
    }
    false
}

/// What a remark of a sample rate has behind its words; None where a line is none.
fn behind_rate_word(line: &[u8]) -> Option<&[u8]> {
    match behind_letters(line, b"METAsamplerate") {
        Some(rest) => Some(rest),
        None => behind_letters(line, b"samplerate"),
    }
}

/// The rate that a remark gives behind its words.
fn rate_of(text: &[u8]) -> Option<u64> {
    let start = text
        .iter()
        .position(|byte| !matches!(*byte, b' ' | b'\t' | b':' | b'='))?;
    match str::from_utf8(unframed(&text[start..])) {
        Ok(rate) => read_rate(rate),
        Err(_) => None,
    }
}

/// Adds that remarks give rates that differ.
fn push_two_rates(text: &mut String) -> Result<(), NoMemory> {
    write!(
        text,
        "  the remarks give sample rates that differ, so none of them counts: --rate gives one in their place, such as --rate 4M\n"
    )
}

/// Whether a table without times is to have a rate, by the name of its first column and its later ones.
fn wants_rate(separator: u8, line: &[u8], name: &[u8]) -> bool {
    !begins_with(name, b"delta") && !has_times_behind(separator, line)
}

/// Adds what a table has that is refused since it has no times: by this line, of its names, which has this number.
pub fn push_times_rule(
    text: &mut String,
    bytes: &[u8],
    number: usize,
    line: &[u8],
    separator: u8,
    input: TraceInput<'_>,
) -> Result<(), NoMemory> {
    let name = first_field(separator, line);
    let signals = input.signals;
    let is_rated = has_rate(bytes, input, number);
    if input.rate.is_none() && wants_rate(separator, line, name) && have_two_rates(bytes, number) {
        return push_two_rates(text);
    }
    if is_rated && is_lawful(name, input) && has_others(separator, line, signals) {
        return push_later_columns(text, separator, line, signals);
    }
    let rule = if is_signal(name, signals) && !has_times_behind(separator, line) {
        "the first column is a signal: --rate gives the distance of the samples, such as --rate 4M, or a \
         remark such as ; Samplerate: 4 MHz; a column of times would be the first or the last"
    } else {
        rule_of_times(separator, line, name)
    };
    write!(text, "  {rule}\n")
}

/// The same where no first column is one of a signal.
fn rule_of_times(separator: u8, line: &[u8], name: &[u8]) -> &'static str {
    if has_times_behind(separator, line) {
        "a later column has times: move it to the front, and name it with its unit, such as Time [us]"
    } else if begins_with(name, b"sample") {
        "these are numbers of samples: give the sample rate with --rate, such as --rate 4M, or in a remark \
         such as ; Samplerate: 4 MHz"
    } else if begins_with(name, b"delta") {
        "a column Delta has differences, and does not say of which rows: export the times of the rows, and \
         name this column: Time [us], Sample"
    } else if is_time_alone(name) {
        "the unit of these times is not known: name it, such as Time [ms], or, where they are in seconds, \
         leave out the sample rate (--rate, or the line that gives it); a table of sigrok-cli is read with \
         its own remarks and without --rate: write it from a .sr file"
    } else {
        "expected a first column of times or of sample numbers: name this column: Time [us], Sample; or \
         move the column of times to the front; where no column is of times, give the sample rate with \
         --rate, such as --rate 4M, or in a remark such as ; Samplerate: 4 MHz"
    }
}

/// Whether a cell begins as a number does, and a name hardly.
pub fn begins_number(cell: &[u8]) -> bool {
    matches!(cell, [b'0'..=b'9' | b'+' | b'-' | b'.', ..])
}
