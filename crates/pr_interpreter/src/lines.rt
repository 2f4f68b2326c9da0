//! The numbered lines of a program's text.

ghost use Rattle.std.specs.Prelude.{◌≡◌, ◌+◌, ◌^◌, ◌<◌, ◌≤◌, length, IfErr, IfOk, IfSome, MatchOption, OnOk, Ok};
ghost use Rattle.pr_interpreter.specs.LineLaws.{AreWithin};
ghost use Rattle.pr_interpreter.specs.Lines.{FaultsAs, LeadsOn, after_rest, after_row, blanks, column, ends_row, enter, front, is_empty, is_text, line_in, line_number, next_number, others, place_for, program_lines};

use crate::fault::ProgramFault;
use std::alloc::{AllocError, Global};

/// The greatest line number.
const LAST_NUMBER: u32 = 63_999;

/// A line of a program.
#[derive(Clone, Copy, Debug, PartialEq, Eq)]
pub struct Line {
    /// Its number, at most 63999.
    pub number: u16,
    /// Where its statements begin, as the number of bytes before them in the text.
    pub start: usize,
    /// Where the line ends.
    pub end: usize,
}

/// Returns how many blanks a row begins with.
fn blanks(row: &[u8]) -> usize
    ensures value { result ≡ blanks row.now }
    ensures within { result ≤ length row.now }
{
    for (i, b) in row.iter().enumerate() {
        if *b != b' ' {
            return i;
        }
    }
    row.len()
}

/// Returns whether a byte is neither a blank nor a digit.
fn is_text(b: u8) -> bool
    ensures { result ≡ is_text b }
{
    b != b' ' && (b < b'0' || b'9' < b)
}

/// Returns how many blanks and digits a row begins with.
fn front(row: &[u8]) -> usize
    ensures value { result ≡ front row.now }
    ensures within { result ≤ length row.now }
{
    for (i, b) in row.iter().enumerate() {
        if is_text(*b) {
            return i;
        }
    }
    row.len()
}

/// Returns a line number with one more digit; a blank changes nothing.
fn next_number(number: u32, b: u8) -> u32
    requires { number ≤ 63999 }
    ensures { result ≡ next_number number b }
{
    if b == b' ' {
        number
    } else {
        number * 10 + u32::from(b.saturating_sub(b'0'))
    }
}

/// Returns the line number that digits make, with blanks between them, if it is at most 63999.
fn line_number(digits: &[u8]) -> Option<u16>
    ensures value { MatchOption result (63999 < line_number 0 digits.now) (λ n. n ≡ line_number 0 digits.now) }
    ensures within { IfSome result (λ n. n ≤ 63999) }
{
    let mut number: u32 = 0;
    for b in digits {
        number = next_number(number, *b);
        if LAST_NUMBER < number {
            return None;
        }
    }
    Some(number as u16)
}

/// Returns the line that a row is, whose first byte is at `start`; none if it is blank.
#[tactic(auto, unfolding(crate::specs::Lines::line_in))]
fn line_in(start: usize, row: &[u8]) -> Result<Option<Line>, ProgramFault>
    requires { start + length row.now < 2 ^ 64 }
    ensures { result ≡ line_in start row.now }
{
    let blanks = blanks(row);
    if blanks == row.len() {
        return Ok(None);
    }
    let front = front(row);
    if front == blanks {
        return Err(ProgramFault::NoLineNumber(start + blanks));
    }
    match line_number(&row[..front]) {
        Some(number) => Ok(Some(Line {
            number,
            start: start + front,
            end: start + row.len(),
        })),
        None => Err(ProgramFault::LargeLineNumber(start + blanks)),
    }
}

/// Returns where a line of a number goes: before the first that has a greater one.
fn place_for(lines: &[Line], number: u16) -> usize
    ensures value { result ≡ place_for number lines.now }
    ensures within { result ≤ length lines.now }
{
    for (i, line) in lines.iter().enumerate() {
        if number < line.number {
            return i;
        }
    }
    lines.len()
}

/// Returns whether a line has nothing but its number.
fn is_empty(line: &Line) -> bool
    ensures { result ≡ is_empty line.now }
{
    line.start == line.end
}

/// Deletes the line of a number, if there is one.
fn delete(lines: &mut Vec<Line>, number: u16)
    ensures { lines.new.items ≡ others number lines.old.items }
{
    lines.retain(|other| other.number != number);
}

/// Types a line into a program: it takes the place of the line of its number, or deletes it if it has nothing.
#[tactic(auto, unfolding(crate::specs::Lines::enter))]
fn enter(lines: &mut Vec<Line>, line: Line) -> Result<(), AllocError>
    ensures { OnOk result (lines.new.items ≡ enter line lines.old.items) }
{
    delete(lines, line.number);
    if is_empty(&line) {
        return Ok(());
    }
    let place = place_for(lines.as_slice(), line.number);
    lines.insert(place, line)?;
    Ok(())
}

/// Types a row of a text into a program.
#[tactic(auto, unfolding(crate::specs::Lines::after_row))]
fn enter_row(
    lines: &mut Vec<Line>,
    text: &[u8],
    start: usize,
    end: usize,
) -> Result<(), ProgramFault>
    requires order { start ≤ end }
    requires within { end ≤ length text.now }
    ensures ok { OnOk result (after_row text.now start end lines.old.items ≡ Ok lines.new.items) }
    ensures err { IfErr result (λ fault. FaultsAs fault (after_row text.now start end lines.old.items)) }
{
    match line_in(start, &text[start..end]) {
        Ok(Some(line)) => match enter(lines, line) {
            Ok(()) => Ok(()),
            Err(_) => Err(ProgramFault::OutOfMemory),
        },
        Ok(None) => Ok(()),
        Err(fault) => Err(fault),
    }
}

/// Returns whether a byte ends a row.
fn ends_row(b: u8) -> bool
    ensures { result ≡ ends_row b }
{
    b == b'\n' || b == b'\r'
}

/// Takes the byte at a place of a row that began at `start`. Returns where the row of the next byte begins.
#[tactic(auto, using(crate::proofs::LineLemmas::row_taken, crate::proofs::LineLemmas::row_refused, crate::proofs::LineLemmas::row_goes_on))]
fn take_byte(
    lines: &mut Vec<Line>,
    text: &[u8],
    start: usize,
    place: usize,
) -> Result<usize, ProgramFault>
    requires order { start ≤ place }
    requires within { place < length text.now }
    ensures ok { IfOk result (λ next. LeadsOn text.now start place lines.old.items next lines.new.items) }
    ensures order { IfOk result (λ next. next ≤ place + 1) }
    ensures err { IfErr result (λ fault. FaultsAs fault (after_rest text.now start place lines.old.items)) }
{
    if ends_row(text[place]) {
        match enter_row(lines, text, start, place) {
            Ok(()) => Ok(place + 1),
            Err(fault) => Err(fault),
        }
    } else {
        Ok(start)
    }
}

/// Reads the lines of a text as they are typed, sorted by their numbers: of equal numbers the last counts, and a
/// number alone deletes.
///
/// # Errors
///
/// The first row that does not begin with a line number, or with one above 63999; or that memory ran out.
#[tactic(auto, using(crate::proofs::LineLemmas::from_start, crate::proofs::LineLemmas::last_taken, crate::proofs::LineLemmas::last_refused))]
pub fn lines_of(alloc: Global, text: &[u8]) -> Result<Vec<Line>, ProgramFault>
    ensures lines { IfOk result (λ lines. program_lines text.now ≡ Ok lines.items) }
    ensures within { IfOk result (λ lines. AreWithin (length text.now) lines.items) }
    ensures fault { IfErr result (λ fault. FaultsAs fault (program_lines text.now)) }
{
    let mut lines = Vec::new(alloc);
    let mut start = 0;
    for place in 0..text.len() {
        start = take_byte(&mut lines, text, start, place)?;
    }
    match enter_row(&mut lines, text, start, text.len()) {
        Ok(()) => Ok(lines),
        Err(fault) => Err(fault),
    }
}

/// Returns the column of a place, the number of bytes before it in a text: the number of bytes before it in its row,
/// counted from 1. After the end of the text it is the column of the end.
#[tactic(auto, unfolding(crate::specs::Lines::column))]
pub fn column_of(text: &[u8], place: usize) -> usize
    ensures { result ≡ column text.now place }
{
    let end = place.min(text.len());
    let mut start = end;
    while 0 < start {
        if ends_row(text[start - 1]) {
            return end - start + 1;
        }
        start -= 1;
    }
    end + 1
}
