//! The byte of a saved program that its script's text has at a place.

ghost use Rattle.std.specs.Prelude.{◌≡◌, ◌<◌, ◌^◌, None, decimal, length};
ghost use Rattle.pr_listing.specs.Containers.{program_in};
ghost use Rattle.pr_listing.specs.Listing.{byte_text, plain_text, quoted_text};
ghost use Rattle.pr_listing.specs.Places.{IsLineAt, byte_in_line, byte_under};
ghost use Rattle.pr_listing.specs.Program.{Line};

use crate::containers::program_in;
use crate::keywords::keyword;
use crate::line::{Mode, is_held, is_letter, is_token};
use crate::program::{Front, front_of};
use itoa::Buffer;

/// How many bytes a number has in decimal.
fn number_len(n: u32) -> usize
    ensures length { result ≡ length (decimal n) }
    ensures small { result < 2 ^ 63 }
{
    let mut buffer = Buffer::new();
    buffer.format(n).len()
}

/// How many bytes of the text a byte outside strings and remarks is.
fn plain_len(b: u8) -> usize
    ensures { result ≡ length (plain_text b) }
{
    if is_token(b) {
        return keyword(b).len() + 1;
    }
    if is_letter(b) {
        return 2;
    }
    1
}

/// How many bytes of the text a byte of a string is, or the quote that ends it.
fn quoted_len(b: u8) -> usize
    ensures { result ≡ length (quoted_text b) }
{
    if b == b'"' || is_held(b) {
        return 1;
    }
    number_len(u32::from(b)) + 8
}

/// How many bytes of the text a byte of a line is, which is there.
fn text_len(mode: Mode, b: u8) -> usize
    ensures { result ≡ length (byte_text mode b) }
{
    match mode {
        Mode::Plain => plain_len(b),
        Mode::Quoted => quoted_len(b),
        Mode::Remark => 1,
    }
}

/// The byte at a place of the text of a line's bytes.
fn byte_under(bytes: &[u8], place: usize) -> Option<u8>
    ensures { result ≡ byte_under Mode.Plain place bytes.now }
{
    let mut mode = Mode::Plain;
    let mut left = place;
    for b in bytes {
        let size = text_len(mode, *b);
        if left < size {
            return Some(*b);
        }
        left -= size;
        mode = mode.after(*b);
    }
    None
}

/// The byte at a place of a line's text, which begins with the line's number and a space.
fn byte_in_line(number: u32, bytes: &[u8], place: usize) -> Option<u8>
    ensures { result ≡ byte_in_line (record { number = number; bytes = bytes.now }) place }
{
    let front = number_len(number) + 1;
    if place < front {
        return None;
    }
    byte_under(bytes, place - front)
}

/// Returns the byte of a saved program that its script's text has at a place: of this line of the text,
/// from 1, and this byte of the line, from 0. A token is at each place of its keyword and of the space
/// after it. None at the line's number and the space after it, at the line's end, and where no such line
/// is. It reads the file up to that line.
pub fn program_byte(file: &[u8], number: usize, place: usize) -> Option<u8>
    ensures there { (line : Line) → IsLineAt (program_in file.now) number line → result ≡ byte_in_line line place }
    ensures nowhere { ((line : Line) → ¬ IsLineAt (program_in file.now) number line) → result ≡ None }
{
    if number == 0 {
        return None;
    }
    let program = program_in(file);
    if program.len() < 2 {
        return None;
    }
    let mut rest = &program[2..];
    let mut next = 1;
    'lines: loop {
        match front_of(rest) {
            Front::Line {
                number: line,
                bytes,
                rest: more,
            } => {
                if next == number {
                    return byte_in_line(line, bytes, place);
                }
                rest = more;
                next += 1;
            }
            Front::End => return None,
            Front::CutOff => return None,
        }
    }
}
