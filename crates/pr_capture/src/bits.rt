//! A bit of a signal of more bits, by the names of both.

ghost use Rattle.std.specs.Prelude.{◌≡◌, ◌+◌, Some, drop};
ghost use Rattle.pr_capture.specs.VcdReading.{behind_colon, bit_in, bracket_in, extended, index_in, is_sign_alone, level_at, place_between, place_in};

use crate::numbers::{behind_digits, first_of, number_in};
use crate::paths::has_path;

/// The place of the last `[`, or the text's end.
fn bracket_in(text: &[u8]) -> usize
    ensures { result ≡ bracket_in text.now }
{
    let mut found = text.len();
    for (i, b) in text.iter().enumerate() {
        if *b == b'[' {
            found = i;
        }
    }
    found
}

/// What follows the last `[`.
fn behind_bracket(text: &[u8]) -> &[u8]
    ensures { result.now ≡ drop (bracket_in text.now + 1) text.now }
{
    let place = bracket_in(text);
    if place < text.len() {
        &text[place + 1..]
    } else {
        &[]
    }
}

/// Whether a text is this one sign.
fn is_sign_alone(sign: u8, text: &[u8]) -> bool
    ensures { result ≡ is_sign_alone sign text.now }
{
    match text {
        [b] => *b == sign,
        _ => false,
    }
}

/// The index of a bit, with its bracket, as in `0]`.
fn index_in(text: &[u8]) -> Option<u64>
    ensures { result ≡ index_in text.now }
{
    if is_sign_alone(b']', behind_digits(text)) {
        number_in(text)
    } else {
        None
    }
}

/// What follows a colon, if one is in front.
fn behind_colon(text: &[u8]) -> &[u8]
    ensures { result.now ≡ behind_colon text.now }
{
    match text {
        [] => &[],
        [b, rest @ ..] => { if *b == b':' { rest } else { &[] } }
    }
}

/// How many bits are on the right of the one with an index, where the leftmost and the rightmost have
/// these.
fn place_between(left: u64, right: u64, index: u64) -> Option<u64>
    ensures { result ≡ place_between left right index }
{
    if right <= index && index <= left {
        Some(index - right)
    } else if left <= index && index <= right {
        Some(right - index)
    } else {
        None
    }
}

/// The same of a range, as in `2:0]`.
fn place_in(range: &[u8], index: Option<u64>) -> Option<u64>
    ensures { result ≡ place_in range.now index }
{
    let left = number_in(range)?;
    let right = index_in(behind_colon(behind_digits(range)))?;
    place_between(left, right, index?)
}

/// Which bit of a signal with a path is wanted: how many bits are on its right. The wanted name ends
/// with an index, and the path with a range.
pub fn bit_in(wanted: &[u8], path: &[u8]) -> Option<u64>
    ensures { result ≡ bit_in wanted.now path.now }
{
    if has_path(
        first_of(wanted, bracket_in(wanted)),
        first_of(path, bracket_in(path)),
    ) {
        place_in(behind_bracket(path), index_in(behind_bracket(wanted)))
    } else {
        None
    }
}

/// The level that stands for the bits that lack on the left: that of the leftmost, but for 1.
fn extended(bits: &[u8]) -> Option<u8>
    ensures { result ≡ extended bits.now }
{
    match bits {
        [] => None,
        [b, ..] => { if *b == b'1' { Some(b'0') } else { Some(*b) } }
    }
}

/// The level of the bit with this many on its right.
fn level_of_bit(right: u64, bits: &[u8]) -> Option<u8>
    ensures { result ≡ level_at (Some right) bits.now }
{
    match usize::try_from(right) {
        Ok(right) => {
            if right < bits.len() {
                Some(bits[bits.len() - 1 - right])
            } else {
                extended(bits)
            }
        }
        Err(_) => extended(bits),
    }
}

/// The level of a bit among bits; a signal of one bit has one.
pub fn level_at(bit: Option<u64>, bits: &[u8]) -> Option<u8>
    ensures { result ≡ level_at bit bits.now }
{
    match bit {
        None => match bits {
            [b] => Some(*b),
            _ => None,
        },
        Some(right) => level_of_bit(right, bits),
    }
}
