//! Numbers in a recording, and words in it.

ghost use Rattle.std.specs.Prelude.{◌≡◌, ◌≤◌, length, option_copied, take, drop, IfSome};
ghost use Rattle.std.specs.List.{list_all};
ghost use Rattle.pr_capture.specs.CsvSteps.{digits_ahead};
ghost use Rattle.pr_capture.specs.TableTimes.{is_in_unit};
ghost use Rattle.pr_capture.specs.Numbers.{are_some, behind_decimals, behind_digits, behind_word, decimals_in, digits_in, is_letter, is_sign, number_from, number_in, number_of_first, spells, with_zeros, without_signs};

use crate::signals::behind_letter;
use pr_base::{digit_count, is_digit};

/// The number that digits spell after those that spell another, as long as it is below 2^64.
pub fn number_from(front: u64, digits: &[u8]) -> Option<u64>
    ensures { result ≡ number_from front digits.now }
{
    let mut number = front;
    for digit in digits {
        let tens = number.checked_mul(10)?;
        number = tens.checked_add(u64::from(digit.saturating_sub(b'0')))?;
    }
    Some(number)
}

/// Digits in front of a text.
#[derive(Clone, Copy)]
pub struct Digits {
    /// How many they are.
    pub len: usize,
    /// The number that they spell, which is 0 where there are none.
    pub number: u64,
}

/// The digits in front of a text with the number that they spell, as long as it is below 2^64.
#[inline(always)]
pub fn digits_ahead(text: &[u8]) -> Option<Digits>
    ensures digits { result ≡ digits_ahead text.now }
    ensures within { IfSome result (λ d. d.len ≤ length text.now) }
{
    let mut number: u64 = 0;
    for (i, b) in text.iter().enumerate() {
        if !is_digit(*b) {
            return Some(Digits { len: i, number });
        }
        let tens = number.checked_mul(10)?;
        number = tens.checked_add(u64::from(*b - b'0'))?;
    }
    Some(Digits {
        len: text.len(),
        number,
    })
}

/// The number of another and this many zeros after it.
pub fn with_zeros(count: usize, front: u64) -> Option<u64>
    ensures { result ≡ with_zeros count front }
{
    let mut number = front;
    let mut left = count;
    while left > 0 {
        number = number_from(number, b"0")?;
        left -= 1;
    }
    Some(number)
}

/// The first `count` bytes, or all where they are fewer.
pub fn first_of(bytes: &[u8], count: usize) -> &[u8]
    ensures { result.now ≡ take count bytes.now }
{
    if count < bytes.len() {
        &bytes[..count]
    } else {
        bytes
    }
}

/// What follows the first `count` bytes.
pub fn behind_first(bytes: &[u8], count: usize) -> &[u8]
    ensures behind { result.now ≡ drop count bytes.now }
    ensures within { length result.now ≤ length bytes.now }
{
    if count < bytes.len() {
        &bytes[count..]
    } else {
        &[]
    }
}

/// The number that the first `count` digits spell, after those that spell another; missing digits
/// are zeros.
pub fn number_of_first(front: u64, count: usize, digits: &[u8]) -> Option<u64>
    ensures { result ≡ number_of_first front count digits.now }
{
    let number = number_from(front, first_of(digits, count))?;
    with_zeros(count.saturating_sub(digits.len()), number)
}

/// Whether one of these digits is no zero.
pub fn are_some(digits: &[u8]) -> bool
    ensures { result ≡ are_some digits.now }
{
    for digit in digits {
        if *digit != b'0' {
            return true;
        }
    }
    false
}

/// Whether a byte is a letter from A to Z, in either case.
fn is_letter(b: u8) -> bool
    ensures { result ≡ is_letter b }
{
    (b >= b'A' && b <= b'Z') || (b >= b'a' && b <= b'z')
}

/// Whether a byte may stand in the unit of a rate: a letter, a space or a slash.
fn is_in_unit(b: u8) -> bool
    ensures { result ≡ is_in_unit b }
{
    is_letter(b) || b == b' ' || b == b'/'
}

/// Whether these bytes all may.
pub fn are_in_units(bytes: &[u8]) -> bool
    ensures { result ≡ list_all is_in_unit bytes.now }
{
    for b in bytes {
        if !is_in_unit(*b) {
            return false;
        }
    }
    true
}

/// Whether a byte does not count in words: it is no letter, no digit and not above 127.
pub fn is_sign(b: u8) -> bool
    ensures { result ≡ is_sign b }
{
    b < 128 && !(is_digit(b) || is_letter(b))
}

/// Whether nothing is here that counts in words.
pub fn are_signs(bytes: &[u8]) -> bool
    ensures { result ≡ list_all is_sign bytes.now }
{
    for b in bytes {
        if !is_sign(*b) {
            return false;
        }
    }
    true
}

/// What follows the bytes in front that do not count in words.
pub fn without_signs(bytes: &[u8]) -> &[u8]
    ensures { result.now ≡ without_signs bytes.now }
{
    for (i, b) in bytes.iter().enumerate() {
        if !is_sign(*b) {
            return &bytes[i..];
        }
    }
    &[]
}

/// What follows a word, if a text begins with it.
pub fn behind_word<'t>(word: &[u8], text: &'t [u8]) -> Option<&'t [u8]>
    ensures { option_copied result ≡ behind_word word.now text.now }
{
    let mut left = text;
    for letter in word {
        left = behind_letter(*letter, without_signs(left))?;
    }
    Some(left)
}

/// Whether a text is a word.
pub fn spells(word: &[u8], text: &[u8]) -> bool
    ensures { result ≡ spells word.now text.now }
{
    match behind_word(word, text) {
        None => false,
        Some(rest) => are_signs(rest),
    }
}

/// The digits in front of a text.
pub fn digits_in(text: &[u8]) -> &[u8]
    ensures { result.now ≡ digits_in text.now }
{
    &text[..digit_count(text)]
}

/// What follows the digits in front of a text.
pub fn behind_digits(text: &[u8]) -> &[u8]
    ensures { result.now ≡ behind_digits text.now }
{
    &text[digit_count(text)..]
}

/// The number in front of a text, if digits are there.
pub fn number_in(text: &[u8]) -> Option<u64>
    ensures { result ≡ number_in text.now }
{
    let digits = digits_in(text);
    if digits.is_empty() {
        return None;
    }
    number_from(0, digits)
}

/// The digits after a point, if one is here.
pub fn decimals_in(text: &[u8]) -> &[u8]
    ensures { result.now ≡ decimals_in text.now }
{
    match text {
        [b'.', rest @ ..] => digits_in(rest),
        _ => &[],
    }
}

/// What follows them.
pub fn behind_decimals(text: &[u8]) -> &[u8]
    ensures { result.now ≡ behind_decimals text.now }
{
    match text {
        [b'.', rest @ ..] => behind_digits(rest),
        _ => text,
    }
}
