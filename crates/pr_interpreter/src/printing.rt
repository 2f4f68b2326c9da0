//! How BASIC writes a number.

ghost use Rattle.std.specs.Prelude.{◌≡◌, ◌+◌, ◌-◌, ◌<◌, ◌≤◌, ◌++◌, ◌∷◌, IfOk, OnOk, length};
ghost use Rattle.pr_interpreter.specs.Printing.{decimal_text, digit, digits_text, exponent_text, nine_digits, pointed, significant};

use crate::decimals::{Decimal, Digits};
use std::alloc::{AllocError, Global};

/// Returns the digit of a number that counts a power of ten.
fn digit(n: u32, unit: u32) -> u8
    requires { 0 < unit }
    ensures { result ≡ digit n unit }
{
    b'0' + (n / unit % 10) as u8
}

/// Returns the nine digits of a number.
#[tactic(auto, unfolding(crate::specs::Printing::nine_digits))]
fn nine_digits(n: u32) -> [u8; 9]
    ensures { result ≡ nine_digits n }
{
    [
        digit(n, 100_000_000),
        digit(n, 10_000_000),
        digit(n, 1_000_000),
        digit(n, 100_000),
        digit(n, 10_000),
        digit(n, 1_000),
        digit(n, 100),
        digit(n, 10),
        digit(n, 1),
    ]
}

/// Returns how many digits there are up to the last that is not 0.
#[tactic(auto, using(crate::proofs::PrintingLemmas::significant_none, crate::proofs::PrintingLemmas::significant_more, crate::proofs::PrintingLemmas::significant_same))]
fn significant(digits: &[u8]) -> usize
    ensures value { result ≡ significant digits.now }
    ensures within { result ≤ length digits.now }
{
    let mut count = 0;
    for (i, digit) in digits.iter().enumerate() {
        if *digit != b'0' {
            count = i + 1;
        }
    }
    count
}

/// Adds digits with the point after `whole` of them, without the zeros at the end of the fraction.
#[tactic(auto, unfolding(crate::specs::Printing::pointed))]
fn put_pointed(text: &mut Vec<u8>, digits: &[u8], whole: usize) -> Result<(), AllocError>
    requires { whole ≤ length digits.now }
    ensures { OnOk result (text.new.items ≡ text.old.items ++ pointed whole digits.now) }
{
    let (before, after) = digits.split_at(whole);
    text.extend_from_slice(before)?;
    let count = significant(after);
    if count == 0 {
        return Ok(());
    }
    text.push(b'.')?;
    text.extend_from_slice(&after[..count])
}

/// Adds a power of ten, as `E+09` and `E-04`.
#[tactic(auto, unfolding(crate::specs::Printing::exponent_text))]
fn put_exponent(text: &mut Vec<u8>, negative: bool, power: u32) -> Result<(), AllocError>
    ensures { OnOk result (text.new.items ≡ text.old.items ++ exponent_text negative power) }
{
    let sign = if negative { b'-' } else { b'+' };
    text.extend_from_slice(&[b'E', sign, digit(power, 10), digit(power, 1)])
}

/// Adds nine digits, the last of them at a place: from .01 to below 1000000000 with a point, else with a power of ten.
#[tactic(auto, unfolding(crate::specs::Printing::digits_text))]
fn put_digits(text: &mut Vec<u8>, magnitude: Digits) -> Result<(), AllocError>
    ensures { OnOk result (text.new.items ≡ text.old.items ++ digits_text magnitude) }
{
    let place = magnitude.place;
    if magnitude.digits == 0 {
        text.push(b'0')?;
        return Ok(());
    }
    let digits = nine_digits(magnitude.digits);
    if place < 27 || 37 < place {
        put_pointed(text, &digits, 1)?;
        put_exponent(text, place < 29, u32::from(place.abs_diff(29)))
    } else if place == 27 {
        text.extend_from_slice(b".0")?;
        text.extend_from_slice(&digits[..significant(&digits)])
    } else {
        put_pointed(text, &digits, usize::from(place - 28))
    }
}

/// Adds what BASIC prints of a number: a minus or a blank, and up to nine digits.
#[tactic(auto, unfolding(crate::specs::Printing::decimal_text))]
fn put_decimal(text: &mut Vec<u8>, decimal: Decimal) -> Result<(), AllocError>
    ensures { OnOk result (text.new.items ≡ text.old.items ++ decimal_text decimal) }
{
    text.push(if decimal.negative { b'-' } else { b' ' })?;
    put_digits(text, decimal.magnitude)
}

/// Returns what BASIC prints of a number, as PRINT and STR$ have it: a minus or a blank, and up to nine digits.
///
/// # Errors
///
/// If memory runs out.
pub fn text_of(alloc: Global, decimal: Decimal) -> Result<Vec<u8>, AllocError>
    ensures { IfOk result (λ text. text.items ≡ decimal_text decimal) }
{
    let mut text = Vec::new(alloc);
    put_decimal(&mut text, decimal)?;
    Ok(text)
}
