//! Decimal constants in a line.

ghost use Rattle.std.specs.Prelude.{◌≡◌, ◌-◌, ◌^◌, ◌<◌, ◌≤◌, ◌+◌, length, IfSome};
ghost use Rattle.pr_interpreter.specs.Numerals.{after_code, constant_of, digits_size, exponent_after, exponent_of, exponent_value, has_room, next_exponent, no_digits, numeral, numeral_size, scalings, sign_size, tens, with_digit};

use crate::constants::{Constant, Tens};
use crate::symbols::{Symbol, first_code};
use pr_base::is_digit;

/// From this number on, one more digit might not fit 32 bits.
const ROOM: u32 = 429_496_729;

/// The token of the sign of an exponent.
const PLUS: u8 = 170;

/// The same, for a negative one.
const MINUS: u8 = 171;

/// The digits of a constant so far.
#[derive(Clone, Copy)]
pub struct Numeral {
    /// The number that the first digits make.
    pub digits: u32,
    /// Whether one of the further digits is not 0.
    pub more: bool,
    /// How many further digits follow.
    pub further: usize,
    /// How many of all digits are after the point.
    pub decimals: usize,
    /// Whether there is a point.
    pub point: bool,
}

/// The exponent of a constant, and how many symbols it has.
#[derive(Clone, Copy)]
pub struct Exponent {
    pub negative: bool,
    /// At most 100, which stands for all greater ones.
    pub value: u16,
    pub size: usize,
}

/// Returns whether one more digit can be kept.
fn has_room(numeral: Numeral) -> bool
    ensures { result ≡ has_room numeral }
{
    numeral.further == 0 && numeral.digits < ROOM
}

/// Returns a numeral with one more digit.
#[tactic(auto, unfolding(crate::specs::Numerals::with_digit))]
fn with_digit(numeral: Numeral, digit: u8) -> Numeral
    requires digit { digit ≤ 9 }
    requires further { numeral.further < 2 ^ 63 }
    requires decimals { numeral.decimals < 2 ^ 63 }
    ensures { result ≡ with_digit numeral digit }
{
    let decimals = if numeral.point {
        numeral.decimals + 1
    } else {
        numeral.decimals
    };
    if has_room(numeral) {
        Numeral {
            digits: numeral.digits * 10 + u32::from(digit),
            more: numeral.more,
            further: numeral.further,
            decimals,
            point: numeral.point,
        }
    } else {
        Numeral {
            digits: numeral.digits,
            more: numeral.more || digit != 0,
            further: numeral.further + 1,
            decimals,
            point: numeral.point,
        }
    }
}

/// Returns a numeral with one more symbol; none if the symbol belongs to no numeral.
#[tactic(auto, unfolding(crate::specs::Numerals::after_code, crate::specs::Numerals::with_digit))]
fn after_code(numeral: Numeral, code: u8) -> Option<Numeral>
    requires further { numeral.further < 2 ^ 63 }
    requires decimals { numeral.decimals < 2 ^ 63 }
    ensures value { result ≡ after_code numeral code }
    ensures further { IfSome result (λ more. more.further ≤ numeral.further + 1) }
    ensures decimals { IfSome result (λ more. more.decimals ≤ numeral.decimals + 1) }
{
    if is_digit(code) {
        return Some(with_digit(numeral, code - b'0'));
    }
    if code == b'.' && !numeral.point {
        return Some(Numeral {
            point: true,
            ..numeral
        });
    }
    None
}

/// Returns the numeral at the front of symbols, and how many symbols it has.
pub fn numeral_of(symbols: &[Symbol]) -> (Numeral, usize)
    ensures numeral { result.0 ≡ numeral no_digits symbols.now }
    ensures size { result.1 ≡ numeral_size no_digits symbols.now }
    ensures within { result.1 ≤ length symbols.now }
    ensures further { result.0.further ≤ result.1 }
    ensures decimals { result.0.decimals ≤ result.1 }
{
    let mut read = Numeral {
        digits: 0,
        more: false,
        further: 0,
        decimals: 0,
        point: false,
    };
    for (i, symbol) in symbols.iter().enumerate() {
        match after_code(read, symbol.code()) {
            Some(more) => read = more,
            None => return (read, i),
        }
    }
    (read, symbols.len())
}

/// Returns how many symbols at the front are digits.
fn digits_size(symbols: &[Symbol]) -> usize
    ensures value { result ≡ digits_size symbols.now }
    ensures within { result ≤ length symbols.now }
{
    for (i, symbol) in symbols.iter().enumerate() {
        if !is_digit(symbol.code()) {
            return i;
        }
    }
    symbols.len()
}

/// Returns an exponent with one more digit: of three digits and more it is 100.
fn next_exponent(exponent: u16, code: u8) -> u16
    ensures value { result ≡ next_exponent exponent code }
    ensures small { result ≤ 1000 }
{
    if exponent < 10 {
        exponent * 10 + u16::from(code.saturating_sub(b'0'))
    } else {
        100
    }
}

/// Returns the exponent that digits make, at most 100.
fn exponent_value(digits: &[Symbol]) -> u16
    ensures value { result ≡ exponent_value 0 digits.now }
    ensures small { result ≤ 1000 }
{
    let mut value = 0;
    for digit in digits {
        value = next_exponent(value, digit.code());
    }
    value
}

/// Returns how many symbols at the front are the sign of an exponent.
fn sign_size(symbols: &[Symbol]) -> usize
    ensures value { result ≡ sign_size symbols.now }
    ensures within { result ≤ length symbols.now }
{
    match first_code(symbols) {
        PLUS | MINUS => 1,
        _ => 0,
    }
}

/// Returns the exponent after E.
#[tactic(auto, unfolding(crate::specs::Numerals::exponent_after))]
fn exponent_after(symbols: &[Symbol]) -> Exponent
    ensures value { result ≡ exponent_after symbols.now }
    ensures within { result.size ≤ length symbols.now + 1 }
    ensures small { result.value ≤ 1000 }
{
    let sign = sign_size(symbols);
    let digits = &symbols[sign..];
    let size = digits_size(digits);
    Exponent {
        negative: first_code(symbols) == MINUS,
        value: exponent_value(&digits[..size]),
        size: 1 + sign + size,
    }
}

/// Returns the exponent at the front of symbols; it is 0 if there is none.
#[tactic(auto, unfolding(crate::specs::Numerals::exponent_of))]
pub fn exponent_of(symbols: &[Symbol]) -> Exponent
    ensures value { result ≡ exponent_of symbols.now }
    ensures within { result.size ≤ length symbols.now }
    ensures small { result.value ≤ 1000 }
{
    if first_code(symbols) == b'E' {
        exponent_after(&symbols[1..])
    } else {
        Exponent {
            negative: false,
            value: 0,
            size: 0,
        }
    }
}

/// Returns the power of ten that is up some places and down others.
fn tens(up: u16, down: u16) -> Tens
    ensures { result ≡ tens up down }
{
    if down <= up {
        Tens::Times(up - down)
    } else {
        Tens::Over(down - up)
    }
}

/// Returns how often the machine multiplies and divides by ten after the digits.
fn scalings(up: u16, down: u16) -> u16
    requires up { up ≤ 2000 }
    requires down { down ≤ 2000 }
    ensures value { result ≡ scalings up down }
    ensures within { result ≤ 4000 }
{
    up.saturating_sub(down) + down.saturating_sub(up)
}

/// Returns the constant that a numeral and an exponent make.
#[tactic(auto, unfolding(crate::specs::Numerals::constant_of))]
pub fn constant_of(numeral: Numeral, exponent: Exponent) -> Constant
    requires further { numeral.further ≤ 255 }
    requires decimals { numeral.decimals ≤ 255 }
    requires exponent { exponent.value ≤ 1000 }
    ensures { result ≡ constant_of numeral exponent }
{
    let further = numeral.further as u16;
    let decimals = numeral.decimals as u16;
    let (up, down) = if exponent.negative {
        (0, decimals + exponent.value)
    } else {
        (exponent.value, decimals)
    };
    Constant {
        digits: numeral.digits,
        more: numeral.more,
        tens: tens(up + further, down),
        roundings: scalings(up, down) + 2 * further,
        plain: !numeral.point && exponent.size == 0,
    }
}
