//! The nine digits that BASIC prints of a number.

ghost use Rattle.std.specs.Prelude.{ℕ, ◌≡◌, ◌+◌, ◌-◌, ◌*◌, ◌/◌, ◌^◌, ◌<◌, ◌≤◌, MatchOption};
ghost use Rattle.pr_interpreter.specs.Spans.{IsShort};
ghost use Rattle.pr_interpreter.specs.Decimals.{HasCommon, HasDigits, IsCount, IsDecimal, IsFirst, next_place, sixteenths, ten_digits};

use crate::number::{Number, Sign};
use crate::span::{Span, power};

/// The place of the ones: places are counted from 10 ^ -37.
pub const ONES: u16 = 37;

/// How many places there are: every value of the machine is below 10 ^ 39.
const PLACES: u16 = 68;

/// From so many sixteenths on, a rounded magnitude has ten digits or more.
const TEN_DIGITS: u128 = 15_999_999_992;

/// From so many sixteenths on, the machine takes one place more.
const NEXT_PLACE: u128 = 15_999_999_985;

/// The digits of a magnitude.
#[derive(Clone, Copy, Debug, PartialEq, Eq)]
pub struct Digits {
    /// The number that they make: nine digits, or 0.
    pub digits: u32,
    /// The place of the last of them: 37 for the ones, 38 for the tens, 36 for the tenths.
    pub place: u16,
}

/// What BASIC prints of a number.
#[derive(Clone, Copy, Debug, PartialEq, Eq)]
pub struct Decimal {
    /// Whether it has a minus.
    pub negative: bool,
    /// Its digits.
    pub magnitude: Digits,
}

/// How many sixteenths of the power of ten at a place a magnitude has.
#[derive(Clone, Copy)]
struct Count {
    place: u16,
    sixteenths: u128,
}

/// Returns 5 ^ `exponent`.
#[tactic(auto, using(crate::proofs::DecimalLemmas::five_fits, crate::proofs::DecimalLemmas::five_pos))]
pub fn five(exponent: u16) -> u128
    requires { exponent ≤ 37 }
    ensures value { result ≡ 5 ^ exponent }
    ensures within { result ≤ 5 ^ 37 }
    ensures positive { 0 < result }
{
    5u128.pow(u32::from(exponent))
}

/// Returns a number with `count` binary digits 0 after it, if it is below 2 ^ 128.
#[tactic(auto, using(crate::proofs::DecimalLemmas::lifted_large))]
fn lifted(n: u128, count: u16) -> Option<u128>
    requires { 0 < n }
    ensures { MatchOption result (2 ^ 128 ≤ n * 2 ^ count) (λ v. v ≡ n * 2 ^ count) }
{
    if count <= 127 {
        n.checked_mul(power(u32::from(count)))
    } else {
        None
    }
}

/// Returns the whole part of a number times 2 ^ `up` over 2 ^ `down`, if it is below 2 ^ 128.
#[tactic(auto, using(crate::proofs::WholeLemmas::floor_up, crate::proofs::DecimalLemmas::shifted_down, crate::proofs::DecimalLemmas::shifted_nothing))]
fn shifted(n: u128, up: u16, down: u16) -> Option<u128>
    requires { n ≤ 2 ^ 126 }
    ensures { MatchOption result (2 ^ 128 ≤ n * 2 ^ up / 2 ^ down) (λ v. v ≡ n * 2 ^ up / 2 ^ down) }
{
    if up <= down {
        Some(n >> (down - up).min(127))
    } else if n == 0 {
        Some(0)
    } else {
        lifted(n, up - down)
    }
}

/// Returns how many sixteenths of the power of ten at a place are in a magnitude; None if far too many.
#[tactic(auto, using(crate::proofs::DecimalLemmas::product_fits, crate::proofs::DecimalLemmas::sixteenths_found, crate::proofs::DecimalLemmas::sixteenths_large))]
fn sixteenths(end: u128, scale: u16, place: u16) -> Option<u128>
    requires end { end ≤ 2 ^ 40 }
    requires scale { scale ≤ 383 }
    requires place { place ≤ 67 }
    ensures { MatchOption result (ten_digits ≤ sixteenths place (end * 2 ^ scale)) (λ n. n ≡ sixteenths place (end * 2 ^ scale)) }
{
    let product = end * five(ONES.saturating_sub(place));
    match shifted(product, scale + 41, place + 256) {
        Some(n) => Some(n / five(place.saturating_sub(ONES))),
        None => None,
    }
}

/// Returns how many sixteenths of the power of ten at a place are in a magnitude that has at most nine digits there.
fn count_at(end: u128, scale: u16, place: u16) -> Option<Count>
    requires end { end ≤ 2 ^ 40 }
    requires scale { scale ≤ 383 }
    requires place { place ≤ 67 }
    ensures { MatchOption result (ten_digits ≤ sixteenths place (end * 2 ^ scale)) (λ c. IsCount (end * 2 ^ scale) place c.place c.sixteenths) }
{
    match sixteenths(end, scale, place) {
        Some(sixteenths) => {
            if sixteenths < TEN_DIGITS {
                Some(Count { place, sixteenths })
            } else {
                None
            }
        }
        None => None,
    }
}

/// Returns the first place where a magnitude has at most nine digits.
fn first_count(end: u128, scale: u16) -> Option<Count>
    requires end { end ≤ 2 ^ 40 }
    requires scale { scale ≤ 383 }
    ensures { MatchOption result ((p : ℕ) → p < 68 → ten_digits ≤ sixteenths p (end * 2 ^ scale)) (λ c. IsFirst (end * 2 ^ scale) c.place c.sixteenths) }
{
    for place in 0..PLACES {
        if let Some(count) = count_at(end, scale, place) {
            return Some(count);
        }
    }
    None
}

/// Returns the digits of a magnitude.
#[tactic(auto, using(crate::proofs::DecimalLemmas::digits_are, crate::proofs::DecimalLemmas::none_without_place, crate::proofs::DecimalLemmas::none_between))]
fn digits_of(end: u128, scale: u16) -> Option<Digits>
    requires end { end ≤ 2 ^ 40 }
    requires scale { scale ≤ 383 }
    ensures { MatchOption result ((d : Digits) → HasDigits (end * 2 ^ scale) d → ⊥) (λ d. HasDigits (end * 2 ^ scale) d) }
{
    match first_count(end, scale) {
        Some(count) => {
            if count.sixteenths < NEXT_PLACE {
                Some(Digits {
                    digits: ((count.sixteenths + 8) / 16) as u32,
                    place: count.place,
                })
            } else {
                None
            }
        }
        None => None,
    }
}

/// Returns the digits that both ends of a span have.
#[tactic(auto, using(crate::proofs::DecimalLemmas::one_place, crate::proofs::DecimalLemmas::one_number))]
fn common_digits(span: Span) -> Option<Digits>
    requires { IsShort span }
    ensures { MatchOption result ((d : Digits) → HasCommon span d → ⊥) (λ d. HasCommon span d) }
{
    match digits_of(span.low, span.scale) {
        Some(low) => match digits_of(span.high, span.scale) {
            Some(high) => {
                if low.place == high.place && low.digits == high.digits {
                    Some(low)
                } else {
                    None
                }
            }
            None => None,
        },
        None => None,
    }
}

/// Returns what BASIC prints of a number: its sign, and its value rounded to nine digits; None where it is not
/// the same for all values that the number stands for, or below 10 ^ -28.
pub fn decimal_of(number: Number) -> Option<Decimal>
    ensures { MatchOption result ((d : Decimal) → IsDecimal number d → ⊥) (λ d. IsDecimal number d) }
{
    let span = number.span();
    match common_digits(span) {
        Some(magnitude) => {
            if span.high == 0 {
                Some(Decimal {
                    negative: false,
                    magnitude,
                })
            } else if magnitude.place == 0 {
                None
            } else {
                match number.sign() {
                    Sign::Plus => Some(Decimal {
                        negative: false,
                        magnitude,
                    }),
                    Sign::Minus => Some(Decimal {
                        negative: true,
                        magnitude,
                    }),
                    Sign::Either => None,
                }
            }
        }
        None => None,
    }
}
