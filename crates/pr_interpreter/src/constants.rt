//! Decimal constants.

ghost use Rattle.std.specs.Prelude.{◌≡◌, ◌+◌, ◌-◌, ◌*◌, ◌/◌, ◌^◌, ◌<◌, ◌≤◌};
ghost use Rattle.pr_interpreter.specs.Spans.{IsWide};
ghost use Rattle.pr_interpreter.specs.Constants.{error_after, exponent_of, over_ten, scaled_span, times_ten, value_of};

use crate::decimals::five;
use crate::fault::NumberFault;
use crate::number::{Number, Sign, VALUE_DIGITS, signed};
use crate::span::{Span, answer, bit_length, raised};

/// A power of ten that the digits of a constant are multiplied or divided by.
#[derive(Clone, Copy, Debug, PartialEq, Eq)]
pub enum Tens {
    /// Times ten to this power.
    Times(u16),
    /// Over ten to this power.
    Over(u16),
}

/// A decimal constant.
#[derive(Clone, Copy, Debug, PartialEq, Eq)]
pub struct Constant {
    /// The number that its first digits make.
    pub digits: u32,
    /// Whether further digits follow: the number is then up to one more.
    pub more: bool,
    /// What the number is multiplied or divided by.
    pub tens: Tens,
    /// How often the machine may round while it reads the constant: once for each multiplication and division by ten,
    /// and twice for each further digit.
    pub roundings: u16,
    /// Whether it is digits alone, without a point and an exponent.
    pub plain: bool,
}

/// Returns the exponent of a power of ten.
fn exponent_of(tens: Tens) -> u16
    ensures { result ≡ exponent_of tens }
{
    match tens {
        Tens::Times(n) => n,
        Tens::Over(n) => n,
    }
}

/// Returns the magnitudes from `low` to `high` times 10 ^ `n`.
#[tactic(auto, using(crate::proofs::ConstantLemmas::times_fits, crate::proofs::ConstantLemmas::times_ordered))]
fn times_ten(n: u16, low: u128, high: u128) -> Span
    requires n { n ≤ 37 }
    requires ordered { low ≤ high }
    requires small { high ≤ 2 ^ 33 }
    ensures value { result ≡ times_ten n low high }
    ensures wide { IsWide result }
    ensures scale { result.scale ≤ 800 }
{
    let power = five(n);
    Span {
        low: low * power,
        high: high * power,
        scale: 256 + n,
    }
}

/// Returns the magnitudes from `low` to `high` over 10 ^ `n`, rounded outward.
#[tactic(auto, using(crate::proofs::ConstantLemmas::over_ordered, crate::proofs::ConstantLemmas::over_fits))]
fn over_ten(n: u16, low: u128, high: u128) -> Span
    requires n { n ≤ 37 }
    requires ordered { low ≤ high }
    requires small { high ≤ 2 ^ 33 }
    ensures value { result ≡ over_ten n low high }
    ensures wide { IsWide result }
    ensures scale { result.scale ≤ 800 }
{
    let power = five(n);
    Span {
        low: raised(low, 86) / power,
        high: (raised(high, 86) + (power - 1)) / power,
        scale: 170 - n,
    }
}

/// Returns the magnitudes from `low` to `high`, multiplied or divided by a power of ten.
fn scaled_span(tens: Tens, low: u128, high: u128) -> Span
    requires power { exponent_of tens ≤ 37 }
    requires ordered { low ≤ high }
    requires small { high ≤ 2 ^ 33 }
    ensures value { result ≡ scaled_span tens low high }
    ensures wide { IsWide result }
    ensures scale { result.scale ≤ 800 }
{
    match tens {
        Tens::Times(n) => times_ten(n, low, high),
        Tens::Over(n) => over_ten(n, low, high),
    }
}

/// Returns how exact so many roundings are, each to one part in 2 ^ 32: to one part in 2 ^ result.
#[tactic(auto, unfolding(crate::specs::Constants::error_after))]
fn error_after(roundings: u16) -> u16
    ensures value { result ≡ error_after roundings }
    ensures within { result ≤ 32 }
{
    32u32.saturating_sub(bit_length(u128::from(roundings.saturating_sub(1)))) as u16
}

/// Returns the value of a decimal constant, exactly where it has 32 binary digits.
///
/// # Errors
///
/// `NotCertain` with a power of ten above 10 ^ 37; else as for a product.
#[tactic(auto, unfolding(crate::specs::Constants::value_of))]
pub fn value_of(constant: Constant) -> Result<Number, NumberFault>
    ensures { result ≡ value_of constant }
{
    let low = u128::from(constant.digits);
    let high = low + u128::from(constant.more);
    if exponent_of(constant.tens) <= 37 {
        let span = scaled_span(constant.tens, low, high);
        let error = error_after(constant.roundings);
        signed(Sign::Plus, answer(span, VALUE_DIGITS, error))
    } else {
        Err(NumberFault::NotCertain)
    }
}
