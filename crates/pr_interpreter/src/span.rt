//! Spans of magnitudes, and the span of what the machine may answer.

ghost use Rattle.std.specs.Prelude.{◌≡◌, ◌+◌, ◌-◌, ◌*◌, ◌%◌, ◌^◌, ◌<◌, ◌≤◌, ◌==◌, IfOk};
ghost use Rattle.pr_interpreter.specs.Spans.{IsShort, IsWide, answer, around, bit_length, drop_digits, end_digits, has_form, in_range, is_in_range, is_too_large, shorten, widen};

use crate::fault::NumberFault;

/// How many binary digits the ends of an answer have.
pub const END_DIGITS: u32 = 40;

/// The magnitudes from `low` to `high`, counted in 2 ^ `scale` units of 2 ^ -256.
#[derive(Clone, Copy, Debug)]
pub struct Span {
    /// The least magnitude.
    pub low: u128,
    /// The greatest magnitude.
    pub high: u128,
    /// The power of 2 that both are multiplied by, as a number of units.
    pub scale: u16,
}

/// Returns 2 ^ `exponent`.
pub fn power(exponent: u32) -> u128
    requires { exponent ≤ 127 }
    ensures { result ≡ 2 ^ exponent }
{
    1 << exponent
}

/// Returns an end of an answer, multiplied by 2 ^ `count`.
#[tactic(auto, using(crate::proofs::BitLemmas::raise_fits))]
pub fn raised(end: u128, count: u32) -> u128
    requires short { end ≤ 2 ^ 40 }
    requires count { count ≤ 86 }
    ensures { result ≡ end * 2 ^ count }
{
    end * power(count)
}

/// Returns how many binary digits a number has.
#[tactic(auto, unfolding(crate::specs::Spans::bit_length))]
pub fn bit_length(n: u128) -> u32
    ensures length { result ≡ bit_length n }
    ensures within { result ≤ 128 }
{
    128 - n.leading_zeros()
}

/// Drops the last `count` binary digits of both ends, outward.
#[tactic(auto, unfolding(crate::specs::Spans::drop_digits))]
pub fn drop_digits(span: Span, count: u32) -> Span
    requires wide { IsWide span }
    requires count { count ≤ 127 }
    ensures { result ≡ drop_digits count span }
{
    Span {
        low: span.low >> count,
        high: (span.high + (power(count) - 1)) >> count,
        scale: span.scale + count as u16,
    }
}

/// Rounds both ends outward to `digits` binary digits.
#[tactic(auto, unfolding(crate::specs::Spans::shorten), using(crate::proofs::BitLemmas::excess_within))]
pub fn shorten(span: Span, digits: u32) -> Span
    requires { IsWide span }
    ensures { result ≡ shorten digits span }
{
    drop_digits(span, bit_length(span.high).saturating_sub(digits))
}

/// Adds one part in 2 ^ `error` at both ends.
#[tactic(auto, unfolding(crate::specs::Spans::widen))]
fn widen(span: Span, error: u16) -> Span
    requires error { error ≤ 32 }
    requires scale { error ≤ span.scale }
    requires ordered { span.low ≤ span.high }
    requires short { span.high ≤ 2 ^ 40 }
    ensures { result ≡ widen error span }
{
    let unit = power(u32::from(error));
    Span {
        low: span.low * (unit - 1),
        high: span.high * (unit + 1),
        scale: span.scale - error,
    }
}

/// Returns whether the machine can hold each magnitude of a span.
#[tactic(auto, unfolding(crate::specs::Spans::is_in_range))]
fn is_in_range(span: &Span) -> bool
    ensures { result ≡ is_in_range span.now }
{
    let scale = u32::from(span.scale);
    bit_length(span.high) + scale <= 383 && (span.low == 0 || 128 < bit_length(span.low) + scale)
}

/// Returns whether the machine can hold no magnitude of a span, since each is too large.
#[tactic(auto, unfolding(crate::specs::Spans::is_too_large))]
fn is_too_large(span: &Span) -> bool
    ensures { result ≡ is_too_large span.now }
{
    0 < span.low && 383 < bit_length(span.low) + u32::from(span.scale)
}

/// Returns the span if the machine can hold it.
#[tactic(auto, unfolding(crate::specs::Spans::in_range))]
pub fn in_range(span: Span) -> Result<Span, NumberFault>
    ensures { result ≡ in_range span }
{
    if is_in_range(&span) {
        Ok(span)
    } else if is_too_large(&span) {
        Err(NumberFault::Overflow)
    } else {
        Err(NumberFault::NotCertain)
    }
}

/// Returns what may be answered near the magnitudes of a span.
#[tactic(auto, unfolding(crate::specs::Spans::around), using(crate::proofs::BitLemmas::widened_wide))]
pub fn around(span: Span, error: u16) -> Result<Span, NumberFault>
    requires error { error ≤ 32 }
    requires ordered { span.low ≤ span.high }
    requires short { span.high ≤ 2 ^ 40 }
    requires scale { span.scale ≤ 1000 }
    ensures { result ≡ around error span }
{
    if error <= span.scale {
        in_range(shorten(widen(span, error), END_DIGITS))
    } else {
        Err(NumberFault::NotCertain)
    }
}

/// Returns whether the last `count` binary digits of a number are 0.
fn ends_in_zeros(n: u128, count: u32) -> bool
    requires { count ≤ 127 }
    ensures { result ≡ ((n % 2 ^ count) == 0) }
{
    n & (power(count) - 1) == 0
}

/// Returns whether a span is one magnitude of at most `digits` binary digits beside those that are 0 at
/// its end.
#[tactic(auto, unfolding(crate::specs::Spans::has_form), using(crate::proofs::BitLemmas::excess_within))]
fn has_form(span: &Span, digits: u32) -> bool
    requires { span.now.high < 2 ^ 127 }
    ensures { result ≡ has_form digits span.now }
{
    span.low == span.high && ends_in_zeros(span.high, bit_length(span.high).saturating_sub(digits))
}

/// Returns what the machine may answer where the exact magnitude is in a span.
#[tactic(auto, unfolding(crate::specs::Spans::answer), using(crate::proofs::SpanLemmas::shorten_bounds))]
pub fn answer(span: Span, digits: u32, error: u16) -> Result<Span, NumberFault>
    requires wide { IsWide span }
    requires scale { span.scale ≤ 800 }
    requires digits { digits ≤ 40 }
    requires error { error ≤ 32 }
    ensures value { result ≡ answer digits error span }
    ensures short { IfOk result IsShort }
{
    if has_form(&span, digits) {
        in_range(shorten(span, digits))
    } else {
        around(shorten(span, END_DIGITS), error)
    }
}
