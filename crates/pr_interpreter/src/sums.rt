//! Sums of numbers.

ghost use Rattle.std.specs.Prelude.{◌≡◌, ◌+◌, ◌-◌, ◌*◌, ◌^◌, ◌<◌, ◌≤◌};
ghost use Rattle.pr_interpreter.specs.Spans.{IsAligned, IsShort, IsWide};
ghost use Rattle.pr_interpreter.specs.Numbers.{aligned, apart, beside, exact_sum, larger_sign, lowered, settled, sum, sum_sign, sum_span, together};

use crate::fault::NumberFault;
use crate::number::{ERROR, Number, Sign, VALUE_DIGITS, signed};
use crate::span::{Span, answer, raised};

/// Returns a span of which only the size counts, if it is far below a scale; else as it is.
fn settled(top: u16, span: Span) -> Span
    requires short { IsShort span }
    requires top { top ≤ 383 }
    ensures { result ≡ settled top span }
{
    if span.scale + 85 < top {
        Span {
            low: 0,
            high: 1,
            scale: top - 40,
        }
    } else {
        span
    }
}

/// Returns a span at a scale that is not above its own.
fn lowered(base: u16, span: Span) -> Span
    requires short { IsShort span }
    requires base { base ≤ span.scale }
    requires near { span.scale - base ≤ 85 }
    ensures { result ≡ lowered base span }
{
    let count = u32::from(span.scale - base);
    Span {
        low: raised(span.low, count),
        high: raised(span.high, count),
        scale: base,
    }
}

/// Returns the first span of a sum, at the scale that both spans can have.
#[tactic(auto, unfolding(crate::specs::Numbers::aligned), using(crate::proofs::SumLemmas::settled_short, crate::proofs::SumLemmas::settled_near, crate::proofs::SumLemmas::aligned_fits))]
fn aligned(x: Span, y: Span) -> Span
    requires x { IsShort x }
    requires y { IsShort y }
    ensures value { result ≡ aligned x y }
    ensures wide { IsAligned result }
{
    let first = settled(y.scale, x);
    let second = settled(x.scale, y);
    lowered(first.scale.min(second.scale), first)
}

/// Returns the sums of magnitudes of one sign.
fn together(x: Span, y: Span) -> Span
    requires x { IsAligned x }
    requires y { IsAligned y }
    ensures { result ≡ together x y }
{
    Span {
        low: x.low + y.low,
        high: x.high + y.high,
        scale: x.scale,
    }
}

/// Returns the sums of magnitudes of two signs.
fn apart(x: Span, y: Span) -> Span
    requires x { IsAligned x }
    requires y { IsAligned y }
    ensures { result ≡ apart x y }
{
    let low = x.low.saturating_sub(y.high) + y.low.saturating_sub(x.high);
    let first = x.high.saturating_sub(y.low);
    let second = y.high.saturating_sub(x.low);
    Span {
        low,
        high: first.max(second),
        scale: x.scale,
    }
}

/// Returns the sums of magnitudes of which the first is of a sign that is not known.
fn beside(x: Span, y: Span) -> Span
    requires x { IsAligned x }
    requires y { IsAligned y }
    ensures { result ≡ beside x y }
{
    Span {
        low: y.low.saturating_sub(x.high),
        high: x.high + y.high,
        scale: x.scale,
    }
}

/// Returns the magnitudes of the sums of values of two spans with their signs, at one scale.
fn sum_span(s: Sign, t: Sign, x: Span, y: Span) -> Span
    requires x { IsAligned x }
    requires y { IsAligned y }
    ensures { result ≡ sum_span s t x y }
{
    match s {
        Sign::Plus => match t {
            Sign::Plus => together(x, y),
            Sign::Minus => apart(x, y),
            Sign::Either => beside(y, x),
        },
        Sign::Minus => match t {
            Sign::Plus => apart(x, y),
            Sign::Minus => together(x, y),
            Sign::Either => beside(y, x),
        },
        Sign::Either => beside(x, y),
    }
}

/// Returns the sign of the one that is certainly not smaller.
fn larger_sign(s: Sign, t: Sign, x: &Span, y: &Span) -> Sign
    ensures { result ≡ larger_sign s t x.now y.now }
{
    if y.high <= x.low {
        s
    } else if x.high <= y.low {
        t
    } else {
        Sign::Either
    }
}

/// Returns the sign of the sums of values of two spans with their signs, at one scale.
fn sum_sign(s: Sign, t: Sign, x: &Span, y: &Span) -> Sign
    ensures { result ≡ sum_sign s t x.now y.now }
{
    match s {
        Sign::Plus => match t {
            Sign::Plus => Sign::Plus,
            _ => larger_sign(s, t, x, y),
        },
        Sign::Minus => match t {
            Sign::Minus => Sign::Minus,
            _ => larger_sign(s, t, x, y),
        },
        Sign::Either => larger_sign(s, t, x, y),
    }
}

/// Returns the sum of two numbers before the machine rounds it: its sign, and the span of its magnitude.
#[tactic(auto, using(crate::proofs::SumLemmas::exact_sum_wide))]
pub fn exact_sum(a: Number, b: Number) -> (Sign, Span)
    ensures sign { result.0 ≡ (exact_sum a b).sign }
    ensures span { result.1 ≡ (exact_sum a b).span }
    ensures wide { IsWide result.1 }
    ensures scale { result.1.scale ≤ 383 }
{
    let x = aligned(a.span(), b.span());
    let y = aligned(b.span(), a.span());
    let sign = sum_sign(a.sign(), b.sign(), &x, &y);
    let span = sum_span(a.sign(), b.sign(), x, y);
    (sign, span)
}

/// Returns the sum of two numbers.
///
/// # Errors
///
/// As for a product.
#[tactic(auto, unfolding(crate::specs::Numbers::sum))]
pub fn sum(a: Number, b: Number) -> Result<Number, NumberFault>
    ensures { result ≡ sum a b }
{
    if a.is_zero() {
        return Ok(b);
    }
    if b.is_zero() {
        return Ok(a);
    }
    let (sign, span) = exact_sum(a, b);
    signed(sign, answer(span, VALUE_DIGITS, ERROR))
}
