//! Square roots, and powers with whole exponents.

ghost use Rattle.std.specs.Prelude.{◌≡◌, ◌+◌, ◌-◌, ◌*◌, ◌^◌, ◌<◌, ◌≤◌, true, IfOk};
ghost use Rattle.pr_interpreter.specs.Machine.{is_odd};
ghost use Rattle.pr_interpreter.specs.Numbers.{span_product, span_quotient};
ghost use Rattle.pr_interpreter.specs.Powers.{IsPart, more_digits, near_span, one_span, over_span, power_or_over, power_sign, root, root_above, root_of, root_span, span_power, whole_power, with_factor, with_factors};
ghost use Rattle.pr_interpreter.specs.Spans.{IsShort, IsWide, end_digits, shorten};

use crate::fault::NumberFault;
use crate::number::{Number, Sign, signed};
use crate::span::{END_DIGITS, Span, around, in_range, power, raised, shorten};
use crate::whole_numbers::Whole;

/// A root and a power are right to one part in 2 ^ 24.
const POWER_ERROR: u16 = 24;

/// How many binary digits the ends of a product have that is multiplied on.
const PART_DIGITS: u32 = 63;

/// Returns what the machine may answer near the magnitudes of a span.
#[tactic(auto, using(crate::proofs::SpanLemmas::shorten_bounds))]
fn near_span(span: Span) -> Result<Span, NumberFault>
    requires wide { IsWide span }
    requires scale { span.scale ≤ 800 }
    ensures value { result ≡ near_span span }
    ensures short { IfOk result IsShort }
{
    around(shorten(span, END_DIGITS), POWER_ERROR)
}

/// Returns the square root of a number below 2 ^ 127, rounded down.
#[tactic(auto, using(crate::proofs::RootLemmas::root_alone))]
fn root(n: u128) -> u128
    requires { n < 2 ^ 127 }
    ensures value { result ≡ root 64 n }
    ensures within { result < 2 ^ 64 }
{
    n.isqrt()
}

/// Returns the square root of a number below 2 ^ 127, rounded up.
fn root_above(n: u128) -> u128
    requires { n < 2 ^ 127 }
    ensures { result ≡ root_above 64 n }
{
    let root = root(n);
    if root * root == n { root } else { root + 1 }
}

/// Returns the roots of the magnitudes of a span.
#[tactic(auto, unfolding(crate::specs::Powers::root_span), using(crate::proofs::RootLemmas::raised_fits, crate::proofs::RootLemmas::root_wide))]
fn root_span(span: Span) -> Span
    requires { IsShort span }
    ensures value { result ≡ root_span span }
    ensures wide { IsWide result }
    ensures scale { result.scale ≤ 800 }
{
    let more = 84 + u32::from(span.scale % 2);
    Span {
        low: root(raised(span.low, more)),
        high: root_above(raised(span.high, more)),
        scale: span.scale / 2 + 86,
    }
}

/// Returns the square root of a number that is not below 0.
///
/// # Errors
///
/// `NotCertain` where an end of the root is not of the machine's values.
#[tactic(auto, unfolding(crate::specs::Powers::root_of))]
pub fn root_of(number: Number) -> Result<Number, NumberFault>
    ensures { result ≡ root_of number }
{
    signed(Sign::Plus, near_span(root_span(number.span())))
}

/// Returns a product with one more factor.
#[tactic(auto, unfolding(crate::specs::Powers::with_factor), using(crate::proofs::PowerLemmas::part_product, crate::proofs::PowerLemmas::factor_wide, crate::proofs::PowerLemmas::factor_part))]
fn with_factor(part: Span, factor: Span) -> Result<Span, NumberFault>
    requires part { IsPart part }
    requires factor { IsShort factor }
    ensures value { result ≡ with_factor part factor }
    ensures part { IfOk result IsPart }
{
    if part.scale + factor.scale < 256 {
        return Err(NumberFault::NotCertain);
    }
    let product = Span {
        low: part.low * factor.low,
        high: part.high * factor.high,
        scale: part.scale + factor.scale - 256,
    };
    in_range(shorten(product, PART_DIGITS))
}

/// Returns the power of the magnitudes of a span with a whole exponent above 0.
fn product_of(count: u8, factor: Span) -> Result<Span, NumberFault>
    requires { IsShort factor }
    ensures value { result ≡ with_factors (count - 1) factor factor }
    ensures part { IfOk result IsPart }
{
    let mut part = factor;
    let mut left = count.saturating_sub(1);
    'more: while 0 < left {
        match with_factor(part, factor) {
            Ok(next) => part = next,
            Err(fault) => return Err(fault),
        }
        left -= 1;
    }
    Ok(part)
}

/// Returns one over the magnitudes of a span.
#[tactic(auto, unfolding(crate::specs::Powers::over_span), using(crate::proofs::PowerLemmas::over_wide))]
fn over_span(span: Span) -> Result<Span, NumberFault>
    requires ordered { span.low ≤ span.high }
    requires short { span.high ≤ 2 ^ 40 }
    requires scale { span.scale ≤ 510 }
    ensures value { result ≡ over_span span }
    ensures short { IfOk result IsShort }
{
    if span.low == 0 || 426 < span.scale {
        return Err(NumberFault::NotCertain);
    }
    near_span(Span {
        low: power(86) / span.high,
        high: (power(86) + (span.low - 1)) / span.low,
        scale: 426 - span.scale,
    })
}

/// Returns a power of the magnitudes of a span: with the exponent, or one over that.
#[tactic(auto, unfolding(crate::specs::Powers::span_power), using(crate::proofs::PowerLemmas::part_wide, crate::proofs::SpanLemmas::shorten_bounds))]
fn span_power(negative: bool, exponent: u8, span: Span) -> Result<Span, NumberFault>
    requires { IsShort span }
    ensures value { result ≡ span_power negative exponent span }
    ensures short { IfOk result IsShort }
{
    let part = product_of(exponent, span)?;
    if negative {
        over_span(shorten(part, END_DIGITS))
    } else {
        near_span(part)
    }
}

/// Returns the sign of a power of a number of a sign.
fn power_sign(is_odd: bool, sign: Sign) -> Sign
    ensures { result ≡ power_sign is_odd sign }
{
    if is_odd { sign } else { Sign::Plus }
}

/// Returns a number to the power of a whole number from -255 to 255 other than 0.
///
/// # Errors
///
/// `Overflow` if it is 2 ^ 127 or more, whatever the value is; `NotCertain` if it may be, or if it may be below
/// 2 ^ -128 and is not known to be 0.
#[tactic(auto, unfolding(crate::specs::Powers::whole_power))]
pub fn whole_power(number: Number, negative: bool, exponent: u8) -> Result<Number, NumberFault>
    ensures { result ≡ whole_power number negative exponent }
{
    signed(
        power_sign(exponent % 2 == 1, number.sign()),
        span_power(negative, exponent, number.span()),
    )
}
