//! Numbers, as what is known of a value of the machine.

ghost use Rattle.std.specs.Prelude.{◌≡◌, ◌+◌, ◌-◌, ◌*◌, ◌%◌, ◌^◌, ◌<◌, ◌≤◌, ◌==◌, IfOk};
ghost use Rattle.pr_interpreter.specs.Spans.{IsShort, IsWide};
ghost use Rattle.pr_interpreter.specs.Numbers.{Known, absolute, flip, is_zero, negated, product, quotient, signed, span_product, span_quotient, times, whole_number, zero_number};

use crate::fault::NumberFault;
use crate::span::{Span, answer, raised};
use std::marker::Model;

/// How many binary digits of a product are certain: the machine's multiplication errs at bytes of 0.
const PRODUCT_DIGITS: u32 = 24;

/// How many binary digits a value of the machine has.
pub const VALUE_DIGITS: u32 = 32;

/// A sum and a product are right to one part in 2 ^ 30.
pub const ERROR: u16 = 30;

/// A quotient is right to one part in 2 ^ 31.
const QUOTIENT_ERROR: u16 = 31;

/// What is known of a value's sign.
#[derive(Clone, Copy, Debug, PartialEq, Eq)]
pub enum Sign {
    /// It is 0 or more.
    Plus,
    /// It is 0 or less.
    Minus,
    /// It is not known.
    Either,
}

/// What is known of a value of the machine: its sign, and the span that its magnitude is in.
#[derive(Clone, Copy, Debug)]
pub struct Number {
    sign: Sign,
    span: Span,
}

impl Model for Number {
    ghost use Rattle.pr_interpreter.specs.Spans.{IsShort};
    ghost use Rattle.pr_interpreter.specs.Numbers.{Known};

    ghost Value = { Known };

    ghost view = { λ n. record { sign = n.sign; span = n.span } };

    ghost invariant = { λ n. IsShort n.span };

    ghost inverse = { λ n. record { sign = n.sign; span = n.span } };
}

impl Number {
    /// The number 0.
    pub fn zero() -> Number
        ensures { result ≡ zero_number }
    {
        Number {
            sign: Sign::Plus,
            span: Span {
                low: 0,
                high: 0,
                scale: 0,
            },
        }
    }

    /// Makes a whole number.
    pub fn whole(negative: bool, magnitude: u32) -> Number
        ensures { result ≡ whole_number negative magnitude }
    {
        let end = u128::from(magnitude);
        Number {
            sign: if negative { Sign::Minus } else { Sign::Plus },
            span: Span {
                low: end,
                high: end,
                scale: 256,
            },
        }
    }

    /// Returns the number without its sign, as BASIC's ABS.
    pub fn absolute(self) -> Number
        ensures { result ≡ absolute self }
    {
        Number {
            sign: Sign::Plus,
            span: self.span,
        }
    }

    /// Returns the sign of the number.
    pub fn sign(self) -> Sign
        ensures { result ≡ self.sign }
    {
        self.sign
    }

    /// Returns the span of the number's magnitude, whose ends have at most 40 binary digits.
    pub fn span(self) -> Span
        ensures value { result ≡ self.span }
        ensures short { IsShort result }
    {
        self.span
    }

    /// Returns whether the number is exactly 0.
    pub fn is_zero(self) -> bool
        ensures { result ≡ is_zero self }
    {
        self.span.high == 0
    }

    /// Returns the number with the other sign.
    pub fn negated(self) -> Number
        ensures { result ≡ negated self }
    {
        Number {
            sign: flip(self.sign),
            span: self.span,
        }
    }
}

/// Returns the other sign.
pub fn flip(sign: Sign) -> Sign
    ensures { result ≡ flip sign }
{
    match sign {
        Sign::Plus => Sign::Minus,
        Sign::Minus => Sign::Plus,
        Sign::Either => Sign::Either,
    }
}

/// Returns the sign of a product of these signs.
fn times(a: Sign, b: Sign) -> Sign
    ensures { result ≡ times a b }
{
    match a {
        Sign::Plus => b,
        Sign::Minus => flip(b),
        Sign::Either => Sign::Either,
    }
}

/// Gives a sign to a span, if there is one.
pub fn signed(sign: Sign, span: Result<Span, NumberFault>) -> Result<Number, NumberFault>
    requires { IfOk span IsShort }
    ensures { result ≡ signed sign span }
{
    match span {
        Ok(span) => Ok(Number { sign, span }),
        Err(fault) => Err(fault),
    }
}

/// Returns the products of the magnitudes of two spans.
#[tactic(auto, using(crate::proofs::NumberLemmas::short_product, crate::proofs::NumberLemmas::product_wide))]
fn span_product(x: Span, y: Span) -> Span
    requires x { IsShort x }
    requires y { IsShort y }
    requires scale { 256 ≤ x.scale + y.scale }
    ensures value { result ≡ span_product x y }
    ensures wide { IsWide result }
    ensures scale { result.scale ≤ 800 }
{
    let low = x.low * y.low;
    let high = x.high * y.high;
    let scale = x.scale + y.scale - 256;
    Span { low, high, scale }
}

/// Returns the product of two numbers.
///
/// # Errors
///
/// `Overflow` if it is 2 ^ 127 or more, whatever the values are; `NotCertain` if it may be, or if it may be below
/// 2 ^ -128 and is not known to be 0.
#[tactic(auto, unfolding(crate::specs::Numbers::product))]
pub fn product(a: Number, b: Number) -> Result<Number, NumberFault>
    ensures { result ≡ product a b }
{
    if a.is_zero() || b.is_zero() {
        return Ok(Number::zero());
    }
    let (x, y) = (a.span(), b.span());
    if 256 <= x.scale + y.scale {
        let span = span_product(x, y);
        signed(
            times(a.sign(), b.sign()),
            answer(span, PRODUCT_DIGITS, ERROR),
        )
    } else {
        Err(NumberFault::NotCertain)
    }
}

/// Returns the quotients of the magnitudes of two spans.
#[tactic(auto, using(crate::proofs::NumberLemmas::quotient_wide))]
fn span_quotient(x: Span, y: Span) -> Span
    requires x { IsShort x }
    requires y { IsShort y }
    requires divisor { 0 < y.low }
    requires scale { y.scale ≤ x.scale + 170 }
    ensures value { result ≡ span_quotient x y }
    ensures wide { IsWide result }
    ensures scale { result.scale ≤ 800 }
{
    let low = raised(x.low, 86) / y.high;
    let high = (raised(x.high, 86) + (y.low - 1)) / y.low;
    let scale = x.scale + 170 - y.scale;
    Span { low, high, scale }
}

/// Returns the quotient of two numbers.
///
/// # Errors
///
/// `DivisionByZero` if the divisor is 0; `NotCertain` if it may be; else as for a product.
#[tactic(auto, unfolding(crate::specs::Numbers::quotient))]
pub fn quotient(a: Number, b: Number) -> Result<Number, NumberFault>
    ensures { result ≡ quotient a b }
{
    let (x, y) = (a.span(), b.span());
    if y.low == 0 {
        return Err(if b.is_zero() {
            NumberFault::DivisionByZero
        } else {
            NumberFault::NotCertain
        });
    }
    if a.is_zero() {
        return Ok(Number::zero());
    }
    if y.scale <= x.scale + 170 {
        let span = span_quotient(x, y);
        signed(
            times(a.sign(), b.sign()),
            answer(span, VALUE_DIGITS, QUOTIENT_ERROR),
        )
    } else {
        Err(NumberFault::NotCertain)
    }
}
