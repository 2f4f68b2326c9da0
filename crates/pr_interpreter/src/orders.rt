//! Comparisons of numbers.

ghost use Rattle.std.specs.Prelude.{◌≡◌};
ghost use Rattle.pr_interpreter.specs.Numbers.{against_zero, order_of};

use crate::number::{Number, Sign, flip};
use crate::span::Span;
use crate::sums::exact_sum;

/// Whether some value of one number is less than, equal to or greater than one of another.
#[derive(Clone, Copy, Debug, PartialEq, Eq)]
pub struct Order {
    /// Some value is less.
    pub less: bool,
    /// Some value is equal.
    pub equal: bool,
    /// Some value is greater.
    pub greater: bool,
}

/// Returns what values of a sign and a span may be against 0.
fn against_zero(sign: Sign, span: Span) -> Order
    ensures { result ≡ against_zero sign span }
{
    let equal = span.low == 0;
    let unequal = 0 < span.high;
    match sign {
        Sign::Plus => Order {
            less: false,
            equal,
            greater: unequal,
        },
        Sign::Minus => Order {
            less: unequal,
            equal,
            greater: false,
        },
        Sign::Either => Order {
            less: unequal,
            equal,
            greater: unequal,
        },
    }
}

/// Compares two numbers.
#[tactic(auto, unfolding(crate::specs::Numbers::order_of))]
pub fn order_of(a: Number, b: Number) -> Order
    ensures { result ≡ order_of a b }
{
    if b.is_zero() {
        against_zero(a.sign(), a.span())
    } else if a.is_zero() {
        against_zero(flip(b.sign()), b.span())
    } else {
        let (sign, span) = exact_sum(a, b.negated());
        against_zero(sign, span)
    }
}
