//! The whole number that a number gives, where it is certain.

ghost use Rattle.std.specs.Prelude.{◌≡◌, ◌+◌, ◌*◌, ◌/◌, ◌^◌, ◌<◌, ◌≤◌};
ghost use Rattle.pr_interpreter.specs.Spans.{IsShort};
ghost use Rattle.pr_interpreter.specs.Numbers.{ceiling_of, floor, floor_of, whole_of};

use crate::number::{Number, Sign};
use crate::span::{Span, bit_length, raised};

/// A whole number.
#[derive(Clone, Copy, Debug, PartialEq, Eq)]
pub struct Whole {
    /// Whether it is below 0.
    pub negative: bool,
    /// Its magnitude.
    pub magnitude: u128,
}

/// Returns an end without its last `count` binary digits.
#[tactic(auto, using(crate::proofs::WholeLemmas::shift_capped))]
fn shifted(end: u128, count: u16) -> u128
    requires { end ≤ 2 ^ 40 }
    ensures value { result ≡ end / 2 ^ count }
    ensures within { result ≤ 2 ^ 40 }
{
    end >> count.min(127)
}

/// Returns the whole part of a magnitude.
#[tactic(auto, unfolding(crate::specs::Numbers::floor_of), using(crate::proofs::WholeLemmas::floor_up, crate::proofs::WholeLemmas::floor_down))]
fn floor_of(end: u128, scale: u16) -> u128
    requires short { end ≤ 2 ^ 40 }
    requires scale { scale ≤ 296 }
    ensures { result ≡ floor_of end scale }
{
    if 256 <= scale {
        raised(end, u32::from(scale - 256))
    } else {
        shifted(end, 256 - scale)
    }
}

/// Returns the whole part of a magnitude, rounded up.
#[tactic(auto, unfolding(crate::specs::Numbers::ceiling_of), using(crate::proofs::WholeLemmas::ceiling_up, crate::proofs::WholeLemmas::ceiling_down, crate::proofs::WholeLemmas::ceiling_none))]
fn ceiling_of(end: u128, scale: u16) -> u128
    requires short { end ≤ 2 ^ 40 }
    requires scale { scale ≤ 296 }
    ensures { result ≡ ceiling_of end scale }
{
    if 256 <= scale {
        raised(end, u32::from(scale - 256))
    } else if end == 0 {
        0
    } else {
        shifted(end - 1, 256 - scale) + 1
    }
}

/// Returns the greatest whole number that is not above a value, if it is one for all values of a sign in a span.
fn whole_of(sign: Sign, span: Span) -> Option<Whole>
    requires short { IsShort span }
    requires scale { span.scale ≤ 296 }
    ensures { result ≡ whole_of sign span }
{
    match sign {
        Sign::Plus => {
            let magnitude = floor_of(span.low, span.scale);
            if magnitude == floor_of(span.high, span.scale) {
                Some(Whole {
                    negative: false,
                    magnitude,
                })
            } else {
                None
            }
        }
        Sign::Minus => {
            let magnitude = ceiling_of(span.low, span.scale);
            if magnitude == ceiling_of(span.high, span.scale) {
                Some(Whole {
                    negative: 0 < magnitude,
                    magnitude,
                })
            } else {
                None
            }
        }
        Sign::Either => {
            if span.high == 0 {
                Some(Whole {
                    negative: false,
                    magnitude: 0,
                })
            } else {
                None
            }
        }
    }
}

/// Returns the greatest whole number that is not above the value, as BASIC's INT and each index, column and
/// character code has it; None where it is not one for all values that the number stands for, or not below
/// 2 ^ 40.
#[tactic(auto, unfolding(crate::specs::Numbers::floor))]
pub fn floor(a: Number) -> Option<Whole>
    ensures { result ≡ floor a }
{
    let span = a.span();
    if bit_length(span.high) + u32::from(span.scale) <= 296 {
        whole_of(a.sign(), span)
    } else {
        None
    }
}
