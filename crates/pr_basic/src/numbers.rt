//! Numbers and commas of a statement.

ghost use Rattle.std.specs.Prelude.{◌≡◌, ◌<◌, ◌≤◌, min, length, IfOk, MatchResult};
ghost use Rattle.pr_base.specs.Digits.{number_of};
ghost use Rattle.pr_basic.specs.Lexing.{IsRest, here, later};
ghost use Rattle.pr_basic.specs.Reading.{comma_in, number_in};
ghost use Rattle.pr_basic.specs.Reads.{Passes, Reads, ReadsOn};

use crate::fault::{Flaw, LineFault};
use crate::lexemes::{Lexeme, next_in_part};

/// Larger numbers count as this one, which is above every bound, so any number of digits is read
/// without overflow.
const LARGEST: u32 = 100_000;

/// The number that digits spell, at most `LARGEST`.
pub fn value_of(digits: &[u8]) -> u32
    ensures { result ≡ min (number_of digits.now) 100000 }
{
    let mut n: u32 = 0;
    for d in digits {
        n = (10 * n + u32::from(d.saturating_sub(b'0'))).min(LARGEST);
    }
    n
}

/// A number within bounds at the front, and the bytes after it; the faults of a missing number
/// and of one outside the bounds are the caller's.
#[tactic(auto, using(crate::proofs::Places::rest_same), unfolding(crate::specs::Reading::number_in))]
pub fn number(
    bytes: &[u8],
    low: u32,
    high: u32,
    missing: LineFault,
    outside: LineFault,
) -> Result<(u32, &[u8]), Flaw<'_>>
    // the caller's part
    requires { high < 100000 }
    // what it does
    ensures reads { Reads result (number_in low high missing outside (here bytes.now)) (later bytes.now) }
    ensures low { IfOk result (λ p. low ≤ p.0) }
    ensures high { IfOk result (λ p. p.0 ≤ high) }
    // what is left
    ensures shorter { IfOk result (λ p. length p.1.now ≤ length bytes.now) }
    ensures on { ReadsOn result bytes.now }
{
    let Some((Lexeme::Digits(digits), rest)) = next_in_part(bytes) else {
        return Err(missing.before(bytes));
    };
    let n = value_of(digits);
    if n < low || n > high {
        return Err(outside.before(bytes));
    }
    Ok((n, rest))
}

/// The bytes after a comma at the front.
#[tactic(auto, using(crate::proofs::Places::rest_same), unfolding(crate::specs::Reading::comma_in))]
pub fn comma(bytes: &[u8], missing: LineFault) -> Result<&[u8], Flaw<'_>>
    ensures reads { Passes result (comma_in missing (here bytes.now)) (later bytes.now) }
    ensures shorter { IfOk result (λ rest. length rest.now ≤ length bytes.now) }
    ensures on { MatchResult result (λ rest. IsRest rest.now bytes.now) (λ e. IsRest e.rest.now bytes.now) }
{
    match next_in_part(bytes) {
        Some((Lexeme::Comma, rest)) => Ok(rest),
        _ => Err(missing.before(bytes)),
    }
}
