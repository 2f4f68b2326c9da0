//! The value of `--delays`.

ghost use Rattle.std.specs.Prelude.{◌≡◌, Some, None, false, true, IfOk, MatchOption, IsErrOf};
ghost use Rattle.pr_base.specs.Digits.{number_of};
ghost use Rattle.pr_wire.specs.Choices.{left};
ghost use Rattle.pr_bus.specs.DelaysLeft.{numbers_left};
ghost use Rattle.pr_options.specs.DelayLists.{IsFresh, delays_of, is_number_list, is_raw_number, numbers_in};

use crate::parts::{all_digits, cut};
use pr_bus::Delays;
use pr_wire::Choices;
use std::alloc::{AllocFailed, Global};
use thiserror::Error;

/// The most digits of a raw delay number (profile).
const DIGITS: usize = 5;

/// Why a text gives no delays.
#[derive(Clone, Copy, Debug, PartialEq, Eq, Error)]
pub enum DelayFault {
    /// The text is no value of `--delays`.
    #[error("bad --delays")]
    BadDelays,
    /// Memory was refused.
    #[error("out of memory")]
    NoMemory,
}

impl<T: Drop> From<AllocFailed<T>> for DelayFault {
    ghost use Rattle.pr_options.specs.declared.delays.DelayFault.TheVariants.{NoMemory};

    ghost from_gives = { λ _ f. f ≡ NoMemory };

    fn from(_e: AllocFailed<T>) -> DelayFault {
        DelayFault::NoMemory
    }
}

/// Reads the delays of a run: at most three lists separated by `/`, for the computer, printer 4 and
/// printer 5, of which missing ones are empty. A list is empty, or numbers of one to five digits,
/// at most 65535, separated by commas (profile). No number of them has been taken.
///
/// # Errors
///
/// [`DelayFault::BadDelays`] only for another text, and [`DelayFault::NoMemory`] where memory was
/// refused.
pub fn read_delays(alloc: Global, text: &str) -> Result<Delays, DelayFault>
    ensures ok { IfOk result (λ delays. delays_of text.now ≡ Some (numbers_left delays)) }
    ensures fresh { IfOk result IsFresh }
    ensures bad { IsErrOf result DelayFault.BadDelays → delays_of text.now ≡ None }
{
    let (computer, others) = cut(text, '/');
    let (four, five) = cut(others, '/');
    if five.contains('/') {
        return Err(DelayFault::BadDelays);
    }
    Ok(Delays {
        computer: read_list(alloc, computer)?,
        four: read_list(alloc, four)?,
        five: read_list(alloc, five)?,
    })
}

/// The numbers of a list, of which none has been taken.
fn read_list(alloc: Global, text: &str) -> Result<Choices, DelayFault>
    ensures list { IfOk result (λ _. is_number_list text.now ≡ true) }
    ensures numbers { IfOk result (λ c. c.numbers ≡ numbers_in text.now) }
    ensures left { IfOk result (λ c. left c ≡ numbers_in text.now) }
    ensures bad { IsErrOf result DelayFault.BadDelays → is_number_list text.now ≡ false }
{
    let mut numbers = Vec::new(alloc);
    if text.is_empty() {
        return Ok(Choices::new(numbers));
    }
    for word in text.split(',') {
        let Some(number) = read_number(word) else {
            return Err(DelayFault::BadDelays);
        };
        numbers.push(number)?;
    }
    Ok(Choices::new(numbers))
}

/// The number that one to five digits spell, if it is at most 65535.
fn read_number(word: &str) -> Option<u16>
    ensures { MatchOption result (is_raw_number word.now ≡ false) (λ n. (is_raw_number word.now ≡ true) × (n ≡ number_of word.now)) }
{
    if word.len() > DIGITS || !all_digits(word.as_bytes()) {
        return None;
    }
    word.parse().ok()
}
