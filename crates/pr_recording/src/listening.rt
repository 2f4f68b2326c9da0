//! Printers that listen when a recording begins.

ghost use Rattle.std.specs.Prelude.{◌≡◌, ◌+◌, ◌≤◌, ◌&&◌, ℕ, OnOk};
ghost use Rattle.pr_recording.specs.Listening.{call_of, command_if, command_reading, first_calls, nobody};

use crate::tape::Takes;
use pr_base::{FIRST_PRINTER, LISTEN, LOWER_CASE, SECOND_PRINTER};
use pr_decode::{FrameEnd, Halves, Opening, Reading, Transfer};
use pr_serial::Present;
use std::alloc::AllocError;

/// Which printers listen when a recording begins, as if they had been called just before.
#[derive(Clone, Copy, Debug, PartialEq, Eq)]
pub struct Listening {
    /// The printers that listen.
    pub printers: Present,
    /// Their character set is lower/upper case, else graphic/upper case.
    pub lower: bool,
}

impl Listening {
    /// No printer listens.
    pub fn nobody() -> Listening
        ensures { result ≡ nobody }
    {
        Listening {
            printers: Present {
                four: false,
                five: false,
            },
            lower: false,
        }
    }
}

/// A command that is acknowledged. Nobody asks when.
fn command_reading(byte: u8) -> Reading
    ensures { result ≡ command_reading byte }
{
    let halves = Halves {
        shortest: 0,
        longest: 0,
    };
    let opening = Opening {
        command: true,
        ready_to_send: 0,
        ready_for_data: 0,
        pulse: None,
    };
    let transfer = Transfer {
        opening,
        pull: 0,
        bits: 8,
        byte,
        low: halves,
        high: halves,
        last_pull: 0,
    };
    Reading::Frame(transfer, FrameEnd::Acknowledged(0))
}

/// Has a command taken, if it comes.
fn command_if<T: Takes>(taker: &mut T, comes: bool, byte: u8) -> Result<(), AllocError>
    requires room { T.may_take 1 taker.old }
    ensures taken { OnOk result (T.takes (command_if comes byte) taker.old taker.new) }
    ensures room { OnOk result ((n : ℕ) → T.may_take (1 + n) taker.old → T.may_take n taker.new) }
{
    if comes {
        taker.take_reading(&command_reading(byte))
    } else {
        Ok(())
    }
}

/// Whether a printer that listens has the lower/upper case set.
fn is_lower(listens: bool, lower: bool) -> bool
    ensures { result ≡ (listens && lower) }
{
    listens && lower
}

/// Has a printer called, if it listens.
fn call<T: Takes>(taker: &mut T, listens: bool, lower: bool, device: u8) -> Result<(), AllocError>
    requires device { device ≤ 30 }
    requires room { T.may_take 2 taker.old }
    ensures taken { OnOk result (T.takes (call_of listens lower device) taker.old taker.new) }
    ensures room { OnOk result ((n : ℕ) → T.may_take (2 + n) taker.old → T.may_take n taker.new) }
{
    command_if(taker, listens, LISTEN + device)?;
    command_if(taker, is_lower(listens, lower), LOWER_CASE)
}

/// Has the printers called that listen.
///
/// # Errors
///
/// `AllocError` where memory was refused.
pub fn call_first<T: Takes>(taker: &mut T, listening: Listening) -> Result<(), AllocError>
    requires room { T.may_take 4 taker.old }
    ensures taken { OnOk result (T.takes (first_calls listening) taker.old taker.new) }
    ensures room { OnOk result ((n : ℕ) → T.may_take (4 + n) taker.old → T.may_take n taker.new) }
{
    let Listening { printers, lower } = listening;
    call(taker, printers.four, lower, FIRST_PRINTER)?;
    call(taker, printers.five, lower, SECOND_PRINTER)
}
