//! The intervals of readings that lie outside their bounds, and the words that compare readings with the guide's
//! bounds.

ghost use Rattle.std.specs.Prelude.{◌≡◌, ◌++◌, OnOk, if◌then◌else◌, Some, None};
ghost use Rattle.pr_report.specs.Intervals.{intervals, length_of};
ghost use Rattle.pr_report.specs.Outside.{byte_at, first_of, guide_words, outside_at, outside_in, outside_words, reading_place};
ghost use Rattle.pr_report.specs.Steps.{earlier};

use crate::detail::Bounds;
use crate::interval::{INTERVALS, Interval};
use crate::numbers::{push_hex_digits, push_numbered};
use crate::reading_line::{byte_word, push_incomplete_place};
use pr_decode::{Reading, Transfer};
use pr_wire::NoMemory;

/// An interval of a reading that lies outside its bounds.
#[derive(Clone, Copy)]
pub struct Outside {
    /// The reading that has it.
    reading: Reading,
    interval: Interval,
    /// How long it is, in microseconds.
    length: u64,
}

/// An interval of a reading, if the reading has it and it lies outside these bounds.
fn outside_at(bounds: Bounds, interval: Interval, reading: &Reading) -> Option<Outside>
    ensures { result ≡ first_of (outside_at bounds reading.now interval (length_of interval reading.now)) }
{
    let length = interval.length(reading)?;
    if interval.is_outside(bounds, length) {
        Some(Outside {
            reading: *reading,
            interval,
            length,
        })
    } else {
        None
    }
}

/// The first of some intervals of a reading that lies outside these bounds.
fn first_outside(bounds: Bounds, intervals: &[Interval], reading: &Reading) -> Option<Outside>
    ensures { result ≡ first_of (outside_in bounds intervals.now reading.now) }
{
    for interval in intervals {
        if let Some(found) = outside_at(bounds, *interval, reading) {
            return Some(found);
        }
    }
    None
}

/// The first interval that lies outside the guide's bounds, with one reading more.
pub(crate) fn with_reading(before: Option<Outside>, reading: &Reading) -> Option<Outside>
    ensures { result ≡ earlier before (first_of (outside_in Bounds.Guide intervals reading.now)) }
{
    match before {
        Some(outside) => Some(outside),
        None => first_outside(Bounds::Guide, &INTERVALS, reading),
    }
}

/// Adds what a whole byte is, and its look.
fn push_byte_at(text: &mut Vec<u8>, transfer: Transfer) -> Result<(), NoMemory>
    ensures { OnOk result (text.new.items ≡ text.old.items ++ byte_at transfer) }
{
    text.extend_from_slice(byte_word(transfer.opening.command))?;
    text.extend_from_slice(b"$")?;
    push_hex_digits(text, transfer.byte)?;
    push_numbered(text, b" at ", transfer.opening.ready_to_send)?;
    text.extend_from_slice(b" us")
}

/// Adds which byte a reading is.
pub(crate) fn push_reading_place(text: &mut Vec<u8>, reading: Reading) -> Result<(), NoMemory>
    ensures { OnOk result (text.new.items ≡ text.old.items ++ reading_place reading) }
{
    match reading {
        Reading::Frame(transfer, _) => push_byte_at(text, transfer),
        Reading::IncompleteByte(transfer, _) => push_incomplete_place(text, transfer),
    }
}

/// Adds which interval lies outside the guide's bounds.
fn push_first(text: &mut Vec<u8>, first: Outside) -> Result<(), NoMemory>
    ensures { OnOk result (text.new.items ≡ text.old.items ++ outside_words first) }
{
    text.extend_from_slice(b"outside the guide's bounds: ")?;
    push_reading_place(text, first.reading)?;
    text.extend_from_slice(b", ")?;
    first
        .interval
        .push_measure(text, Bounds::Guide, first.length)
}

/// Adds how this many readings compare with the guide's bounds, by the first of their intervals that lies outside.
pub(crate) fn push_guide_words(
    text: &mut Vec<u8>,
    count: u64,
    first: Option<Outside>,
) -> Result<(), NoMemory>
    ensures { OnOk result (text.new.items ≡ text.old.items ++ guide_words count first) }
{
    match first {
        Some(first) => push_first(text, first),
        None => {
            if count == 0 {
                text.extend_from_slice(b"no byte to measure\n")
            } else {
                text.extend_from_slice(b"within the guide's bounds\n")
            }
        }
    }
}
