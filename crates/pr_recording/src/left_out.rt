//! What a recording has that no page of it has.

ghost use Rattle.std.specs.Prelude.{◌≡◌, ◌+◌, ◌-◌, ◌^◌, ◌<◌, ◌≤◌, ◌&&◌, ◌||◌, [], false, not, List};
ghost use Rattle.std.specs.Option.{option_map_or};
ghost use Rattle.pr_decode.specs.declared.reading.Reading.{Reading};
ghost use Rattle.pr_report.specs.Summary.{is_incomplete, is_unacknowledged};
ghost use Rattle.pr_recording.specs.LeftOut.{is_call, is_cut_byte, is_data, left_out_of};
ghost use Rattle.pr_recording.specs.LeftLogged.{HasLeftOut, counted, greatest_count, greatest_of, left_with};

use crate::tape::Takes;
use pr_base::{LISTEN, SECONDARY};
use pr_decode::{FrameEnd, Reading, acknowledged_frame};
use pr_wire::Frame;
use std::alloc::AllocError;

/// What a recording has that no page of it has, nor the bytes that a printer hears.
#[derive(Clone, Copy, Debug, PartialEq, Eq)]
pub struct LeftOut {
    /// How many whole bytes nobody acknowledged.
    pub unacknowledged: u64,
    /// How many bytes are incomplete.
    pub incomplete: u64,
    /// The recording's end cuts a whole byte.
    pub has_cut: bool,
    /// How many data bytes come before the first LISTEN, UNLISTEN, TALK or UNTALK: the recording does not say whom they
    /// are for.
    pub early: u64,
}

/// What the readings taken so far have that no page has.
#[derive(Clone, Copy, Debug, Drop, PartialEq, Eq)]
pub struct LeftOutLog {
    left: LeftOut,
    /// A LISTEN, UNLISTEN, TALK or UNTALK has come.
    is_called: bool,
}

/// A count, with one more where something is so.
fn counted(is_so: bool, count: u64) -> u64
    requires { count < 2 ^ 64 - 1 }
    ensures { result ≡ counted is_so count }
{
    if is_so { count + 1 } else { count }
}

/// Whether a reading is a whole byte that nobody acknowledged.
fn is_unacknowledged(reading: &Reading) -> bool
    ensures { result ≡ is_unacknowledged reading.now }
{
    match reading {
        Reading::Frame(_, FrameEnd::Unacknowledged(_)) => true,
        Reading::Frame(_, FrameEnd::Acknowledged(_)) => false,
        Reading::Frame(_, FrameEnd::Cut) => false,
        Reading::IncompleteByte(_, _) => false,
    }
}

/// Whether a reading is an incomplete byte.
fn is_incomplete(reading: &Reading) -> bool
    ensures { result ≡ is_incomplete reading.now }
{
    match reading {
        Reading::Frame(_, _) => false,
        Reading::IncompleteByte(_, _) => true,
    }
}

/// Whether a reading is a whole byte that the recording's end cuts.
fn is_cut_byte(reading: &Reading) -> bool
    ensures { result ≡ is_cut_byte reading.now }
{
    match reading {
        Reading::Frame(_, FrameEnd::Cut) => true,
        Reading::Frame(_, FrameEnd::Acknowledged(_)) => false,
        Reading::Frame(_, FrameEnd::Unacknowledged(_)) => false,
        Reading::IncompleteByte(_, _) => false,
    }
}

/// Whether there is a frame that says who listens or talks from then on.
fn is_call(frame: Option<Frame>) -> bool
    ensures { result ≡ option_map_or is_call frame false }
{
    match frame {
        Some(frame) => frame.attention && LISTEN <= frame.byte && frame.byte < SECONDARY,
        None => false,
    }
}

/// Whether there is a frame that is a data byte.
fn is_data(frame: Option<Frame>) -> bool
    ensures { result ≡ option_map_or is_data frame false }
{
    match frame {
        Some(frame) => !frame.attention,
        None => false,
    }
}

/// Whether a data byte comes before the first call.
fn is_early(frame: Option<Frame>, is_called: bool) -> bool
    ensures { result ≡ (option_map_or is_data frame false && not is_called) }
{
    is_data(frame) && !is_called
}

/// Whether one of two things is so.
fn either(one: bool, other: bool) -> bool
    ensures { result ≡ (one || other) }
{
    one || other
}

/// What is left out with one reading more, which is an early data byte or not.
fn left_with(left: LeftOut, reading: &Reading, is_early: bool) -> LeftOut
    requires { greatest_of left < 2 ^ 64 - 1 }
    ensures { result ≡ left_with left reading.now is_early }
{
    LeftOut {
        unacknowledged: counted(is_unacknowledged(reading), left.unacknowledged),
        incomplete: counted(is_incomplete(reading), left.incomplete),
        has_cut: either(left.has_cut, is_cut_byte(reading)),
        early: counted(is_early, left.early),
    }
}

impl LeftOutLog {
    /// A log of no reading. It takes no memory.
    pub fn new() -> LeftOutLog
        ensures taken { HasLeftOut [] result }
        ensures count { greatest_count result ≡ 0 }
    {
        LeftOutLog {
            left: LeftOut {
                unacknowledged: 0,
                incomplete: 0,
                has_cut: false,
                early: 0,
            },
            is_called: false,
        }
    }

    /// What all readings have that no page has.
    pub fn finish(self) -> LeftOut
        ensures { (readings : List Reading) → HasLeftOut readings self → result ≡ left_out_of readings }
    {
        self.left
    }
}

impl Takes for LeftOutLog {
    ghost use Rattle.pr_recording.specs.Adds.{Adds, adds_both, adds_none, fewer_fit};
    ghost use Rattle.pr_recording.specs.LeftLogged.{HasLeftOut, greatest_count};

    ghost takes = { Adds HasLeftOut };

    ghost may_take = { λ n log. greatest_count log + n ≤ 2 ^ 64 - 1 };

    ghost takes_none = { adds_none HasLeftOut };

    ghost takes_both = { adds_both HasLeftOut };

    ghost takes_fewer = { λ k n log. fewer_fit k n (greatest_count log) (2 ^ 64 - 1) };

    fn take_reading(&mut self, reading: &Reading) -> Result<(), AllocError> {
        let frame = acknowledged_frame(*reading);
        let early = is_early(frame, self.is_called);
        self.left = left_with(self.left, reading, early);
        self.is_called = either(self.is_called, is_call(frame));
        Ok(())
    }
}
