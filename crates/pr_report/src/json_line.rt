//! Readings as lines of JSON: each line is an object, with the same names in the same order. Names and words are
//! fixed, so that nothing needs an escape (profile).

ghost use Rattle.std.specs.Prelude.{◌≡◌, ◌++◌, OnOk};
ghost use Rattle.pr_report.specs.Intervals.{length_of};
ghost use Rattle.pr_report.specs.JsonText.{end_text, eoi_text, frame_end, incomplete_end, intervals_text, json_flaw, json_line, json_verdict, kind_text, later_intervals, member, members, moments_text, ready_text, role_text, value_text, what_text};

use crate::interval::{INTERVALS, Interval, transfer_of};
use crate::numbers::push_numbered;
use pr_decode::{FrameEnd, IncompleteEnd, Pulse, Reading, Transfer};
use pr_wire::{NoMemory, WaveFault};

/// The beginning of an object: whether a byte is whole.
fn kind_text(reading: &Reading) -> &'static [u8]
    ensures { result.now ≡ kind_text reading.now }
{
    match reading {
        Reading::Frame(_, _) => b"{\"kind\":\"byte\",\"role\":",
        Reading::IncompleteByte(_, _) => b"{\"kind\":\"incomplete\",\"role\":",
    }
}

/// Whether a byte is a command.
fn role_text(command: bool) -> &'static [u8]
    ensures { result.now ≡ role_text command }
{
    if command { b"\"command\"" } else { b"\"data\"" }
}

/// Adds the value of a whole byte, or how many bits of an incomplete one came.
fn push_value(text: &mut Vec<u8>, reading: &Reading) -> Result<(), NoMemory>
    ensures { OnOk result (text.new.items ≡ text.old.items ++ value_text reading.now) }
{
    match reading {
        Reading::Frame(transfer, _) => push_numbered(text, b",\"value\":", transfer.byte as u64),
        Reading::IncompleteByte(transfer, _) => {
            push_numbered(text, b",\"bits\":", transfer.bits as u64)
        }
    }
}

/// Whether a byte has end-or-identify.
fn eoi_text(pulse: Option<Pulse>) -> &'static [u8]
    ensures { result.now ≡ eoi_text pulse }
{
    match pulse {
        Some(_) => b",\"eoi\":true",
        None => b",\"eoi\":false",
    }
}

/// Adds what a byte is.
fn push_what(text: &mut Vec<u8>, reading: &Reading) -> Result<(), NoMemory>
    ensures { OnOk result (text.new.items ≡ text.old.items ++ what_text reading.now) }
{
    let opening = transfer_of(reading).opening;
    text.extend_from_slice(kind_text(reading))?;
    text.extend_from_slice(role_text(opening.command))?;
    push_value(text, reading)?;
    text.extend_from_slice(eoi_text(opening.pulse))
}

/// Adds a byte's moments.
fn push_moments(text: &mut Vec<u8>, transfer: Transfer) -> Result<(), NoMemory>
    ensures { OnOk result (text.new.items ≡ text.old.items ++ moments_text transfer) }
{
    push_numbered(text, b",\"at\":", transfer.opening.ready_to_send)?;
    push_numbered(text, b",\"ready\":", transfer.opening.ready_for_data)?;
    push_numbered(text, b",\"first pull\":", transfer.pull)?;
    push_numbered(text, b",\"last pull\":", transfer.last_pull)?;
    Ok(())
}

/// Adds how a whole byte ends, and when.
fn push_frame_end(text: &mut Vec<u8>, end: FrameEnd) -> Result<(), NoMemory>
    ensures { OnOk result (text.new.items ≡ text.old.items ++ frame_end end) }
{
    match end {
        FrameEnd::Acknowledged(time) => {
            push_numbered(text, b",\"end\":\"acknowledged\",\"ended\":", time)
        }
        FrameEnd::Unacknowledged(time) => {
            push_numbered(text, b",\"end\":\"unacknowledged\",\"ended\":", time)
        }
        FrameEnd::Cut => text.extend_from_slice(b",\"end\":\"cut\",\"ended\":null"),
    }
}

/// Adds what ends an incomplete byte, and when.
fn push_incomplete_end(text: &mut Vec<u8>, end: IncompleteEnd) -> Result<(), NoMemory>
    ensures { OnOk result (text.new.items ≡ text.old.items ++ incomplete_end end) }
{
    match end {
        IncompleteEnd::Attention(time) => {
            push_numbered(text, b",\"end\":\"attention\",\"ended\":", time)
        }
        IncompleteEnd::ClockTimeout(time) => {
            push_numbered(text, b",\"end\":\"clock timeout\",\"ended\":", time)
        }
        IncompleteEnd::Cut => text.extend_from_slice(b",\"end\":\"cut\",\"ended\":null"),
    }
}

/// Adds how a byte ends, and when.
fn push_end(text: &mut Vec<u8>, reading: &Reading) -> Result<(), NoMemory>
    ensures { OnOk result (text.new.items ≡ text.old.items ++ end_text reading.now) }
{
    match reading {
        Reading::Frame(_, end) => push_frame_end(text, *end),
        Reading::IncompleteByte(_, end) => push_incomplete_end(text, *end),
    }
}

/// Adds an interval, and how long it is.
fn push_length(text: &mut Vec<u8>, interval: Interval, length: u64) -> Result<(), NoMemory>
    ensures { OnOk result (text.new.items ≡ text.old.items ++ member interval (Some length)) }
{
    text.extend_from_slice(b",\"")?;
    text.extend_from_slice(interval.name())?;
    push_numbered(text, b"\":", length)
}

/// Adds an interval, if a reading has it.
fn push_member(text: &mut Vec<u8>, interval: Interval, reading: &Reading) -> Result<(), NoMemory>
    ensures { OnOk result (text.new.items ≡ text.old.items ++ member interval (length_of interval reading.now)) }
{
    match interval.length(reading) {
        None => Ok(()),
        Some(length) => push_length(text, interval, length),
    }
}

/// Adds those of some intervals that a reading has.
fn push_members(
    text: &mut Vec<u8>,
    intervals: &[Interval],
    reading: &Reading,
) -> Result<(), NoMemory>
    ensures { OnOk result (text.new.items ≡ text.old.items ++ members intervals.now reading.now) }
{
    for interval in intervals {
        push_member(text, *interval, reading)?;
    }
    Ok(())
}

/// Adds the first interval, which every reading has.
fn push_ready(text: &mut Vec<u8>, transfer: Transfer) -> Result<(), NoMemory>
    ensures { OnOk result (text.new.items ≡ text.old.items ++ ready_text transfer) }
{
    let opening = transfer.opening;
    let ready = opening.ready_for_data.saturating_sub(opening.ready_to_send);
    push_numbered(text, b",\"intervals\":{\"ready\":", ready)
}

/// Adds a reading's intervals.
fn push_intervals(text: &mut Vec<u8>, reading: &Reading) -> Result<(), NoMemory>
    ensures { OnOk result (text.new.items ≡ text.old.items ++ intervals_text reading.now) }
{
    push_ready(text, transfer_of(reading))?;
    push_members(text, &INTERVALS[1..], reading)?;
    text.extend_from_slice(b"}")
}

/// Adds a reading as a line of JSON to a text: whether it is a whole byte, its role, its value or how many bits came,
/// its moments in microseconds, how it ends and when, and its intervals in microseconds, by the names that they have
/// in [`crate::Survey::push_summary`].
///
/// # Errors
///
/// [`NoMemory`] where a growth of the text was refused. Nothing is promised of the text then.
pub fn push_json_reading(text: &mut Vec<u8>, reading: &Reading) -> Result<(), NoMemory>
    ensures { OnOk result (text.new.items ≡ text.old.items ++ json_line reading.now) }
{
    push_what(text, reading)?;
    push_moments(text, transfer_of(reading))?;
    push_end(text, reading)?;
    push_intervals(text, reading)?;
    text.extend_from_slice(b"}\n")?;
    Ok(())
}

/// Adds the object of an edge, and of what is wrong with it.
fn push_json_flaw(text: &mut Vec<u8>, edge: usize, reason: &[u8]) -> Result<(), NoMemory>
    ensures { OnOk result (text.new.items ≡ text.old.items ++ json_flaw edge reason.now) }
{
    push_numbered(
        text,
        b"{\"kind\":\"verdict\",\"lawful\":false,\"edge\":",
        edge as u64,
    )?;
    text.extend_from_slice(reason)?;
    Ok(())
}

/// Adds whether edges are a lawful trace as a line of JSON to a text: by their first fault, if they have one, in the
/// words of [`WaveFault`]. Edges count from 0.
///
/// # Errors
///
/// [`NoMemory`] where a growth of the text was refused. Nothing is promised of the text then.
pub fn push_json_verdict(text: &mut Vec<u8>, fault: Option<WaveFault>) -> Result<(), NoMemory>
    ensures { OnOk result (text.new.items ≡ text.old.items ++ json_verdict fault) }
{
    match fault {
        None => text.extend_from_slice(b"{\"kind\":\"verdict\",\"lawful\":true}\n"),
        Some(WaveFault::Start(edge)) => {
            push_json_flaw(text, edge, b",\"fault\":\"bad start\"}\n")
        }
        Some(WaveFault::Order(edge)) => {
            push_json_flaw(text, edge, b",\"fault\":\"bad order\"}\n")
        }
        Some(WaveFault::TooEarly(edge)) => {
            push_json_flaw(text, edge, b",\"fault\":\"too early\"}\n")
        }
        Some(WaveFault::TooLate(edge)) => {
            push_json_flaw(text, edge, b",\"fault\":\"too late\"}\n")
        }
        Some(WaveFault::Shape(edge)) => {
            push_json_flaw(text, edge, b",\"fault\":\"bad shape\"}\n")
        }
        Some(WaveFault::Truncated(edge)) => {
            push_json_flaw(text, edge, b",\"fault\":\"truncated\"}\n")
        }
        Some(WaveFault::NoMemory) => text.extend_from_slice(
            b"{\"kind\":\"verdict\",\"lawful\":false,\"fault\":\"out of memory\"}\n",
        ),
    }
}
