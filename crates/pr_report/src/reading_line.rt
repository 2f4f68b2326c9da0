//! The lines of a reading. Their form is this project's own choice (profile); an acknowledged byte has the
//! line that it has in a story.
//!
//! Times outside the story's lines have their unit.

ghost use Rattle.std.specs.Prelude.{◌≡◌, ◌++◌, OnOk};
ghost use Rattle.pr_report.specs.Intervals.{length_of};
ghost use Rattle.pr_report.specs.ReadingText.{byte_heading, byte_lines, byte_place, byte_word, cut_end, data_heading, frame_text, incomplete_end, incomplete_place, line_of, lines_if, moment_end, outside_line, outside_lines, outside_text, reading_lines, story_frame};

use crate::context::{Context, Preceding, Talker};
use crate::detail::{Bounds, Detail};
use crate::interval::{INTERVALS, Interval};
use crate::numbers::push_numbered;
use crate::story_line::push_frame;
use crate::timed_frame::TimedFrame;
use pr_decode::{FrameEnd, IncompleteEnd, Reading, Transfer};
use pr_wire::{ByteRole, NoMemory};

/// An acknowledged byte as a frame of the story.
fn story_frame(behind: Preceding, transfer: Transfer, acknowledged: u64) -> TimedFrame
    ensures { result ≡ story_frame behind transfer acknowledged }
{
    TimedFrame {
        look: transfer.opening.ready_to_send,
        acknowledged,
        sending: behind.sending(transfer.opening.command, transfer.byte),
        byte: transfer.byte,
        eoi: transfer.opening.pulse.is_some(),
    }
}

/// Adds the line before data bytes.
fn push_data_heading(text: &mut Vec<u8>, talker: Talker) -> Result<(), NoMemory>
    ensures { OnOk result (text.new.items ≡ text.old.items ++ data_heading talker) }
{
    match talker {
        Talker::Computer | Talker::Asked(_) => text.extend_from_slice(b"data\n"),
        Talker::Device(device) => {
            push_numbered(text, b"data from ", device as u64)?;
            text.extend_from_slice(b"\n")
        }
    }
}

/// Adds the line before a byte that begins an attention, or data bytes.
fn push_heading(text: &mut Vec<u8>, context: Context, sending: ByteRole) -> Result<(), NoMemory>
    ensures { OnOk result (text.new.items ≡ text.old.items ++ byte_heading context sending) }
{
    match sending {
        ByteRole::First => text.extend_from_slice(b"attention\n"),
        ByteRole::Second => Ok(()),
        ByteRole::Data => {
            if context.last.is_data() {
                Ok(())
            } else {
                push_data_heading(text, context.talker)
            }
        }
    }
}

/// Adds the lines of an acknowledged byte. A printer's codes have their names while a printer listens.
fn push_byte(text: &mut Vec<u8>, context: Context, frame: TimedFrame) -> Result<(), NoMemory>
    ensures { OnOk result (text.new.items ≡ text.old.items ++ byte_lines context frame) }
{
    push_heading(text, context, frame.sending)?;
    push_frame(text, context.printer_listens, frame)
}

/// The word for a command or a data byte.
pub(crate) fn byte_word(command: bool) -> &'static [u8]
    ensures { result.now ≡ byte_word command }
{
    if command { b"command " } else { b"byte " }
}

/// Adds what an unacknowledged byte is, and its look.
fn push_byte_place(text: &mut Vec<u8>, transfer: Transfer) -> Result<(), NoMemory>
    ensures { OnOk result (text.new.items ≡ text.old.items ++ byte_place transfer) }
{
    let word = byte_word(transfer.opening.command);
    push_numbered(text, word, transfer.byte as u64)?;
    push_numbered(text, b" at ", transfer.opening.ready_to_send)?;
    text.extend_from_slice(b" us")
}

/// Adds the look of an incomplete byte, and how many bits came.
pub(crate) fn push_incomplete_place(text: &mut Vec<u8>, transfer: Transfer) -> Result<(), NoMemory>
    ensures { OnOk result (text.new.items ≡ text.old.items ++ incomplete_place transfer) }
{
    push_numbered(text, b"glitch at ", transfer.opening.ready_to_send)?;
    push_numbered(text, b" us, bits ", transfer.bits as u64)
}

/// Ends a line by a word and a moment in microseconds.
fn push_moment_end(text: &mut Vec<u8>, word: &[u8], time: u64) -> Result<(), NoMemory>
    ensures { OnOk result (text.new.items ≡ text.old.items ++ moment_end word.now time) }
{
    push_numbered(text, word, time)?;
    text.extend_from_slice(b" us\n")
}

/// Ends a line that the end of the recording cuts.
fn push_cut_end(text: &mut Vec<u8>) -> Result<(), NoMemory>
    ensures { OnOk result (text.new.items ≡ text.old.items ++ cut_end) }
{
    text.extend_from_slice(b", cut by the recording's end\n")
}

/// Adds the lines of a whole byte.
fn push_whole(
    text: &mut Vec<u8>,
    context: Context,
    transfer: Transfer,
    end: FrameEnd,
) -> Result<(), NoMemory>
    ensures { OnOk result (text.new.items ≡ text.old.items ++ frame_text context transfer end) }
{
    match end {
        FrameEnd::Acknowledged(time) => {
            push_byte(text, context, story_frame(context.last, transfer, time))
        }
        FrameEnd::Unacknowledged(time) => {
            push_byte_place(text, transfer)?;
            push_moment_end(text, b", not acknowledged, given up at ", time)
        }
        FrameEnd::Cut => {
            push_byte_place(text, transfer)?;
            push_cut_end(text)
        }
    }
}

/// Adds what ends an incomplete byte.
fn push_incomplete_end(text: &mut Vec<u8>, end: IncompleteEnd) -> Result<(), NoMemory>
    ensures { OnOk result (text.new.items ≡ text.old.items ++ incomplete_end end) }
{
    match end {
        IncompleteEnd::Attention(time) => push_moment_end(text, b", ended by ATN at ", time),
        IncompleteEnd::ClockTimeout(time) => push_moment_end(
            text,
            b", CLOCK released too long at ",
            time,
        ),
        IncompleteEnd::Cut => push_cut_end(text),
    }
}

/// Adds the line of a reading.
fn push_line(text: &mut Vec<u8>, context: Context, reading: &Reading) -> Result<(), NoMemory>
    ensures { OnOk result (text.new.items ≡ text.old.items ++ line_of context reading.now) }
{
    match reading {
        Reading::Frame(transfer, end) => push_whole(text, context, *transfer, *end),
        Reading::IncompleteByte(transfer, end) => {
            push_incomplete_place(text, *transfer)?;
            push_incomplete_end(text, *end)
        }
    }
}

/// Adds the line of an interval that lies outside these bounds.
fn push_outside(
    text: &mut Vec<u8>,
    bounds: Bounds,
    interval: Interval,
    length: u64,
) -> Result<(), NoMemory>
    ensures { OnOk result (text.new.items ≡ text.old.items ++ outside_text bounds interval length) }
{
    text.extend_from_slice(b"    ")?;
    interval.push_measure(text, bounds, length)
}

/// Adds the line of an interval, where a reading has it and it lies outside these bounds.
fn push_if_outside(
    text: &mut Vec<u8>,
    bounds: Bounds,
    interval: Interval,
    reading: &Reading,
) -> Result<(), NoMemory>
    ensures { OnOk result (text.new.items ≡ text.old.items ++ outside_line bounds interval (length_of interval reading.now)) }
{
    let Some(length) = interval.length(reading) else {
        return Ok(());
    };
    if interval.is_outside(bounds, length) {
        push_outside(text, bounds, interval, length)
    } else {
        Ok(())
    }
}

/// Adds the lines of those of some intervals of a reading that lie outside these bounds.
fn push_all_outside(
    text: &mut Vec<u8>,
    bounds: Bounds,
    intervals: &[Interval],
    reading: &Reading,
) -> Result<(), NoMemory>
    ensures { OnOk result (text.new.items ≡ text.old.items ++ outside_lines bounds intervals.now reading.now) }
{
    for interval in intervals {
        push_if_outside(text, bounds, *interval, reading)?;
    }
    Ok(())
}

/// Adds the lines of a reading's intervals, if they are asked for.
fn push_intervals(text: &mut Vec<u8>, detail: Detail, reading: &Reading) -> Result<(), NoMemory>
    ensures { OnOk result (text.new.items ≡ text.old.items ++ lines_if detail.intervals detail.bounds reading.now) }
{
    if detail.intervals {
        push_all_outside(text, detail.bounds, &INTERVALS, reading)
    } else {
        Ok(())
    }
}

/// Adds the lines of a reading to a text. An acknowledged byte has the line that it has in a story, but
/// that a printer's codes have names only while a printer listens, and that the data of a device have another
/// heading: the moments of its look and of its acknowledgement in microseconds, the byte in hexadecimal and
/// what it says. An unacknowledged byte and an incomplete one have lines of their own, with the
/// look, and what ended them and when. If intervals are asked for, a line follows for each that lies
/// outside its bounds, with its length and these bounds. `context` is what comes before;
/// [`Context::after`] gives it for the next reading.
///
/// # Errors
///
/// [`NoMemory`] where a growth of the text was refused. Nothing is promised of the text then.
#[tactic(auto, unfolding(crate::specs::ReadingText::reading_lines))]
pub fn push_reading(
    text: &mut Vec<u8>,
    context: Context,
    reading: &Reading,
    detail: Detail,
) -> Result<(), NoMemory>
    ensures { OnOk result (text.new.items ≡ text.old.items ++ reading_lines detail context reading.now) }
{
    push_line(text, context, reading)?;
    push_intervals(text, detail, reading)
}
