//! A recording in any format in, what it says out.

ghost use Rattle.std.specs.Prelude.{◌≡◌, ◌≢◌, ◌+◌, ◌*◌, ◌^◌, ◌<◌, ◌≤◌, ◌↔◌, length, false, true, None, IfErr, IfOk, IfSome, IsErr, IsErrOf, OnErr, OnOk, Some};
ghost use Rattle.std.specs.Io.KnownBytes.{Appends};
ghost use Rattle.pr_jobs.specs.Check.{trace_limit};
ghost use Rattle.pr_jobs.specs.Does.{AreFresh, DoesJob, TellsFailures};
ghost use Rattle.pr_input.specs.PartlyWritten.{AppendsFront};
ghost use Rattle.pr_jobs.specs.Inputs.{edges_read, lines_ahead};
ghost use Rattle.pr_input.specs.Watched.{has_failed, is_flushed, wrapped};
ghost use Rattle.pr_recording.specs.Decoded.{AnswersDecode, IsDecodeFault, ReadsAll, without_odd};
ghost use Rattle.pr_recording.specs.Narrated.{EndsNarrated, GivesUp, WritesEnd, lines_in, load};
ghost use Rattle.pr_recording.specs.Told.{AnswersTold, HasReadTo, IsRefusal};

use crate::decode_report::{DecodeReport, Ended};
use crate::wording::Wording;
use pr_capture::TraceInput;
use pr_decode::readings_add_up;
use pr_jobs::{
    BLOCK, CHECK_LIMIT, CliFault, InputReader, Watched, WriteFault, read_edges_come_first,
    write_piece, write_whole,
};
use pr_report::Oddities;
use std::alloc::{AllocError, Global};
use std::io::{Read, Write};

/// Reads any recording of the bus, in any format, and writes what it says. In lines these are the readings, as
/// [`pr_report::push_reading`] makes them, their summary, the verdict by the bounds that are asked for
/// ([`pr_report::Survey::push_conclusion`]), and what is odd; in JSON the readings and whether the recording is
/// lawful by this project's profile. The answer is what is odd about the recording, which JSON does not say, with how many
/// pulses are brief, which no text says.
///
/// The recording may begin anywhere and have any levels. It is read block by block; what a block settles
/// is written before the next is read, and nothing of it is kept but one block's edges and 1.3 megabytes
/// of counters.
///
/// # Errors
///
/// - [`CliFault::Trace`]: a trace text with its first bad line; [`CliFault::Capture`]: a recording with
///   its first fault. No further block is read.
/// - [`CliFault::Wave`] with [`pr_wire::WaveFault::Order`]: a trace text in which time goes back, with the
///   index of the first edge that is earlier than the one before it, unless a bad line comes before
///   that. The rest of the text is read, to its end or to its first bad line.
/// - [`CliFault::TooLarge`]: only if the input has more than [`CHECK_LIMIT`] bytes.
/// - [`CliFault::ReadFailed`] exactly if the input has failed, [`CliFault::WriteFailed`] exactly if the
///   output has.
/// - [`CliFault::NoMemory`]: memory was refused.
///
/// With the first three the lines of all that is settled before the fault have been written. With every
/// other error a beginning of the whole text has been written.
pub fn decode_over<R: Read, W: Write>(
    alloc: Global,
    input: &mut Watched<R>,
    output: &mut Watched<W>,
    trace: TraceInput<'_>,
    wording: Wording,
) -> Result<Oddities, CliFault>
    // the caller's part
    requires fresh { AreFresh input.old output.old }
    // what it gives
    ensures decode { IfSome (R.remaining (wrapped input.old)) (λ text.
        AnswersDecode trace_limit wording trace.entry text (W.contents (wrapped output.old)) (W.contents (wrapped output.new)) result) }
    ensures at_end { ReadsAll (R.remaining (wrapped input.new)) result }
    // when it refuses, and what that leaves
    ensures does { DoesJob IsDecodeFault input.new output.new result }
{
    tell_input(alloc, input, output, trace, wording, false, CHECK_LIMIT)
}

/// An answer without what is odd.
pub(crate) fn without_odd(answer: Result<Oddities, CliFault>) -> Result<(), CliFault>
    ensures { result ≡ without_odd answer }
{
    match answer {
        Ok(_) => Ok(()),
        Err(fault) => Err(fault),
    }
}

/// Reads a recording of at most `limit` bytes and writes what it says, block by block. What is checked is refused
/// unless it is lawful, anything else only where it cannot be read to its end. Answers what is odd about it.
///
/// # Errors
///
/// Those of [`decode_over`], or of [`crate::check_json_over`] for what is checked, with `limit` instead of
/// [`CHECK_LIMIT`], and what they leave is the same.
pub fn tell_input<R: Read, W: Write>(
    alloc: Global,
    input: &mut Watched<R>,
    output: &mut Watched<W>,
    trace: TraceInput<'_>,
    wording: Wording,
    is_checked: bool,
    limit: usize,
) -> Result<Oddities, CliFault>
    // the caller's part
    requires fresh { AreFresh input.old output.old }
    requires few { limit ≤ trace_limit }
    // what it gives
    ensures told { IfSome (R.remaining (wrapped input.old)) (λ text.
        AnswersTold limit wording is_checked trace.entry text (W.contents (wrapped output.old)) (W.contents (wrapped output.new)) result) }
    ensures at_end { HasReadTo is_checked (R.remaining (wrapped input.new)) result }
    // when it refuses, and what that leaves
    ensures own { IfErr result (IsRefusal is_checked) }
    ensures does { TellsFailures input.new output.new result }
{
    readings_add_up();
    read_edges_come_first();
    let mut reader = InputReader::new(alloc, trace, limit);
    let mut report = DecodeReport::new(alloc, trace.source, wording)?;
    let mut block = [0u8; BLOCK];
    'pieces: loop {
        if !reader.read_block(input, &mut block)? {
            return write_end(output, end_input(reader, report, trace, is_checked)?);
        }
        report.take_all(reader.edges())?;
        write_lines(output, &mut report)?;
    }
}

/// Ends an input, and gives the last of what is written of it.
fn end_input(
    reader: InputReader<'_>,
    mut report: DecodeReport,
    trace: TraceInput<'_>,
    is_checked: bool,
) -> Result<Ended, AllocError>
    requires lines { lines_ahead reader + 1 < 2 ^ 64 }
    requires edges { load report + 3 * length (edges_read reader) + 57 < 2 ^ 64 }
    ensures { IfOk result (λ ended. EndsNarrated trace.entry is_checked reader.entry report ended) }
{
    let last = reader.finish()?;
    report.take_all(last.edges.as_slice())?;
    report.finish(trace, last.fault, is_checked)
}

/// Writes the lines that are not written yet.
fn write_lines<W: Write>(output: &mut Watched<W>, report: &mut DecodeReport) -> Result<(), CliFault>
    // the caller's part
    requires fresh { has_failed output.old ≡ false }
    // what it gives
    ensures ok { OnOk result (Appends (W.contents (wrapped output.old)) (W.contents (wrapped output.new)) (lines_in report.old)) }
    ensures given { OnOk result (GivesUp report.old report.new) }
    ensures count { OnOk result (load report.new ≡ load report.old) }
    // when it refuses, and what that leaves
    ensures err { OnErr result (AppendsFront (W.contents (wrapped output.old)) (W.contents (wrapped output.new)) (lines_in report.old)) }
    ensures own { IfErr result (λ fault. fault ≡ CliFault.WriteFailed) }
    ensures failed { IsErr result ↔ (has_failed output.new ≡ true) }
{
    match write_piece(output, report.lines()) {
        Ok(()) => {
            report.clear();
            Ok(())
        }
        Err(WriteFault) => Err(CliFault::WriteFailed),
    }
}

/// Writes the last of the output, and answers what is odd, or why the recording is refused, if it is.
fn write_end<W: Write>(output: &mut Watched<W>, ended: Ended) -> Result<Oddities, CliFault>
    requires fresh { has_failed output.old ≡ false }
    requires refused { ended.refused ≢ Some CliFault.WriteFailed }
    ensures written { WritesEnd ended (W.contents (wrapped output.old)) (W.contents (wrapped output.new)) result }
    ensures failed { IsErrOf result CliFault.WriteFailed ↔ (has_failed output.new ≡ true) }
    ensures flushed { OnOk result (is_flushed output.new ≡ true) }
{
    match write_whole(output, ended.lines.as_slice()) {
        Ok(()) => {}
        Err(WriteFault) => return Err(CliFault::WriteFailed),
    }
    match ended.refused {
        None => Ok(ended.odd),
        Some(fault) => Err(fault),
    }
}
