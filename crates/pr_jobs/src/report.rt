//! A trace in any format in, a report on its frames out.

ghost use Rattle.std.specs.Prelude.{◌≡◌, ◌+◌, ◌^◌, ◌<◌, ◌≤◌, ◌↔◌, length, false, true, None, Some, IfErr, IfOk, IfSome, IsErrOf, OnErr, OnOk};
ghost use Rattle.pr_report.specs.declared.report.Report.{Report};
ghost use Rattle.pr_jobs.specs.Check.{trace_limit};
ghost use Rattle.pr_jobs.specs.Does.{AreFresh, DoesJob};
ghost use Rattle.pr_jobs.specs.Report.{AnswersReport, IsReportFault, ReadsAll, WritesNoReport, IsNoReading};
ghost use Rattle.pr_jobs.specs.Inputs.{edges_read, lines_ahead};
ghost use Rattle.pr_jobs.specs.Reported.{EndsReported, GivesReport, HasReadAll, IsRefused, WritesText, edges_counted};
ghost use Rattle.pr_input.specs.Watched.{has_failed, is_flushed, wrapped};

use crate::check::CHECK_LIMIT;
use crate::fault::CliFault;
use crate::input_reader::InputReader;
use crate::reporter::ReportText;
use crate::trace_reporter::TraceReporter;
use pr_capture::TraceInput;
use pr_input::{BLOCK, Watched, WriteFault, write_whole};
use pr_report::Report;
use std::alloc::{AllocError, Global};
use std::io::{Read, Write};

/// Reads a trace in any format and writes a report on it: a line for each frame, as
/// [`crate::check_over`] does, or its story, which has the moments too; and then `lawful`.
///
/// A trace text says its edges. A recording, as a Value Change Dump or as a table of comma separated
/// values, says samples of the signals with these names, from which the edges are made, counted from
/// the start asked for, or from the first sample where that is later: there the three levels are first
/// known (and the lines have to be released). A trace is lawful by this project's profile; recordings of real hardware differ from it. The input is read
/// block by block and not kept, and the whole report is made before the first write.
///
/// # Errors
///
/// - [`CliFault::Trace`]: a trace text with its first bad line; [`CliFault::Capture`]: a recording with
///   its first fault. No further block is read, and it is reported before any fault of the edges.
/// - [`CliFault::Wave`]: the edges are no lawful trace, with their first fault.
/// - [`CliFault::TooLarge`]: only if the input has more than [`CHECK_LIMIT`] bytes.
/// - [`CliFault::ReadFailed`] exactly if the input has failed, [`CliFault::WriteFailed`] exactly if the
///   output has; after the latter a beginning of the text has been written.
/// - [`CliFault::NoMemory`]: memory was refused.
///
/// With one of the first three the story up to there has been written, without `lawful`. After every
/// other error but `WriteFailed`, and of [`Report::Frames`] also with these three, nothing has been
/// written.
#[inline(never)]
pub fn write_check_report<R: Read, W: Write>(
    alloc: Global,
    input: &mut Watched<R>,
    output: &mut Watched<W>,
    trace: TraceInput<'_>,
    report: Report,
) -> Result<(), CliFault>
    // the caller's part
    requires fresh { AreFresh input.old output.old }
    // what it gives
    ensures check { IfSome (R.remaining (wrapped input.old)) (λ text.
        AnswersReport trace.entry report text (W.contents (wrapped output.old)) (W.contents (wrapped output.new)) result) }
    ensures at_end { ReadsAll report (R.remaining (wrapped input.new)) result }
    // when it refuses, and what that leaves
    ensures nothing { WritesNoReport report (W.contents (wrapped output.old)) (W.contents (wrapped output.new)) result }
    ensures does { DoesJob IsReportFault input.new output.new result }
{
    let text = report_input(alloc, input, trace, report, CHECK_LIMIT)?;
    let text = unless_withheld(report, text)?;
    write_report_text(output, text)
}

/// The report; frames of a refused trace are withheld: then nothing is written.
fn unless_withheld(report: Report, text: ReportText) -> Result<ReportText, CliFault>
    ensures same { IfOk result (λ t. t ≡ text) }
    ensures told { OnOk result (report ≡ Report.Frames → text.refused ≡ None) }
    ensures frames { OnErr result (report ≡ Report.Frames) }
    ensures refused { IfErr result (λ fault. text.refused ≡ Some fault) }
{
    match (report, text.refused) {
        (Report::Frames, Some(fault)) => Err(fault),
        _ => Ok(text),
    }
}

/// Writes the lines of a report, and answers why the trace is refused, if it is.
fn write_report_text<W: Write>(output: &mut Watched<W>, text: ReportText) -> Result<(), CliFault>
    requires fresh { has_failed output.old ≡ false }
    requires refused { IsRefused text }
    ensures written { WritesText text (W.contents (wrapped output.old)) (W.contents (wrapped output.new)) result }
    ensures failed { IsErrOf result CliFault.WriteFailed ↔ (has_failed output.new ≡ true) }
    ensures flushed { OnOk result (is_flushed output.new ≡ true) }
{
    match write_whole(output, text.lines.as_slice()) {
        Ok(()) => {}
        Err(WriteFault) => return Err(CliFault::WriteFailed),
    }
    match text.refused {
        None => Ok(()),
        Some(fault) => Err(fault),
    }
}

/// Reads an input of at most `limit` bytes to its end or to its fault, block by block, and makes
/// the report on it. Of a recording with a fault the samples before it make edges too, the last
/// included. It is public with the limit as an argument, since no test can try the program's own
/// limit.
///
/// # Errors
///
/// Those of [`write_check_report`] but a failed write, with `limit` instead of
/// [`CHECK_LIMIT`](crate::CHECK_LIMIT). A trace that is refused with lines before its fault is no error here: the
/// report has the lines and the fault. This call writes nothing.
pub fn report_input<R: Read>(
    alloc: Global,
    input: &mut Watched<R>,
    trace: TraceInput<'_>,
    report: Report,
    limit: usize,
) -> Result<ReportText, CliFault>
    // the caller's part
    requires fresh { has_failed input.old ≡ false }
    requires few { limit ≤ trace_limit }
    // what it gives
    ensures report { IfSome (R.remaining (wrapped input.old)) (λ text. GivesReport limit trace.entry report result text) }
    ensures at_end { HasReadAll (R.remaining (wrapped input.new)) result }
    // when it refuses, and what that leaves
    ensures refused { IfOk result IsRefused }
    ensures own { IfErr result IsNoReading }
    ensures failed { IsErrOf result CliFault.ReadFailed ↔ (has_failed input.new ≡ true) }
{
    let mut reader = InputReader::new(alloc, trace, limit);
    let mut frames = TraceReporter::new(alloc, trace.source, report);
    let mut block = [0u8; BLOCK];
    'pieces: loop {
        if !reader.read_block(input, &mut block)? {
            return Ok(last_report(reader, frames)?);
        }
        frames.take_all(reader.edges())?;
    }
}

/// Ends an input, and gives the report on it.
fn last_report(reader: InputReader<'_>, mut frames: TraceReporter) -> Result<ReportText, AllocError>
    requires lines { lines_ahead reader + 1 < 2 ^ 64 }
    requires edges { edges_counted frames + length (edges_read reader) + 19 < 2 ^ 64 }
    ensures { IfOk result (λ text. EndsReported reader.entry frames text) }
{
    let last = reader.finish()?;
    frames.take_all(last.edges.as_slice())?;
    frames.finish(last.fault)
}
