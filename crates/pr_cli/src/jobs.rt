//! A job done over any reader and writer, and the exit statuses.

ghost use Rattle.std.specs.Prelude.{◌≡◌, false, true, IfSome};
ghost use Rattle.pr_jobs.specs.Bus.{AnswersBus, WritesNoEdge};
ghost use Rattle.pr_jobs.specs.Does.{AreFresh, DoesJob};
ghost use Rattle.pr_jobs.specs.Pages.{AnswersPages, IsRunFault, ReadsToEnd, WritesNothing};
ghost use Rattle.pr_jobs.specs.Report.{IsReportFault};
ghost use Rattle.pr_input.specs.Watched.{wrapped};
ghost use Rattle.pr_cli.specs.Jobs.{AnswersJob, AnswersRecording, AnswersRun, AnswersTrace, AnswersTraced, IsJobFault, IsPrintFault, IsRecordingFault, KeepsOutput, KeepsRun, KeepsTrace, ReadsInput, ReadsRecording, ReadsTrace, found_input, found_job, listening_of, restarted_job, seen_format, seen_job, seen_output, seen_reading};

use crate::script_text::script_over;
use pr_capture::{InputFormat, OutputFormat, TraceInput, found_format};
use pr_dots::Shapes;
use pr_jobs::{
    CliFault, Ending, PagesEnd, RunEnd, Start, Watched, bus_over, check_over, pages_over, raw_over,
    write_bus_trace, write_check_report, write_pages,
};
use pr_options::{CheckOutput, DecodeOutput, Hearing, Job, PagesOutput};
use pr_recording::{
    Heard, Listening, Overheard, Reprinted, Wording, bytes_over, check_json_over, decode_over,
    reprint_over, run_bytes_over,
};
use pr_render::{Format, Look};
use pr_report::{Oddities, Report};
use std::alloc::Global;
use std::io::{Read, Write};

/// How a job ended.
#[derive(Clone, Copy, Debug, PartialEq, Eq)]
pub enum JobEnd {
    /// It wrote what was asked for. Of a run this does not say which error stopped it, and where.
    Ended(Ending),
    /// It wrote what was asked for of a run that ended so.
    Ran(RunEnd),
    /// It wrote the pages of a run that ended so, or the page of a printer's bytes, which no error stops.
    Printed(PagesEnd),
    /// It wrote the bytes that a printer hears in a run, which do not say what [`Heard`] does.
    Heard(RunEnd, Heard),
    /// It wrote those that a printer hears in a recording, of which this is said.
    Overheard(Overheard),
    /// It wrote the pages of a recording, of which this is said.
    Reprinted(Reprinted),
    /// It wrote the readings of a recording as a list, which says what of this is odd, and not how many pulses are brief.
    Listed(Oddities),
    /// It wrote the readings of a recording as JSON, which do not say that this is odd about it.
    Remarked(Oddities),
}

/// Returns the job with the format that the first bytes of its recording show, where it has to be found; every other job
/// as it is. All else that the job says stays.
pub fn found_job<'a>(job: Job<'a>, first: &[u8]) -> Job<'a>
    ensures { result ≡ found_job first.now job.entry }
{
    match job {
        Job::Check {
            is_found: true,
            input,
            output,
        } => Job::Check {
            is_found: false,
            input: found_input(input, first),
            output,
        },
        Job::Decode {
            is_found: true,
            input,
            output,
        } => Job::Decode {
            is_found: false,
            input: found_input(input, first),
            output,
        },
        _ => job,
    }
}

/// How to read a recording in the format that its first bytes show.
fn found_input<'a>(input: TraceInput<'a>, first: &[u8]) -> TraceInput<'a>
    ensures { result ≡ found_input first.now input.entry }
{
    TraceInput {
        source: found_format(input.source, first),
        ..input
    }
}

/// Returns the job with another start of its trace, where it reads one. All else that the job says stays.
pub fn restarted_job<'a>(job: Job<'a>, start: u64) -> Job<'a>
    ensures { result ≡ restarted_job start job.entry }
{
    match job {
        Job::Check {
            is_found,
            input,
            output,
        } => Job::Check {
            is_found,
            input: TraceInput { start, ..input },
            output,
        },
        Job::Decode {
            is_found,
            input,
            output,
        } => Job::Decode {
            is_found,
            input: TraceInput { start, ..input },
            output,
        },
        _ => job,
    }
}

/// The format for a terminal: lines show what is printed in reverse in its reverse video.
fn seen_format(format: Format) -> Format
    ensures { result ≡ seen_format format }
{
    match format {
        Format::Lines(_) => Format::Lines(Look::Video),
        _ => format,
    }
}

/// What is written of a run, with pages as they are for a terminal.
fn seen_output(output: PagesOutput) -> PagesOutput
    ensures { result ≡ seen_output output }
{
    match output {
        PagesOutput::Pages(format) => PagesOutput::Pages(seen_format(format)),
        PagesOutput::Bytes(_) => output,
    }
}

/// What is written of a recording, with pages as they are for a terminal.
fn seen_reading(output: DecodeOutput) -> DecodeOutput
    ensures { result ≡ seen_reading output }
{
    match output {
        DecodeOutput::Pages(format, hearing) => DecodeOutput::Pages(seen_format(format), hearing),
        _ => output,
    }
}

/// Returns the job with its pages as they are for a terminal, where it writes pages. All else that the job says stays.
pub fn seen_job<'a>(job: Job<'a>) -> Job<'a>
    ensures { result ≡ seen_job job.entry }
{
    match job {
        Job::Pages(form, present, delays, mode, output) => {
            Job::Pages(form, present, delays, mode, seen_output(output))
        }
        Job::Decode {
            is_found,
            input,
            output,
        } => Job::Decode {
            is_found,
            input,
            output: seen_reading(output),
        },
        Job::Raw { lower, format } => Job::Raw {
            lower,
            format: seen_format(format),
        },
        _ => job,
    }
}

/// Does a job: reads the input and writes what the job's own fields ask for. The input of `pages` and
/// `bus` is a script's text, whatever form the listing has: `answers` gives the text of a listing in
/// another form. So it gives the format of a recording where it has to be found. Pictures draw characters in
/// these shapes.
///
/// It takes the whole [`Job`]: only the form of a listing, and whether a recording's format has to be
/// found, is read from it elsewhere, so every use of a format, a set or a delay is proved.
///
/// The answer is that a run is stopped exactly if a BASIC error stopped the run of a script. Where `is_located`, it always
/// says which error that was, and at which statement. Of pages in any format but a list it always says what the printers
/// hold.
///
/// # Errors
///
/// Those of the job's call: [`pr_jobs::write_pages`] for pages, or [`pr_jobs::pages_over`] for a list of marks where
/// nobody asks for a stop's place, and [`pr_recording::run_bytes_over`] for bytes;
/// [`crate::script_text::script_over`] for a script; [`pr_jobs::write_bus_trace`], or
/// [`pr_jobs::bus_over`] for a trace text where nobody asks for a stop's place; [`pr_jobs::check_over`] for the frames
/// of a trace text, [`pr_recording::check_json_over`] for the JSON of any trace, and else
/// [`pr_jobs::write_check_report`]; [`pr_recording::decode_over`] for a list and for JSON, [`pr_recording::bytes_over`], and
/// [`pr_recording::reprint_over`] for pages; [`pr_jobs::raw_over`]. They leave what they leave there. A read failed exactly
/// if the input has failed, and a write exactly if the output has.
pub fn do_job<R: Read, W: Write>(
    alloc: Global,
    input: &mut Watched<R>,
    output: &mut Watched<W>,
    job: Job<'_>,
    shapes: &Shapes,
    is_located: bool,
) -> Result<JobEnd, CliFault>
    // the caller's part
    requires fresh { AreFresh input.old output.old }
    // what it gives
    ensures job { IfSome (R.remaining (wrapped input.old)) (λ text.
        AnswersJob is_located shapes.now job.entry text (W.contents (wrapped output.old)) (W.contents (wrapped output.new)) result) }
    ensures at_end { ReadsInput job.entry (R.remaining (wrapped input.new)) result }
    // when it refuses, and what that leaves
    ensures nothing { KeepsOutput is_located job.entry
        (W.contents (wrapped output.old)) (W.contents (wrapped output.new)) result }
    ensures does { DoesJob (IsJobFault job.entry) input.new output.new result }
{
    match job {
        Job::Pages(_, present, delays, mode, wanted) => {
            let start = Start {
                present,
                delays,
                mode,
            };
            print_run(alloc, input, output, start, wanted, shapes, is_located)
        }
        Job::Bus(_, present, delays, mode, format) => {
            let start = Start {
                present,
                delays,
                mode,
            };
            trace_run(alloc, input, output, start, format, is_located)
        }
        Job::Script(_) => {
            script_over(alloc, input, output)?;
            Ok(JobEnd::Ended(Ending::Done))
        }
        Job::Check {
            input: trace,
            output: wanted,
            ..
        } => {
            check_trace(alloc, input, output, trace, wanted)?;
            Ok(JobEnd::Ended(Ending::Done))
        }
        Job::Decode {
            input: trace,
            output: wanted,
            ..
        } => decode_recording(alloc, input, output, trace, wanted, shapes),
        Job::Raw { lower, format } => {
            let page = raw_over(alloc, input, output, lower, format, shapes)?;
            Ok(JobEnd::Printed(page))
        }
    }
}

/// Runs a script and writes the bytes that a printer hears in its run, or its pages: a list of marks by the call for that
/// alone where nobody asks which error stopped the run.
#[inline(never)]
fn print_run<R: Read, W: Write>(
    alloc: Global,
    input: &mut Watched<R>,
    output: &mut Watched<W>,
    start: Start,
    wanted: PagesOutput,
    shapes: &Shapes,
    is_located: bool,
) -> Result<JobEnd, CliFault>
    // the caller's part
    requires fresh { AreFresh input.old output.old }
    // what it gives
    ensures run { IfSome (R.remaining (wrapped input.old)) (λ text.
        AnswersRun is_located shapes.now start wanted text
        (W.contents (wrapped output.old)) (W.contents (wrapped output.new)) result) }
    ensures at_end { ReadsToEnd (R.remaining (wrapped input.new)) result }
    // when it refuses, and what that leaves
    ensures nothing { WritesNothing (W.contents (wrapped output.old)) (W.contents (wrapped output.new)) result }
    ensures does { DoesJob (IsPrintFault wanted) input.new output.new result }
{
    match (wanted, is_located) {
        (PagesOutput::Pages(Format::List), false) => {
            let ending = list_run(alloc, input, output, start, shapes)?;
            Ok(JobEnd::Ended(ending))
        }
        (PagesOutput::Pages(format), _) => {
            let end = write_pages(alloc, input, output, start, format, shapes)?;
            Ok(JobEnd::Printed(end))
        }
        (PagesOutput::Bytes(device), _) => {
            let (end, heard) = run_bytes_over(alloc, input, output, start, device)?;
            Ok(JobEnd::Heard(end, heard))
        }
    }
}

/// Runs a script and writes the list of marks of its run. A list draws no characters, so these shapes change nothing.
fn list_run<R: Read, W: Write>(
    alloc: Global,
    input: &mut Watched<R>,
    output: &mut Watched<W>,
    start: Start,
    shapes: &Shapes,
) -> Result<Ending, CliFault>
    // the caller's part
    requires fresh { AreFresh input.old output.old }
    // what it gives
    ensures pages { IfSome (R.remaining (wrapped input.old)) (λ script.
        AnswersPages shapes.now start Format.List script
        (W.contents (wrapped output.old)) (W.contents (wrapped output.new)) result) }
    ensures at_end { ReadsToEnd (R.remaining (wrapped input.new)) result }
    // when it refuses, and what that leaves
    ensures nothing { WritesNothing (W.contents (wrapped output.old)) (W.contents (wrapped output.new)) result }
    ensures does { DoesJob IsRunFault input.new output.new result }
{
    let _ = shapes;
    let Start {
        present,
        delays,
        mode,
    } = start;
    pages_over(alloc, input, output, present, delays, mode)
}

/// Runs a script and writes the trace of its run: a trace text by the call for that alone where nobody asks which error
/// stopped the run.
#[inline(never)]
fn trace_run<R: Read, W: Write>(
    alloc: Global,
    input: &mut Watched<R>,
    output: &mut Watched<W>,
    start: Start,
    format: OutputFormat,
    is_located: bool,
) -> Result<JobEnd, CliFault>
    // the caller's part
    requires fresh { AreFresh input.old output.old }
    // what it gives
    ensures bus { IfSome (R.remaining (wrapped input.old)) (λ script.
        AnswersTraced is_located start format script
        (W.contents (wrapped output.old)) (W.contents (wrapped output.new)) result) }
    ensures at_end { ReadsToEnd (R.remaining (wrapped input.new)) result }
    // when it refuses, and what that leaves
    ensures nothing { KeepsRun is_located (W.contents (wrapped output.old)) (W.contents (wrapped output.new)) result }
    ensures does { DoesJob IsRunFault input.new output.new result }
{
    match (format, is_located) {
        (OutputFormat::Text, false) => {
            let ending = text_run(alloc, input, output, start)?;
            Ok(JobEnd::Ended(ending))
        }
        _ => {
            let end = write_bus_trace(alloc, input, output, start, format)?;
            Ok(JobEnd::Ran(end))
        }
    }
}

/// Runs a script and writes the trace text of its run.
fn text_run<R: Read, W: Write>(
    alloc: Global,
    input: &mut Watched<R>,
    output: &mut Watched<W>,
    start: Start,
) -> Result<Ending, CliFault>
    // the caller's part
    requires fresh { AreFresh input.old output.old }
    // what it gives
    ensures bus { IfSome (R.remaining (wrapped input.old)) (λ script.
        AnswersBus start OutputFormat.Text script
        (W.contents (wrapped output.old)) (W.contents (wrapped output.new)) result) }
    ensures at_end { ReadsToEnd (R.remaining (wrapped input.new)) result }
    // when it refuses, and what that leaves
    ensures nothing { WritesNoEdge (W.contents (wrapped output.old)) (W.contents (wrapped output.new)) result }
    ensures does { DoesJob IsRunFault input.new output.new result }
{
    let Start {
        present,
        delays,
        mode,
    } = start;
    bus_over(alloc, input, output, present, delays, mode)
}

/// Checks a trace and writes what it says: its readings as JSON, the frames of a trace text, or else the report asked for.
#[inline(never)]
fn check_trace<R: Read, W: Write>(
    alloc: Global,
    input: &mut Watched<R>,
    output: &mut Watched<W>,
    trace: TraceInput<'_>,
    wanted: CheckOutput,
) -> Result<(), CliFault>
    // the caller's part
    requires fresh { AreFresh input.old output.old }
    // what it gives
    ensures trace { IfSome (R.remaining (wrapped input.old)) (λ text.
        AnswersTrace trace.entry wanted text (W.contents (wrapped output.old)) (W.contents (wrapped output.new)) result) }
    ensures at_end { ReadsTrace wanted (R.remaining (wrapped input.new)) result }
    // when it refuses, and what that leaves
    ensures nothing { KeepsTrace wanted (W.contents (wrapped output.old)) (W.contents (wrapped output.new)) result }
    ensures does { DoesJob IsReportFault input.new output.new result }
{
    match (trace.source, wanted) {
        (_, CheckOutput::Json) => check_json_over(alloc, input, output, trace),
        (InputFormat::Text, CheckOutput::Report(Report::Frames)) => check_over(
            alloc, input, output,
        ),
        (_, CheckOutput::Report(report)) => write_check_report(alloc, input, output, trace, report),
    }
}

/// Reads a recording and writes what it says: its readings, the bytes that a printer hears in it, or its pages.
#[inline(never)]
fn decode_recording<R: Read, W: Write>(
    alloc: Global,
    input: &mut Watched<R>,
    output: &mut Watched<W>,
    trace: TraceInput<'_>,
    wanted: DecodeOutput,
    shapes: &Shapes,
) -> Result<JobEnd, CliFault>
    // the caller's part
    requires fresh { AreFresh input.old output.old }
    // what it gives
    ensures recording { IfSome (R.remaining (wrapped input.old)) (λ text.
        AnswersRecording shapes.now trace.entry wanted text
        (W.contents (wrapped output.old)) (W.contents (wrapped output.new)) result) }
    ensures at_end { ReadsRecording wanted (R.remaining (wrapped input.new)) result }
    // when it refuses, and what that leaves
    ensures does { DoesJob (IsRecordingFault wanted) input.new output.new result }
{
    match wanted {
        DecodeOutput::Readings(detail) => {
            let odd = decode_over(alloc, input, output, trace, Wording::Lines(detail))?;
            Ok(JobEnd::Listed(odd))
        }
        DecodeOutput::Json => {
            let odd = decode_over(alloc, input, output, trace, Wording::Json)?;
            Ok(JobEnd::Remarked(odd))
        }
        DecodeOutput::Bytes(device, hearing) => {
            let listening = listening_of(hearing);
            let said = bytes_over(alloc, input, output, trace, listening, device)?;
            Ok(JobEnd::Overheard(said))
        }
        DecodeOutput::Pages(format, hearing) => {
            let listening = listening_of(hearing);
            let said = reprint_over(alloc, input, output, trace, listening, format, shapes)?;
            Ok(JobEnd::Reprinted(said))
        }
    }
}

/// The printers that listen when a recording begins.
fn listening_of(hearing: Hearing) -> Listening
    ensures { result ≡ listening_of hearing }
{
    let Hearing {
        listening,
        lower,
        ..
    } = hearing;
    Listening {
        printers: listening,
        lower,
    }
}
