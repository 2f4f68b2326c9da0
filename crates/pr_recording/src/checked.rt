//! A trace in any format in, its readings as JSON out, and whether it is lawful.

ghost use Rattle.std.specs.Prelude.{IfSome};
ghost use Rattle.pr_jobs.specs.Does.{AreFresh, DoesJob};
ghost use Rattle.pr_input.specs.Watched.{wrapped};
ghost use Rattle.pr_report.specs.declared.report.Report.TheVariants.{Story};
ghost use Rattle.pr_jobs.specs.Report.{IsReportFault, ReadsAll};
ghost use Rattle.pr_recording.specs.Checked.{AnswersJson};

use crate::decode::{tell_input, without_odd};
use crate::wording::Wording;
use pr_capture::TraceInput;
use pr_jobs::{CHECK_LIMIT, CliFault, Watched};
use std::alloc::Global;
use std::io::{Read, Write};

/// Reads a trace in any format and writes its readings as lines of JSON, and a line that says whether it is lawful: the
/// lines that [`crate::decode_over`] writes, as it writes them. A trace that is not lawful is refused with the fault that
/// [`pr_jobs::write_check_report`] reports of it.
///
/// # Errors
///
/// - [`CliFault::Trace`]: a trace text with its first bad line; [`CliFault::Capture`]: a recording with its first
///   fault. No further block is read, and it is reported before any fault of the edges.
/// - [`CliFault::Wave`]: the edges are no lawful trace, with their first fault. The input has been read to its end.
/// - [`CliFault::TooLarge`]: only if the input has more than [`CHECK_LIMIT`] bytes.
/// - [`CliFault::ReadFailed`] exactly if the input has failed, [`CliFault::WriteFailed`] exactly if the output has.
/// - [`CliFault::NoMemory`]: memory was refused.
///
/// With the first three the same lines have been written as by [`crate::decode_over`]: where time goes back at no edge and
/// the input has no fault, all of them, with the line that says that the trace is not lawful; else those of all that is
/// settled before. With every other error a beginning of the whole text has been written.
pub fn check_json_over<R: Read, W: Write>(
    alloc: Global,
    input: &mut Watched<R>,
    output: &mut Watched<W>,
    trace: TraceInput<'_>,
) -> Result<(), CliFault>
    // the caller's part
    requires fresh { AreFresh input.old output.old }
    // what it gives
    ensures check { IfSome (R.remaining (wrapped input.old)) (λ text.
        AnswersJson trace.entry text (W.contents (wrapped output.old)) (W.contents (wrapped output.new)) result) }
    ensures at_end { ReadsAll Story (R.remaining (wrapped input.new)) result }
    // when it refuses, and what that leaves
    ensures does { DoesJob IsReportFault input.new output.new result }
{
    without_odd(tell_input(
        alloc,
        input,
        output,
        trace,
        Wording::Json,
        true,
        CHECK_LIMIT,
    ))
}
