//! A script in, the trace of its run out.

ghost use Rattle.std.specs.Prelude.{◌≡◌, ◌≤◌, ◌<◌, ◌+◌, None, [], length, false, true, IfErr, IfOk, IfSome, OnOk, IsErrOf, ◌↔◌};
ghost use Rattle.pr_serial.specs.Items.{items_of};
ghost use Rattle.pr_basic.specs.Limits.{statement_limit};
ghost use Rattle.pr_bus.specs.DelaysLeft.{numbers_left};
ghost use Rattle.pr_system.specs.RunningState.{begun, next_effect, stepped_by, trace_before};
ghost use Rattle.pr_system.specs.StepByStep.{stepped_through};
ghost use Rattle.pr_jobs.specs.Bus.{AnswersBus, AnswersBusAs, WritesNoEdge};
ghost use Rattle.pr_jobs.specs.Does.{AreFresh, DoesJob};
ghost use Rattle.pr_jobs.specs.Pages.{IsRunFault, ReadsToEnd};
ghost use Rattle.pr_jobs.specs.Runs.{run_end, start_of};
ghost use Rattle.pr_jobs.specs.Traced.{AddsEdges, GivesText, GivesTrace, WritesOn, edges_in, format_of, last_in, last_of};
ghost use Rattle.pr_input.specs.Watched.{has_failed, is_flushed, wrapped};

use crate::fault::CliFault;
use crate::pages::SCRIPT_LIMIT;
use crate::run::{Ending, RunEnd, Start};
use crate::trace_writer::{TraceWriter, trace_head};
use pr_basic::{Statement, StatusMode, read_script};
use pr_bus::Delays;
use pr_capture::{OutputFormat, vcd_adds_up};
use pr_channels::Stop;
use pr_input::{Watched, WriteFault, read_whole, write_whole};
use pr_serial::Present;
use pr_system::Running;
use pr_system::laws::steps_make_the_run;
use pr_wire::Edge;
use std::alloc::Global;
use std::io::{Read, Write};

/// Reads a script to its end, runs it over wires from this start and writes the trace of the run in
/// this format: the trace text, or a Value Change Dump.
///
/// The input is read whole before anything is written. The first edge, `0 111`, is written before
/// the first statement, the edges of each statement before the next one, and a dump's end after the
/// last, so no trace is kept. The answer says which BASIC error stopped the run, if one did, and at
/// which statement.
///
/// # Errors
///
/// - [`CliFault::Script`]: the script is refused, with its first fault.
/// - [`CliFault::TooLarge`]: only if the input has more than [`SCRIPT_LIMIT`] bytes.
/// - [`CliFault::ReadFailed`] exactly if the input has failed, [`CliFault::WriteFailed`] exactly
///   if the output has; after the latter a beginning of the text has been written.
/// - [`CliFault::NoMemory`]: memory was refused; never reported as a script's fault. A beginning
///   of the text may have been written.
///
/// After every other error nothing has been written.
pub fn write_bus_trace<R: Read, W: Write>(
    alloc: Global,
    input: &mut Watched<R>,
    output: &mut Watched<W>,
    start: Start,
    format: OutputFormat,
) -> Result<RunEnd, CliFault>
    // the caller's part
    requires fresh { AreFresh input.old output.old }
    // what it gives
    ensures bus { IfSome (R.remaining (wrapped input.old)) (λ script.
        AnswersBusAs start format script
        (W.contents (wrapped output.old)) (W.contents (wrapped output.new)) result) }
    ensures at_end { ReadsToEnd (R.remaining (wrapped input.new)) result }
    // when it refuses, and what that leaves
    ensures nothing { WritesNoEdge (W.contents (wrapped output.old)) (W.contents (wrapped output.new)) result }
    ensures does { DoesJob IsRunFault input.new output.new result }
{
    steps_make_the_run();
    let script = read_whole(alloc, input, SCRIPT_LIMIT)?;
    let statements = read_script(alloc, &script)?;
    write_run(alloc, output, &statements, start, format)
}

/// Reads a script to its end, runs it over wires with these printers present, these delays and the
/// status going on in this way, and writes the trace of the run as trace text.
///
/// As [`write_bus_trace`] with [`OutputFormat::Text`]. The answer is [`Ending::Stopped`] exactly if a BASIC
/// error stopped the run.
///
/// # Errors
///
/// Those of [`write_bus_trace`]. After `WriteFailed` and `NoMemory` a beginning of the text may have been
/// written, after every other error nothing.
pub fn bus_over<R: Read, W: Write>(
    alloc: Global,
    input: &mut Watched<R>,
    output: &mut Watched<W>,
    present: Present,
    delays: Delays,
    mode: StatusMode,
) -> Result<Ending, CliFault>
    // the caller's part
    requires input { has_failed input.old ≡ false }
    requires output { has_failed output.old ≡ false }
    // what it gives
    ensures bus { IfSome (R.remaining (wrapped input.old)) (λ script.
        AnswersBus (start_of present delays mode) OutputFormat.Text script
        (W.contents (wrapped output.old)) (W.contents (wrapped output.new)) result) }
    ensures at_end { ReadsToEnd (R.remaining (wrapped input.new)) result }
    ensures flushed { OnOk result (is_flushed output.new ≡ true) }
    // when it refuses, and what that leaves
    ensures nothing { WritesNoEdge (W.contents (wrapped output.old)) (W.contents (wrapped output.new)) result }
    ensures memory { IfErr result IsRunFault }
    ensures read_failed { IsErrOf result CliFault.ReadFailed ↔ (has_failed input.new ≡ true) }
    ensures write_failed { IsErrOf result CliFault.WriteFailed ↔ (has_failed output.new ≡ true) }
{
    let start = Start {
        present,
        delays,
        mode,
    };
    let end = write_bus_trace(alloc, input, output, start, OutputFormat::Text)?;
    Ok(end.ending())
}

/// Runs statements from the first one on, and writes the trace. Papers are made too, since
/// `Running` is one machine for both, and the wires cost far more than the printers.
fn write_run<W: Write>(
    alloc: Global,
    output: &mut Watched<W>,
    statements: &[Statement],
    start: Start,
    format: OutputFormat,
) -> Result<RunEnd, CliFault>
    requires fresh { has_failed output.old ≡ false }
    requires few { length statements.now ≤ statement_limit }
    ensures trace { GivesTrace format (stepped_through (begun start.mode start.present (numbers_left start.delays)) statements.now)
        (W.contents (wrapped output.old)) (W.contents (wrapped output.new)) result }
    ensures failed { IsErrOf result CliFault.WriteFailed ↔ (has_failed output.new ≡ true) }
    ensures flushed { OnOk result (is_flushed output.new ≡ true) }
{
    steps_make_the_run();
    let mut running = Running::new(alloc, start.present, start.delays, start.mode)?;
    write_from_start(alloc, output, &mut running, statements, format)
}

/// Performs statements in a run of which none was performed, up to the first that stops, and writes
/// the trace.
fn write_from_start<W: Write>(
    alloc: Global,
    output: &mut Watched<W>,
    running: &mut Running,
    statements: &[Statement],
    format: OutputFormat,
) -> Result<RunEnd, CliFault>
    // the caller's part
    requires fresh { has_failed output.old ≡ false }
    requires none { trace_before running.old ≡ [] }
    requires works { running.old.failed ≡ false }
    requires going { running.old.stop ≡ None }
    requires sent { running.old.items ≡ items_of running.old.elements }
    requires few { length running.old.statuses + length statements.now ≤ statement_limit }
    // what it gives
    ensures trace { GivesTrace format (stepped_through running.old statements.now)
        (W.contents (wrapped output.old)) (W.contents (wrapped output.new)) result }
    ensures flushed { OnOk result (is_flushed output.new ≡ true) }
    // when it refuses, and what that leaves
    ensures failed { IsErrOf result CliFault.WriteFailed ↔ (has_failed output.new ≡ true) }
{
    steps_make_the_run();
    vcd_adds_up();
    let mut writer = TraceWriter::new(format);
    write_some(output, &trace_head(alloc, format)?)?;
    write_edges(alloc, output, &mut writer, running.edges())?;
    let ending = write_steps(alloc, output, &mut writer, running, statements)?;
    write_some(output, &writer.end(alloc)?)?;
    Ok(ending)
}

/// Performs statements up to the first that stops, and writes the edges of each before the next.
fn write_steps<W: Write>(
    alloc: Global,
    output: &mut Watched<W>,
    writer: &mut TraceWriter,
    running: &mut Running,
    statements: &[Statement],
) -> Result<RunEnd, CliFault>
    // the caller's part
    requires fresh { has_failed output.old ≡ false }
    requires works { running.old.failed ≡ false }
    requires going { running.old.stop ≡ None }
    requires sent { running.old.items ≡ items_of running.old.elements }
    requires few { length running.old.statuses + length statements.now ≤ statement_limit }
    // what it gives
    ensures edges { AddsEdges writer.old running.old (stepped_through running.old statements.now)
        (W.contents (wrapped output.old)) (W.contents (wrapped output.new)) result }
    ensures ending { IfOk result (λ end. end ≡ run_end (stepped_through running.old statements.now).stop) }
    ensures written { OnOk result (WritesOn running.old (stepped_through running.old statements.now) writer.old writer.new) }
    ensures flushed { OnOk result (is_flushed output.old ≡ true → is_flushed output.new ≡ true) }
    // when it refuses, and what that leaves
    ensures failed { IsErrOf result CliFault.WriteFailed ↔ (has_failed output.new ≡ true) }
{
    steps_make_the_run();
    vcd_adds_up();
    for statement in statements {
        let stop = write_step(alloc, output, writer, running, statement)?;
        if let Some(stop) = stop {
            return Ok(RunEnd::Stopped {
                statement: running.statuses().len(),
                stop,
            });
        }
    }
    Ok(RunEnd::Done)
}

/// Performs a statement and writes its edges.
fn write_step<W: Write>(
    alloc: Global,
    output: &mut Watched<W>,
    writer: &mut TraceWriter,
    running: &mut Running,
    statement: &Statement,
) -> Result<Option<Stop>, CliFault>
    // the caller's part
    requires fresh { has_failed output.old ≡ false }
    requires works { running.old.failed ≡ false }
    requires going { running.old.stop ≡ None }
    requires sent { running.old.items ≡ items_of running.old.elements }
    requires few { length running.old.statuses < statement_limit }
    // what it gives
    ensures step { OnOk result (running.new ≡ stepped_by running.old statement.now) }
    ensures stop { IfOk result (λ stop. stop ≡ (next_effect running.old statement.now).stop) }
    ensures edges { AddsEdges writer.old running.old (stepped_by running.old statement.now)
        (W.contents (wrapped output.old)) (W.contents (wrapped output.new)) result }
    ensures written { OnOk result (WritesOn running.old (stepped_by running.old statement.now) writer.old writer.new) }
    ensures flushed { OnOk result (is_flushed output.new ≡ true) }
    // when it refuses, and what that leaves
    ensures failed { IsErrOf result CliFault.WriteFailed ↔ (has_failed output.new ≡ true) }
{
    steps_make_the_run();
    vcd_adds_up();
    let stop = running.step(statement)?;
    write_edges(alloc, output, writer, running.edges())?;
    Ok(stop)
}

/// Writes edges after those that the writer has written.
fn write_edges<W: Write>(
    alloc: Global,
    output: &mut Watched<W>,
    writer: &mut TraceWriter,
    edges: &[Edge],
) -> Result<(), CliFault>
    // the caller's part
    requires fresh { has_failed output.old ≡ false }
    // what it gives
    ensures text { GivesText (edges_in (format_of writer.old) (last_of writer.old) edges.now)
        (W.contents (wrapped output.old)) (W.contents (wrapped output.new)) result }
    ensures format { OnOk result (format_of writer.new ≡ format_of writer.old) }
    ensures last { OnOk result (last_of writer.new ≡ last_in (format_of writer.old) (last_of writer.old) edges.now) }
    ensures flushed { OnOk result (is_flushed output.new ≡ true) }
    // when it refuses, and what that leaves
    ensures failed { IsErrOf result CliFault.WriteFailed ↔ (has_failed output.new ≡ true) }
{
    let text = writer.edges(alloc, edges)?;
    write_text(output, &text)
}

/// Writes a text, if there is any of it.
fn write_some<W: Write>(output: &mut Watched<W>, text: &[u8]) -> Result<(), CliFault>
    requires fresh { has_failed output.old ≡ false }
    ensures text { GivesText text.now (W.contents (wrapped output.old)) (W.contents (wrapped output.new)) result }
    ensures failed { IsErrOf result CliFault.WriteFailed ↔ (has_failed output.new ≡ true) }
    ensures flushed { OnOk result (is_flushed output.old ≡ true → is_flushed output.new ≡ true) }
{
    if text.is_empty() {
        return Ok(());
    }
    write_text(output, text)
}

/// Writes a text.
fn write_text<W: Write>(output: &mut Watched<W>, text: &[u8]) -> Result<(), CliFault>
    requires fresh { has_failed output.old ≡ false }
    ensures text { GivesText text.now (W.contents (wrapped output.old)) (W.contents (wrapped output.new)) result }
    ensures failed { IsErrOf result CliFault.WriteFailed ↔ (has_failed output.new ≡ true) }
    ensures flushed { OnOk result (is_flushed output.new ≡ true) }
{
    match write_whole(output, text) {
        Ok(()) => Ok(()),
        Err(WriteFault) => Err(CliFault::WriteFailed),
    }
}
