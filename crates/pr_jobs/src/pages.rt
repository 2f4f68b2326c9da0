//! A script in, the pages of its run out.

ghost use Rattle.std.specs.Prelude.{◌≡◌, ◌≤◌, ◌+◌, None, length, false, true, IfErr, IfSome, OnOk, IsErrOf, ◌↔◌};
ghost use Rattle.pr_basic.specs.Limits.{statement_limit};
ghost use Rattle.pr_dots.specs.Shapes.{own_shapes};
ghost use Rattle.pr_system.specs.StepByStep.{stepped_through};
ghost use Rattle.pr_jobs.specs.Does.{AreFresh, DoesJob};
ghost use Rattle.pr_jobs.specs.Outcomes.{GivesOutcome};
ghost use Rattle.pr_jobs.specs.Pages.{AnswersPages, AnswersPagesWith, IsPagesFault, IsRunFault, ReadsToEnd, WritesNothing};
ghost use Rattle.pr_jobs.specs.Runs.{start_of};
ghost use Rattle.pr_input.specs.Watched.{has_failed, is_flushed, wrapped};

use crate::fault::CliFault;
use crate::format::text_in_format;
use crate::run::{Ending, PagesEnd, Start};
use pr_basic::{Statement, StatusMode, read_script};
use pr_bus::Delays;
use pr_dots::Shapes;
use pr_input::{Watched, WriteFault, read_whole};
use pr_render::Format;
use pr_serial::Present;
use pr_system::laws::steps_make_the_run;
use pr_system::{NoMemory, Outcome, Running};
use std::alloc::Global;
use std::io::{Read, Write};

/// The longest input of a script, in bytes (profile).
pub const SCRIPT_LIMIT: usize = 16_777_216;

/// Performs statements up to the first that stops.
fn perform_all(running: &mut Running, statements: &[Statement]) -> Result<(), NoMemory>
    // the caller's part
    requires works { running.old.failed ≡ false }
    requires going { running.old.stop ≡ None }
    requires few { length running.old.statuses + length statements.now ≤ statement_limit }
    // what it gives
    ensures steps { OnOk result (running.new ≡ stepped_through running.old statements.now) }
    ensures present { OnOk result (running.new.present ≡ running.old.present) }
    ensures works { OnOk result (running.new.failed ≡ false) }
{
    for statement in statements {
        if running.step(statement)?.is_some() {
            return Ok(());
        }
    }
    Ok(())
}

/// What the run of a script gives, without its trace: that of a script of 16 MB has hundreds of
/// millions of edges, and pages need none.
fn outcome_of(alloc: Global, script: Vec<u8>, start: Start) -> Result<Outcome, CliFault>
    ensures { GivesOutcome start script.items result }
{
    steps_make_the_run();
    let Start {
        present,
        delays,
        mode,
    } = start;
    let statements = read_script(alloc, &script)?;
    let mut running = Running::new(alloc, present, delays, mode)?;
    perform_all(&mut running, &statements)?;
    Ok(running.finish())
}

/// Reads a script to its end, runs it over wires from this start and writes the pages of the outcome
/// in this format, in pictures with characters of these shapes. No trace is kept.
///
/// The input is read whole before anything is written, and the text is made whole before the
/// first write. The answer says which BASIC error stopped the run, if one did, and at which statement,
/// and how many marks each printer holds; the text is written all the same.
///
/// # Errors
///
/// - [`CliFault::Script`]: the script is refused, with its first fault.
/// - [`CliFault::TooLarge`]: only if the input has more than [`SCRIPT_LIMIT`] bytes.
/// - [`CliFault::ReadFailed`] exactly if the input has failed, [`CliFault::WriteFailed`] exactly
///   if the output has; after the latter a beginning of the text has been written.
/// - [`CliFault::Picture`]: the pages have no such sheet, or their bitmap or document is too large; of pictures alone.
/// - [`CliFault::NoMemory`]: memory was refused; never reported as a script's fault.
///
/// After every error but `WriteFailed` nothing has been written.
pub fn write_pages<R: Read, W: Write>(
    alloc: Global,
    input: &mut Watched<R>,
    output: &mut Watched<W>,
    start: Start,
    format: Format,
    shapes: &Shapes,
) -> Result<PagesEnd, CliFault>
    // the caller's part
    requires fresh { AreFresh input.old output.old }
    // what it gives
    ensures pages { IfSome (R.remaining (wrapped input.old)) (λ script.
        AnswersPagesWith shapes.now start format script
        (W.contents (wrapped output.old)) (W.contents (wrapped output.new)) result) }
    ensures at_end { ReadsToEnd (R.remaining (wrapped input.new)) result }
    // when it refuses, and what that leaves
    ensures nothing { WritesNothing (W.contents (wrapped output.old)) (W.contents (wrapped output.new)) result }
    ensures does { DoesJob (IsPagesFault format) input.new output.new result }
{
    let script = read_whole(alloc, input, SCRIPT_LIMIT)?;
    let present = start.present;
    let outcome = outcome_of(alloc, script, start)?;
    let end = PagesEnd::of(&outcome);
    let text = text_in_format(alloc, shapes, outcome, present, format)?;
    match text.write_to(output) {
        Ok(()) => Ok(end),
        Err(WriteFault) => Err(CliFault::WriteFailed),
    }
}

/// Reads a script to its end, runs it over wires with these printers present, these delays and the
/// status going on in this way, and writes the page text: the pages of the outcome, as a list of marks.
///
/// As [`write_pages`] with [`Format::List`]. The answer is [`Ending::Stopped`] exactly if a BASIC
/// error stopped the run.
///
/// # Errors
///
/// Those of [`write_pages`] but [`CliFault::Picture`]. After every error but `WriteFailed` nothing has been written.
pub fn pages_over<R: Read, W: Write>(
    alloc: Global,
    input: &mut Watched<R>,
    output: &mut Watched<W>,
    present: Present,
    delays: Delays,
    mode: StatusMode,
) -> Result<Ending, CliFault>
    // the caller's part
    requires input { has_failed input.old ≡ false }
    requires output { has_failed output.old ≡ false }
    // what it gives
    ensures pages { IfSome (R.remaining (wrapped input.old)) (λ script.
        AnswersPages own_shapes (start_of present delays mode) Format.List script
        (W.contents (wrapped output.old)) (W.contents (wrapped output.new)) result) }
    ensures at_end { ReadsToEnd (R.remaining (wrapped input.new)) result }
    ensures flushed { OnOk result (is_flushed output.new ≡ true) }
    // when it refuses, and what that leaves
    ensures nothing { WritesNothing (W.contents (wrapped output.old)) (W.contents (wrapped output.new)) result }
    ensures memory { IfErr result IsRunFault }
    ensures read_failed { IsErrOf result CliFault.ReadFailed ↔ (has_failed input.new ≡ true) }
    ensures write_failed { IsErrOf result CliFault.WriteFailed ↔ (has_failed output.new ≡ true) }
{
    let start = Start {
        present,
        delays,
        mode,
    };
    let end = write_pages(alloc, input, output, start, Format::List, &Shapes::own())?;
    Ok(end.run.ending())
}
