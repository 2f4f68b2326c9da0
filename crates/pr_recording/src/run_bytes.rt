//! A script in, the bytes that one printer hears in its run out.

ghost use Rattle.std.specs.Prelude.{◌≡◌, ◌≤◌, ◌<◌, ◌+◌, None, [], length, false, true, IfOk, IfSome, OnOk};
ghost use Rattle.pr_serial.specs.Heard.{is_present};
ghost use Rattle.pr_serial.specs.Items.{items_of};
ghost use Rattle.pr_receiver.specs.Heard.{heard_of};
ghost use Rattle.pr_bus.specs.Answers.{answered_frames};
ghost use Rattle.pr_basic.specs.Limits.{statement_limit};
ghost use Rattle.pr_system.specs.RunningState.{next_effect, stepped_by, trace_before};
ghost use Rattle.pr_system.specs.StepByStep.{stepped_through};
ghost use Rattle.pr_jobs.specs.Does.{AreFresh, DoesJob};
ghost use Rattle.pr_jobs.specs.Pages.{IsRunFault, ReadsToEnd, WritesNothing};
ghost use Rattle.pr_jobs.specs.Runs.{run_end};
ghost use Rattle.pr_input.specs.Watched.{wrapped};
ghost use Rattle.pr_recording.specs.Bytes.{number_of};
ghost use Rattle.pr_recording.specs.Logged.{AreHeard};
ghost use Rattle.pr_recording.specs.RunBytes.{AnswersRunBytes};
ghost use Rattle.pr_recording.specs.RunLogged.{FollowsRun, GivesRun};

use crate::byte_log::{ByteLog, Heard, HeardBytes};
use crate::bytes::number_of;
use crate::laws::traces_are_heard_as_spelled;
use crate::run_log::RunLog;
use pr_basic::{Statement, read_script};
use pr_channels::Stop;
use pr_jobs::{
    CliFault, RunEnd, SCRIPT_LIMIT, Start, Watched, WriteFault, read_whole, write_whole,
};
use pr_render::Device;
use pr_serial::Present;
use pr_system::laws::steps_make_the_run;
use pr_system::{NoMemory, Running};
use pr_wire::lawful_traces;
use std::alloc::Global;
use std::io::{Read, Write};

/// What a printer hears in a run, and how the run ended.
#[derive(Drop)]
pub struct HeardRun {
    pub end: RunEnd,
    pub heard: HeardBytes,
}

/// Reads a script to its end, runs it over wires from this start and writes the bytes that a printer hears in the
/// run, as they are. `raw` prints them. A printer that is not present hears nothing.
///
/// The secondary address that selects a character set is no byte: the answer says in which set the first byte
/// comes, and whether a byte comes in the other one. It also says which BASIC error stopped the run, if one did, and
/// at which statement; the bytes are written all the same.
///
/// The input is read whole before anything is written. The bytes are kept, the trace of the run is not.
///
/// # Errors
///
/// - [`CliFault::Script`]: the script is refused, with its first fault.
/// - [`CliFault::TooLarge`]: only if the input has more than [`SCRIPT_LIMIT`] bytes.
/// - [`CliFault::ReadFailed`] exactly if the input has failed, [`CliFault::WriteFailed`] exactly
///   if the output has; after the latter a beginning of the bytes has been written.
/// - [`CliFault::NoMemory`]: memory was refused; never reported as a script's fault.
///
/// After every error but `WriteFailed` nothing has been written.
pub fn run_bytes_over<R: Read, W: Write>(
    alloc: Global,
    input: &mut Watched<R>,
    output: &mut Watched<W>,
    start: Start,
    device: Device,
) -> Result<(RunEnd, Heard), CliFault>
    // the caller's part
    requires fresh { AreFresh input.old output.old }
    // what it gives
    ensures bytes { IfSome (R.remaining (wrapped input.old)) (λ script.
        AnswersRunBytes start device script
        (W.contents (wrapped output.old)) (W.contents (wrapped output.new)) result) }
    ensures at_end { ReadsToEnd (R.remaining (wrapped input.new)) result }
    // when it refuses, and what that leaves
    ensures nothing { WritesNothing (W.contents (wrapped output.old)) (W.contents (wrapped output.new)) result }
    ensures does { DoesJob IsRunFault input.new output.new result }
{
    let script = read_whole(alloc, input, SCRIPT_LIMIT)?;
    let run = heard_in_run(alloc, script, start, device)?;
    match write_whole(output, run.heard.bytes.as_slice()) {
        Ok(()) => Ok((run.end, run.heard.heard)),
        Err(WriteFault) => Err(CliFault::WriteFailed),
    }
}

/// What a printer hears in the run of a script, and how the run ends.
fn heard_in_run(
    alloc: Global,
    script: Vec<u8>,
    start: Start,
    device: Device,
) -> Result<HeardRun, CliFault>
    ensures { GivesRun start device script.items result }
{
    steps_make_the_run();
    let Start {
        present,
        delays,
        mode,
    } = start;
    let statements = read_script(alloc, &script)?;
    let mut running = Running::new(alloc, present, delays, mode)?;
    let run = follow_run(alloc, &mut running, &statements, number_of(device))?;
    Ok(if_present(alloc, present, device, run))
}

/// What a printer hears in a run, if it is present; nothing otherwise.
fn if_present(alloc: Global, present: Present, device: Device, run: HeardRun) -> HeardRun
    ensures ending { result.end ≡ run.end }
    ensures there { is_present present (number_of device) ≡ true → result.heard ≡ run.heard }
    ensures absent { is_present present (number_of device) ≡ false → AreHeard [] result.heard }
{
    let there = match device {
        Device::Four => present.four,
        Device::Five => present.five,
    };
    if there {
        return run;
    }
    HeardRun {
        end: run.end,
        heard: ByteLog::new(alloc).finish(),
    }
}

/// Performs statements in a run of which none was performed, up to the first that stops, and gives what the
/// device with this number hears of the frames of the run's trace.
fn follow_run(
    alloc: Global,
    running: &mut Running,
    statements: &[Statement],
    device: u8,
) -> Result<HeardRun, NoMemory>
    // the caller's part
    requires callable { device ≤ 30 }
    requires none { trace_before running.old ≡ [] }
    requires works { running.old.failed ≡ false }
    requires going { running.old.stop ≡ None }
    requires sent { running.old.items ≡ items_of running.old.elements }
    requires few { length running.old.statuses + length statements.now ≤ statement_limit }
    // what it gives
    ensures ending { IfOk result (λ run. run.end ≡ run_end (stepped_through running.old statements.now).stop) }
    ensures heard { IfOk result (λ run. AreHeard (heard_of device
        (answered_frames running.old.present (stepped_through running.old statements.now).items)) run.heard) }
{
    lawful_traces();
    traces_are_heard_as_spelled();
    let mut log = RunLog::new(alloc, device);
    log.take_all(running.edges())?;
    let ending = follow_steps(running, &mut log, statements)?;
    // For the prover alone: the law of `edges` says what the trace spells.
    let _edges = running.edges();
    let heard = log.finish()?;
    Ok(HeardRun { end: ending, heard })
}

/// Performs statements up to the first that stops, and takes the edges of each before the next.
fn follow_steps(
    running: &mut Running,
    log: &mut RunLog,
    statements: &[Statement],
) -> Result<RunEnd, NoMemory>
    // the caller's part
    requires works { running.old.failed ≡ false }
    requires going { running.old.stop ≡ None }
    requires sent { running.old.items ≡ items_of running.old.elements }
    requires few { length running.old.statuses + length statements.now ≤ statement_limit }
    // what it gives
    ensures steps { OnOk result (running.new ≡ stepped_through running.old statements.now) }
    ensures present { OnOk result (running.new.present ≡ running.old.present) }
    ensures ending { IfOk result (λ end. end ≡ run_end running.new.stop) }
    ensures followed { OnOk result (FollowsRun running.old running.new log.old log.new) }
{
    for statement in statements {
        let stop = follow_step(running, log, statement)?;
        if let Some(stop) = stop {
            return Ok(RunEnd::Stopped {
                statement: running.statuses().len(),
                stop,
            });
        }
    }
    Ok(RunEnd::Done)
}

/// Performs a statement and takes its edges.
fn follow_step(
    running: &mut Running,
    log: &mut RunLog,
    statement: &Statement,
) -> Result<Option<Stop>, NoMemory>
    // the caller's part
    requires works { running.old.failed ≡ false }
    requires going { running.old.stop ≡ None }
    requires sent { running.old.items ≡ items_of running.old.elements }
    requires few { length running.old.statuses < statement_limit }
    // what it gives
    ensures step { OnOk result (running.new ≡ stepped_by running.old statement.now) }
    ensures stop { IfOk result (λ stop. stop ≡ (next_effect running.old statement.now).stop) }
    ensures followed { OnOk result (FollowsRun running.old (stepped_by running.old statement.now) log.old log.new) }
{
    steps_make_the_run();
    lawful_traces();
    let stop = running.step(statement)?;
    let edges = running.edges();
    log.take_all(edges)?;
    Ok(stop)
}
