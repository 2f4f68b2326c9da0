//! Performing one statement over the channels.

ghost use Rattle.std.specs.Prelude.{◌≡◌, ℕ, ◌+◌, ◌≤◌, ◌<◌, ◌^◌, ◌⊎◌, true, false, Option, Some, None, length, IfOk, OnOk, OnErr, IsNone, is_some, if◌then◌else◌};
ghost use Rattle.pr_serial.specs.Items.{items_of};
ghost use Rattle.pr_channels.specs.Files.{open_stop};
ghost use Rattle.pr_channels.specs.Seen.{KeepsBus};
ghost use Rattle.pr_channels.specs.Calls.{clrchn_of};
ghost use Rattle.pr_basic.specs.Statements.{printed_bytes, unlistening, opening};
ghost use Rattle.pr_basic.specs.Runs.{found_of};
ghost use Rattle.pr_basic.specs.Performing.{printing, Gives, IsWorking, setting_of, effect_on, effect_in, commanding_on, ChangesScreenAlone, Performs, SendsAtMost, found_by};

use crate::laws::stops_are_exact;
use crate::session::{Session, StatusMode};
use crate::statement::{Device, Line, Second, Statement, number_of_second};
use pr_channels::laws::elements_add_up;
use pr_channels::{Channels, Fault, Stop};
use pr_serial::{NoMemory, Serial};
use std::alloc::AllocError;

/// A carriage return.
const RETURN: u8 = 13;

/// A line feed.
const LINE_FEED: u8 = 10;

/// From this channel number on a line feed follows the carriage return of a line (Programmer's
/// Reference Guide, PRINT#).
const LINE_FEED_CHANNEL: u8 = 128;

/// Makes the status the one that a statement finds.
fn begin<S: Serial>(channels: &mut Channels<S>, mode: StatusMode)
    ensures status { channels.new ≡ record channels.old { status = found_by mode channels.old.status } }
    ensures in_step { channels.old.failed ≡ false → channels.old.sent ≡ items_of channels.old.elements }
{
    // For the prover alone: the items are those of the elements in both modes, so that `perform`
    // asks its caller only for room.
    let _bus = channels.serial();
    match mode {
        StatusMode::Each => channels.clear_status(),
        StatusMode::Kept => {}
    }
}

/// Writes bytes to the output device.
fn print_bytes<S: Serial>(channels: &mut Channels<S>, bytes: &[u8]) -> Result<(), NoMemory>
    // the caller's part
    requires room { length channels.old.sent + length bytes.now + 3 ≤ 2 ^ 32 }
    // what it does
    ensures ok { OnOk result (IsWorking channels.old → channels.new ≡ printing bytes.now channels.old) }
    // how much is sent, and what never changes
    ensures sends { SendsAtMost (length bytes.now) result channels.old channels.new }
    ensures output { OnOk result (channels.new.output ≡ channels.old.output) }
    ensures screen { channels.old.output ≤ 3 → ChangesScreenAlone channels.old channels.new }
    // what a refusal leaves
    ensures err { 3 < channels.old.output → OnErr result (channels.new.failed ≡ true) }
{
    // For the prover alone: a law, with nothing to run.
    elements_add_up();
    for byte in bytes {
        channels.chrout(*byte)?;
    }
    Ok(())
}

/// Prints a line to the output device.
fn print_line<S: Serial>(
    channels: &mut Channels<S>,
    line: &Line,
    channel: u8,
) -> Result<(), NoMemory>
    // the caller's part
    requires room { length channels.old.sent + 260 ≤ 2 ^ 32 }
    // what it does
    ensures ok { OnOk result (IsWorking channels.old → channels.new ≡ printing (printed_bytes line.now channel) channels.old) }
    // how much is sent, and what never changes
    ensures sends { SendsAtMost 257 result channels.old channels.new }
    ensures output { OnOk result (channels.new.output ≡ channels.old.output) }
    ensures screen { channels.old.output ≤ 3 → ChangesScreenAlone channels.old channels.new }
    // what a refusal leaves
    ensures err { 3 < channels.old.output → OnErr result (channels.new.failed ≡ true) }
{
    // For the prover alone: a law, with nothing to run.
    elements_add_up();
    print_bytes(channels, &line.bytes)?;
    if line.ends {
        channels.chrout(RETURN)?;
        if channel >= LINE_FEED_CHANNEL {
            channels.chrout(LINE_FEED)?;
        }
    }
    Ok(())
}

/// A stop: CLRCHN. It answers the stop.
fn stopped<S: Serial>(channels: &mut Channels<S>, stop: Stop) -> Result<Option<Stop>, NoMemory>
    requires room { length channels.old.sent + 3 ≤ 2 ^ 32 }
    ensures stop { IfOk result (λ answer. answer ≡ Some stop) }
    ensures ok { OnOk result (channels.new ≡ clrchn_of channels.old) }
    ensures sends { SendsAtMost 2 result channels.old channels.new }
    ensures err { OnErr result (channels.new.failed ≡ true) }
{
    channels.clrchn()?;
    Ok(Some(stop))
}

/// CMD: makes a file's device the output device, and prints a line to it. A stop is followed by
/// CLRCHN.
fn command<S: Serial>(
    channels: &mut Channels<S>,
    file: u8,
    line: &Line,
) -> Result<Option<Stop>, NoMemory>
    requires room { length channels.old.sent + 270 ≤ 2 ^ 32 }
    ensures ok { IfOk result (λ stop. IsWorking channels.old → (channel : ℕ) →
        Gives channels.old channels.new stop (commanding_on channels.old channel file line.now)) }
    ensures bus { IfOk result (λ stop. IsNone stop → 3 < channels.new.output) }
    ensures sends { SendsAtMost 260 result channels.old channels.new }
    ensures err { OnErr result (channels.new.failed ≡ true) }
{
    // For the prover alone: a law, with nothing to run.
    elements_add_up();
    match channels.chkout(file) {
        Ok(()) => {
            print_line(channels, line, file)?;
            Ok(None)
        }
        Err(Fault::Stop(stop)) => stopped(channels, stop),
        Err(Fault::NoMemory) => Err(AllocError),
    }
}

/// PRINT#: CMD, then CLRCHN.
fn print_to<S: Serial>(
    channels: &mut Channels<S>,
    file: u8,
    line: &Line,
) -> Result<Option<Stop>, NoMemory>
    requires room { length channels.old.sent + 280 ≤ 2 ^ 32 }
    ensures ok { IfOk result (λ stop. IsWorking channels.old → (channel : ℕ) →
        Gives channels.old channels.new stop (unlistening (commanding_on channels.old channel file line.now))) }
    ensures sends { SendsAtMost 262 result channels.old channels.new }
    ensures err { OnErr result (channels.new.failed ≡ true) }
{
    // For the prover alone: a law, with nothing to run.
    elements_add_up();
    if let Some(stop) = command(channels, file, line)? {
        return Ok(Some(stop));
    }
    channels.clrchn()?;
    Ok(None)
}

/// OPEN: a stop is followed by CLRCHN.
fn open<S: Serial>(
    channels: &mut Channels<S>,
    file: u8,
    device: Device,
    second: Option<Second>,
) -> Result<Option<Stop>, NoMemory>
    requires room { length channels.old.sent + 3 ≤ 2 ^ 32 }
    ensures ok { IfOk result (λ stop. IsWorking channels.old → (channel : ℕ) →
        Gives channels.old channels.new stop (opening (open_stop channels.old.files file)
        (record { number = file; device = device; second = second }) (setting_of channels.old channel))) }
    ensures sends { SendsAtMost 2 result channels.old channels.new }
    ensures err { OnErr result (channels.new.failed ≡ true) }
{
    // For the prover alone: a law, with nothing to run.
    elements_add_up();
    let second_number = number_of_second(second);
    match channels.open_file(file, device.get(), second_number) {
        Ok(()) => Ok(None),
        Err(stop) => stopped(channels, stop),
    }
}

/// The channel number after a statement that stops or not.
fn channel_after(stop: &Option<Stop>, channel: u8) -> u8
    ensures { result ≡ (if is_some stop.now then 0 else channel) }
{
    match stop {
        Some(_stop) => 0,
        None => channel,
    }
}

/// Performs a statement on channels that have the status which it finds. It answers the stop, if the
/// statement stops, and the channel number after it.
fn perform_begun<S: Serial>(
    channels: &mut Channels<S>,
    statement: &Statement,
    channel: u8,
) -> Result<(Option<Stop>, u8), NoMemory>
    requires room { length channels.old.sent + 300 ≤ 2 ^ 32 }
    ensures ok { IfOk result (λ after. IsWorking channels.old →
        Performs channels.old channels.new channels.old.status after.1 after.0
        (effect_on channels.old channels.old.status channel statement.now)) }
    ensures sends { SendsAtMost 262 result channels.old channels.new }
    ensures err { OnErr result ((channels.new.failed ≡ true) ⊎ ChangesScreenAlone channels.old channels.new) }
{
    // For the prover alone: a law, with nothing to run.
    elements_add_up();
    match statement {
        Statement::OpenFile {
            file,
            device,
            second,
        } => {
            let stop = open(channels, *file, *device, *second)?;
            let number = channel_after(&stop, channel);
            Ok((stop, number))
        }
        Statement::Cmd { file, line } => {
            let stop = command(channels, *file, line)?;
            let number = channel_after(&stop, *file);
            Ok((stop, number))
        }
        Statement::PrintTo { file, line } => {
            let stop = print_to(channels, *file, line)?;
            Ok((stop, 0))
        }
        Statement::Print { line } => {
            print_line(channels, line, channel)?;
            Ok((None, channel))
        }
        Statement::CloseFile { file } => {
            channels.close_file(*file)?;
            Ok((None, channel))
        }
        Statement::Rem => Ok((None, channel)),
    }
}

/// Performs one statement, and answers the error of BASIC that stops it, if one does.
///
/// It begins with status 0, or, where the status is kept, with the status that is there, which says
/// whether an earlier item was not answered. Then:
///
/// - OPEN opens the file and sends nothing.
/// - CMD calls the file's device with LISTEN, makes it the output device and the file's number the
///   channel number, and prints its list. PRINT# does the same, and then UNLISTEN ends listening,
///   the screen is the output device and the channel number 0.
/// - PRINT prints its list to the output device.
/// - Printing a list sends its bytes, then a carriage return unless the list ends with `;`, and
///   after that one a line feed where the channel number is 128 or more.
/// - CLOSE takes the file out of the table, and closes the channel at its device where it has a
///   secondary address.
/// - CMD and PRINT# stop with DEVICE NOT PRESENT where the status is 128 after the LISTEN. In a run
///   that is where the LISTEN or the byte directly before it is not answered (where the status is
///   kept: the LISTEN or any item before it).
/// - A stop sends UNLISTEN where a device of the bus is the output device, makes the screen the
///   output device and the channel number 0.
///
/// (Programmer's Reference Guide, OPEN, CMD, PRINT#, PRINT, CLOSE; the order of the calls and the
/// UNLISTEN of a stop are our profile.) The printers that are there, the delay lists and the mark
/// stay, and at most 262 items are sent.
///
/// # Errors
///
/// [`NoMemory`] where memory was refused. The session is then as before, and one of two holds. The
/// bus has failed for good, and nothing else is said of the channels. Or the growth of the screen's
/// list was refused: then the status is the one with which the statement began, the screen's list
/// may have changed, and all else is as before.
pub fn perform<S: Serial>(
    channels: &mut Channels<S>,
    statement: &Statement,
    session: &mut Session,
) -> Result<Option<Stop>, NoMemory>
    // the caller's part
    requires room { length channels.old.sent + 300 ≤ 2 ^ 32 }
    // what it does
    ensures ok { IfOk result (λ stop. channels.old.failed ≡ false →
        Performs channels.old channels.new (found_by session.old.mode channels.old.status) session.new.channel stop
        (effect_on channels.old (found_by session.old.mode channels.old.status) session.old.channel statement.now)) }
    // in a run, whose status says whether an earlier item was not answered
    ensures in_run { IfOk result (λ stop. channels.old.failed ≡ false →
        found_by session.old.mode channels.old.status ≡ found_of session.old.mode channels.old.present channels.old.elements →
        Performs channels.old channels.new (found_by session.old.mode channels.old.status) session.new.channel stop
        (effect_in session.old.mode channels.old session.old.channel statement.now)) }
    ensures mode { session.new.mode ≡ session.old.mode }
    // how much is sent, and what never changes
    ensures failed { OnOk result (channels.new.failed ≡ channels.old.failed) }
    ensures room { length channels.new.sent ≤ length channels.old.sent + 262 }
    ensures keeps { KeepsBus channels.old channels.new }
    // what a refusal leaves
    ensures err { OnErr result ((channels.new.failed ≡ true)
        ⊎ ChangesScreenAlone (record channels.old { status = found_by session.old.mode channels.old.status }) channels.new) }
    ensures err_session { OnErr result (session.new ≡ session.old) }
{
    // For the prover alone: a law, with nothing to run.
    stops_are_exact();
    begin(channels, session.mode);
    let (stop, channel) = perform_begun(channels, statement, session.channel)?;
    session.channel = channel;
    Ok(stop)
}
