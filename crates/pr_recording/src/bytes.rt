//! A recording in any format in, the bytes that one printer hears in it out.

ghost use Rattle.std.specs.Prelude.{◌≡◌, ◌≤◌, ◌↔◌, false, true, IfErr, IfSome, IsErrOf, OnOk};
ghost use Rattle.pr_jobs.specs.Does.{AreFresh, DoesJob};
ghost use Rattle.pr_input.specs.Watched.{has_failed, is_flushed, wrapped};
ghost use Rattle.pr_recording.specs.Bytes.{AnswersBytes, HasReadBytes, number_of};
ghost use Rattle.pr_recording.specs.Decoded.{IsDecodeFault};
ghost use Rattle.pr_recording.specs.Narrated.{IsStop};
ghost use Rattle.pr_recording.specs.Writes.{WritesHeard};

use crate::blocks::read_into;
use crate::both::Both;
use crate::byte_log::{Heard, HeardBytes};
use crate::device_log::DeviceLog;
use crate::left_out::{LeftOut, LeftOutLog};
use crate::listening::{Listening, call_first};
use crate::tape::TapeEnd;
use pr_base::{FIRST_PRINTER, SECOND_PRINTER};
use pr_capture::TraceInput;
use pr_jobs::{CHECK_LIMIT, CliFault, Watched, WriteFault, read_edges_come_first, write_whole};
use pr_render::Device;
use pr_report::Oddities;
use std::alloc::Global;
use std::io::{Read, Write};

/// What is said of a recording of which a printer's bytes were written.
#[derive(Clone, Copy, Debug, PartialEq, Eq)]
pub struct Overheard {
    /// What the bytes do not say.
    pub heard: Heard,
    /// What is odd about it.
    pub odd: Oddities,
    /// What it has that the bytes have not.
    pub left: LeftOut,
    /// The printer hears a byte.
    pub has_byte: bool,
}

/// Reads any recording of the bus, in any format, and writes the bytes that a printer hears in it, as they are: of
/// the bytes that were acknowledged, the data bytes that come while the printer listens, where these printers listen when
/// the recording begins. `raw` prints them.
///
/// The secondary address that selects a character set is no byte: the answer says in which set the first byte comes,
/// and whether a byte comes in the other one. It says too what is odd about the recording, and what the bytes lack of it.
///
/// The recording may begin anywhere and have any levels. It is read block by block and not kept; the bytes that the
/// printer hears are kept, and written when the recording has ended.
///
/// # Errors
///
/// - [`CliFault::Trace`]: a trace text with its first bad line; [`CliFault::Capture`]: a recording with
///   its first fault. No further block is read.
/// - [`CliFault::Wave`] with [`pr_wire::WaveFault::Order`]: a trace text in which time goes back, with the
///   index of the first edge that is earlier than the one before it, unless a bad line comes before
///   that.
/// - [`CliFault::TooLarge`]: only if the input has more than [`CHECK_LIMIT`] bytes.
/// - [`CliFault::ReadFailed`] exactly if the input has failed, [`CliFault::WriteFailed`] exactly if the
///   output has.
/// - [`CliFault::NoMemory`]: memory was refused.
///
/// With the first three the bytes of all that is settled before the fault have been written; after
/// `WriteFailed` a beginning of the bytes has; after every other error nothing.
pub fn bytes_over<R: Read, W: Write>(
    alloc: Global,
    input: &mut Watched<R>,
    output: &mut Watched<W>,
    trace: TraceInput<'_>,
    listening: Listening,
    device: Device,
) -> Result<Overheard, CliFault>
    // the caller's part
    requires fresh { AreFresh input.old output.old }
    // what it gives
    ensures bytes { IfSome (R.remaining (wrapped input.old)) (λ text.
        AnswersBytes trace.entry listening device text (W.contents (wrapped output.old)) (W.contents (wrapped output.new)) result) }
    ensures at_end { HasReadBytes (R.remaining (wrapped input.new)) result }
    // when it refuses, and what that leaves
    ensures does { DoesJob IsDecodeFault input.new output.new result }
{
    read_edges_come_first();
    let mut taker = Both {
        first: DeviceLog::new(alloc, number_of(device)),
        second: LeftOutLog::new(),
    };
    call_first(&mut taker, listening)?;
    let end = read_into(alloc, input, trace, CHECK_LIMIT, &mut taker)?;
    let Both { first, second } = taker;
    write_heard(output, first.finish(), second.finish(), end)
}

/// The number of a printer on the bus.
pub fn number_of(device: Device) -> u8
    ensures value { result ≡ number_of device }
    ensures callable { result ≤ 30 }
{
    match device {
        Device::Four => FIRST_PRINTER,
        Device::Five => SECOND_PRINTER,
    }
}

/// Writes the bytes, and answers what is said of the recording, or why no more were heard, if that has a reason.
fn write_heard<W: Write>(
    output: &mut Watched<W>,
    heard: HeardBytes,
    left: LeftOut,
    end: TapeEnd,
) -> Result<Overheard, CliFault>
    // the caller's part
    requires fresh { has_failed output.old ≡ false }
    requires stop { IfSome end.stop IsStop }
    // what it gives
    ensures written { WritesHeard heard left end (W.contents (wrapped output.old)) (W.contents (wrapped output.new)) result }
    ensures flushed { OnOk result (is_flushed output.new ≡ true) }
    // when it refuses, and what that leaves
    ensures own { IfErr result IsDecodeFault }
    ensures failed { IsErrOf result CliFault.WriteFailed ↔ (has_failed output.new ≡ true) }
{
    match write_whole(output, heard.bytes.as_slice()) {
        Ok(()) => {}
        Err(WriteFault) => return Err(CliFault::WriteFailed),
    }
    match end.stop {
        None => Ok(Overheard {
            heard: heard.heard,
            odd: end.odd,
            left,
            has_byte: heard.bytes.len() > 0,
        }),
        Some(fault) => Err(fault),
    }
}
