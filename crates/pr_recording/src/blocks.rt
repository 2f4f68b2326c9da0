//! A recording in any format, read block by block.

ghost use Rattle.std.specs.Prelude.{◌≡◌, ◌+◌, ◌^◌, ◌<◌, ◌≤◌, ◌↔◌, length, false, true, IfErr, IfOk, IfSome, IsErrOf};
ghost use Rattle.pr_input.specs.Watched.{has_failed, wrapped};
ghost use Rattle.pr_jobs.specs.Check.{trace_limit};
ghost use Rattle.pr_jobs.specs.Inputs.{edges_read, lines_ahead};
ghost use Rattle.pr_jobs.specs.Report.{IsNoReading};
ghost use Rattle.pr_recording.specs.Narrated.{IsStop};
ghost use Rattle.pr_recording.specs.Taped.{EndsInput, HasReadTape, ReadsInto, edges_taped};

use crate::tape::{Takes, Tape, TapeEnd};
use pr_capture::TraceInput;
use pr_jobs::{BLOCK, CliFault, InputReader, Watched};
use std::alloc::{AllocError, Global};
use std::io::Read;

/// Reads a recording of at most `limit` bytes, block by block, and hands on what it says, up to its end or its first
/// fault: such a fault is no error. The edges of a block are given up before the next is read.
///
/// # Errors
///
/// - [`CliFault::TooLarge`]: only if the input has more than `limit` bytes.
/// - [`CliFault::ReadFailed`] exactly if the input has failed.
/// - [`CliFault::NoMemory`]: memory was refused, here or by the one who takes the readings.
pub fn read_into<R: Read, T: Takes>(
    alloc: Global,
    input: &mut Watched<R>,
    trace: TraceInput<'_>,
    limit: usize,
    taker: &mut T,
) -> Result<TapeEnd, CliFault>
    // the caller's part
    requires fresh { has_failed input.old ≡ false }
    requires few { limit ≤ trace_limit }
    requires room { T.may_take (limit + 19) taker.old }
    // what it gives
    ensures read { IfSome (R.remaining (wrapped input.old)) (λ text. ReadsInto T.takes limit trace.entry text taker.old taker.new result) }
    ensures at_end { HasReadTape (R.remaining (wrapped input.new)) result }
    ensures stop { IfOk result (λ end. IfSome end.stop IsStop) }
    // when it refuses, and what that leaves
    ensures own { IfErr result IsNoReading }
    ensures failed { IsErrOf result CliFault.ReadFailed ↔ (has_failed input.new ≡ true) }
{
    let mut reader = InputReader::new(alloc, trace, limit);
    let mut tape = Tape::new();
    let mut block = [0u8; BLOCK];
    'pieces: loop {
        if !reader.read_block(input, &mut block)? {
            return Ok(end_input(reader, tape, taker)?);
        }
        tape.take_all(reader.edges(), taker)?;
    }
}

/// Ends an input, and hands on the last of what it says.
fn end_input<T: Takes>(
    reader: InputReader<'_>,
    mut tape: Tape,
    taker: &mut T,
) -> Result<TapeEnd, AllocError>
    requires lines { lines_ahead reader + 1 < 2 ^ 64 }
    requires edges { edges_taped tape + length (edges_read reader) + 18 < 2 ^ 64 }
    requires room { T.may_take (length (edges_read reader) + 19) taker.old }
    ensures { IfOk result (λ end. EndsInput T.takes reader.entry tape taker.old taker.new end) }
{
    let last = reader.finish()?;
    tape.take_all(last.edges.as_slice(), taker)?;
    tape.finish(last.fault, taker)
}
