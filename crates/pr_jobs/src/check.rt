//! A trace in, the frames that it spells out.

ghost use Rattle.std.specs.Prelude.{◌≡◌, ◌+◌, ◌^◌, ◌<◌, ◌≤◌, ◌++◌, ◌↔◌, List, ℕ, length, false, true, IfSome, IfErr, OnOk, IsErrOf};
ghost use Rattle.pr_wire.specs.Checked.{line_count};
ghost use Rattle.pr_jobs.specs.Check.{AnswersCheck, IsCheckFault, trace_limit};
ghost use Rattle.pr_jobs.specs.FrameLinesTold.{GivesLines, HasReadToEnd, HasTold, IsInputFault, IsTextFault, TellsOn, line_if};
ghost use Rattle.pr_jobs.specs.Pages.{ReadsToEnd, WritesNothing};
ghost use Rattle.pr_input.specs.Watched.{has_failed, is_flushed, wrapped};

use crate::fault::CliFault;
use crate::frame_text::push_frame;
use pr_input::{BLOCK, Watched, WriteFault, write_whole};
use pr_wire::{Checker, Frame};
use std::alloc::{AllocError, Global};
use std::io::{Read, Write};

/// The longest input of a trace, in bytes (profile).
pub const CHECK_LIMIT: usize = 1_099_511_627_776;

/// Reads a trace text to its end and writes the frames that its trace spells: a line for each,
/// such as `command 36`, `data 72` or `data 13 eoi`, and then `lawful`.
///
/// A trace is lawful by this project's profile; recordings of real hardware differ from it. The
/// input is checked as it is read and not kept, and the whole text is made before the first write.
///
/// # Errors
///
/// - [`CliFault::Trace`]: the text is no trace text, with its first bad line. This is reported
///   before any fault of the edges, wherever that is.
/// - [`CliFault::Wave`]: the edges are no lawful trace, with their first fault.
/// - [`CliFault::TooLarge`]: only if the input has more than [`CHECK_LIMIT`] bytes.
/// - [`CliFault::ReadFailed`] exactly if the input has failed, [`CliFault::WriteFailed`] exactly
///   if the output has; after the latter a beginning of the text has been written.
/// - [`CliFault::NoMemory`]: memory was refused; never reported as one of the first two.
///
/// The first two are reported when the input has been read to its end. After every error but
/// `WriteFailed` nothing has been written.
pub fn check_over<R: Read, W: Write>(
    alloc: Global,
    input: &mut Watched<R>,
    output: &mut Watched<W>,
) -> Result<(), CliFault>
    // the caller's part
    requires input { has_failed input.old ≡ false }
    requires output { has_failed output.old ≡ false }
    // what it gives
    ensures check { IfSome (R.remaining (wrapped input.old)) (λ text.
        AnswersCheck text (W.contents (wrapped output.old)) (W.contents (wrapped output.new)) result) }
    ensures at_end { ReadsToEnd (R.remaining (wrapped input.new)) result }
    ensures flushed { OnOk result (is_flushed output.new ≡ true) }
    // when it refuses, and what that leaves
    ensures nothing { WritesNothing (W.contents (wrapped output.old)) (W.contents (wrapped output.new)) result }
    ensures own { IfErr result IsCheckFault }
    ensures read_failed { IsErrOf result CliFault.ReadFailed ↔ (has_failed input.new ≡ true) }
    ensures write_failed { IsErrOf result CliFault.WriteFailed ↔ (has_failed output.new ≡ true) }
{
    let lines = check_input(alloc, input, CHECK_LIMIT)?;
    match write_whole(output, lines.as_slice()) {
        Ok(()) => Ok(()),
        Err(WriteFault) => Err(CliFault::WriteFailed),
    }
}

/// Reads a trace text of at most `limit` bytes to its end, block by block, and gives the lines of
/// its frames, then `lawful`. It is public with the limit as an argument, since no test can try the
/// program's own limit.
///
/// # Errors
///
/// Those of [`check_over`] but a failed write, with `limit` instead of [`CHECK_LIMIT`]. This call
/// writes nothing.
pub fn check_input<R: Read>(
    alloc: Global,
    input: &mut Watched<R>,
    limit: usize,
) -> Result<Vec<u8>, CliFault>
    // the caller's part
    requires fresh { has_failed input.old ≡ false }
    requires few { limit ≤ trace_limit }
    // what it gives
    ensures lines { IfSome (R.remaining (wrapped input.old)) (λ text. GivesLines limit result text) }
    ensures at_end { HasReadToEnd (R.remaining (wrapped input.new)) result }
    // when it refuses, and what that leaves
    ensures own { IfErr result IsInputFault }
    ensures failed { IsErrOf result CliFault.ReadFailed ↔ (has_failed input.new ≡ true) }
{
    let mut checker = Checker::new();
    let mut lines = Vec::new(alloc);
    let mut left = limit;
    let mut block = [0u8; BLOCK];
    'pieces: loop {
        match input.read(&mut block) {
            Err(_) => return Err(CliFault::ReadFailed),
            Ok(0) => return last_lines(checker, lines),
            Ok(n) => {
                if n > left {
                    return Err(CliFault::TooLarge);
                }
                left -= n;
                check_block(&mut checker, &block[..n], &mut lines)?;
            }
        }
    }
}

/// Checks the bytes of a block, and adds the lines of the frames that they end.
fn check_block(checker: &mut Checker, block: &[u8], lines: &mut Vec<u8>) -> Result<(), AllocError>
    requires few { line_count checker.old + length block.now + 1 < 2 ^ 64 }
    ensures told { OnOk result (TellsOn block.now lines.old.items checker.old lines.new.items checker.new) }
    ensures count { OnOk result (line_count checker.new ≤ line_count checker.old + length block.now) }
{
    let mut rest = block;
    while !rest.is_empty() {
        let (len, frame) = checker.take_front(rest);
        push_if_some(lines, frame)?;
        rest = &rest[len..];
    }
    Ok(())
}

/// Adds the line of a frame, if there is one.
#[inline(always)]
fn push_if_some(lines: &mut Vec<u8>, frame: Option<Frame>) -> Result<(), AllocError>
    ensures { OnOk result (lines.new.items ≡ lines.old.items ++ line_if frame) }
{
    match frame {
        Some(frame) => push_frame(lines, frame),
        None => Ok(()),
    }
}

/// Ends the text that was checked, and gives all of its lines.
fn last_lines(checker: Checker, mut lines: Vec<u8>) -> Result<Vec<u8>, CliFault>
    requires few { line_count checker + 1 < 2 ^ 64 }
    ensures lines { (limit : ℕ) (text : List ℕ) → length text ≤ limit → HasTold text lines.items checker → GivesLines limit result text }
    ensures own { IfErr result IsTextFault }
{
    let last = checker.finish()?;
    push_if_some(&mut lines, last)?;
    lines.extend_from_slice(b"lawful\n")?;
    Ok(lines)
}
