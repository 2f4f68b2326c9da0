//! The bytes of a printer in, its page out.

ghost use Rattle.std.specs.Prelude.{◌≡◌, ◌+◌, ◌^◌, ◌≤◌, ◌↔◌, length, false, true, IfSome, IfErr, OnOk, IsErrOf};
ghost use Rattle.pr_page.specs.Taken.{number_taken};
ghost use Rattle.pr_jobs.specs.Does.{AreFresh, DoesJob};
ghost use Rattle.pr_jobs.specs.Pages.{ReadsToEnd, WritesNothing};
ghost use Rattle.pr_jobs.specs.Printed.{GivesPaper, HasReadAll, IsReadingFault, PrintsOn};
ghost use Rattle.pr_jobs.specs.Raw.{AnswersRaw, IsRawFault, printed_on, raw_limit};
ghost use Rattle.pr_input.specs.Watched.{has_failed, wrapped};

use crate::fault::CliFault;
use crate::format::text_in_format;
use crate::run::PagesEnd;
use pr_dots::Shapes;
use pr_input::{BLOCK, Watched, WriteFault};
use pr_page::{Input, NoMemory, Paper, Printer, Sequence};
use pr_render::Format;
use pr_serial::Present;
use pr_system::Outcome;
use std::alloc::Global;
use std::io::{Read, Write};

/// The longest input of `raw`, in bytes (profile): a printer takes at most 2^32 inputs, and the
/// selection of its character set is the first of them.
pub const RAW_LIMIT: usize = 4_294_967_295;

/// Reads the bytes that a printer gets to their end, and writes the page that it prints after a
/// selection of the lower/upper case set, or else of the graphic/upper case set, in this format, in
/// pictures with characters of these shapes. (Profile; the VIC-1525 User's Manual says what the bytes do.)
///
/// The page is that of printer 4, as of a run in which nothing else happened: printer 5 printed
/// nothing, and there are no statuses, no bytes on the screen and no stop. The input is printed as
/// it is read and not kept, and the whole text is made before the first write. The answer is the end of such a run: it
/// says how many marks printer 4 holds.
///
/// # Errors
///
/// - [`CliFault::TooLarge`]: only if the input has more than [`RAW_LIMIT`] bytes.
/// - [`CliFault::ReadFailed`] exactly if the input has failed, [`CliFault::WriteFailed`] exactly
///   if the output has; after the latter a beginning of the text has been written.
/// - [`CliFault::Picture`]: the page has no such sheet, or its bitmap or document is too large; of pictures alone.
/// - [`CliFault::NoMemory`]: memory was refused.
///
/// After every error but `WriteFailed` nothing has been written.
#[inline(never)]
pub fn raw_over<R: Read, W: Write>(
    alloc: Global,
    input: &mut Watched<R>,
    output: &mut Watched<W>,
    lower: bool,
    format: Format,
    shapes: &Shapes,
) -> Result<PagesEnd, CliFault>
    // the caller's part
    requires fresh { AreFresh input.old output.old }
    // what it gives
    ensures raw { IfSome (R.remaining (wrapped input.old)) (λ bytes.
        AnswersRaw shapes.now lower format bytes (W.contents (wrapped output.old)) (W.contents (wrapped output.new)) result) }
    ensures at_end { ReadsToEnd (R.remaining (wrapped input.new)) result }
    // when it refuses, and what that leaves
    ensures nothing { WritesNothing (W.contents (wrapped output.old)) (W.contents (wrapped output.new)) result }
    ensures does { DoesJob IsRawFault input.new output.new result }
{
    let paper = print_input(alloc, input, lower, RAW_LIMIT)?;
    let four_alone = Present {
        four: true,
        five: false,
    };
    let outcome = outcome_with(alloc, paper);
    let end = PagesEnd::of(&outcome);
    let text = text_in_format(alloc, shapes, outcome, four_alone, format)?;
    match text.write_to(output) {
        Ok(()) => Ok(end),
        Err(WriteFault) => Err(CliFault::WriteFailed),
    }
}

/// The outcome that is the paper of printer 4 and nothing else.
pub fn outcome_with(alloc: Global, paper: Paper) -> Outcome
    ensures { result ≡ printed_on paper }
{
    Outcome {
        paper4: paper,
        paper5: Paper {
            rows: Sequence::new(alloc),
            held: Sequence::new(alloc),
        },
        statuses: Sequence::new(alloc),
        stop: None,
        screen: Sequence::new(alloc),
        trace: Sequence::new(alloc),
    }
}

/// Reads at most `limit` bytes to their end, block by block, and gives the paper on which they are
/// printed after the selection. It is public with the limit as an argument, since no test can try
/// the program's own limit.
///
/// # Errors
///
/// Those of [`raw_over`] but a failed write, with `limit` instead of [`RAW_LIMIT`]. This call
/// writes nothing.
pub fn print_input<R: Read>(
    alloc: Global,
    input: &mut Watched<R>,
    lower: bool,
    limit: usize,
) -> Result<Paper, CliFault>
    // the caller's part
    requires fresh { has_failed input.old ≡ false }
    requires few { limit ≤ raw_limit }
    // what it gives
    ensures paper { IfSome (R.remaining (wrapped input.old)) (λ bytes. GivesPaper limit lower result bytes) }
    ensures at_end { HasReadAll (R.remaining (wrapped input.new)) result }
    // when it refuses, and what that leaves
    ensures own { IfErr result IsReadingFault }
    ensures failed { IsErrOf result CliFault.ReadFailed ↔ (has_failed input.new ≡ true) }
{
    let mut printer = Printer::new(alloc);
    printer.take(Input::Select(lower))?;
    let mut left = limit;
    let mut block = [0u8; BLOCK];
    'pieces: loop {
        match input.read(&mut block) {
            Err(_) => return Err(CliFault::ReadFailed),
            Ok(0) => return Ok(printer.into_paper()),
            Ok(n) => {
                if n > left {
                    return Err(CliFault::TooLarge);
                }
                left -= n;
                take_bytes(&mut printer, &block[..n])?;
            }
        }
    }
}

/// Gives bytes to a printer, in order.
fn take_bytes(printer: &mut Printer, bytes: &[u8]) -> Result<(), NoMemory>
    requires few { number_taken printer.old + length bytes.now ≤ 2 ^ 32 }
    ensures taken { OnOk result (PrintsOn bytes.now printer.old printer.new) }
    ensures count { OnOk result (number_taken printer.new ≡ number_taken printer.old + length bytes.now) }
{
    for byte in bytes {
        printer.take(Input::Byte(*byte))?;
    }
    Ok(())
}
