//! A recording in any format in, the pages that printers print of it out.

ghost use Rattle.std.specs.Prelude.{◌≡◌, ◌↔◌, false, true, IfErr, IfSome, IsErrOf, OnOk};
ghost use Rattle.pr_jobs.specs.Does.{AreFresh, DoesJob};
ghost use Rattle.pr_input.specs.Watched.{has_failed, is_flushed, wrapped};
ghost use Rattle.pr_recording.specs.Narrated.{IsStop};
ghost use Rattle.pr_recording.specs.Pages.{AnswersPages, IsReprintFault, ReadsPages, papers_alone};
ghost use Rattle.pr_recording.specs.Writes.{WritesPrint};

use crate::blocks::read_into;
use crate::both::Both;
use crate::left_out::{LeftOut, LeftOutLog};
use crate::listening::{Listening, call_first};
use crate::printer_pair::{PrintedPages, PrinterPair};
use crate::tape::TapeEnd;
use pr_capture::TraceInput;
use pr_dots::Shapes;
use pr_jobs::{CliFault, PagesEnd, Watched, WriteFault, read_edges_come_first, text_in_format};
use pr_page::Sequence;
use pr_render::Format;
use pr_report::Oddities;
use pr_serial::Present;
use pr_system::Outcome;
use std::alloc::Global;
use std::io::{Read, Write};

/// The longest recording that is printed, in bytes (profile): a printer takes at most 2^32 inputs, and no
/// byte of a recording makes more than one.
pub const PRINT_LIMIT: usize = 4_000_000_000;

/// What is said of a recording whose pages were written.
#[derive(Clone, Copy, Debug, PartialEq, Eq)]
pub struct Reprinted {
    /// What is odd about it.
    pub odd: Oddities,
    /// What it has that no page has.
    pub left: LeftOut,
    /// Which printers hear a byte.
    pub present: Present,
    /// What the printers hold of lines that have not ended. No run stopped.
    pub end: PagesEnd,
}

/// Reads any recording of the bus, in any format, and writes the pages that printers 4 and 5 print of it,
/// in this format: of the bytes that were acknowledged, those that each of them hears, where these printers listen
/// when the recording begins. The sheets are
/// those of the printers that hear a byte; there are no statuses, no bytes on the screen and no stop.
/// Pictures draw characters in these shapes. The answer is what is odd about the recording, and what the pages lack.
///
/// The recording may begin anywhere and have any levels. It is read block by block and not kept, and the
/// whole text is made before the first write.
///
/// # Errors
///
/// - [`CliFault::Trace`]: a trace text with its first bad line; [`CliFault::Capture`]: a recording with
///   its first fault. No further block is read.
/// - [`CliFault::Wave`] with [`pr_wire::WaveFault::Order`]: a trace text in which time goes back, with the
///   index of the first edge that is earlier than the one before it, unless a bad line comes before
///   that.
/// - [`CliFault::TooLarge`]: only if the input has more than [`PRINT_LIMIT`] bytes.
/// - [`CliFault::ReadFailed`] exactly if the input has failed, [`CliFault::WriteFailed`] exactly if the
///   output has.
/// - [`CliFault::Picture`]: the pages have no such sheet, or their bitmap or document is too large; whatever the recording's own fault is.
/// - [`CliFault::NoMemory`]: memory was refused.
///
/// With the first three the pages of all that is settled before the fault have been written; after
/// `WriteFailed` a beginning of the pages has; after every other error nothing.
pub fn reprint_over<R: Read, W: Write>(
    alloc: Global,
    input: &mut Watched<R>,
    output: &mut Watched<W>,
    trace: TraceInput<'_>,
    listening: Listening,
    format: Format,
    shapes: &Shapes,
) -> Result<Reprinted, CliFault>
    // the caller's part
    requires fresh { AreFresh input.old output.old }
    // what it gives
    ensures pages { IfSome (R.remaining (wrapped input.old)) (λ text.
        AnswersPages shapes.now trace.entry listening format text (W.contents (wrapped output.old)) (W.contents (wrapped output.new)) result) }
    ensures at_end { ReadsPages (R.remaining (wrapped input.new)) result }
    // when it refuses, and what that leaves
    ensures does { DoesJob IsReprintFault input.new output.new result }
{
    read_edges_come_first();
    let mut taker = Both {
        first: PrinterPair::new(alloc),
        second: LeftOutLog::new(),
    };
    call_first(&mut taker, listening)?;
    let end = read_into(alloc, input, trace, PRINT_LIMIT, &mut taker)?;
    let Both { first, second } = taker;
    write_pages(
        alloc,
        output,
        first.finish(),
        second.finish(),
        end,
        format,
        shapes,
    )
}

/// The outcome that is these papers and nothing else.
fn papers_alone(alloc: Global, pages: PrintedPages) -> Outcome
    ensures { result ≡ papers_alone pages }
{
    Outcome {
        paper4: pages.paper4,
        paper5: pages.paper5,
        statuses: Sequence::new(alloc),
        stop: None,
        screen: Sequence::new(alloc),
        trace: Sequence::new(alloc),
    }
}

/// Writes the pages, and answers what is said of the recording, or why no more was printed, if that has a reason.
fn write_pages<W: Write>(
    alloc: Global,
    output: &mut Watched<W>,
    pages: PrintedPages,
    left: LeftOut,
    end: TapeEnd,
    format: Format,
    shapes: &Shapes,
) -> Result<Reprinted, CliFault>
    // the caller's part
    requires fresh { has_failed output.old ≡ false }
    requires stop { IfSome end.stop IsStop }
    // what it gives
    ensures written { WritesPrint shapes.now format pages left end (W.contents (wrapped output.old)) (W.contents (wrapped output.new)) result }
    ensures flushed { OnOk result (is_flushed output.new ≡ true) }
    // when it refuses, and what that leaves
    ensures own { IfErr result IsReprintFault }
    ensures failed { IsErrOf result CliFault.WriteFailed ↔ (has_failed output.new ≡ true) }
{
    let present = pages.present;
    let outcome = papers_alone(alloc, pages);
    let held = PagesEnd::of(&outcome);
    let text = text_in_format(alloc, shapes, outcome, present, format)?;
    match text.write_to(output) {
        Ok(()) => {}
        Err(WriteFault) => return Err(CliFault::WriteFailed),
    }
    match end.stop {
        None => Ok(Reprinted {
            odd: end.odd,
            left,
            present,
            end: held,
        }),
        Some(fault) => Err(fault),
    }
}
