//! The text of a script, as it is.

ghost use Rattle.std.specs.Prelude.{IfSome};
ghost use Rattle.pr_input.specs.Watched.{wrapped};
ghost use Rattle.pr_jobs.specs.Does.{AreFresh, DoesJob};
ghost use Rattle.pr_jobs.specs.Pages.{IsRunFault, ReadsToEnd, WritesNothing};
ghost use Rattle.pr_cli.specs.Script.{AnswersScript, GivesScript};

use pr_basic::read_script;
use pr_input::{WriteFault, read_whole, write_whole};
use pr_jobs::{CliFault, SCRIPT_LIMIT, Watched};
use std::alloc::Global;
use std::io::{Read, Write};

/// Reads the statements of a text, if it is a script.
fn check_script(alloc: Global, text: &[u8]) -> Result<(), CliFault>
    ensures { GivesScript text.now result }
{
    let _statements = read_script(alloc, text)?;
    Ok(())
}

/// Reads a text to its end and writes it, if it is a script.
///
/// # Errors
///
/// - [`CliFault::Script`]: the text is no script, with its first fault.
/// - [`CliFault::TooLarge`]: only if the input has more than [`SCRIPT_LIMIT`] bytes.
/// - [`CliFault::ReadFailed`] exactly if the input has failed, [`CliFault::WriteFailed`] exactly if the output has;
///   after the latter a beginning of the text has been written.
/// - [`CliFault::NoMemory`]: memory was refused.
///
/// After every error but `WriteFailed` nothing has been written.
pub fn script_over<R: Read, W: Write>(
    alloc: Global,
    input: &mut Watched<R>,
    output: &mut Watched<W>,
) -> Result<(), CliFault>
    // the caller's part
    requires fresh { AreFresh input.old output.old }
    // what it gives
    ensures script { IfSome (R.remaining (wrapped input.old)) (λ text.
        AnswersScript text (W.contents (wrapped output.old)) (W.contents (wrapped output.new)) result) }
    ensures at_end { ReadsToEnd (R.remaining (wrapped input.new)) result }
    // when it refuses, and what that leaves
    ensures nothing { WritesNothing (W.contents (wrapped output.old)) (W.contents (wrapped output.new)) result }
    ensures does { DoesJob IsRunFault input.new output.new result }
{
    let text = read_whole(alloc, input, SCRIPT_LIMIT)?;
    check_script(alloc, &text)?;
    match write_whole(output, &text) {
        Ok(()) => Ok(()),
        Err(WriteFault) => Err(CliFault::WriteFailed),
    }
}
