//! Programs as they are run.

ghost use Rattle.std.specs.Prelude.{◌≡◌, Ok, IfErr, IfOk};
ghost use Rattle.pr_interpreter.specs.Faults.{FaultsAs};
ghost use Rattle.pr_run.specs.Runs.{program_of};

use crate::data::{DataItem, data_of};
use pr_interpreter::{ProgramFault, ProgramLine, lines_of, read_program};
use pr_page::Sequence;
use std::alloc::Global;

/// A program.
#[derive(Debug, Drop)]
pub struct Program {
    pub text: Sequence<u8>,
    /// The lines in the order of their numbers, with their statements.
    pub lines: Sequence<ProgramLine>,
    /// The items of DATA in the order of the lines.
    pub items: Sequence<DataItem>,
}

/// Reads the program that a text is.
///
/// # Errors
///
/// As `read_program` of `pr_interpreter`.
#[tactic(auto, unfolding(crate::specs::Runs::program_of))]
pub fn program_of(alloc: Global, text: &[u8]) -> Result<Program, ProgramFault>
    ensures ok { IfOk result (λ program. program_of text.now ≡ Ok program) }
    ensures err { IfErr result (λ fault. FaultsAs fault (program_of text.now)) }
{
    let lines = read_program(alloc, text)?;
    let rows = lines_of(alloc, text)?;
    let Ok(items) = data_of(alloc, text, rows.as_slice()) else {
        return Err(ProgramFault::OutOfMemory);
    };
    let Ok(copy) = Vec::from_slice(alloc, text) else {
        return Err(ProgramFault::OutOfMemory);
    };
    Ok(Program {
        text: Sequence::from_vec(copy),
        lines,
        items: Sequence::from_vec(items),
    })
}
