//! Programs: lines with their statements.

ghost use Rattle.std.specs.Prelude.{◌≡◌, length, Ok, IfErr, IfOk, OnOk};
ghost use Rattle.pr_interpreter.specs.Faults.{FaultsAs, LineLeads};
ghost use Rattle.pr_interpreter.specs.LineLaws.{IsWithin};
ghost use Rattle.pr_interpreter.specs.Programs.{program, program_line};

use crate::fault::ProgramFault;
use crate::lexemes::lexemes_of;
use crate::lines::{Line, lines_of};
use crate::reading::put;
use crate::statement_reader::read_statements;
use crate::statements::PlacedStatement;
use crate::symbols::Writing;
use pr_page::Sequence;
use std::alloc::Global;

/// A line of a program.
#[derive(Debug, Drop)]
pub struct ProgramLine {
    /// Its number, at most 63999.
    pub number: u16,
    /// Its statements in order, each with its place, of which `column_of` makes the column.
    pub statements: Sequence<PlacedStatement>,
}

/// Reads the statements of a line of a text as typed.
#[tactic(auto, unfolding(crate::specs::Programs::program_line))]
fn program_line(alloc: Global, text: &[u8], line: Line) -> Result<ProgramLine, ProgramFault>
    requires { IsWithin (length text.now) line }
    ensures ok { IfOk result (λ read. program_line text.now line ≡ Ok read) }
    ensures err { IfErr result (λ fault. FaultsAs fault (program_line text.now line)) }
{
    let row = &text[line.start..line.end];
    let Ok(lexemes) = lexemes_of(alloc, Writing::Typed, line.start, row) else {
        return Err(ProgramFault::OutOfMemory);
    };
    let statements = read_statements(alloc, lexemes.as_slice(), line.end)?;
    Ok(ProgramLine {
        number: line.number,
        statements,
    })
}

/// Reads the statements of a line, and adds the line.
fn take_line(
    alloc: Global,
    found: &mut Vec<ProgramLine>,
    text: &[u8],
    line: Line,
) -> Result<(), ProgramFault>
    requires { IsWithin (length text.now) line }
    ensures ok { OnOk result (LineLeads text.now line found.old.items found.new.items) }
    ensures err { IfErr result (λ fault. FaultsAs fault (program_line text.now line)) }
{
    let read = program_line(alloc, text, line)?;
    put(found, read)?;
    Ok(())
}

/// Reads the program that a text is, as it is typed: each row begins with its line number; the lines are sorted, of
/// equal numbers the last counts, and a number alone deletes.
///
/// # Errors
///
/// The first row that does not begin with a line number; else the first place in the sorted lines that no expression
/// can have; or that memory ran out.
#[tactic(auto, unfolding(crate::specs::Programs::program))]
pub fn read_program(alloc: Global, text: &[u8]) -> Result<Sequence<ProgramLine>, ProgramFault>
    ensures ok { IfOk result (λ lines. program text.now ≡ Ok lines) }
    ensures err { IfErr result (λ fault. FaultsAs fault (program text.now)) }
{
    let lines = lines_of(alloc, text)?;
    let mut found = Vec::new(alloc);
    'lines: for line in lines.as_slice() {
        match take_line(alloc, &mut found, text, *line) {
            Ok(()) => {}
            Err(fault) => return Err(fault),
        }
    }
    Ok(Sequence::from_vec(found))
}
