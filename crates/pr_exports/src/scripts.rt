//! The line of each statement, and the place of a script's first fault.

ghost use Rattle.std.specs.Prelude.{◌≡◌, ◌⊎◌, ◌+◌, ◌-◌, ◌<◌, ◌≤◌, ◌++◌, ◌∷◌, [], List, length, replicate, IfErr, IfOk, OnOk};
ghost use Rattle.pr_base.specs.Lines.{lines_of};
ghost use Rattle.pr_basic.specs.Faults.{IsFirstFault};
ghost use Rattle.pr_basic.specs.FaultPlaces.{IsFirstFaultAt};
ghost use Rattle.pr_basic.specs.Grammar.{IsScript};
ghost use Rattle.pr_basic.specs.LineAt.{IsLineAt};
ghost use Rattle.pr_basic.specs.declared.statement.Statement.{Statement};
ghost use Rattle.pr_exports.specs.Asked.{TellsFault, TellsLines};
ghost use Rattle.pr_exports.specs.Giving.{GivesFault, GivesLines};
ghost use Rattle.pr_exports.specs.Numbers.{AreLineNumbers, IsFaultRow, IsLabelNumber, IsWidth};

use crate::answer::{Answer, TextGiven, give, numbered};
use pr_basic::{
    LineAt, ScriptFault, basic_number, faults_tell_their_line, lexeme_at, line_at, read_script,
    read_script_at,
};
use pr_explain::first_line;
use pr_jobs::CliFault;
use pr_wire::NoMemory;
use std::alloc::{AllocError, Global};

/// Adds a number `count` times.
fn push_times(numbers: &mut Vec<u64>, number: u64, count: usize) -> Result<(), NoMemory>
    ensures { OnOk result (numbers.new.items ≡ numbers.old.items ++ replicate count number) }
{
    for index in 0..count {
        let _ = index;
        numbers.push(number)?;
    }
    Ok(())
}

/// The line of each statement of a script. The time is linear in the bytes: each line is read once.
fn lines_of_statements(alloc: Global, script: &[u8]) -> Result<Vec<u64>, NoMemory>
    ensures { (statements : List Statement) → IsScript script.now statements →
        IfOk result (λ numbers. AreLineNumbers 1 (lines_of script.now) numbers.items) }
{
    let mut numbers = Vec::new(alloc);
    let mut rest = script;
    let mut number: u64 = 0;
    while !rest.is_empty() {
        let first = first_line(alloc, rest)?;
        number += 1;
        push_times(&mut numbers, number, first.count)?;
        rest = first.rest;
    }
    Ok(numbers)
}

/// Puts the line of each statement of a script at the front of a buffer.
fn lines(alloc: Global, script: &[u8], out: &mut [u64]) -> TextGiven
    ensures told { GivesLines script.now out.old out.new result }
    ensures length { length out.new ≡ length out.old }
{
    match read_script(alloc, script) {
        Ok(_) => {}
        Err(ScriptFault::NoMemory) => return TextGiven::Refused(CliFault::NoMemory),
        Err(fault) => return TextGiven::Refused(CliFault::Script(fault)),
    }
    match lines_of_statements(alloc, script) {
        Ok(numbers) => give(Ok(()), numbers.as_slice(), out),
        Err(_) => TextGiven::Refused(CliFault::NoMemory),
    }
}

/// The BASIC number at the front of a line and one more, or 0 where it has none.
fn label_of(line: &[u8]) -> u64
    ensures { IsLabelNumber line.now result }
{
    match basic_number(line) {
        Some(number) => u64::from(number) + 1,
        None => 0,
    }
}

/// How many bytes the lexeme at the front of some bytes has; 0 where there is none.
fn width_of(bytes: &[u8]) -> u64
    ensures { IsWidth bytes.now result }
{
    match lexeme_at(bytes) {
        Some(lexeme) => lexeme.len() as u64,
        None => 0,
    }
}

/// The line of the first fault.
fn line_of(script: &[u8], place: usize, fault: ScriptFault) -> LineAt<'_>
    requires { IsFirstFaultAt script.now fault place }
    ensures first { IsFirstFaultAt script.now fault place }
    ensures line { IsLineAt script.now place result.start result.bytes.now result.number }
{
    faults_tell_their_line();
    match line_at(script, place) {
        Some(line) => line,
        None => unreachable!(),
    }
}

/// The numbers of a script's first fault; none where it has no fault.
fn fault_row(alloc: Global, script: &[u8]) -> Result<Vec<u64>, NoMemory>
    ensures { IfOk result (λ numbers. IsFaultRow script.now numbers.items) }
{
    let mut numbers = Vec::new(alloc);
    let refused = match read_script_at(alloc, script) {
        Ok(_) => return Ok(numbers),
        Err(refused) => refused,
    };
    if refused.fault == ScriptFault::NoMemory {
        return Err(AllocError);
    }
    let line = line_of(script, refused.place, refused.fault);
    let before = refused.place - line.start;
    numbers.extend_from_slice(&[
        line.number as u64,
        before as u64 + 1,
        label_of(line.bytes),
        width_of(&line.bytes[before..]),
    ])?;
    Ok(numbers)
}

/// Puts the place of a script's first fault at the front of a buffer.
fn fault(alloc: Global, script: &[u8], out: &mut [u64]) -> TextGiven
    ensures told { GivesFault script.now out.old out.new result }
    ensures length { length out.new ≡ length out.old }
{
    match fault_row(alloc, script) {
        Ok(numbers) => give(Ok(()), numbers.as_slice(), out),
        Err(_) => TextGiven::Refused(CliFault::NoMemory),
    }
}

/// Puts the line of each statement of a script, from 1, at the front of the caller's buffer, in the
/// order of the statements.
///
/// It is refused with the script's first fault, where memory was refused, and where there are more
/// numbers than the buffer has room for. The buffer is then as it was.
#[unsafe(no_mangle)]
pub extern "C" fn print1525_statement_lines(
    alloc: Global,
    script: &[u8],
    out: &mut [u64],
    answer: &mut Answer,
)
    ensures tells { TellsLines script.now out.old out.new answer.new }
    ensures length { length out.new ≡ length out.old }
{
    *answer = numbered(lines(alloc, script, out));
}

/// Puts the place of a script's first fault at the front of the caller's buffer, as four numbers: the
/// line and the column in it, both from 1, the BASIC number of the line and one more, or 0 where it
/// has none, and how many bytes the lexeme has that is there. There are no numbers where the script
/// has no fault.
///
/// It is refused where memory was refused, and where the buffer has no room for the numbers. The
/// buffer is then as it was.
#[unsafe(no_mangle)]
pub extern "C" fn print1525_script_fault(
    alloc: Global,
    script: &[u8],
    out: &mut [u64],
    answer: &mut Answer,
)
    ensures tells { TellsFault script.now out.old out.new answer.new }
    ensures length { length out.new ≡ length out.old }
{
    *answer = numbered(fault(alloc, script, out));
}
