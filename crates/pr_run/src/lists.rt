//! The bytes of the lists of PRINT, PRINT# and CMD.

ghost use Rattle.std.specs.Prelude.{◌≡◌, ◌++◌, ◌∷◌, ◌≤◌, [], IfErr, IfOk, OnOk, length, true};
ghost use Rattle.pr_basic.specs.Limits.{byte_limit};
ghost use Rattle.pr_run.specs.Lists.{at_column, at_left_after, ends_after, fitting, is_value, number_bytes};
ghost use Rattle.pr_run.specs.Lists.{part_bytes, printed, shown, step_byte, steps_right, tab_bytes, space_bytes};
ghost use Rattle.pr_run.specs.Lists.{value_bytes, with_part, with_parts};
ghost use Rattle.pr_run.specs.Seen.{EndsAs, gives, state_of};
ghost use Rattle.pr_run.specs.Uses.{used};
ghost use Rattle.pr_interpreter.specs.Functions.{number_text};

use crate::ending::{Ending, Refusal};
use crate::programs::Program;
use crate::state::Run;
use crate::uses::{Use, ending_of, whole_of};
use crate::worked::{line_at, worked};
use pr_basic::Line;
use pr_interpreter::{Item, Number, Part, Stop, Value, number_text};
use std::alloc::Global;

/// A list has at most so many bytes.
const LIST_LIMIT: usize = 255;

/// Returns the byte of a step to the right: a cursor right to the screen, a blank to a file.
fn step_byte(channel: u8) -> u8
    ensures { result ≡ step_byte channel }
{
    if channel == 0 { 29 } else { b' ' }
}

/// Adds a byte.
fn put(bytes: &mut Vec<u8>, byte: u8) -> Result<(), Ending>
    ensures ok { OnOk result (bytes.new.items ≡ bytes.old.items ++ byte ∷ []) }
    ensures err { IfErr result (λ e. e ≡ Ending.OutOfMemory) }
{
    match bytes.push(byte) {
        Ok(()) => Ok(()),
        Err(_) => Err(Ending::OutOfMemory),
    }
}

/// Returns so many steps to the right.
fn steps_right(alloc: Global, channel: u8, count: u16) -> Result<Vec<u8>, Ending>
    ensures ok { IfOk result (λ bytes. bytes.items ≡ steps_right channel count) }
    ensures err { IfErr result (λ e. e ≡ Ending.OutOfMemory) }
{
    let step = step_byte(channel);
    let mut bytes = Vec::new(alloc);
    while bytes.len() < usize::from(count) {
        put(&mut bytes, step)?;
    }
    Ok(bytes)
}

/// Returns so many steps to the right from the screen's column, if that is known.
fn from_column(alloc: Global, at: Use, run: &Run, count: u16) -> Result<Vec<u8>, Ending>
    ensures ok { IfOk result (λ bytes. at_column at (state_of run.now) (steps_right run.now.channel count) ≡ Ok bytes.items) }
    ensures err { IfErr result (λ e. EndsAs e (at_column at (state_of run.now) (steps_right run.now.channel count))) }
{
    if run.at_left {
        steps_right(alloc, run.channel, count)
    } else {
        Err(Ending::Refused {
            refusal: Refusal::NotCertain,
            place: at.place,
        })
    }
}

/// Returns the bytes of TAB.
fn tab_bytes(alloc: Global, at: Use, run: &Run, count: Result<u16, Stop>) -> Result<Vec<u8>, Ending>
    ensures ok { IfOk result (λ bytes. tab_bytes at (state_of run.now) (used at count) ≡ Ok bytes.items) }
    ensures err { IfErr result (λ e. EndsAs e (tab_bytes at (state_of run.now) (used at count))) }
{
    match count {
        Ok(count) => from_column(alloc, at, run, count),
        Err(stop) => Err(ending_of(at, stop)),
    }
}

/// Returns the bytes of SPC.
fn space_bytes(
    alloc: Global,
    at: Use,
    run: &Run,
    count: Result<u16, Stop>,
) -> Result<Vec<u8>, Ending>
    ensures ok { IfOk result (λ bytes. space_bytes (state_of run.now) (used at count) ≡ Ok bytes.items) }
    ensures err { IfErr result (λ e. EndsAs e (space_bytes (state_of run.now) (used at count))) }
{
    match count {
        Ok(count) => steps_right(alloc, run.channel, count),
        Err(stop) => Err(ending_of(at, stop)),
    }
}

/// Returns the bytes of a number, and a step to the right.
fn number_bytes(alloc: Global, at: Use, run: &Run, number: Number) -> Result<Vec<u8>, Ending>
    ensures ok { IfOk result (λ bytes. number_bytes (state_of run.now) (used at (number_text number)) ≡ Ok bytes.items) }
    ensures err { IfErr result (λ e. EndsAs e (number_bytes (state_of run.now) (used at (number_text number)))) }
{
    let Ok(text) = number_text(alloc, number) else {
        return Err(Ending::OutOfMemory);
    };
    match text {
        Ok(text) => {
            let mut bytes = text.into_vec();
            put(&mut bytes, step_byte(run.channel))?;
            Ok(bytes)
        }
        Err(stop) => Err(ending_of(at, stop)),
    }
}

/// Returns the bytes of a value.
fn value_bytes(alloc: Global, at: Use, run: &Run, value: Value) -> Result<Vec<u8>, Ending>
    ensures ok { IfOk result (λ bytes. value_bytes at (state_of run.now) value ≡ Ok bytes.items) }
    ensures err { IfErr result (λ e. EndsAs e (value_bytes at (state_of run.now) value)) }
{
    match value {
        Value::Number(number) => number_bytes(alloc, at, run, number),
        Value::Text(text) => Ok(text.into_vec()),
    }
}

/// Returns the bytes of a part of a list.
#[tactic(auto, unfolding(crate::specs::Lists::part_bytes))]
fn part_bytes(
    alloc: Global,
    program: &Program,
    at: Use,
    run: &mut Run,
    part: &Part,
) -> Result<Vec<u8>, Ending>
    ensures ok { IfOk result (λ bytes. part_bytes program.now at (state_of run.old) part.now ≡ gives bytes.items run.new) }
    ensures err { IfErr result (λ e. EndsAs e (part_bytes program.now at (state_of run.old) part.now)) }
{
    match part {
        Part::Value(nodes) => {
            let value = worked(alloc, program, run, nodes.as_slice())?;
            value_bytes(alloc, at, run, value)
        }
        Part::Tab(nodes) => {
            let value = worked(alloc, program, run, nodes.as_slice())?;
            tab_bytes(alloc, at, run, whole_of(255, value))
        }
        Part::Spaces(nodes) => {
            let value = worked(alloc, program, run, nodes.as_slice())?;
            space_bytes(alloc, at, run, whole_of(255, value))
        }
        Part::Comma => from_column(alloc, at, run, 10),
        Part::Semicolon => Ok(Vec::new(alloc)),
    }
}

/// Returns whether the screen's cursor is at the left after bytes.
fn at_left_after(before: bool, bytes: &[u8]) -> bool
    ensures { result ≡ at_left_after before bytes.now }
{
    let mut at_left = before;
    for b in bytes {
        at_left = *b == 13;
    }
    at_left
}

/// Shows bytes on the screen, if no file has the output.
fn show(bytes: &[u8], run: &mut Run)
    ensures { state_of run.new ≡ shown bytes.now (state_of run.old) }
{
    if run.channel == 0 {
        run.at_left = at_left_after(run.at_left, bytes);
    }
}

/// Adds the bytes of a part of a list.
#[tactic(auto, unfolding(crate::specs::Lists::with_part))]
fn put_part(
    alloc: Global,
    program: &Program,
    bytes: &mut Vec<u8>,
    run: &mut Run,
    item: &Item,
) -> Result<(), Ending>
    ensures ok { OnOk result (with_part program.now bytes.old.items (state_of run.old) item.now ≡ gives bytes.new.items run.new) }
    ensures err { IfErr result (λ e. EndsAs e (with_part program.now bytes.old.items (state_of run.old) item.now)) }
    ensures within { OnOk result (length bytes.new.items ≤ byte_limit) }
{
    let at = Use {
        line: line_at(program, run),
        place: item.place,
    };
    let more = part_bytes(alloc, program, at, run, &item.part)?;
    show(more.as_slice(), run);
    if LIST_LIMIT < bytes.len() || LIST_LIMIT - bytes.len() < more.len() {
        return Err(Ending::Refused {
            refusal: Refusal::LongList,
            place: at.place,
        });
    }
    match bytes.extend_from_slice(more.as_slice()) {
        Ok(()) => Ok(()),
        Err(_) => Err(Ending::OutOfMemory),
    }
}

/// Returns the bytes of the parts of a list.
fn parts_bytes(
    alloc: Global,
    program: &Program,
    run: &mut Run,
    items: &[Item],
) -> Result<Vec<u8>, Ending>
    ensures ok { IfOk result (λ bytes. with_parts program.now [] (state_of run.old) items.now ≡ gives bytes.items run.new) }
    ensures err { IfErr result (λ e. EndsAs e (with_parts program.now [] (state_of run.old) items.now)) }
    ensures within { IfOk result (λ bytes. length bytes.items ≤ byte_limit) }
{
    let mut bytes = Vec::new(alloc);
    'each: for item in items {
        put_part(alloc, program, &mut bytes, run, item)?;
    }
    Ok(bytes)
}

/// Returns whether a part of a list is a value.
fn is_value(part: &Part) -> bool
    ensures { result ≡ is_value part.now }
{
    match part {
        Part::Value(_) => true,
        Part::Tab(_) | Part::Spaces(_) | Part::Comma | Part::Semicolon => false,
    }
}

/// Returns whether a line ends after a list: unless its last part is no value.
fn ends_line(items: &[Item]) -> bool
    ensures { result ≡ ends_after true items.now }
{
    let mut ends = true;
    for item in items {
        ends = is_value(&item.part);
    }
    ends
}

/// Returns what a list prints.
#[tactic(auto, unfolding(crate::specs::Lists::printed))]
pub fn printed(
    alloc: Global,
    program: &Program,
    run: &mut Run,
    items: &[Item],
) -> Result<Line, Ending>
    ensures ok { IfOk result (λ line. printed program.now (state_of run.old) items.now ≡ gives line run.new) }
    ensures err { IfErr result (λ e. EndsAs e (printed program.now (state_of run.old) items.now)) }
{
    let bytes = parts_bytes(alloc, program, run, items)?;
    let ends = ends_line(items);
    if ends {
        show(b"\r", run);
    }
    Ok(Line { bytes, ends })
}
