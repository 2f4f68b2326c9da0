//! The machine's memory.

ghost use Rattle.std.specs.Prelude.{◌≡◌, ◌+◌, ◌*◌, ◌^◌, ◌≤◌};
ghost use Rattle.pr_interpreter.specs.Memory.{array_of, variable_value};
ghost use Rattle.pr_run.specs.Assignments.{in_memory};
ghost use Rattle.pr_run.specs.Memory.{bytes_for_arrays, bytes_without_arrays, element_value, fits, string_bytes, strings_with, value_of};
ghost use Rattle.pr_run.specs.Seen.{EndsAs, state_of};
ghost use Rattle.std.specs.Option.{option_copied};
ghost use Rattle.std.specs.Prelude.{IfErr, OnOk, Ok};

use crate::ending::{Ending, Refusal};
use crate::programs::Program;
use crate::state::Run;
use crate::uses::Use;
use pr_interpreter::{Array, Kind, Name, Value, Variable, array_of, same_name};

/// How many bytes of memory there surely are for a program, its variables, its arrays and its strings: 38911, without
/// 1100 for what an expression needs.
const MEMORY: u128 = 38911 - 1100;

/// Returns how many bytes a value takes as a string.
fn string_bytes(value: &Value) -> usize
    ensures { result ≡ string_bytes value.now }
{
    match value {
        Value::Number(_) => 0,
        Value::Text(text) => text.as_slice().len(),
    }
}

/// Returns how many bytes the string of a variable takes.
fn variable_bytes(name: Name, variables: &[Variable]) -> usize
    ensures { result ≡ string_bytes (variable_value name variables.now) }
{
    for variable in variables {
        if same_name(name, variable.name) {
            return string_bytes(&variable.value);
        }
    }
    0
}

/// Returns how many bytes the string of an element at a place of an array takes.
fn element_bytes(name: Name, place: usize, array: Option<&Array>) -> usize
    ensures { result ≡ string_bytes (element_value name place (option_copied array.entry)) }
{
    let Some(array) = array else {
        return 0;
    };
    match array.elements.as_slice().get(place) {
        Some(value) => string_bytes(value),
        None => 0,
    }
}

/// Returns how many bytes the string of a variable takes, or of an element at a place of an array.
fn bytes_at(run: &Run, name: Name, place: Option<u32>) -> usize
    ensures { result ≡ string_bytes (value_of name place (state_of run.now)) }
{
    match place {
        None => variable_bytes(name, run.variables.as_slice()),
        Some(place) => {
            let array = array_of(name, run.arrays.list.as_slice());
            element_bytes(name, place as usize, array)
        }
    }
}

/// Returns how many bytes the strings of variables and elements take when one has another value.
pub fn strings_with(run: &Run, name: Name, place: Option<u32>, value: &Value) -> u16
    ensures { result ≡ strings_with name place value.now (state_of run.now) }
{
    match name.kind {
        Kind::Number | Kind::Whole => run.strings,
        Kind::Text => {
            let others = usize::from(run.strings).saturating_sub(bytes_at(run, name, place));
            others.saturating_add(string_bytes(value)).min(65535) as u16
        }
    }
}

/// Returns how many bytes a text takes with its lines, variables and functions.
fn total(text: usize, lines: usize, variables: usize, functions: usize) -> u128
    ensures within { result ≤ 2 ^ 70 }
    ensures value { result ≡ text + 5 * lines + 7 * (variables + functions) }
{
    text as u128 + 5 * lines as u128 + 7 * (variables as u128 + functions as u128)
}

/// Returns how many bytes a program and a run take, but for arrays.
#[tactic(auto, unfolding(crate::specs::Memory::bytes_without_arrays))]
fn bytes_without_arrays(program: &Program, run: &Run) -> u128
    ensures within { result ≤ 2 ^ 80 }
    ensures value { result ≡ bytes_without_arrays program.now (state_of run.now) }
{
    let text = program.text.as_slice().len();
    let lines = program.lines.as_slice().len();
    let variables = run.variables.len();
    let functions = run.functions.len();
    total(text, lines, variables, functions) + u128::from(run.strings)
}

/// Returns how many bytes there are for arrays.
pub fn bytes_for_arrays(program: &Program, run: &Run) -> u16
    ensures { result ≡ bytes_for_arrays program.now (state_of run.now) }
{
    MEMORY.saturating_sub(bytes_without_arrays(program, run)) as u16
}

/// Returns whether the machine surely has the memory for a program and a run.
pub fn fits(program: &Program, run: &Run) -> bool
    ensures { result ≡ fits program.now (state_of run.now) }
{
    bytes_without_arrays(program, run) + run.arrays.bytes as u128 <= MEMORY
}

/// Refuses what the machine may not have the memory for.
pub fn need_memory(program: &Program, at: Use, run: &Run) -> Result<(), Ending>
    ensures ok { OnOk result (in_memory program.now at (state_of run.now) ≡ Ok (state_of run.now)) }
    ensures err { IfErr result (λ e. EndsAs e (in_memory program.now at (state_of run.now))) }
{
    if fits(program, run) {
        return Ok(());
    }
    Err(Ending::Refused {
        refusal: Refusal::FullMemory,
        place: at.place,
    })
}
