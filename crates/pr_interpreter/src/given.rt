//! What the parts of an expression give: strings, variables and elements of arrays.

ghost use Rattle.std.specs.Prelude.{◌≡◌, [], Ok, Err, IfOk, MatchResult, count_by};
ghost use Rattle.pr_interpreter.specs.Evaluation.{element, halt_at, index, indices, is_made, kept, last_given, literal, made, number_in, number_or, string_in, string_or, value_in, variable, with_it};
ghost use Rattle.pr_interpreter.specs.Memory.{array_of, first_value, variable_value};
ghost use Rattle.pr_interpreter.specs.Working.{element_of, scope_of};

use crate::functions::{copied, whole_to};
use crate::memory::{
    Array, Parameter, Scope, Variable, array_of, is_clock, is_status, parameter_of, place_of,
    same_name,
};
use crate::names::{Kind, Name};
use crate::number::Number;
use crate::values::{BasicError, Halt, Stop, Value};
use pr_page::Sequence;
use std::alloc::{AllocError, Global};

/// What a part of an expression gives.
#[derive(Debug, Drop)]
pub enum Given {
    Number(Number),
    /// A string that the machine keeps for the expression alone.
    Made(Sequence<u8>),
    /// The string of a variable or of an element.
    Kept(Sequence<u8>),
    /// It gives no value.
    Stopped(Halt),
}

/// What stops an operand of another kind.
pub const MISMATCH: Halt = Halt::Error(BasicError::TypeMismatch);

/// What stops an expression that lacks an operand; none that was read does.
pub const NOTHING: Halt = Halt::Error(BasicError::Syntax);

/// Returns why there is no value at a place.
pub fn halt_at(place: usize, stop: Stop) -> Halt
    ensures { result ≡ halt_at place stop }
{
    match stop {
        Stop::OutOfMemory => Halt::OutOfMemory,
        Stop::NotCertain => Halt::NotCertain(place),
        Stop::Error(error) => Halt::Error(error),
    }
}

/// Returns what a number gives that was worked out.
pub fn number_or(place: usize, found: Result<Number, Stop>) -> Given
    ensures { result ≡ number_or place found }
{
    match found {
        Ok(number) => Given::Number(number),
        Err(stop) => Given::Stopped(halt_at(place, stop)),
    }
}

/// Returns what a string gives that was made.
pub fn string_or(place: usize, found: Result<Sequence<u8>, Stop>) -> Given
    ensures { result ≡ string_or place found }
{
    match found {
        Ok(text) => Given::Made(text),
        Err(stop) => Given::Stopped(halt_at(place, stop)),
    }
}

/// Returns the number that a part gives, which has to be one.
pub fn number_in(given: &Given) -> Result<Number, Halt>
    ensures { result ≡ number_in given.now }
{
    match given {
        Given::Number(number) => Ok(*number),
        Given::Made(_) => Err(MISMATCH),
        Given::Kept(_) => Err(MISMATCH),
        Given::Stopped(halt) => Err(*halt),
    }
}

/// Returns what a number gives that a function of the program leaves.
pub fn number_given(found: Result<Number, Halt>) -> Given
    ensures { result ≡ with_it found (λ n. Given.Number n) }
{
    match found {
        Ok(number) => Given::Number(number),
        Err(halt) => Given::Stopped(halt),
    }
}

/// Returns the string that a part gives, which has to be one.
pub fn string_in(given: &Given) -> Result<&[u8], Halt>
    ensures { MatchResult result (λ s. string_in given.now ≡ Ok s.now) (λ halt. string_in given.now ≡ Err halt) }
{
    match given {
        Given::Number(_) => Err(MISMATCH),
        Given::Made(text) => Ok(text.as_slice()),
        Given::Kept(text) => Ok(text.as_slice()),
        Given::Stopped(halt) => Err(*halt),
    }
}

/// Returns what a value gives that a variable or an element has.
fn kept(alloc: Global, value: &Value) -> Result<Given, AllocError>
    ensures { IfOk result (λ g. g ≡ kept value.now) }
{
    match value {
        Value::Number(number) => Ok(Given::Number(*number)),
        Value::Text(text) => {
            let copy = copied(alloc, text.as_slice())?;
            Ok(Given::Kept(copy))
        }
    }
}

/// Returns what a value gives that is worked out.
pub fn made(value: Value) -> Given
    ensures { result ≡ made value }
{
    match value {
        Value::Number(number) => Given::Number(number),
        Value::Text(text) => Given::Made(text),
    }
}

/// Returns whether the machine keeps a string for an expression alone.
pub fn is_made(given: &Given) -> bool
    ensures { result ≡ is_made given.now }
{
    match given {
        Given::Made(_) => true,
        Given::Number(_) => false,
        Given::Kept(_) => false,
        Given::Stopped(_) => false,
    }
}

/// Returns how many of these strings the machine keeps for an expression alone.
pub fn made_count(given: &[Given]) -> usize
    ensures { result ≡ count_by is_made given.now }
{
    given.iter().filter(|g| is_made(g)).count()
}

/// Returns the value that a part gives.
pub fn value_in(given: Given) -> Result<Value, Halt>
    ensures { result ≡ value_in given }
{
    match given {
        Given::Number(number) => Ok(Value::Number(number)),
        Given::Made(text) => Ok(Value::Text(text)),
        Given::Kept(text) => Ok(Value::Text(text)),
        Given::Stopped(halt) => Err(halt),
    }
}

/// Returns what is given last.
pub fn last_of(given: Vec<Given>) -> Given
    ensures { result ≡ last_given given.items }
{
    let mut given = given;
    match given.pop() {
        Some(last) => last,
        None => Given::Stopped(NOTHING),
    }
}

/// Returns what a string of the program gives.
#[tactic(auto, unfolding(crate::specs::Evaluation::literal))]
pub fn literal(
    alloc: Global,
    place: usize,
    text: &[u8],
    start: usize,
    end: usize,
) -> Result<Given, AllocError>
    ensures { IfOk result (λ g. g ≡ literal place text.now start end) }
{
    if start <= end && end <= text.len() && end - start <= 255 {
        let copy = copied(alloc, &text[start..end])?;
        Ok(Given::Made(copy))
    } else {
        Ok(Given::Stopped(Halt::NotTaken(place)))
    }
}

/// Returns what a variable gives before it has a value.
fn first_given(alloc: Global, kind: Kind) -> Given
    ensures { result ≡ kept (first_value kind) }
{
    match kind {
        Kind::Number | Kind::Whole => Given::Number(Number::zero()),
        Kind::Text => Given::Kept(Sequence::new(alloc)),
    }
}

/// Returns what a variable of the program gives.
fn variable_given(alloc: Global, name: Name, variables: &[Variable]) -> Result<Given, AllocError>
    ensures { IfOk result (λ g. g ≡ kept (variable_value name variables.now)) }
{
    for variable in variables {
        if same_name(name, variable.name) {
            return kept(alloc, &variable.value);
        }
    }
    Ok(first_given(alloc, name.kind))
}

/// Returns what a variable gives.
#[tactic(auto, unfolding(crate::specs::Evaluation::variable))]
pub fn variable(
    alloc: Global,
    scope: &Scope<'_>,
    parameters: &[Parameter],
    place: usize,
    name: Name,
) -> Result<Given, AllocError>
    ensures { IfOk result (λ g. g ≡ variable (scope_of parameters.now scope.now) place name) }
{
    if is_clock(name) {
        return Ok(Given::Stopped(Halt::NotTaken(place)));
    }
    if is_status(name) {
        return Ok(if scope.has_sent {
            Given::Stopped(Halt::NotTaken(place))
        } else {
            Given::Number(Number::zero())
        });
    }
    match parameter_of(name, parameters) {
        Some(number) => Ok(Given::Number(number)),
        None => variable_given(alloc, name, scope.variables),
    }
}

/// Returns an index.
#[tactic(auto, unfolding(crate::specs::Evaluation::index))]
fn index(place: usize, given: &Given) -> Result<u16, Halt>
    ensures { result ≡ index place given.now }
{
    match number_in(given) {
        Ok(number) => match whole_to(32767, number) {
            Ok(index) => Ok(index),
            Err(stop) => Err(halt_at(place, stop)),
        },
        Err(halt) => Err(halt),
    }
}

/// Returns the indices of an element.
pub fn indices(
    alloc: Global,
    place: usize,
    given: &[Given],
) -> Result<Result<Sequence<u16>, Halt>, AllocError>
    ensures { IfOk result (λ r. r ≡ indices place [] given.now) }
{
    let mut found = Vec::new(alloc);
    for part in given {
        match index(place, part) {
            Ok(index) => found.push(index)?,
            Err(halt) => return Ok(Err(halt)),
        }
    }
    Ok(Ok(Sequence::from_vec(found)))
}

/// Returns what an element of an array gives.
#[tactic(auto, unfolding(crate::specs::Evaluation::element))]
pub fn element(alloc: Global, array: &Array, indices: &[u16]) -> Result<Given, AllocError>
    ensures { IfOk result (λ g. g ≡ element array.now indices.now) }
{
    match place_of(array.bounds.as_slice(), indices) {
        Some(place) => {
            let at = place as usize;
            let elements = array.elements.as_slice();
            if at < elements.len() {
                kept(alloc, &elements[at])
            } else {
                Ok(first_given(alloc, array.name.kind))
            }
        }
        None => Ok(Given::Stopped(Halt::Error(BasicError::BadSubscript))),
    }
}

/// Returns what an element of an array of a name gives; None if there is no such array.
pub fn element_of(
    alloc: Global,
    name: Name,
    arrays: &[Array],
    indices: &[u16],
) -> Result<Option<Given>, AllocError>
    ensures { IfOk result (λ found. found ≡ element_of (array_of name arrays.now) indices.now) }
{
    match array_of(name, arrays) {
        Some(array) => {
            let given = element(alloc, array, indices)?;
            Ok(Some(given))
        }
        None => Ok(None),
    }
}
