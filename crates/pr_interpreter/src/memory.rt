//! What the machine keeps while a program runs: variables, arrays and functions.

ghost use Rattle.std.specs.Prelude.{◌≡◌, ◌+◌, ◌*◌, ◌^◌, ◌<◌, ◌≤◌, None, Some, if◌then◌else◌, nat_le, replicate, MatchOption, IfOk};
ghost use Rattle.pr_interpreter.specs.Memory.{added, array_bytes, array_of, element_bytes, function_of, is_clock, is_status, no_arrays, parameter_of, place_of, same_kind, same_name, same_second, undimensioned, undimensioned_bytes};

use crate::names::{Kind, Name};
use crate::number::Number;
use crate::statements::Nodes;
use crate::values::Value;
use pr_page::Sequence;
use std::alloc::{AllocError, Global};
use std::mem;

/// A variable, and its value.
#[derive(Debug, Drop)]
pub struct Variable {
    pub name: Name,
    pub value: Value,
}

/// An array.
#[derive(Debug, Drop)]
pub struct Array {
    pub name: Name,
    /// The greatest index of each dimension.
    pub bounds: Sequence<u16>,
    /// The elements, the last index fastest. Those after the last one here are 0 or empty.
    pub elements: Sequence<Value>,
}

/// The arrays.
#[derive(Debug, Drop)]
pub struct Arrays {
    pub list: Sequence<Array>,
    /// How many bytes of the machine's memory they take.
    pub bytes: usize,
}

/// A function of one variable that DEF FN defines.
#[derive(Debug, Drop)]
pub struct Function {
    pub name: Name,
    pub variable: Name,
    pub value: Nodes,
}

/// What the variable of a function stands for while the function is worked out.
#[derive(Clone, Copy, Debug)]
pub struct Parameter {
    pub name: Name,
    pub value: Number,
}

/// What the values of an expression come from.
#[derive(Clone, Copy)]
pub struct Scope<'a> {
    /// The program's text, which has its strings.
    pub text: &'a [u8],
    pub variables: &'a [Variable],
    pub functions: &'a [Function],
    /// The screen's column, where it is known.
    pub column: Option<u8>,
    /// Whether something was sent to a device: ST is 0 before.
    pub has_sent: bool,
    /// How many bytes of the machine's memory there surely are for arrays.
    pub memory: u16,
    /// How many bytes of the machine's stack there surely are for what waits in an expression.
    pub stack: u8,
}

/// From so many elements on, there is no array.
const ELEMENTS: u32 = 65_536;

/// Returns whether two second characters are the same.
fn same_second(a: Option<u8>, b: Option<u8>) -> bool
    ensures { result ≡ same_second a b }
{
    match a {
        None => match b {
            None => true,
            Some(_) => false,
        },
        Some(c) => match b {
            None => false,
            Some(d) => c == d,
        },
    }
}

/// Returns whether two kinds are the same.
fn same_kind(a: Kind, b: Kind) -> bool
    ensures { result ≡ same_kind a b }
{
    match a {
        Kind::Number => match b {
            Kind::Number => true,
            Kind::Whole | Kind::Text => false,
        },
        Kind::Whole => match b {
            Kind::Whole => true,
            Kind::Number | Kind::Text => false,
        },
        Kind::Text => match b {
            Kind::Text => true,
            Kind::Number | Kind::Whole => false,
        },
    }
}

/// Returns whether two names are the same.
#[tactic(auto, unfolding(crate::specs::Memory::same_name))]
pub fn same_name(a: Name, b: Name) -> bool
    ensures { result ≡ same_name a b }
{
    a.first == b.first && same_second(a.second, b.second) && same_kind(a.kind, b.kind)
}

/// Returns whether a name is that of the clock, TI or TI$.
#[tactic(auto, unfolding(crate::specs::Memory::is_clock))]
pub fn is_clock(name: Name) -> bool
    ensures { result ≡ is_clock name }
{
    name.first == b'T' && same_second(name.second, Some(b'I')) && !same_kind(name.kind, Kind::Whole)
}

/// Returns whether a name is that of the status, ST.
#[tactic(auto, unfolding(crate::specs::Memory::is_status))]
pub fn is_status(name: Name) -> bool
    ensures { result ≡ is_status name }
{
    name.first == b'S' && same_second(name.second, Some(b'T')) && same_kind(name.kind, Kind::Number)
}

/// Returns what the variable of a function that is worked out stands for.
pub fn parameter_of(name: Name, parameters: &[Parameter]) -> Option<Number>
    ensures { result ≡ parameter_of name parameters.now }
{
    for parameter in parameters {
        if same_name(name, parameter.name) {
            return Some(parameter.value);
        }
    }
    None
}

/// Returns the function of a name.
pub fn function_of(name: Name, functions: &[Function]) -> Option<&Function>
    ensures { MatchOption result (function_of name functions.now ≡ None)
        (λ f. function_of name functions.now ≡ Some f.now) }
{
    for function in functions {
        if same_name(name, function.name) {
            return Some(function);
        }
    }
    None
}

/// Returns the array of a name.
pub fn array_of(name: Name, arrays: &[Array]) -> Option<&Array>
    ensures { MatchOption result (array_of name arrays.now ≡ None) (λ a. array_of name arrays.now ≡ Some a.now) }
{
    for array in arrays {
        if same_name(name, array.name) {
            return Some(array);
        }
    }
    None
}

/// Returns how many bytes an element has.
pub fn element_bytes(kind: Kind) -> usize
    ensures { result ≡ element_bytes kind }
{
    match kind {
        Kind::Number => 5,
        Kind::Whole => 2,
        Kind::Text => 3,
    }
}

/// Returns how many bytes of the machine's memory an array takes with so many dimensions and elements.
#[tactic(auto, using(crate::proofs::MemoryLemmas::bytes_fit))]
pub fn array_bytes(kind: Kind, dimensions: usize, elements: usize) -> usize
    requires few_dimensions { dimensions ≤ 65535 }
    requires few_elements { elements ≤ 65535 }
    ensures { result ≡ array_bytes kind dimensions elements }
{
    5 + 2 * dimensions + element_bytes(kind) * elements
}

/// Returns how many elements an array with so many dimensions has that is used before DIM.
#[tactic(auto, using(crate::proofs::MemoryLemmas::few_elements))]
fn elevens(count: usize) -> usize
    requires { count ≤ 4 }
    ensures value { result ≡ 11 ^ count }
    ensures within { result ≤ 11 ^ 4 }
{
    11usize.pow(count as u32)
}

/// Returns how many bytes an array with so many dimensions takes that is used before DIM; None of five and more, for
/// which no machine has the memory.
#[tactic(auto, using(crate::proofs::MemoryLemmas::too_many))]
pub fn undimensioned_bytes(kind: Kind, count: usize) -> Option<usize>
    ensures value { MatchOption result (65535 < undimensioned_bytes kind count) (λ n. n ≡ undimensioned_bytes kind count) }
{
    if count <= 4 {
        Some(array_bytes(kind, count, elevens(count)))
    } else {
        None
    }
}

/// Returns the bounds of an array that is used before DIM.
fn tens(alloc: Global, count: usize) -> Result<Vec<u16>, AllocError>
    ensures { IfOk result (λ bounds. bounds.items ≡ replicate count 10) }
{
    Ok(vec![in alloc; 10; count]?)
}

/// Returns an array that is used before DIM.
pub fn undimensioned(alloc: Global, name: Name, count: usize) -> Result<Array, AllocError>
    ensures { IfOk result (λ a. a ≡ undimensioned name count) }
{
    let bounds = tens(alloc, count)?;
    Ok(Array {
        name,
        bounds: Sequence::from_vec(bounds),
        elements: Sequence::new(alloc),
    })
}

impl Arrays {
    /// Returns no arrays.
    pub fn new(alloc: Global) -> Arrays
        ensures { result ≡ no_arrays }
    {
        Arrays {
            list: Sequence::new(alloc),
            bytes: 0,
        }
    }

    /// Adds an array that takes so many bytes, if all then take no more than there are. Returns whether they do.
    pub fn add(
        &mut self,
        alloc: Global,
        room: u16,
        array: Array,
        bytes: usize,
    ) -> Result<bool, AllocError>
        ensures room { IfOk result (λ b. b ≡ nat_le (self.old.bytes + bytes) room) }
        ensures added { IfOk result (λ b. self.new
            ≡ (if b then added array (self.old.bytes + bytes) self.old else self.old)) }
    {
        let room = usize::from(room);
        if room < self.bytes || room - self.bytes < bytes {
            return Ok(false);
        }
        let mut list = mem::replace(&mut self.list, Sequence::new(alloc)).into_vec();
        let pushed = list.push(array);
        self.list = Sequence::from_vec(list);
        pushed?;
        self.bytes += bytes;
        Ok(true)
    }
}

/// Returns the place of an element among those of its array.
#[tactic(auto, using(crate::proofs::MemoryLemmas::place_fits, crate::proofs::MemoryLemmas::place_differs, crate::proofs::MemoryLemmas::place_outside, crate::proofs::MemoryLemmas::place_beyond, crate::proofs::MemoryLemmas::place_goes, crate::proofs::MemoryLemmas::place_ends))]
pub fn place_of(bounds: &[u16], indices: &[u16]) -> Option<u32>
    ensures { result ≡ place_of 0 bounds.now indices.now }
{
    if bounds.len() != indices.len() {
        return None;
    }
    let mut place = 0;
    for (i, bound) in bounds.iter().enumerate() {
        let next = place * (u32::from(*bound) + 1) + u32::from(indices[i]);
        if *bound < indices[i] {
            return None;
        }
        if ELEMENTS <= next {
            return None;
        }
        place = next;
    }
    Some(place)
}
