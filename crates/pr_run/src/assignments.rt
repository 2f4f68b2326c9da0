//! What is assigned to: variables, and elements of arrays. DIM and CLR.

ghost use Rattle.std.specs.Prelude.{◌≡◌, ◌+◌, ◌-◌, ◌<◌, ◌≤◌, ◌++◌, length, replicate, IfErr, IfOk, IfSome};
ghost use Rattle.std.specs.Prelude.{MatchOption, OnOk, Ok};
ghost use Rattle.std.specs.List.{position_or_len};
ghost use Rattle.std.specs.Option.{option_copied};
ghost use Rattle.pr_interpreter.specs.Memory.{array_bytes, array_of, first_value, same_name, with_array};
ghost use Rattle.pr_run.specs.Seen.{EndsAs, gives, state_of};
ghost use Rattle.pr_run.specs.Assignments.{array_with, clear_statement, declared, dim_statement, dimension, dimensioned};
ghost use Rattle.pr_run.specs.Assignments.{element_count, element_in, index, indices, is_system, let_statement};
ghost use Rattle.pr_run.specs.Assignments.{made_array, made_undimensioned, place_in, stored, system_ending};
ghost use Rattle.pr_run.specs.Assignments.{target_place, with_element, with_element_of, with_its_array, with_value_at};
ghost use Rattle.pr_run.specs.Assignments.{with_variable};
ghost use Rattle.pr_run.specs.Memory.{bytes_for_arrays};
ghost use Rattle.pr_run.specs.Worked.{valued};

use crate::ending::{Ending, Refusal};
use crate::growth::put;
use crate::memory::{bytes_for_arrays, need_memory, strings_with};
use crate::programs::Program;
use crate::state::Run;
use crate::uses::{Use, ending_of, kept, whole_of};
use crate::worked::{ended, line_at, statement_place, use_of, worked};
use pr_interpreter::{
    Array, Arrays, BasicError, Kind, Name, Nodes, Number, Placed, Target, Value, Variable,
    array_bytes, array_of, is_clock, is_status, place_of, same_name, undimensioned,
    undimensioned_bytes,
};
use pr_page::Sequence;
use std::alloc::{AllocError, Global};
use std::mem;

/// Returns how many variables come before the one of a name; all, if there is none.
fn variable_place(name: Name, variables: &[Variable]) -> usize
    ensures { result ≡ position_or_len (λ x. same_name name x.name) variables.now }
{
    for (i, variable) in variables.iter().enumerate() {
        if same_name(name, variable.name) {
            return i;
        }
    }
    variables.len()
}

/// Gives a variable a value.
#[tactic(auto, using(crate::proofs::ReplacedLemmas::replaced_at, crate::proofs::ReplacedLemmas::replaced_end), unfolding(crate::specs::Assignments::with_variable))]
fn set_variable(variables: &mut Vec<Variable>, name: Name, value: Value) -> Result<(), Ending>
    ensures ok { OnOk result (variables.new.items ≡ with_variable name value variables.old.items) }
    ensures err { IfErr result (λ e. e ≡ Ending.OutOfMemory) }
{
    let place = variable_place(name, variables.as_slice());
    if place < variables.len() {
        variables[place] = Variable { name, value };
        return Ok(());
    }
    put(variables, Variable { name, value })?;
    Ok(())
}

/// Adds a variable, 0 or empty, unless there is one of its name.
pub fn declare(alloc: Global, variables: &mut Vec<Variable>, name: Name) -> Result<(), Ending>
    ensures ok { OnOk result (variables.new.items ≡ declared name variables.old.items) }
    ensures err { IfErr result (λ e. e ≡ Ending.OutOfMemory) }
{
    let place = variable_place(name, variables.as_slice());
    if place < variables.len() {
        return Ok(());
    }
    let value = first_value(alloc, name.kind);
    put(variables, Variable { name, value })?;
    Ok(())
}

/// Returns how many arrays come before the one of a name; all, if there is none.
fn array_place(name: Name, arrays: &[Array]) -> usize
    ensures { result ≡ position_or_len (λ x. same_name name x.name) arrays.now }
{
    for (i, array) in arrays.iter().enumerate() {
        if same_name(name, array.name) {
            return i;
        }
    }
    arrays.len()
}

/// Returns what an element of an array has before it is given a value.
fn first_value(alloc: Global, kind: Kind) -> Value
    ensures { result ≡ first_value kind }
{
    match kind {
        Kind::Number | Kind::Whole => Value::Number(Number::zero()),
        Kind::Text => Value::Text(Sequence::new(alloc)),
    }
}

/// Adds first values until there is an element at a place.
fn grow(
    alloc: Global,
    elements: &mut Vec<Value>,
    kind: Kind,
    place: usize,
) -> Result<(), AllocError>
    ensures items { OnOk result (elements.new.items ≡ elements.old.items ++ replicate (place + 1 - length elements.old.items) (first_value kind)) }
    ensures there { OnOk result (place < length elements.new.items) }
{
    'grow: while elements.len() <= place {
        elements.push(first_value(alloc, kind))?;
    }
    Ok(())
}

/// Gives an element at a place a value.
fn set_element(
    alloc: Global,
    elements: &mut Vec<Value>,
    kind: Kind,
    place: usize,
    value: Value,
) -> Result<(), AllocError>
    ensures { OnOk result (elements.new.items ≡ with_element (first_value kind) place value elements.old.items) }
{
    grow(alloc, elements, kind, place)?;
    elements[place] = value;
    Ok(())
}

/// Gives an element of an array, at a place among its elements, a value.
fn set_in_array(
    alloc: Global,
    array: &mut Array,
    place: usize,
    value: Value,
) -> Result<(), AllocError>
    ensures { OnOk result (array.new ≡ array_with place value array.old) }
{
    let mut elements = mem::replace(&mut array.elements, Sequence::new(alloc)).into_vec();
    set_element(alloc, &mut elements, array.name.kind, place, value)?;
    array.elements = Sequence::from_vec(elements);
    Ok(())
}

/// Gives an element of the array of a name, if there is one, a value.
fn set_in_list(
    alloc: Global,
    list: &mut Vec<Array>,
    name: Name,
    place: usize,
    value: Value,
) -> Result<(), AllocError>
    ensures { OnOk result (list.new.items ≡ with_element_of name place value (array_of name list.old.items) list.old.items) }
{
    let index = array_place(name, list.as_slice());
    if list.len() <= index {
        return Ok(());
    }
    set_in_array(alloc, &mut list[index], place, value)
}

/// Gives an element of an array, at a place among its elements, a value.
#[tactic(auto, unfolding(crate::specs::Assignments::with_value_at))]
fn set_value_at(
    alloc: Global,
    arrays: &mut Arrays,
    name: Name,
    place: usize,
    value: Value,
) -> Result<(), AllocError>
    ensures { OnOk result (arrays.new ≡ with_value_at name place value arrays.old) }
{
    let mut list = mem::replace(&mut arrays.list, Sequence::new(alloc)).into_vec();
    set_in_list(alloc, &mut list, name, place, value)?;
    arrays.list = Sequence::from_vec(list);
    Ok(())
}

/// Keeps a value: in a variable, or in an array at a place among its elements.
pub fn store(
    alloc: Global,
    run: &mut Run,
    name: Name,
    place: Option<u32>,
    value: Value,
) -> Result<(), Ending>
    ensures ok { OnOk result (state_of run.new ≡ stored name place value (state_of run.old)) }
    ensures opened { OnOk result (run.new.opened.items ≡ run.old.opened.items) }
    ensures err { IfErr result (λ e. e ≡ Ending.OutOfMemory) }
{
    run.strings = strings_with(run, name, place, &value);
    match place {
        None => set_variable(&mut run.variables, name, value),
        Some(place) => match set_value_at(alloc, &mut run.arrays, name, place as usize, value) {
            Ok(()) => Ok(()),
            Err(_) => Err(Ending::OutOfMemory),
        },
    }
}

/// Works out an index.
#[tactic(auto, unfolding(crate::specs::Assignments::index))]
fn index(
    alloc: Global,
    program: &Program,
    at: Use,
    run: &mut Run,
    nodes: &[Placed],
) -> Result<u16, Ending>
    ensures ok { IfOk result (λ n. index program.now at (state_of run.old) nodes.now ≡ gives n run.new) }
    ensures err { IfErr result (λ e. EndsAs e (index program.now at (state_of run.old) nodes.now)) }
{
    let value = worked(alloc, program, run, nodes)?;
    match whole_of(32767, value) {
        Ok(index) => Ok(index),
        Err(stop) => Err(ending_of(at, stop)),
    }
}

/// Works out indices of an element that a statement names: with more than five the machine's stack may be full.
#[tactic(auto, unfolding(crate::specs::Assignments::indices))]
fn indices(
    alloc: Global,
    program: &Program,
    at: Use,
    run: &mut Run,
    expressions: &[Nodes],
) -> Result<Vec<u16>, Ending>
    ensures ok { IfOk result (λ found. indices program.now at (state_of run.old) expressions.now ≡ gives found.items run.new) }
    ensures err { IfErr result (λ e. EndsAs e (indices program.now at (state_of run.old) expressions.now)) }
{
    if 5 < expressions.len() {
        return Err(Ending::Refused {
            refusal: Refusal::FullStack,
            place: at.place,
        });
    }
    let mut found = Vec::new(alloc);
    'each: for nodes in expressions {
        let index = index(alloc, program, at, run, nodes.as_slice())?;
        match found.push(index) {
            Ok(()) => {}
            Err(_) => return Err(Ending::OutOfMemory),
        }
    }
    Ok(found)
}

/// Adds an array that takes so many bytes.
fn make_array(
    alloc: Global,
    program: &Program,
    at: Use,
    run: &mut Run,
    array: Array,
    bytes: usize,
) -> Result<(), Ending>
    ensures ok { OnOk result (made_array at (state_of run.old) (with_array (bytes_for_arrays program.now (state_of run.old)) array bytes (state_of run.old).arrays) ≡ Ok (state_of run.new)) }
    ensures err { IfErr result (λ e. EndsAs e (made_array at (state_of run.old) (with_array (bytes_for_arrays program.now (state_of run.old)) array bytes (state_of run.old).arrays))) }
{
    let room = bytes_for_arrays(program, run);
    match run.arrays.add(alloc, room, array, bytes) {
        Ok(true) => Ok(()),
        Ok(false) => Err(Ending::Refused {
            refusal: Refusal::FullMemory,
            place: at.place,
        }),
        Err(_) => Err(Ending::OutOfMemory),
    }
}

/// Makes an array that is used before DIM.
fn make_undimensioned(
    alloc: Global,
    program: &Program,
    at: Use,
    run: &mut Run,
    name: Name,
    count: usize,
) -> Result<(), Ending>
    ensures ok { OnOk result (made_undimensioned program.now at (state_of run.old) name count ≡ Ok (state_of run.new)) }
    ensures err { IfErr result (λ e. EndsAs e (made_undimensioned program.now at (state_of run.old) name count)) }
{
    let Some(bytes) = undimensioned_bytes(name.kind, count) else {
        return Err(Ending::Refused {
            refusal: Refusal::FullMemory,
            place: at.place,
        });
    };
    match undimensioned(alloc, name, count) {
        Ok(array) => make_array(alloc, program, at, run, array, bytes),
        Err(_) => Err(Ending::OutOfMemory),
    }
}

/// Returns the place of an element among those of an array.
fn place_in(
    at: Use,
    run: &Run,
    indices: &[u16],
    array: Option<&Array>,
) -> Result<Option<u32>, Ending>
    ensures { place_in at (state_of run.now) indices.now (option_copied array.entry) ≡ valued (state_of run.now) result }
{
    let place = match array {
        Some(array) => place_of(array.bounds.as_slice(), indices),
        None => None,
    };
    match place {
        Some(place) => Ok(Some(place)),
        None => Err(Ending::Error {
            error: BasicError::BadSubscript,
            line: at.line,
        }),
    }
}

/// Makes the array of a name, if it is used before DIM.
fn make_its_array(
    alloc: Global,
    program: &Program,
    at: Use,
    run: &mut Run,
    name: Name,
    count: usize,
) -> Result<(), Ending>
    ensures ok { OnOk result (with_its_array program.now at (state_of run.old) name count (array_of name (state_of run.old).arrays.list) ≡ Ok (state_of run.new)) }
    ensures err { IfErr result (λ e. EndsAs e (with_its_array program.now at (state_of run.old) name count (array_of name (state_of run.old).arrays.list))) }
{
    match array_of(name, run.arrays.list.as_slice()) {
        Some(_) => Ok(()),
        None => make_undimensioned(alloc, program, at, run, name, count),
    }
}

/// Returns the place of an element among those of its array, which is made if it is used before DIM.
#[tactic(auto, unfolding(crate::specs::Assignments::element_in))]
fn element_in(
    alloc: Global,
    program: &Program,
    at: Use,
    run: &mut Run,
    name: Name,
    indices: &[u16],
) -> Result<Option<u32>, Ending>
    ensures ok { IfOk result (λ n. element_in program.now at (state_of run.old) name indices.now ≡ gives n run.new) }
    ensures err { IfErr result (λ e. EndsAs e (element_in program.now at (state_of run.old) name indices.now)) }
{
    make_its_array(alloc, program, at, run, name, indices.len())?;
    let array = array_of(name, run.arrays.list.as_slice());
    place_in(at, run, indices, array)
}

/// Returns whether a target is TI, TI$ or ST.
pub fn is_system(name: Name, indices: &[Nodes]) -> bool
    ensures { result ≡ is_system name indices.now }
{
    indices.is_empty() && (is_clock(name) || is_status(name))
}

/// Returns how the run ends where TI, TI$ or ST is assigned to.
pub fn system_ending(at: Use, kind: Kind) -> Ending
    ensures { result ≡ system_ending at kind }
{
    match kind {
        Kind::Text => Ending::Refused {
            refusal: Refusal::NotTaken,
            place: at.place,
        },
        Kind::Number | Kind::Whole => Ending::Error {
            error: BasicError::Syntax,
            line: at.line,
        },
    }
}

/// Returns where a target's value is kept: none for a variable, and the place of an element among those of its array.
#[tactic(auto, unfolding(crate::specs::Assignments::target_place))]
pub fn target_place(
    alloc: Global,
    program: &Program,
    run: &mut Run,
    target: &Target,
) -> Result<Option<u32>, Ending>
    ensures ok { IfOk result (λ n. target_place program.now (state_of run.old) target.now ≡ gives n run.new) }
    ensures err { IfErr result (λ e. EndsAs e (target_place program.now (state_of run.old) target.now)) }
{
    let at = Use {
        line: line_at(program, run),
        place: target.place,
    };
    if is_system(target.name, target.indices.as_slice()) {
        return Err(system_ending(at, target.name.kind));
    }
    if target.indices.is_empty() {
        return Ok(None);
    }
    let found = indices(alloc, program, at, run, target.indices.as_slice())?;
    element_in(alloc, program, at, run, target.name, found.as_slice())
}

/// Performs LET: where the value is kept is worked out first.
#[tactic(auto, unfolding(crate::specs::Assignments::let_statement))]
pub fn let_statement(
    alloc: Global,
    program: &Program,
    run: &mut Run,
    target: &Target,
    nodes: &[Placed],
) -> Result<(), Ending>
    ensures ok { OnOk result (let_statement program.now (state_of run.old) target.now nodes.now ≡ Ok (state_of run.new)) }
    ensures err { IfErr result (λ e. EndsAs e (let_statement program.now (state_of run.old) target.now nodes.now)) }
{
    let place = target_place(alloc, program, run, target)?;
    let value = worked(alloc, program, run, nodes)?;
    match kept(target.name.kind, value) {
        Ok(value) => {
            let at = use_of(program, run, nodes);
            store(alloc, run, target.name, place, value)?;
            need_memory(program, at, run)
        }
        Err(stop) => Err(ended(program, run, nodes, stop)),
    }
}

/// Returns how many elements an array has; None of more than 30000.
fn element_count(bounds: &[u16]) -> Option<usize>
    ensures value { MatchOption result (30000 < element_count bounds.now) (λ n. n ≡ element_count bounds.now) }
    ensures within { IfSome result (λ n. n ≤ 30000) }
{
    let mut count: usize = 1;
    for bound in bounds {
        count *= usize::from(*bound) + 1;
        if 30_000 < count {
            return None;
        }
    }
    Some(count)
}

/// Returns how many bytes an array takes; None of one for which no machine has the memory.
#[tactic(auto, using(crate::proofs::CountLemmas::many_elements, crate::proofs::CountLemmas::many_dimensions))]
fn bytes_of(kind: Kind, bounds: &[u16]) -> Option<usize>
    ensures { MatchOption result (38911 < array_bytes kind (length bounds.now) (element_count bounds.now)) (λ n. n ≡ array_bytes kind (length bounds.now) (element_count bounds.now)) }
{
    if 30_000 < bounds.len() {
        return None;
    }
    let count = element_count(bounds)?;
    Some(array_bytes(kind, bounds.len(), count))
}

/// Makes an array with these greatest indices, if there is none of its name.
fn dimensioned(
    alloc: Global,
    program: &Program,
    at: Use,
    run: &mut Run,
    name: Name,
    bounds: Vec<u16>,
) -> Result<(), Ending>
    ensures ok { OnOk result (dimensioned program.now at (state_of run.old) name bounds.items (array_of name (state_of run.old).arrays.list) ≡ Ok (state_of run.new)) }
    ensures err { IfErr result (λ e. EndsAs e (dimensioned program.now at (state_of run.old) name bounds.items (array_of name (state_of run.old).arrays.list))) }
{
    if array_of(name, run.arrays.list.as_slice()).is_some() {
        return Err(Ending::Error {
            error: BasicError::RedimensionedArray,
            line: at.line,
        });
    }
    let Some(bytes) = bytes_of(name.kind, bounds.as_slice()) else {
        return Err(Ending::Refused {
            refusal: Refusal::FullMemory,
            place: at.place,
        });
    };
    let array = Array {
        name,
        bounds: Sequence::from_vec(bounds),
        elements: Sequence::new(alloc),
    };
    make_array(alloc, program, at, run, array, bytes)
}

/// Makes an array that DIM has. A variable is not changed, but there is one.
#[tactic(auto, unfolding(crate::specs::Assignments::dimension))]
fn dimension(alloc: Global, program: &Program, run: &mut Run, target: &Target) -> Result<(), Ending>
    ensures ok { OnOk result (dimension program.now (state_of run.old) target.now ≡ Ok (state_of run.new)) }
    ensures err { IfErr result (λ e. EndsAs e (dimension program.now (state_of run.old) target.now)) }
{
    let at = Use {
        line: line_at(program, run),
        place: target.place,
    };
    if is_system(target.name, target.indices.as_slice()) {
        return Err(system_ending(at, target.name.kind));
    }
    if target.indices.is_empty() {
        declare(alloc, &mut run.variables, target.name)?;
        return need_memory(program, at, run);
    }
    let bounds = indices(alloc, program, at, run, target.indices.as_slice())?;
    dimensioned(alloc, program, at, run, target.name, bounds)
}

/// Performs DIM.
#[tactic(auto, unfolding(crate::specs::Assignments::dim_statement))]
pub fn dim_statement(
    alloc: Global,
    program: &Program,
    run: &mut Run,
    targets: &[Target],
) -> Result<(), Ending>
    ensures ok { OnOk result (dim_statement program.now (state_of run.old) targets.now ≡ Ok (state_of run.new)) }
    ensures err { IfErr result (λ e. EndsAs e (dim_statement program.now (state_of run.old) targets.now)) }
{
    'each: for target in targets {
        dimension(alloc, program, run, target)?;
    }
    Ok(())
}

/// Performs CLR.
#[tactic(auto, unfolding(crate::specs::Assignments::clear_statement))]
pub fn clear_statement(alloc: Global, program: &Program, run: &mut Run) -> Result<(), Ending>
    ensures ok { OnOk result (clear_statement program.now (state_of run.old) ≡ Ok (state_of run.new)) }
    ensures err { IfErr result (λ e. EndsAs e (clear_statement program.now (state_of run.old))) }
{
    if !run.files.is_empty() || run.channel != 0 {
        return Err(Ending::Refused {
            refusal: Refusal::OpenFiles,
            place: statement_place(program, run),
        });
    }
    run.clear(alloc);
    Ok(())
}
