//! READ and RESTORE: what an item of DATA gives to a variable.

ghost use Rattle.std.specs.Prelude.{◌≡◌, ◌+◌, ◌≤◌, IfErr, IfOk, OnOk, Ok, drop, filter, length, slice_range};
ghost use Rattle.std.specs.List.{list_all, position_or_len, slice_get};
ghost use Rattle.std.specs.Option.{option_copied};
ghost use Rattle.pr_interpreter.specs.Functions.{is_solid};
ghost use Rattle.pr_interpreter.specs.Symbols.{is_quote};
ghost use Rattle.pr_run.specs.Assignments.{assigned};
ghost use Rattle.pr_run.specs.Items.{is_blank, item_kept, item_value, number_by, number_in, number_item, quoted_item};
ghost use Rattle.pr_run.specs.Items.{read_item, read_statement, read_target, restore_statement, text_item};
ghost use Rattle.pr_run.specs.Items.{text_within, with_sign};
ghost use Rattle.pr_run.specs.Seen.{EndsAs, state_of};

use crate::assignments::{store, target_place};
use crate::data::{DataItem, slice_of};
use crate::ending::{Ending, Refusal};
use crate::memory::need_memory;
use crate::programs::Program;
use crate::state::Run;
use crate::uses::{Use, ending_of, kept};
use crate::worked::line_at;
use pr_interpreter::{
    BasicError, Kind, Name, Number, Target, Value, Word, constant_in, constant_number, front_byte,
    solid, without_sign,
};
use pr_page::Sequence;
use std::alloc::Global;

/// A string has at most so many bytes.
const TEXT_LIMIT: usize = 255;

/// The value that an item of DATA begins with.
#[derive(Drop)]
pub struct ItemValue {
    pub value: Value,
    /// Whether nothing follows it in the item.
    pub is_all: bool,
}

/// Returns a number with the sign at the front of bytes.
fn with_sign(bytes: &[u8], number: Number) -> Number
    ensures { result ≡ with_sign bytes.now number }
{
    if front_byte(bytes) == b'-' {
        number.negated()
    } else {
        number
    }
}

/// Returns the number that bytes without blanks begin with, by the constant after their sign.
fn number_by(at: Use, bytes: &[u8], constant: (Word, usize)) -> Result<ItemValue, Ending>
    ensures { result ≡ number_by at bytes.now constant }
{
    let size = without_sign(bytes).len();
    match constant_number(constant.0) {
        Ok(number) => Ok(ItemValue {
            value: Value::Number(with_sign(bytes, number)),
            is_all: constant.1 == size,
        }),
        Err(stop) => Err(ending_of(at, stop)),
    }
}

/// Returns the number that bytes without blanks begin with.
fn number_in(alloc: Global, at: Use, bytes: &[u8]) -> Result<ItemValue, Ending>
    ensures ok { IfOk result (λ v. number_in at bytes.now ≡ Ok v) }
    ensures err { IfErr result (λ e. EndsAs e (number_in at bytes.now)) }
{
    match constant_in(alloc, without_sign(bytes)) {
        Ok(constant) => number_by(at, bytes, constant),
        Err(_) => Err(Ending::OutOfMemory),
    }
}

/// Returns the number that an item begins with.
#[tactic(auto, unfolding(crate::specs::Items::number_item))]
fn number_item(alloc: Global, at: Use, bytes: &[u8]) -> Result<ItemValue, Ending>
    ensures ok { IfOk result (λ v. number_item at bytes.now ≡ Ok v) }
    ensures err { IfErr result (λ e. EndsAs e (number_item at bytes.now)) }
{
    match solid(alloc, bytes) {
        Ok(solid) => number_in(alloc, at, solid.as_slice()),
        Err(_) => Err(Ending::OutOfMemory),
    }
}

/// Returns a string of bytes, if they are not too many, and whether it is all of an item.
fn text_within(alloc: Global, at: Use, bytes: &[u8], is_all: bool) -> Result<ItemValue, Ending>
    ensures ok { IfOk result (λ v. text_within at bytes.now is_all ≡ Ok v) }
    ensures err { IfErr result (λ e. EndsAs e (text_within at bytes.now is_all)) }
{
    if TEXT_LIMIT < bytes.len() {
        return Err(Ending::Refused {
            refusal: Refusal::NotTaken,
            place: at.place,
        });
    }
    match Vec::from_slice(alloc, bytes) {
        Ok(text) => Ok(ItemValue {
            value: Value::Text(Sequence::from_vec(text)),
            is_all,
        }),
        Err(_) => Err(Ending::OutOfMemory),
    }
}

/// Returns how many bytes come before the first quote; all, if there is none.
fn quote_place(bytes: &[u8]) -> usize
    ensures value { result ≡ position_or_len is_quote bytes.now }
    ensures within { result ≤ length bytes.now }
{
    for (i, b) in bytes.iter().enumerate() {
        if *b == b'"' {
            return i;
        }
    }
    bytes.len()
}

/// Returns whether all bytes are blanks.
fn is_blank(bytes: &[u8]) -> bool
    ensures { result ≡ list_all is_blank bytes.now }
{
    for b in bytes {
        if *b != b' ' {
            return false;
        }
    }
    true
}

/// Returns bytes without those up to a place and the one there.
fn after(bytes: &[u8], place: usize) -> &[u8]
    requires { place ≤ length bytes.now }
    ensures { result.now ≡ drop (place + 1) bytes.now }
{
    if place < bytes.len() {
        &bytes[place + 1..]
    } else {
        &[]
    }
}

/// Returns the string that follows the first quote of an item.
#[tactic(auto, unfolding(crate::specs::Items::quoted_item))]
fn quoted_item(alloc: Global, at: Use, bytes: &[u8]) -> Result<ItemValue, Ending>
    ensures ok { IfOk result (λ v. quoted_item at bytes.now ≡ Ok v) }
    ensures err { IfErr result (λ e. EndsAs e (quoted_item at bytes.now)) }
{
    let end = quote_place(bytes);
    let is_all = is_blank(after(bytes, end));
    text_within(alloc, at, &bytes[..end], is_all)
}

/// Returns the string that an item begins with.
fn text_item(alloc: Global, at: Use, bytes: &[u8]) -> Result<ItemValue, Ending>
    ensures ok { IfOk result (λ v. text_item at bytes.now ≡ Ok v) }
    ensures err { IfErr result (λ e. EndsAs e (text_item at bytes.now)) }
{
    match bytes {
        [first, rest @ ..] if *first == b'"' => quoted_item(alloc, at, rest),
        _ => text_within(alloc, at, bytes, true),
    }
}

/// Returns what an item gives to a variable of a kind.
#[tactic(auto, unfolding(crate::specs::Items::item_value))]
fn item_value(alloc: Global, kind: Kind, at: Use, bytes: &[u8]) -> Result<ItemValue, Ending>
    ensures ok { IfOk result (λ v. item_value kind at bytes.now ≡ Ok v) }
    ensures err { IfErr result (λ e. EndsAs e (item_value kind at bytes.now)) }
{
    match kind {
        Kind::Text => text_item(alloc, at, bytes),
        Kind::Number | Kind::Whole => number_item(alloc, at, bytes),
    }
}

/// Keeps a value as the kind of a name wants it.
fn assign(
    alloc: Global,
    program: &Program,
    at: Use,
    run: &mut Run,
    name: Name,
    place: Option<u32>,
    value: Value,
) -> Result<(), Ending>
    ensures ok { OnOk result (assigned program.now at name place value (state_of run.old) ≡ Ok (state_of run.new)) }
    ensures err { IfErr result (λ e. EndsAs e (assigned program.now at name place value (state_of run.old))) }
{
    match kept(name.kind, value) {
        Ok(value) => {
            store(alloc, run, name, place, value)?;
            need_memory(program, at, run)
        }
        Err(stop) => Err(ending_of(at, stop)),
    }
}

/// Keeps the value of an item, before anything is said of what follows in the item.
fn keep_item(
    alloc: Global,
    program: &Program,
    at: Use,
    run: &mut Run,
    name: Name,
    place: Option<u32>,
    item: DataItem,
    found: ItemValue,
) -> Result<(), Ending>
    ensures ok { OnOk result (item_kept program.now at name place item found (state_of run.old) ≡ Ok (state_of run.new)) }
    ensures err { IfErr result (λ e. EndsAs e (item_kept program.now at name place item found (state_of run.old))) }
{
    let is_all = found.is_all;
    assign(alloc, program, at, run, name, place, found.value)?;
    if !is_all {
        return Err(Ending::Error {
            error: BasicError::Syntax,
            line: item.line,
        });
    }
    Ok(())
}

/// Reads the next item into a variable or an element.
fn read_item(
    alloc: Global,
    program: &Program,
    run: &mut Run,
    target: &Target,
    place: Option<u32>,
) -> Result<(), Ending>
    ensures ok { OnOk result (read_item program.now (state_of run.old) target.now place (slice_get program.now.items run.old.items_read) ≡ Ok (state_of run.new)) }
    ensures err { IfErr result (λ e. EndsAs e (read_item program.now (state_of run.old) target.now place (slice_get program.now.items run.old.items_read))) }
{
    let line = line_at(program, run);
    let Some(item) = program.items.as_slice().get(run.items_read).copied() else {
        return Err(Ending::Error {
            error: BasicError::OutOfData,
            line,
        });
    };
    let at = Use {
        line,
        place: item.start,
    };
    let bytes = slice_of(program.text.as_slice(), item.start, item.end);
    let found = item_value(alloc, target.name.kind, at, bytes)?;
    run.items_read += 1;
    keep_item(alloc, program, at, run, target.name, place, item, found)
}

/// Reads the next item into a target.
#[tactic(auto, unfolding(crate::specs::Items::read_target))]
fn read_target(
    alloc: Global,
    program: &Program,
    run: &mut Run,
    target: &Target,
) -> Result<(), Ending>
    ensures ok { OnOk result (read_target program.now (state_of run.old) target.now ≡ Ok (state_of run.new)) }
    ensures err { IfErr result (λ e. EndsAs e (read_target program.now (state_of run.old) target.now)) }
{
    let place = target_place(alloc, program, run, target)?;
    read_item(alloc, program, run, target, place)
}

/// Performs READ.
#[tactic(auto, unfolding(crate::specs::Items::read_statement))]
pub fn read_statement(
    alloc: Global,
    program: &Program,
    run: &mut Run,
    targets: &[Target],
) -> Result<(), Ending>
    ensures ok { OnOk result (read_statement program.now (state_of run.old) targets.now ≡ Ok (state_of run.new)) }
    ensures err { IfErr result (λ e. EndsAs e (read_statement program.now (state_of run.old) targets.now)) }
{
    'each: for target in targets {
        read_target(alloc, program, run, target)?;
    }
    Ok(())
}

/// Performs RESTORE.
#[tactic(auto, unfolding(crate::specs::Items::restore_statement))]
pub fn restore_statement(run: &mut Run)
    ensures { state_of run.new ≡ restore_statement (state_of run.old) }
{
    run.items_read = 0;
}
