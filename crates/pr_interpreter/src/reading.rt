//! Reads what statements have in common: codes, line numbers, variables and values.

ghost use Rattle.std.specs.Prelude.{◌≡◌, ◌+◌, ◌++◌, ◌∷◌, ◌<◌, ◌≤◌, [], true, false, length, Ok, IfErr, IfOk, OnOk};
ghost use Rattle.pr_interpreter.specs.Expressions.{expression};
ghost use Rattle.pr_interpreter.specs.Faults.{FaultsAs, LeadsOn};
ghost use Rattle.pr_interpreter.specs.Reading.{after, after_value, at_end, begins_comma, front_code, front_place, is_equal, list_of, others_of, word_code};
ghost use Rattle.pr_interpreter.specs.Statements.{begins_digits, constant_line, front_line, front_name, has_digits, is_unscaled, line, parameter, variable, word_line, word_name};

use crate::constants::{Constant, Tens};
use crate::fault::ProgramFault;
use crate::lexemes::{Lexeme, Word};
use crate::names::Name;
use crate::orders::Order;
use crate::reader::read_expression;
use crate::statements::Nodes;
use pr_page::Sequence;
use std::alloc::Global;

/// The token of `=`.
pub const EQUAL: u8 = 178;

/// The greatest line number.
const LAST_LINE: u32 = 63_999;

/// Adds an item at the end of a list.
pub fn put<T: Drop>(found: &mut Vec<T>, item: T) -> Result<(), ProgramFault>
    ensures ok { OnOk result (found.new.items ≡ found.old.items ++ item ∷ []) }
    ensures err { IfErr result (λ fault. fault ≡ ProgramFault.OutOfMemory) }
{
    match found.push(item) {
        Ok(()) => Ok(()),
        Err(_) => Err(ProgramFault::OutOfMemory),
    }
}

/// Returns whether a comparison is `=` alone.
fn is_equal(order: Order) -> bool
    ensures { result ≡ is_equal order }
{
    order.equal && !order.less && !order.greater
}

/// Returns the code of a word: the token of a keyword and of `=` alone, the byte of a sign; else 0.
fn word_code(word: Word) -> u8
    ensures { result ≡ word_code word }
{
    match word {
        Word::Code(code) => code,
        Word::Comparison(order) => { if is_equal(order) { EQUAL } else { 0 } }
        Word::Constant(_)
        | Word::Named(_)
        | Word::Text { .. }
        | Word::Items { .. }
        | Word::Remark => 0,
    }
}

/// Returns the code of the word at the front; at a line's end 0.
pub fn front_code(lexemes: &[Lexeme]) -> u8
    ensures value { result ≡ front_code lexemes.now }
    ensures some { 0 < result → 0 < length lexemes.now }
{
    match lexemes {
        [first, ..] => word_code(first.word),
        [] => 0,
    }
}

/// Returns the place of the lexeme at the front of lexemes of a line that ends at a place.
pub fn front_place(lexemes: &[Lexeme], end: usize) -> usize
    ensures { result ≡ front_place end lexemes.now }
{
    match lexemes {
        [first, ..] => first.place,
        [] => end,
    }
}

/// Returns the fault that no statement has what is at the front.
pub fn no_statement(lexemes: &[Lexeme], end: usize) -> ProgramFault
    ensures { result ≡ ProgramFault.NoStatement (front_place end lexemes.now) }
{
    ProgramFault::NoStatement(front_place(lexemes, end))
}

/// Returns the fault that what is at the front is not taken after what the machine works out.
pub fn not_taken(lexemes: &[Lexeme], end: usize) -> ProgramFault
    ensures { result ≡ ProgramFault.NotTaken (front_place end lexemes.now) }
{
    ProgramFault::NotTaken(front_place(lexemes, end))
}

/// Returns whether a line or a statement ends.
pub fn at_end(lexemes: &[Lexeme]) -> bool
    ensures value { result ≡ at_end lexemes.now }
    ensures some { result ≡ false → 0 < length lexemes.now }
{
    match lexemes {
        [first, ..] => word_code(first.word) == b':',
        [] => true,
    }
}

/// Returns whether a power of ten is 1.
fn is_unscaled(tens: Tens) -> bool
    ensures { result ≡ is_unscaled tens }
{
    match tens {
        Tens::Times(n) => n == 0,
        Tens::Over(_) => false,
    }
}

/// Returns the line number that a constant is: digits alone, and at most 63999.
fn constant_line(constant: Constant) -> Option<u16>
    ensures { result ≡ constant_line constant }
{
    if constant.plain && is_unscaled(constant.tens) && constant.digits <= LAST_LINE {
        Some(constant.digits as u16)
    } else {
        None
    }
}

/// Returns the line number at the front.
pub fn front_line(lexemes: &[Lexeme]) -> Option<u16>
    ensures { result ≡ front_line lexemes.now }
{
    match lexemes {
        [first, ..] => word_line(first.word),
        [] => None,
    }
}

/// Returns the line number that a word is.
fn word_line(word: Word) -> Option<u16>
    ensures { result ≡ word_line word }
{
    match word {
        Word::Constant(constant) => constant_line(constant),
        Word::Code(_)
        | Word::Comparison(_)
        | Word::Named(_)
        | Word::Text { .. }
        | Word::Items { .. }
        | Word::Remark => None,
    }
}

/// Returns the name that a word is.
fn word_name(word: Word) -> Option<Name>
    ensures { result ≡ word_name word }
{
    match word {
        Word::Named(name) => Some(name),
        Word::Code(_)
        | Word::Comparison(_)
        | Word::Constant(_)
        | Word::Text { .. }
        | Word::Items { .. }
        | Word::Remark => None,
    }
}

/// Returns whether a word begins with digits, or may do so.
fn has_digits(word: Word) -> bool
    ensures { result ≡ has_digits word }
{
    match word {
        Word::Constant(_) => true,
        Word::Code(code) => code == 0,
        Word::Comparison(_)
        | Word::Named(_)
        | Word::Text { .. }
        | Word::Items { .. }
        | Word::Remark => false,
    }
}

/// Returns whether digits are at the front, or may be.
fn begins_digits(lexemes: &[Lexeme]) -> bool
    ensures value { result ≡ begins_digits lexemes.now }
    ensures some { result ≡ true → 0 < length lexemes.now }
{
    match lexemes {
        [first, ..] => has_digits(first.word),
        [] => false,
    }
}

/// Returns the name at the front.
pub fn front_name(lexemes: &[Lexeme]) -> Option<Name>
    ensures value { result ≡ front_name lexemes.now }
{
    match lexemes {
        [first, ..] => word_name(first.word),
        [] => None,
    }
}

/// Reads a line number; it is 0 where there are no digits.
#[tactic(auto, unfolding(crate::specs::Statements::line))]
pub fn line(lexemes: &[Lexeme], end: usize) -> Result<(u16, usize), ProgramFault>
    ensures value { result ≡ line end lexemes.now }
    ensures within { IfOk result (λ r. r.1 ≤ length lexemes.now) }
{
    if !begins_digits(lexemes) {
        return Ok((0, 0));
    }
    match front_line(lexemes) {
        Some(number) => Ok((number, 1)),
        None => Err(not_taken(lexemes, end)),
    }
}

/// Reads the name of a variable.
#[tactic(auto, unfolding(crate::specs::Statements::variable))]
pub fn variable(lexemes: &[Lexeme], end: usize) -> Result<(Name, usize), ProgramFault>
    ensures value { result ≡ variable end lexemes.now }
    ensures some { IfOk result (λ r. 0 < r.1) }
    ensures within { IfOk result (λ r. r.1 ≤ length lexemes.now) }
{
    match front_name(lexemes) {
        Some(name) => Ok((name, 1)),
        None => Err(no_statement(lexemes, end)),
    }
}

/// Reads the name of a function's variable.
#[tactic(auto, unfolding(crate::specs::Statements::parameter))]
pub fn parameter(lexemes: &[Lexeme], end: usize) -> Result<(Name, usize), ProgramFault>
    ensures value { result ≡ parameter end lexemes.now }
    ensures within { IfOk result (λ r. r.1 ≤ length lexemes.now) }
{
    match front_name(lexemes) {
        Some(name) => Ok((name, 1)),
        None => Err(not_taken(lexemes, end)),
    }
}

/// Reads a value.
pub fn value(alloc: Global, lexemes: &[Lexeme], end: usize) -> Result<(Nodes, usize), ProgramFault>
    ensures ok { IfOk result (λ r. expression end lexemes.now ≡ Ok r) }
    ensures err { IfErr result (λ fault. FaultsAs fault (expression end lexemes.now)) }
    ensures some { IfOk result (λ r. 0 < r.1) }
    ensures within { IfOk result (λ r. r.1 ≤ length lexemes.now) }
{
    let read = read_expression(alloc, lexemes, end)?;
    Ok((Sequence::from_vec(read.nodes), read.size))
}

/// Reads a value after a code that follows what the machine works out.
pub fn value_then(
    alloc: Global,
    code: u8,
    lexemes: &[Lexeme],
    end: usize,
) -> Result<(Nodes, usize), ProgramFault>
    requires { 0 < code }
    ensures ok { IfOk result (λ r. after_value code expression end lexemes.now ≡ Ok r) }
    ensures err { IfErr result (λ fault. FaultsAs fault (after_value code expression end lexemes.now)) }
    ensures within { IfOk result (λ r. r.1 ≤ length lexemes.now) }
{
    if front_code(lexemes) != code {
        return Err(not_taken(lexemes, end));
    }
    let (value, size) = value(alloc, &lexemes[1..], end)?;
    Ok((value, 1 + size))
}

/// Reads a value after a code.
pub fn value_after(
    alloc: Global,
    code: u8,
    lexemes: &[Lexeme],
    end: usize,
) -> Result<(Nodes, usize), ProgramFault>
    requires { 0 < code }
    ensures ok { IfOk result (λ r. after code expression end lexemes.now ≡ Ok r) }
    ensures err { IfErr result (λ fault. FaultsAs fault (after code expression end lexemes.now)) }
    ensures some { IfOk result (λ r. 0 < r.1) }
    ensures within { IfOk result (λ r. r.1 ≤ length lexemes.now) }
{
    if front_code(lexemes) != code {
        return Err(no_statement(lexemes, end));
    }
    let (value, size) = value(alloc, &lexemes[1..], end)?;
    Ok((value, 1 + size))
}

/// Reads a value after a comma. Returns how many lexemes both have.
fn take_value(
    alloc: Global,
    found: &mut Vec<Nodes>,
    lexemes: &[Lexeme],
    end: usize,
) -> Result<usize, ProgramFault>
    requires { front_code lexemes.now ≡ 44 }
    ensures ok { IfOk result (λ n. LeadsOn begins_comma (after 44 expression end) found.old.items found.new.items n lexemes.now) }
    ensures err { IfErr result (λ fault. FaultsAs fault (after 44 expression end lexemes.now)) }
    ensures some { IfOk result (λ n. 0 < n) }
    ensures within { IfOk result (λ n. n ≤ length lexemes.now) }
{
    let (value, size) = value_after(alloc, b',', lexemes, end)?;
    put(found, value)?;
    Ok(size)
}

/// Reads further values, each after a comma. Returns how many lexemes they have.
fn more_values(
    alloc: Global,
    found: &mut Vec<Nodes>,
    lexemes: &[Lexeme],
    end: usize,
) -> Result<usize, ProgramFault>
    ensures ok { IfOk result (λ n. others_of expression found.old.items end lexemes.now ≡ Ok (found.new.items, n)) }
    ensures err { IfErr result (λ fault. FaultsAs fault (others_of expression found.old.items end lexemes.now)) }
    ensures within { IfOk result (λ n. n ≤ length lexemes.now) }
{
    let mut passed = 0;
    'more: while front_code(&lexemes[passed..]) == b',' {
        match take_value(alloc, found, &lexemes[passed..], end) {
            Ok(size) => passed += size,
            Err(fault) => return Err(fault),
        }
    }
    Ok(passed)
}

/// Reads one or several values, separated by commas.
#[tactic(auto, unfolding(crate::specs::Reading::and_then))]
pub fn values(
    alloc: Global,
    lexemes: &[Lexeme],
    end: usize,
) -> Result<(Sequence<Nodes>, usize), ProgramFault>
    ensures ok { IfOk result (λ r. list_of expression end lexemes.now ≡ Ok r) }
    ensures err { IfErr result (λ fault. FaultsAs fault (list_of expression end lexemes.now)) }
    ensures some { IfOk result (λ r. 0 < r.1) }
    ensures within { IfOk result (λ r. r.1 ≤ length lexemes.now) }
{
    let (first, size) = value(alloc, lexemes, end)?;
    let mut found = Vec::new(alloc);
    put(&mut found, first)?;
    let more = more_values(alloc, &mut found, &lexemes[size..], end)?;
    Ok((Sequence::from_vec(found), size + more))
}
