//! The lexemes of a line: its names, constants and comparisons, and each other symbol.

ghost use Rattle.std.specs.Prelude.{◌≡◌, ◌+◌, ◌++◌, ◌^◌, ◌<◌, ◌≤◌, length, drop, true, IfOk};
ghost use Rattle.pr_interpreter.specs.Symbols.{first_code};
ghost use Rattle.pr_interpreter.specs.Lexemes.{begins_constant, constant_front, lexemes, line_lexemes, other_word, word_at};

use crate::comparisons::{comparison_of, is_sign};
use crate::constants::Constant;
use crate::names::{Name, is_letter, name_front};
use crate::numerals::{constant_of, exponent_of, numeral_of};
use crate::orders::Order;
use crate::symbols::{Stored, Symbol, Writing, symbols_of};
use pr_base::is_digit;
use std::alloc::{AllocError, Global};

/// A lexeme without its place.
#[derive(Clone, Copy, Debug, PartialEq, Eq)]
pub enum Word {
    /// A keyword, by its token (128 to 203), or a sign, by its byte. 0 is a byte that no line as typed has, or a
    /// constant of more than 255 symbols or with an exponent of 100 and more.
    Code(u8),
    /// The name of a variable, an array or a function.
    Named(Name),
    /// A decimal constant.
    Constant(Constant),
    /// A comparison, by what it accepts: the signs of less, equal and greater that it has, each at most once.
    Comparison(Order),
    /// A string, by the places of its first byte and of the byte after its last.
    Text { start: usize, end: usize },
    /// DATA, by the places where its items begin and end.
    Items { start: usize, end: usize },
    /// A remark.
    Remark,
}

/// A lexeme of a line, and its place: the number of bytes before it in the text.
#[derive(Clone, Copy, Debug, PartialEq, Eq)]
pub struct Lexeme {
    pub word: Word,
    pub place: usize,
}

/// Returns whether a constant begins with a code.
fn begins_constant(code: u8) -> bool
    ensures { result ≡ begins_constant code }
{
    is_digit(code) || code == b'.'
}

/// Returns the constant at the front of symbols, and how many symbols it has. Without a digit or a point there, it is 0.
#[tactic(auto, unfolding(crate::specs::Lexemes::constant_front))]
pub fn constant_at(symbols: &[Symbol]) -> (Word, usize)
    ensures value { result ≡ constant_front symbols.now }
    ensures within { result.1 ≤ length symbols.now }
{
    let (numeral, size) = numeral_of(symbols);
    let exponent = exponent_of(&symbols[size..]);
    let word = if size <= 255 && exponent.value < 100 {
        Word::Constant(constant_of(numeral, exponent))
    } else {
        Word::Code(0)
    };
    (word, size + exponent.size)
}

/// Returns the constant at the front of symbols, and how many symbols it has.
#[tactic(auto, using(crate::proofs::NumeralLemmas::numeral_some), unfolding(crate::specs::Lexemes::constant_front))]
fn constant_front(symbols: &[Symbol]) -> (Word, usize)
    requires { begins_constant (first_code symbols.now) ≡ true }
    ensures value { result ≡ constant_front symbols.now }
    ensures some { 0 < result.1 }
    ensures within { result.1 ≤ length symbols.now }
{
    constant_at(symbols)
}

/// Returns the word of a symbol that begins nothing longer.
fn other_word(stored: Stored) -> Word
    ensures { result ≡ other_word stored }
{
    match stored {
        Stored::Code(code) => Word::Code(code),
        Stored::Text { start, end } => Word::Text { start, end },
        Stored::Items { start, end } => Word::Items { start, end },
        Stored::Remark => Word::Remark,
    }
}

/// Returns the word of a symbol and of those after it, and how many symbols it has.
#[tactic(auto, unfolding(crate::specs::Lexemes::word_front))]
fn word_of(symbols: &[Symbol]) -> (Word, usize)
    requires { 0 < length symbols.now }
    ensures value { result ≡ word_at symbols.now }
    ensures some { 0 < result.1 }
    ensures within { result.1 ≤ length symbols.now }
{
    let code = symbols[0].code();
    if is_letter(code) {
        let (name, size) = name_front(code, &symbols[1..]);
        return (Word::Named(name), size);
    }
    if begins_constant(code) {
        return constant_front(symbols);
    }
    if is_sign(code) {
        let (order, size) = comparison_of(symbols);
        return (Word::Comparison(order), size);
    }
    (other_word(symbols[0].stored), 1)
}

/// Adds the lexeme at the front of symbols. Returns how many symbols it has.
fn take_lexeme(found: &mut Vec<Lexeme>, symbols: &[Symbol]) -> Result<usize, AllocError>
    requires { 0 < length symbols.now }
    ensures lexemes { IfOk result (λ size. found.new.items ++ lexemes 0 (drop size symbols.now) ≡ found.old.items ++ lexemes 0 symbols.now) }
    ensures some { IfOk result (λ size. 0 < size) }
    ensures within { IfOk result (λ size. size ≤ length symbols.now) }
{
    let (word, size) = word_of(symbols);
    found.push(Lexeme {
        word,
        place: symbols[0].place,
    })?;
    Ok(size)
}

/// Returns the lexemes of symbols.
fn grouped(alloc: Global, symbols: &[Symbol]) -> Result<Vec<Lexeme>, AllocError>
    ensures { IfOk result (λ found. found.items ≡ lexemes 0 symbols.now) }
{
    let mut found = Vec::new(alloc);
    let mut passed = 0;
    while passed < symbols.len() {
        passed += take_lexeme(&mut found, &symbols[passed..])?;
    }
    Ok(found)
}

/// Returns the lexemes of a line whose first byte is at a place.
///
/// # Errors
///
/// Memory ran out.
#[tactic(auto, unfolding(crate::specs::Lexemes::line_lexemes))]
pub fn lexemes_of(
    alloc: Global,
    writing: Writing,
    place: usize,
    line: &[u8],
) -> Result<Vec<Lexeme>, AllocError>
    requires { place + length line.now < 2 ^ 64 }
    ensures { IfOk result (λ found. found.items ≡ line_lexemes writing place line.now) }
{
    let symbols = symbols_of(alloc, writing, place, line)?;
    grouped(alloc, symbols.as_slice())
}
