//! Names of variables in a line.

ghost use Rattle.std.specs.Prelude.{◌≡◌, ◌+◌, ◌≤◌, length};
ghost use Rattle.pr_interpreter.specs.Lexemes.{is_in_name, is_letter, kind_after, kind_of, kind_size, name_front, name_size, second_of, whole_name_size};

use crate::symbols::{Symbol, first_code};
use pr_base::is_digit;

/// The kind of value that a name stands for.
#[derive(Clone, Copy, Debug, PartialEq, Eq)]
pub enum Kind {
    /// A number.
    Number,
    /// A whole number from -32768 to 32767: the name ends with `%`.
    Whole,
    /// A string: the name ends with `$`.
    Text,
}

/// The name of a variable, an array or a function.
#[derive(Clone, Copy, Debug, PartialEq, Eq)]
pub struct Name {
    /// Its first letter, 65 to 90.
    pub first: u8,
    /// The letter or digit after it, if there is one. Further ones do not count.
    pub second: Option<u8>,
    pub kind: Kind,
}

/// Returns whether a code is a letter.
pub fn is_letter(code: u8) -> bool
    ensures { result ≡ is_letter code }
{
    b'A' <= code && code <= b'Z'
}

/// Returns whether a code is a letter or a digit.
fn is_in_name(code: u8) -> bool
    ensures { result ≡ is_in_name code }
{
    is_letter(code) || is_digit(code)
}

/// Returns how many letters and digits are at the front.
fn name_size(symbols: &[Symbol]) -> usize
    ensures value { result ≡ name_size symbols.now }
    ensures within { result ≤ length symbols.now }
{
    for (i, symbol) in symbols.iter().enumerate() {
        if !is_in_name(symbol.code()) {
            return i;
        }
    }
    symbols.len()
}

/// Returns the second character of a name, if this is one.
fn second_of(code: u8) -> Option<u8>
    ensures { result ≡ second_of code }
{
    if is_in_name(code) { Some(code) } else { None }
}

/// Returns the kind of value that a name stands for, by the sign after its letters and digits.
fn kind_of(code: u8) -> Kind
    ensures { result ≡ kind_of code }
{
    match code {
        b'$' => Kind::Text,
        b'%' => Kind::Whole,
        _ => Kind::Number,
    }
}

/// Returns how many symbols the sign of a kind has.
fn kind_size(kind: Kind) -> usize
    ensures { result ≡ kind_size kind }
{
    match kind {
        Kind::Number => 0,
        Kind::Whole | Kind::Text => 1,
    }
}

/// Returns the name whose first letter these symbols follow, and how many symbols the whole name has.
pub fn name_front(first: u8, symbols: &[Symbol]) -> (Name, usize)
    ensures name { result.0 ≡ name_front first symbols.now }
    ensures size { result.1 ≡ whole_name_size symbols.now }
    ensures within { result.1 ≤ length symbols.now + 1 }
{
    let size = name_size(symbols);
    let kind = kind_of(first_code(&symbols[size..]));
    let name = Name {
        first,
        second: second_of(first_code(symbols)),
        kind,
    };
    (name, 1 + size + kind_size(kind))
}
