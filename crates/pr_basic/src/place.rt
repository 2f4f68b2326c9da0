//! What is at a place of a script's text, as an explanation of a fault shows it.

ghost use Rattle.std.specs.Prelude.{ℕ, List, MatchOption};
ghost use Rattle.pr_basic.specs.FaultLaws.{FaultsTellTheirLine, PlacesHaveOneLine};
ghost use Rattle.pr_basic.specs.LineAt.{HasBasicNumber, IsLexemeAt, IsLineAt};

use crate::lexemes::{Lexeme, front, is_space, next_lexeme};
use crate::numbers::value_of;
use crate::script::{LINE_NUMBER_LIMIT, cut_line};

/// A line of a text.
#[derive(Clone, Copy, Debug)]
pub struct LineAt<'a> {
    /// How many bytes of the text come before it.
    pub start: usize,
    /// Its number, counted from 1.
    pub number: usize,
    /// Its bytes, without the byte 10 that ends it.
    pub bytes: &'a [u8],
}

/// Returns the line of a text that a place is in, or at whose end it is. A place is the number of
/// bytes of the text before it; its column, counted from 1 in bytes, is the place less the line's
/// `start`, plus one. None exactly where it is in no line: after the text, or after its last byte
/// 10.
///
/// The time is linear in the bytes up to the line's end.
pub fn line_at(text: &[u8], place: usize) -> Option<LineAt<'_>>
    ensures { MatchOption result
        ((start : ℕ) (line : List ℕ) (number : ℕ) → IsLineAt text.now place start line number → ⊥)
        (λ line. IsLineAt text.now place line.start line.bytes.now line.number) }
{
    let mut rest = text;
    let mut number = 0;
    while !rest.is_empty() {
        let (line, more) = cut_line(rest);
        number += 1;
        let start = text.len() - rest.len();
        if place <= start + line.len() {
            return Some(LineAt {
                start,
                number,
                bytes: line,
            });
        }
        rest = more;
    }
    None
}

/// Returns the BASIC number at the front of a line; None exactly where there is none of at most
/// 63999.
pub fn basic_number(line: &[u8]) -> Option<u32>
    ensures { MatchOption result ((n : ℕ) → HasBasicNumber line.now n → ⊥) (λ n. HasBasicNumber line.now n) }
{
    let Some((lexeme, _)) = next_lexeme(line) else {
        return None;
    };
    match lexeme {
        Lexeme::Digits(digits) => {
            let number = value_of(digits);
            if number <= LINE_NUMBER_LIMIT {
                Some(number)
            } else {
                None
            }
        }
        _ => None,
    }
}

/// Returns the bytes of the lexeme at the front of some bytes of a line. None exactly where there
/// is none: they begin with a space or a tab, or are no bytes.
pub fn lexeme_at(bytes: &[u8]) -> Option<&[u8]>
    ensures { MatchOption result ((lexeme : List ℕ) → IsLexemeAt bytes.now lexeme → ⊥) (λ lexeme. IsLexemeAt bytes.now lexeme.now) }
{
    if bytes.is_empty() || is_space(bytes[0]) {
        return None;
    }
    let (_, size) = front(bytes);
    Some(&bytes[..size])
}

/// A law, with nothing to run: a place is in at most one line, and the place of a text's first
/// fault is in the line whose number the fault has.
pub fn faults_tell_their_line()
    ensures one_line { PlacesHaveOneLine }
    ensures told { FaultsTellTheirLine }
{}
