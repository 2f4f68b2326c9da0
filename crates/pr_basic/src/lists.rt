//! Lists of strings and CHR$.

ghost use Rattle.std.specs.Prelude.{◌≡◌, ◌∷◌, [], ◌<◌, ◌≤◌, length, true, Ok, IfErr, IfOk, MatchResult};
ghost use Rattle.std.specs.List.{prefix_len};
ghost use Rattle.pr_basic.specs.Limits.{byte_limit};
ghost use Rattle.pr_basic.specs.Grammar.{is_printable};
ghost use Rattle.pr_basic.specs.Lexing.{IsRest, here, later};
ghost use Rattle.pr_basic.specs.Reading.{byte_added, chr_added, chr_in, line_in, string_added};
ghost use Rattle.pr_basic.specs.Reads.{Fails, Reads, ReadsLine, ReadsOn, TakesItem};
ghost use Rattle.pr_basic.specs.Seen.{seen};

use crate::fault::{Flaw, LineFault};
use crate::lexemes::{Keyword, Lexeme, next_in_part};
use crate::numbers::number;
use crate::statement::Line;
use std::alloc::Global;

/// The most bytes of one list (profile).
const BYTE_LIMIT: usize = 255;

/// A list with no item.
pub fn no_line(alloc: Global) -> Line
    ensures { result ≡ record { bytes = []; ends = true } }
{
    Line {
        bytes: Vec::new(alloc),
        ends: true,
    }
}

/// Adds one byte, which is in the item at the front of `item`, unless it would be the 256th.
#[tactic(auto, using(crate::proofs::Places::rest_same), unfolding(crate::specs::Reading::byte_added))]
fn add_byte<'a>(bytes: &mut Vec<u8>, item: &'a [u8], b: u8) -> Result<(), Flaw<'a>>
    requires { length bytes.old.items ≤ byte_limit }
    ensures added { MatchResult result (λ _. byte_added (here item.entry.now) bytes.old.items b ≡ Ok bytes.new.items)
        (λ e. Fails e (byte_added (here item.entry.now) bytes.old.items b)) }
    ensures short { length bytes.new.items ≤ byte_limit }
    ensures at { IfErr result (λ e. e.rest.now ≡ item.entry.now) }
{
    if bytes.len() >= BYTE_LIMIT {
        return Err(LineFault::TooLong.before(item));
    }
    match bytes.push(b) {
        Ok(()) => Ok(()),
        Err(_) => Err(LineFault::NoMemory.before(item)),
    }
}

/// How many bytes at the front may be in a string.
fn printable_count(string: &[u8]) -> usize
    ensures count { result ≡ prefix_len is_printable string.now }
    ensures within { result ≤ length string.now }
{
    for (i, b) in string.iter().enumerate() {
        if *b < b' ' || *b > b'~' {
            return i;
        }
    }
    string.len()
}

/// Adds the bytes of a string at the front of `item`, in one piece, unless a string cannot have one
/// of them or one would be the 256th.
#[tactic(auto, unfolding(crate::specs::Reading::string_added))]
fn add_string<'a>(bytes: &mut Vec<u8>, item: &'a [u8], string: &[u8]) -> Result<(), Flaw<'a>>
    requires { length bytes.old.items ≤ byte_limit }
    ensures added { MatchResult result (λ _. string_added (here item.entry.now) bytes.old.items string.entry.now ≡ Ok bytes.new.items)
        (λ e. Fails e (string_added (here item.entry.now) bytes.old.items string.entry.now)) }
    ensures short { length bytes.new.items ≤ byte_limit }
    ensures at { IfErr result (λ e. e.rest.now ≡ item.entry.now) }
{
    let good = printable_count(string);
    if good > BYTE_LIMIT - bytes.len() {
        return Err(LineFault::TooLong.inside(item, 1 + (BYTE_LIMIT - bytes.len())));
    }
    if good < string.len() {
        return Err(LineFault::BadByte.inside(item, 1 + good));
    }
    match bytes.extend_from_slice(string) {
        Ok(()) => Ok(()),
        Err(_) => Err(LineFault::NoMemory.before(item)),
    }
}

/// The number in the parentheses of a CHR$, and the bytes after them.
#[tactic(auto, using(crate::proofs::Places::rest_on, crate::proofs::Places::rest_same), unfolding(crate::specs::Reading::chr_in, crate::specs::Reading::closed_in))]
fn chr(bytes: &[u8]) -> Result<(u32, &[u8]), Flaw<'_>>
    ensures reads { Reads result (chr_in (here bytes.now)) (later bytes.now) }
    ensures within { IfOk result (λ p. p.0 ≤ 255) }
    ensures shorter { IfOk result (λ p. length p.1.now ≤ length bytes.now) }
    ensures on { ReadsOn result bytes.now }
{
    let Some((Lexeme::OpenParen, rest)) = next_in_part(bytes) else {
        return Err(LineFault::UnknownWord.before(bytes));
    };
    let (n, rest) = number(rest, 0, 255, LineFault::BadNumber, LineFault::BadByte)?;
    let Some((Lexeme::CloseParen, after)) = next_in_part(rest) else {
        return Err(LineFault::UnknownWord.before(rest));
    };
    Ok((n, after))
}

/// Adds the byte of a CHR$, which is at the front of `item`, with `more` after its keyword.
#[tactic(auto, using(crate::proofs::Places::rest_on, crate::proofs::Places::rest_same), unfolding(crate::specs::Reading::chr_added))]
fn add_chr<'a>(bytes: &mut Vec<u8>, item: &'a [u8], more: &'a [u8]) -> Result<&'a [u8], Flaw<'a>>
    requires few { length bytes.old.items ≤ byte_limit }
    requires behind { IsRest more.now item.now }
    ensures added { MatchResult result
        (λ rest. (chr_added (here item.entry.now) bytes.old.items (here more.entry.now) ≡ Ok (bytes.new.items, here rest.now))
        × (later rest.now ≡ later more.entry.now) × (length rest.now ≤ length more.entry.now))
        (λ e. Fails e (chr_added (here item.entry.now) bytes.old.items (here more.entry.now))) }
    ensures short { length bytes.new.items ≤ byte_limit }
    ensures on { MatchResult result (λ rest. IsRest rest.now item.entry.now) (λ e. IsRest e.rest.now item.entry.now) }
{
    let (n, rest) = chr(more)?;
    add_byte(bytes, item, n as u8)?;
    Ok(rest)
}

/// Takes one item of a list, which is at the front of `item`: its first lexeme, with `more`
/// after it.
#[tactic(auto, using(crate::proofs::Places::rest_on, crate::proofs::Places::rest_same, crate::proofs::ListLaws::chr_step), unfolding(crate::specs::Reading::line_in))]
fn list_item<'a>(
    line: &mut Line,
    item: &'a [u8],
    lexeme: Lexeme<'a>,
    more: &'a [u8],
) -> Result<&'a [u8], Flaw<'a>>
    requires item { here item.now ≡ seen lexeme ∷ here more.now }
    requires behind { IsRest more.now item.now }
    ensures takes { MatchResult result (TakesItem line.old line.new (seen lexeme.entry) more.entry.now)
        (λ e. Fails e (line_in line.old.bytes line.old.ends (seen lexeme.entry ∷ here more.entry.now))) }
    ensures on { MatchResult result (λ rest. IsRest rest.now item.entry.now) (λ e. IsRest e.rest.now item.entry.now) }
{
    match lexeme {
        Lexeme::Semicolon => {
            line.ends = false;
            Ok(more)
        }
        Lexeme::Quoted(string) => {
            add_string(&mut line.bytes, item, string)?;
            line.ends = true;
            Ok(more)
        }
        Lexeme::Word(Keyword::Chr) => {
            let rest = add_chr(&mut line.bytes, item, more)?;
            line.ends = true;
            Ok(rest)
        }
        _ => Err(LineFault::UnknownWord.before(item)),
    }
}

/// The list that the part in front spells, which goes on after the line so far.
#[tactic(auto, using(crate::proofs::Places::rest_on, crate::proofs::Places::rest_same), unfolding(crate::specs::Reading::line_in))]
pub fn list(mut line: Line, bytes: &[u8]) -> Result<(Line, &[u8]), Flaw<'_>>
    ensures reads { ReadsLine result (line_in line.bytes line.ends (here bytes.now)) (later bytes.now) }
    ensures shorter { IfOk result (λ p. length p.1.now ≤ length bytes.now) }
    ensures on { ReadsOn result bytes.now }
{
    let mut rest = bytes;
    while let Some((lexeme, more)) = next_in_part(rest) {
        rest = list_item(&mut line, rest, lexeme, more)?;
    }
    Ok((line, rest))
}
