//! Whole scripts.

ghost use Rattle.std.specs.Prelude.{◌≡◌, ℕ, suc, List, ◌∷◌, ◌++◌, [], ◌+◌, ◌-◌, ◌<◌, ◌≤◌, ◌⊎◌, length, Ok, Err, IfErr, IfOk, IfSome, MatchResult, OnOk};
ghost use Rattle.pr_basic.specs.Limits.{statement_limit};
ghost use Rattle.pr_basic.specs.Grammar.{IsScript, parts, without_return};
ghost use Rattle.pr_base.specs.Lines.{lines_of};
ghost use Rattle.pr_basic.specs.Faults.{IsFirstFault};
ghost use Rattle.pr_basic.specs.FaultPlaces.{IsFirstFaultAt};
ghost use Rattle.pr_basic.specs.Lexing.{here, later, lexemes_of, past, unspaced};
ghost use Rattle.pr_basic.specs.ReadingScripts.{and_more, behind, counted, first_digits, is_begun, line_statements, split_number, statements_in, statements_of};
ghost use Rattle.pr_basic.specs.Reads.{FailsIn, ReadsOn, ReadsStatement, UnlessMemory, still, with_front};
ghost use Rattle.pr_basic.specs.Lexemes.{Colon};

use crate::fault::{FaultAt, Flaw, LineFault, ScriptFault};
use crate::lexemes::{Keyword, Lexeme, after_colon, after_spaces, next_in_part, next_lexeme};
use crate::numbers::value_of;
use crate::reader::read_statement;
use crate::statement::Statement;
use std::alloc::Global;

/// The most statements of a script (profile).
pub const STATEMENT_LIMIT: usize = 1_000_000;

/// The largest line number (profile, after the KERNAL's BASIC).
pub const LINE_NUMBER_LIMIT: u32 = 63_999;

/// Reads the statements of a script, in order, at most [`STATEMENT_LIMIT`]. It is Ok exactly if the
/// grammar relates the bytes to a list of statements, with that list. The time is linear in the
/// bytes. (Profile, after the Programmer's Reference Guide's OPEN, CLOSE, CMD, PRINT#, PRINT, REM
/// and CHR$.)
///
/// # Errors
///
/// The first fault from the left with its line's number from 1, as [`ScriptFault`] says; or
/// [`ScriptFault::NoMemory`], if memory was refused. The statements read so far are dropped.
pub fn read_script(alloc: Global, bytes: &[u8]) -> Result<Vec<Statement>, ScriptFault>
    ensures read { IfOk result (λ statements. IsScript bytes.now statements.items) }
    ensures few { IfOk result (λ statements. length statements.items ≤ statement_limit) }
    ensures refused { IfErr result (λ fault. (fault ≡ ScriptFault.NoMemory) ⊎ IsFirstFault bytes.now fault) }
    ensures complete { (ss : List Statement) → IsScript bytes.now ss → MatchResult result (λ statements. statements.items ≡ ss)
        (λ fault. fault ≡ ScriptFault.NoMemory) }
{
    match read_script_at(alloc, bytes) {
        Ok(statements) => Ok(statements),
        Err(refused) => Err(refused.fault),
    }
}

/// Reads the statements of a script, as [`read_script`] does, but an error has its place too.
///
/// # Errors
///
/// The first fault as [`read_script`] gives it, with its place: the number of bytes of the text
/// before it, never more than the text has. If memory was refused, the place is where the reading
/// had come.
///
/// The place is the lexeme that is wrong, or the one that comes where another is missing. Where
/// none comes, it is the colon that ends the statement, or the end of the line (its byte 13 or 10,
/// or the text's end). In a string it is the byte that is not allowed there, or the 256th of the
/// list; for a CHR$ that would be the 256th, the CHR$. Spaces and tabs before a lexeme do not
/// belong to the place.
pub fn read_script_at(alloc: Global, bytes: &[u8]) -> Result<Vec<Statement>, FaultAt>
    ensures read { IfOk result (λ statements. IsScript bytes.now statements.items) }
    ensures few { IfOk result (λ statements. length statements.items ≤ statement_limit) }
    ensures refused { IfErr result (λ e. (e.fault ≡ ScriptFault.NoMemory) ⊎ IsFirstFaultAt bytes.now e.fault e.place) }
    ensures within { IfErr result (λ e. e.place ≤ length bytes.now) }
    ensures complete { (ss : List Statement) → IsScript bytes.now ss → MatchResult result (λ statements. statements.items ≡ ss)
        (λ e. e.fault ≡ ScriptFault.NoMemory) }
{
    let mut statements = Vec::new(alloc);
    let mut rest = bytes;
    let mut number = 0;
    while !rest.is_empty() {
        let (line, more) = cut_line(rest);
        number += 1;
        if let Err((fault, column)) = read_line(alloc, &mut statements, line) {
            return Err(FaultAt {
                fault: fault.at(number),
                place: bytes.len() - rest.len() + column,
            });
        }
        rest = more;
    }
    Ok(statements)
}

/// Takes the statements of a line, or reports its first fault and how many of its bytes come before.
fn read_line(
    alloc: Global,
    statements: &mut Vec<Statement>,
    line: &[u8],
) -> Result<(), (LineFault, usize)>
    requires { length statements.old.items ≤ statement_limit }
    ensures reads { MatchResult result
        (λ _. with_front statements.old.items (line_statements (statement_limit - length statements.old.items) line.entry.now)
        ≡ Ok statements.new.items)
        (λ e. UnlessMemory e.0 (line_statements (statement_limit - length statements.old.items) line.entry.now ≡ Err (e.0, e.1))) }
    ensures few { OnOk result (length statements.new.items ≤ statement_limit) }
    ensures within { IfErr result (λ e. e.1 ≤ length line.entry.now) }
{
    let line = without_return(line);
    match read_parts(alloc, statements, line) {
        Ok(()) => Ok(()),
        Err(flaw) => Err((flaw.fault, column(line, flaw.rest, flaw.inside))),
    }
}

/// How many bytes of a line come before a fault in it: `rest` was left to read there, and the
/// fault is after this many bytes of the next lexeme.
fn column(line: &[u8], rest: &[u8], inside: usize) -> usize
    ensures { result ≡ length line.now - (length (unspaced rest.now) - inside) }
{
    let left = after_spaces(rest).len();
    line.len().saturating_sub(left.saturating_sub(inside))
}

/// Takes the statements of a line without its end.
fn read_parts<'a>(
    alloc: Global,
    statements: &mut Vec<Statement>,
    line: &'a [u8],
) -> Result<(), Flaw<'a>>
    requires { length statements.old.items ≤ statement_limit }
    ensures reads { MatchResult result
        (λ _. with_front statements.old.items (statements_of (statement_limit - length statements.old.items) (lexemes_of line.entry.now))
        ≡ Ok statements.new.items)
        (λ e. FailsIn e line.entry.now (statements_of (statement_limit - length statements.old.items) (lexemes_of line.entry.now))) }
    ensures few { OnOk result (length statements.new.items ≤ statement_limit) }
{
    let mut rest = Some(after_number(line)?);
    while let Some(bytes) = rest {
        rest = read_part(alloc, statements, bytes)?;
    }
    Ok(())
}

/// Takes the statement at the front, and answers what follows its colon.
fn read_part<'a>(
    alloc: Global,
    statements: &mut Vec<Statement>,
    bytes: &'a [u8],
) -> Result<Option<&'a [u8]>, Flaw<'a>>
    requires { length statements.old.items ≤ statement_limit }
    ensures reads { MatchResult result
        (λ rest. with_front statements.old.items
        (statements_in (statement_limit - length statements.old.items) (parts (lexemes_of bytes.entry.now)))
        ≡ with_front statements.new.items
        (behind (here bytes.entry.now ++ Colon ∷ []) (still (statement_limit - length statements.new.items) rest)))
        (λ e. FailsIn e bytes.entry.now
        (statements_in (statement_limit - length statements.old.items) (parts (lexemes_of bytes.entry.now)))) }
    ensures few { OnOk result (length statements.new.items ≤ statement_limit) }
    ensures less { IfOk result (λ rest. IfSome rest (λ r. length r.now < length bytes.entry.now)) }
    ensures left { IfOk result (λ rest. IfSome rest (λ r. r.now ≡ past (suc (length (here bytes.entry.now))) bytes.entry.now)) }
{
    let (statement, rest) = next_statement(alloc, statements.len(), bytes)?;
    if let Err(fault) = keep(statements, statement) {
        return Err(fault.before(bytes));
    }
    Ok(after_colon(rest))
}

/// The statement at the front, after this many others.
#[tactic(auto, using(crate::proofs::ListLaws::fails_of, crate::proofs::Places::rest_same))]
fn next_statement(
    alloc: Global,
    count: usize,
    bytes: &[u8],
) -> Result<(Option<Statement>, &[u8]), Flaw<'_>>
    requires { count ≤ statement_limit }
    ensures reads { ReadsStatement result (counted (statement_limit - count) (here bytes.now)) (later bytes.now) }
    ensures shorter { IfOk result (λ p. length p.1.now ≤ length bytes.now) }
    ensures on { ReadsOn result bytes.now }
{
    if count == STATEMENT_LIMIT && begins_statement(bytes) {
        return Err(LineFault::TooMany.before(bytes));
    }
    read_statement(alloc, bytes)
}

/// Adds a statement, where there is one.
fn keep(statements: &mut Vec<Statement>, statement: Option<Statement>) -> Result<(), LineFault>
    ensures kept { OnOk result (statements.new.items ≡ statements.old.items ++ and_more statement []) }
    ensures refused { IfErr result (λ fault. fault ≡ LineFault.NoMemory) }
{
    let Some(statement) = statement else {
        return Ok(());
    };
    match statements.push(statement) {
        Ok(()) => Ok(()),
        Err(_) => Err(LineFault::NoMemory),
    }
}

/// Whether a statement begins with this keyword.
fn begins_statement(bytes: &[u8]) -> bool
    ensures { result ≡ is_begun (here bytes.now) }
{
    match next_in_part(bytes) {
        Some((Lexeme::Word(Keyword::Chr), _)) => false,
        Some((Lexeme::Word(_), _)) => true,
        Some((Lexeme::Remark, _)) => true,
        _ => false,
    }
}

/// What follows the line's number, if it has one.
#[tactic(auto, unfolding(crate::specs::ReadingScripts::split_number, crate::specs::ReadingScripts::first_digits, crate::specs::Lexing::past))]
fn after_number(bytes: &[u8]) -> Result<&[u8], Flaw<'_>>
    ensures number { MatchResult result
        (λ rest. split_number (lexemes_of bytes.now) ≡ Ok (first_digits (lexemes_of bytes.now), lexemes_of rest.now))
        (λ e. split_number (lexemes_of bytes.now) ≡ Err (e.fault, record { done = []; inside = e.inside })) }
    ensures left { MatchResult result (λ rest. rest.now ≡ past (length (first_digits (lexemes_of bytes.now))) bytes.now)
        (λ e. e.rest.now ≡ bytes.now) }
{
    match next_lexeme(bytes) {
        Some((Lexeme::Digits(digits), rest)) => {
            if value_of(digits) <= LINE_NUMBER_LIMIT {
                Ok(rest)
            } else {
                Err(LineFault::BadNumber.before(bytes))
            }
        }
        _ => Ok(bytes),
    }
}

/// The first line of some bytes, without the byte 10 that ends it, and the bytes after that.
pub fn cut_line(bytes: &[u8]) -> (&[u8], &[u8])
    requires { 0 < length bytes.now }
    ensures lines { lines_of bytes.now ≡ result.0.now ∷ lines_of result.1.now }
    ensures less { length result.1.now < length bytes.now }
    ensures within { length result.0.now ≤ length bytes.now }
    ensures size { (length result.1.now ≡ 0) ⊎ (length bytes.now ≡ suc (length result.0.now) + length result.1.now) }
{
    for (i, b) in bytes.iter().enumerate() {
        if *b == b'\n' {
            return (&bytes[..i], &bytes[i + 1..]);
        }
    }
    (bytes, &[])
}

/// A line without a byte 13 at its end.
pub fn without_return(line: &[u8]) -> &[u8]
    ensures { result.now ≡ without_return line.now }
{
    let n = line.len();
    if n > 0 && line[n - 1] == b'\r' {
        &line[..n - 1]
    } else {
        line
    }
}

/// A law, with nothing to run: each text is a script of one list of statements, or it has one first
/// fault, at one place, and never both.
pub fn each_text_is_a_script_or_has_one_fault()
    ensures one_list { (bytes : List ℕ) (ss others : List Statement) → IsScript bytes ss → IsScript bytes others → ss ≡ others }
    ensures one_fault { (bytes : List ℕ) (fault other : ScriptFault) → IsFirstFault bytes fault → IsFirstFault bytes other → fault ≡ other }
    ensures one_place { (bytes : List ℕ) (fault other : ScriptFault) (place elsewhere : ℕ)
        → IsFirstFaultAt bytes fault place → IsFirstFaultAt bytes other elsewhere → (fault ≡ other) × (place ≡ elsewhere) }
    ensures one_of_both { (bytes : List ℕ) → ((ss : List Statement) × IsScript bytes ss)
        ⊎ ((fault : ScriptFault) × IsFirstFault bytes fault) }
    ensures not_both { (bytes : List ℕ) (ss : List Statement) (fault : ScriptFault) → IsScript bytes ss → IsFirstFault bytes fault → ⊥ }
{}
