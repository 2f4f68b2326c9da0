//! The statement at the front of some bytes.

ghost use Rattle.std.specs.Prelude.{◌≡◌, ◌<◌, ◌≤◌, length, IfOk, IfSome, Some};
ghost use Rattle.pr_basic.specs.Lexing.{here, later};
ghost use Rattle.pr_basic.specs.Reading.{close_in, cmd_in, ended, number_in, open_in, optional_line_in, print_in, print_to_in, second_in, statement_in};
ghost use Rattle.pr_basic.specs.Reads.{Reads, ReadsAll, ReadsLine, ReadsOn, ReadsStatement};

use crate::fault::{Flaw, LineFault};
use crate::lexemes::{Keyword, Lexeme, next_in_part};
use crate::lists::{list, no_line};
use crate::numbers::{comma, number};
use crate::statement::{Device, Line, Second, Statement};
use std::alloc::Global;

/// A file number at the front, and the bytes after it.
fn file_number(bytes: &[u8]) -> Result<(u8, &[u8]), Flaw<'_>>
    ensures reads { Reads result (number_in 0 255 LineFault.BadNumber LineFault.BadNumber (here bytes.now)) (later bytes.now) }
    ensures shorter { IfOk result (λ p. length p.1.now ≤ length bytes.now) }
    ensures on { ReadsOn result bytes.now }
{
    let (file, rest) = number(bytes, 0, 255, LineFault::BadNumber, LineFault::BadNumber)?;
    Ok((file as u8, rest))
}

/// The statement, if nothing more is in its part.
#[tactic(auto, using(crate::proofs::Places::rest_on, crate::proofs::Places::rest_same), unfolding(crate::specs::Reading::ended))]
fn at_end(statement: Statement, bytes: &[u8]) -> Result<(Statement, &[u8]), Flaw<'_>>
    ensures reads { ReadsAll result (ended statement (here bytes.now)) (later bytes.now) }
    ensures shorter { IfOk result (λ p. length p.1.now ≤ length bytes.now) }
    ensures on { ReadsOn result bytes.now }
{
    match next_in_part(bytes) {
        None => Ok((statement, bytes)),
        Some(_) => Err(LineFault::UnknownWord.before(bytes)),
    }
}

/// What follows the device of an OPEN: perhaps a comma and a secondary address.
#[tactic(auto, using(crate::proofs::Places::rest_on, crate::proofs::Places::rest_same), unfolding(crate::specs::Reading::second_in))]
fn optional_second(bytes: &[u8]) -> Result<(Option<u8>, &[u8]), Flaw<'_>>
    ensures reads { Reads result (second_in (here bytes.now)) (later bytes.now) }
    ensures small { IfOk result (λ p. IfSome p.0 (λ second. second ≤ 15)) }
    ensures shorter { IfOk result (λ p. length p.1.now ≤ length bytes.now) }
    ensures on { ReadsOn result bytes.now }
{
    match next_in_part(bytes) {
        Some((Lexeme::Comma, rest)) => {
            let (second, rest) = number(rest, 0, 15, LineFault::BadSecond, LineFault::BadSecond)?;
            Ok((Some(second as u8), rest))
        }
        _ => Ok((None, bytes)),
    }
}

/// An OPEN of numbers within their bounds.
fn opened(file: u8, device: u8, second: Option<u8>) -> Option<Statement>
    requires low { 4 ≤ device }
    requires high { device ≤ 30 }
    requires small { IfSome second (λ s. s ≤ 15) }
    ensures { result ≡ Some (Statement.OpenFile file device second) }
{
    let device = Device::new(device)?;
    let second = match second {
        Some(second) => Some(Second::new(second)?),
        None => None,
    };
    Some(Statement::OpenFile {
        file,
        device,
        second,
    })
}

/// What follows OPEN.
#[tactic(auto, using(crate::proofs::Places::reads_on, crate::proofs::Places::rest_on, crate::proofs::Places::rest_same), unfolding(crate::specs::Reading::open_in))]
fn open(bytes: &[u8]) -> Result<(Statement, &[u8]), Flaw<'_>>
    ensures reads { ReadsAll result (open_in (here bytes.now)) (later bytes.now) }
    ensures shorter { IfOk result (λ p. length p.1.now ≤ length bytes.now) }
    ensures on { ReadsOn result bytes.now }
{
    let (file, rest) = file_number(bytes)?;
    let rest = comma(rest, LineFault::BadDevice)?;
    let (device, rest) = number(rest, 4, 30, LineFault::BadDevice, LineFault::BadDevice)?;
    let (second, rest) = optional_second(rest)?;
    match opened(file, device as u8, second) {
        Some(statement) => at_end(statement, rest),
        None => Err(LineFault::BadDevice.before(rest)),
    }
}

/// What follows CLOSE.
#[tactic(auto, using(crate::proofs::Places::rest_on, crate::proofs::Places::rest_same), unfolding(crate::specs::Reading::close_in))]
fn close(bytes: &[u8]) -> Result<(Statement, &[u8]), Flaw<'_>>
    ensures reads { ReadsAll result (close_in (here bytes.now)) (later bytes.now) }
    ensures shorter { IfOk result (λ p. length p.1.now ≤ length bytes.now) }
    ensures on { ReadsOn result bytes.now }
{
    let (file, rest) = file_number(bytes)?;
    at_end(Statement::CloseFile { file }, rest)
}

/// What follows the file of a CMD or a PRINT#: perhaps a comma and a list that is not empty.
#[tactic(auto, using(crate::proofs::Places::rest_on, crate::proofs::Places::rest_same), unfolding(crate::specs::Reading::optional_line_in))]
fn optional_line(alloc: Global, bytes: &[u8]) -> Result<(Line, &[u8]), Flaw<'_>>
    ensures reads { ReadsLine result (optional_line_in (here bytes.now)) (later bytes.now) }
    ensures shorter { IfOk result (λ p. length p.1.now ≤ length bytes.now) }
    ensures on { ReadsOn result bytes.now }
{
    match next_in_part(bytes) {
        None => Ok((no_line(alloc), bytes)),
        Some((Lexeme::Comma, rest)) => {
            if next_in_part(rest).is_none() {
                return Err(LineFault::UnknownWord.before(rest));
            }
            list(no_line(alloc), rest)
        }
        _ => Err(LineFault::UnknownWord.before(bytes)),
    }
}

/// What follows CMD.
#[tactic(auto, using(crate::proofs::Places::rest_on, crate::proofs::Places::rest_same), unfolding(crate::specs::Reading::cmd_in))]
fn cmd(alloc: Global, bytes: &[u8]) -> Result<(Statement, &[u8]), Flaw<'_>>
    ensures reads { ReadsStatement result (cmd_in (here bytes.now)) (later bytes.now) }
    ensures shorter { IfOk result (λ p. length p.1.now ≤ length bytes.now) }
    ensures on { ReadsOn result bytes.now }
{
    let (file, rest) = file_number(bytes)?;
    let (line, rest) = optional_line(alloc, rest)?;
    Ok((Statement::Cmd { file, line }, rest))
}

/// What follows PRINT#.
#[tactic(auto, using(crate::proofs::Places::rest_on, crate::proofs::Places::rest_same), unfolding(crate::specs::Reading::print_to_in))]
fn print_to(alloc: Global, bytes: &[u8]) -> Result<(Statement, &[u8]), Flaw<'_>>
    ensures reads { ReadsStatement result (print_to_in (here bytes.now)) (later bytes.now) }
    ensures shorter { IfOk result (λ p. length p.1.now ≤ length bytes.now) }
    ensures on { ReadsOn result bytes.now }
{
    let (file, rest) = file_number(bytes)?;
    let (line, rest) = optional_line(alloc, rest)?;
    Ok((Statement::PrintTo { file, line }, rest))
}

/// What follows PRINT.
#[tactic(auto, using(crate::proofs::Places::rest_on, crate::proofs::Places::rest_same), unfolding(crate::specs::Reading::print_in))]
fn print(alloc: Global, bytes: &[u8]) -> Result<(Statement, &[u8]), Flaw<'_>>
    ensures reads { ReadsStatement result (print_in (here bytes.now)) (later bytes.now) }
    ensures shorter { IfOk result (λ p. length p.1.now ≤ length bytes.now) }
    ensures on { ReadsOn result bytes.now }
{
    let (line, rest) = list(no_line(alloc), bytes)?;
    Ok((Statement::Print { line }, rest))
}

/// The statement of the part in front, if it has one, and the bytes that are left of the part.
#[tactic(auto, using(crate::proofs::Places::rest_on, crate::proofs::Places::rest_same), unfolding(crate::specs::Reading::statement_in))]
pub fn read_statement(alloc: Global, bytes: &[u8]) -> Result<(Option<Statement>, &[u8]), Flaw<'_>>
    ensures reads { ReadsStatement result (statement_in (here bytes.now)) (later bytes.now) }
    ensures shorter { IfOk result (λ p. length p.1.now ≤ length bytes.now) }
    ensures on { ReadsOn result bytes.now }
{
    let Some((lexeme, rest)) = next_in_part(bytes) else {
        return Ok((None, bytes));
    };
    let (statement, rest) = match lexeme {
        Lexeme::Remark => return Ok((Some(Statement::Rem), rest)),
        Lexeme::Word(Keyword::Open) => open(rest)?,
        Lexeme::Word(Keyword::Close) => close(rest)?,
        Lexeme::Word(Keyword::Cmd) => cmd(alloc, rest)?,
        Lexeme::Word(Keyword::PrintTo) => print_to(alloc, rest)?,
        Lexeme::Word(Keyword::Print) => print(alloc, rest)?,
        _ => return Err(LineFault::UnknownWord.before(bytes)),
    };
    Ok((Some(statement), rest))
}
