//! Reads what PRINT, PRINT# and CMD write.

ghost use Rattle.std.specs.Prelude.{◌≡◌, ◌+◌, ◌<◌, ◌≤◌, ◌∷◌, [], length, true, Ok, IfErr, IfOk};
ghost use Rattle.pr_interpreter.specs.Faults.{FaultsAs, LeadsOn};
ghost use Rattle.pr_interpreter.specs.Reading.{at_end, front_code};
ghost use Rattle.pr_interpreter.specs.Statements.{bracketed, file_items, has_item, item, items, part};

use crate::fault::ProgramFault;
use crate::lexemes::Lexeme;
use crate::reading::{at_end, front_code, front_place, not_taken, put, value};
use crate::statements::{Item, Nodes, Part};
use pr_page::Sequence;
use std::alloc::Global;

/// The token of `TAB(`.
const TAB: u8 = 163;

/// The token of `SPC(`.
const SPC: u8 = 166;

/// Reads a value and the parenthesis after it.
#[tactic(auto, unfolding(crate::specs::Reading::and_then, crate::specs::Statements::bracketed))]
fn bracketed(alloc: Global, lexemes: &[Lexeme], end: usize) -> Result<(Nodes, usize), ProgramFault>
    ensures ok { IfOk result (λ r. bracketed end lexemes.now ≡ Ok r) }
    ensures err { IfErr result (λ fault. FaultsAs fault (bracketed end lexemes.now)) }
    ensures within { IfOk result (λ r. r.1 ≤ length lexemes.now) }
{
    let (value, size) = value(alloc, lexemes, end)?;
    let rest = &lexemes[size..];
    if front_code(rest) != b')' {
        return Err(not_taken(rest, end));
    }
    Ok((value, size + 1))
}

/// Reads a part of what is written.
#[tactic(auto, unfolding(crate::specs::Statements::part))]
fn part(alloc: Global, lexemes: &[Lexeme], end: usize) -> Result<(Part, usize), ProgramFault>
    ensures ok { IfOk result (λ r. part end lexemes.now ≡ Ok r) }
    ensures err { IfErr result (λ fault. FaultsAs fault (part end lexemes.now)) }
    ensures some { IfOk result (λ r. 0 < r.1) }
    ensures within { IfOk result (λ r. r.1 ≤ length lexemes.now) }
{
    match front_code(lexemes) {
        TAB => {
            let (value, size) = bracketed(alloc, &lexemes[1..], end)?;
            Ok((Part::Tab(value), 1 + size))
        }
        SPC => {
            let (value, size) = bracketed(alloc, &lexemes[1..], end)?;
            Ok((Part::Spaces(value), 1 + size))
        }
        b',' => Ok((Part::Comma, 1)),
        b';' => Ok((Part::Semicolon, 1)),
        _ => {
            let (value, size) = value(alloc, lexemes, end)?;
            Ok((Part::Value(value), size))
        }
    }
}

/// Reads a part of what is written, with its place.
#[tactic(auto, unfolding(crate::specs::Statements::item))]
fn item(alloc: Global, lexemes: &[Lexeme], end: usize) -> Result<(Item, usize), ProgramFault>
    ensures ok { IfOk result (λ r. item end lexemes.now ≡ Ok r) }
    ensures err { IfErr result (λ fault. FaultsAs fault (item end lexemes.now)) }
    ensures some { IfOk result (λ r. 0 < r.1) }
    ensures within { IfOk result (λ r. r.1 ≤ length lexemes.now) }
{
    let place = front_place(lexemes, end);
    let (part, size) = part(alloc, lexemes, end)?;
    Ok((Item { part, place }, size))
}

/// Returns whether there is a part: the statement has not ended.
fn has_item(lexemes: &[Lexeme]) -> bool
    ensures { result ≡ has_item lexemes.now }
{
    !at_end(lexemes)
}

/// Reads a part with its place, and adds it. Returns how many lexemes it has.
fn take_item(
    alloc: Global,
    found: &mut Vec<Item>,
    lexemes: &[Lexeme],
    end: usize,
) -> Result<usize, ProgramFault>
    requires { has_item lexemes.now ≡ true }
    ensures ok { IfOk result (λ n. LeadsOn has_item (item end) found.old.items found.new.items n lexemes.now) }
    ensures err { IfErr result (λ fault. FaultsAs fault (item end lexemes.now)) }
    ensures some { IfOk result (λ n. 0 < n) }
    ensures within { IfOk result (λ n. n ≤ length lexemes.now) }
{
    let (item, size) = item(alloc, lexemes, end)?;
    put(found, item)?;
    Ok(size)
}

/// Reads the parts of what is written, to the end of the statement.
#[tactic(auto, unfolding(crate::specs::Statements::items))]
pub fn items(
    alloc: Global,
    lexemes: &[Lexeme],
    end: usize,
) -> Result<(Sequence<Item>, usize), ProgramFault>
    ensures ok { IfOk result (λ r. items end lexemes.now ≡ Ok r) }
    ensures err { IfErr result (λ fault. FaultsAs fault (items end lexemes.now)) }
    ensures within { IfOk result (λ r. r.1 ≤ length lexemes.now) }
{
    let mut found = Vec::new(alloc);
    let mut passed = 0;
    'more: while has_item(&lexemes[passed..]) {
        match take_item(alloc, &mut found, &lexemes[passed..], end) {
            Ok(size) => passed += size,
            Err(fault) => return Err(fault),
        }
    }
    Ok((Sequence::from_vec(found), passed))
}

/// Reads what is written to a file, after its number.
#[tactic(auto, unfolding(crate::specs::Statements::file_items))]
pub fn file_items(
    alloc: Global,
    lexemes: &[Lexeme],
    end: usize,
) -> Result<(Sequence<Item>, usize), ProgramFault>
    ensures ok { IfOk result (λ r. file_items end lexemes.now ≡ Ok r) }
    ensures err { IfErr result (λ fault. FaultsAs fault (file_items end lexemes.now)) }
    ensures within { IfOk result (λ r. r.1 ≤ length lexemes.now) }
{
    if at_end(lexemes) {
        return Ok((Sequence::new(alloc), 0));
    }
    if front_code(lexemes) != b',' {
        return Err(not_taken(lexemes, end));
    }
    let (items, size) = items(alloc, &lexemes[1..], end)?;
    Ok((items, 1 + size))
}
