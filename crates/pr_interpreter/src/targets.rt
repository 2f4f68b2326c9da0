//! Reads variables, elements of arrays and line numbers, and lists of them.

ghost use Rattle.std.specs.Prelude.{◌≡◌, ◌+◌, ◌<◌, ◌≤◌, ◌∷◌, [], length, Ok, IfErr, IfOk};
ghost use Rattle.pr_interpreter.specs.Faults.{FaultsAs, LeadsOn};
ghost use Rattle.pr_interpreter.specs.Reading.{after, begins_comma, front_code, list_of, others_of};
ghost use Rattle.pr_interpreter.specs.Statements.{element, further_target, indexed, line, target, targets};

use crate::fault::ProgramFault;
use crate::lexemes::Lexeme;
use crate::names::Name;
use crate::reading::{
    front_code, front_name, front_place, line, no_statement, not_taken, put, values, variable,
};
use crate::statements::Target;
use pr_page::Sequence;
use std::alloc::Global;

/// Reads the indices of an element whose name is at a place, and the parenthesis after them.
#[tactic(auto, unfolding(crate::specs::Reading::and_then, crate::specs::Statements::element))]
fn element(
    alloc: Global,
    name: Name,
    place: usize,
    lexemes: &[Lexeme],
    end: usize,
) -> Result<(Target, usize), ProgramFault>
    ensures ok { IfOk result (λ r. element name place end lexemes.now ≡ Ok r) }
    ensures err { IfErr result (λ fault. FaultsAs fault (element name place end lexemes.now)) }
    ensures within { IfOk result (λ r. r.1 ≤ length lexemes.now) }
{
    let (indices, size) = values(alloc, lexemes, end)?;
    let rest = &lexemes[size..];
    if front_code(rest) != b')' {
        return Err(not_taken(rest, end));
    }
    let target = Target {
        name,
        place,
        indices,
    };
    Ok((target, size + 1))
}

/// Reads what follows a name at a place: a parenthesis opens the indices of an element.
#[tactic(auto, unfolding(crate::specs::Statements::indexed))]
fn indexed(
    alloc: Global,
    name: Name,
    place: usize,
    lexemes: &[Lexeme],
    end: usize,
) -> Result<(Target, usize), ProgramFault>
    ensures ok { IfOk result (λ r. indexed name place end lexemes.now ≡ Ok r) }
    ensures err { IfErr result (λ fault. FaultsAs fault (indexed name place end lexemes.now)) }
    ensures within { IfOk result (λ r. r.1 ≤ length lexemes.now) }
{
    if front_code(lexemes) != b'(' {
        let target = Target {
            name,
            place,
            indices: Sequence::new(alloc),
        };
        return Ok((target, 0));
    }
    let (target, size) = element(alloc, name, place, &lexemes[1..], end)?;
    Ok((target, 1 + size))
}

/// Reads a variable or an element of an array.
#[tactic(auto, unfolding(crate::specs::Reading::and_then, crate::specs::Statements::target))]
pub fn target(
    alloc: Global,
    lexemes: &[Lexeme],
    end: usize,
) -> Result<(Target, usize), ProgramFault>
    ensures ok { IfOk result (λ r. target end lexemes.now ≡ Ok r) }
    ensures err { IfErr result (λ fault. FaultsAs fault (target end lexemes.now)) }
    ensures some { IfOk result (λ r. 0 < r.1) }
    ensures within { IfOk result (λ r. r.1 ≤ length lexemes.now) }
{
    let (name, size) = variable(lexemes, end)?;
    let place = front_place(lexemes, end);
    let (target, more) = indexed(alloc, name, place, &lexemes[size..], end)?;
    Ok((target, size + more))
}

/// Reads a target that is not the first of several.
#[tactic(auto, unfolding(crate::specs::Statements::further_target))]
fn further_target(
    alloc: Global,
    lexemes: &[Lexeme],
    end: usize,
) -> Result<(Target, usize), ProgramFault>
    ensures ok { IfOk result (λ r. further_target end lexemes.now ≡ Ok r) }
    ensures err { IfErr result (λ fault. FaultsAs fault (further_target end lexemes.now)) }
    ensures within { IfOk result (λ r. r.1 ≤ length lexemes.now) }
{
    if front_name(lexemes).is_none() {
        return Err(not_taken(lexemes, end));
    }
    target(alloc, lexemes, end)
}

/// Reads a target after a comma.
fn target_after(
    alloc: Global,
    lexemes: &[Lexeme],
    end: usize,
) -> Result<(Target, usize), ProgramFault>
    ensures ok { IfOk result (λ r. after 44 further_target end lexemes.now ≡ Ok r) }
    ensures err { IfErr result (λ fault. FaultsAs fault (after 44 further_target end lexemes.now)) }
    ensures some { IfOk result (λ r. 0 < r.1) }
    ensures within { IfOk result (λ r. r.1 ≤ length lexemes.now) }
{
    if front_code(lexemes) != b',' {
        return Err(no_statement(lexemes, end));
    }
    let (target, size) = further_target(alloc, &lexemes[1..], end)?;
    Ok((target, 1 + size))
}

/// Reads a target after a comma. Returns how many lexemes both have.
fn take_target(
    alloc: Global,
    found: &mut Vec<Target>,
    lexemes: &[Lexeme],
    end: usize,
) -> Result<usize, ProgramFault>
    requires { front_code lexemes.now ≡ 44 }
    ensures ok { IfOk result (λ n. LeadsOn begins_comma (after 44 further_target end) found.old.items found.new.items n lexemes.now) }
    ensures err { IfErr result (λ fault. FaultsAs fault (after 44 further_target end lexemes.now)) }
    ensures some { IfOk result (λ n. 0 < n) }
    ensures within { IfOk result (λ n. n ≤ length lexemes.now) }
{
    let (target, size) = target_after(alloc, lexemes, end)?;
    put(found, target)?;
    Ok(size)
}

/// Reads further targets, each after a comma. Returns how many lexemes they have.
fn more_targets(
    alloc: Global,
    found: &mut Vec<Target>,
    lexemes: &[Lexeme],
    end: usize,
) -> Result<usize, ProgramFault>
    ensures ok { IfOk result (λ n. others_of further_target found.old.items end lexemes.now ≡ Ok (found.new.items, n)) }
    ensures err { IfErr result (λ fault. FaultsAs fault (others_of further_target found.old.items end lexemes.now)) }
    ensures within { IfOk result (λ n. n ≤ length lexemes.now) }
{
    let mut passed = 0;
    'more: while front_code(&lexemes[passed..]) == b',' {
        match take_target(alloc, found, &lexemes[passed..], end) {
            Ok(size) => passed += size,
            Err(fault) => return Err(fault),
        }
    }
    Ok(passed)
}

/// Reads one or several targets, separated by commas.
#[tactic(auto, unfolding(crate::specs::Reading::and_then))]
pub fn targets(
    alloc: Global,
    lexemes: &[Lexeme],
    end: usize,
) -> Result<(Sequence<Target>, usize), ProgramFault>
    ensures ok { IfOk result (λ r. targets end lexemes.now ≡ Ok r) }
    ensures err { IfErr result (λ fault. FaultsAs fault (targets end lexemes.now)) }
    ensures some { IfOk result (λ r. 0 < r.1) }
    ensures within { IfOk result (λ r. r.1 ≤ length lexemes.now) }
{
    let (first, size) = target(alloc, lexemes, end)?;
    let mut found = Vec::new(alloc);
    put(&mut found, first)?;
    match more_targets(alloc, &mut found, &lexemes[size..], end) {
        Ok(more) => Ok((Sequence::from_vec(found), size + more)),
        Err(fault) => Err(fault),
    }
}

/// Reads a line number after a code.
pub fn line_after(code: u8, lexemes: &[Lexeme], end: usize) -> Result<(u16, usize), ProgramFault>
    requires { 0 < code }
    ensures ok { IfOk result (λ r. after code line end lexemes.now ≡ Ok r) }
    ensures err { IfErr result (λ fault. FaultsAs fault (after code line end lexemes.now)) }
    ensures some { IfOk result (λ r. 0 < r.1) }
    ensures within { IfOk result (λ r. r.1 ≤ length lexemes.now) }
{
    if front_code(lexemes) != code {
        return Err(no_statement(lexemes, end));
    }
    let (number, size) = line(&lexemes[1..], end)?;
    Ok((number, 1 + size))
}

/// Reads a line number after a comma. Returns how many lexemes both have.
fn take_line(found: &mut Vec<u16>, lexemes: &[Lexeme], end: usize) -> Result<usize, ProgramFault>
    requires { front_code lexemes.now ≡ 44 }
    ensures ok { IfOk result (λ n. LeadsOn begins_comma (after 44 line end) found.old.items found.new.items n lexemes.now) }
    ensures err { IfErr result (λ fault. FaultsAs fault (after 44 line end lexemes.now)) }
    ensures some { IfOk result (λ n. 0 < n) }
    ensures within { IfOk result (λ n. n ≤ length lexemes.now) }
{
    let (line, size) = line_after(b',', lexemes, end)?;
    put(found, line)?;
    Ok(size)
}

/// Reads further line numbers, each after a comma. Returns how many lexemes they have.
fn more_lines(found: &mut Vec<u16>, lexemes: &[Lexeme], end: usize) -> Result<usize, ProgramFault>
    ensures ok { IfOk result (λ n. others_of line found.old.items end lexemes.now ≡ Ok (found.new.items, n)) }
    ensures err { IfErr result (λ fault. FaultsAs fault (others_of line found.old.items end lexemes.now)) }
    ensures within { IfOk result (λ n. n ≤ length lexemes.now) }
{
    let mut passed = 0;
    'more: while front_code(&lexemes[passed..]) == b',' {
        match take_line(found, &lexemes[passed..], end) {
            Ok(size) => passed += size,
            Err(fault) => return Err(fault),
        }
    }
    Ok(passed)
}

/// Reads one or several line numbers, separated by commas.
#[tactic(auto, unfolding(crate::specs::Reading::and_then))]
pub fn line_list(
    alloc: Global,
    lexemes: &[Lexeme],
    end: usize,
) -> Result<(Sequence<u16>, usize), ProgramFault>
    ensures ok { IfOk result (λ r. list_of line end lexemes.now ≡ Ok r) }
    ensures err { IfErr result (λ fault. FaultsAs fault (list_of line end lexemes.now)) }
    ensures within { IfOk result (λ r. r.1 ≤ length lexemes.now) }
{
    let (first, size) = line(lexemes, end)?;
    let mut found = Vec::new(alloc);
    put(&mut found, first)?;
    let more = more_lines(&mut found, &lexemes[size..], end)?;
    Ok((Sequence::from_vec(found), size + more))
}
