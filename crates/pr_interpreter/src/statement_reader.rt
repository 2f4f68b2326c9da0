//! Reads the statements of a line from its lexemes.

ghost use Rattle.std.specs.Prelude.{◌≡◌, ◌⊎◌, ◌+◌, ◌<◌, ◌≤◌, length, None, Ok, IfErr, IfOk, OnOk};
ghost use Rattle.std.specs.List.{prefix_len};
ghost use Rattle.pr_interpreter.specs.Faults.{FaultsAs, ReadsAs, Stands};
ghost use Rattle.pr_interpreter.specs.Reading.{after, after_value, front_code, front_place};
ghost use Rattle.pr_interpreter.specs.Statements.{alone, assigned, assignment, bare_statement, command, define_of, define_statement, define_value, ended, finished, flaw_after, flaw_of, for_from, for_statement, for_to, four_values, if_statement, is_not_taken, is_passed, is_remark, keyword_statement, leaves, line_size, line_statement, may_pass, next_of_line, next_statement, on_lines, on_statement, opens_more, output_statement, parameter, passed_size, placed, poke_statement, poke_value, print_file, read_or_flaw, statement, statements, step, then_part, variable, way_of};

use crate::fault::ProgramFault;
use crate::lexemes::{Lexeme, Word};
use crate::names::Name;
use crate::printed::{file_items, items};
use crate::reading::{
    EQUAL, at_end, front_code, front_line, front_place, line, no_statement, not_taken, parameter,
    put, value, value_after, value_then, values, variable,
};
use crate::statements::{Nodes, PlacedStatement, Statement, Target, Way};
use crate::targets::{line_after, line_list, target, targets};
use pr_page::Sequence;
use std::alloc::Global;

/// The token of GOTO.
const GOTO: u8 = 137;

/// The token of GOSUB.
const GOSUB: u8 = 141;

/// The token of TO.
const TO: u8 = 164;

/// The token of FN.
const FN: u8 = 165;

/// The token of THEN.
const THEN: u8 = 167;

/// The token of STEP.
const STEP: u8 = 169;

/// Reads what follows what takes a value.
#[tactic(auto, unfolding(crate::specs::Statements::assigned))]
fn assigned(
    alloc: Global,
    target: Target,
    lexemes: &[Lexeme],
    end: usize,
) -> Result<(Statement, usize), ProgramFault>
    ensures ok { IfOk result (λ r. assigned target end lexemes.now ≡ Ok r) }
    ensures err { IfErr result (λ fault. FaultsAs fault (assigned target end lexemes.now)) }
    ensures within { IfOk result (λ r. r.1 ≤ length lexemes.now) }
{
    if front_code(lexemes) == EQUAL {
        let (value, size) = value(alloc, &lexemes[1..], end)?;
        return Ok((Statement::Let { target, value }, 1 + size));
    }
    if target.indices.len() == 0 {
        return Err(no_statement(lexemes, end));
    }
    Err(not_taken(lexemes, end))
}

/// Reads an assignment.
#[tactic(auto, unfolding(crate::specs::Reading::and_then, crate::specs::Statements::assignment))]
fn assignment(
    alloc: Global,
    lexemes: &[Lexeme],
    end: usize,
) -> Result<(Statement, usize), ProgramFault>
    ensures ok { IfOk result (λ r. assignment end lexemes.now ≡ Ok r) }
    ensures err { IfErr result (λ fault. FaultsAs fault (assignment end lexemes.now)) }
    ensures some { IfOk result (λ r. 0 < r.1) }
    ensures within { IfOk result (λ r. r.1 ≤ length lexemes.now) }
{
    let (target, size) = target(alloc, lexemes, end)?;
    let (statement, more) = assigned(alloc, target, &lexemes[size..], end)?;
    Ok((statement, size + more))
}

/// Reads STEP and its value, or nothing.
#[tactic(auto, unfolding(crate::specs::Statements::step))]
fn step(
    alloc: Global,
    lexemes: &[Lexeme],
    end: usize,
) -> Result<(Option<Nodes>, usize), ProgramFault>
    ensures ok { IfOk result (λ r. step end lexemes.now ≡ Ok r) }
    ensures err { IfErr result (λ fault. FaultsAs fault (step end lexemes.now)) }
    ensures within { IfOk result (λ r. r.1 ≤ length lexemes.now) }
{
    if front_code(lexemes) != STEP {
        return Ok((None, 0));
    }
    let (value, size) = value_after(alloc, STEP, lexemes, end)?;
    Ok((Some(value), size))
}

/// Reads what follows the first value of FOR.
#[tactic(auto, unfolding(crate::specs::Reading::and_then, crate::specs::Statements::for_to))]
fn for_to(
    alloc: Global,
    variable: Name,
    from: Nodes,
    lexemes: &[Lexeme],
    end: usize,
) -> Result<(Statement, usize), ProgramFault>
    ensures ok { IfOk result (λ r. for_to variable from end lexemes.now ≡ Ok r) }
    ensures err { IfErr result (λ fault. FaultsAs fault (for_to variable from end lexemes.now)) }
    ensures within { IfOk result (λ r. r.1 ≤ length lexemes.now) }
{
    let (to, size) = value_then(alloc, TO, lexemes, end)?;
    let (step, more) = step(alloc, &lexemes[size..], end)?;
    let statement = Statement::For {
        variable,
        from,
        to,
        step,
    };
    Ok((statement, size + more))
}

/// Reads what follows the variable of FOR.
#[tactic(auto, unfolding(crate::specs::Reading::and_then, crate::specs::Statements::for_from))]
fn for_from(
    alloc: Global,
    variable: Name,
    lexemes: &[Lexeme],
    end: usize,
) -> Result<(Statement, usize), ProgramFault>
    ensures ok { IfOk result (λ r. for_from variable end lexemes.now ≡ Ok r) }
    ensures err { IfErr result (λ fault. FaultsAs fault (for_from variable end lexemes.now)) }
    ensures within { IfOk result (λ r. r.1 ≤ length lexemes.now) }
{
    let (from, size) = value_after(alloc, EQUAL, lexemes, end)?;
    let (statement, more) = for_to(alloc, variable, from, &lexemes[size..], end)?;
    Ok((statement, size + more))
}

/// Reads what follows FOR.
#[tactic(auto, unfolding(crate::specs::Reading::and_then, crate::specs::Statements::for_statement))]
fn for_statement(
    alloc: Global,
    lexemes: &[Lexeme],
    end: usize,
) -> Result<(Statement, usize), ProgramFault>
    ensures ok { IfOk result (λ r. for_statement end lexemes.now ≡ Ok r) }
    ensures err { IfErr result (λ fault. FaultsAs fault (for_statement end lexemes.now)) }
    ensures within { IfOk result (λ r. r.1 ≤ length lexemes.now) }
{
    let (name, size) = variable(lexemes, end)?;
    let (statement, more) = for_from(alloc, name, &lexemes[size..], end)?;
    Ok((statement, size + more))
}

/// Reads what follows NEXT.
#[tactic(auto, unfolding(crate::specs::Statements::next_statement))]
fn next_statement(
    alloc: Global,
    lexemes: &[Lexeme],
    end: usize,
) -> Result<(Statement, usize), ProgramFault>
    ensures ok { IfOk result (λ r. next_statement end lexemes.now ≡ Ok r) }
    ensures err { IfErr result (λ fault. FaultsAs fault (next_statement end lexemes.now)) }
    ensures within { IfOk result (λ r. r.1 ≤ length lexemes.now) }
{
    if at_end(lexemes) {
        let variables = Sequence::new(alloc);
        return Ok((Statement::Next { variables }, 0));
    }
    let (variables, size) = targets(alloc, lexemes, end)?;
    Ok((Statement::Next { variables }, size))
}

/// Reads what follows the variable of DEF FN.
#[tactic(auto, unfolding(crate::specs::Statements::define_value))]
fn define_value(
    alloc: Global,
    name: Name,
    variable: Name,
    lexemes: &[Lexeme],
    end: usize,
) -> Result<(Statement, usize), ProgramFault>
    ensures ok { IfOk result (λ r. define_value name variable end lexemes.now ≡ Ok r) }
    ensures err { IfErr result (λ fault. FaultsAs fault (define_value name variable end lexemes.now)) }
    ensures within { IfOk result (λ r. r.1 ≤ length lexemes.now) }
{
    if front_code(lexemes) != b')' {
        return Err(not_taken(lexemes, end));
    }
    let (value, size) = value_then(alloc, EQUAL, &lexemes[1..], end)?;
    let statement = Statement::Define {
        name,
        variable,
        value,
    };
    Ok((statement, 1 + size))
}

/// Reads the variable of a function, after its parenthesis.
fn parameter_after(lexemes: &[Lexeme], end: usize) -> Result<(Name, usize), ProgramFault>
    ensures ok { IfOk result (λ r. after_value 40 parameter end lexemes.now ≡ Ok r) }
    ensures err { IfErr result (λ fault. FaultsAs fault (after_value 40 parameter end lexemes.now)) }
    ensures within { IfOk result (λ r. r.1 ≤ length lexemes.now) }
{
    if front_code(lexemes) != b'(' {
        return Err(not_taken(lexemes, end));
    }
    let (name, size) = parameter(&lexemes[1..], end)?;
    Ok((name, 1 + size))
}

/// Reads what follows the name of a function that DEF FN defines.
#[tactic(auto, unfolding(crate::specs::Reading::and_then, crate::specs::Statements::define_of))]
fn define_of(
    alloc: Global,
    name: Name,
    lexemes: &[Lexeme],
    end: usize,
) -> Result<(Statement, usize), ProgramFault>
    ensures ok { IfOk result (λ r. define_of name end lexemes.now ≡ Ok r) }
    ensures err { IfErr result (λ fault. FaultsAs fault (define_of name end lexemes.now)) }
    ensures within { IfOk result (λ r. r.1 ≤ length lexemes.now) }
{
    let (variable, size) = parameter_after(lexemes, end)?;
    let (statement, more) = define_value(alloc, name, variable, &lexemes[size..], end)?;
    Ok((statement, size + more))
}

/// Reads the name of a function after FN.
fn function_name(lexemes: &[Lexeme], end: usize) -> Result<(Name, usize), ProgramFault>
    ensures ok { IfOk result (λ r. after 165 variable end lexemes.now ≡ Ok r) }
    ensures err { IfErr result (λ fault. FaultsAs fault (after 165 variable end lexemes.now)) }
    ensures within { IfOk result (λ r. r.1 ≤ length lexemes.now) }
{
    if front_code(lexemes) != FN {
        return Err(no_statement(lexemes, end));
    }
    let (name, size) = variable(&lexemes[1..], end)?;
    Ok((name, 1 + size))
}

/// Reads what follows DEF.
#[tactic(auto, unfolding(crate::specs::Reading::and_then, crate::specs::Statements::define_statement))]
fn define_statement(
    alloc: Global,
    lexemes: &[Lexeme],
    end: usize,
) -> Result<(Statement, usize), ProgramFault>
    ensures ok { IfOk result (λ r. define_statement end lexemes.now ≡ Ok r) }
    ensures err { IfErr result (λ fault. FaultsAs fault (define_statement end lexemes.now)) }
    ensures within { IfOk result (λ r. r.1 ≤ length lexemes.now) }
{
    let (name, size) = function_name(lexemes, end)?;
    let (statement, more) = define_of(alloc, name, &lexemes[size..], end)?;
    Ok((statement, size + more))
}

/// Returns how many lexemes a line number has, if there is one.
fn line_size(line: Option<u16>) -> usize
    ensures { result ≡ line_size line }
{
    match line {
        Some(_) => 1,
        None => 0,
    }
}

/// Reads what follows the condition of IF.
#[tactic(auto, unfolding(crate::specs::Statements::then_part))]
fn then_part(
    condition: Nodes,
    lexemes: &[Lexeme],
    end: usize,
) -> Result<(Statement, usize), ProgramFault>
    ensures ok { IfOk result (λ r. then_part condition end lexemes.now ≡ Ok r) }
    ensures err { IfErr result (λ fault. FaultsAs fault (then_part condition end lexemes.now)) }
    ensures within { IfOk result (λ r. r.1 ≤ length lexemes.now) }
{
    match front_code(lexemes) {
        GOTO => Ok((
            Statement::If {
                condition,
                line: None,
            },
            0,
        )),
        THEN => {
            let line = front_line(&lexemes[1..]);
            Ok((Statement::If { condition, line }, 1 + line_size(line)))
        }
        _ => Err(not_taken(lexemes, end)),
    }
}

/// Reads what follows IF.
#[tactic(auto, unfolding(crate::specs::Reading::and_then, crate::specs::Statements::if_statement))]
fn if_statement(
    alloc: Global,
    lexemes: &[Lexeme],
    end: usize,
) -> Result<(Statement, usize), ProgramFault>
    ensures ok { IfOk result (λ r. if_statement end lexemes.now ≡ Ok r) }
    ensures err { IfErr result (λ fault. FaultsAs fault (if_statement end lexemes.now)) }
    ensures within { IfOk result (λ r. r.1 ≤ length lexemes.now) }
{
    let (condition, size) = value(alloc, lexemes, end)?;
    let (statement, more) = then_part(condition, &lexemes[size..], end)?;
    Ok((statement, size + more))
}

/// Returns the way in which a keyword goes to a line.
fn way_of(code: u8) -> Option<Way>
    ensures { result ≡ way_of code }
{
    match code {
        GOTO => Some(Way::Goto),
        GOSUB => Some(Way::Gosub),
        _ => None,
    }
}

/// Reads what follows the value of ON.
#[tactic(auto, unfolding(crate::specs::Statements::on_lines))]
fn on_lines(
    alloc: Global,
    choice: Nodes,
    lexemes: &[Lexeme],
    end: usize,
) -> Result<(Statement, usize), ProgramFault>
    ensures ok { IfOk result (λ r. on_lines choice end lexemes.now ≡ Ok r) }
    ensures err { IfErr result (λ fault. FaultsAs fault (on_lines choice end lexemes.now)) }
    ensures within { IfOk result (λ r. r.1 ≤ length lexemes.now) }
{
    let code = front_code(lexemes);
    match way_of(code) {
        Some(way) => {
            let (lines, size) = line_list(alloc, &lexemes[1..], end)?;
            Ok((Statement::On { choice, way, lines }, 1 + size))
        }
        None => Err(not_taken(lexemes, end)),
    }
}

/// Reads what follows ON.
#[tactic(auto, unfolding(crate::specs::Reading::and_then, crate::specs::Statements::on_statement))]
fn on_statement(
    alloc: Global,
    lexemes: &[Lexeme],
    end: usize,
) -> Result<(Statement, usize), ProgramFault>
    ensures ok { IfOk result (λ r. on_statement end lexemes.now ≡ Ok r) }
    ensures err { IfErr result (λ fault. FaultsAs fault (on_statement end lexemes.now)) }
    ensures within { IfOk result (λ r. r.1 ≤ length lexemes.now) }
{
    let (choice, size) = value(alloc, lexemes, end)?;
    let (statement, more) = on_lines(alloc, choice, &lexemes[size..], end)?;
    Ok((statement, size + more))
}

/// Reads what follows PRINT#.
#[tactic(auto, unfolding(crate::specs::Reading::and_then, crate::specs::Statements::print_file))]
fn print_file(
    alloc: Global,
    lexemes: &[Lexeme],
    end: usize,
) -> Result<(Statement, usize), ProgramFault>
    ensures ok { IfOk result (λ r. print_file end lexemes.now ≡ Ok r) }
    ensures err { IfErr result (λ fault. FaultsAs fault (print_file end lexemes.now)) }
    ensures within { IfOk result (λ r. r.1 ≤ length lexemes.now) }
{
    let (file, size) = value(alloc, lexemes, end)?;
    let (items, more) = file_items(alloc, &lexemes[size..], end)?;
    Ok((Statement::PrintFile { file, items }, size + more))
}

/// Reads what follows CMD.
#[tactic(auto, unfolding(crate::specs::Reading::and_then, crate::specs::Statements::command))]
fn command(
    alloc: Global,
    lexemes: &[Lexeme],
    end: usize,
) -> Result<(Statement, usize), ProgramFault>
    ensures ok { IfOk result (λ r. command end lexemes.now ≡ Ok r) }
    ensures err { IfErr result (λ fault. FaultsAs fault (command end lexemes.now)) }
    ensures within { IfOk result (λ r. r.1 ≤ length lexemes.now) }
{
    let (file, size) = value(alloc, lexemes, end)?;
    let (items, more) = file_items(alloc, &lexemes[size..], end)?;
    Ok((Statement::Command { file, items }, size + more))
}

/// Reads one to four values, and nothing after them.
#[tactic(auto, unfolding(crate::specs::Reading::and_then, crate::specs::Statements::four_values))]
fn four_values(
    alloc: Global,
    lexemes: &[Lexeme],
    end: usize,
) -> Result<(Sequence<Nodes>, usize), ProgramFault>
    ensures ok { IfOk result (λ r. four_values end lexemes.now ≡ Ok r) }
    ensures err { IfErr result (λ fault. FaultsAs fault (four_values end lexemes.now)) }
    ensures within { IfOk result (λ r. r.1 ≤ length lexemes.now) }
{
    let (values, size) = values(alloc, lexemes, end)?;
    let rest = &lexemes[size..];
    if values.len() <= 4 && at_end(rest) {
        return Ok((values, size));
    }
    Err(not_taken(rest, end))
}

/// Reads what follows the address of POKE.
#[tactic(auto, unfolding(crate::specs::Statements::poke_value))]
fn poke_value(
    alloc: Global,
    address: Nodes,
    lexemes: &[Lexeme],
    end: usize,
) -> Result<(Statement, usize), ProgramFault>
    ensures ok { IfOk result (λ r. poke_value address end lexemes.now ≡ Ok r) }
    ensures err { IfErr result (λ fault. FaultsAs fault (poke_value address end lexemes.now)) }
    ensures within { IfOk result (λ r. r.1 ≤ length lexemes.now) }
{
    let (value, size) = value_then(alloc, b',', lexemes, end)?;
    Ok((Statement::Poke { address, value }, size))
}

/// Reads what follows POKE.
#[tactic(auto, unfolding(crate::specs::Reading::and_then, crate::specs::Statements::poke_statement))]
fn poke_statement(
    alloc: Global,
    lexemes: &[Lexeme],
    end: usize,
) -> Result<(Statement, usize), ProgramFault>
    ensures ok { IfOk result (λ r. poke_statement end lexemes.now ≡ Ok r) }
    ensures err { IfErr result (λ fault. FaultsAs fault (poke_statement end lexemes.now)) }
    ensures within { IfOk result (λ r. r.1 ≤ length lexemes.now) }
{
    let (address, size) = value(alloc, lexemes, end)?;
    let (statement, more) = poke_value(alloc, address, &lexemes[size..], end)?;
    Ok((statement, size + more))
}

/// Returns whether a keyword begins a statement that a run does not take.
fn is_not_taken(code: u8) -> bool
    ensures { result ≡ is_not_taken code }
{
    code == 0
        || code == 132
        || code == 133
        || code == 138
        || 146 <= code && code <= 149
        || code == 154
        || code == 155
        || code == 158
        || code == 161
        || code == 162
}

/// Reads the end of a statement that has nothing after its keyword.
fn alone(
    statement: Statement,
    lexemes: &[Lexeme],
    end: usize,
) -> Result<(Statement, usize), ProgramFault>
    ensures { result ≡ alone statement end lexemes.now }
{
    if !at_end(lexemes) {
        return Err(no_statement(lexemes, end));
    }
    Ok((statement, 0))
}

/// Reads what follows a keyword at a place that needs nothing after it.
#[tactic(auto, unfolding(crate::specs::Statements::bare_statement))]
fn bare_statement(
    place: usize,
    code: u8,
    lexemes: &[Lexeme],
    end: usize,
) -> Result<(Statement, usize), ProgramFault>
    ensures value { result ≡ bare_statement place code end lexemes.now }
    ensures within { IfOk result (λ r. r.1 ≤ length lexemes.now) }
{
    match code {
        128 => alone(Statement::End, lexemes, end),
        140 => Ok((Statement::Restore, 0)),
        142 => alone(Statement::Return, lexemes, end),
        144 => alone(Statement::Stop, lexemes, end),
        156 => alone(Statement::Clear, lexemes, end),
        _ if is_not_taken(code) => Err(ProgramFault::NotTaken(place)),
        _ => Err(ProgramFault::NoStatement(place)),
    }
}

/// Reads what follows a keyword at a place: of output, or of those that need nothing.
#[tactic(auto, unfolding(crate::specs::Statements::output_statement))]
fn output_statement(
    alloc: Global,
    place: usize,
    code: u8,
    lexemes: &[Lexeme],
    end: usize,
) -> Result<(Statement, usize), ProgramFault>
    ensures ok { IfOk result (λ r. output_statement place code end lexemes.now ≡ Ok r) }
    ensures err { IfErr result (λ fault. FaultsAs fault (output_statement place code end lexemes.now)) }
    ensures within { IfOk result (λ r. r.1 ≤ length lexemes.now) }
{
    match code {
        153 => {
            let (items, size) = items(alloc, lexemes, end)?;
            Ok((Statement::Print { items }, size))
        }
        152 => print_file(alloc, lexemes, end),
        157 => command(alloc, lexemes, end),
        159 => {
            let (values, size) = four_values(alloc, lexemes, end)?;
            Ok((Statement::Open { values }, size))
        }
        160 => {
            let (values, size) = four_values(alloc, lexemes, end)?;
            Ok((Statement::Close { values }, size))
        }
        151 => poke_statement(alloc, lexemes, end),
        _ => bare_statement(place, code, lexemes, end),
    }
}

/// Reads what follows a keyword at a place: of statements with line numbers, or others.
#[tactic(auto, unfolding(crate::specs::Statements::line_statement))]
fn line_statement(
    alloc: Global,
    place: usize,
    code: u8,
    lexemes: &[Lexeme],
    end: usize,
) -> Result<(Statement, usize), ProgramFault>
    ensures ok { IfOk result (λ r. line_statement place code end lexemes.now ≡ Ok r) }
    ensures err { IfErr result (λ fault. FaultsAs fault (line_statement place code end lexemes.now)) }
    ensures within { IfOk result (λ r. r.1 ≤ length lexemes.now) }
{
    match code {
        GOTO => {
            let (line, size) = line(lexemes, end)?;
            let way = Way::Goto;
            Ok((Statement::Go { way, line }, size))
        }
        GOSUB => {
            let (line, size) = line(lexemes, end)?;
            let way = Way::Gosub;
            Ok((Statement::Go { way, line }, size))
        }
        203 => {
            let (line, size) = line_after(TO, lexemes, end)?;
            let way = Way::Goto;
            Ok((Statement::Go { way, line }, size))
        }
        139 => if_statement(alloc, lexemes, end),
        145 => on_statement(alloc, lexemes, end),
        _ => output_statement(alloc, place, code, lexemes, end),
    }
}

/// Reads what follows a keyword at a place.
#[tactic(auto, unfolding(crate::specs::Statements::keyword_statement))]
fn keyword_statement(
    alloc: Global,
    place: usize,
    code: u8,
    lexemes: &[Lexeme],
    end: usize,
) -> Result<(Statement, usize), ProgramFault>
    ensures ok { IfOk result (λ r. keyword_statement place code end lexemes.now ≡ Ok r) }
    ensures err { IfErr result (λ fault. FaultsAs fault (keyword_statement place code end lexemes.now)) }
    ensures within { IfOk result (λ r. r.1 ≤ length lexemes.now) }
{
    match code {
        136 => assignment(alloc, lexemes, end),
        129 => for_statement(alloc, lexemes, end),
        130 => next_statement(alloc, lexemes, end),
        134 => {
            let (arrays, size) = targets(alloc, lexemes, end)?;
            Ok((Statement::Dim { arrays }, size))
        }
        135 => {
            let (targets, size) = targets(alloc, lexemes, end)?;
            Ok((Statement::Read { targets }, size))
        }
        150 => define_statement(alloc, lexemes, end),
        _ => line_statement(alloc, place, code, lexemes, end),
    }
}

/// Reads a statement by its first lexeme.
#[tactic(auto, unfolding(crate::specs::Statements::statement))]
fn statement(
    alloc: Global,
    lexemes: &[Lexeme],
    end: usize,
) -> Result<(Statement, usize), ProgramFault>
    ensures ok { IfOk result (λ r. statement end lexemes.now ≡ Ok r) }
    ensures err { IfErr result (λ fault. FaultsAs fault (statement end lexemes.now)) }
    ensures some { IfOk result (λ r. 0 < r.1) }
    ensures within { IfOk result (λ r. r.1 ≤ length lexemes.now) }
{
    let [first, rest @ ..] = lexemes else {
        return Err(ProgramFault::NoStatement(end));
    };
    match first.word {
        Word::Named(_) => assignment(alloc, lexemes, end),
        Word::Code(code) => {
            let (statement, size) = keyword_statement(alloc, first.place, code, rest, end)?;
            Ok((statement, 1 + size))
        }
        Word::Items { .. } => Ok((Statement::Nothing, 1)),
        Word::Remark => Ok((Statement::Nothing, 1)),
        Word::Constant(_) => Err(ProgramFault::NotTaken(first.place)),
        Word::Comparison(_) => Err(ProgramFault::NoStatement(first.place)),
        Word::Text { .. } => Err(ProgramFault::NoStatement(first.place)),
    }
}

/// Returns whether other statements follow without a colon.
fn opens_more(statement: &Statement) -> bool
    ensures { result ≡ opens_more statement.now }
{
    match statement {
        Statement::If { line: None, .. } => true,
        _ => false,
    }
}

/// Returns whether a line is gone to, and the machine passes what follows its number.
fn leaves(statement: &Statement) -> bool
    ensures { result ≡ leaves statement.now }
{
    match statement {
        Statement::Go { .. } | Statement::If { line: Some(_), .. } => true,
        _ => false,
    }
}

/// Returns whether the machine passes a lexeme after a line number: all up to a colon, which may be in a remark.
fn is_passed(lexeme: Lexeme) -> bool
    ensures { result ≡ is_passed lexeme }
{
    match lexeme.word {
        Word::Remark => false,
        Word::Code(code) => code != b':',
        _ => true,
    }
}

/// Returns how many lexemes after a statement the machine passes.
fn passed_size(statement: &Statement, lexemes: &[Lexeme]) -> usize
    ensures value { result ≡ passed_size statement.now lexemes.now }
    ensures within { result ≤ length lexemes.now }
{
    if leaves(statement) {
        front_size(lexemes)
    } else {
        0
    }
}

/// Returns how many lexemes at the front the machine passes after a line number.
fn front_size(lexemes: &[Lexeme]) -> usize
    ensures value { result ≡ prefix_len is_passed lexemes.now }
    ensures within { result ≤ length lexemes.now }
{
    for (i, lexeme) in lexemes.iter().enumerate() {
        if !is_passed(*lexeme) {
            return i;
        }
    }
    lexemes.len()
}

/// Returns whether the machine may pass what follows a statement.
fn may_pass(statement: &Statement) -> bool
    ensures { result ≡ may_pass statement.now }
{
    match statement {
        Statement::Go { .. }
        | Statement::If { .. }
        | Statement::On { .. }
        | Statement::Define { .. } => true,
        _ => false,
    }
}

/// Returns what a run comes to after a statement that ends neither with a colon nor with its line.
fn flaw_after(statement: &Statement) -> Statement
    ensures { result ≡ flaw_after statement.now }
{
    if may_pass(statement) {
        Statement::NotTaken
    } else {
        Statement::NoStatement
    }
}

/// Adds a statement with what follows it, if that is no statement. Returns how many lexemes its end has.
#[tactic(auto, unfolding(crate::specs::Statements::ended))]
fn put_ended(
    found: &mut Vec<PlacedStatement>,
    placed: PlacedStatement,
    lexemes: &[Lexeme],
    end: usize,
) -> Result<usize, ProgramFault>
    ensures ok { IfOk result (λ n. ReadsAs found.old.items found.new.items n (Ok (ended placed end lexemes.now))) }
    ensures err { IfErr result (λ fault. fault ≡ ProgramFault.OutOfMemory) }
    ensures within { IfOk result (λ n. n ≤ length lexemes.now) }
{
    let opens = opens_more(&placed.statement);
    let statement = flaw_after(&placed.statement);
    put(found, placed)?;
    if opens {
        return Ok(0);
    }
    if front_code(lexemes) == b':' {
        return Ok(1);
    }
    if at_end(lexemes) {
        return Ok(0);
    }
    let place = front_place(lexemes, end);
    put(found, PlacedStatement { statement, place })?;
    Ok(lexemes.len())
}

/// Adds a statement with what follows it, after what the machine passes. Returns how many lexemes all that has.
#[tactic(auto, unfolding(crate::specs::Statements::finished))]
fn put_finished(
    found: &mut Vec<PlacedStatement>,
    placed: PlacedStatement,
    lexemes: &[Lexeme],
    end: usize,
) -> Result<usize, ProgramFault>
    ensures ok { IfOk result (λ n. ReadsAs found.old.items found.new.items n (Ok (finished placed end lexemes.now))) }
    ensures err { IfErr result (λ fault. fault ≡ ProgramFault.OutOfMemory) }
    ensures within { IfOk result (λ n. n ≤ length lexemes.now) }
{
    let passed = passed_size(&placed.statement, lexemes);
    let size = put_ended(found, placed, &lexemes[passed..], end)?;
    Ok(passed + size)
}

/// Returns what a run comes to in place of a statement that cannot be read, if the program has one.
fn flaw_of(fault: ProgramFault) -> Option<PlacedStatement>
    ensures { result ≡ flaw_of fault }
{
    match fault {
        ProgramFault::NoStatement(place) => {
            let statement = Statement::NoStatement;
            Some(PlacedStatement { statement, place })
        }
        ProgramFault::NotTaken(place) => {
            let statement = Statement::NotTaken;
            Some(PlacedStatement { statement, place })
        }
        _ => None,
    }
}

/// Adds what a run comes to in place of a statement that cannot be read, if the program has one.
fn put_flaw(found: &mut Vec<PlacedStatement>, fault: ProgramFault) -> Result<(), ProgramFault>
    ensures ok { OnOk result (Stands found.old.items found.new.items fault) }
    ensures err { IfErr result (λ e. (e ≡ ProgramFault.OutOfMemory) ⊎ ((flaw_of fault ≡ None) × (e ≡ fault))) }
{
    match flaw_of(fault) {
        Some(flaw) => put(found, flaw),
        None => Err(fault),
    }
}

/// Reads a statement and what ends it, and adds it. Returns how many lexemes it has.
fn take_statement(
    alloc: Global,
    found: &mut Vec<PlacedStatement>,
    lexemes: &[Lexeme],
    end: usize,
) -> Result<usize, ProgramFault>
    requires { 0 < length lexemes.now }
    ensures ok { IfOk result (λ n. ReadsAs found.old.items found.new.items n (read_or_flaw (statement end lexemes.now) end lexemes.now)) }
    ensures err { IfErr result (λ fault. FaultsAs fault (read_or_flaw (statement end lexemes.now) end lexemes.now)) }
    ensures some { IfOk result (λ n. 0 < n) }
    ensures within { IfOk result (λ n. n ≤ length lexemes.now) }
{
    match statement(alloc, lexemes, end) {
        Ok((statement, size)) => {
            let place = front_place(lexemes, end);
            let placed = PlacedStatement { statement, place };
            let more = put_finished(found, placed, &lexemes[size..], end)?;
            Ok(size + more)
        }
        Err(fault) => {
            put_flaw(found, fault)?;
            Ok(lexemes.len())
        }
    }
}

/// Reads the statement at the front and what ends it, or a colon, and adds it. Returns how many lexemes it has.
#[tactic(auto, unfolding(crate::specs::Statements::next_of_line))]
fn take_next(
    alloc: Global,
    found: &mut Vec<PlacedStatement>,
    lexemes: &[Lexeme],
    end: usize,
) -> Result<usize, ProgramFault>
    requires { 0 < length lexemes.now }
    ensures ok { IfOk result (λ n. ReadsAs found.old.items found.new.items n (next_of_line end lexemes.now)) }
    ensures err { IfErr result (λ fault. FaultsAs fault (next_of_line end lexemes.now)) }
    ensures some { IfOk result (λ n. 0 < n) }
    ensures within { IfOk result (λ n. n ≤ length lexemes.now) }
{
    if front_code(lexemes) != b':' {
        return take_statement(alloc, found, lexemes, end);
    }
    let statement = Statement::Nothing;
    let place = front_place(lexemes, end);
    put(found, PlacedStatement { statement, place })?;
    Ok(1)
}

/// Reads the statements of a line that ends at a place, each with its place. What is no statement, or what a run does
/// not take, is the last of them.
///
/// # Errors
///
/// The first place that no expression can have; or that memory ran out.
pub fn read_statements(
    alloc: Global,
    lexemes: &[Lexeme],
    end: usize,
) -> Result<Sequence<PlacedStatement>, ProgramFault>
    ensures ok { IfOk result (λ found. statements end lexemes.now ≡ Ok found) }
    ensures err { IfErr result (λ fault. FaultsAs fault (statements end lexemes.now)) }
{
    let mut found = Vec::new(alloc);
    let mut passed = 0;
    'more: while passed < lexemes.len() {
        match take_next(alloc, &mut found, &lexemes[passed..], end) {
            Ok(size) => passed += size,
            Err(fault) => return Err(fault),
        }
    }
    Ok(Sequence::from_vec(found))
}
