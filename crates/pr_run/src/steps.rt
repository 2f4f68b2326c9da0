//! One step of a run.

ghost use Rattle.std.specs.Prelude.{◌≡◌, ◌<◌, ◌-◌, ◌^◌, IfErr, IfOk, OnOk, Ok};
ghost use Rattle.std.specs.List.{position_or_len};
ghost use Rattle.pr_interpreter.specs.Memory.{same_name};
ghost use Rattle.pr_run.specs.Seen.{EndsAs, TurnEndsAs, ended, nothing, output_done, state_of, turned};
ghost use Rattle.pr_run.specs.Steps.{changed, define_error, define_statement, is_harmless, kind_error, poke_skipped};
ghost use Rattle.pr_run.specs.Steps.{poke_statement, step, turn, with_function};
ghost use Rattle.pr_run.specs.Uses.{line_at, statement_place};

use crate::assignments::{clear_statement, declare, dim_statement, is_system, let_statement};
use crate::ending::{Ending, Refusal};
use crate::growth::put;
use crate::items::{read_statement, restore_statement};
use crate::jumps::{
    for_statement, if_statement, jump, next_statement, on_statement, return_statement,
};
use crate::memory::need_memory;
use crate::outputs::{
    Output, close_statement, command_statement, open_statement, print_file_statement,
    print_statement,
};
use crate::performed::Performed;
use crate::programs::Program;
use crate::state::Run;
use crate::worked::{line_at, statement_place, statement_use, whole};
use pr_interpreter::{BasicError, Function, Kind, Name, Placed, Statement, same_name};
use pr_page::Sequence;
use std::alloc::Global;

/// What a step performs, if it is something for output, and how the run ends, if it does.
#[derive(Drop)]
pub struct Done {
    pub performed: Option<Performed>,
    pub ending: Option<Ending>,
}

/// Returns how many functions come before the one of a name; all, if there is none.
fn function_place(name: Name, functions: &[Function]) -> usize
    ensures { result ≡ position_or_len (λ g. same_name name g.name) functions.now }
{
    for (i, function) in functions.iter().enumerate() {
        if same_name(name, function.name) {
            return i;
        }
    }
    functions.len()
}

/// Defines a function.
#[tactic(auto, using(crate::proofs::ReplacedLemmas::replaced_at, crate::proofs::ReplacedLemmas::replaced_end), unfolding(crate::specs::Steps::with_function))]
fn set_function(functions: &mut Vec<Function>, function: Function) -> Result<(), Ending>
    ensures ok { OnOk result (functions.new.items ≡ with_function function functions.old.items) }
    ensures err { IfErr result (λ e. e ≡ Ending.OutOfMemory) }
{
    let place = function_place(function.name, functions.as_slice());
    if place < functions.len() {
        functions[place] = function;
        return Ok(());
    }
    put(functions, function)?;
    Ok(())
}

/// Returns the error of a name with DEF FN, if there is one.
fn kind_error(kind: Kind) -> Option<BasicError>
    ensures { result ≡ kind_error kind }
{
    match kind {
        Kind::Whole => Some(BasicError::Syntax),
        Kind::Text => Some(BasicError::TypeMismatch),
        Kind::Number => None,
    }
}

/// Returns the error of DEF FN, if there is one: the name of the function comes first; its variable is not TI or ST.
fn define_error(name: Name, variable: Name) -> Option<BasicError>
    ensures { result ≡ define_error name variable }
{
    if let Some(error) = kind_error(name.kind) {
        return Some(error);
    }
    if let Some(error) = kind_error(variable.kind) {
        return Some(error);
    }
    if is_system(variable, &[]) {
        return Some(BasicError::Syntax);
    }
    None
}

/// Performs DEF FN: there is a variable of its variable's name, too.
#[tactic(auto, unfolding(crate::specs::Steps::define_statement))]
fn define_statement(
    alloc: Global,
    program: &Program,
    run: &mut Run,
    name: Name,
    variable: Name,
    nodes: &[Placed],
) -> Result<(), Ending>
    ensures ok { OnOk result (define_statement program.now (state_of run.old) name variable nodes.now ≡ Ok (state_of run.new)) }
    ensures err { IfErr result (λ e. EndsAs e (define_statement program.now (state_of run.old) name variable nodes.now)) }
{
    let at = statement_use(program, run);
    if let Some(error) = define_error(name, variable) {
        return Err(Ending::Error {
            error,
            line: at.line,
        });
    }
    let Ok(copy) = Vec::from_slice(alloc, nodes) else {
        return Err(Ending::OutOfMemory);
    };
    let function = Function {
        name,
        variable,
        value: Sequence::from_vec(copy),
    };
    declare(alloc, &mut run.variables, variable)?;
    set_function(&mut run.functions, function)?;
    need_memory(program, at, run)
}

/// Returns whether POKE to an address cannot change what is printed.
fn is_harmless(address: u16) -> bool
    ensures { result ≡ is_harmless address }
{
    1024 <= address && address <= 2023 || 53248 <= address && address <= 56319
}

/// Keeps the line of the first POKE that is left out.
fn note_poke(line: u16, run: &mut Run)
    ensures { state_of run.new ≡ poke_skipped line (state_of run.old) }
{
    if run.skipped_poke.is_none() {
        run.skipped_poke = Some(line);
    }
}

/// Performs POKE: it is left out where it cannot change what is printed.
#[tactic(auto, unfolding(crate::specs::Steps::poke_statement))]
fn poke_statement(
    alloc: Global,
    program: &Program,
    run: &mut Run,
    address: &[Placed],
    value: &[Placed],
) -> Result<(), Ending>
    ensures ok { OnOk result (poke_statement program.now (state_of run.old) address.now value.now ≡ Ok (state_of run.new)) }
    ensures err { IfErr result (λ e. EndsAs e (poke_statement program.now (state_of run.old) address.now value.now)) }
{
    let to = whole(alloc, 65535, program, run, address)?;
    let _byte = whole(alloc, 255, program, run, value)?;
    let at = statement_use(program, run);
    if is_harmless(to) {
        note_poke(at.line, run);
        return Ok(());
    }
    Err(Ending::Refused {
        refusal: Refusal::Poke(to),
        place: at.place,
    })
}

/// Returns that nothing is performed, and the run goes on.
fn nothing() -> Done
    ensures { result ≡ nothing }
{
    Done {
        performed: None,
        ending: None,
    }
}

/// Returns that the run ends.
fn ended(ending: Ending) -> Done
    ensures { result ≡ ended ending }
{
    Done {
        performed: None,
        ending: Some(ending),
    }
}

/// Returns that an output statement of a line is performed.
fn put_out(line: u16, output: Output) -> Done
    ensures { result ≡ output_done line output }
{
    let (statement, error) = output;
    Done {
        performed: Some(Performed { line, statement }),
        ending: match error {
            Some(error) => Some(Ending::Error { error, line }),
            None => None,
        },
    }
}

/// Returns how a run ends that comes to no statement.
fn syntax_error(program: &Program, run: &Run) -> Ending
    ensures { result ≡ Ending.Error BasicError.Syntax (line_at program.now (state_of run.now)) }
{
    Ending::Error {
        error: BasicError::Syntax,
        line: line_at(program, run),
    }
}

/// Returns how a run ends that comes to a statement that is not taken.
fn not_taken(program: &Program, run: &Run) -> Ending
    ensures { result ≡ Ending.Refused Refusal.NotTaken (statement_place program.now (state_of run.now)) }
{
    Ending::Refused {
        refusal: Refusal::NotTaken,
        place: statement_place(program, run),
    }
}

/// Performs a statement that is none for output, in a state whose place is the one after it.
#[tactic(auto, unfolding(crate::specs::Steps::changed))]
fn change(
    alloc: Global,
    program: &Program,
    run: &mut Run,
    statement: &Statement,
) -> Result<(), Ending>
    requires { run.old.place.line < 2 ^ 64 - 1 }
    ensures ok { OnOk result (changed program.now (state_of run.old) statement.now ≡ Ok (state_of run.new)) }
    ensures err { IfErr result (λ e. EndsAs e (changed program.now (state_of run.old) statement.now)) }
{
    match statement {
        Statement::Let { target, value } => {
            let_statement(alloc, program, run, target, value.as_slice())
        }
        Statement::If { condition, line } => {
            if_statement(alloc, program, run, condition.as_slice(), *line)
        }
        Statement::For {
            variable,
            from,
            to,
            step,
        } => {
            let (from, to) = (from.as_slice(), to.as_slice());
            for_statement(alloc, program, run, *variable, from, to, step)
        }
        Statement::Next { variables } => {
            next_statement(alloc, program, run, variables.as_slice())
        }
        Statement::Go { way, line } => jump(program, *way, *line, run),
        Statement::Return => return_statement(program, run),
        Statement::On { choice, way, lines } => {
            let (choice, lines) = (choice.as_slice(), lines.as_slice());
            on_statement(alloc, program, run, choice, *way, lines)
        }
        Statement::Read { targets } => read_statement(alloc, program, run, targets.as_slice()),
        Statement::Restore => {
            restore_statement(run);
            Ok(())
        }
        Statement::Dim { arrays } => dim_statement(alloc, program, run, arrays.as_slice()),
        Statement::Define {
            name,
            variable,
            value,
        } => define_statement(alloc, program, run, *name, *variable, value.as_slice()),
        Statement::Poke { address, value } => {
            poke_statement(alloc, program, run, address.as_slice(), value.as_slice())
        }
        Statement::Clear => clear_statement(alloc, program, run),
        Statement::Stop => Err(Ending::Break(line_at(program, run))),
        Statement::End => Err(Ending::End(line_at(program, run))),
        Statement::NoStatement => Err(syntax_error(program, run)),
        Statement::NotTaken => Err(not_taken(program, run)),
        _ => Ok(()),
    }
}

/// Performs a statement in a state whose place is the one after it.
#[tactic(auto, unfolding(crate::specs::Steps::turn))]
fn turn(
    alloc: Global,
    program: &Program,
    run: &mut Run,
    statement: &Statement,
) -> Result<Done, Ending>
    requires { run.old.place.line < 2 ^ 64 - 1 }
    ensures ok { IfOk result (λ d. turn program.now (state_of run.old) statement.now ≡ turned d run.new) }
    ensures err { IfErr result (λ e. TurnEndsAs e (turn program.now (state_of run.old) statement.now)) }
{
    let line = line_at(program, run);
    match statement {
        Statement::Print { items } => {
            let put = print_statement(alloc, program, run, items.as_slice())?;
            Ok(put_out(line, put))
        }
        Statement::PrintFile { file, items } => {
            let (file, items) = (file.as_slice(), items.as_slice());
            let put = print_file_statement(alloc, program, run, file, items)?;
            Ok(put_out(line, put))
        }
        Statement::Command { file, items } => {
            let (file, items) = (file.as_slice(), items.as_slice());
            let put = command_statement(alloc, program, run, file, items)?;
            Ok(put_out(line, put))
        }
        Statement::Open { values } => {
            let put = open_statement(alloc, program, run, values.as_slice())?;
            Ok(put_out(line, put))
        }
        Statement::Close { values } => {
            let put = close_statement(alloc, program, run, values.as_slice())?;
            Ok(put_out(line, put))
        }
        _ => {
            change(alloc, program, run, statement)?;
            Ok(nothing())
        }
    }
}

/// Does a step: a statement, or from the end of a line to the next one.
#[tactic(auto, unfolding(crate::specs::Steps::step, crate::specs::Places::found_at))]
pub fn step(alloc: Global, program: &Program, run: &mut Run) -> Result<Done, Ending>
    ensures ok { IfOk result (λ d. step program.now (state_of run.old) ≡ turned d run.new) }
    ensures err { IfErr result (λ e. TurnEndsAs e (step program.now (state_of run.old))) }
{
    let Some(line) = program.lines.as_slice().get(run.place.line) else {
        return Ok(ended(Ending::LastLine));
    };
    match line.statements.as_slice().get(run.place.statement) {
        Some(placed) => {
            run.place.statement += 1;
            turn(alloc, program, run, &placed.statement)
        }
        None => {
            run.go_to_next_line();
            Ok(nothing())
        }
    }
}
