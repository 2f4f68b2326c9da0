//! Expressions, worked out in a state.

ghost use Rattle.std.specs.Prelude.{◌≡◌, ◌≤◌, IfErr, IfOk};
ghost use Rattle.pr_run.specs.Seen.{EndsAs, gives, state_of};
ghost use Rattle.pr_run.specs.Uses.{ending_of, line_at, statement_place, statement_use, use_of};
ghost use Rattle.pr_run.specs.Worked.{number, truth, whole, worked};

use crate::ending::Ending;
use crate::memory::bytes_for_arrays;
use crate::opened::stack_left;
use crate::programs::Program;
use crate::state::Run;
use crate::uses::{Use, ending_of, first_place, halted, number_of, truth_of, whole_of};
use pr_interpreter::{Number, Placed, Scope, Stop, Value, evaluate};
use std::alloc::Global;

/// Returns the number of a state's line.
#[tactic(auto, unfolding(crate::specs::Places::number_at))]
pub fn line_at(program: &Program, run: &Run) -> u16
    ensures { result ≡ line_at program.now (state_of run.now) }
{
    match program.lines.as_slice().get(run.place.line) {
        Some(line) => line.number,
        None => 0,
    }
}

/// Returns the use of the value of an expression.
pub fn use_of(program: &Program, run: &Run, nodes: &[Placed]) -> Use
    ensures { result ≡ use_of program.now (state_of run.now) nodes.now }
{
    Use {
        line: line_at(program, run),
        place: first_place(nodes),
    }
}

/// Returns where the statement that is performed begins, as the number of bytes before it in the text.
#[tactic(auto, unfolding(crate::specs::Places::start_before))]
pub fn statement_place(program: &Program, run: &Run) -> usize
    ensures { result ≡ statement_place program.now (state_of run.now) }
{
    let Some(line) = program.lines.as_slice().get(run.place.line) else {
        return 0;
    };
    let before = run.place.statement.saturating_sub(1);
    match line.statements.as_slice().get(before) {
        Some(placed) => placed.place,
        None => 0,
    }
}

/// Returns a use at the statement that is performed.
pub fn statement_use(program: &Program, run: &Run) -> Use
    ensures { result ≡ statement_use program.now (state_of run.now) }
{
    Use {
        line: line_at(program, run),
        place: statement_place(program, run),
    }
}

/// Works out an expression.
#[tactic(auto, unfolding(crate::specs::Worked::worked))]
pub fn worked(
    alloc: Global,
    program: &Program,
    run: &mut Run,
    nodes: &[Placed],
) -> Result<Value, Ending>
    ensures ok { IfOk result (λ v. worked program.now (state_of run.old) nodes.now ≡ gives v run.new) }
    ensures err { IfErr result (λ e. EndsAs e (worked program.now (state_of run.old) nodes.now)) }
{
    let line = line_at(program, run);
    let memory = bytes_for_arrays(program, run);
    let stack = stack_left(run.opened.as_slice());
    let scope = Scope {
        text: program.text.as_slice(),
        variables: run.variables.as_slice(),
        functions: run.functions.as_slice(),
        column: if run.at_left { Some(0) } else { None },
        has_sent: run.has_sent,
        memory,
        stack,
    };
    match evaluate(alloc, &scope, &mut run.arrays, nodes) {
        Ok(value) => Ok(value),
        Err(halt) => Err(halted(line, halt)),
    }
}

/// Returns how the run ends where the value of an expression has no answer.
pub fn ended(program: &Program, run: &Run, nodes: &[Placed], stop: Stop) -> Ending
    ensures { result ≡ ending_of (use_of program.now (state_of run.now) nodes.now) stop }
{
    ending_of(use_of(program, run, nodes), stop)
}

/// Works out an expression that has to be a number.
#[tactic(auto, unfolding(crate::specs::Worked::number))]
pub fn number(
    alloc: Global,
    program: &Program,
    run: &mut Run,
    nodes: &[Placed],
) -> Result<Number, Ending>
    ensures ok { IfOk result (λ n. number program.now (state_of run.old) nodes.now ≡ gives n run.new) }
    ensures err { IfErr result (λ e. EndsAs e (number program.now (state_of run.old) nodes.now)) }
{
    let value = worked(alloc, program, run, nodes)?;
    match number_of(value) {
        Ok(number) => Ok(number),
        Err(stop) => Err(ended(program, run, nodes, stop)),
    }
}

/// Works out an expression that has to be a whole number from 0 to a greatest one.
#[tactic(auto, unfolding(crate::specs::Worked::whole))]
pub fn whole(
    alloc: Global,
    greatest: u16,
    program: &Program,
    run: &mut Run,
    nodes: &[Placed],
) -> Result<u16, Ending>
    ensures ok { IfOk result (λ n. whole greatest program.now (state_of run.old) nodes.now ≡ gives n run.new) }
    ensures err { IfErr result (λ e. EndsAs e (whole greatest program.now (state_of run.old) nodes.now)) }
    ensures within { IfOk result (λ n. n ≤ greatest) }
{
    let value = worked(alloc, program, run, nodes)?;
    match whole_of(greatest, value) {
        Ok(number) => Ok(number),
        Err(stop) => Err(ended(program, run, nodes, stop)),
    }
}

/// Works out whether a condition is true.
#[tactic(auto, unfolding(crate::specs::Worked::truth))]
pub fn truth(
    alloc: Global,
    program: &Program,
    run: &mut Run,
    nodes: &[Placed],
) -> Result<bool, Ending>
    ensures ok { IfOk result (λ b. truth program.now (state_of run.old) nodes.now ≡ gives b run.new) }
    ensures err { IfErr result (λ e. EndsAs e (truth program.now (state_of run.old) nodes.now)) }
{
    let value = worked(alloc, program, run, nodes)?;
    match truth_of(value) {
        Ok(answer) => Ok(answer),
        Err(stop) => Err(ended(program, run, nodes, stop)),
    }
}
