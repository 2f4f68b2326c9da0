//! The statements that say where a run goes on: GOTO, GOSUB, RETURN, ON, IF, FOR and NEXT.

ghost use Rattle.std.specs.Prelude.{◌≡◌, ◌<◌, ◌≤◌, ◌-◌, ◌^◌, IfErr, IfOk, OnOk, Ok};
ghost use Rattle.pr_interpreter.specs.Memory.{variable_value};
ghost use Rattle.pr_run.specs.Jumps.{advanced, begun, branch, chosen, for_kind, for_statement, for_variable, go_to};
ghost use Rattle.pr_run.specs.Jumps.{if_statement, jump, jump_if, left_loop, next_last, next_of, next_statement};
ghost use Rattle.pr_run.specs.Jumps.{next_variable, next_variables, number_or_zero, on_statement, return_statement};
ghost use Rattle.pr_run.specs.Jumps.{step_of, step_use, with_limit, with_open, with_room, with_step};
ghost use Rattle.pr_interpreter.specs.Numbers.{sum};
ghost use Rattle.pr_interpreter.specs.Values.{calculated};
ghost use Rattle.pr_run.specs.Opened.{loop_of, stack_limit};
ghost use Rattle.pr_run.specs.Seen.{EndsAs, gives, passes, state_of};

use crate::assignments::{is_system, store, system_ending, target_place};
use crate::ending::{Ending, Refusal};
use crate::memory::need_memory;
use crate::opened::{CALL, Direction, LOOP, Loop, Open, has_room, loop_of, take_caller};
use crate::place::beginning;
use crate::programs::Program;
use crate::state::Run;
use crate::uses::{Use, direction_by, ending_of, ends_loop, kept};
use crate::worked::{ended, line_at, number, statement_use, truth, use_of, whole, worked};
use pr_interpreter::{
    BasicError, Kind, Name, Nodes, Number, NumberFault, Placed, Stop, Target, Value, Variable, Way,
    order_of, same_name, sum,
};
use std::alloc::Global;

/// Goes on at the line of a number.
#[tactic(auto, unfolding(crate::specs::Jumps::go_to))]
pub fn go_to(program: &Program, number: u16, run: &mut Run) -> Result<(), Ending>
    ensures ok { OnOk result (go_to program.now number (state_of run.old) ≡ Ok (state_of run.new)) }
    ensures err { IfErr result (λ e. EndsAs e (go_to program.now number (state_of run.old))) }
{
    match beginning(number, program.lines.as_slice()) {
        Some(place) => {
            run.place = place;
            Ok(())
        }
        None => Err(Ending::Error {
            error: BasicError::UndefinedStatement,
            line: line_at(program, run),
        }),
    }
}

/// Refuses what takes so many bytes more of the machine's stack than it surely has.
fn need_room(at: Use, size: usize, run: &Run) -> Result<(), Ending>
    ensures ok { OnOk result (with_room at size (state_of run.now) ≡ Ok (state_of run.now)) }
    ensures err { IfErr result (λ e. EndsAs e (with_room at size (state_of run.now))) }
{
    if has_room(run.opened.as_slice(), size) {
        return Ok(());
    }
    Err(Ending::Refused {
        refusal: Refusal::FullStack,
        place: at.place,
    })
}

/// Opens something more.
fn add_open(more: Open, run: &mut Run) -> Result<(), Ending>
    ensures ok { OnOk result (state_of run.new ≡ with_open more (state_of run.old)) }
    ensures err { IfErr result (λ e. e ≡ Ending.OutOfMemory) }
{
    match run.opened.push(more) {
        Ok(()) => Ok(()),
        Err(_) => Err(Ending::OutOfMemory),
    }
}

/// Performs GOTO or GOSUB.
#[tactic(auto, unfolding(crate::specs::Jumps::jump))]
pub fn jump(program: &Program, way: Way, number: u16, run: &mut Run) -> Result<(), Ending>
    ensures ok { OnOk result (jump program.now way number (state_of run.old) ≡ Ok (state_of run.new)) }
    ensures err { IfErr result (λ e. EndsAs e (jump program.now way number (state_of run.old))) }
{
    match way {
        Way::Goto => go_to(program, number, run),
        Way::Gosub => {
            need_room(statement_use(program, run), CALL, run)?;
            let back = run.place;
            add_open(Open::Calling(back), run)?;
            go_to(program, number, run)
        }
    }
}

/// Performs RETURN.
#[tactic(auto, unfolding(crate::specs::Jumps::return_statement))]
pub fn return_statement(program: &Program, run: &mut Run) -> Result<(), Ending>
    ensures ok { OnOk result (return_statement program.now (state_of run.old) ≡ Ok (state_of run.new)) }
    ensures err { IfErr result (λ e. EndsAs e (return_statement program.now (state_of run.old))) }
{
    let line = line_at(program, run);
    match take_caller(&mut run.opened) {
        Some(place) => {
            run.place = place;
            Ok(())
        }
        None => Err(Ending::Error {
            error: BasicError::ReturnWithoutGosub,
            line,
        }),
    }
}

/// Returns the line that is chosen, from 1.
fn chosen(choice: u16, lines: &[u16]) -> Option<u16>
    ensures { result ≡ chosen choice lines.now }
{
    if choice == 0 {
        return None;
    }
    lines.get(usize::from(choice) - 1).copied()
}

/// Goes to a line, if there is one.
fn jump_if(program: &Program, way: Way, line: Option<u16>, run: &mut Run) -> Result<(), Ending>
    ensures ok { OnOk result (jump_if program.now way line (state_of run.old) ≡ Ok (state_of run.new)) }
    ensures err { IfErr result (λ e. EndsAs e (jump_if program.now way line (state_of run.old))) }
{
    match line {
        Some(number) => jump(program, way, number, run),
        None => Ok(()),
    }
}

/// Performs ON: a jump to the line that is chosen, and none where there are fewer.
#[tactic(auto, unfolding(crate::specs::Jumps::on_statement))]
pub fn on_statement(
    alloc: Global,
    program: &Program,
    run: &mut Run,
    choice: &[Placed],
    way: Way,
    lines: &[u16],
) -> Result<(), Ending>
    ensures ok { OnOk result (on_statement program.now (state_of run.old) choice.now way lines.now ≡ Ok (state_of run.new)) }
    ensures err { IfErr result (λ e. EndsAs e (on_statement program.now (state_of run.old) choice.now way lines.now)) }
{
    let choice = whole(alloc, 255, program, run, choice)?;
    jump_if(program, way, chosen(choice, lines), run)
}

/// Goes on after the condition of IF.
fn branch(program: &Program, line: Option<u16>, answer: bool, run: &mut Run) -> Result<(), Ending>
    requires { run.old.place.line < 2 ^ 64 - 1 }
    ensures ok { OnOk result (branch program.now line answer (state_of run.old) ≡ Ok (state_of run.new)) }
    ensures err { IfErr result (λ e. EndsAs e (branch program.now line answer (state_of run.old))) }
{
    if !answer {
        run.go_to_next_line();
        return Ok(());
    }
    match line {
        Some(number) => go_to(program, number, run),
        None => Ok(()),
    }
}

/// Performs IF: a line, or the other statements of this line; if the condition is false, the next line.
#[tactic(auto, unfolding(crate::specs::Jumps::if_statement))]
pub fn if_statement(
    alloc: Global,
    program: &Program,
    run: &mut Run,
    condition: &[Placed],
    line: Option<u16>,
) -> Result<(), Ending>
    requires { run.old.place.line < 2 ^ 64 - 1 }
    ensures ok { OnOk result (if_statement program.now (state_of run.old) condition.now line ≡ Ok (state_of run.new)) }
    ensures err { IfErr result (λ e. EndsAs e (if_statement program.now (state_of run.old) condition.now line)) }
{
    let answer = truth(alloc, program, run, condition)?;
    branch(program, line, answer, run)
}

/// Works out the step of a loop: 1 if it is left out.
fn step_of(
    alloc: Global,
    program: &Program,
    run: &mut Run,
    step: &Option<Nodes>,
) -> Result<Number, Ending>
    ensures ok { IfOk result (λ n. step_of program.now (state_of run.old) step.now ≡ gives n run.new) }
    ensures err { IfErr result (λ e. EndsAs e (step_of program.now (state_of run.old) step.now)) }
{
    match step {
        Some(nodes) => number(alloc, program, run, nodes.as_slice()),
        None => Ok(Number::whole(false, 1)),
    }
}

/// Returns the use of a step: without one that of the statement.
fn step_use(program: &Program, run: &Run, step: &Option<Nodes>) -> Use
    ensures { result ≡ step_use program.now (state_of run.now) step.now }
{
    match step {
        Some(nodes) => use_of(program, run, nodes.as_slice()),
        None => statement_use(program, run),
    }
}

/// Begins a loop, whose body is next.
fn begin(
    variable: Name,
    limit: Number,
    step: Number,
    direction: Direction,
    run: &mut Run,
) -> Result<(), Ending>
    ensures ok { OnOk result (state_of run.new ≡ begun variable limit step direction (state_of run.old)) }
    ensures err { IfErr result (λ e. e ≡ Ending.OutOfMemory) }
{
    let body = run.place;
    let begun = Loop {
        variable,
        limit,
        step,
        direction,
        body,
    };
    add_open(Open::Looping(begun), run)
}

/// Goes on with FOR after its limit.
#[tactic(auto, unfolding(crate::specs::Jumps::with_step))]
fn with_step(
    alloc: Global,
    program: &Program,
    variable: Name,
    step: &Option<Nodes>,
    limit: Number,
    run: &mut Run,
) -> Result<(), Ending>
    ensures ok { OnOk result (with_step program.now variable step.now limit (state_of run.old) ≡ Ok (state_of run.new)) }
    ensures err { IfErr result (λ e. EndsAs e (with_step program.now variable step.now limit (state_of run.old))) }
{
    let by = step_of(alloc, program, run, step)?;
    match direction_by(order_of(by, Number::zero())) {
        Ok(direction) => begin(variable, limit, by, direction, run),
        Err(stop) => Err(ending_of(step_use(program, run, step), stop)),
    }
}

/// Gives the variable of a loop its first value.
fn set_loop_variable(
    alloc: Global,
    program: &Program,
    run: &mut Run,
    variable: Name,
    from: &[Placed],
) -> Result<(), Ending>
    ensures ok { OnOk result (for_kind program.now (state_of run.old) variable.kind variable from.now ≡ Ok (state_of run.new)) }
    ensures err { IfErr result (λ e. EndsAs e (for_kind program.now (state_of run.old) variable.kind variable from.now)) }
{
    if variable.kind == Kind::Whole {
        return Err(Ending::Error {
            error: BasicError::Syntax,
            line: line_at(program, run),
        });
    }
    let value = worked(alloc, program, run, from)?;
    if variable.kind == Kind::Text {
        return Err(Ending::Error {
            error: BasicError::TypeMismatch,
            line: line_at(program, run),
        });
    }
    match kept(variable.kind, value) {
        Ok(value) => {
            let at = use_of(program, run, from);
            store(alloc, run, variable, None, value)?;
            need_memory(program, at, run)
        }
        Err(stop) => Err(ended(program, run, from, stop)),
    }
}

/// Gives the variable of a loop its first value, unless it is TI, TI$ or ST.
#[tactic(auto, unfolding(crate::specs::Jumps::for_variable))]
fn for_variable(
    alloc: Global,
    program: &Program,
    run: &mut Run,
    variable: Name,
    from: &[Placed],
) -> Result<(), Ending>
    ensures ok { OnOk result (for_variable program.now (state_of run.old) variable from.now ≡ Ok (state_of run.new)) }
    ensures err { IfErr result (λ e. EndsAs e (for_variable program.now (state_of run.old) variable from.now)) }
{
    if is_system(variable, &[]) {
        return Err(system_ending(statement_use(program, run), variable.kind));
    }
    set_loop_variable(alloc, program, run, variable, from)
}

/// Leaves the loop of a variable and those inside it, if there is one since the last GOSUB.
fn leave_loop(run: &mut Run, variable: Name)
    ensures { state_of run.new ≡ left_loop variable (state_of run.old) }
{
    if let Some((count, _)) = loop_of(Some(variable), run.opened.as_slice()) {
        run.opened.truncate(count);
    }
}

/// Goes on with FOR after the first value of its variable: a loop of the same variable is left, and there has to be
/// room.
#[tactic(auto, unfolding(crate::specs::Jumps::with_limit))]
fn with_limit(
    alloc: Global,
    program: &Program,
    run: &mut Run,
    variable: Name,
    to: &[Placed],
    step: &Option<Nodes>,
) -> Result<(), Ending>
    ensures ok { OnOk result (with_limit program.now variable to.now step.now (state_of run.old) ≡ Ok (state_of run.new)) }
    ensures err { IfErr result (λ e. EndsAs e (with_limit program.now variable to.now step.now (state_of run.old))) }
{
    let at = statement_use(program, run);
    leave_loop(run, variable);
    need_room(at, LOOP, run)?;
    let limit = number(alloc, program, run, to)?;
    with_step(alloc, program, variable, step, limit, run)
}

/// Performs FOR.
#[tactic(auto, unfolding(crate::specs::Jumps::for_statement))]
pub fn for_statement(
    alloc: Global,
    program: &Program,
    run: &mut Run,
    variable: Name,
    from: &[Placed],
    to: &[Placed],
    step: &Option<Nodes>,
) -> Result<(), Ending>
    ensures ok { OnOk result (for_statement program.now (state_of run.old) variable from.now to.now step.now ≡ Ok (state_of run.new)) }
    ensures err { IfErr result (λ e. EndsAs e (for_statement program.now (state_of run.old) variable from.now to.now step.now)) }
{
    for_variable(alloc, program, run, variable, from)?;
    with_limit(alloc, program, run, variable, to, step)
}

/// Returns the number that a variable has; 0 of a string.
fn variable_number(name: Name, variables: &[Variable]) -> Number
    ensures { result ≡ number_or_zero (variable_value name variables.now) }
{
    for variable in variables {
        if same_name(name, variable.name) {
            return match &variable.value {
                Value::Number(number) => *number,
                Value::Text(_) => Number::zero(),
            };
        }
    }
    Number::zero()
}

/// Returns the sum of two numbers.
fn summed(a: Number, b: Number) -> Result<Number, Stop>
    ensures { result ≡ calculated (sum a b) }
{
    match sum(a, b) {
        Ok(number) => Ok(number),
        Err(NumberFault::NotCertain) => Err(Stop::NotCertain),
        Err(NumberFault::Overflow) => Err(Stop::Error(BasicError::Overflow)),
        Err(NumberFault::DivisionByZero) => Err(Stop::Error(BasicError::DivisionByZero)),
    }
}

/// Adds the step of a loop to its variable. Returns whether the loop is over, by its limit.
#[tactic(auto, unfolding(crate::specs::Jumps::advanced))]
fn advance(alloc: Global, at: Use, current: &Loop, run: &mut Run) -> Result<bool, Ending>
    ensures ok { IfOk result (λ b. advanced at current.now (state_of run.old) ≡ gives b run.new) }
    ensures opened { OnOk result (run.new.opened.items ≡ run.old.opened.items) }
    ensures err { IfErr result (λ e. EndsAs e (advanced at current.now (state_of run.old))) }
{
    let number = match summed(
        variable_number(current.variable, run.variables.as_slice()),
        current.step,
    ) {
        Ok(number) => number,
        Err(stop) => return Err(ending_of(at, stop)),
    };
    let over = match ends_loop(current.direction, order_of(number, current.limit)) {
        Ok(over) => over,
        Err(stop) => return Err(ending_of(at, stop)),
    };
    store(alloc, run, current.variable, None, Value::Number(number))?;
    Ok(over)
}

/// Performs NEXT for the loop of a name, or for the last one. Returns whether the loop is over.
fn next_of(alloc: Global, at: Use, wanted: Option<Name>, run: &mut Run) -> Result<bool, Ending>
    ensures ok { IfOk result (λ b. next_of at (loop_of wanted (state_of run.old).opened) (state_of run.old) ≡ passes b run.new) }
    ensures err { IfErr result (λ e. EndsAs e (next_of at (loop_of wanted (state_of run.old).opened) (state_of run.old))) }
{
    let Some((count, current)) = loop_of(wanted, run.opened.as_slice()) else {
        return Err(Ending::Error {
            error: BasicError::NextWithoutFor,
            line: at.line,
        });
    };
    let over = advance(alloc, at, &current, run)?;
    if over {
        run.opened.truncate(count);
        return Ok(true);
    }
    run.opened.truncate(count + 1);
    run.place = current.body;
    Ok(false)
}

/// Performs NEXT for a variable. Returns whether its loop is over.
#[tactic(auto, unfolding(crate::specs::Jumps::next_variable))]
fn next_variable(
    alloc: Global,
    program: &Program,
    run: &mut Run,
    target: &Target,
) -> Result<bool, Ending>
    ensures ok { IfOk result (λ b. next_variable program.now (state_of run.old) target.now ≡ passes b run.new) }
    ensures err { IfErr result (λ e. EndsAs e (next_variable program.now (state_of run.old) target.now)) }
{
    let place = target_place(alloc, program, run, target)?;
    let line = line_at(program, run);
    if place.is_some() {
        return Err(Ending::Error {
            error: BasicError::NextWithoutFor,
            line,
        });
    }
    let at = Use {
        line,
        place: target.place,
    };
    next_of(alloc, at, Some(target.name), run)
}

/// Performs NEXT with variables: each after a loop that is over.
fn next_variables(
    alloc: Global,
    program: &Program,
    run: &mut Run,
    targets: &[Target],
) -> Result<(), Ending>
    ensures ok { OnOk result (next_variables program.now (state_of run.old) targets.now ≡ Ok (state_of run.new)) }
    ensures err { IfErr result (λ e. EndsAs e (next_variables program.now (state_of run.old) targets.now)) }
{
    'each: for target in targets {
        if !next_variable(alloc, program, run, target)? {
            return Ok(());
        }
    }
    Ok(())
}

/// Performs NEXT without a variable, for the last loop.
#[tactic(auto, unfolding(crate::specs::Jumps::next_last))]
fn next_last(alloc: Global, program: &Program, run: &mut Run) -> Result<(), Ending>
    ensures ok { OnOk result (next_last program.now (state_of run.old) ≡ Ok (state_of run.new)) }
    ensures err { IfErr result (λ e. EndsAs e (next_last program.now (state_of run.old))) }
{
    let at = statement_use(program, run);
    let _over = next_of(alloc, at, None, run)?;
    Ok(())
}

/// Performs NEXT.
#[tactic(auto, unfolding(crate::specs::Jumps::next_statement))]
pub fn next_statement(
    alloc: Global,
    program: &Program,
    run: &mut Run,
    targets: &[Target],
) -> Result<(), Ending>
    ensures ok { OnOk result (next_statement program.now (state_of run.old) targets.now ≡ Ok (state_of run.new)) }
    ensures err { IfErr result (λ e. EndsAs e (next_statement program.now (state_of run.old) targets.now)) }
{
    if targets.is_empty() {
        next_last(alloc, program, run)
    } else {
        next_variables(alloc, program, run, targets)
    }
}
