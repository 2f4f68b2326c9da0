//! The value of an expression.

ghost use Rattle.std.specs.Prelude.{◌≡◌, ◌⊎◌, ◌+◌, ◌≤◌, ◌∷◌, [], Err, None, IfErr, IfOk, OnOk, length};
ghost use Rattle.pr_interpreter.specs.Evaluation.{after, applied, arguments, called, ended, entered, evaluation, function_bytes, give, in_array, indexed, indices, last_given, literal, number_in, number_or, operand, own, put, variable, without, worked};
ghost use Rattle.pr_interpreter.specs.Constants.{value_of};
ghost use Rattle.pr_interpreter.specs.Values.{calculated};
ghost use Rattle.pr_interpreter.specs.ExpressionLaws.{operands};
ghost use Rattle.pr_interpreter.specs.Memory.{array_of, parameter};
ghost use Rattle.pr_interpreter.specs.Working.{ends_as, scope_of, seen, with_less};

use crate::calls::{applied, called};
use crate::constants::{Constant, value_of};
use crate::expressions::{Callee, Node, Operator, Placed};
use crate::given::{
    Given, NOTHING, element, element_of, indices, is_made, last_of, literal, made_count,
    number_given, number_in, number_or, value_in, variable,
};
use crate::memory::{
    Arrays, Function, Parameter, Scope, function_of, undimensioned, undimensioned_bytes,
};
use crate::names::Name;
use crate::number::Number;
use crate::values::{BasicError, Halt, Value, calculated};
use std::alloc::{AllocError, Global};
use std::mem;

/// What an expression is worked out with.
#[derive(Drop)]
pub struct Work {
    pub arrays: Arrays,
    /// What was given and is not taken yet, the last at the end.
    pub given: Vec<Given>,
    /// How many of these strings the machine keeps for the expression alone.
    pub strings: usize,
}

impl Work {
    /// Adds something that is given.
    fn put(&mut self, given: Given) -> Result<(), AllocError>
        ensures { OnOk result (seen self.new ≡ put given (seen self.old)) }
    {
        match self.given.push(given) {
            Ok(()) => Ok(()),
            Err(_) => Err(AllocError),
        }
    }

    /// Gives something more: of the strings for an expression alone there are at most three.
    #[tactic(auto, unfolding(crate::specs::Evaluation::give))]
    fn give(&mut self, given: Given) -> Result<(), AllocError>
        ensures { OnOk result (seen self.new ≡ give given (seen self.old)) }
    {
        if !is_made(&given) {
            return self.put(given);
        }
        if 3 <= self.strings {
            return self.put(Given::Stopped(Halt::Error(BasicError::FormulaTooComplex)));
        }
        self.strings += 1;
        self.put(given)
    }

    /// Returns how much is given.
    fn count(&self) -> usize
        ensures { result ≡ length (seen self.now).given }
    {
        self.given.as_slice().len()
    }

    /// Returns the last so many of what is given.
    fn arguments(&self, count: usize) -> &[Given]
        ensures { result.now ≡ arguments count (seen self.now) }
    {
        &self.given.as_slice()[self.count().saturating_sub(count)..]
    }

    /// Takes the last so many of what is given.
    #[tactic(auto, unfolding(crate::specs::Evaluation::without))]
    fn take(&mut self, count: usize)
        ensures { seen self.new ≡ without count (seen self.old) }
    {
        let made = made_count(self.arguments(count));
        self.strings = self.strings.saturating_sub(made);
        let left = self.count().saturating_sub(count);
        self.given.truncate(left);
    }

    /// Returns the number that is given last.
    fn last_number(&self) -> Result<Number, Halt>
        ensures { result ≡ number_in (last_given (seen self.now).given) }
    {
        let count = self.count();
        if count == 0 {
            return Err(NOTHING);
        }
        number_in(&self.given.as_slice()[count - 1])
    }

    /// Leaves of what a function's nodes gave the last, which has to be a number.
    #[tactic(auto, unfolding(crate::specs::Evaluation::ended))]
    fn end(&mut self, count: usize, strings: usize) -> Result<(), AllocError>
        ensures { OnOk result (seen self.new ≡ ended count strings (seen self.old)) }
    {
        let given = number_given(self.last_number());
        self.given.truncate(count);
        self.strings = strings;
        self.put(given)
    }

    /// Works out a constant.
    fn give_constant(
        &mut self,
        scope: &Scope<'_>,
        parameters: &[Parameter],
        place: usize,
        stacked: u8,
        constant: Constant,
    ) -> Result<(), AllocError>
        ensures { OnOk result (seen self.new
            ≡ give (operand (scope_of parameters.now scope.now) place stacked
            (number_or place (calculated (value_of constant)))) (seen self.old)) }
    {
        let given = number_or(place, calculated(value_of(constant)));
        self.give(operand(scope, parameters, place, stacked, given))
    }

    /// Works out a string of the program.
    fn give_literal(
        &mut self,
        alloc: Global,
        scope: &Scope<'_>,
        parameters: &[Parameter],
        place: usize,
        stacked: u8,
        start: usize,
        end: usize,
    ) -> Result<(), AllocError>
        ensures { OnOk result (seen self.new
            ≡ give (operand (scope_of parameters.now scope.now) place stacked
            (literal place scope.now.text.now start end)) (seen self.old)) }
    {
        let given = literal(alloc, place, scope.text, start, end)?;
        self.give(operand(scope, parameters, place, stacked, given))
    }

    /// Works out a variable.
    fn give_variable(
        &mut self,
        alloc: Global,
        scope: &Scope<'_>,
        parameters: &[Parameter],
        place: usize,
        stacked: u8,
        name: Name,
    ) -> Result<(), AllocError>
        ensures { OnOk result (seen self.new
            ≡ give (operand (scope_of parameters.now scope.now) place stacked
            (variable (scope_of parameters.now scope.now) place name)) (seen self.old)) }
    {
        let given = variable(alloc, scope, parameters, place, name)?;
        self.give(operand(scope, parameters, place, stacked, given))
    }

    /// Works out an operator.
    fn apply(&mut self, alloc: Global, place: usize, operator: Operator) -> Result<(), AllocError>
        ensures { OnOk result (seen self.new
            ≡ give (applied operator place (arguments (operands operator) (seen self.old)))
            (without (operands operator) (seen self.old))) }
    {
        let count = operator.operands();
        let given = applied(alloc, operator, place, self.arguments(count))?;
        self.take(count);
        self.give(given)
    }

    /// Works out a function of the language.
    fn call(
        &mut self,
        alloc: Global,
        place: usize,
        column: Option<u8>,
        token: u8,
        count: usize,
    ) -> Result<(), AllocError>
        ensures { OnOk result (seen self.new ≡ give (called token place column (arguments count (seen self.old)))
            (without count (seen self.old))) }
    {
        let given = called(alloc, token, place, column, self.arguments(count))?;
        self.take(count);
        self.give(given)
    }

    /// Makes an array that is used before DIM, if there is memory for it, and gives an element.
    fn in_new(
        &mut self,
        alloc: Global,
        room: u16,
        place: usize,
        name: Name,
        indices: &[u16],
    ) -> Result<(), AllocError>
        ensures { OnOk result (seen self.new ≡ in_array room place name indices.now (seen self.old) None) }
    {
        let array = undimensioned(alloc, name, indices.len())?;
        let given = element(alloc, &array, indices)?;
        let Some(bytes) = undimensioned_bytes(name.kind, indices.len()) else {
            self.give(Given::Stopped(Halt::FullMemory(place)))?;
            return Ok(());
        };
        let is_added = self.arrays.add(alloc, room, array, bytes)?;
        if is_added {
            self.give(given)?;
            return Ok(());
        }
        self.give(Given::Stopped(Halt::FullMemory(place)))?;
        Ok(())
    }

    /// Works out an element of an array.
    #[tactic(auto, using(crate::proofs::EvaluationLemmas::in_array_some, crate::proofs::EvaluationLemmas::in_array_none))]
    fn in_array(
        &mut self,
        alloc: Global,
        room: u16,
        place: usize,
        name: Name,
        indices: &[u16],
    ) -> Result<(), AllocError>
        ensures { OnOk result (seen self.new
            ≡ in_array room place name indices.now (seen self.old) (array_of name (seen self.old).arrays.list)) }
    {
        let found = element_of(alloc, name, self.arrays.list.as_slice(), indices)?;
        match found {
            Some(given) => {
                self.give(given)?;
                Ok(())
            }
            None => {
                self.in_new(alloc, room, place, name, indices)?;
                Ok(())
            }
        }
    }

    /// Works out an element of an array by its indices.
    fn take_element(
        &mut self,
        alloc: Global,
        room: u16,
        place: usize,
        name: Name,
        count: usize,
    ) -> Result<(), AllocError>
        ensures { OnOk result (seen self.new ≡ indexed room place name (without count (seen self.old))
            (indices place [] (arguments count (seen self.old)))) }
    {
        let found = indices(alloc, place, self.arguments(count))?;
        self.take(count);
        match found {
            Ok(indices) => self.in_array(alloc, room, place, name, indices.as_slice()),
            Err(halt) => self.give(Given::Stopped(halt)),
        }
    }

    /// Works out the nodes of a function of the program, with the value of its variable, where so many bytes of the
    /// machine's stack are taken.
    #[cycle(work)]
    fn enter(
        &mut self,
        alloc: Global,
        depth: usize,
        scope: &Scope<'_>,
        parameters: &[Parameter],
        place: usize,
        stacked: u8,
        function: &Function,
        number: Number,
    ) -> Result<(), AllocError>
        ensures { OnOk result (seen self.new
            ≡ entered (worked depth) place (stacked + function_bytes) (scope_of parameters.now scope.now)
            (seen self.old) number function.now) }
    {
        let taken = usize::from(stacked) + FUNCTION;
        if usize::from(scope.stack) < taken {
            return self.give(Given::Stopped(Halt::FullStack(place)));
        }
        let inner = with_parameter(alloc, function.variable, number, parameters)?;
        let scope = deeper(scope, inner.as_slice(), taken);
        let count = self.count();
        let strings = self.strings;
        self.work(
            alloc,
            depth,
            &scope,
            inner.as_slice(),
            place,
            function.value.as_slice(),
        )?;
        self.end(count, strings)
    }

    /// Works out a function of the program.
    #[cycle(work)]
    fn call_own(
        &mut self,
        alloc: Global,
        depth: usize,
        scope: &Scope<'_>,
        parameters: &[Parameter],
        place: usize,
        stacked: u8,
        name: Name,
    ) -> Result<(), AllocError>
        ensures { OnOk result (seen self.new
            ≡ own (worked depth) place stacked (scope_of parameters.now scope.now) (without 1 (seen self.old)) name
            (number_in (last_given (seen self.old).given))) }
    {
        let number = self.last_number();
        self.take(1);
        match number {
            Ok(number) => match function_of(name, scope.functions) {
                Some(function) => self.enter(
                    alloc, depth, scope, parameters, place, stacked, function, number,
                ),
                None => self.give(Given::Stopped(Halt::Error(BasicError::UndefinedFunction))),
            },
            Err(halt) => self.give(Given::Stopped(halt)),
        }
    }

    /// Works out a node.
    #[cycle(work)]
    #[tactic(auto, unfolding(crate::specs::Evaluation::after))]
    fn node(
        &mut self,
        alloc: Global,
        depth: usize,
        scope: &Scope<'_>,
        parameters: &[Parameter],
        it: Placed,
    ) -> Result<(), AllocError>
        ensures { OnOk result (seen self.new
            ≡ after (worked depth) (scope_of parameters.now scope.now) (seen self.old) it.place it.stacked it.node) }
    {
        let Placed {
            node,
            place,
            stacked,
        } = it;
        match node {
            Node::Number(constant) => {
                self.give_constant(scope, parameters, place, stacked, constant)
            }
            Node::Text { start, end } => {
                self.give_literal(alloc, scope, parameters, place, stacked, start, end)
            }
            Node::Variable(name) => {
                self.give_variable(alloc, scope, parameters, place, stacked, name)
            }
            Node::Apply(operator) => self.apply(alloc, place, operator),
            Node::Call { callee, count } => match callee {
                Callee::Array(name) => {
                    self.take_element(alloc, scope.memory, place, name, usize::from(count))
                }
                Callee::Own(name) => {
                    self.call_own(alloc, depth, scope, parameters, place, stacked, name)
                }
                Callee::Function(token) => {
                    self.call(alloc, place, scope.column, token, usize::from(count))
                }
            },
        }
    }

    /// Works out nodes from left to right, where functions call others at most so many deep.
    #[cycle(work)]
    #[tactic(auto, using(crate::proofs::EvaluationLemmas::worked_more, crate::proofs::EvaluationLemmas::worked_none))]
    fn work(
        &mut self,
        alloc: Global,
        depth: usize,
        scope: &Scope<'_>,
        parameters: &[Parameter],
        place: usize,
        nodes: &[Placed],
    ) -> Result<(), AllocError>
        ensures { OnOk result (seen self.new
            ≡ worked depth place (scope_of parameters.now scope.now) (seen self.old) nodes.now) }
    {
        if depth == 0 {
            return self.give(Given::Stopped(Halt::FullStack(place)));
        }
        'nodes: for it in nodes {
            self.node(alloc, depth - 1, scope, parameters, *it)?;
        }
        Ok(())
    }
}

/// How many bytes of the machine's stack a function of the program takes while it is worked out.
const FUNCTION: usize = 16;

/// Returns the same scope where so many bytes more of the machine's stack are taken.
fn deeper<'a>(scope: &Scope<'a>, parameters: &[Parameter], taken: usize) -> Scope<'a>
    requires { taken ≤ scope.now.stack }
    ensures { scope_of parameters.now result ≡ with_less taken (scope_of parameters.now scope.now) }
{
    Scope {
        text: scope.text,
        variables: scope.variables,
        functions: scope.functions,
        column: scope.column,
        has_sent: scope.has_sent,
        memory: scope.memory,
        stack: scope.stack - taken as u8,
    }
}

/// Returns what a number, a string or a variable gives, if the machine's stack surely has the bytes that what waits for
/// it takes.
fn operand(
    scope: &Scope<'_>,
    parameters: &[Parameter],
    place: usize,
    stacked: u8,
    given: Given,
) -> Given
    ensures { result ≡ operand (scope_of parameters.now scope.now) place stacked given }
{
    if stacked <= scope.stack {
        given
    } else {
        Given::Stopped(Halt::FullStack(place))
    }
}

/// Returns the parameters with one before them.
fn with_parameter(
    alloc: Global,
    name: Name,
    value: Number,
    parameters: &[Parameter],
) -> Result<Vec<Parameter>, AllocError>
    ensures { IfOk result (λ found. found.items ≡ parameter name value ∷ parameters.now) }
{
    let mut found = Vec::new(alloc);
    found.push(Parameter { name, value })?;
    found.extend_from_slice(parameters)?;
    Ok(found)
}

/// How many functions of the program call one another at most, and the expression: no stack has room for more.
const DEPTH: usize = 16;

/// Returns the value of an expression by its nodes. An array that is used before DIM comes to the arrays.
///
/// # Errors
///
/// The error that the machine reports; or the place of what is not certain, or of what a run does not take; or that
/// memory ran out. An error may leave such an array too.
#[tactic(auto, unfolding(crate::specs::Evaluation::evaluation))]
pub fn evaluate(
    alloc: Global,
    scope: &Scope<'_>,
    arrays: &mut Arrays,
    nodes: &[Placed],
) -> Result<Value, Halt>
    ensures ok { IfOk result (λ v. evaluation (scope_of [] scope.now) arrays.old nodes.now ≡ ends_as v arrays.new) }
    ensures err { IfErr result (λ halt. (halt ≡ Halt.OutOfMemory)
        ⊎ ((evaluation (scope_of [] scope.now) arrays.old nodes.now).value ≡ Err halt)) }
{
    let mut work = Work {
        arrays: mem::replace(arrays, Arrays::new(alloc)),
        given: Vec::new(alloc),
        strings: 0,
    };
    let done = work.work(alloc, DEPTH, scope, &[], 0, nodes);
    let Work {
        arrays: after,
        given,
        ..
    } = work;
    *arrays = after;
    match done {
        Ok(()) => value_in(last_of(given)),
        Err(AllocError) => Err(Halt::OutOfMemory),
    }
}
