//! Reads an expression from lexemes, as the machine does: operators, parentheses and calls wait on a stack until their
//! operands end.

ghost use Rattle.std.specs.Prelude.{◌≡◌, ◌≤◌, ◌∷◌, length, min, reverse, IfErr, IfOk, MatchOption, Ok, OnOk};
ghost use Rattle.pr_interpreter.specs.Expressions.{Stacks, bound, close_pending, close_turn, closing_code, comma_pending, comma_turn, end_of_operand, end_turn, expression, function_turn, name_end, opening_turn, opens, operand_code, operand_turn, operator_of, operator_or, operator_turn, own_turn, pending_bytes, reading, settle, turn, waiting_bytes, with_node, with_waiting};
ghost use Rattle.pr_interpreter.specs.declared.reader.Expected.TheVariants.{Operand};
ghost use Rattle.pr_interpreter.specs.Reader.{FaultsAs, NothingWaits, seen, turned};

use crate::expressions::{Callee, Node, Operator, Placed, operator_of};
use crate::fault::ProgramFault;
use crate::lexemes::{Lexeme, Word};
use crate::names::Name;
use std::alloc::{AllocError, Global};

/// What waits until its operands end.
#[derive(Clone, Copy)]
pub enum Pending {
    /// A parenthesis.
    Group,
    Applies(Operator),
    /// A call, with how many arguments have begun.
    Calls { callee: Callee, count: u8 },
}

/// What waits, and its place.
#[derive(Clone, Copy)]
pub struct Waiting {
    pub pending: Pending,
    pub place: usize,
}

/// What is expected next.
#[derive(Clone, Copy)]
pub enum Expected {
    /// An operand.
    Operand,
    /// The name of the function that FN at a place calls.
    OwnName(usize),
    /// The parenthesis that opens the arguments of a call at a place.
    Opening(Callee, usize),
    /// What follows a name at a place: an array if it is a parenthesis.
    NameEnd(Name, usize),
    /// What follows an operand.
    OperandEnd,
}

/// What a lexeme does to the reading.
#[derive(Clone, Copy)]
pub enum Turn {
    Next(Expected),
    /// The expression has ended before the lexeme.
    Done,
    /// No expression has the lexeme here.
    Refused,
}

/// The nodes that are placed, and what waits, the last at the end.
#[derive(Drop)]
pub struct Reader {
    pub nodes: Vec<Placed>,
    pub waiting: Vec<Waiting>,
}

/// Returns how many bytes of the machine's stack something takes while it waits.
fn pending_bytes(pending: Pending) -> usize
    ensures value { result ≡ pending_bytes pending }
    ensures within { result ≤ 1024 }
{
    match pending {
        Pending::Applies(_) => 13,
        Pending::Group => 5,
        Pending::Calls { callee, count } => callee.bytes(count),
    }
}

/// Returns how many bytes of the machine's stack all take that wait, at most 255.
fn waiting_bytes(waiting: &[Waiting]) -> u8
    ensures { result ≡ min (waiting_bytes (reverse waiting.now)) 255 }
{
    let mut size: usize = 0;
    for it in waiting {
        size += pending_bytes(it.pending);
        if 255 <= size {
            return 255;
        }
    }
    size as u8
}

impl Reader {
    /// Adds a node.
    fn put(&mut self, node: Node, place: usize) -> Result<(), AllocError>
        ensures { OnOk result (seen self.new ≡ with_node (seen self.old) node place) }
    {
        let stacked = waiting_bytes(self.waiting.as_slice());
        self.nodes.push(Placed {
            node,
            place,
            stacked,
        })?;
        Ok(())
    }

    /// Lets something wait.
    fn wait(&mut self, pending: Pending, place: usize) -> Result<(), AllocError>
        ensures { OnOk result (seen self.new ≡ with_waiting (seen self.old) pending place) }
    {
        self.waiting.push(Waiting { pending, place })?;
        Ok(())
    }

    /// Takes away what waits last.
    fn take_last(&mut self) -> Option<Waiting>
        ensures nodes { (seen self.new).nodes ≡ (seen self.old).nodes }
        ensures waiting { MatchOption result (NothingWaits (seen self.old) (seen self.new)) (λ w. (seen self.old).waiting ≡ w ∷ (seen self.new).waiting) }
    {
        self.waiting.pop()
    }

    /// Applies the operators that wait last, as far as they bind at least so tightly.
    fn settle(&mut self, least: u8) -> Result<(), AllocError>
        ensures { OnOk result (seen self.new ≡ settle least (seen self.old)) }
    {
        while let Some(last) = self.take_last() {
            match bound(least, last.pending) {
                Some(operator) => self.put(Node::Apply(operator), last.place)?,
                None => {
                    self.wait(last.pending, last.place)?;
                    return Ok(());
                }
            }
        }
        Ok(())
    }

    /// Takes a sign or a keyword where an operand begins.
    #[tactic(auto, unfolding(crate::specs::Expressions::operand_code))]
    fn operand_code(&mut self, code: u8, place: usize) -> Result<Turn, AllocError>
        ensures { IfOk result (λ t. turned t (seen self.new) ≡ operand_code (seen self.old) code place) }
    {
        match code {
            b'(' => {
                self.wait(Pending::Group, place)?;
                Ok(Turn::Next(Expected::Operand))
            }
            170 => Ok(Turn::Next(Expected::Operand)),
            171 => {
                self.wait(Pending::Applies(Operator::Negate), place)?;
                Ok(Turn::Next(Expected::Operand))
            }
            168 => {
                self.wait(Pending::Applies(Operator::Not), place)?;
                Ok(Turn::Next(Expected::Operand))
            }
            165 => Ok(Turn::Next(Expected::OwnName(place))),
            _ => Ok(function_turn(code, place)),
        }
    }

    /// Takes a word where an operand begins.
    fn operand_turn(&mut self, word: Word, place: usize) -> Result<Turn, AllocError>
        ensures { IfOk result (λ t. turned t (seen self.new) ≡ operand_turn (seen self.old) word place) }
    {
        match word {
            Word::Constant(constant) => {
                self.put(Node::Number(constant), place)?;
                Ok(Turn::Next(Expected::OperandEnd))
            }
            Word::Text { start, end } => {
                self.put(Node::Text { start, end }, place)?;
                Ok(Turn::Next(Expected::OperandEnd))
            }
            Word::Named(name) => Ok(Turn::Next(Expected::NameEnd(name, place))),
            Word::Code(code) => {
                let turn = self.operand_code(code, place)?;
                Ok(turn)
            }
            Word::Comparison(_) => Ok(Turn::Refused),
            Word::Items { .. } => Ok(Turn::Refused),
            Word::Remark => Ok(Turn::Refused),
        }
    }

    /// Takes the word that has to open the arguments of a call at a place.
    fn opening_turn(&mut self, callee: Callee, place: usize, word: Word) -> Result<Turn, AllocError>
        ensures { IfOk result (λ t. turned t (seen self.new) ≡ opening_turn (seen self.old) callee place word) }
    {
        if !opens(word) {
            return Ok(Turn::Refused);
        }
        self.wait(Pending::Calls { callee, count: 1 }, place)?;
        Ok(Turn::Next(Expected::Operand))
    }

    /// Takes an operator after an operand.
    fn operator_turn(&mut self, operator: Operator, place: usize) -> Result<Turn, AllocError>
        ensures { IfOk result (λ t. turned t (seen self.new) ≡ operator_turn (seen self.old) operator place) }
    {
        self.settle(operator.precedence())?;
        self.wait(Pending::Applies(operator), place)?;
        Ok(Turn::Next(Expected::Operand))
    }

    /// Takes a comma where something waits.
    fn comma_pending(&mut self, last: Waiting) -> Result<Turn, AllocError>
        ensures { IfOk result (λ t. turned t (seen self.new) ≡ comma_pending (seen self.old) last.pending last.place) }
    {
        match last.pending {
            Pending::Group => Ok(Turn::Refused),
            Pending::Applies(_) => Ok(Turn::Refused),
            Pending::Calls { callee, count } => {
                if count >= callee.greatest_count() {
                    return Ok(Turn::Refused);
                }
                let pending = Pending::Calls {
                    callee,
                    count: count + 1,
                };
                self.wait(pending, last.place)?;
                Ok(Turn::Next(Expected::Operand))
            }
        }
    }

    /// Takes a comma after all operators are applied.
    #[tactic(auto, using(crate::proofs::ReaderLemmas::comma_on, crate::proofs::ReaderLemmas::comma_none))]
    fn comma_turn(&mut self) -> Result<Turn, AllocError>
        ensures { IfOk result (λ t. turned t (seen self.new) ≡ comma_turn (seen self.old).nodes (seen self.old).waiting) }
    {
        match self.take_last() {
            Some(last) => {
                let turn = self.comma_pending(last)?;
                Ok(turn)
            }
            None => Ok(Turn::Done),
        }
    }

    /// Takes a parenthesis that closes where something waits.
    fn close_pending(&mut self, last: Waiting) -> Result<Turn, AllocError>
        ensures { IfOk result (λ t. turned t (seen self.new) ≡ close_pending (seen self.old) last.pending last.place) }
    {
        match last.pending {
            Pending::Group => Ok(Turn::Next(Expected::OperandEnd)),
            Pending::Applies(_) => Ok(Turn::Refused),
            Pending::Calls { callee, count } => {
                if count < callee.least_count() {
                    return Ok(Turn::Refused);
                }
                self.put(Node::Call { callee, count }, last.place)?;
                Ok(Turn::Next(Expected::OperandEnd))
            }
        }
    }

    /// Takes a parenthesis that closes after all operators are applied.
    #[tactic(auto, using(crate::proofs::ReaderLemmas::close_on, crate::proofs::ReaderLemmas::close_none))]
    fn close_turn(&mut self) -> Result<Turn, AllocError>
        ensures { IfOk result (λ t. turned t (seen self.new) ≡ close_turn (seen self.old).nodes (seen self.old).waiting) }
    {
        match self.take_last() {
            Some(last) => {
                let turn = self.close_pending(last)?;
                Ok(turn)
            }
            None => Ok(Turn::Done),
        }
    }

    /// Takes a word of no expression after all operators are applied.
    #[tactic(auto, using(crate::proofs::ReaderLemmas::end_on, crate::proofs::ReaderLemmas::end_none))]
    fn end_turn(&mut self) -> Turn
        ensures { turned result (seen self.new) ≡ end_turn (seen self.old).nodes (seen self.old).waiting }
    {
        match self.take_last() {
            Some(_) => Turn::Refused,
            None => Turn::Done,
        }
    }

    /// Takes a sign or a keyword that is no operator, after an operand.
    #[tactic(auto, unfolding(crate::specs::Expressions::closing_code))]
    fn closing_code(&mut self, code: u8) -> Result<Turn, AllocError>
        ensures { IfOk result (λ t. turned t (seen self.new) ≡ closing_code (seen self.old) code) }
    {
        self.settle(0)?;
        match code {
            b',' => {
                let turn = self.comma_turn()?;
                Ok(turn)
            }
            b')' => {
                let turn = self.close_turn()?;
                Ok(turn)
            }
            _ => Ok(self.end_turn()),
        }
    }

    /// Takes a sign or a keyword after an operand.
    fn code_end(&mut self, code: u8, place: usize) -> Result<Turn, AllocError>
        ensures { IfOk result (λ t. turned t (seen self.new) ≡ operator_or (operator_of code) (seen self.old) code place) }
    {
        match operator_of(code) {
            Some(operator) => {
                let turn = self.operator_turn(operator, place)?;
                Ok(turn)
            }
            None => {
                let turn = self.closing_code(code)?;
                Ok(turn)
            }
        }
    }

    /// Takes a word after an operand.
    fn end_of_operand(&mut self, word: Word, place: usize) -> Result<Turn, AllocError>
        ensures { IfOk result (λ t. turned t (seen self.new) ≡ end_of_operand (seen self.old) word place) }
    {
        let code = match word {
            Word::Comparison(accepts) => {
                let turn = self.operator_turn(Operator::Compare(accepts), place)?;
                return Ok(turn);
            }
            Word::Code(code) => code,
            Word::Constant(_)
            | Word::Named(_)
            | Word::Text { .. }
            | Word::Items { .. }
            | Word::Remark => 0,
        };
        let turn = self.code_end(code, place)?;
        Ok(turn)
    }

    /// Takes the word after a name at a place.
    fn name_end(
        &mut self,
        name: Name,
        at: usize,
        word: Word,
        place: usize,
    ) -> Result<Turn, AllocError>
        ensures { IfOk result (λ t. turned t (seen self.new) ≡ name_end (seen self.old) name at word place) }
    {
        if opens(word) {
            let turn = self.opening_turn(Callee::Array(name), at, word)?;
            return Ok(turn);
        }
        self.put(Node::Variable(name), at)?;
        let turn = self.end_of_operand(word, place)?;
        Ok(turn)
    }

    /// Takes a word at a place.
    #[tactic(auto, unfolding(crate::specs::Expressions::turn))]
    fn turn(&mut self, expected: Expected, word: Word, place: usize) -> Result<Turn, AllocError>
        ensures { IfOk result (λ t. turned t (seen self.new) ≡ turn (seen self.old) expected word place) }
    {
        match expected {
            Expected::Operand => {
                let turn = self.operand_turn(word, place)?;
                Ok(turn)
            }
            Expected::OperandEnd => {
                let turn = self.end_of_operand(word, place)?;
                Ok(turn)
            }
            Expected::OwnName(at) => Ok(own_turn(at, word)),
            Expected::Opening(callee, at) => {
                let turn = self.opening_turn(callee, at, word)?;
                Ok(turn)
            }
            Expected::NameEnd(name, at) => {
                let turn = self.name_end(name, at, word, place)?;
                Ok(turn)
            }
        }
    }

    /// Reads an expression. Returns how many lexemes it has.
    fn read(&mut self, lexemes: &[Lexeme], end: usize) -> Result<usize, ProgramFault>
        ensures ok { IfOk result (λ n. reading (seen self.old) Operand 0 end lexemes.now ≡ Ok (self.new.nodes.items, n)) }
        ensures err { IfErr result (λ fault. FaultsAs fault (reading (seen self.old) Operand 0 end lexemes.now)) }
        ensures within { IfOk result (λ n. n ≤ length lexemes.now) }
    {
        let mut expected = Expected::Operand;
        for (i, lexeme) in lexemes.iter().enumerate() {
            match self.turn(expected, lexeme.word, lexeme.place) {
                Ok(Turn::Next(next)) => expected = next,
                Ok(Turn::Done) => return Ok(i),
                Ok(Turn::Refused) => return Err(ProgramFault::NoExpression(lexeme.place)),
                Err(_) => return Err(ProgramFault::OutOfMemory),
            }
        }
        match self.turn(expected, Word::Code(0), end) {
            Ok(Turn::Done) => Ok(lexemes.len()),
            Ok(_) => Err(ProgramFault::NoExpression(end)),
            Err(_) => Err(ProgramFault::OutOfMemory),
        }
    }
}

/// Takes the token of a function at a place.
fn function_turn(code: u8, place: usize) -> Turn
    ensures { (s : Stacks) → turned result s ≡ function_turn s code place }
{
    if 180 <= code && code <= 202 {
        Turn::Next(Expected::Opening(Callee::Function(code), place))
    } else {
        Turn::Refused
    }
}

/// Takes the word after FN at a place, which has to be a name.
fn own_turn(at: usize, word: Word) -> Turn
    ensures { (s : Stacks) → turned result s ≡ own_turn s at word }
{
    match word {
        Word::Named(name) => Turn::Next(Expected::Opening(Callee::Own(name), at)),
        _ => Turn::Refused,
    }
}

/// Returns the operator that waits, if it binds at least so tightly.
fn bound(least: u8, pending: Pending) -> Option<Operator>
    ensures { result ≡ bound least pending }
{
    match pending {
        Pending::Applies(operator) if least <= operator.precedence() => Some(operator),
        _ => None,
    }
}

/// Returns whether a word is a parenthesis that opens.
fn opens(word: Word) -> bool
    ensures { result ≡ opens word }
{
    match word {
        Word::Code(code) => code == b'(',
        _ => false,
    }
}

/// An expression.
#[derive(Drop)]
pub struct Expression {
    /// Its nodes in the order in which they are worked out: operands before what takes them.
    pub nodes: Vec<Placed>,
    /// How many lexemes it has.
    pub size: usize,
}

/// Reads the expression at the front of lexemes of a line that ends at a place.
///
/// # Errors
///
/// The place of the first lexeme, or of the line's end, that no expression can have there; or that memory ran out.
#[tactic(auto, unfolding(crate::specs::Expressions::expression))]
pub fn read_expression(
    alloc: Global,
    lexemes: &[Lexeme],
    end: usize,
) -> Result<Expression, ProgramFault>
    ensures ok { IfOk result (λ e. expression end lexemes.now ≡ Ok (e.nodes.items, e.size)) }
    ensures err { IfErr result (λ fault. FaultsAs fault (expression end lexemes.now)) }
    ensures within { IfOk result (λ e. e.size ≤ length lexemes.now) }
{
    let mut reader = Reader {
        nodes: Vec::new(alloc),
        waiting: Vec::new(alloc),
    };
    let size = reader.read(lexemes, end)?;
    Ok(Expression {
        nodes: reader.nodes,
        size,
    })
}
