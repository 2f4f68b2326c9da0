//! The nodes of expressions.

ghost use Rattle.std.specs.Prelude.{◌≡◌, ◌≤◌};
ghost use Rattle.pr_interpreter.specs.ExpressionLaws.{operands};
ghost use Rattle.pr_interpreter.specs.Expressions.{call_bytes, greatest_count, least_count, operator_of, precedence};

use crate::constants::Constant;
use crate::names::Name;
use crate::orders::Order;

/// An operator.
#[derive(Clone, Copy, Debug, PartialEq, Eq)]
pub enum Operator {
    Power,
    /// The minus before an operand.
    Negate,
    Times,
    Over,
    Plus,
    Minus,
    /// A comparison, by what it accepts.
    Compare(Order),
    Not,
    And,
    Or,
}

/// What is called with arguments.
#[derive(Clone, Copy, Debug, PartialEq, Eq)]
pub enum Callee {
    /// An array: the arguments are the indices of an element.
    Array(Name),
    /// A function that DEF FN defines.
    Own(Name),
    /// A function of the language, by its token: from SGN (180) to MID$ (202).
    Function(u8),
}

/// A node of an expression. Its operands come before it.
#[derive(Clone, Copy, Debug, PartialEq, Eq)]
pub enum Node {
    Number(Constant),
    /// A string, by the places of its first byte and of the byte after its last.
    Text { start: usize, end: usize },
    Variable(Name),
    /// An operator takes the last value, or the last two.
    Apply(Operator),
    /// A call takes so many of the last values.
    Call { callee: Callee, count: u8 },
}

/// A node, and its place: the number of bytes before its first byte, or before its operator, in the text.
#[derive(Clone, Copy, Debug, PartialEq, Eq)]
pub struct Placed {
    pub node: Node,
    pub place: usize,
    /// How many bytes of the machine's stack are taken by what waits for it: operators, parentheses and calls; at most
    /// 255.
    pub stacked: u8,
}

impl Operator {
    /// Returns how tightly it binds, from 1 for OR to 8 for a power.
    pub(crate) fn precedence(self) -> u8
        ensures { result ≡ precedence self }
    {
        match self {
            Operator::Power => 8,
            Operator::Negate => 7,
            Operator::Times | Operator::Over => 6,
            Operator::Plus | Operator::Minus => 5,
            Operator::Compare(_) => 4,
            Operator::Not => 3,
            Operator::And => 2,
            Operator::Or => 1,
        }
    }

    /// Returns how many operands it takes.
    pub(crate) fn operands(self) -> usize
        ensures { result ≡ operands self }
    {
        match self {
            Operator::Negate | Operator::Not => 1,
            Operator::Power
            | Operator::Times
            | Operator::Over
            | Operator::Plus
            | Operator::Minus
            | Operator::Compare(_)
            | Operator::And
            | Operator::Or => 2,
        }
    }
}

/// Returns the operator between two operands that has a token.
pub fn operator_of(code: u8) -> Option<Operator>
    ensures { result ≡ operator_of code }
{
    match code {
        170 => Some(Operator::Plus),
        171 => Some(Operator::Minus),
        172 => Some(Operator::Times),
        173 => Some(Operator::Over),
        174 => Some(Operator::Power),
        175 => Some(Operator::And),
        176 => Some(Operator::Or),
        _ => None,
    }
}

impl Callee {
    /// Returns how many arguments a call has at least.
    pub(crate) fn least_count(self) -> u8
        ensures { result ≡ least_count self }
    {
        match self {
            Callee::Function(token) if token >= 200 => 2,
            Callee::Function(_) | Callee::Array(_) | Callee::Own(_) => 1,
        }
    }

    /// Returns how many bytes of the machine's stack a call takes of which so many arguments have begun.
    pub(crate) fn bytes(self, count: u8) -> usize
        ensures value { result ≡ call_bytes self count }
        ensures within { result ≤ 1024 }
    {
        let count = usize::from(count);
        match self {
            Callee::Function(_) => 4 + 4 * count,
            Callee::Array(_) => 12 + 2 * count,
            Callee::Own(_) => 9,
        }
    }

    /// Returns how many arguments a call has at most.
    pub(crate) fn greatest_count(self) -> u8
        ensures { result ≡ greatest_count self }
    {
        match self {
            Callee::Function(token) if token >= 202 => 3,
            Callee::Function(token) if token >= 200 => 2,
            Callee::Function(_) | Callee::Own(_) => 1,
            Callee::Array(_) => 255,
        }
    }
}
