//! Why a calculation has no result, or a text is no program.

/// Why a calculation has no result.
#[derive(Clone, Copy, Debug, PartialEq, Eq)]
pub enum NumberFault {
    /// What the machine would answer is not certain.
    NotCertain,
    /// The result is 1.70141183E+38 or more: the machine reports `?OVERFLOW ERROR`.
    Overflow,
    /// The divisor is 0: the machine reports `?DIVISION BY ZERO ERROR`.
    DivisionByZero,
}

/// Why a text is no program.
#[derive(Clone, Copy, Debug, PartialEq, Eq)]
pub enum ProgramFault {
    /// Memory ran out.
    OutOfMemory,
    /// At this place, the number of bytes before it, a row does not begin with a line number.
    NoLineNumber(usize),
    /// At this place is a line number above 63999.
    LargeLineNumber(usize),
    /// At this place is what no expression can have there: the machine reports `?SYNTAX ERROR`.
    NoExpression(usize),
    /// At this place is what no statement has there: the machine reports `?SYNTAX ERROR`. `read_program` reports it as a
    /// statement of the line instead.
    NoStatement(usize),
    /// At this place is the keyword of a statement that a run does not take, as INPUT or SYS, or what may be a syntax
    /// error. `read_program` reports it as a statement of the line instead.
    NotTaken(usize),
}
