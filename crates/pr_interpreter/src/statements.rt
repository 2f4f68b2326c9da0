//! The statements of BASIC.

use crate::expressions::Placed;
use crate::names::Name;
use pr_page::Sequence;

/// The nodes of an expression, operands before what takes them.
pub type Nodes = Sequence<Placed>;

/// A variable or an element of an array, as what takes a value.
#[derive(Debug, Drop)]
pub struct Target {
    pub name: Name,
    /// The number of bytes before the name in the text.
    pub place: usize,
    /// The indices of an element; none for a variable.
    pub indices: Sequence<Nodes>,
}

/// A part of what PRINT writes.
#[derive(Debug, Drop)]
pub enum Part {
    Value(Nodes),
    /// TAB: blanks up to a column.
    Tab(Nodes),
    /// SPC: so many blanks.
    Spaces(Nodes),
    /// A comma: blanks up to the next column that 10 divides.
    Comma,
    /// A semicolon: nothing.
    Semicolon,
}

/// A part of what PRINT writes, and its place: the number of bytes before it in the text.
#[derive(Debug, Drop)]
pub struct Item {
    pub part: Part,
    pub place: usize,
}

/// How a line is gone to.
#[derive(Clone, Copy, Debug, PartialEq, Eq)]
pub enum Way {
    Goto,
    /// RETURN comes back.
    Gosub,
}

/// A statement.
#[derive(Debug, Drop)]
pub enum Statement {
    /// Nothing is done: no statement at all, REM or DATA.
    Nothing,
    /// LET, which needs no keyword.
    Let {
        target: Target,
        value: Nodes,
    },
    /// IF: if the condition is not 0, the statements after it in the line are done, or it goes on at a line; else it
    /// goes on at the next line.
    If {
        condition: Nodes,
        line: Option<u16>,
    },
    For {
        variable: Name,
        from: Nodes,
        to: Nodes,
        step: Option<Nodes>,
    },
    /// NEXT for each of these variables; without one for that of the last FOR.
    Next {
        variables: Sequence<Target>,
    },
    /// GOTO (or GO TO) and GOSUB.
    Go {
        way: Way,
        line: u16,
    },
    Return,
    /// ON .. GOTO, or ON .. GOSUB: the value says which of the lines counts, from 1.
    On {
        choice: Nodes,
        way: Way,
        lines: Sequence<u16>,
    },
    Read {
        targets: Sequence<Target>,
    },
    Restore,
    /// DIM: each index is the greatest that the array will have.
    Dim {
        arrays: Sequence<Target>,
    },
    /// DEF FN, for a function of one variable.
    Define {
        name: Name,
        variable: Name,
        value: Nodes,
    },
    /// PRINT.
    Print {
        items: Sequence<Item>,
    },
    /// PRINT#.
    PrintFile {
        file: Nodes,
        items: Sequence<Item>,
    },
    /// CMD: output goes to a file from now on.
    Command {
        file: Nodes,
        items: Sequence<Item>,
    },
    /// OPEN, with its file number and up to three further values.
    Open {
        values: Sequence<Nodes>,
    },
    /// CLOSE; values after the file number count for nothing.
    Close {
        values: Sequence<Nodes>,
    },
    /// POKE.
    Poke {
        address: Nodes,
        value: Nodes,
    },
    /// CLR.
    Clear,
    Stop,
    End,
    /// What is no statement: the machine reports `?SYNTAX ERROR` when a run comes to it.
    NoStatement,
    /// What a run does not take, as INPUT or SYS, or what is not certain to be a syntax error: refused at its place when
    /// a run comes to it.
    NotTaken,
}

/// A statement, and its place: the number of bytes before it in the text.
#[derive(Debug, Drop)]
pub struct PlacedStatement {
    pub statement: Statement,
    pub place: usize,
}
