//! How a run ends.

use pr_interpreter::BasicError;

/// Why a statement is not run.
#[derive(Clone, Copy, Debug, PartialEq, Eq)]
pub enum Refusal {
    /// What the machine would do is not certain: a value, or the screen's column.
    NotCertain,
    /// A function, a variable or a statement is not known, as RND, TI or INPUT.
    NotTaken,
    /// POKE to this address may change what is printed.
    Poke(u16),
    /// OPEN of a device other than 4 to 30.
    Device(u8),
    /// OPEN with a secondary address above 15.
    SecondAddress(u8),
    /// OPEN or CLOSE with a file name.
    FileName,
    /// A list of more than 255 bytes.
    LongList,
    /// CLR while a file is open: the machine forgets the file, which no script can do.
    OpenFiles,
    /// The machine's stack may be full of loops and calls, and of what waits in an expression.
    FullStack,
    /// The machine's memory may be full of the program, its variables, its arrays and its strings.
    FullMemory,
}

/// How a run ends.
#[derive(Clone, Copy, Debug, PartialEq, Eq)]
pub enum Ending {
    /// After the last line.
    LastLine,
    /// END in a line.
    End(u16),
    /// STOP in a line.
    Break(u16),
    /// An error in a line.
    Error { error: BasicError, line: u16 },
    /// Something is not run, at a place: the number of bytes before it in the text.
    Refused { refusal: Refusal, place: usize },
    /// After so many steps, in a line; a run that has come past the last line is over.
    TooManySteps(u16),
    /// Memory ran out.
    OutOfMemory,
}
