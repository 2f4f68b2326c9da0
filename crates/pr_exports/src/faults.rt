//! The numbers of faults: those of `enum print1525_fault` in include/print1525.h.

ghost use Rattle.std.specs.Prelude.{◌≡◌};
ghost use Rattle.pr_exports.specs.Faults.{basic_numbers, capture_numbers, error_number, job_numbers, listing_numbers, numbers_of, picture_numbers, reason_numbers, script_numbers, shapes_numbers, signal_number, text_numbers, trace_numbers, wave_numbers};

use pr_basic::ScriptFault;
use pr_capture::{CaptureFault, Wire};
use pr_characters::CharactersFault;
use pr_cli::End;
use pr_interpreter::BasicError;
use pr_jobs::{CliFault, PictureFault, ShapesFault};
use pr_listing::{ListingFault, TextFault};
use pr_programs::{BasicFault, Reason};
use pr_wire::{TraceFault, WaveFault};

/// The number of too large an input, of any kind.
const TOO_LARGE: usize = 9;

/// What is added to the number of the BASIC error that stopped a run.
const STOP: usize = 100;

/// The number of words that ask for no task.
const NO_TASK: usize = 54;

/// The number of lack of memory. A read or a write in memory fails for nothing else.
const NO_MEMORY: usize = 90;

/// The number of the fault with which the program ends, 0 for none, or 100 and that of the BASIC error that stopped a run; its
/// place, a line, an edge, a statement or how many sheets there are; and its column. A place or a column that a fault has not is 0.
pub fn numbers_of(end: End) -> (usize, usize, usize)
    ensures { result ≡ numbers_of end }
{
    match end {
        End::Done | End::Stopped | End::Lacking => (0, 0, 0),
        End::StoppedAt { statement, stop } => (STOP + usize::from(stop.number()), statement, 0),
        End::Broken { error, line } => (STOP + error_number(error), usize::from(line), 0),
        End::Job(fault) => at(job_numbers(fault)),
        End::Listing(fault) => text_numbers(fault),
        End::Basic(fault) => basic_numbers(fault),
        End::Characters(fault) => at(shapes_numbers(fault)),
        End::Words => (NO_TASK, 0, 0),
    }
}

/// A fault without a column.
fn at(numbers: (usize, usize)) -> (usize, usize, usize)
    ensures { result ≡ (numbers.0, numbers.1, 0) }
{
    (numbers.0, numbers.1, 0)
}

/// The number of a job's fault, and its place.
fn job_numbers(fault: CliFault) -> (usize, usize)
    ensures { result ≡ job_numbers fault }
{
    match fault {
        CliFault::Script(fault) => script_numbers(fault),
        CliFault::Trace(fault) => trace_numbers(fault),
        CliFault::Wave(fault) => wave_numbers(fault),
        CliFault::Capture(fault) => capture_numbers(fault),
        CliFault::Picture(fault) => picture_numbers(fault),
        CliFault::TooLarge => (TOO_LARGE, 0),
        CliFault::NoMemory | CliFault::ReadFailed | CliFault::WriteFailed => (NO_MEMORY, 0),
    }
}

/// The number of a script's fault, and its line.
fn script_numbers(fault: ScriptFault) -> (usize, usize)
    ensures { result ≡ script_numbers fault }
{
    match fault {
        ScriptFault::UnknownWord(line) => (1, line),
        ScriptFault::BadNumber(line) => (2, line),
        ScriptFault::BadDevice(line) => (3, line),
        ScriptFault::BadSecond(line) => (4, line),
        ScriptFault::BadByte(line) => (5, line),
        ScriptFault::TooLong(line) => (6, line),
        ScriptFault::TooMany(line) => (7, line),
        ScriptFault::NoMemory => (NO_MEMORY, 0),
    }
}

/// The number of a trace text's fault, and its line.
fn trace_numbers(fault: TraceFault) -> (usize, usize)
    ensures { result ≡ trace_numbers fault }
{
    match fault {
        TraceFault::BadLine(line) => (8, line),
        TraceFault::NoMemory => (NO_MEMORY, 0),
    }
}

/// The number of a fault of edges, and the index of the edge.
fn wave_numbers(fault: WaveFault) -> (usize, usize)
    ensures { result ≡ wave_numbers fault }
{
    match fault {
        WaveFault::Start(at) => (11, at),
        WaveFault::Order(at) => (12, at),
        WaveFault::TooEarly(at) => (13, at),
        WaveFault::TooLate(at) => (14, at),
        WaveFault::Shape(at) => (15, at),
        WaveFault::Truncated(at) => (16, at),
        WaveFault::NoMemory => (NO_MEMORY, 0),
    }
}

/// The number of a recording's fault, and its line.
fn capture_numbers(fault: CaptureFault) -> (usize, usize)
    ensures { result ≡ capture_numbers fault }
{
    match fault {
        CaptureFault::NoSignal(line, wire) => (30 + signal_number(wire), line),
        CaptureFault::NoLevel(line, wire) => (33 + signal_number(wire), line),
        CaptureFault::BadWord(line) => (41, line),
        CaptureFault::NoEnd(line) => (42, line),
        CaptureFault::NoDefinitions(line) => (43, line),
        CaptureFault::NoTimescale(line) => (44, line),
        CaptureFault::BadTime(line) => (45, line),
        CaptureFault::GoesBack(line) => (46, line),
        CaptureFault::Unknown(line) => (47, line),
        CaptureFault::Floating(line) => (48, line),
        CaptureFault::BadLevel(line) => (49, line),
        CaptureFault::BadTimescale(line) => (70, line),
        CaptureFault::NoTime(line) => (71, line),
        CaptureFault::WideText => (72, 1),
        CaptureFault::Archive => (73, 1),
        CaptureFault::TwoSignals(line, wire) => (74 + signal_number(wire), line),
        CaptureFault::NoMemory => (NO_MEMORY, 0),
    }
}

/// 1 ATN, 2 CLOCK, 3 DATA.
fn signal_number(wire: Wire) -> usize
    ensures { result ≡ signal_number wire }
{
    match wire {
        Wire::Atn => 1,
        Wire::Clock => 2,
        Wire::Data => 3,
    }
}

/// The number of a picture's fault, and how many sheets there are.
fn picture_numbers(fault: PictureFault) -> (usize, usize)
    ensures { result ≡ picture_numbers fault }
{
    match fault {
        PictureFault::NoSuchSheet(sheets) => (50, sheets as usize),
        PictureFault::TooLarge => (51, 0),
    }
}

/// The number of the fault of a file of characters, and its line.
fn shapes_numbers(fault: ShapesFault) -> (usize, usize)
    ensures { result ≡ shapes_numbers fault }
{
    match fault {
        ShapesFault::Characters(CharactersFault::BadLine(line)) => (52, line),
        ShapesFault::TooLarge => (TOO_LARGE, 0),
        ShapesFault::ReadFailed | ShapesFault::NoMemory => (NO_MEMORY, 0),
    }
}

/// The number of the fault of a listing that is read, its line and its column.
fn text_numbers(fault: TextFault) -> (usize, usize, usize)
    ensures { result ≡ text_numbers fault }
{
    match fault {
        TextFault::Listing(fault) => listing_numbers(fault),
        TextFault::TooLarge => (TOO_LARGE, 0, 0),
        TextFault::ReadFailed | TextFault::NoMemory => (NO_MEMORY, 0, 0),
    }
}

/// The number of a listing's fault, its line and its column.
fn listing_numbers(fault: ListingFault) -> (usize, usize, usize)
    ensures { result ≡ listing_numbers fault }
{
    match fault {
        ListingFault::NoAddress => (61, 0, 0),
        ListingFault::CutOff(line) => (62, line, 0),
        ListingFault::UnknownName(line, column) => (63, line, column),
        ListingFault::BadByte(line, column) => (64, line, column),
        ListingFault::NoLine => (65, 0, 0),
        ListingFault::NoMemory => (NO_MEMORY, 0, 0),
    }
}

/// The machine's number of an error of BASIC.
fn error_number(error: BasicError) -> usize
    ensures { result ≡ error_number error }
{
    match error {
        BasicError::TooManyFiles => 51,
        BasicError::FileOpen => 52,
        BasicError::FileNotOpen => 53,
        BasicError::NotInputFile => 56,
        BasicError::NextWithoutFor => 10,
        BasicError::Syntax => 11,
        BasicError::ReturnWithoutGosub => 12,
        BasicError::OutOfData => 13,
        BasicError::IllegalQuantity => 14,
        BasicError::Overflow => 15,
        BasicError::UndefinedStatement => 17,
        BasicError::BadSubscript => 18,
        BasicError::RedimensionedArray => 19,
        BasicError::DivisionByZero => 20,
        BasicError::TypeMismatch => 22,
        BasicError::StringTooLong => 23,
        BasicError::FormulaTooComplex => 25,
        BasicError::UndefinedFunction => 27,
    }
}

/// The number of what is refused in a program, its line and its column.
fn reason_numbers(row: usize, column: usize, reason: Reason) -> (usize, usize, usize)
    ensures { result ≡ reason_numbers row column reason }
{
    let number = match reason {
        Reason::NoLineNumber => 131,
        Reason::LargeLineNumber => 132,
        Reason::Syntax => 133,
        Reason::Name => 134,
        Reason::Byte => 135,
        Reason::NotTaken => 136,
        Reason::NotCertain => 137,
        Reason::Poke => 138,
        Reason::Device => 139,
        Reason::SecondAddress => 140,
        Reason::FileName => 141,
        Reason::LongList => 142,
        Reason::OpenFiles => 143,
        Reason::FullStack => 144,
        Reason::FullMemory => 145,
    };
    (number, row, column)
}

/// The number of the fault of a program, its line and its column.
fn basic_numbers(fault: BasicFault) -> (usize, usize, usize)
    ensures { result ≡ basic_numbers fault }
{
    match fault {
        BasicFault::Refused {
            row,
            column,
            reason,
        } => reason_numbers(row, column, reason),
        BasicFault::Listing(fault) => listing_numbers(fault),
        BasicFault::TooManySteps(line) => (146, usize::from(line), 0),
        BasicFault::NoMemory => (NO_MEMORY, 0, 0),
    }
}
