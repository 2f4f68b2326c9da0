//! What is said of the run of a program, on standard error.

ghost use Rattle.std.specs.Prelude.{◌<◌, length};

use crate::notes::note_program;
use crate::statuses::End;
use pr_interpreter::BasicError;
use pr_programs::{BasicFault, Made, Ran, Reason, error_name};
use std::fmt;
use std::fmt::{Display, Formatter};

/// The most bytes of a row that are shown before a place (profile).
const BEFORE: usize = 60;

/// The most bytes of a row that are shown from a place on (profile).
const REST: usize = 20;

/// What is said of the place of an error that stopped the run of the script.
const OF_THE_SCRIPT: &str =
    "statements and their lines are counted in what the program prints: --as script writes it";

/// Says how the run of a program ended of which there is a script: which error ended it, where no other stopped it
/// before; and with notes, where STOP did, where a POKE was left out, and what its strings are not.
pub fn tell_ran(
    rt: &impl Eprint,
    text: &[u8],
    made: &Made,
    end: End,
    is_explained: bool,
    is_noted: bool,
) {
    if is_noted {
        note_program(rt, text);
        note_poke(rt, made.skipped_poke);
    }
    match (made.ran, end) {
        (Ran::Error { error, line }, End::Broken { .. }) => {
            let name = error_name(error);
            let _ = rt.eprintln(format_args!("?{name}  ERROR IN {line}"));
            if is_explained {
                show_line(rt, text, line);
                show_hint(rt, error_hint(error));
            }
        }
        (_, End::StoppedAt { .. }) if is_explained => show_hint(rt, Some(OF_THE_SCRIPT)),
        (Ran::Break(line), End::Done) if is_noted => {
            let _ = rt.eprintln(format_args!("print1525: note: STOP ended the run in {line}"));
        }
        _ => {}
    }
}

/// Notes the line of the first POKE that a run left out, if there was one.
fn note_poke(rt: &impl Eprint, skipped: Option<u16>) {
    if let Some(line) = skipped {
        let _ = rt.eprintln(format_args!(
            "print1525: note: POKE is left out where it changes the screen, its colours or sound, first in {line}"
        ));
    }
}

/// Says why no script comes of a program, and shows the place where that is asked for.
pub fn tell_basic(rt: &impl Eprint, text: &[u8], fault: BasicFault, is_explained: bool) {
    let _ = rt.eprintln(format_args!("print1525: {fault}"));
    if !is_explained {
        return;
    }
    match fault {
        BasicFault::Refused {
            row,
            column,
            reason,
        } => {
            show_place(rt, row_numbered(text, row), column);
            show_hint(rt, Some(reason_hint(reason)));
        }
        BasicFault::TooManySteps(line) => {
            show_line(rt, text, line);
            show_hint(
                rt,
                Some("the program may run for ever; --steps NUMBER gives it more steps"),
            );
        }
        BasicFault::Listing(_) | BasicFault::NoMemory => {}
    }
}

/// Whether more can be said of a fault than its line.
pub fn is_explainable(fault: BasicFault) -> bool {
    matches!(
        fault,
        BasicFault::Refused { .. } | BasicFault::TooManySteps(_)
    )
}

/// What more there is to say of what is refused.
fn reason_hint(reason: Reason) -> &'static str {
    match reason {
        Reason::NoLineNumber => {
            "each line of a program begins with its number, and the numbers of a saved program ascend"
        }
        Reason::LargeLineNumber => "line numbers go from 0 to 63999",
        Reason::Syntax => "no value can be written so, or it is pi, which is not known here",
        Reason::Name => {
            "in a string { begins a name of a key and } ends it, as {DOWN}, {5 SPACES} or {$8E}"
        }
        Reason::Byte =>
            "strings and DATA have letters, digits and signs of ASCII; in quotes other keys have names, as {SHIFT-A}",
        Reason::NotCertain => {
            "numbers are rounded in the C64, and its possible results give different answers here"
        }
        Reason::NotTaken => {
            "not known: it needs a keyboard, a disk, the clock or machine code, or is random or rounded"
        }
        Reason::Poke => {
            "elsewhere than in the screen, its colours and sound, POKE may change what is printed"
        }
        Reason::Device => "a file is opened on a device of 4 to 30; only printers 4 and 5 print",
        Reason::SecondAddress => "a secondary address is 0 to 15",
        Reason::FileName => "a printer takes no file name",
        Reason::LongList => "a statement prints at most 255 bytes here",
        Reason::OpenFiles =>
            "CLR forgets the open files, which no script can: leave it out, or CLOSE them before",
        Reason::FullStack => {
            "loops, calls, parentheses and functions share the C64's stack, which may be full here"
        }
        Reason::FullMemory => {
            "the program, its variables, arrays and strings share the C64's memory, which may be full here"
        }
    }
}

/// What more there is to say of an error.
fn error_hint(error: BasicError) -> Option<&'static str> {
    match error {
        BasicError::OutOfData => Some("READ found no further item of DATA"),
        BasicError::FormulaTooComplex => Some("a value was made of too many strings at once"),
        BasicError::UndefinedStatement => Some("no line has the number that it goes to"),
        _ => None,
    }
}

/// A row up to a place, or from there on: bytes that are no visible ones of ASCII's are points, so that each has a
/// column.
#[derive(Clone, Copy)]
struct Visible<'a>(&'a [u8]);

impl Display for Visible<'_> {
    fn fmt<W: fmt::Write>(&self, f: &mut Formatter<W>) -> fmt::Result {
        for byte in self.0 {
            let shown = if *byte >= b' ' && *byte <= b'~' {
                char::from(*byte)
            } else {
                '.'
            };
            write!(f, "{shown}")?;
        }
        Ok(())
    }
}

/// Blanks.
#[derive(Clone, Copy)]
struct Blanks(usize);

impl Display for Blanks {
    fn fmt<W: fmt::Write>(&self, f: &mut Formatter<W>) -> fmt::Result {
        for _ in 0..self.0 {
            f.write_str(" ")?;
        }
        Ok(())
    }
}

/// Shows a row with a caret under a column of it, from 1.
fn show_place(rt: &impl Eprint, row: &[u8], column: usize) {
    let at = column.saturating_sub(1).min(row.len());
    let from = at.saturating_sub(BEFORE);
    let to = row.len().min(at + REST);
    let shown = Visible(&row[from..to]);
    let blanks = Blanks(at - from);
    let _ = rt.eprint(format_args!("  {shown}\n  {blanks}^\n"));
}

/// Shows the row of the line with a number.
fn show_line(rt: &impl Eprint, text: &[u8], number: u16) {
    let mut found: &[u8] = &[];
    let mut rest = text;
    while !rest.is_empty() {
        let (row, more) = first_row(rest);
        if number_of(row) == Some(u32::from(number)) {
            found = row;
        }
        rest = more;
    }
    if !found.is_empty() {
        let shown = Visible(&found[..found.len().min(BEFORE + REST)]);
        let _ = rt.eprintln(format_args!("  {shown}"));
    }
}

/// The line number in front of a row.
fn number_of(row: &[u8]) -> Option<u32> {
    let mut number = 0;
    let mut has_digit = false;
    for byte in row {
        match *byte {
            b'0'..=b'9' if number < 100_000 => {
                number = 10 * number + u32::from(*byte - b'0');
                has_digit = true;
            }
            b' ' => {}
            _ => break,
        }
    }
    if has_digit { Some(number) } else { None }
}

/// The row of a text with this number, from 1; empty where there is none.
fn row_numbered(text: &[u8], number: usize) -> &[u8] {
    let mut rest = text;
    let mut left = number;
    while !rest.is_empty() {
        let (row, more) = first_row(rest);
        if left <= 1 {
            return row;
        }
        left -= 1;
        rest = more;
    }
    rest
}

/// The first row of a text, and what is after its end: byte 10 or 13, or 13 and 10.
fn first_row(text: &[u8]) -> (&[u8], &[u8])
    ensures { 0 < length text.now → length result.1.now < length text.now }
{
    let Some(end) = text.iter().position(|b| *b == b'\n' || *b == b'\r') else {
        return (text, &[]);
    };
    let after = if text[end..].starts_with(b"\r\n") {
        end + 2
    } else {
        end + 1
    };
    (&text[..end], &text[after..])
}

/// Writes a hint on standard error, if there is one.
fn show_hint(rt: &impl Eprint, hint: Option<&'static str>) {
    if let Some(hint) = hint {
        let _ = rt.eprintln(format_args!("  {hint}"));
    }
}
