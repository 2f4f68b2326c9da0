//! The BASIC error that stopped a run, in BASIC's own words.

ghost use Rattle.std.specs.Prelude.{◌≡◌, List, [], ◌<◌, ◌≤◌, length, IfOk, None};
ghost use Rattle.std.specs.String.{string_bytes};
ghost use Rattle.pr_basic.specs.Grammar.{IsScript};
ghost use Rattle.pr_explain.specs.Followed.{IsDeviceAt};
ghost use Rattle.pr_explain.specs.StopPlaces.{IsStatementLine, IsStopPlace, cause_of, device_of, is_absent, opened, opened_by};

use crate::Explanation;
use crate::lines::first_line;
use crate::texts::{Cut, without_end};
use pr_basic::{ScriptFault, Statement, StatusMode, basic_number, read_script};
use pr_channels::Stop;
use pr_serial::Present;
use pr_wire::NoMemory;
use std::alloc::{AllocError, Global};

/// That no printer was listening to the byte that the computer held back.
const UNHEARD: &str =
    "no printer was listening to the last byte printed before this statement, which is sent only now";

/// How to connect printers.
const CONNECTED: &str = "--present sets which of printers 4 and 5 are connected";

/// Where a BASIC error stopped a run.
#[derive(Clone, Copy, Debug, PartialEq, Eq)]
pub struct StopPlace {
    /// The number of the statement, from 1.
    pub statement: usize,
    /// The number of its line, from 1.
    pub line: usize,
    /// The number of the BASIC line, if the line begins with one.
    pub basic_line: Option<u32>,
    /// The device of the statement: that of an OPEN, or of the last OPEN before it of the file of a
    /// CMD or a PRINT#.
    pub device: Option<u8>,
    /// What the error comes from.
    pub cause: StopCause,
}

/// What an error comes from.
#[derive(Clone, Copy, Debug, PartialEq, Eq)]
pub enum StopCause {
    /// The files, as the error's name says.
    Files,
    /// No printer is there that could answer.
    NoPrinter,
    /// A printer is there, which answers each LISTEN: none was listening to a byte. Whether the
    /// statement's device is a printer that is not there.
    Unheard { is_absent: bool },
}

/// Says which error stopped the run of a script at a statement, counted from 1, as BASIC says it.
/// Its place is the statement, its line, the number of the BASIC line if that has one, its device
/// (that of an OPEN, or of the last OPEN before it of the file of a CMD or a PRINT#), and what the
/// error comes from: the files, no printer that is present, or a byte that no printer took, and
/// then whether the device is an absent printer. It has none, and no text, exactly where the script
/// has no such statement. The text is tested, not proved.
///
/// Where the status goes on from statement to statement, a device that did not answer may be that
/// of a statement before. Where each statement begins with status 0 and a printer is there, it is
/// the byte printed last before it that no printer took.
///
/// # Errors
///
/// [`NoMemory`] where memory was refused.
pub fn explain_stop(
    alloc: Global,
    script: &[u8],
    mode: StatusMode,
    stop: Stop,
    statement: usize,
    present: Present,
) -> Result<Explanation<Option<StopPlace>>, NoMemory>
    ensures place { IfOk result (λ told. IsStopPlace script.now stop statement present told.place) }
    ensures nothing { IfOk result (λ told. told.place ≡ None → string_bytes told.text ≡ []) }
{
    let mut text = String::new(alloc);
    let statements = match read_script(alloc, script) {
        Ok(statements) => statements,
        Err(ScriptFault::NoMemory) => return Err(AllocError),
        Err(_) => return Ok(Explanation { place: None, text }),
    };
    if statement == 0 || statement > statements.len() {
        return Ok(Explanation { place: None, text });
    }
    let device = device_at(statements.as_slice(), statement);
    let (number, line) = line_of(alloc, script, statement)?;
    let place = StopPlace {
        statement,
        line: number,
        basic_line: basic_number(line),
        device,
        cause: cause_of(stop, present, device),
    };
    push_stop(&mut text, place, line, mode, stop)?;
    Ok(Explanation {
        place: Some(place),
        text,
    })
}

/// What an error at a statement with this device, if it has one, comes from.
fn cause_of(stop: Stop, present: Present, device: Option<u8>) -> StopCause
    ensures { result ≡ cause_of stop present device }
{
    if stop != Stop::DeviceNotPresent {
        StopCause::Files
    } else if present.four || present.five {
        StopCause::Unheard {
            is_absent: is_absent(present, device),
        }
    } else {
        StopCause::NoPrinter
    }
}

/// Whether a device is not one of the printers that are there.
fn is_absent(present: Present, device: Option<u8>) -> bool
    ensures { result ≡ is_absent present device }
{
    match device {
        None => false,
        Some(4) => !present.four,
        Some(5) => !present.five,
        Some(_) => true,
    }
}

/// Adds an error with its place, the line, and what the error means here.
fn push_stop(
    text: &mut String,
    place: StopPlace,
    line: &[u8],
    mode: StatusMode,
    stop: Stop,
) -> Result<(), NoMemory> {
    let (name, _) = words_of(stop);
    write!(text, "?{name}  ERROR")?;
    if let Some(label) = place.basic_line {
        write!(text, " IN {label}")?;
    }
    write!(
        text,
        " (statement {})\n  line {}: ",
        place.statement, place.line
    )?;
    write!(text, "{}\n  ", Cut(without_end(line)))?;
    push_reason(text, place, mode, stop)?;
    write!(text, "\n")
}

/// The error's name, as BASIC writes it, and what it means by itself.
fn words_of(stop: Stop) -> (&'static str, &'static str) {
    match stop {
        Stop::TooManyFiles => (
            "TOO MANY FILES",
            "ten files are already open; close one first",
        ),
        Stop::FileOpen => ("FILE OPEN", "the file is already open; close it first"),
        Stop::FileNotOpen => ("FILE NOT OPEN", "the file is not open; open it first"),
        Stop::DeviceNotPresent => ("DEVICE NOT PRESENT", "no printer answers"),
        Stop::NotInputFile => ("NOT INPUT FILE", "file 0 cannot be opened; use 1 to 255"),
    }
}

/// Adds what the error means here.
fn push_reason(
    text: &mut String,
    place: StopPlace,
    mode: StatusMode,
    stop: Stop,
) -> Result<(), NoMemory> {
    match (place.cause, mode, place.device) {
        (StopCause::NoPrinter, StatusMode::Kept, _) => write!(
            text,
            "no printer answered, here or at an earlier statement (--status kept); {CONNECTED}"
        ),
        (StopCause::NoPrinter, StatusMode::Each, Some(device)) => write!(
            text,
            "device {device} does not answer; {CONNECTED}"
        ),
        (StopCause::Unheard { .. }, StatusMode::Kept, _) => write!(
            text,
            "no printer was listening to a byte sent here or at an earlier statement (--status kept)"
        ),
        (StopCause::Unheard { is_absent: true }, StatusMode::Each, Some(device)) => write!(
            text,
            "{UNHEARD}; device {device} is not connected either: {CONNECTED}"
        ),
        (StopCause::Unheard { .. }, StatusMode::Each, _) => write!(text, "{UNHEARD}"),
        (StopCause::NoPrinter, StatusMode::Each, None) => {
            write!(text, "no printer answers; {CONNECTED}")
        }
        (StopCause::Files, _, _) => {
            let (_, reason) = words_of(stop);
            write!(text, "{reason}")
        }
    }
}

/// The device of a statement, counted from 1.
fn device_at(statements: &[Statement], number: usize) -> Option<u8>
    requires some { 0 < number }
    requires within { number ≤ length statements.now }
    ensures { IsDeviceAt statements.now number result }
{
    let (before, rest) = statements.split_at(number - 1);
    match rest {
        [at, ..] => device_of(before, at),
        [] => unreachable!(),
    }
}

/// The device of a statement after others: its own, or that of the last OPEN of its file.
fn device_of(before: &[Statement], at: &Statement) -> Option<u8>
    ensures { result ≡ device_of before.now at.now }
{
    match at {
        Statement::OpenFile { device, .. } => Some(device.get()),
        Statement::Cmd { file, .. } | Statement::PrintTo { file, .. } => {
            last_opened(before, *file)
        }
        Statement::Print { .. } | Statement::CloseFile { .. } | Statement::Rem => None,
    }
}

/// The device of the last OPEN of a file.
fn last_opened(statements: &[Statement], file: u8) -> Option<u8>
    ensures { result ≡ opened file statements.now None }
{
    let mut found = None;
    let mut rest = statements;
    while let [statement, more @ ..] = rest {
        found = opened_by(statement, file, found);
        rest = more;
    }
    found
}

/// The device of a statement that opens a file, or else that of an OPEN before it.
fn opened_by(statement: &Statement, file: u8, before: Option<u8>) -> Option<u8>
    ensures { result ≡ opened_by statement.now file before }
{
    match statement {
        Statement::OpenFile {
            file: other,
            device,
            ..
        } if *other == file => Some(device.get()),
        _ => before,
    }
}
/// The line with a statement, counted from 1: the line's number, from 1, and its bytes without the
/// byte 10 that ends it. The time is linear in the bytes: each line is read once.
fn line_of(alloc: Global, script: &[u8], statement: usize) -> Result<(usize, &[u8]), NoMemory>
    ensures { (statements : List Statement) → IsScript script.now statements → 0 < statement → statement ≤ length statements
        → IfOk result (λ found. IsStatementLine script.now statement found.1.now found.0) }
{
    let mut rest = script;
    let mut number = 0;
    let mut left = statement;
    let mut line: &[u8] = &[];
    while !rest.is_empty() {
        let first = first_line(alloc, rest)?;
        line = first.bytes;
        number += 1;
        if left <= first.count {
            return Ok((number, line));
        }
        left -= first.count;
        rest = first.rest;
    }
    Ok((number, line))
}
