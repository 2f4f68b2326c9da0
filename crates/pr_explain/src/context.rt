//! What can be at a place of a script.

use crate::words::word_at;
use pr_basic::ScriptFault;

/// The statement around a place.
#[derive(Clone, Copy, PartialEq)]
enum Context {
    /// The place is where a line or a statement begins.
    Start,
    Open,
    Close,
    /// After CMD or PRINT#, before the comma.
    File,
    /// In a list.
    List,
}

/// The number in CHR$( ), as a message names it.
const CODE: &str = "a CHR$ code from 0 to 255";

/// The end of a statement, as a message names it.
const STATEMENT_END: &str = "the end of the statement";

/// What is wrong at a place.
#[derive(Clone, Copy)]
pub enum Problem {
    /// The script should have this there.
    Expected(&'static str),
    /// The script exceeds this limit there.
    Limit(&'static str),
}

/// What is wrong between these bytes of a line, where this is the fault.
pub fn problem_at(before: &[u8], rest: &[u8], fault: ScriptFault) -> Problem {
    match fault {
        ScriptFault::TooLong(_) => Problem::Limit("a list has at most 255 bytes"),
        ScriptFault::TooMany(_) => Problem::Limit("a script has at most 1000000 statements"),
        ScriptFault::NoMemory => Problem::Limit("memory ran out"),
        _ => Problem::Expected(expected_at(before, rest, fault)),
    }
}

/// What can follow some bytes of a line, where this is the fault.
fn expected_at(before: &[u8], rest: &[u8], fault: ScriptFault) -> &'static str {
    let context = context_of(before);
    match fault {
        ScriptFault::BadNumber(_) => match context {
            Context::Start => "a line number from 0 to 63999",
            Context::Open | Context::Close | Context::File => "a file number from 1 to 255",
            Context::List => CODE,
        },
        ScriptFault::BadDevice(_) => match last_of(before) {
            Some(b',') => "a device number from 4 to 30",
            _ => "a comma and a device number from 4 to 30",
        },
        ScriptFault::BadSecond(_) => "a secondary address from 0 to 15",
        ScriptFault::BadByte(_) => match rest {
            [b'0'..=b'9', ..] if !cut_before(before).is_in_string => CODE,
            _ => "a byte from 32 to 126 in the string",
        },
        _ => expected_in(context, before, rest),
    }
}

/// What can be in a statement, where an unknown word does.
fn expected_in(context: Context, before: &[u8], rest: &[u8]) -> &'static str {
    if context == Context::Start {
        return "OPEN, CMD, PRINT, PRINT#, CLOSE or REM";
    }
    if word_at(rest).begins_statement() && !wants_more(context, before) {
        return "a colon between statements";
    }
    match context {
        Context::Start | Context::Open => expected_in_open(before),
        Context::Close => STATEMENT_END,
        Context::File => "a comma and a list, or the end of the statement",
        Context::List => expected_in_list(before, rest),
    }
}

/// What can follow the device or the secondary address of an OPEN, where an unknown word
/// does.
fn expected_in_open(before: &[u8]) -> &'static str {
    if cut_before(before).commas > 1 {
        STATEMENT_END
    } else {
        "a comma and a secondary address, or the end of the statement"
    }
}

/// What can be in a list, where an unknown word does.
fn expected_in_list(before: &[u8], rest: &[u8]) -> &'static str {
    match last_of(before) {
        Some(b'$') => "( after CHR$",
        Some(b'(') => CODE,
        Some(b'0'..=b'9') => ") after the CHR$ code",
        Some(b',') => "a string, CHR$(n) or a semicolon after the comma",
        _ => match rest {
            [b',', ..] => "a semicolon between the parts of a list",
            _ => "a string, CHR$(n) or a semicolon",
        },
    }
}

/// What to do about a fault between these bytes of a line, where that is known.
pub fn advice_at(before: &[u8], rest: &[u8], fault: ScriptFault) -> Option<&'static str> {
    if has_name(before, rest, fault) {
        return Some(
            "OPEN takes no file name here: there are printers and the screen, and no disk drive",
        );
    }
    match fault {
        ScriptFault::BadByte(_) if cut_before(before).is_in_string => {
            Some("write other bytes as CHR$(n)")
        }
        ScriptFault::TooLong(_) => {
            Some("end the list with a semicolon and continue in another statement")
        }
        _ => None,
    }
}

/// Whether the fault is a file name after the device or the secondary address of an OPEN.
fn has_name(before: &[u8], rest: &[u8], fault: ScriptFault) -> bool {
    if context_of(before) != Context::Open {
        return false;
    }
    match (fault, rest) {
        (ScriptFault::UnknownWord(_) | ScriptFault::BadSecond(_), [b'"', ..]) => true,
        (ScriptFault::UnknownWord(_), [b',', ..]) => cut_before(before).commas > 1,
        _ => false,
    }
}

/// Whether an item of a list can follow these bytes of a line.
pub fn takes_item(before: &[u8]) -> bool {
    context_of(before) == Context::List
        && !matches!(last_of(before), Some(b'$' | b'(' | b'0'..=b'9'))
}

/// Whether a statement can not end after these bytes of it. In a list a digit belongs to a CHR$
/// that has begun.
fn wants_more(context: Context, before: &[u8]) -> bool {
    match last_of(before) {
        Some(b',' | b'(' | b'$') => true,
        Some(b'0'..=b'9') => context == Context::List,
        _ => false,
    }
}

/// The last byte that is no space or tab.
pub fn last_of(bytes: &[u8]) -> Option<u8> {
    bytes
        .iter()
        .copied()
        .rfind(|byte| *byte != b' ' && *byte != b'\t')
}

/// The statement after these bytes of a line.
fn context_of(before: &[u8]) -> Context {
    let Before { part, commas, .. } = cut_before(before);
    let front = without_label(part);
    if front.is_empty() {
        Context::Start
    } else if begins(front, b"open") {
        Context::Open
    } else if begins(front, b"close") {
        Context::Close
    } else if begins(front, b"cmd") || begins(front, b"print#") {
        if commas > 0 {
            Context::List
        } else {
            Context::File
        }
    } else {
        Context::List
    }
}

/// What is before a place in its line, cut into what counts there.
#[derive(Clone, Copy)]
pub struct Before<'a> {
    /// What follows the last colon outside strings.
    part: &'a [u8],
    /// How many commas are in that outside strings.
    commas: usize,
    /// A string has begun, and not ended.
    pub is_in_string: bool,
}

/// Cuts what is before a place in its line.
pub fn cut_before(before: &[u8]) -> Before<'_> {
    let mut start = 0;
    let mut commas: usize = 0;
    let mut is_in_string = false;
    for (i, byte) in before.iter().enumerate() {
        match *byte {
            b'"' => is_in_string = !is_in_string,
            b':' if !is_in_string => {
                start = i + 1;
                commas = 0;
            }
            b',' if !is_in_string => commas = commas.saturating_add(1),
            _ => {}
        }
    }
    Before {
        part: &before[start.min(before.len())..],
        commas,
        is_in_string,
    }
}

/// What follows spaces, tabs and digits.
pub fn without_label(part: &[u8]) -> &[u8] {
    for (i, byte) in part.iter().enumerate() {
        if *byte != b' ' && *byte != b'\t' && !byte.is_ascii_digit() {
            return &part[i..];
        }
    }
    &[]
}

/// Whether bytes begin with a word, whichever of its letters are capitals.
pub fn begins(bytes: &[u8], word: &[u8]) -> bool {
    bytes.len() >= word.len() && bytes[..word.len()].eq_ignore_ascii_case(word)
}
