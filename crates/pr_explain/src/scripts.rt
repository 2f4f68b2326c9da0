//! Why a script is refused.

ghost use Rattle.std.specs.Prelude.{◌≡◌, ◌+◌, ◌-◌, ◌≤◌, [], None, length, IfOk};
ghost use Rattle.std.specs.String.{string_bytes};
ghost use Rattle.pr_basic.specs.FaultPlaces.{IsFirstFaultAt};
ghost use Rattle.pr_basic.specs.LineAt.{IsLineAt};
ghost use Rattle.pr_explain.specs.ScriptPlaces.{IsLabel, IsLinePlace, IsScriptPlace};
ghost use Rattle.pr_explain.specs.ScriptSteps.{IsNumberedPlace, numbered};

use crate::Explanation;
use crate::context::{Problem, advice_at, cut_before, problem_at, takes_item};
use crate::texts::{Cut, Escaped, without_end};
use crate::words::{
    Foreign, ends_string, foreign_word, is_number, letter_in, printer_bytes, typed_instead,
    wide_letter, word_at,
};
use pr_basic::{
    LineAt, ScriptFault, basic_number, faults_tell_their_line, line_at, read_script_at,
};
use pr_wire::NoMemory;
use std::alloc::{AllocError, Global};

/// The most bytes of a line that are shown before the place (profile).
const BEFORE: usize = 60;

/// What is said of a number in a list. A C64 sends the sign's place, the digits and a space.
const NUMBER: &str =
    "a C64 prints a number with a space before and after it: write it as a string, such as \" 5 \" for 5";

/// What is said of a program that a script is not enough for.
const WHOLE_PROGRAM: &str =
    "an emulator runs such a program: let it write what its printer, device 4, gets to a file, and then \
     print1525 raw FILE prints that (docs/USAGE.md, Programs with other statements)";

/// Where the first fault of a script is.
#[derive(Clone, Copy, Debug, PartialEq, Eq)]
pub struct ScriptPlace {
    /// The number of the line, from 1.
    pub line: usize,
    /// How many bytes of the line are before the fault, and one more.
    pub column: usize,
    /// The number of the BASIC line, if the line begins with one.
    pub basic_line: Option<u32>,
}

/// A line of a script, cut at a place.
#[derive(Clone, Copy)]
struct CutLine<'a> {
    /// What is before the place in the line.
    before: &'a [u8],
    /// What is from the place on, without the line's end.
    rest: &'a [u8],
}

/// Says why a script is refused. Its place is that of the first fault: the line and the column,
/// both from 1, and the number of the BASIC line if that has one. It has none, and no text, exactly
/// where the script is not refused.
///
/// The text shows the line with a caret under the place, what was expected and what was found there;
/// it is tested, not proved.
///
/// # Errors
///
/// [`NoMemory`] where memory was refused.
pub fn explain_script(
    alloc: Global,
    script: &[u8],
) -> Result<Explanation<Option<ScriptPlace>>, NoMemory>
    ensures place { IfOk result (λ told. IsScriptPlace script.now told.place) }
    ensures nothing { IfOk result (λ told. told.place ≡ None → string_bytes told.text ≡ []) }
{
    explain_numbered(alloc, script, None)
}

/// Says why a line of a script is refused, as [`explain_script`] does, without the lines before it. The place has the
/// number that is given, whatever the line is.
///
/// A fault that counts statements, [`ScriptFault::TooMany`], is not seen in a line alone.
///
/// # Errors
///
/// [`NoMemory`] where memory was refused.
pub fn explain_line(
    alloc: Global,
    line: &[u8],
    number: usize,
) -> Result<Explanation<Option<ScriptPlace>>, NoMemory>
    ensures place { IfOk result (λ told. IsLinePlace number line.now told.place) }
    ensures nothing { IfOk result (λ told. told.place ≡ None → string_bytes told.text ≡ []) }
{
    explain_numbered(alloc, line, Some(number))
}

/// Says why a script is refused, or a line with this number.
fn explain_numbered(
    alloc: Global,
    script: &[u8],
    number: Option<usize>,
) -> Result<Explanation<Option<ScriptPlace>>, NoMemory>
    ensures place { IfOk result (λ told. IsNumberedPlace number script.now told.place) }
    ensures nothing { IfOk result (λ told. told.place ≡ None → string_bytes told.text ≡ []) }
{
    let mut text = String::new(alloc);
    let refused = match read_script_at(alloc, script) {
        Ok(_) => return Ok(Explanation { place: None, text }),
        Err(refused) => refused,
    };
    if refused.fault == ScriptFault::NoMemory {
        return Err(AllocError);
    }
    let line = line_of(script, refused.place, refused.fault);
    let own = place_in(line, refused.place);
    let place = numbered(own, number);
    push_place(&mut text, place, cut_at(line, refused.place), refused.fault)?;
    Ok(Explanation {
        place: Some(place),
        text,
    })
}

/// A place with the number of its line, where one is given.
fn numbered(place: ScriptPlace, number: Option<usize>) -> ScriptPlace
    ensures { result ≡ numbered place number }
{
    match number {
        Some(line) => ScriptPlace { line, ..place },
        None => place,
    }
}

/// The line of the first fault.
fn line_of(script: &[u8], place: usize, fault: ScriptFault) -> LineAt<'_>
    requires { IsFirstFaultAt script.now fault place }
    ensures first { IsFirstFaultAt script.now fault place }
    ensures line { IsLineAt script.now place result.start result.bytes.now result.number }
{
    faults_tell_their_line();
    match line_at(script, place) {
        Some(line) => line,
        None => unreachable!(),
    }
}

/// A place of a script in its line.
fn place_in(line: LineAt<'_>, place: usize) -> ScriptPlace
    requires from { line.start ≤ place }
    requires to { place ≤ line.start + length line.bytes.now }
    ensures line { result.line ≡ line.entry.number }
    ensures column { result.column ≡ place - line.entry.start + 1 }
    ensures label { IsLabel line.entry.bytes.now result.basic_line }
{
    ScriptPlace {
        line: line.number,
        column: place - line.start + 1,
        basic_line: basic_number(line.bytes),
    }
}

/// A line, cut at a place of its script.
fn cut_at(line: LineAt<'_>, place: usize) -> CutLine<'_>
    requires from { line.start ≤ place }
    requires to { place ≤ line.start + length line.bytes.now }
{
    let (before, after) = line.bytes.split_at(place - line.start);
    CutLine {
        before,
        rest: without_end(after),
    }
}

/// Adds the line around a place with a caret under it, the place, what is wrong there, and what to do
/// about it.
fn push_place(
    text: &mut String,
    place: ScriptPlace,
    line: CutLine<'_>,
    fault: ScriptFault,
) -> Result<(), NoMemory> {
    push_shown_line(text, line)?;
    write!(text, "^\n  line {}, column {}", place.line, place.column)?;
    if let Some(label) = place.basic_line {
        write!(text, ", BASIC line {label}")?;
    }
    match problem_at(line.before, line.rest, fault) {
        Problem::Expected(wanted) => push_expected(text, wanted, word_in(line))?,
        Problem::Limit(limit) => write!(text, ": {limit}\n")?,
    }
    if cut_before(line.before).is_in_string {
        push_letter(text, line.rest)?;
    }
    if let Some(advice) = advice_at(line.before, line.rest, fault) {
        write!(text, "  {advice}\n")?;
    }
    if asks_for_a_word(fault) {
        push_hints(text, line, fault)?;
    }
    Ok(())
}

/// Adds what was expected at a place, and the word that is there.
fn push_expected(text: &mut String, wanted: &str, found: &[u8]) -> Result<(), NoMemory> {
    write!(text, ": expected {wanted}, found ")?;
    match found {
        [] => write!(text, "the end of the line\n"),
        [b'"', ..] => write!(text, "the string {}\n", Cut(found)),
        _ => write!(text, "\"{}\"\n", Cut(found)),
    }
}

/// The word at a place; inside a string, the byte.
fn word_in(line: CutLine<'_>) -> &[u8] {
    let len = if cut_before(line.before).is_in_string {
        line.rest.len().min(1)
    } else {
        word_at(line.rest).len
    };
    &line.rest[..len]
}

/// Says of a string's bytes that the letter in front is none of the C64, and what to type instead; of ASCII's bytes
/// only that some are to be left out.
///
/// # Errors
///
/// [`NoMemory`] where memory was refused.
pub fn explain_letter(alloc: Global, rest: &[u8]) -> Result<String, NoMemory> {
    let mut text = String::new(alloc);
    push_letter(&mut text, rest)?;
    Ok(text)
}

/// Adds that the letter in front is none of the C64, by its bytes, where it is none of ASCII, and what to type instead.
fn push_letter(text: &mut String, rest: &[u8]) -> Result<(), NoMemory> {
    let letter = letter_in(rest);
    match letter {
        [127..=255] => write!(
            text,
            "  the byte {} is no character of the C64 as typed\n",
            Escaped(letter)
        ),
        [127..=255, ..] => write!(
            text,
            "  the letter {}, as UTF-8 has it, is no character of the C64 as typed\n",
            Escaped(letter)
        ),
        _ => Ok(()),
    }?;
    let instead = typed_instead(letter, !ends_string(rest));
    match instead.or(wide_letter(rest)) {
        Some(sentence) => write!(text, "  {sentence}\n"),
        None => Ok(()),
    }
}

/// Adds how to write a word: without spaces, as a string if it is a number to print, or in another
/// way if this profile does not have it.
fn push_hints(text: &mut String, line: CutLine<'_>, fault: ScriptFault) -> Result<(), NoMemory> {
    if let Some(word) = word_at(line.rest).unspaced() {
        write!(text, "  write {word} without spaces\n")?;
    }
    if is_number(line.rest) && takes_item(line.before) {
        write!(text, "  {NUMBER}\n")?;
    }
    let wants_number = !matches!(fault, ScriptFault::UnknownWord(_));
    match foreign_word(line.before, line.rest, wants_number) {
        Some(Foreign::Word(word)) => write!(text, "  {word} is not supported\n  {WHOLE_PROGRAM}\n"),
        Some(Foreign::Variable(sentence)) => write!(text, "  {sentence}\n  {WHOLE_PROGRAM}\n"),
        Some(Foreign::Sentence(sentence)) => write!(text, "  {sentence}\n"),
        None => Ok(()),
    }?;
    match printer_bytes(line.before, line.rest) {
        Some(sentence) => write!(text, "  {sentence}\n"),
        None => Ok(()),
    }
}

/// Whether a word or a number of this profile was wanted.
fn asks_for_a_word(fault: ScriptFault) -> bool {
    matches!(
        fault,
        ScriptFault::UnknownWord(_)
            | ScriptFault::BadNumber(_)
            | ScriptFault::BadDevice(_)
            | ScriptFault::BadSecond(_)
    )
}

/// Adds the line around a place, and what is before a caret under it.
fn push_shown_line(text: &mut String, line: CutLine<'_>) -> Result<(), NoMemory> {
    let start = line.before.len().saturating_sub(BEFORE);
    let front = text.len();
    let margin = if start > 0 { "  .." } else { "  " };
    write!(text, "{margin}{}", Escaped(&line.before[start..]))?;
    let width = text.len().saturating_sub(front);
    write!(text, "{}\n{:width$}", Cut(line.rest), "")
}
