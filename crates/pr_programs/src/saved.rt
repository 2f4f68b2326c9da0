//! Saved programs as programs that are typed.

ghost use Rattle.std.specs.Prelude.{◌≡◌, ◌++◌, ◌∷◌, ◌<◌, [], ◌⊎◌, IfErr, IfOk, OnOk};
ghost use Rattle.pr_listing.specs.Keywords.{is_token};
ghost use Rattle.pr_listing.specs.Listing.{is_letter};
ghost use Rattle.pr_listing.specs.Program.{IsProgramFault};
ghost use Rattle.pr_programs.specs.Seen.{unsaved};
ghost use Rattle.pr_programs.specs.Saved.{IsSavedText, IsTypedProgram, IsUnsaved, byte_text, bytes_text, colon, digit, is_stray, key_text, line_text, mode_after, spelled};

use crate::fault::BasicFault;
use crate::lists::add_number;
use crate::typed::{ends_row, is_plain};
use pr_base::is_digit;
use pr_listing::{Front, ListingFault, ListingForm, found_form, front_of, program_in, token_name};
use pr_page::Sequence;
use std::alloc::{AllocError, Global};

/// Where a byte of a line is.
#[derive(Clone, Copy, Debug, PartialEq, Eq)]
pub enum Mode {
    /// In a statement.
    Plain,
    /// In a string.
    Quoted,
    /// In the items of DATA.
    Items,
    /// In a string of DATA.
    QuotedItem,
    /// In a remark.
    Remark,
}

impl Mode {
    /// The place of the byte after one that is here: token 131 begins DATA, 143 a remark.
    fn after(self, b: u8) -> Mode
        ensures { result ≡ mode_after self b }
    {
        match (self, b) {
            (Mode::Plain, b'"') => Mode::Quoted,
            (Mode::Plain, 131) => Mode::Items,
            (Mode::Plain, 143) => Mode::Remark,
            (Mode::Quoted, b'"') => Mode::Plain,
            (Mode::Items, b'"') => Mode::QuotedItem,
            (Mode::Items, b':') => Mode::Plain,
            (Mode::QuotedItem, b'"') => Mode::Items,
            _ => self,
        }
    }
}

/// Returns whether a byte of a statement is a token.
fn is_token(b: u8) -> bool
    ensures { result ≡ is_token b }
{
    b >= 128 && b <= 203
}

/// Returns whether a byte of a statement is a letter.
fn is_letter(b: u8) -> bool
    ensures { result ≡ is_letter b }
{
    (b >= b'A' && b <= b'Z') || (b >= b'a' && b <= b'z')
}

/// What stands for a byte that no typed line can have: no statement begins with it, and no item of DATA has it.
const NOTHING: u8 = 1;

/// Returns whether a byte of a statement means something else in a typed line.
fn is_stray(b: u8) -> bool
    ensures { result ≡ is_stray b }
{
    ends_row(b)
        || (b >= b'a' && b <= b'z')
        || b == b'*'
        || b == b'+'
        || b == b'-'
        || b == b'/'
        || (b >= b'<' && b <= b'?')
        || b == b'^'
}

/// Returns the hexadecimal digit of a number below 16.
fn digit(n: u8) -> u8
    requires { n < 16 }
    ensures { result ≡ digit n }
{
    if n <= 9 { n + b'0' } else { n + (b'A' - 10) }
}

/// Adds a byte of a string, or the quote at its end: others than those of ASCII have a name.
fn add_quoted(text: &mut Vec<u8>, b: u8) -> Result<(), AllocError>
    ensures { OnOk result (text.new.items ≡ text.old.items ++ key_text b) }
{
    if is_plain(b) {
        text.push(b)?;
        return Ok(());
    }
    text.extend_from_slice(&[b'{', b'$', digit(b / 16), digit(b % 16), b'}'])
}

/// Adds a byte of a statement: a keyword's token as the keyword. A space follows a keyword and a letter, so that
/// letters make no keyword.
fn add_spelled(text: &mut Vec<u8>, b: u8) -> Result<(), AllocError>
    ensures { OnOk result (text.new.items ≡ text.old.items ++ spelled b) }
{
    if is_token(b) {
        text.extend_from_slice(token_name(b))?;
        text.push(b' ')?;
        return Ok(());
    }
    if is_stray(b) {
        text.push(NOTHING)?;
        return Ok(());
    }
    text.push(b)?;
    if is_letter(b) {
        text.push(b' ')?;
    }
    Ok(())
}

/// Adds a byte of a line, in its mode. A remark counts for nothing, and has no line's end.
fn add_byte(text: &mut Vec<u8>, mode: Mode, b: u8) -> Result<(), AllocError>
    ensures { OnOk result (text.new.items ≡ text.old.items ++ byte_text mode b) }
{
    match mode {
        Mode::Plain => add_spelled(text, b),
        Mode::Quoted | Mode::QuotedItem => add_quoted(text, b),
        Mode::Items => {
            text.push(if ends_row(b) { NOTHING } else { b })?;
            Ok(())
        }
        Mode::Remark => {
            text.push(if is_plain(b) { b } else { b'.' })?;
            Ok(())
        }
    }
}

/// Adds the bytes of a line.
fn add_bytes(text: &mut Vec<u8>, bytes: &[u8]) -> Result<(), AllocError>
    ensures { OnOk result (text.new.items ≡ text.old.items ++ bytes_text Mode.Plain bytes.now) }
{
    let mut mode = Mode::Plain;
    for b in bytes {
        add_byte(text, mode, *b)?;
        mode = mode.after(*b);
    }
    Ok(())
}

/// Adds a colon in front of a line whose bytes would belong to its number, or that has none.
fn add_colon(text: &mut Vec<u8>, bytes: &[u8]) -> Result<(), AllocError>
    ensures { OnOk result (text.new.items ≡ text.old.items ++ colon bytes.now) }
{
    let is_apart = match bytes {
        [] => false,
        [first, ..] => !is_digit(*first) && *first != b' ',
    };
    if is_apart {
        return Ok(());
    }
    text.push(b':')?;
    Ok(())
}

/// Adds a line of a saved program, whose number is to be `least` at least.
fn add_line(text: &mut Vec<u8>, least: u64, number: u32, bytes: &[u8]) -> Result<(), AllocError>
    ensures { OnOk result
        (text.new.items ≡ text.old.items ++ line_text least (record { number = number; bytes = bytes.now })) }
{
    if u64::from(number) < least {
        text.push(b':')?;
    }
    add_number(text, number)?;
    text.push(b' ')?;
    add_colon(text, bytes)?;
    add_bytes(text, bytes)?;
    text.push(b'\n')?;
    Ok(())
}

/// Makes the text of a saved program as it is typed, a line for each line.
fn saved_text(alloc: Global, file: &[u8]) -> Result<Vec<u8>, ListingFault>
    ensures ok { IfOk result (λ text. IsSavedText file.now text.items) }
    ensures err { IfErr result (λ fault. (fault ≡ ListingFault.NoMemory) ⊎ IsProgramFault file.now fault) }
{
    if file.len() < 2 {
        return Err(ListingFault::NoAddress);
    }
    let mut text = Vec::new(alloc);
    let mut rest = &file[2..];
    let mut number = 1;
    let mut least = 0;
    'lines: loop {
        match front_of(rest) {
            Front::Line {
                number: line,
                bytes,
                rest: more,
            } => {
                if let Err(_) = add_line(&mut text, least, line, bytes) {
                    return Err(ListingFault::NoMemory);
                }
                number += 1;
                least = u64::from(line) + 1;
                rest = more;
            }
            Front::End if number == 1 => return Err(ListingFault::NoLine),
            Front::End => return Ok(text),
            Front::CutOff => return Err(ListingFault::CutOff(number)),
        }
    }
}

/// Returns the fault of a saved program that has no text.
fn unsaved(fault: ListingFault) -> BasicFault
    ensures { result ≡ unsaved fault }
{
    match fault {
        ListingFault::NoMemory => BasicFault::NoMemory,
        _ => BasicFault::Listing(fault),
    }
}

/// Makes the text of a program as it is typed, where the first bytes show that it is a saved one, as it is or in a P00
/// or T64 file. None for any other text.
///
/// # Errors
///
/// - [`BasicFault::Listing`]: the file is no whole saved program.
/// - [`BasicFault::NoMemory`]: memory was refused.
pub fn typed_program(alloc: Global, bytes: &[u8]) -> Result<Option<Sequence<u8>>, BasicFault>
    ensures ok { IfOk result (λ found. IsTypedProgram bytes.now found) }
    ensures err { IfErr result (λ fault. (fault ≡ BasicFault.NoMemory) ⊎ IsUnsaved bytes.now fault) }
{
    match found_form(bytes) {
        ListingForm::Program => {}
        _ => return Ok(None),
    }
    match saved_text(alloc, program_in(bytes)) {
        Ok(text) => Ok(Some(Sequence::from_vec(text))),
        Err(fault) => Err(unsaved(fault)),
    }
}
