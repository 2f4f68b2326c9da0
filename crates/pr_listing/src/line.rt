//! The text of a line.

ghost use Rattle.std.specs.Prelude.{◌≡◌, ◌++◌, ◌∷◌, [], decimal, OnOk};
ghost use Rattle.pr_basic.specs.Grammar.{is_printable};
ghost use Rattle.pr_listing.specs.Keywords.{is_token};
ghost use Rattle.pr_listing.specs.Listing.{byte_text, bytes_text, is_held, is_letter, line_text, mode_after, or_question, plain_text, quoted_text, string_text};

use crate::keywords::keyword;
use itoa::Buffer;
use std::alloc::AllocError;

/// Where a byte of a line is.
#[derive(Clone, Copy, Debug, PartialEq, Eq)]
pub enum Mode {
    /// Outside strings and remarks.
    Plain,
    /// In a string, after its first quote.
    Quoted,
    /// In a remark, after its keyword.
    Remark,
}

impl Mode {
    /// The place of the byte after one that is here.
    pub fn after(self, b: u8) -> Mode
        ensures { result ≡ mode_after self b }
    {
        match self {
            Mode::Plain => match b {
                b'"' => Mode::Quoted,
                143 => Mode::Remark,
                _ => Mode::Plain,
            },
            Mode::Quoted => match b {
                b'"' => Mode::Plain,
                _ => Mode::Quoted,
            },
            Mode::Remark => Mode::Remark,
        }
    }
}

/// Whether a script's text can hold a byte, but for the end of its lines.
fn is_printable(b: u8) -> bool
    ensures { result ≡ is_printable b }
{
    b >= b' ' && b <= b'~'
}

/// Whether a script's string can hold a byte.
pub fn is_held(b: u8) -> bool
    ensures { result ≡ is_held b }
{
    is_printable(b) && b != b'"'
}

/// Whether a byte is a token.
pub fn is_token(b: u8) -> bool
    ensures { result ≡ is_token b }
{
    b >= 128 && b <= 203
}

/// Whether a byte is a letter of a script's keywords, in either case.
pub fn is_letter(b: u8) -> bool
    ensures { result ≡ is_letter b }
{
    (b >= b'A' && b <= b'Z') || (b >= b'a' && b <= b'z')
}

/// Adds a number in decimal at the end of a text.
fn add_number(text: &mut Vec<u8>, n: u32) -> Result<(), AllocError>
    ensures { OnOk result (text.new.items ≡ text.old.items ++ decimal n) }
{
    let mut buffer = Buffer::new();
    text.extend_from_slice(buffer.format(n).as_bytes())
}

/// Adds a byte, or `?` for one that a text does not hold.
fn add_or_question(text: &mut Vec<u8>, b: u8) -> Result<(), AllocError>
    ensures { OnOk result (text.new.items ≡ text.old.items ++ or_question b) }
{
    if is_printable(b) {
        text.push(b)?;
    } else {
        text.push(b'?')?;
    }
    Ok(())
}

/// Adds a byte that is outside strings and remarks.
fn add_plain(text: &mut Vec<u8>, b: u8) -> Result<(), AllocError>
    ensures { OnOk result (text.new.items ≡ text.old.items ++ plain_text b) }
{
    if is_token(b) {
        text.extend_from_slice(keyword(b))?;
        text.push(b' ')?;
        return Ok(());
    }
    if is_letter(b) {
        text.push(b)?;
        text.push(b' ')?;
        return Ok(());
    }
    add_or_question(text, b)
}

/// Adds a byte of a string.
pub fn add_in_string(text: &mut Vec<u8>, b: u8) -> Result<(), AllocError>
    ensures { OnOk result (text.new.items ≡ text.old.items ++ string_text b) }
{
    if is_held(b) {
        text.push(b)?;
        return Ok(());
    }
    text.extend_from_slice(b"\"CHR$(")?;
    add_number(text, u32::from(b))?;
    text.extend_from_slice(b")\"")
}

/// Adds a byte of a string, or the quote that ends it.
pub fn add_quoted(text: &mut Vec<u8>, b: u8) -> Result<(), AllocError>
    ensures { OnOk result (text.new.items ≡ text.old.items ++ quoted_text b) }
{
    if b == b'"' {
        text.push(b)?;
        return Ok(());
    }
    add_in_string(text, b)
}

/// Adds a byte of a line, which is there.
fn add_byte(text: &mut Vec<u8>, mode: Mode, b: u8) -> Result<(), AllocError>
    ensures { OnOk result (text.new.items ≡ text.old.items ++ byte_text mode b) }
{
    match mode {
        Mode::Plain => add_plain(text, b),
        Mode::Quoted => add_quoted(text, b),
        Mode::Remark => add_or_question(text, b),
    }
}

/// Adds the bytes of a line.
fn add_bytes(text: &mut Vec<u8>, bytes: &[u8]) -> Result<(), AllocError>
    ensures { OnOk result (text.new.items ≡ text.old.items ++ bytes_text Mode.Plain bytes.now) }
{
    let mut mode = Mode::Plain;
    for b in bytes {
        add_byte(text, mode, *b)?;
        mode = mode.after(*b);
    }
    Ok(())
}

/// Adds a line of a program, with its number.
pub fn add_line(text: &mut Vec<u8>, number: u32, bytes: &[u8]) -> Result<(), AllocError>
    ensures { OnOk result (text.new.items ≡ text.old.items ++ line_text (record { number = number; bytes = bytes.now })) }
{
    add_number(text, number)?;
    text.push(b' ')?;
    add_bytes(text, bytes)?;
    text.push(b'\n')?;
    Ok(())
}
