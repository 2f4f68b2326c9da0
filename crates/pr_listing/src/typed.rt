//! The text of a script that petcat's text or a magazine's listing says.

ghost use Rattle.std.specs.Prelude.{◌≡◌, ◌++◌, ◌≤◌, ◌<◌, ◌∷◌, ◌⊎◌, ◌↔◌, ℕ, [], None, Some, false, length, true, IfErr, IfOk, IsTrue, MatchResult, OnOk};
ghost use Rattle.std.specs.List.{prefix_len};
ghost use Rattle.pr_listing.specs.Listing.{quoted_text, string_text};
ghost use Rattle.pr_listing.specs.Typed.{IsHeading, IsLineFault, IsPieceFault, IsTypedFault, IsTypedText, at_place, before_remark, begins_remark, begun, byte_of, closing, has_keys, is_within, repeated};
ghost use Rattle.pr_listing.specs.Pieces.{IsFrontFault, IsFrontTaken, IsLineTaken, IsNameTaken, IsNoName, IsPieceTaken};

use crate::fault::ListingFault;
use crate::line::{add_in_string, add_quoted};
use crate::names::{Brackets, Spelling, bracketed};
use pr_basic::{cut_line, without_return};
use std::alloc::{AllocError, Global};

/// Why no piece of a string is at a place.
#[derive(Clone, Copy, Debug, PartialEq, Eq)]
pub enum PieceFault {
    /// No known name is in the brackets, or they are not closed.
    UnknownName,
    /// A byte that no string of this spelling has.
    BadByte,
    /// Memory was refused.
    NoMemory,
}

impl From<AllocError> for PieceFault {
    fn from(_refused: AllocError) -> PieceFault
        ensures { result ≡ PieceFault.NoMemory }
    {
        PieceFault::NoMemory
    }
}

impl PieceFault {
    /// The fault of a listing at this line and this column, both counted from 1.
    fn at(self, line: usize, column: usize) -> ListingFault
        ensures { result ≡ at_place self line column }
    {
        match self {
            PieceFault::UnknownName => ListingFault::UnknownName(line, column),
            PieceFault::BadByte => ListingFault::BadByte(line, column),
            PieceFault::NoMemory => ListingFault::NoMemory,
        }
    }
}

/// The byte of the computer that a character of a string is.
fn byte_of(spelling: Spelling, c: u8) -> Option<u8>
    ensures { result ≡ byte_of spelling c }
{
    match spelling {
        Spelling::Petcat => match c {
            b'a'..=b'z' => Some(c - 32),
            b'A'..=b'Z' => Some(c + 128),
            b' '..=b'_' => Some(c),
            _ => None,
        },
        Spelling::Magazine => match c {
            b' '..=b'_' => Some(c),
            _ => None,
        },
    }
}

/// The byte that ends brackets.
fn closing(brackets: Brackets) -> u8
    ensures { result ≡ closing brackets }
{
    match brackets {
        Brackets::Curly => b'}',
        Brackets::Square => b']',
    }
}

/// Whether strings of this spelling have keys in `[<` and `>]`.
fn has_keys(spelling: Spelling) -> bool
    ensures { result ≡ has_keys spelling }
{
    match spelling {
        Spelling::Petcat => false,
        Spelling::Magazine => true,
    }
}

/// The brackets that begin at the front of some bytes of a string.
fn begun(spelling: Spelling, bytes: &[u8]) -> Option<Brackets>
    ensures { result ≡ begun spelling bytes.now }
{
    if bytes.is_empty() {
        return None;
    }
    if bytes[0] == b'{' {
        return Some(Brackets::Curly);
    }
    if has_keys(spelling) && bytes.len() > 1 && bytes[0] == b'[' && bytes[1] == b'<' {
        return Some(Brackets::Square);
    }
    None
}

/// How many bytes are before the first one that ends brackets.
fn count_within(brackets: Brackets, bytes: &[u8]) -> usize
    ensures count { result ≡ prefix_len (is_within brackets) bytes.now }
    ensures within { result ≤ length bytes.now }
{
    for (i, b) in bytes.iter().enumerate() {
        if *b == closing(brackets) {
            return i;
        }
    }
    bytes.len()
}

/// Adds a byte of a string this many times.
fn add_times(text: &mut Vec<u8>, count: u32, b: u8) -> Result<(), AllocError>
    ensures { OnOk result (text.new.items ≡ text.old.items ++ repeated count (string_text b)) }
{
    for _time in 0..count {
        add_in_string(text, b)?;
    }
    Ok(())
}

/// Adds what a name says, of which the first bracket is before these bytes. Returns the bytes after it.
fn add_name<'a>(
    text: &mut Vec<u8>,
    spelling: Spelling,
    brackets: Brackets,
    bytes: &'a [u8],
) -> Result<&'a [u8], PieceFault>
    ensures { MatchResult result
        (λ rest. IsNameTaken spelling brackets bytes.entry.now rest.now text.old.items text.new.items × (length rest.now < length bytes.entry.now))
        (λ fault. (fault ≡ PieceFault.NoMemory) ⊎ ((fault ≡ PieceFault.UnknownName) × IsNoName spelling brackets bytes.entry.now)) }
{
    let n = count_within(brackets, bytes);
    if n == bytes.len() {
        return Err(PieceFault::UnknownName);
    }
    match bracketed(spelling, brackets, &bytes[..n]) {
        None => Err(PieceFault::UnknownName),
        Some((count, b)) => match add_times(text, count, b) {
            Ok(()) => Ok(&bytes[n + 1..]),
            Err(_) => Err(PieceFault::NoMemory),
        },
    }
}

/// Adds a character of a string, which may be its last quote.
fn add_character(text: &mut Vec<u8>, spelling: Spelling, c: u8) -> Result<(), PieceFault>
    ensures { MatchResult result
        (λ _. (b : ℕ) × (byte_of spelling c ≡ Some b) × (text.new.items ≡ text.old.items ++ quoted_text b))
        (λ fault. (fault ≡ PieceFault.NoMemory) ⊎ ((fault ≡ PieceFault.BadByte) × (byte_of spelling c ≡ None))) }
{
    let Some(b) = byte_of(spelling, c) else {
        return Err(PieceFault::BadByte);
    };
    match add_quoted(text, b) {
        Ok(()) => Ok(()),
        Err(_) => Err(PieceFault::NoMemory),
    }
}

/// Adds a byte as it is.
fn add_one(text: &mut Vec<u8>, b: u8) -> Result<(), PieceFault>
    ensures ok { OnOk result (text.new.items ≡ text.old.items ++ b ∷ []) }
    ensures err { IfErr result (λ fault. fault ≡ PieceFault.NoMemory) }
{
    match text.push(b) {
        Ok(()) => Ok(()),
        Err(_) => Err(PieceFault::NoMemory),
    }
}

/// Adds the piece at the front of some bytes of a line. Returns the bytes after it, and whether they
/// are in a string.
fn add_piece<'a>(
    text: &mut Vec<u8>,
    spelling: Spelling,
    quoted: bool,
    bytes: &'a [u8],
) -> Result<(&'a [u8], bool), PieceFault>
    requires { 0 < length bytes.now }
    ensures { MatchResult result
        (λ r. IsPieceTaken spelling quoted bytes.entry.now r.0.now r.1 text.old.items text.new.items × (length r.0.now < length bytes.entry.now))
        (λ fault. (fault ≡ PieceFault.NoMemory) ⊎ ((quoted ≡ true) × IsPieceFault spelling fault bytes.entry.now)) }
{
    let c = bytes[0];
    let after = &bytes[1..];
    if !quoted {
        add_one(text, c)?;
        return Ok((after, c == b'"'));
    }
    match begun(spelling, bytes) {
        Some(brackets) => {
            let rest = add_name(text, spelling, brackets, after)?;
            Ok((rest, true))
        }
        None => {
            add_character(text, spelling, c)?;
            Ok((after, c != b'"'))
        }
    }
}

/// Adds the pieces of a line. A fault comes with how many bytes are before it.
fn add_pieces(
    text: &mut Vec<u8>,
    spelling: Spelling,
    front: &[u8],
) -> Result<(), (PieceFault, usize)>
    ensures pieces { MatchResult result
        (λ _. IsFrontTaken spelling front.now text.old.items text.new.items)
        (λ e. (e.0 ≡ PieceFault.NoMemory) ⊎ IsFrontFault spelling e.0 e.1 front.now) }
    ensures within { IfErr result (λ e. e.1 ≤ length front.now) }
{
    let mut rest = front;
    let mut quoted = false;
    while !rest.is_empty() {
        match add_piece(text, spelling, quoted, rest) {
            Ok((more, in_string)) => {
                rest = more;
                quoted = in_string;
            }
            Err(fault) => return Err((fault, front.len() - rest.len())),
        }
    }
    Ok(())
}

/// Whether a remark begins there.
fn begins_remark(bytes: &[u8]) -> bool
    ensures test { result ≡ begins_remark bytes.now }
{
    bytes.len() >= 3 && bytes[..3].eq_ignore_ascii_case(b"rem")
}

/// How many bytes of a line are before its remark.
#[tactic(auto, unfolding(crate::specs::Typed::before_remark))]
pub fn before_remark(line: &[u8]) -> usize
    ensures count { result ≡ before_remark false line.now }
    ensures within { result ≤ length line.now }
{
    let mut quoted = false;
    for i in 0..line.len() {
        if !quoted && begins_remark(&line[i..]) {
            return i;
        }
        if line[i] == b'"' {
            quoted = !quoted;
        }
    }
    line.len()
}

/// Whether a line is petcat's heading.
fn is_heading(spelling: Spelling, line: &[u8]) -> bool
    ensures { IsTrue result ↔ IsHeading spelling line.now }
{
    match spelling {
        Spelling::Petcat => !line.is_empty() && line[0] == b';',
        Spelling::Magazine => false,
    }
}

/// Adds the text of a line without its end. A fault comes with how many bytes are before it.
fn add_line(text: &mut Vec<u8>, spelling: Spelling, line: &[u8]) -> Result<(), (PieceFault, usize)>
    ensures line { MatchResult result
        (λ _. IsLineTaken spelling line.now text.old.items text.new.items)
        (λ e. (e.0 ≡ PieceFault.NoMemory) ⊎ IsLineFault spelling e.0 e.1 line.now) }
    ensures within { IfErr result (λ e. e.1 ≤ length line.now) }
{
    if is_heading(spelling, line) {
        return Ok(());
    }
    let n = before_remark(line);
    add_pieces(text, spelling, &line[..n])?;
    match text.extend_from_slice(&line[n..]) {
        Ok(()) => Ok(()),
        Err(_) => Err((PieceFault::NoMemory, 0)),
    }
}

/// Makes the script's text that a listing in this spelling says: a line for each line, as
/// `specs/Typed.antt` says it. It is Ok exactly where all strings have the spelling's characters and
/// names. `pr_basic` reads it as a script.
///
/// Outside strings and in remarks the text is as it was. In a string of petcat's text, letters of one
/// case are what the computer has for the other: `a` is byte 65, and `A` is byte 193, which is shifted.
/// A magazine's string has capitals alone, and `A` is byte 65. A name in braces, in either case, is the
/// byte that petcat or the magazine writes so, as `{down}`, `{SHIFT-A}` or `{$8e}`; with a count of 1
/// to 255 and a space before it, as `{3 down}`, it is as many. A magazine's `[<A>]` is `{CBM-A}`, `[<5>]`
/// is `{COMD 5}`, and `[<3 A>]` is three. A line of petcat's text that begins with `;` is its heading, and
/// no line of the program.
///
/// # Errors
///
/// - [`ListingFault::UnknownName`]: a brace of a string or a magazine's `[<`, with no such name in it, or not
///   closed.
/// - [`ListingFault::BadByte`]: a byte of a string that this spelling does not have, as a small letter
///   of a magazine's.
/// - [`ListingFault::NoMemory`]: memory was refused.
///
/// Each of the first two comes with the line and the column of the first fault, counted from 1.
pub fn typed_text(alloc: Global, spelling: Spelling, file: &[u8]) -> Result<Vec<u8>, ListingFault>
    ensures ok { IfOk result (λ text. IsTypedText spelling file.now text.items) }
    ensures err { IfErr result (λ fault. (fault ≡ ListingFault.NoMemory) ⊎ IsTypedFault spelling file.now fault) }
{
    let mut text = Vec::new(alloc);
    let mut rest = file;
    let mut number = 1;
    while !rest.is_empty() {
        let (line, more) = cut_line(rest);
        if let Err((fault, column)) = add_line(&mut text, spelling, without_return(line)) {
            return Err(fault.at(number, column + 1));
        }
        if let Err(_) = text.push(b'\n') {
            return Err(ListingFault::NoMemory);
        }
        rest = more;
        number += 1;
    }
    Ok(text)
}
