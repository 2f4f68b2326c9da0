//! Programs whose strings are typed, with names of keys in braces.

ghost use Rattle.std.specs.Prelude.{◌≡◌, ◌++◌, ◌+◌, ◌<◌, ◌≤◌, IfErr, IfOk, Ok, OnOk, drop, get_or, length, replicate};
ghost use Rattle.pr_programs.specs.Seen.{TypedFaultsAs};
ghost use Rattle.pr_programs.specs.Typed.{ends_row, is_kept, is_letter, is_plain, key, letters_after, name_size, part_after, piece, place_of, quoted_after, typed};

use crate::fault::Reason;
use pr_listing::{Brackets, Spelling, bracketed};
use std::alloc::{AllocError, Global};

/// Where a byte of a typed text is.
#[derive(Clone, Copy, Debug, PartialEq, Eq)]
pub struct Part {
    /// In a string.
    pub quoted: bool,
    /// How many letters of DATA are just before it, outside strings; 4 from DATA to the end of its row.
    pub letters: u8,
}

/// A piece of a typed text.
#[derive(Clone, Copy, Debug, PartialEq, Eq)]
pub struct Piece {
    /// The byte of the program.
    pub byte: u8,
    /// How many times it is there.
    pub count: u32,
    /// How many bytes the text has for it.
    pub size: usize,
}

/// Why a typed text is no text of a program.
#[derive(Clone, Copy, Debug, PartialEq, Eq)]
pub enum TypedFault {
    /// At this place, the number of bytes before it, a string or an item of DATA has what it cannot have.
    At(usize, Reason),
    /// Memory was refused.
    NoMemory,
}

/// Returns whether a byte ends a row.
pub fn ends_row(b: u8) -> bool
    ensures { result ≡ ends_row b }
{
    b == b'\n' || b == b'\r'
}

/// Returns whether a line of a program can have a byte of a key in a string.
fn is_kept(b: u8) -> bool
    ensures { result ≡ is_kept b }
{
    !(b == 0 || ends_row(b) || b == b'"')
}

/// Returns whether a string goes on after a byte.
fn quoted_after(quoted: bool, b: u8) -> bool
    ensures { result ≡ quoted_after quoted b }
{
    if b == b'"' {
        !quoted
    } else {
        quoted && !ends_row(b)
    }
}

/// Returns whether a byte is the letter of DATA, in either case, before which so many are.
fn is_letter(letters: u8, b: u8) -> bool
    ensures { result ≡ is_letter letters b }
{
    match letters {
        0 => b == b'D' || b == b'd',
        2 => b == b'T' || b == b't',
        _ => b == b'A' || b == b'a',
    }
}

/// Returns how many letters of DATA are before the next byte.
fn letters_after(part: Part, b: u8) -> u8
    ensures { result ≡ letters_after part b }
{
    if ends_row(b) {
        0
    } else if part.letters >= 4 {
        4
    } else if part.quoted {
        0
    } else if is_letter(part.letters, b) {
        part.letters + 1
    } else if is_letter(0, b) {
        1
    } else {
        0
    }
}

/// Returns where the byte after one is.
fn part_after(part: Part, b: u8) -> Part
    ensures { result ≡ part_after part b }
{
    Part {
        quoted: quoted_after(part.quoted, b),
        letters: letters_after(part, b),
    }
}

/// Returns whether a byte is typed as it is, in a string or behind DATA.
pub fn is_plain(b: u8) -> bool
    ensures { result ≡ is_plain b }
{
    b >= b' ' && b <= b'~' && b != b'{'
}

/// Returns how many bytes are before a closing brace.
fn name_size(bytes: &[u8]) -> usize
    ensures value { result ≡ name_size bytes.now }
    ensures within { result ≤ length bytes.now }
{
    for (i, b) in bytes.iter().enumerate() {
        if *b == b'}' {
            return i;
        }
    }
    bytes.len()
}

/// Returns the key after an opening brace.
#[tactic(auto, unfolding(crate::specs::Typed::key))]
fn key(bytes: &[u8]) -> Result<Piece, Reason>
    ensures value { result ≡ key bytes.now }
    ensures some { IfOk result (λ piece. 0 < piece.size) }
    ensures within { IfOk result (λ piece. piece.size ≤ length bytes.now + 1) }
{
    let size = name_size(bytes);
    if size == bytes.len() {
        return Err(Reason::Name);
    }
    let Some((count, byte)) = bracketed(Spelling::Petcat, Brackets::Curly, &bytes[..size]) else {
        return Err(Reason::Name);
    };
    if !is_kept(byte) {
        return Err(Reason::Name);
    }
    Ok(Piece {
        byte,
        count,
        size: size + 2,
    })
}

/// Returns the piece at the front of some bytes, of which there is one.
#[tactic(auto, unfolding(crate::specs::Typed::piece))]
fn front_piece(part: Part, bytes: &[u8]) -> Result<Piece, Reason>
    requires { 0 < length bytes.now }
    ensures value { result ≡ piece part (get_or bytes.now 0 0) (drop 1 bytes.now) }
    ensures some { IfOk result (λ piece. 0 < piece.size) }
    ensures within { IfOk result (λ piece. piece.size ≤ length bytes.now) }
{
    let byte = bytes[0];
    let itself = Piece {
        byte,
        count: 1,
        size: 1,
    };
    if ends_row(byte) {
        return Ok(itself);
    }
    if part.quoted && byte == b'{' {
        return key(&bytes[1..]);
    }
    if is_plain(byte) || !(part.quoted || part.letters >= 4) {
        return Ok(itself);
    }
    Err(Reason::Byte)
}

/// Adds a byte so many times.
fn add_times(text: &mut Vec<u8>, byte: u8, count: u32) -> Result<(), AllocError>
    ensures { OnOk result (text.new.items ≡ text.old.items ++ replicate count byte) }
{
    for _time in 0..count {
        text.push(byte)?;
    }
    Ok(())
}

/// Makes the text of a program whose strings are typed: a name of petcat's in braces is the byte of its key, and
/// other bytes are themselves.
///
/// # Errors
///
/// - [`TypedFault::At`]: the first place in a string where a brace begins no name, or in a string or behind DATA where
///   a byte is none of 32 to 126, or behind DATA a brace outside strings.
/// - [`TypedFault::NoMemory`]: memory was refused.
pub fn typed_text(alloc: Global, text: &[u8]) -> Result<Vec<u8>, TypedFault>
    ensures ok { IfOk result (λ bytes. typed text.now ≡ Ok bytes.items) }
    ensures err { IfErr result (λ fault. TypedFaultsAs fault (typed text.now)) }
{
    let mut made = Vec::new(alloc);
    let mut place = 0;
    let mut part = Part {
        quoted: false,
        letters: 0,
    };
    while place < text.len() {
        match front_piece(part, &text[place..]) {
            Ok(piece) => {
                if let Err(_) = add_times(&mut made, piece.byte, piece.count) {
                    return Err(TypedFault::NoMemory);
                }
                part = part_after(part, text[place]);
                place += piece.size;
            }
            Err(reason) => return Err(TypedFault::At(place, reason)),
        }
    }
    Ok(made)
}

/// Returns the place in a typed text of what is at a place of the program that it makes.
pub fn place_of(text: &[u8], made: usize) -> usize
    ensures { result ≡ place_of text.now made }
{
    let mut left = made;
    let mut place = 0;
    let mut part = Part {
        quoted: false,
        letters: 0,
    };
    while place < text.len() {
        match front_piece(part, &text[place..]) {
            Ok(piece) => {
                let count = piece.count as usize;
                if left < count {
                    return place;
                }
                left -= count;
                part = part_after(part, text[place]);
                place += piece.size;
            }
            Err(_reason) => return place,
        }
    }
    place
}
