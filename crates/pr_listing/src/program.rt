//! A saved program's text.

ghost use Rattle.std.specs.Prelude.{◌≡◌, ◌≤◌, ◌<◌, ◌⊎◌, length, IfErr, IfOk};
ghost use Rattle.std.specs.List.{prefix_len};
ghost use Rattle.pr_listing.specs.Front.{IsFront};
ghost use Rattle.pr_listing.specs.Listing.{IsProgramText};
ghost use Rattle.pr_listing.specs.Program.{IsProgramFault, is_not_zero};

use crate::fault::ListingFault;
use crate::line::add_line;
use std::alloc::Global;

/// What is at the front of the bytes that are left of a program.
#[derive(Clone, Copy, Debug)]
pub enum Front<'a> {
    /// A line, and the bytes after it.
    Line {
        number: u32,
        bytes: &'a [u8],
        rest: &'a [u8],
    },
    /// A link of 0.
    End,
    /// The end of the file, before either.
    CutOff,
}

/// How many bytes are before the first 0.
pub fn count_to_zero(bytes: &[u8]) -> usize
    ensures count { result ≡ prefix_len is_not_zero bytes.now }
    ensures within { result ≤ length bytes.now }
{
    for (i, b) in bytes.iter().enumerate() {
        if *b == 0 {
            return i;
        }
    }
    bytes.len()
}

/// What is at the front of the bytes that are left of a program.
pub fn front_of(bytes: &[u8]) -> Front<'_>
    ensures { IsFront result bytes.now }
{
    if bytes.len() < 2 {
        return Front::CutOff;
    }
    let link = u32::from(bytes[0]) + u32::from(bytes[1]);
    if link == 0 {
        return Front::End;
    }
    if bytes.len() < 4 {
        return Front::CutOff;
    }
    let after = &bytes[4..];
    let n = count_to_zero(after);
    if n == after.len() {
        return Front::CutOff;
    }
    Front::Line {
        number: u32::from(bytes[2]) + 256 * u32::from(bytes[3]),
        bytes: &after[..n],
        rest: &after[n + 1..],
    }
}

/// Makes the text of a saved program: a line of the text for each line of the program, as
/// `specs/Listing.antt` says it. It is Ok exactly where the file is a saved program. `pr_basic`
/// reads the text as a script.
///
/// A saved program is two bytes of a load address, and then lines. A line is two bytes of a link,
/// two of its number (the low one first), its bytes, and a 0. A link of 0 after one line or more ends
/// the program; what follows it is ignored, as all other links are (Commodore 64 Programmer's Reference Guide, BASIC
/// storage).
///
/// # Errors
///
/// - [`ListingFault::NoAddress`]: the file has fewer than two bytes.
/// - [`ListingFault::NoLine`]: the first link is 0.
/// - [`ListingFault::CutOff`]: the file ends in that line, counted from 1.
/// - [`ListingFault::NoMemory`]: memory was refused.
pub fn program_text(alloc: Global, file: &[u8]) -> Result<Vec<u8>, ListingFault>
    ensures ok { IfOk result (λ text. IsProgramText file.now text.items) }
    ensures err { IfErr result (λ fault. (fault ≡ ListingFault.NoMemory) ⊎ IsProgramFault file.now fault) }
{
    if file.len() < 2 {
        return Err(ListingFault::NoAddress);
    }
    let mut text = Vec::new(alloc);
    let mut rest = &file[2..];
    let mut number = 1;
    'lines: loop {
        match front_of(rest) {
            Front::Line {
                number: line,
                bytes,
                rest: more,
            } => {
                if let Err(_) = add_line(&mut text, line, bytes) {
                    return Err(ListingFault::NoMemory);
                }
                number += 1;
                rest = more;
            }
            Front::End if number == 1 => return Err(ListingFault::NoLine),
            Front::End => return Ok(text),
            Front::CutOff => return Err(ListingFault::CutOff(number)),
        }
    }
}
