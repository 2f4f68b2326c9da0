//! What an input looks like.

ghost use Rattle.std.specs.Prelude.{◌≡◌, false, length};
ghost use Rattle.std.specs.List.{list_all, list_any};
ghost use Rattle.pr_base.specs.Lines.{lines_of};
ghost use Rattle.pr_listing.specs.Hints.{begins_saved, has_typed, has_typed_string, is_disk_size, is_text, is_text_byte};

use crate::typed::before_remark;
use pr_basic::cut_line;

/// Returns whether bytes begin as a program saved on a Commodore 64 does, with the load address
/// $0801.
pub fn looks_saved(bytes: &[u8]) -> bool
    ensures { result ≡ begins_saved bytes.now }
{
    bytes.len() >= 2 && bytes[0] == 1 && bytes[1] == 8
}

/// Returns whether bytes are a text's: there are some, and of the control codes they have tabs and
/// the ends of lines alone. No saved program is: each of its lines ends with byte 0, and so does the
/// program.
pub fn looks_like_text(bytes: &[u8]) -> bool
    ensures { result ≡ is_text bytes.now }
{
    bytes.len() > 0 && all_text(bytes)
}

/// Whether each byte is a text's.
fn all_text(bytes: &[u8]) -> bool
    ensures { result ≡ list_all is_text_byte bytes.now }
{
    bytes.iter().all(|b| is_text_byte(*b))
}

/// Whether a byte is a text's: no control code but a tab, byte 10 or 13.
fn is_text_byte(b: u8) -> bool
    ensures { result ≡ is_text_byte b }
{
    b >= b' ' || matches!(b, b'\t' | b'\n' | b'\r')
}

/// Returns whether bytes are as many as an image of a 1541's disk has: 35 or 40 tracks, without or
/// with a byte for each sector's error.
pub fn looks_like_disk(bytes: &[u8]) -> bool
    ensures { result ≡ is_disk_size (length bytes.now) }
{
    matches!(bytes.len(), 174_848 | 175_531 | 196_608 | 197_376)
}

/// Returns whether a string of a script has a small letter or a brace, which petcat's text has for
/// other bytes.
pub fn has_typed_strings(script: &[u8]) -> bool
    ensures { result ≡ list_any has_typed_string (lines_of script.now) }
{
    let mut rest = script;
    while !rest.is_empty() {
        let (line, more) = cut_line(rest);
        if has_typed_string(line) {
            return true;
        }
        rest = more;
    }
    false
}

/// Whether a string of a line has a small letter or a brace. What is in a remark is no string.
fn has_typed_string(line: &[u8]) -> bool
    ensures { result ≡ has_typed_string line.now }
{
    has_typed(&line[..before_remark(line)])
}

/// Whether a string has a small letter or a brace, in the part of a line before its remark.
fn has_typed(front: &[u8]) -> bool
    ensures { result ≡ has_typed false front.now }
{
    let mut quoted = false;
    for b in front {
        if quoted && (b.is_ascii_lowercase() || *b == b'{') {
            return true;
        }
        if *b == b'"' {
            quoted = !quoted;
        }
    }
    false
}
