//! The format of a recording by its first bytes.

ghost use Rattle.std.specs.Prelude.{◌≡◌, ◌==◌, ◌||◌, find};
ghost use Rattle.pr_capture.specs.Csv.{is_separator};
ghost use Rattle.pr_capture.specs.Found.{begins_as_dump, begins_as_table, behind_meta, found_format, front, has_meta, has_separator};

use crate::csv::{is_archive, is_separator, is_wide, line_len};
use crate::format::InputFormat;

/// Returns the format that the first bytes of a recording show, or else `source`: a dump begins with
/// `$`, also after the line `META samplerate: ..` that sigrok-cli puts in front; a table with `;`, `#`
/// or that line, or it has a comma, a semicolon or a tab in its first line. UTF-16 text and zip archives
/// are taken as tables, whose reader refuses them by name. It takes no memory.
pub fn found_format(source: InputFormat, bytes: &[u8]) -> InputFormat
    ensures { result ≡ found_format source bytes.now }
{
    if begins_as_dump(bytes) {
        InputFormat::Vcd
    } else if begins_as_table(bytes) {
        InputFormat::Csv
    } else {
        source
    }
}

/// Whether the first line is the one that sigrok-cli puts in front of what it writes.
fn has_meta(bytes: &[u8]) -> bool
    ensures { result ≡ has_meta bytes.now }
{
    bytes.starts_with(b"META samplerate:")
}

/// The bytes without sigrok-cli's line, if that is in front.
fn behind_meta(bytes: &[u8]) -> &[u8]
    ensures { result.now ≡ behind_meta bytes.now }
{
    if has_meta(bytes) {
        &bytes[line_len(bytes)..]
    } else {
        bytes
    }
}

/// The first byte that is no blank, after sigrok-cli's line, if that is in front.
fn front(bytes: &[u8]) -> Option<u8>
    ensures { result ≡ front bytes.now }
{
    let rest = behind_meta(bytes);
    rest.iter().copied().find(|b| !b.is_ascii_whitespace())
}

/// Whether the first byte that is no blank is a `$`.
fn begins_as_dump(bytes: &[u8]) -> bool
    ensures { result ≡ begins_as_dump bytes.now }
{
    matches!(front(bytes), Some(b'$'))
}

/// Whether the first byte that is no blank is a `;` or a `#`, or the first line is sigrok-cli's or has a
/// separator; or whether this is no text.
fn begins_as_table(bytes: &[u8]) -> bool
    ensures { result ≡ begins_as_table bytes.now }
{
    is_wide(bytes)
        || is_archive(bytes)
        || has_meta(bytes)
        || matches!(front(bytes), Some(b';' | b'#'))
        || has_separator(bytes)
}

/// Whether a comma, a semicolon or a tab comes before the first line's end.
fn has_separator(bytes: &[u8]) -> bool
    ensures { result ≡ has_separator bytes.now }
{
    match separator_or_end(bytes) {
        Some(b) => is_separator(b),
        None => false,
    }
}

/// The first separator or line's end.
fn separator_or_end(bytes: &[u8]) -> Option<u8>
    ensures { result ≡ find (λ b. is_separator b || b == 10) bytes.now }
{
    bytes
        .iter()
        .copied()
        .find(|b| is_separator(*b) || *b == b'\n')
}
