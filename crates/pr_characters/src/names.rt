//! The line that names a picture.

ghost use Rattle.std.specs.Prelude.{◌≡◌, ◌<◌, ◌++◌, decimal};
ghost use Rattle.std.specs.Str.{bytes_eq};
ghost use Rattle.pr_characters.specs.File.{code_at, name_line};

use itoa::Buffer;

/// The code at a place of a set.
fn code_at(place: u64) -> u64
    requires { place < 128 }
    ensures { result ≡ code_at place }
{
    if place < 64 { place + 32 } else { place + 96 }
}

/// Whether a line is a set's name and then this number.
#[tactic(auto, using(crate::proofs::Named::in_parts))]
fn is_named(line: &[u8], set: &[u8], number: u64) -> bool
    ensures { result ≡ bytes_eq line.now (set.now ++ decimal number) }
{
    let mut buffer = Buffer::new();
    let digits = buffer.format(number).as_bytes();
    match line.strip_prefix(set) {
        Some(rest) => rest == digits,
        None => false,
    }
}

/// Whether a line names a picture, from 0.
pub fn is_name(line: &[u8], picture: u64) -> bool
    requires { picture < 256 }
    ensures { result ≡ bytes_eq line.now (name_line picture) }
{
    if picture < 128 {
        is_named(line, b"upper ", code_at(picture))
    } else {
        is_named(line, b"lower ", code_at(picture - 128))
    }
}
