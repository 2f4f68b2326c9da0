//! Numbers in a text.

ghost use Rattle.std.specs.Prelude.{◌≡◌, ◌++◌, ◌<◌, OnOk};
ghost use Rattle.pr_report.specs.Numbers.{blanks, hex_column, hex_digit, hex_digits, moment, numbered};

use itoa::Buffer;
use pr_wire::NoMemory;

/// Adds a word, and after it a number in decimal.
pub(crate) fn push_numbered(text: &mut Vec<u8>, word: &[u8], number: u64) -> Result<(), NoMemory>
    ensures { OnOk result (text.new.items ≡ text.old.items ++ numbered word.now number) }
{
    let mut buffer = Buffer::new();
    text.extend_from_slice(word)?;
    text.extend_from_slice(buffer.format(number).as_bytes())
}

/// The blanks before a number in a column of 12, by its digits. The longest run of the program
/// lasts less than 10^12 microseconds.
fn blanks(digits: usize) -> &'static [u8]
    ensures { result.now ≡ blanks digits }
{
    let column: &'static [u8] = b"            ";
    if digits < column.len() {
        &column[digits..]
    } else {
        b""
    }
}

/// Adds a moment, in microseconds, at the right of a column.
pub(crate) fn push_moment(text: &mut Vec<u8>, time: u64) -> Result<(), NoMemory>
    ensures { OnOk result (text.new.items ≡ text.old.items ++ moment time) }
{
    let mut buffer = Buffer::new();
    let digits = buffer.format(time).as_bytes();
    text.extend_from_slice(blanks(digits.len()))?;
    text.extend_from_slice(digits)
}

/// A hexadecimal digit.
fn hex_digit(n: u8) -> u8
    requires { n < 16 }
    ensures { result ≡ hex_digit n }
{
    if n < 10 { n + b'0' } else { n + 55 }
}

/// Adds a byte in hexadecimal.
pub(crate) fn push_hex_digits(text: &mut Vec<u8>, byte: u8) -> Result<(), NoMemory>
    ensures { OnOk result (text.new.items ≡ text.old.items ++ hex_digits byte) }
{
    text.extend_from_slice(&[hex_digit(byte / 16), hex_digit(byte % 16)])
}

/// Adds a byte in hexadecimal, between two blanks on each side.
pub(crate) fn push_hex(text: &mut Vec<u8>, byte: u8) -> Result<(), NoMemory>
    ensures { OnOk result (text.new.items ≡ text.old.items ++ hex_column byte) }
{
    let (high, low) = (hex_digit(byte / 16), hex_digit(byte % 16));
    text.extend_from_slice(&[b' ', b' ', b'$', high, low, b' ', b' '])
}
