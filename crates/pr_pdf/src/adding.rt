//! Adding to a text.

ghost use Rattle.std.specs.Prelude.{◌≡◌, ◌<◌, ◌++◌, decimal, OnOk};
ghost use Rattle.pr_pdf.specs.Words.{hex_2, hex_4, hex_digit};

use pr_render::push_small;
use std::alloc::AllocError;

/// Adds a number between two texts.
pub fn push_between(
    text: &mut Vec<u8>,
    before: &[u8],
    n: u64,
    after: &[u8],
) -> Result<(), AllocError>
    ensures { OnOk result (text.new.items ≡ text.old.items ++ (before.now ++ decimal n ++ after.now)) }
{
    text.extend_from_slice(before)?;
    push_small(text, n)?;
    text.extend_from_slice(after)
}

/// A hexadecimal digit.
fn hex_digit(n: u8) -> u8
    requires { n < 16 }
    ensures { result ≡ hex_digit n }
{
    if n < 10 { 48 + n } else { 87 + n }
}

/// Adds a byte in two hexadecimal digits.
pub fn push_hex_2(text: &mut Vec<u8>, n: u8) -> Result<(), AllocError>
    ensures { OnOk result (text.new.items ≡ text.old.items ++ hex_2 n) }
{
    text.extend_from_slice(&[hex_digit(n / 16), hex_digit(n % 16)])
}

/// Adds a number in four hexadecimal digits.
pub fn push_hex_4(text: &mut Vec<u8>, n: u16) -> Result<(), AllocError>
    ensures { OnOk result (text.new.items ≡ text.old.items ++ hex_4 n) }
{
    push_hex_2(text, (n / 256) as u8)?;
    push_hex_2(text, (n % 256) as u8)
}
