//! Adding to a text, and small words of both formats.

ghost use Rattle.std.specs.Prelude.{◌≡◌, ◌++◌, decimal, replicate, OnOk};
ghost use Rattle.pr_render.specs.Words.{either_text, is_blank, numbers_text, stop_name, text_if};

use itoa::Buffer;
use pr_channels::Stop;
use std::alloc::AllocError;

/// Adds a number in decimal at the end of a text.
pub fn push_number(text: &mut Vec<u8>, n: u128) -> Result<(), AllocError>
    ensures { OnOk result (text.new.items ≡ text.old.items ++ decimal n) }
{
    let mut buffer = Buffer::new();
    text.extend_from_slice(buffer.format(n).as_bytes())
}

/// Adds a number of 64 bits in decimal at the end of a text.
pub fn push_small(text: &mut Vec<u8>, n: u64) -> Result<(), AllocError>
    ensures { OnOk result (text.new.items ≡ text.old.items ++ decimal n) }
{
    let mut buffer = Buffer::new();
    text.extend_from_slice(buffer.format(n).as_bytes())
}

/// Adds a text where a test holds.
pub fn push_if(text: &mut Vec<u8>, holds: bool, part: &[u8]) -> Result<(), AllocError>
    ensures { OnOk result (text.new.items ≡ text.old.items ++ text_if holds part.now) }
{
    if holds {
        text.extend_from_slice(part)?;
    }
    Ok(())
}

/// Adds blanks.
pub fn push_blanks(text: &mut Vec<u8>, count: u64) -> Result<(), AllocError>
    ensures { OnOk result (text.new.items ≡ text.old.items ++ replicate count 32) }
{
    for _blank in 0..count {
        text.push(b' ')?;
    }
    Ok(())
}

/// Adds numbers, each after a space; each 18th begins a line, by this text (profile).
pub fn push_numbers(text: &mut Vec<u8>, line: &[u8], numbers: &[u8]) -> Result<(), AllocError>
    ensures { OnOk result (text.new.items ≡ text.old.items ++ numbers_text line.now 1 numbers.now) }
{
    let mut count: u64 = 1;
    for n in numbers {
        push_if(text, count % 18 == 0, line)?;
        text.push(b' ')?;
        push_small(text, u64::from(*n))?;
        count += 1;
    }
    Ok(())
}

/// One of two texts.
pub fn either<'a>(holds: bool, this: &'a [u8], other: &'a [u8]) -> &'a [u8]
    ensures { result.now ≡ either_text holds this.now other.now }
{
    if holds { this } else { other }
}

/// Whether a character is a blank: a space, also one that does not part words.
pub fn is_blank(character: char) -> bool
    ensures { result ≡ is_blank character }
{
    character == ' ' || character == '\u{A0}'
}

/// The name of an error (Programmer's Reference Guide, error messages of BASIC).
pub fn stop_name(stop: Stop) -> &'static [u8]
    ensures { result.now ≡ stop_name stop }
{
    match stop {
        Stop::TooManyFiles => b"?TOO MANY FILES",
        Stop::FileOpen => b"?FILE OPEN",
        Stop::FileNotOpen => b"?FILE NOT OPEN",
        Stop::DeviceNotPresent => b"?DEVICE NOT PRESENT",
        Stop::NotInputFile => b"?NOT INPUT FILE",
    }
}
