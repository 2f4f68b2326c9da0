//! The list of a statement, as a script has it.

ghost use Rattle.std.specs.Prelude.{◌≡◌, ◌++◌, ◌<◌, ◌≤◌, decimal, length, IfOk, OnOk};
ghost use Rattle.std.specs.List.{prefix_len};
ghost use Rattle.pr_listing.specs.Listing.{is_held};
ghost use Rattle.pr_programs.specs.Scripts.{has_list, items_of, joined, list_text};
ghost use Rattle.pr_programs.specs.Seen.{IsItemAdded};

use itoa::Buffer;
use pr_basic::Line;
use std::alloc::AllocError;

/// Adds a number in decimal.
pub fn add_number(text: &mut Vec<u8>, n: u32) -> Result<(), AllocError>
    ensures { OnOk result (text.new.items ≡ text.old.items ++ decimal n) }
{
    let mut buffer = Buffer::new();
    text.extend_from_slice(buffer.format(n).as_bytes())
}

/// Returns whether a string of a script can have a byte.
fn is_held(b: u8) -> bool
    ensures { result ≡ is_held b }
{
    b >= b' ' && b <= b'~' && b != b'"'
}

/// Returns how many bytes at the front can be one string.
fn held_count(bytes: &[u8]) -> usize
    ensures count { result ≡ prefix_len is_held bytes.now }
    ensures within { result ≤ length bytes.now }
{
    for (i, b) in bytes.iter().enumerate() {
        if !is_held(*b) {
            return i;
        }
    }
    bytes.len()
}

/// Adds the item at the front of some bytes, of which there is one. Returns the bytes after it.
fn add_item<'a>(text: &mut Vec<u8>, bytes: &'a [u8]) -> Result<&'a [u8], AllocError>
    requires { 0 < length bytes.now }
    ensures { IfOk result (λ rest. IsItemAdded bytes.now rest.now text.old.items text.new.items) }
{
    let count = held_count(bytes);
    if count > 0 {
        text.push(b'"')?;
        text.extend_from_slice(&bytes[..count])?;
        text.push(b'"')?;
        return Ok(&bytes[count..]);
    }
    text.extend_from_slice(b"CHR$(")?;
    add_number(text, u32::from(bytes[0]))?;
    text.push(b')')?;
    Ok(&bytes[1..])
}

/// Adds the item at the front of some bytes, of which there is one, and a semicolon if more follow. Returns the bytes
/// after it.
fn add_next<'a>(text: &mut Vec<u8>, bytes: &'a [u8]) -> Result<&'a [u8], AllocError>
    requires { 0 < length bytes.now }
    ensures text { IfOk result (λ rest.
        text.new.items ++ joined (items_of rest.now) ≡ text.old.items ++ joined (items_of bytes.now)) }
    ensures less { IfOk result (λ rest. length rest.now < length bytes.now) }
{
    let rest = add_item(text, bytes)?;
    if rest.is_empty() {
        return Ok(rest);
    }
    text.push(b';')?;
    Ok(rest)
}

/// Adds the items of some bytes, with a semicolon between each two.
fn add_items(text: &mut Vec<u8>, bytes: &[u8]) -> Result<(), AllocError>
    ensures { OnOk result (text.new.items ≡ text.old.items ++ joined (items_of bytes.now)) }
{
    let mut rest = bytes;
    while !rest.is_empty() {
        rest = add_next(text, rest)?;
    }
    Ok(())
}

/// Adds the list of a statement.
#[tactic(auto, unfolding(crate::specs::Scripts::list_text))]
pub fn add_list(text: &mut Vec<u8>, line: &Line) -> Result<(), AllocError>
    ensures { OnOk result (text.new.items ≡ text.old.items ++ list_text line.now) }
{
    add_items(text, &line.bytes)?;
    if !line.ends {
        text.push(b';')?;
    }
    Ok(())
}

/// Returns whether a statement has a list: bytes, or a semicolon.
pub fn has_list(line: &Line) -> bool
    ensures { result ≡ has_list line.now }
{
    !line.bytes.is_empty() || !line.ends
}
