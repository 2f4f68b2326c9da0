//! Marks by their names: where each is defined, and where it is used.

ghost use Rattle.std.specs.Prelude.{◌≡◌, ◌*◌, ◌+◌, ◌<◌, ◌≤◌, ◌++◌, drop, flat_map, length, map, take, OnOk};
ghost use Rattle.pr_dots.specs.Dots.{bit_dots, column_dots, columns_dots};
ghost use Rattle.pr_render.specs.Svg.{definition_svg, disc_of, disc_svg, name_svg, number_of, use_svg};

use crate::adding::{either, push_small};
use crate::block::{put, put_if, put_small};
use crate::parts::{mark_begin, mark_path, use_begin, use_end, use_place};
use crate::texts::Texts;
use pr_dots::{Shapes, columns};
use pr_page::{Mark, Placed};
use std::alloc::AllocError;

/// The most marks of a block.
const BLOCK_MARKS: usize = 32;

/// Room for the elements of these marks, each of at most two short texts.
const BLOCK: usize = 1024;

/// Puts a mark's name into a block, at most 23 bytes.
#[inline(always)]
#[tactic(auto, unfolding(crate::specs::Svg::name_svg))]
fn put_name(block: &mut [u8], at: usize, mark: Mark) -> usize
    requires { at + 23 ≤ length block.old }
    ensures text { take result block.new ≡ take at block.old ++ name_svg mark }
    ensures within { result ≤ at + 23 }
    ensures length { length block.new ≡ length block.old }
{
    match mark {
        Mark::Cell {
            code,
            lower,
            reverse,
            wide,
        } => {
            let at = put(block, at, either(lower, b"l", b"u"));
            let at = put_if(block, at, reverse, b"r");
            let at = put_if(block, at, wide, b"w");
            put_small(block, at, u64::from(code))
        }
        Mark::Dots(value) => {
            let at = put(block, at, b"d");
            put_small(block, at, u64::from(value))
        }
    }
}

/// Adds a mark's name.
fn push_name(text: &mut Vec<u8>, mark: Mark) -> Result<(), AllocError>
    ensures { OnOk result (text.new.items ≡ text.old.items ++ name_svg mark) }
{
    let mut block = [0u8; 23];
    let end = put_name(&mut block, 0, mark);
    text.extend_from_slice(&block[..end])
}

/// Adds the disc of a dot.
#[tactic(auto, unfolding(crate::specs::Svg::disc_svg))]
fn push_disc(text: &mut Vec<u8>, x: u64, y: u64) -> Result<(), AllocError>
    requires across { x < 100 }
    requires down { y < 100 }
    ensures { OnOk result (text.new.items ≡ text.old.items ++ disc_svg (disc_of (record { x = x; y = y }))) }
{
    text.push(b'M')?;
    push_small(text, 21 * x + 10)?;
    text.push(b' ')?;
    push_small(text, 10 * y + 10)?;
    text.extend_from_slice(b"h0")
}

/// Adds the disc of a column's bit, if it has one.
fn push_bit(text: &mut Vec<u8>, x: u64, value: u8, bit: u8) -> Result<(), AllocError>
    requires across { x < 100 }
    requires bit { bit < 7 }
    ensures { OnOk result (text.new.items ≡ text.old.items ++ flat_map disc_svg (map disc_of (bit_dots x 0 value bit))) }
{
    if (value >> bit) % 2 == 1 {
        push_disc(text, x, 2 * u64::from(bit))?;
    }
    Ok(())
}

/// Adds the discs of a column.
fn push_column(text: &mut Vec<u8>, x: u64, value: u8) -> Result<(), AllocError>
    requires { x < 100 }
    ensures { OnOk result (text.new.items ≡ text.old.items ++ flat_map disc_svg (map disc_of (column_dots x 0 value))) }
{
    push_bit(text, x, value, 0)?;
    push_bit(text, x, value, 1)?;
    push_bit(text, x, value, 2)?;
    push_bit(text, x, value, 3)?;
    push_bit(text, x, value, 4)?;
    push_bit(text, x, value, 5)?;
    push_bit(text, x, value, 6)
}

/// Adds the discs of columns side by side.
fn push_columns(text: &mut Vec<u8>, columns: &[u8]) -> Result<(), AllocError>
    requires { length columns.now ≤ 12 }
    ensures { OnOk result (text.new.items ≡ text.old.items ++ flat_map disc_svg (map disc_of (columns_dots 0 0 columns.now))) }
{
    let mut x = 0;
    for value in columns {
        push_column(text, x, *value)?;
        x += 1;
    }
    Ok(())
}

/// Adds a mark's definition.
#[tactic(auto, unfolding(crate::specs::Svg::definition_svg))]
pub fn push_definition(text: &mut Vec<u8>, shapes: &Shapes, mark: Mark) -> Result<(), AllocError>
    ensures { OnOk result (text.new.items ≡ text.old.items ++ definition_svg shapes.now mark) }
{
    text.extend_from_slice(mark_begin())?;
    push_name(text, mark)?;
    text.extend_from_slice(mark_path())?;
    push_columns(text, columns(shapes, mark).as_slice())?;
    text.extend_from_slice(use_end())
}

/// A number for each mark: no two have the same.
pub fn number_of(mark: Mark) -> usize
    ensures number { result ≡ number_of mark }
    ensures within { result < 2304 }
{
    match mark {
        Mark::Cell {
            code,
            lower,
            reverse,
            wide,
        } => {
            9 * usize::from(code)
                + usize::from(lower)
                + if reverse { 2 } else { 0 }
                + if wide { 4 } else { 0 }
        }
        Mark::Dots(value) => 9 * usize::from(value) + 8,
    }
}

/// How far a dot column is from the first one, in units.
fn across(x: u16) -> u64
    ensures { result ≡ 21 * x }
{
    21 * u64::from(x)
}

/// Adds a mark at its dot column, of any kind: at most 80 bytes, which are added by one copy.
#[inline(never)]
#[tactic(auto, unfolding(crate::specs::Svg::use_svg))]
fn push_use(text: &mut Vec<u8>, placed: Placed) -> Result<(), AllocError>
    ensures { OnOk result (text.new.items ≡ text.old.items ++ use_svg placed) }
{
    let mut block = [0u8; 80];
    let at = put(&mut block, 0, use_begin());
    let at = put_name(&mut block, at, placed.mark);
    let at = put(&mut block, at, use_place());
    let at = put_small(&mut block, at, across(placed.x));
    let end = put(&mut block, at, use_end());
    text.extend_from_slice(&block[..end])
}

/// Puts the elements of the first marks into a block, and says of how many marks and how many bytes
/// these are.
fn fill(texts: &Texts, block: &mut [u8], marks: &[Placed]) -> (usize, usize)
    // the caller's part
    requires { length block.old ≡ 1024 }
    // what it gives
    ensures text { take result.1 block.new ++ flat_map use_svg (drop result.0 marks.now) ≡ flat_map use_svg marks.now }
    ensures marks { result.0 ≤ length marks.now }
    ensures few { result.0 ≤ 32 }
    ensures within { result.1 ≤ 1024 }
    ensures length { length block.new ≡ 1024 }
{
    let mut end = 0;
    for (count, placed) in marks.iter().enumerate() {
        if count == BLOCK_MARKS {
            return (count, end);
        }
        match texts.put_use(block, end, *placed) {
            Some(next) => end = next,
            None => return (count, end),
        }
    }
    (marks.len(), end)
}

/// Adds the marks of a line, block by block.
pub fn push_uses(text: &mut Vec<u8>, texts: &Texts, marks: &[Placed]) -> Result<(), AllocError>
    ensures { OnOk result (text.new.items ≡ text.old.items ++ flat_map use_svg marks.now) }
{
    let mut block = [0u8; BLOCK];
    let mut rest = marks;
    while !rest.is_empty() {
        let (count, end) = fill(texts, &mut block, rest);
        if count == 0 {
            push_use(text, rest[0])?;
            rest = &rest[1..];
        } else {
            text.extend_from_slice(&block[..end])?;
            rest = &rest[count..];
        }
    }
    Ok(())
}
