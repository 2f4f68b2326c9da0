//! The letters of a line, which a viewer finds and copies: strips of cells side by side, each in one element.
//!
//! `fill-opacity` hides the letters where `fill=none` would keep a mouse from selecting them.
//! `textLength` with `lengthAdjust` makes them as wide as their cells in any font. `xml:space` is
//! on each element, since Chromium takes neither it nor `white-space` from a group.

ghost use Rattle.std.specs.Prelude.{◌≡◌, true, ◌+◌, ◌*◌, ◌^◌, ◌<◌, ◌≤◌, ◌++◌, drop, length, take, IfOk, OnOk};
ghost use Rattle.pr_render.specs.Svg.{cells_width, character_text, escaped, no_strip, shows, stands_for_itself, strips_svg};
ghost use Rattle.pr_render.specs.Tables.{cells_svg, characters_of, is_next, joined_count, letters_of, shows_mark};
ghost use Rattle.pr_render.specs.Words.{text_if};

use crate::adding::{is_blank, push_small};
use crate::block::{put, put_small};
use crate::characters::character;
use crate::parts::{letters_fitted, letters_width, text_end};
use crate::texts::Texts;
use pr_page::{Mark, Placed};
use std::alloc::AllocError;

/// The most letters of a block.
const BLOCK_LETTERS: usize = 32;

/// Room for them, each a short text.
const BLOCK: usize = 512;

/// Whether a character stands for itself.
fn stands_for_itself(character: char) -> bool
    ensures { result ≡ stands_for_itself character }
{
    if character == '"'
        || character == '&'
        || character == '\''
        || character == '<'
        || character == '>'
    {
        return false;
    }
    ' ' <= character && character <= '~'
}

/// Adds a character, as itself or else by its number.
#[tactic(auto, unfolding(crate::specs::Svg::escaped))]
fn push_escaped(text: &mut Vec<u8>, character: char) -> Result<(), AllocError>
    ensures { OnOk result (text.new.items ≡ text.old.items ++ escaped character) }
{
    if stands_for_itself(character) {
        text.push(character as u8)?;
        return Ok(());
    }
    let mut block = [0u8; 23];
    let at = put(&mut block, 0, b"&#");
    let at = put_small(&mut block, at, u64::from(u32::from(character)));
    let end = put(&mut block, at, b";");
    text.extend_from_slice(&block[..end])
}

/// Adds the character of a cell.
pub fn push_character(text: &mut Vec<u8>, character: char) -> Result<(), AllocError>
    ensures { OnOk result (text.new.items ≡ text.old.items ++ character_text character) }
{
    if is_blank(character) {
        text.push(b' ')?;
        return Ok(());
    }
    push_escaped(text, character)
}

/// How wide this many cells are, in dots.
fn cells_width(wide: bool, count: u64) -> u64
    requires { count ≤ 2 ^ 32 }
    ensures width { result ≡ cells_width wide count }
    ensures within { result ≤ 12 * count }
{
    if wide { 12 * count } else { 6 * count }
}

/// Whether a mark is a cell whose character is no blank.
fn shows_mark(mark: Mark) -> bool
    ensures { result ≡ shows_mark mark }
{
    match mark {
        Mark::Cell { code, lower, .. } => !is_blank(character(code, lower)),
        Mark::Dots(_) => false,
    }
}

/// Whether a character among those of marks is no blank.
#[tactic(auto, using(crate::proofs::Joined::shows_cons))]
fn show(marks: &[Placed]) -> bool
    ensures { result ≡ shows (characters_of marks.now) }
{
    for placed in marks {
        if shows_mark(placed.mark) {
            return true;
        }
    }
    false
}

/// Puts the letters of the first marks into a block, and says of how many marks and how many bytes
/// these are.
fn fill(texts: &Texts, block: &mut [u8], marks: &[Placed]) -> (usize, usize)
    // the caller's part
    requires block { length block.old ≡ 512 }
    requires some { 0 < length marks.now }
    // what it gives
    ensures text { take result.1 block.new ++ letters_of (drop result.0 marks.now) ≡ letters_of marks.now }
    ensures some { 0 < result.0 }
    ensures marks { result.0 ≤ length marks.now }
    ensures few { result.0 ≤ 32 }
    ensures within { result.1 ≤ 512 }
    ensures length { length block.new ≡ 512 }
{
    let mut end = 0;
    for (count, placed) in marks.iter().enumerate() {
        if count == BLOCK_LETTERS {
            return (count, end);
        }
        end = texts.put_letter(block, end, placed.mark);
    }
    (marks.len(), end)
}

/// Adds the letters of marks, block by block.
fn push_each(text: &mut Vec<u8>, texts: &Texts, marks: &[Placed]) -> Result<(), AllocError>
    ensures { OnOk result (text.new.items ≡ text.old.items ++ letters_of marks.now) }
{
    let mut block = [0u8; BLOCK];
    let mut rest = marks;
    while !rest.is_empty() {
        let (count, end) = fill(texts, &mut block, rest);
        text.extend_from_slice(&block[..end])?;
        rest = &rest[count..];
    }
    Ok(())
}

/// Adds the letters of cells side by side, as wide as they are.
#[tactic(auto, unfolding(crate::specs::Tables::cells_svg))]
fn push_characters(
    text: &mut Vec<u8>,
    texts: &Texts,
    x: u16,
    wide: bool,
    cells: &[Placed],
) -> Result<(), AllocError>
    requires { length cells.now ≤ 2 ^ 32 }
    ensures { OnOk result (text.new.items ≡ text.old.items ++ cells_svg x wide (length cells.now) (letters_of cells.now)) }
{
    text.extend_from_slice(b"<text x=\"")?;
    push_small(text, 21 * u64::from(x))?;
    text.extend_from_slice(letters_width())?;
    push_small(text, 21 * cells_width(wide, cells.len() as u64))?;
    text.extend_from_slice(letters_fitted())?;
    push_each(text, texts, cells)?;
    text.extend_from_slice(text_end())
}

/// The same, if they are not all blank.
fn push_strip(
    text: &mut Vec<u8>,
    texts: &Texts,
    x: u16,
    wide: bool,
    cells: &[Placed],
) -> Result<(), AllocError>
    requires { length cells.now ≤ 2 ^ 32 }
    ensures { OnOk result (text.new.items ≡ text.old.items ++ text_if (shows (characters_of cells.now)) (cells_svg x wide (length cells.now) (letters_of cells.now))) }
{
    if show(cells) {
        push_characters(text, texts, x, wide, cells)?;
    }
    Ok(())
}

/// Whether a mark is a cell of this width at this dot column.
#[inline(always)]
fn is_next(wide: bool, end: u64, placed: Placed) -> bool
    ensures next { result ≡ is_next wide end placed }
    ensures within { result ≡ true → end ≤ 65535 }
{
    match placed.mark {
        Mark::Cell { wide: double, .. } => wide == double && u64::from(placed.x) == end,
        Mark::Dots(_) => false,
    }
}

/// Where a cell at a dot column ends.
fn end_of_cell(x: u16, wide: bool) -> u64
    ensures end { result ≡ x + cells_width wide 1 }
    ensures within { result ≤ 65547 }
{
    u64::from(x) + cells_width(wide, 1)
}

/// How many marks, from the first on, are cells of this width side by side from a dot column on.
fn joined_count(wide: bool, end: u64, marks: &[Placed]) -> usize
    requires { end ≤ 65547 }
    ensures count { result ≡ joined_count wide end marks.now }
    ensures few { result ≤ 65547 }
    ensures within { result ≤ length marks.now }
{
    let width = cells_width(wide, 1);
    let mut end = end;
    for (count, placed) in marks.iter().enumerate() {
        if !is_next(wide, end, *placed) {
            return count;
        }
        end += width;
    }
    marks.len()
}

/// Adds the strip with which marks begin, if they begin with a cell, and says how many marks have been taken.
fn push_first(text: &mut Vec<u8>, texts: &Texts, marks: &[Placed]) -> Result<usize, AllocError>
    requires { 0 < length marks.now }
    ensures text { IfOk result (λ count. text.new.items ++ strips_svg no_strip (drop count marks.now) ≡ text.old.items ++ strips_svg no_strip marks.now) }
    ensures some { IfOk result (λ count. 0 < count) }
    ensures within { IfOk result (λ count. count ≤ length marks.now) }
    ensures few { IfOk result (λ count. count ≤ 65548) }
{
    let first = marks[0];
    match first.mark {
        Mark::Cell { wide, .. } => {
            let end = end_of_cell(first.x, wide);
            let count = 1 + joined_count(wide, end, &marks[1..]);
            push_strip(text, texts, first.x, wide, &marks[..count])?;
            Ok(count)
        }
        Mark::Dots(_) => Ok(1),
    }
}

/// Adds the letters of the marks of a line, strip by strip.
pub fn push_letters(text: &mut Vec<u8>, texts: &Texts, marks: &[Placed]) -> Result<(), AllocError>
    ensures { OnOk result (text.new.items ≡ text.old.items ++ strips_svg no_strip marks.now) }
{
    let mut rest = marks;
    while !rest.is_empty() {
        let count = push_first(text, texts, rest)?;
        rest = &rest[count..];
    }
    Ok(())
}
