//! Fonts and their glyphs.

ghost use Rattle.std.specs.Prelude.{◌≡◌, ◌+◌, ◌*◌, ◌<◌, ◌≤◌, ◌++◌, flat_map, length, map, IfOk, OnOk};
ghost use Rattle.pr_dots.specs.Dots.{bit_dots, column_dots, columns_dots};
ghost use Rattle.pr_pdf.specs.Fonts.{disc_pdf, font_pdf, glyph_disc, glyph_object, glyph_pdf, proc_pdf, used_among, widths_object};

use crate::adding::push_between;
use crate::fonts::push_code_name;
use crate::marks::{COLUMN_FONT, font_columns, mark_of};
use crate::parts::{
    dictionary_end, disc_move, disc_stroke, font_begin, font_characters, font_glyphs, glyph_box,
    glyph_strokes, reference,
};
use crate::used::Used;
use pr_dots::{Shapes, columns};
use pr_render::push_small;
use std::alloc::AllocError;

/// Adds the disc of a dot.
#[tactic(auto, unfolding(crate::specs::Fonts::disc_pdf))]
fn push_disc(text: &mut Vec<u8>, x: u64, y: u64) -> Result<(), AllocError>
    requires across { x < 100 }
    requires down { y ≤ 12 }
    ensures { OnOk result (text.new.items ≡ text.old.items ++ disc_pdf (glyph_disc (record { x = x; y = y }))) }
{
    let across = 42 * x + 21;
    let up = 240 - 20 * y;
    push_small(text, across)?;
    push_between(text, b" ", up, disc_move())?;
    push_small(text, across)?;
    push_between(text, b" ", up, disc_stroke())
}

/// Adds the disc of a column's bit, if it has one.
fn push_bit(text: &mut Vec<u8>, x: u64, value: u8, bit: u8) -> Result<(), AllocError>
    requires across { x < 100 }
    requires bit { bit < 7 }
    ensures { OnOk result (text.new.items ≡ text.old.items ++ flat_map disc_pdf (map glyph_disc (bit_dots x 0 value bit))) }
{
    if (value >> bit) % 2 == 1 {
        push_disc(text, x, 2 * u64::from(bit))?;
    }
    Ok(())
}

/// Adds the discs of a column.
fn push_column(text: &mut Vec<u8>, x: u64, value: u8) -> Result<(), AllocError>
    requires { x < 100 }
    ensures { OnOk result (text.new.items ≡ text.old.items ++ flat_map disc_pdf (map glyph_disc (column_dots x 0 value))) }
{
    push_bit(text, x, value, 0)?;
    push_bit(text, x, value, 1)?;
    push_bit(text, x, value, 2)?;
    push_bit(text, x, value, 3)?;
    push_bit(text, x, value, 4)?;
    push_bit(text, x, value, 5)?;
    push_bit(text, x, value, 6)
}

/// Adds the discs of columns side by side.
fn push_columns(text: &mut Vec<u8>, columns: &[u8]) -> Result<(), AllocError>
    requires { length columns.now ≤ 12 }
    ensures { OnOk result (text.new.items ≡ text.old.items ++ flat_map disc_pdf (map glyph_disc (columns_dots 0 0 columns.now))) }
{
    let mut x = 0;
    for value in columns {
        push_column(text, x, *value)?;
        x += 1;
    }
    Ok(())
}

/// Adds a glyph.
#[tactic(auto, unfolding(crate::specs::Fonts::glyph_pdf))]
pub fn push_glyph(
    text: &mut Vec<u8>,
    shapes: &Shapes,
    font: usize,
    code: u8,
) -> Result<(), AllocError>
    ensures { OnOk result (text.new.items ≡ text.old.items ++ glyph_pdf shapes.now font code) }
{
    let width = 42 * font_columns(font);
    push_small(text, width)?;
    push_between(text, glyph_box(), width + 8, glyph_strokes())?;
    push_columns(text, columns(shapes, mark_of(font, code)).as_slice())
}

/// The object that says a font's widths.
fn widths_object(font: usize) -> u64
    ensures { result ≡ widths_object font }
{
    if font == COLUMN_FONT {
        6
    } else if font % 2 == 1 {
        5
    } else {
        4
    }
}

/// Adds a number's glyph among those of its font, if it is used, and gives the next glyph's object.
#[tactic(auto, unfolding(crate::specs::Fonts::proc_pdf), using(crate::proofs::Numbers::used_few))]
fn push_proc(text: &mut Vec<u8>, used: &Used, number: usize, object: u64) -> Result<u64, AllocError>
    requires number { number < 2304 }
    requires object { object ≡ glyph_object used.now number }
    ensures proc { OnOk result (text.new.items ≡ text.old.items ++ flat_map (proc_pdf used.now) (used_among used.now number 1)) }
    ensures next { IfOk result (λ next. next ≡ glyph_object used.now (number + 1)) }
{
    if !used.has(number) {
        return Ok(object);
    }
    push_code_name(text, (number % 256) as u64)?;
    push_small(text, object)?;
    text.extend_from_slice(reference())?;
    Ok(object + 1)
}

/// Adds the glyphs of this many numbers that are used, and gives the next glyph's object.
fn push_procs(
    text: &mut Vec<u8>,
    used: &Used,
    first: usize,
    count: usize,
    object: u64,
) -> Result<u64, AllocError>
    requires first { first ≤ 2048 }
    requires count { count ≤ 256 }
    requires object { object ≡ glyph_object used.now first }
    ensures procs { OnOk result (text.new.items ≡ text.old.items ++ flat_map (proc_pdf used.now) (used_among used.now first count)) }
    ensures next { IfOk result (λ next. next ≡ glyph_object used.now (first + count)) }
{
    let mut next = object;
    for place in 0..count {
        next = push_proc(text, used, first + place, next)?;
    }
    Ok(next)
}

/// Adds a font, and gives the next glyph's object.
#[tactic(auto, unfolding(crate::specs::Fonts::font_pdf))]
pub fn push_font(
    text: &mut Vec<u8>,
    used: &Used,
    font: usize,
    object: u64,
) -> Result<u64, AllocError>
    requires font { font < 9 }
    requires object { object ≡ glyph_object used.now (256 * font) }
    ensures font { OnOk result (text.new.items ≡ text.old.items ++ font_pdf used.now font) }
    ensures next { IfOk result (λ next. next ≡ glyph_object used.now (256 * font + 256)) }
{
    text.extend_from_slice(font_begin())?;
    push_small(text, widths_object(font))?;
    push_between(
        text,
        font_characters(),
        7 + (font / 4) as u64,
        font_glyphs(),
    )?;
    let next = push_procs(text, used, 256 * font, 256, object)?;
    text.extend_from_slice(dictionary_end())?;
    Ok(next)
}
