//! Objects that all documents have: the fonts' names, encoding, widths and characters.

ghost use Rattle.std.specs.Prelude.{◌≡◌, ◌<◌, ◌≤◌, ◌++◌, flat_map, OnOk};
ghost use Rattle.pr_pdf.specs.Fonts.{character_pdf, characters_pdf, code_name, encoding_pdf, font_entry, resources_pdf, set_character, utf_16, width_pdf, widths_pdf};
ghost use Rattle.pr_pdf.specs.Words.{numbers_from};

use crate::adding::{push_between, push_hex_4};
use crate::marks::{FONTS, font_name};
use crate::parts::{
    characters_begin, characters_end, dictionary_end, encoding_begin, fonts_begin, list_end,
    reference,
};
use pr_render::{character, push_small};
use std::alloc::AllocError;

/// The code that no mark has. Its glyph is called `m`: programs that find text take a font's size from its width.
const NO_MARK: u64 = 128;

/// Adds a code's name.
#[tactic(auto, unfolding(crate::specs::Fonts::code_name))]
pub fn push_code_name(text: &mut Vec<u8>, code: u64) -> Result<(), AllocError>
    ensures { OnOk result (text.new.items ≡ text.old.items ++ code_name code) }
{
    if code == NO_MARK {
        return text.extend_from_slice(b"/m ");
    }
    push_between(text, b"/c", code, b" ")
}

/// Adds the names of codes.
fn push_code_names(text: &mut Vec<u8>, count: u64) -> Result<(), AllocError>
    ensures { OnOk result (text.new.items ≡ text.old.items ++ flat_map code_name (numbers_from 0 count)) }
{
    for code in 0..count {
        push_code_name(text, code)?;
    }
    Ok(())
}

/// Adds the encoding of all fonts.
#[tactic(auto, unfolding(crate::specs::Fonts::encoding_pdf))]
pub fn push_encoding(text: &mut Vec<u8>) -> Result<(), AllocError>
    ensures { OnOk result (text.new.items ≡ text.old.items ++ encoding_pdf) }
{
    text.extend_from_slice(encoding_begin())?;
    push_code_names(text, 256)?;
    text.extend_from_slice(list_end())
}

/// Adds the width of a glyph.
#[tactic(auto, unfolding(crate::specs::Fonts::width_pdf))]
fn push_width(text: &mut Vec<u8>, columns: u64, code: u64) -> Result<(), AllocError>
    requires { columns ≤ 12 }
    ensures { OnOk result (text.new.items ≡ text.old.items ++ width_pdf columns code) }
{
    let columns = if code == NO_MARK { 6 } else { columns };
    push_small(text, 42 * columns)?;
    text.push(b' ')?;
    Ok(())
}

/// Adds the width of glyphs.
fn push_each_width(text: &mut Vec<u8>, columns: u64, count: u64) -> Result<(), AllocError>
    requires { columns ≤ 12 }
    ensures { OnOk result (text.new.items ≡ text.old.items ++ flat_map (width_pdf columns) (numbers_from 0 count)) }
{
    for code in 0..count {
        push_width(text, columns, code)?;
    }
    Ok(())
}

/// Adds the widths of glyphs of this many dot columns.
#[tactic(auto, unfolding(crate::specs::Fonts::widths_pdf))]
pub fn push_widths(text: &mut Vec<u8>, columns: u64) -> Result<(), AllocError>
    requires { columns ≤ 12 }
    ensures { OnOk result (text.new.items ≡ text.old.items ++ widths_pdf columns) }
{
    text.push(b'[')?;
    push_each_width(text, columns, 256)?;
    text.push(b']')?;
    Ok(())
}

/// Adds a character in UTF-16, in hexadecimal digits.
fn push_utf_16(text: &mut Vec<u8>, character: char) -> Result<(), AllocError>
    ensures { OnOk result (text.new.items ≡ text.old.items ++ utf_16 character) }
{
    let u = u32::from(character);
    if u < 65536 {
        return push_hex_4(text, u as u16);
    }
    push_hex_4(text, (55296 + (u - 65536) / 1024) as u16)?;
    push_hex_4(text, (56320 + u % 1024) as u16)
}

/// The character of a code in a set, or a space instead of a column of dots.
fn set_character(set: u64, code: u8) -> char
    ensures { result ≡ set_character set code }
{
    if set == 2 {
        return ' ';
    }
    let shown = character(code, set == 1);
    if shown == '\u{A0}' { ' ' } else { shown }
}

/// Adds a code's character.
#[tactic(auto, unfolding(crate::specs::Fonts::character_pdf))]
fn push_character(text: &mut Vec<u8>, set: u64, code: u8) -> Result<(), AllocError>
    ensures { OnOk result (text.new.items ≡ text.old.items ++ character_pdf set code) }
{
    text.push(b'<')?;
    push_utf_16(text, set_character(set, code))?;
    text.push(b'>')?;
    Ok(())
}

/// Adds the characters of codes.
fn push_each_character(text: &mut Vec<u8>, set: u64, count: u64) -> Result<(), AllocError>
    requires { count ≤ 256 }
    ensures { OnOk result (text.new.items ≡ text.old.items ++ flat_map (character_pdf set) (numbers_from 0 count)) }
{
    for code in 0..count {
        push_character(text, set, code as u8)?;
    }
    Ok(())
}

/// Adds the characters of a set's codes.
#[tactic(auto, unfolding(crate::specs::Fonts::characters_pdf))]
pub fn push_characters(text: &mut Vec<u8>, set: u64) -> Result<(), AllocError>
    ensures { OnOk result (text.new.items ≡ text.old.items ++ characters_pdf set) }
{
    text.extend_from_slice(characters_begin())?;
    push_each_character(text, set, 256)?;
    text.extend_from_slice(characters_end())
}

/// Adds a font's name and its object.
#[tactic(auto, unfolding(crate::specs::Fonts::font_entry))]
fn push_font_entry(text: &mut Vec<u8>, font: usize) -> Result<(), AllocError>
    requires { font < 9 }
    ensures { OnOk result (text.new.items ≡ text.old.items ++ font_entry font) }
{
    text.push(b'/')?;
    text.extend_from_slice(font_name(font))?;
    push_between(text, b" ", 10 + font as u64, reference())
}

/// Adds the entries of fonts.
fn push_font_entries(text: &mut Vec<u8>, count: usize) -> Result<(), AllocError>
    requires { count ≤ 9 }
    ensures { OnOk result (text.new.items ≡ text.old.items ++ flat_map font_entry (numbers_from 0 count)) }
{
    for font in 0..count {
        push_font_entry(text, font)?;
    }
    Ok(())
}

/// Adds the fonts by their names.
#[tactic(auto, unfolding(crate::specs::Fonts::resources_pdf))]
pub fn push_resources(text: &mut Vec<u8>) -> Result<(), AllocError>
    ensures { OnOk result (text.new.items ≡ text.old.items ++ resources_pdf) }
{
    text.extend_from_slice(fonts_begin())?;
    push_font_entries(text, FONTS)?;
    text.extend_from_slice(dictionary_end())
}
