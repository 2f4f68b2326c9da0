//! The font of a mark, and its code there.

ghost use Rattle.std.specs.Prelude.{◌≡◌, ◌<◌, ◌≤◌};
ghost use Rattle.pr_pdf.specs.Fonts.{code_of, font_columns, font_name, font_names, font_of, mark_of, number_of};

use pr_page::Mark;

/// How many fonts there are.
pub const FONTS: usize = 9;

/// The font that has the columns of dots.
pub const COLUMN_FONT: usize = 8;

/// The font of a mark: four for each character set, and one for columns of dots.
pub fn font_of(mark: Mark) -> usize
    ensures font { result ≡ font_of mark }
    ensures within { result < 9 }
{
    match mark {
        Mark::Cell {
            code: _,
            lower,
            reverse,
            wide,
        } => (if lower { 4 } else { 0 }) + (if reverse { 2 } else { 0 }) + usize::from(wide),
        Mark::Dots(_value) => COLUMN_FONT,
    }
}

/// The code of a mark in its font.
pub fn code_of(mark: Mark) -> u8
    ensures { result ≡ code_of mark }
{
    match mark {
        Mark::Cell { code, .. } => code,
        Mark::Dots(value) => value,
    }
}

/// The mark of a code in a font.
pub fn mark_of(font: usize, code: u8) -> Mark
    ensures { result ≡ mark_of font code }
{
    if font == COLUMN_FONT {
        return Mark::Dots(code);
    }
    Mark::Cell {
        code,
        lower: font / 4 % 2 == 1,
        reverse: font / 2 % 2 == 1,
        wide: font % 2 == 1,
    }
}

/// The number of a mark's glyph.
pub fn number_of(mark: Mark) -> usize
    ensures number { result ≡ number_of mark }
    ensures within { result < 2304 }
{
    256 * font_of(mark) + usize::from(code_of(mark))
}

/// The name of a font.
#[tactic(auto, unfolding(crate::specs::Fonts::font_names))]
pub fn font_name(font: usize) -> &'static [u8]
    requires { font < 9 }
    ensures { result.now ≡ font_name font }
{
    match font {
        0 => b"U",
        1 => b"UW",
        2 => b"UR",
        3 => b"URW",
        4 => b"L",
        5 => b"LW",
        6 => b"LR",
        7 => b"LRW",
        _ => b"D",
    }
}

/// How many dot columns a glyph of a font has.
pub fn font_columns(font: usize) -> u64
    ensures columns { result ≡ font_columns font }
    ensures within { result ≤ 12 }
{
    if font == COLUMN_FONT {
        1
    } else if font % 2 == 1 {
        12
    } else {
        6
    }
}
