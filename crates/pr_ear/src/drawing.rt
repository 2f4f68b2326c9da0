//! Marks as pixels: the bitmap of a region of a page.

ghost use Rattle.std.specs.Prelude.{◌≡◌, ℕ, ◌+◌, ◌*◌, ◌<◌, ◌≤◌, ◌^◌, ◌++◌, drop, length, map, replicate, true, false, IfSome, IfNone};
ghost use Rattle.pr_dots.specs.Dots.{bit_dots, column_dots};
ghost use Rattle.pr_dots.specs.Shapes.{own_shapes};
ghost use Rattle.pr_ear.specs.Drawing.{IsDrawn, MarksHaveThePagesDots, dots_of_marks, drawn_answer, mark_dots, paper, pixels_in};
ghost use Rattle.pr_ear.specs.Inking.{HasRoom, has_pixel, inked, inked_dots, place_in};
ghost use Rattle.pr_ear.specs.MarkNumbers.{mark_by};
ghost use Rattle.pr_ear.specs.declared.drawing.Drawn.{Drawn};

use crate::printer_numbers::{WireMark, mark_for};
use crate::{Answer, plain, refused};
use pr_dots::{Shapes, columns};
use pr_page::MarkOnPaper;

/// A dark pixel.
const DARK: u8 = 0;

/// A pixel without ink.
const LIGHT: u8 = 255;

/// A region of a page in pixels, which are 1/120 inch wide and 1/126 inch high: each dot is two by two.
#[repr(C)]
#[derive(Clone, Copy, Debug, PartialEq, Eq)]
pub struct Region {
    /// The first column of pixels; a page has 960.
    pub x: u64,
    /// The first line of pixels, from the top of the paper.
    pub y: u64,
    /// The number of columns.
    pub width: usize,
    /// The number of lines.
    pub height: usize,
}

/// What came of drawing a region.
#[derive(Clone, Copy, Debug, PartialEq, Eq)]
pub enum Drawn {
    /// The pixels, this many, are at the front of the buffer.
    Pixels(usize),
    /// The region has this many pixels, more than the buffer has room for.
    TooSmall(usize),
    /// The region has 2^64 pixels or more.
    TooLarge,
}

/// Where a pixel of the page is in the bitmap of a region, if the region has it.
fn place_of(region: &Region, x: u64, y: u128) -> Option<usize>
    requires { region.now.width * region.now.height < 2 ^ 64 }
    ensures some { IfSome result (λ place. (has_pixel region.now x y ≡ true) × (place ≡ place_in region.now x y)) }
    ensures none { IfNone result (has_pixel region.now x y ≡ false) }
{
    if x < region.x || y < u128::from(region.y) {
        return None;
    }
    let column = x - region.x;
    let line = y - u128::from(region.y);
    if column < region.width as u64 && line < region.height as u128 {
        Some(line as usize * region.width + column as usize)
    } else {
        None
    }
}

/// Makes a pixel of the page dark, if the region has it.
fn ink(out: &mut [u8], region: &Region, x: u64, y: u128)
    requires size { region.now.width * region.now.height < 2 ^ 64 }
    requires room { region.now.width * region.now.height ≤ length out.old }
    ensures { out.new ≡ inked region.now x y out.old }
{
    if let Some(place) = place_of(region, x, y) {
        out[place] = DARK;
    }
}

/// Draws the dot of a column's bit, if it has one: two by two pixels.
#[tactic(auto, unfolding(crate::specs::Inking::inked_dots))]
fn ink_bit(out: &mut [u8], region: &Region, x: u64, y: u128, value: u8, bit: u8)
    requires size { region.now.width * region.now.height < 2 ^ 64 }
    requires room { region.now.width * region.now.height ≤ length out.old }
    requires column { x < 2 ^ 32 }
    requires line { y ≤ 18446744073709551615 }
    requires bit { bit < 7 }
    ensures { out.new ≡ inked_dots region.now (bit_dots x y value bit) out.old }
{
    if (value >> bit) % 2 == 1 {
        let column = 2 * x;
        let line = y + 2 * u128::from(bit);
        ink(out, region, column, line);
        ink(out, region, column + 1, line);
        ink(out, region, column, line + 1);
        ink(out, region, column + 1, line + 1);
    }
}

/// Draws a column of dots.
fn ink_column(out: &mut [u8], region: &Region, x: u64, y: u128, value: u8)
    requires size { region.now.width * region.now.height < 2 ^ 64 }
    requires room { region.now.width * region.now.height ≤ length out.old }
    requires column { x < 2 ^ 32 }
    requires line { y ≤ 18446744073709551615 }
    ensures { out.new ≡ inked_dots region.now (column_dots x y value) out.old }
{
    for bit in 0u8..7 {
        ink_bit(out, region, x, y, value, bit);
    }
}

/// Draws a mark.
#[tactic(auto, using(crate::proofs::Inked::dots_in_parts))]
fn ink_mark(shapes: &Shapes, out: &mut [u8], region: &Region, mark: MarkOnPaper)
    requires size { region.now.width * region.now.height < 2 ^ 64 }
    requires room { region.now.width * region.now.height ≤ length out.old }
    ensures { out.new ≡ inked_dots region.now (mark_dots shapes.now mark) out.old }
{
    let mut x = u64::from(mark.x);
    for value in columns(shapes, mark.mark).as_slice() {
        ink_column(out, region, x, u128::from(mark.y), *value);
        x += 1;
    }
}

/// Draws marks.
#[tactic(auto, using(crate::proofs::Inked::dots_in_parts))]
fn ink_marks(shapes: &Shapes, out: &mut [u8], region: &Region, marks: &[WireMark])
    requires size { region.now.width * region.now.height < 2 ^ 64 }
    requires room { region.now.width * region.now.height ≤ length out.old }
    ensures { out.new ≡ inked_dots region.now (dots_of_marks shapes.now (map mark_by marks.now)) out.old }
{
    for mark in marks {
        ink_mark(shapes, out, region, mark_for(mark));
    }
}

/// Makes the first pixels of a buffer light.
fn blank(out: &mut [u8], size: usize)
    requires { size ≤ length out.old }
    ensures { out.new ≡ replicate size 255 ++ drop size out.old }
{
    for place in 0..size {
        out[place] = LIGHT;
    }
}

/// Whether a buffer of this size has room for the pixels of a region, and how many they are.
fn pixels_of(region: &Region, room: usize) -> Drawn
    ensures room { HasRoom region.now room result }
    ensures size { (n : ℕ) → result ≡ Drawn.Pixels n → region.now.width * region.now.height < 2 ^ 64 }
{
    match region.width.checked_mul(region.height) {
        None => Drawn::TooLarge,
        Some(size) if room < size => Drawn::TooSmall(size),
        Some(size) => Drawn::Pixels(size),
    }
}

/// Draws marks over the pixels of a region of their page, which are at the front of a buffer, line by line from the
/// top: a pixel becomes 0 where a dot is, and stays as it was elsewhere. It takes no memory, and time for the marks
/// alone.
///
/// If the buffer is too small, or the region has 2^64 pixels or more, the buffer is as it was.
pub fn draw_marks(marks: &[WireMark], region: &Region, out: &mut [u8]) -> Drawn
    ensures { IsDrawn own_shapes (map mark_by marks.now) region.now (pixels_in out.old) result out.old out.new }
{
    match pixels_of(region, out.len()) {
        Drawn::Pixels(size) => {
            ink_marks(&Shapes::own(), out, region, marks);
            Drawn::Pixels(size)
        }
        refused => refused,
    }
}

/// Puts the pixels of a region of a page with these marks at the front of a buffer, line by line from the top: 0 where
/// a dot is, else 255. It takes no memory, and time for the marks and the pixels.
///
/// If the buffer is too small, or the region has 2^64 pixels or more, the buffer is as it was.
pub fn draw_page(marks: &[WireMark], region: &Region, out: &mut [u8]) -> Drawn
    ensures { IsDrawn own_shapes (map mark_by marks.now) region.now paper result out.old out.new }
{
    match pixels_of(region, out.len()) {
        Drawn::Pixels(size) => {
            blank(out, size);
            ink_marks(&Shapes::own(), out, region, marks);
            Drawn::Pixels(size)
        }
        refused => refused,
    }
}

/// A law: marks of a paper that holds none have its dots, so their pixels are those of a PNG file.
pub fn marks_have_the_pages_dots()
    ensures { MarksHaveThePagesDots }
{}

/// The answer to a region, as numbers.
fn drawn_answer(drawn: Drawn) -> Answer
    ensures { result ≡ drawn_answer drawn }
{
    match drawn {
        Drawn::Pixels(size) => plain(0, size),
        Drawn::TooSmall(size) => plain(4, size),
        Drawn::TooLarge => refused(9, 0),
    }
}

/// Draws marks over the pixels of a region of their page. The answer is that of [`draw_marks`], in plain numbers.
/// Whatever numbers the marks have, they mean some marks. It takes no memory.
#[unsafe(no_mangle)]
pub extern "C" fn print1525_printer_draw(
    marks: &[WireMark],
    region: &Region,
    out: &mut [u8],
    answer: &mut Answer,
)
    ensures drawn { (drawn : Drawn)
        × IsDrawn own_shapes (map mark_by marks.now) region.now (pixels_in out.old) drawn out.old out.new
        × (answer.new ≡ drawn_answer drawn) }
{
    *answer = drawn_answer(draw_marks(marks, region, out));
}

/// Puts the pixels of a region of a page with these marks at the front of a buffer. The answer is that of
/// [`draw_page`], in plain numbers. Whatever numbers the marks have, they mean some marks. It takes no memory.
#[unsafe(no_mangle)]
pub extern "C" fn print1525_printer_page(
    marks: &[WireMark],
    region: &Region,
    out: &mut [u8],
    answer: &mut Answer,
)
    ensures drawn { (drawn : Drawn) × IsDrawn own_shapes (map mark_by marks.now) region.now paper drawn out.old out.new
        × (answer.new ≡ drawn_answer drawn) }
{
    *answer = drawn_answer(draw_page(marks, region, out));
}
