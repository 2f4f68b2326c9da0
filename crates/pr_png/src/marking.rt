//! The dots of a paper on a picture: whether each dot column that a printer prints is dark in each line of pixels.

ghost use Rattle.std.specs.Prelude.{◌≡◌, ℕ, ◌*◌, ◌<◌, ◌≤◌, ◌^◌, false, flat_map, length, slice_index_or, IfOk};
ghost use Rattle.pr_dots.specs.Dots.{bit_dots, column_dots, columns_dots, columns_of, row_dots};
ghost use Rattle.pr_dots.specs.Sheets.{lowered, lowered_row, lowered_rows};
ghost use Rattle.pr_png.specs.Marking.{darkened, darkened_lines, is_near, marked, ShowsExtent};

use crate::look::line_at;
use pr_dots::{Scale, Shapes, columns, lowered_y};
use pr_page::{Paper, Placed, Row};
use std::alloc::{AllocError, Global};

/// The dot columns that a printer prints: 8 inches, 60 to the inch.
const DOT_COLUMNS: u64 = 480;

/// Which lines of pixels a picture has.
#[derive(Clone, Copy)]
pub struct Extent {
    /// How many pixels the place of a dot has.
    pub scale: Scale,
    /// The first line, counted from the paper's upper edge.
    pub top: u128,
    /// How many lines there are.
    pub count: u64,
}

/// Darkens a dot column in a line of pixels, counted from the paper's upper edge, if the picture has that place.
fn darken(dark: &mut [bool], extent: Extent, column: u64, line: u128)
    requires whole { length dark.old ≡ 480 * extent.count }
    requires few { extent.count ≤ 1000000 }
    ensures { dark.new ≡ darkened extent column line dark.old }
{
    let top = extent.top;
    if column < DOT_COLUMNS && line >= top && line - top < u128::from(extent.count) {
        let place = (line - top) as u64 * DOT_COLUMNS + column;
        dark[place as usize] = true;
    }
}

/// The same in several lines.
#[tactic(auto, using(crate::proofs::OnPicture::lines_in_parts))]
fn darken_lines(dark: &mut [bool], extent: Extent, column: u64, line: u128, count: u8)
    requires whole { length dark.old ≡ 480 * extent.count }
    requires few { extent.count ≤ 1000000 }
    requires within { line ≤ 2 ^ 100 }
    ensures { dark.new ≡ darkened_lines extent column line count dark.old }
{
    for next in 0..count {
        darken(dark, extent, column, line + u128::from(next));
    }
}

/// Puts the dot of a column's bit on a picture, if it has one.
#[tactic(auto, unfolding(crate::specs::Marking::marked))]
fn mark_bit(dark: &mut [bool], extent: Extent, x: u64, y: u128, value: u8, bit: u8)
    requires whole { length dark.old ≡ 480 * extent.count }
    requires few { extent.count ≤ 1000000 }
    requires within { y ≤ 18446744073709556970 }
    requires bit { bit < 7 }
    ensures { dark.new ≡ marked extent (bit_dots x y value bit) dark.old }
{
    if (value >> bit) % 2 == 1 {
        let line = line_at(extent.scale, y + 2 * u128::from(bit));
        darken_lines(dark, extent, x, line, extent.scale.pixels());
    }
}

/// Puts a column of dots on a picture.
fn mark_column(dark: &mut [bool], extent: Extent, x: u64, y: u128, value: u8)
    requires whole { length dark.old ≡ 480 * extent.count }
    requires few { extent.count ≤ 1000000 }
    requires within { y ≤ 18446744073709556970 }
    ensures { dark.new ≡ marked extent (column_dots x y value) dark.old }
{
    for bit in 0u8..7 {
        mark_bit(dark, extent, x, y, value, bit);
    }
}

/// Puts a mark on a picture, on a row at a distance.
#[tactic(auto, using(crate::proofs::OnPicture::dots_in_parts))]
fn mark_placed(shapes: &Shapes, dark: &mut [bool], extent: Extent, y: u128, placed: Placed)
    requires whole { length dark.old ≡ 480 * extent.count }
    requires few { extent.count ≤ 1000000 }
    requires within { y ≤ 18446744073709556970 }
    ensures { dark.new ≡ marked extent (columns_dots placed.x y (columns_of shapes.now placed.mark)) dark.old }
{
    let mut x = u64::from(placed.x);
    for value in columns(shapes, placed.mark).as_slice() {
        mark_column(dark, extent, x, y, *value);
        x += 1;
    }
}

/// Puts a row on a picture, where the paper's first row is `above` lines below its upper edge.
#[tactic(auto, using(crate::proofs::OnPicture::dots_in_parts))]
fn mark_row(shapes: &Shapes, dark: &mut [bool], extent: Extent, above: u8, row: &Row)
    requires whole { length dark.old ≡ 480 * extent.count }
    requires few { extent.count ≤ 1000000 }
    ensures { dark.new ≡ marked extent (row_dots shapes.now (lowered_row above row.now)) dark.old }
{
    let y = lowered_y(above, row);
    for placed in row.marks.as_slice() {
        mark_placed(shapes, dark, extent, y, *placed);
    }
}

/// Whether a row may have a dot on a picture.
fn is_near(extent: Extent, y: u128) -> bool
    requires within { y ≤ 18446744073709556970 }
    requires top { extent.top ≤ 2 ^ 100 }
    ensures { result ≡ is_near extent y }
{
    extent.top < line_at(extent.scale, y + 14)
        && line_at(extent.scale, y) < extent.top + u128::from(extent.count)
}

/// So many places of a picture that has no dots.
fn blank_places(alloc: Global, count: usize) -> Result<Vec<bool>, AllocError>
    ensures length { IfOk result (λ dark. length dark.items ≡ count) }
    ensures blank { IfOk result (λ dark. (place : ℕ) → slice_index_or dark.items place false ≡ false) }
{
    Ok(vec![in alloc; false; count]?)
}

/// The dots of rows on a picture, of which the first is `above` lines below the paper's upper edge.
#[tactic(auto, using(crate::proofs::OnPicture::dots_in_parts))]
fn mark_rows(shapes: &Shapes, dark: &mut [bool], extent: Extent, above: u8, rows: &[Row])
    requires whole { length dark.old ≡ 480 * extent.count }
    requires few { extent.count ≤ 1000000 }
    requires top { extent.top ≤ 2 ^ 100 }
    ensures { dark.new ≡ marked extent (flat_map (row_dots shapes.now) (lowered_rows above rows.now)) dark.old }
{
    for row in rows {
        if is_near(extent, lowered_y(above, row)) {
            mark_row(shapes, dark, extent, above, row);
        }
    }
}

/// The dots of a paper on a picture of these lines of pixels. The first row is `above` lines below the paper's upper edge.
pub fn dots_on_picture(
    alloc: Global,
    shapes: &Shapes,
    paper: &Paper,
    above: u8,
    extent: Extent,
) -> Result<Vec<bool>, AllocError>
    requires few { extent.count ≤ 1000000 }
    requires top { extent.top ≤ 2 ^ 100 }
    ensures { IfOk result (λ dark. ShowsExtent shapes.now (lowered above paper.now) extent dark.items) }
{
    let mut dark = blank_places(alloc, (DOT_COLUMNS * extent.count) as usize)?;
    mark_rows(shapes, &mut dark, extent, above, paper.rows.as_slice());
    Ok(dark)
}
