//! One sheet of a paper as an SVG document, in units of 1/1260 inch.

ghost use Rattle.std.specs.Prelude.{◌≡◌, ◌+◌, ◌*◌, ◌≤◌, ◌++◌, flat_map, IfOk, OnOk};
ghost use Rattle.pr_dots.specs.Sheets.{lowered, lowered_row, lowered_rows, rows_on};
ghost use Rattle.pr_render.specs.SheetSvg.{row_marks, sheet_svg_of, single_head, single_sheet, single_svg};
ghost use Rattle.pr_render.specs.Svg.{definition_svg, definitions_svg, each_once, row_svg};

use crate::adding::push_number;
use crate::defined::Defined;
use crate::parts::{
    definitions_begin, definitions_end, document_about, ink_begin, paper_piece, sheet_end,
    single_begin, single_end, single_marks, single_paper, single_size,
};
use crate::sheets::push_row_at;
use crate::texts::Texts;
use pr_dots::{Shapes, is_on, lowered_y};
use pr_page::{NoMemory, Paper, Row};
use std::alloc::{AllocError, Global};

/// Adds the document's head.
#[tactic(auto, unfolding(crate::specs::SheetSvg::single_head))]
fn push_head(text: &mut Vec<u8>, top: u128) -> Result<(), AllocError>
    ensures { OnOk result (text.new.items ≡ text.old.items ++ single_head top) }
{
    text.extend_from_slice(single_begin())?;
    push_number(text, top)?;
    text.extend_from_slice(single_size())?;
    text.extend_from_slice(document_about())?;
    text.extend_from_slice(paper_piece())
}

/// Adds the sheet's paper.
#[tactic(auto, unfolding(crate::specs::SheetSvg::single_sheet))]
fn push_sheet(text: &mut Vec<u8>, top: u128) -> Result<(), AllocError>
    ensures { OnOk result (text.new.items ≡ text.old.items ++ single_sheet top) }
{
    text.extend_from_slice(single_paper())?;
    push_number(text, top)?;
    text.extend_from_slice(single_marks())
}

/// Adds the definition of each mark of the rows on a sheet.
fn push_marks(
    text: &mut Vec<u8>,
    alloc: Global,
    shapes: &Shapes,
    above: u8,
    sheet: u64,
    rows: &[Row],
) -> Result<(), AllocError>
    ensures { OnOk result (text.new.items ≡ text.old.items ++ flat_map (definition_svg shapes.now) (each_once (row_marks (rows_on sheet (lowered_rows above rows.now))))) }
{
    let mut defined = Defined::new(alloc)?;
    defined.define_sheet(text, shapes, above, sheet, rows)?;
    Ok(())
}

/// Adds these definitions with their begin and end.
#[tactic(auto, unfolding(crate::specs::Svg::definitions_svg))]
fn push_definitions(
    text: &mut Vec<u8>,
    alloc: Global,
    shapes: &Shapes,
    above: u8,
    sheet: u64,
    rows: &[Row],
) -> Result<(), AllocError>
    ensures { OnOk result (text.new.items ≡ text.old.items ++ definitions_svg shapes.now (row_marks (rows_on sheet (lowered_rows above rows.now)))) }
{
    text.extend_from_slice(definitions_begin())?;
    push_marks(text, alloc, shapes, above, sheet, rows)?;
    text.extend_from_slice(definitions_end())
}

/// Adds a row with its distance from the upper edge of the paper.
fn push_lowered(text: &mut Vec<u8>, texts: &Texts, above: u8, row: &Row) -> Result<(), AllocError>
    ensures { OnOk result (text.new.items ≡ text.old.items ++ row_svg (lowered_row above row.now)) }
{
    push_row_at(text, texts, lowered_y(above, row), row.marks.as_slice())
}

/// Adds the rows on a sheet.
fn push_rows(
    text: &mut Vec<u8>,
    texts: &Texts,
    above: u8,
    sheet: u64,
    rows: &[Row],
) -> Result<(), AllocError>
    ensures { OnOk result (text.new.items ≡ text.old.items ++ flat_map row_svg (rows_on sheet (lowered_rows above rows.now))) }
{
    for row in rows {
        if is_on(above, sheet, row) {
            push_lowered(text, texts, above, row)?;
        }
    }
    Ok(())
}

/// Adds the document of the rows on a sheet, which begins at `top`.
#[tactic(auto, unfolding(crate::specs::SheetSvg::single_svg))]
fn push_single(
    text: &mut Vec<u8>,
    alloc: Global,
    shapes: &Shapes,
    above: u8,
    sheet: u64,
    top: u128,
    rows: &[Row],
) -> Result<(), AllocError>
    ensures { OnOk result (text.new.items ≡ text.old.items ++ single_svg shapes.now top (rows_on sheet (lowered_rows above rows.now))) }
{
    let texts = Texts::new(alloc)?;
    push_head(text, top)?;
    push_definitions(text, alloc, shapes, above, sheet, rows)?;
    push_sheet(text, top)?;
    text.extend_from_slice(ink_begin())?;
    push_rows(text, &texts, above, sheet, rows)?;
    text.extend_from_slice(sheet_end())?;
    text.extend_from_slice(single_end())
}

/// One sheet of a paper, from 0, as an SVG document: 10 inches of continuous paper by the 11 inches between two folds. The first
/// row is `top` lines of 1/6 inch below the upper edge of the first sheet. A row that straddles a fold is on both sheets, each of which shows its part. Marks that are held have no place yet, and are left
/// out. What is drawn of a mark is what [`crate::svg`] draws.
///
/// # Errors
///
/// [`NoMemory`] where memory was refused.
pub fn sheet_svg(
    alloc: Global,
    shapes: &Shapes,
    paper: &Paper,
    top: u8,
    sheet: u64,
) -> Result<Vec<u8>, NoMemory>
    ensures { IfOk result (λ text. text.items ≡ sheet_svg_of shapes.now (lowered top paper.now) sheet) }
{
    let mut text = Vec::new(alloc);
    let rows = paper.rows.as_slice();
    let begin = 13_860 * u128::from(sheet) + 630;
    push_single(&mut text, alloc, shapes, top, sheet, begin, rows)?;
    Ok(text)
}
