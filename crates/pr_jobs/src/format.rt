//! The text of a page in each format, and of each part of its pages.

ghost use Rattle.std.specs.Prelude.{◌≡◌};
ghost use Rattle.pr_jobs.specs.Formats.{first_paper, has_rows, if_low, is_second, left_to, look_of, pdf_part, png_part, sheet_at, shown_of, svg_part, text_in};
ghost use Rattle.pr_dots.specs.Sheets.{lowered};
ghost use Rattle.pr_jobs.specs.Shown.{GivesShown};
ghost use Rattle.pr_system.specs.Headline.{empty_paper};

use crate::fault::{CliFault, PictureFault};
use crate::page_text::text_from;
use crate::text::Text;
use pr_dots::{Shapes, sheets_of};
use pr_page::{Paper, Sequence};
use pr_pdf::{PdfFault, pdf};
use pr_png::{Look, PngFault, paper_png, sheet_png};
use pr_render::{Device, Format, Layout, Part, drawn_of, sheet_svg, svg_blocks};
use pr_serial::Present;
use pr_system::Outcome;
use std::alloc::Global;

/// Returns the printers whose pages are shown: the one that is named, or else all that are present. It takes no memory.
pub fn shown_of(device: Option<Device>, present: Present) -> Present
    ensures { result ≡ shown_of device present }
{
    match device {
        None => present,
        Some(Device::Four) => Present {
            four: true,
            five: false,
        },
        Some(Device::Five) => Present {
            four: false,
            five: true,
        },
    }
}

/// A paper without marks.
fn empty_paper(alloc: Global) -> Paper
    ensures { result ≡ empty_paper }
{
    Paper {
        rows: Sequence::new(alloc),
        held: Sequence::new(alloc),
    }
}

/// The outcome without the paper of a printer that is not named, if one is.
fn left_to(alloc: Global, device: Option<Device>, mut outcome: Outcome) -> Outcome
    ensures { result ≡ left_to device outcome }
{
    match device {
        None => {}
        Some(Device::Four) => outcome.paper5 = empty_paper(alloc),
        Some(Device::Five) => outcome.paper4 = empty_paper(alloc),
    }
    outcome
}

/// Whether a row is printed; marks that are held are none.
pub fn has_rows(paper: &Paper) -> bool
    ensures { result ≡ has_rows paper.now }
{
    !paper.rows.is_empty()
}

/// Whether the paper of which a sheet is shown is printer 5's.
fn is_second(outcome: &Outcome, drawn: Present) -> bool
    ensures { result ≡ is_second outcome.now drawn }
{
    let is_blank = !has_rows(&outcome.paper4);
    !drawn.four || (drawn.five && (is_blank && has_rows(&outcome.paper5)))
}

/// The paper of which a sheet or a bitmap is shown: that of the first printer with a printed row of those that the picture draws, or
/// else of the first of them.
fn first_paper(outcome: &Outcome, drawn: Present) -> &Paper
    ensures { result.now ≡ first_paper outcome.now drawn }
{
    if is_second(outcome, drawn) {
        &outcome.paper5
    } else {
        &outcome.paper4
    }
}

/// A sheet of a paper by its number from 1, counted from 0. The first row is `top` lines below the upper edge of the first.
///
/// # Errors
///
/// [`PictureFault::NoSuchSheet`] with how many sheets there are, where the paper has none of this number.
fn sheet_at(paper: &Paper, top: u8, sheet: u64) -> Result<u64, PictureFault>
    ensures { result ≡ sheet_at (lowered top paper.now) sheet }
{
    let sheets = sheets_of(top, paper);
    if 1 <= sheet && sheet <= sheets {
        Ok(sheet - 1)
    } else {
        Err(PictureFault::NoSuchSheet(sheets))
    }
}

/// The SVG document of all pages, or of one sheet.
fn svg_part(
    alloc: Global,
    shapes: &Shapes,
    top: u8,
    sheet: Option<u64>,
    present: Present,
    outcome: Outcome,
) -> Result<Text, CliFault>
    ensures { GivesShown (svg_part shapes.now top sheet present outcome) result }
{
    let Some(sheet) = sheet else {
        let blocks = svg_blocks(alloc, shapes, top, outcome, present)?;
        return Ok(Text::from_blocks(alloc, blocks));
    };
    let paper = first_paper(&outcome, drawn_of(&outcome, present));
    let index = sheet_at(paper, top, sheet)?;
    let text = sheet_svg(alloc, shapes, paper, top, index)?;
    Ok(Text::from_vec(alloc, text))
}

/// A paper as a bitmap, whose first row is `top` lines below its upper edge.
fn whole_png(
    alloc: Global,
    shapes: &Shapes,
    top: u8,
    look: Look,
    paper: &Paper,
) -> Result<Text, CliFault>
    ensures { GivesShown (if_low shapes.now look (lowered top paper.now)) result }
{
    match paper_png(alloc, shapes, paper, top, look) {
        Ok(file) => Ok(Text::from_vec(alloc, file)),
        Err(PngFault::TooLarge) => Err(CliFault::Picture(PictureFault::TooLarge)),
        Err(PngFault::NoMemory) => Err(CliFault::NoMemory),
    }
}

/// The paper of one printer as a bitmap, down to its last row, or one sheet of it.
fn png_part(
    alloc: Global,
    shapes: &Shapes,
    top: u8,
    look: Look,
    sheet: Option<u64>,
    present: Present,
    outcome: &Outcome,
) -> Result<Text, CliFault>
    ensures { GivesShown (png_part shapes.now top look sheet present outcome.now) result }
{
    let paper = first_paper(outcome, drawn_of(outcome, present));
    let Some(sheet) = sheet else {
        return whole_png(alloc, shapes, top, look, paper);
    };
    let index = sheet_at(paper, top, sheet)?;
    let file = sheet_png(alloc, shapes, paper, top, look, index)?;
    Ok(Text::from_vec(alloc, file))
}

/// How a bitmap is drawn.
fn look_of(part: Part) -> Look
    ensures { result ≡ look_of part }
{
    Look {
        scale: part.scale,
        holes: part.layout.holes,
    }
}

/// The sheets of the printers that the picture draws, as one document.
fn pdf_part(
    alloc: Global,
    shapes: &Shapes,
    layout: Layout,
    present: Present,
    outcome: &Outcome,
) -> Result<Text, CliFault>
    ensures { GivesShown (pdf_part shapes.now layout present outcome.now) result }
{
    let drawn = drawn_of(outcome, present);
    match pdf(
        alloc,
        shapes,
        &outcome.paper4,
        &outcome.paper5,
        layout,
        drawn,
    ) {
        Ok(file) => Ok(Text::from_vec(alloc, file)),
        Err(PdfFault::TooLarge) => Err(CliFault::Picture(PictureFault::TooLarge)),
        Err(PdfFault::NoMemory) => Err(CliFault::NoMemory),
    }
}

/// The text of an outcome in a format. Lines and pictures show the sheets of the printers that are present, or of the one
/// that the format names. A bitmap or a sheet is one of the named printer, or else of the first that has printed a row, or else
/// of the first that holds marks, or else of the first that is present. Pictures draw characters in these shapes.
///
/// # Errors
///
/// - [`CliFault::Picture`]: the format's part of the pages can not be shown.
/// - [`CliFault::NoMemory`]: memory was refused.
pub fn text_in_format(
    alloc: Global,
    shapes: &Shapes,
    outcome: Outcome,
    present: Present,
    format: Format,
) -> Result<Text, CliFault>
    ensures { GivesShown (text_in shapes.now format present outcome) result }
{
    match format {
        Format::List => Ok(text_from(alloc, outcome)?),
        Format::Lines(look) => {
            let text = pr_render::text(alloc, look, &outcome, present)?;
            Ok(Text::from_vec(alloc, text))
        }
        Format::Svg(part) => {
            let shown = left_to(alloc, part.device, outcome);
            svg_part(
                alloc,
                shapes,
                part.layout.top,
                part.sheet,
                shown_of(part.device, present),
                shown,
            )
        }
        Format::Png(part) => {
            let shown = left_to(alloc, part.device, outcome);
            png_part(
                alloc,
                shapes,
                part.layout.top,
                look_of(part),
                part.sheet,
                shown_of(part.device, present),
                &shown,
            )
        }
        Format::Pdf(device, layout) => {
            let shown = left_to(alloc, device, outcome);
            pdf_part(alloc, shapes, layout, shown_of(device, present), &shown)
        }
    }
}
