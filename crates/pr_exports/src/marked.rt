//! The picture of marks.

ghost use Rattle.std.specs.Prelude.{◌≡◌, length, None};
ghost use Rattle.pr_render.specs.declared.format.Format.{Format};
ghost use Rattle.pr_exports.specs.Marked.{HandsMarks, MarksShowTheirPage, SheetsNeedTheirMarks, TellsMarks};
ghost use Rattle.pr_exports.specs.Marks.{first_up};
ghost use Rattle.pr_exports.specs.Printed.{GivesMarksText};
ghost use Rattle.pr_exports.specs.Settings.{WithShapes, shown_of};

use crate::answer::{Answer, ended, give, numbered, refused};
use crate::marks::{WireMark, first_up, paper_with};
use crate::printing::paper_text;
use crate::settings::{shapes_for, shown_for};
use pr_cli::End;
use pr_dots::Shapes;
use pr_jobs::{CliFault, ShapesFault};
use pr_render::Format;
use std::alloc::Global;

/// The text of the paper that has these marks.
fn text_of(
    alloc: Global,
    marks: &[WireMark],
    format: Format,
    shapes: &Shapes,
) -> Result<Vec<u8>, CliFault>
    requires down { first_up 0 0 marks.now ≡ None }
    ensures { GivesMarksText shapes.now format marks.now result }
{
    let paper = paper_with(alloc, marks)?;
    Ok(paper_text(alloc, paper, format, shapes)?)
}

/// Puts the text of the paper that has these marks, as that of printer 4, at the front of a buffer.
fn draw(
    alloc: Global,
    marks: &[WireMark],
    format: Format,
    shapes: &Shapes,
    out: &mut [u8],
) -> Answer
    ensures hands { HandsMarks shapes.now format marks.now out.old out.new result }
    ensures length { length out.new ≡ length out.old }
{
    if let Some(index) = first_up(marks) {
        return refused(18, index);
    }
    match text_of(alloc, marks, format, shapes) {
        Ok(text) => numbered(give(Ok(()), &text, out)),
        Err(fault) => ended(End::Job(fault)),
    }
}

/// Puts the picture of the paper that has these marks, or of a sheet of it, at the front of the caller's buffer. The
/// marks are in the order in which a printer makes them; those of a row have its place. Rows without marks are not part
/// of the paper.
///
/// `format`, `sheet`, `top`, `paper`, `scale` and `characters` are as in [`crate::print1525_print`], and refused as
/// there. The text is that of the paper of printer 4 with these rows, and nothing held.
///
/// It is refused exactly where a mark is above the one before it, with the index of the first, from 0, before any
/// memory is taken; where memory was refused; and where the text has more bytes than the buffer has room for, with
/// their number. The buffer is then as it was.
#[unsafe(no_mangle)]
pub extern "C" fn print1525_printer_picture(
    alloc: Global,
    marks: &[WireMark],
    format: u8,
    sheet: u64,
    top: u8,
    paper: u8,
    scale: u8,
    characters: &[u8],
    out: &mut [u8],
    answer: &mut Answer,
)
    ensures tells { WithShapes characters.now (λ shapes.
        TellsMarks (shown_of format 0 sheet top paper scale) shapes marks.now out.old out.new answer.new) }
    ensures length { length out.new ≡ length out.old }
{
    let shapes = shapes_for(characters);
    let Some(format) = shown_for(format, 0, sheet, top, paper, scale) else {
        *answer = refused(24, 0);
        return;
    };
    *answer = match shapes {
        Ok(shapes) => draw(alloc, marks, format, &shapes, out),
        Err(fault) => ended(End::Characters(ShapesFault::Characters(fault))),
    };
}

/// A law, with nothing to run: the text of marks of the page of inputs is that of the page without its blank rows.
pub fn marks_show_their_page()
    ensures { MarksShowTheirPage }
{}

/// A law, with nothing to run: a picture of one sheet needs the sheet's marks alone.
pub fn sheets_need_their_marks()
    ensures svg { SheetsNeedTheirMarks Format.Svg }
    ensures png { SheetsNeedTheirMarks Format.Png }
{}
