//! The page of a printer's inputs.

ghost use Rattle.std.specs.Prelude.{◌≡◌, ◌≤◌, length, map, IfOk};
ghost use Rattle.std.specs.List.{position};
ghost use Rattle.pr_page.specs.Page.{IsPage};
ghost use Rattle.pr_jobs.specs.Formats.{text_in};
ghost use Rattle.pr_jobs.specs.Raw.{four_alone, printed_on};
ghost use Rattle.pr_exports.specs.Laws.{BytesAreInputs};
ghost use Rattle.pr_exports.specs.Printed.{GivesInputsText, GivesText};
ghost use Rattle.pr_exports.specs.Printing.{input_of, inputs_limit, is_no_input};
ghost use Rattle.pr_exports.specs.Asked.{HandsInputs, TellsPrint};
ghost use Rattle.pr_exports.specs.Settings.{WithShapes, shown_of};

use crate::answer::{Answer, ended, give, numbered, refused};
use crate::settings::{shapes_for, shown_for};
use pr_cli::End;
use pr_dots::Shapes;
use pr_jobs::{CliFault, ShapesFault, outcome_with, text_in_format};
use pr_page::{Input, NoMemory, Paper, Printer};
use pr_render::Format;
use pr_serial::Present;
use std::alloc::Global;

/// The most inputs of a page: a printer takes no more.
const INPUTS_LIMIT: usize = 4_294_967_296;

/// The last number that means an input.
const LAST_INPUT: u16 = 257;

/// The printers of a page that is printed of inputs.
const FOUR_ALONE: Present = Present {
    four: true,
    five: false,
};

/// The input that a number means: 0 to 255 a byte, 256 the selection of the graphic/upper case
/// set, 257 that of the lower/upper case set.
fn input_for(number: u16) -> Input
    ensures { result ≡ input_of number }
{
    match u8::try_from(number) {
        Ok(byte) => Input::Byte(byte),
        Err(_) => Input::Select(number == LAST_INPUT),
    }
}

/// The index of the first number that means no input, if there is one.
fn first_no_input(numbers: &[u16]) -> Option<usize>
    ensures { result ≡ position is_no_input numbers.now }
{
    for (index, number) in numbers.iter().enumerate() {
        if *number > LAST_INPUT {
            return Some(index);
        }
    }
    None
}

/// The paper of a printer that has taken the inputs that numbers mean.
fn paper_of(alloc: Global, numbers: &[u16]) -> Result<Paper, NoMemory>
    requires few { length numbers.now ≤ inputs_limit }
    ensures { IfOk result (λ paper. IsPage (map input_of numbers.now) paper) }
{
    let mut printer = Printer::new(alloc);
    for number in numbers {
        printer.take(input_for(*number))?;
    }
    Ok(printer.into_paper())
}

/// The text of a paper, as that of printer 4.
pub fn paper_text(
    alloc: Global,
    paper: Paper,
    format: Format,
    shapes: &Shapes,
) -> Result<Vec<u8>, CliFault>
    ensures { GivesText (text_in shapes.now format four_alone (printed_on paper)) result }
{
    let outcome = outcome_with(alloc, paper);
    let text = text_in_format(alloc, shapes, outcome, FOUR_ALONE, format)?;
    Ok(text.into_vec()?)
}

/// The text of the page of the inputs that numbers mean.
fn text_of(
    alloc: Global,
    numbers: &[u16],
    format: Format,
    shapes: &Shapes,
) -> Result<Vec<u8>, CliFault>
    requires few { length numbers.now ≤ inputs_limit }
    ensures { GivesInputsText shapes.now format (map input_of numbers.now) result }
{
    let paper = paper_of(alloc, numbers)?;
    Ok(paper_text(alloc, paper, format, shapes)?)
}

/// Puts the text of the page that a printer prints of its inputs, as that of printer 4, at the front of a buffer.
fn print(alloc: Global, inputs: &[u16], format: Format, shapes: &Shapes, out: &mut [u8]) -> Answer
    ensures hands { HandsInputs shapes.now format inputs.now out.old out.new result }
    ensures length { length out.new ≡ length out.old }
{
    if inputs.len() > INPUTS_LIMIT {
        return ended(End::Job(CliFault::TooLarge));
    }
    if let Some(index) = first_no_input(inputs) {
        return refused(28, index);
    }
    match text_of(alloc, inputs, format, shapes) {
        Ok(text) => numbered(give(Ok(()), &text, out)),
        Err(fault) => ended(End::Job(fault)),
    }
}

/// Puts the text of the page that a printer prints of its inputs, or of a part of it, at the front of the caller's buffer. The
/// inputs are numbers: 0 to 255 a byte, 256 the selection of the graphic/upper case set, 257 that of the lower/upper case set;
/// before the first selection the former is selected.
///
/// `format` is 0 for the page text, 1 for lines of 80 columns, 2 for an SVG document, 3 for a PNG file, 4 for a PDF document.
/// `device` is 4 or 5 for the pages of one printer, `sheet` is the number of one sheet from 1; 0 means all of them. `top` is how
/// many lines the first row is below the upper edge of the paper, at most 65, and `paper` that of a document or a PNG file: 0
/// continuous paper without and 1 with its holes, 2 A4, 3 letter, which a PNG file does not show. `scale` is how many pixels a PNG
/// file has for the place of a dot, from 1 to 8. Pictures draw the characters of the file `characters`, or the project's own where
/// it is empty. Numbers that mean no such format are refused, and so are a file of characters with a bad line, a sheet past the
/// last one and a picture that is too large.
///
/// It is refused for more than 2^32 inputs, exactly; then exactly where a number is above 257, with the index of the first, from
/// 0, before any memory is taken; where memory was refused; and where the text has more bytes than the buffer has room for, with
/// their number. The buffer is then as it was.
#[unsafe(no_mangle)]
pub extern "C" fn print1525_print(
    alloc: Global,
    inputs: &[u16],
    format: u8,
    device: u8,
    sheet: u64,
    top: u8,
    paper: u8,
    scale: u8,
    characters: &[u8],
    out: &mut [u8],
    answer: &mut Answer,
)
    ensures tells { WithShapes characters.now (λ shapes.
        TellsPrint (shown_of format device sheet top paper scale) shapes inputs.now out.old out.new answer.new) }
    ensures length { length out.new ≡ length out.old }
{
    let shapes = shapes_for(characters);
    let Some(format) = shown_for(format, device, sheet, top, paper, scale) else {
        *answer = refused(24, 0);
        return;
    };
    *answer = match shapes {
        Ok(shapes) => print(alloc, inputs, format, &shapes, out),
        Err(fault) => ended(End::Characters(ShapesFault::Characters(fault))),
    };
}

/// A law, with nothing to run: bytes in a character set and inputs that select this set first, with
/// these bytes after it, have the same pages.
pub fn bytes_are_inputs()
    ensures { BytesAreInputs }
{}
