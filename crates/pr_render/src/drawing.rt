//! Pictures of pages as SVG documents, in units of 1/1260 inch. Dots and lines are as the printer
//! puts them (VIC-1525 User's Manual); paper, names and notes round them are this project's own choice
//! (profile).

ghost use Rattle.std.specs.Prelude.{◌≡◌, ◌+◌, ◌*◌, ◌≤◌, ◌++◌, flat_map, OnOk, IfOk};
ghost use Rattle.pr_render.specs.Sheets.{joined, picture_back, picture_front};
ghost use Rattle.pr_render.specs.Svg.{definition_svg, definitions_svg, drawn_marks, drawn_of, each_once, has_printed, head_svg, height_of, picture_svg, sheets_picas, size_svg, svg_of, units_svg};

use crate::adding::push_number;
use crate::defined::Defined;
use crate::notes::{all_zero, push_notes, stop_picas};
use crate::parts::{
    definitions_begin, definitions_end, desk, document_about, document_begin, paper_piece,
    units_begin,
};
use crate::sheets::{move_sheet_if, push_sheet_if, sheet_room};
use crate::texts::Texts;
use pr_dots::Shapes;
use pr_page::{NoMemory, Paper};
use pr_serial::Present;
use pr_system::Outcome;
use std::alloc::{AllocError, Global};

/// Whether something was printed, or is held.
fn has_printed(paper: &Paper) -> bool
    ensures { result ≡ has_printed paper.now }
{
    !paper.rows.is_empty() || !paper.held.is_empty()
}

/// The printers that are drawn: those present that have printed, or else all that are present (profile).
pub fn drawn_of(outcome: &Outcome, present: Present) -> Present
    ensures { result ≡ drawn_of outcome.now present }
{
    let four = present.four && has_printed(&outcome.paper4);
    let five = present.five && has_printed(&outcome.paper5);
    if four || five {
        Present { four, five }
    } else {
        present
    }
}

/// How much the sheets of these printers take, in picas.
fn sheets_picas(top: u8, outcome: &Outcome, drawn: Present) -> u128
    ensures picas { result ≡ sheets_picas top outcome.now drawn }
    ensures within { result ≤ 36893488147419103366 }
{
    sheet_room(drawn.four, top, &outcome.paper4) + sheet_room(drawn.five, top, &outcome.paper5)
}

/// The document's height in picas, with sheets that take so many.
fn height_of(picas: u128, outcome: &Outcome) -> u128
    requires { picas ≤ 36893488147419103366 }
    ensures height { result ≡ height_of picas outcome.now }
    ensures within { result ≤ 36893488147419103372 }
{
    let statuses = if all_zero(outcome.statuses.as_slice()) {
        0
    } else {
        1
    };
    picas + 4 + stop_picas(outcome.stop) + statuses
}

/// Adds the document's size in picas.
#[tactic(auto, unfolding(crate::specs::Svg::size_svg))]
fn push_size(text: &mut Vec<u8>, height: u128) -> Result<(), AllocError>
    ensures { OnOk result (text.new.items ≡ text.old.items ++ size_svg height) }
{
    text.extend_from_slice(document_begin())?;
    push_number(text, height)
}

/// Adds the document's size in units.
#[tactic(auto, unfolding(crate::specs::Svg::units_svg))]
fn push_units(text: &mut Vec<u8>, height: u128) -> Result<(), AllocError>
    requires { height ≤ 36893488147419103372 }
    ensures { OnOk result (text.new.items ≡ text.old.items ++ units_svg height) }
{
    text.extend_from_slice(units_begin())?;
    push_number(text, 210 * height)
}

/// Adds the document's head.
#[tactic(auto, unfolding(crate::specs::Svg::head_svg))]
fn push_head(text: &mut Vec<u8>, height: u128) -> Result<(), AllocError>
    requires { height ≤ 36893488147419103372 }
    ensures { OnOk result (text.new.items ≡ text.old.items ++ head_svg height) }
{
    push_size(text, height)?;
    push_units(text, height)?;
    text.extend_from_slice(document_about())?;
    text.extend_from_slice(paper_piece())?;
    text.extend_from_slice(desk())
}

/// Adds the definition of each mark of the papers that are drawn.
fn push_marks(
    text: &mut Vec<u8>,
    alloc: Global,
    shapes: &Shapes,
    outcome: &Outcome,
    drawn: Present,
) -> Result<(), AllocError>
    ensures { OnOk result (text.new.items ≡ text.old.items ++ flat_map (definition_svg shapes.now) (each_once (drawn_marks outcome.now drawn))) }
{
    let mut defined = Defined::new(alloc)?;
    defined.define_paper(text, shapes, drawn.four, &outcome.paper4)?;
    defined.define_paper(text, shapes, drawn.five, &outcome.paper5)?;
    Ok(())
}

/// Adds the definitions of the marks of the papers that are drawn, with their begin and end.
#[tactic(auto, unfolding(crate::specs::Svg::definitions_svg))]
fn push_definitions(
    text: &mut Vec<u8>,
    alloc: Global,
    shapes: &Shapes,
    outcome: &Outcome,
    drawn: Present,
) -> Result<(), AllocError>
    ensures { OnOk result (text.new.items ≡ text.old.items ++ definitions_svg shapes.now (drawn_marks outcome.now drawn)) }
{
    text.extend_from_slice(definitions_begin())?;
    push_marks(text, alloc, shapes, outcome, drawn)?;
    text.extend_from_slice(definitions_end())
}

/// Adds the document up to its sheets.
fn push_front(
    text: &mut Vec<u8>,
    alloc: Global,
    shapes: &Shapes,
    top: u8,
    outcome: &Outcome,
    drawn: Present,
) -> Result<(), AllocError>
    ensures { OnOk result (text.new.items ≡ text.old.items ++ picture_front shapes.now top outcome.now drawn) }
{
    push_head(text, height_of(sheets_picas(top, outcome, drawn), outcome))?;
    push_definitions(text, alloc, shapes, outcome, drawn)
}

/// Adds the rest of the document after its sheets.
fn push_back(text: &mut Vec<u8>, picas: u128, outcome: &Outcome) -> Result<(), AllocError>
    requires { picas ≤ 36893488147419103366 }
    ensures { OnOk result (text.new.items ≡ text.old.items ++ picture_back picas outcome.now) }
{
    push_notes(text, picas, outcome)?;
    text.extend_from_slice(b"</svg>\n")
}

/// Adds the picture of these printers.
#[tactic(auto, unfolding(crate::specs::Svg::picture_svg))]
fn push_picture(
    text: &mut Vec<u8>,
    alloc: Global,
    shapes: &Shapes,
    top: u8,
    outcome: &Outcome,
    drawn: Present,
) -> Result<(), AllocError>
    ensures { OnOk result (text.new.items ≡ text.old.items ++ picture_svg shapes.now top outcome.now drawn) }
{
    let texts = Texts::new(alloc)?;
    let picas = sheets_picas(top, outcome, drawn);
    let above = sheet_room(drawn.four, top, &outcome.paper4);
    push_front(text, alloc, shapes, top, outcome, drawn)?;
    push_sheet_if(text, &texts, drawn.four, top, 4, 0, &outcome.paper4)?;
    push_sheet_if(text, &texts, drawn.five, top, 5, above, &outcome.paper5)?;
    push_back(text, picas, outcome)
}

/// Adds the picture of these printers to a document in blocks, and frees each row that is drawn.
#[tactic(auto, unfolding(crate::specs::Svg::picture_svg))]
fn move_picture(
    blocks: &mut Vec<Vec<u8>>,
    alloc: Global,
    shapes: &Shapes,
    top: u8,
    outcome: Outcome,
    drawn: Present,
) -> Result<(), AllocError>
    ensures { OnOk result (joined blocks.new.items ≡ joined blocks.old.items ++ picture_svg shapes.now top outcome drawn) }
{
    let texts = Texts::new(alloc)?;
    let picas = sheets_picas(top, &outcome, drawn);
    let above = sheet_room(drawn.four, top, &outcome.paper4);
    let mut front = Vec::new(alloc);
    push_front(&mut front, alloc, shapes, top, &outcome, drawn)?;
    let mut back = Vec::new(alloc);
    push_back(&mut back, picas, &outcome)?;
    let Outcome { paper4, paper5, .. } = outcome;
    blocks.push(front)?;
    move_sheet_if(blocks, alloc, &texts, drawn.four, top, 4, 0, paper4)?;
    move_sheet_if(blocks, alloc, &texts, drawn.five, top, 5, above, paper5)?;
    blocks.push(back)?;
    Ok(())
}

/// Draws an outcome as an SVG document: the sheets of the printers that are present and have
/// printed, printer 4's above printer 5's, each with its name above it, and below them the stop and the first statuses
/// that are not 0. If no printer has printed, the sheets of all that are present are drawn. The first row of each is `top`
/// lines of 1/6 inch below the upper edge of its paper, and there is a fold every 11 inches from that edge on.
///
/// Each dot is a disc at its place, and the characters have these shapes; their letters can be
/// searched and copied. Marks that are held are drawn pale, below a line that says so.
///
/// # Errors
///
/// [`NoMemory`] where memory was refused.
pub fn svg(
    alloc: Global,
    shapes: &Shapes,
    top: u8,
    outcome: &Outcome,
    present: Present,
) -> Result<Vec<u8>, NoMemory>
    ensures { IfOk result (λ text. text.items ≡ svg_of shapes.now top outcome.now present) }
{
    let mut text = Vec::new(alloc);
    push_picture(
        &mut text,
        alloc,
        shapes,
        top,
        outcome,
        drawn_of(outcome, present),
    )?;
    Ok(text)
}

/// Draws an outcome as [`svg`] does, and gives the document in blocks: their bytes, one after another. Each row is
/// freed once it is drawn, so the document takes the place of the marks.
///
/// # Errors
///
/// [`NoMemory`] where memory was refused.
pub fn svg_blocks(
    alloc: Global,
    shapes: &Shapes,
    top: u8,
    outcome: Outcome,
    present: Present,
) -> Result<Vec<Vec<u8>>, NoMemory>
    ensures { IfOk result (λ blocks. flat_map (λ b. b.items) blocks.items ≡ svg_of shapes.now top outcome present) }
{
    let drawn = drawn_of(&outcome, present);
    let mut blocks = Vec::new(alloc);
    move_picture(&mut blocks, alloc, shapes, top, outcome, drawn)?;
    Ok(blocks)
}
