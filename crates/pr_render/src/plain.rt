//! Pages as plain text: lines of 80 columns, and sentences. All of the format is this project's own
//! choice (profile).

ghost use Rattle.std.specs.Prelude.{◌≡◌, ◌++◌, OnOk, IfOk};
ghost use Rattle.pr_render.specs.Words.{text_if};
ghost use Rattle.pr_render.specs.Plain.{empty_lines, held_heading, held_text, rows_text, sentence, sheet_text, stop_sentence, text_of};

use crate::adding::{push_numbers, push_small, stop_name};
use crate::columns::push_line;
use crate::format::Look;
use pr_channels::Stop;
use pr_page::{NoMemory, Paper, Placed, Row};
use pr_serial::Present;
use pr_system::Outcome;
use std::alloc::{AllocError, Global};

/// Adds lines without marks.
fn push_empty_lines(text: &mut Vec<u8>, count: u128) -> Result<(), AllocError>
    ensures { OnOk result (text.new.items ≡ text.old.items ++ empty_lines count) }
{
    for _line in 0..count {
        text.push(b'\n')?;
    }
    Ok(())
}

/// Adds the lines of rows, and the empty lines between them.
fn push_rows(text: &mut Vec<u8>, look: Look, rows: &[Row]) -> Result<(), AllocError>
    ensures { OnOk result (text.new.items ≡ text.old.items ++ rows_text look 0 rows.now) }
{
    let mut empty = 0;
    for row in rows {
        let y = u128::from(row.y);
        push_empty_lines(text, y.saturating_sub(empty) / 21)?;
        push_line(text, look, row.marks.as_slice())?;
        empty = y + 21;
    }
    Ok(())
}

/// The line above the marks held.
#[tactic(auto, unfolding(crate::specs::Plain::held_heading))]
fn held_heading() -> &'static [u8]
    ensures { result.now ≡ held_heading }
{
    b"Held, not yet printed:\n"
}

/// Adds the line of the marks held, below one that says so, if there are any.
fn push_held(text: &mut Vec<u8>, look: Look, held: &[Placed]) -> Result<(), AllocError>
    ensures { OnOk result (text.new.items ≡ text.old.items ++ held_text look held.now) }
{
    if held.is_empty() {
        return Ok(());
    }
    text.extend_from_slice(held_heading())?;
    push_line(text, look, held)
}

/// Adds a printer's sheet.
#[tactic(auto, unfolding(crate::specs::Plain::sheet_text))]
fn push_sheet(text: &mut Vec<u8>, look: Look, device: u64, paper: &Paper) -> Result<(), AllocError>
    ensures { OnOk result (text.new.items ≡ text.old.items ++ sheet_text look device paper.now) }
{
    text.extend_from_slice(b"Printer ")?;
    push_small(text, device)?;
    text.push(b'\n')?;
    push_rows(text, look, paper.rows.as_slice())?;
    push_held(text, look, paper.held.as_slice())
}

/// Adds a printer's sheet if the printer is there.
fn push_sheet_if(
    text: &mut Vec<u8>,
    look: Look,
    present: bool,
    device: u64,
    paper: &Paper,
) -> Result<(), AllocError>
    ensures { OnOk result (text.new.items ≡ text.old.items ++ text_if present (sheet_text look device paper.now)) }
{
    if present {
        push_sheet(text, look, device, paper)?;
    }
    Ok(())
}

/// Adds a sentence of numbers, if there are any.
#[tactic(auto, unfolding(crate::specs::Plain::sentence))]
fn push_sentence(text: &mut Vec<u8>, name: &[u8], numbers: &[u8]) -> Result<(), AllocError>
    ensures { OnOk result (text.new.items ≡ text.old.items ++ sentence name.now numbers.now) }
{
    if numbers.is_empty() {
        return Ok(());
    }
    text.extend_from_slice(name)?;
    push_numbers(text, b"\n", numbers)?;
    text.extend_from_slice(b".\n")
}

/// Adds the sentence of a stop, if there is one.
#[tactic(auto, unfolding(crate::specs::Plain::stop_sentence))]
fn push_stop(text: &mut Vec<u8>, stop: Option<(usize, Stop)>) -> Result<(), AllocError>
    ensures { OnOk result (text.new.items ≡ text.old.items ++ stop_sentence stop) }
{
    let Some((place, stop)) = stop else {
        return Ok(());
    };
    text.extend_from_slice(stop_name(stop))?;
    text.extend_from_slice(b" in statement ")?;
    push_small(text, place as u64)?;
    text.extend_from_slice(b".\n")
}

/// Writes the pages of the printers that are present as UTF-8 lines of at most 80 columns: a line
/// for each row and for each line of empty paper, the marks held below a line that says so, and
/// then the statuses, the screen's bytes and the stop as sentences. What is printed in reverse has this look.
///
/// # Errors
///
/// [`NoMemory`] where memory was refused.
#[tactic(auto, unfolding(crate::specs::Plain::text_of))]
pub fn text(
    alloc: Global,
    look: Look,
    outcome: &Outcome,
    present: Present,
) -> Result<Vec<u8>, NoMemory>
    ensures { IfOk result (λ text. text.items ≡ text_of look outcome.now present) }
{
    let mut text = Vec::new(alloc);
    push_sheet_if(&mut text, look, present.four, 4, &outcome.paper4)?;
    push_sheet_if(&mut text, look, present.five, 5, &outcome.paper5)?;
    push_sentence(&mut text, b"Statuses:", outcome.statuses.as_slice())?;
    push_sentence(&mut text, b"Screen:", outcome.screen.as_slice())?;
    push_stop(&mut text, outcome.stop)?;
    Ok(text)
}
