//! What is on a sheet, where the first row is `top` lines of 1/6 inch below the paper's upper edge.

ghost use Rattle.std.specs.Prelude.{◌≡◌, ◌<◌, ◌≤◌, ◌∷◌, ◌++◌, [], ◌&&◌, drop, filter, flat_map, length, nat_lt, true, OnOk};
ghost use Rattle.pr_dots.specs.Sheets.{first_sheet, is_on, last_sheet, lowered_row, lowered_rows};
ghost use Rattle.pr_pdf.specs.Sheets.{height_on, row_pdf, sheet_pdf};
ghost use Rattle.pr_pdf.specs.Linked.{IsSkipped, ascend};

use crate::parts::{sheet_begin, sheet_end};
use crate::runs::push_runs;
use pr_dots::{SHEET, first_sheet, is_on, last_sheet, lowered_y};
use pr_page::Row;
use std::alloc::AllocError;

/// Whether no row is above the one before it.
pub fn are_ascending(rows: &[Row]) -> bool
    ensures { result ≡ ascend 0 rows.now }
{
    let mut y = 0;
    for row in rows {
        if row.y < y {
            return false;
        }
        y = row.y;
    }
    true
}

/// Adds a row that is on a sheet.
fn push_row(text: &mut Vec<u8>, top: u8, sheet: u64, row: &Row) -> Result<(), AllocError>
    requires { is_on sheet (lowered_row top row.now) ≡ true }
    ensures { OnOk result (text.new.items ≡ text.old.items ++ row_pdf sheet (lowered_row top row.now)) }
{
    let place = (lowered_y(top, row) % u128::from(SHEET)) as u64;
    let height = if first_sheet(top, row) == sheet {
        20 * (1387 - place)
    } else {
        20 * (2773 - place)
    };
    push_runs(text, height, row.marks.as_slice())
}

/// Adds a row, if it is on a sheet.
fn push_row_if(text: &mut Vec<u8>, top: u8, sheet: u64, row: &Row) -> Result<(), AllocError>
    ensures { OnOk result (text.new.items ≡ text.old.items ++ flat_map (row_pdf sheet) (filter (is_on sheet) (lowered_row top row.now ∷ []))) }
{
    if is_on(top, sheet, row) {
        push_row(text, top, sheet, row)?;
    }
    Ok(())
}

/// Whether a row is after a sheet, and so are those after it.
fn is_past(ascending: bool, top: u8, sheet: u64, row: &Row) -> bool
    ensures { result ≡ (ascending && nat_lt sheet (first_sheet (lowered_row top row.now))) }
{
    ascending && sheet < first_sheet(top, row)
}

/// Adds the rows that are on a sheet. If the rows ascend, those after the sheet are not looked at.
fn push_rows(
    text: &mut Vec<u8>,
    top: u8,
    sheet: u64,
    rows: &[Row],
    ascending: bool,
) -> Result<(), AllocError>
    requires { ascending ≡ true → ascend 0 rows.now ≡ true }
    ensures { OnOk result (text.new.items ≡ text.old.items ++ flat_map (row_pdf sheet) (filter (is_on sheet) (lowered_rows top rows.now))) }
{
    for row in rows {
        if is_past(ascending, top, sheet, row) {
            return Ok(());
        }
        push_row_if(text, top, sheet, row)?;
    }
    Ok(())
}

/// Adds what a sheet draws.
#[tactic(auto, unfolding(crate::specs::Sheets::sheet_pdf))]
pub fn push_sheet(
    text: &mut Vec<u8>,
    top: u8,
    sheet: u64,
    rows: &[Row],
    ascending: bool,
) -> Result<(), AllocError>
    requires { ascending ≡ true → ascend 0 rows.now ≡ true }
    ensures { OnOk result (text.new.items ≡ text.old.items ++ sheet_pdf (lowered_rows top rows.now) sheet) }
{
    text.extend_from_slice(sheet_begin())?;
    push_rows(text, top, sheet, rows, ascending)?;
    text.extend_from_slice(sheet_end())
}

/// The first row, from one on, that does not end before a sheet.
pub fn skip_before(rows: &[Row], top: u8, from: usize, sheet: u64) -> usize
    requires { from ≤ length rows.now }
    ensures within { result ≤ length rows.now }
    ensures before { IsSkipped sheet from (lowered_rows top rows.now) → IsSkipped sheet result (lowered_rows top rows.now) }
{
    let mut count = from;
    while count < rows.len() && last_sheet(top, &rows[count]) < sheet {
        count += 1;
    }
    count
}

/// The rows from one on.
pub fn rows_from(rows: &[Row], from: usize) -> &[Row]
    requires { from ≤ length rows.now }
    ensures { result.now ≡ drop from rows.now }
{
    &rows[from..]
}
