//! The sheets of a paper, whose first row is some lines below its upper edge.

ghost use Rattle.std.specs.Prelude.{◌≡◌, ◌+◌, ◌*◌, ◌<◌, ◌≤◌};
ghost use Rattle.pr_dots.specs.Sheets.{first_sheet, is_on, last_sheet, line_count, lines_of, lowered, lowered_row, lowered_rows, sheet_count, sheets_of};

use pr_page::{Paper, Row};

/// The length of a sheet: 11 inches, in 1/126 inch.
pub const SHEET: u64 = 1386;

/// How far below the upper edge of the paper a row is, in 1/126 inch.
pub fn lowered_y(top: u8, row: &Row) -> u128
    ensures place { result ≡ row.now.y + 21 * top }
    ensures within { result ≤ 18446744073709556970 }
{
    u128::from(row.y) + 21 * u128::from(top)
}

/// The sheet on which a row begins.
pub fn first_sheet(top: u8, row: &Row) -> u64
    ensures sheet { result ≡ first_sheet (lowered_row top row.now) }
    ensures within { result < 18014398509481984 }
{
    (lowered_y(top, row) / u128::from(SHEET)) as u64
}

/// The sheet on which a row ends: its dots reach 14/126 inch down.
pub fn last_sheet(top: u8, row: &Row) -> u64
    ensures sheet { result ≡ last_sheet (lowered_row top row.now) }
    ensures within { result < 18014398509481984 }
{
    let lowest = lowered_y(top, row) + 13;
    (lowest / u128::from(SHEET)) as u64
}

/// Whether a row is on a sheet, from 0: its dots reach 14/126 inch down, and one that straddles a fold is on both sheets. The
/// first row is `top` lines of 1/6 inch below the upper edge of the first sheet.
pub fn is_on(top: u8, sheet: u64, row: &Row) -> bool
    ensures { result ≡ is_on sheet (lowered_row top row.now) }
{
    first_sheet(top, row) == sheet || last_sheet(top, row) == sheet
}

/// How many sheets rows take.
pub fn sheet_count(top: u8, rows: &[Row]) -> u64
    ensures count { result ≡ sheet_count (lowered_rows top rows.now) }
    ensures within { result ≤ 18014398509481984 }
{
    let mut count = 0;
    for row in rows {
        let needed = last_sheet(top, row) + 1;
        if count < needed {
            count = needed;
        }
    }
    count
}

/// How many sheets of 11 inches a paper has, at least one, where its first row is `top` lines of 1/6 inch below the upper
/// edge of the first. Marks that are held have no place yet.
pub fn sheets_of(top: u8, paper: &Paper) -> u64
    ensures { result ≡ sheets_of (lowered top paper.now) }
{
    let count = sheet_count(top, paper.rows.as_slice());
    if count == 0 { 1 } else { count }
}

/// How many whole lines of 1/6 inch rows take, from the upper edge of the paper to 1/6 inch below the top of the lowest row.
fn line_count(top: u8, rows: &[Row]) -> u64
    ensures count { result ≡ line_count (lowered_rows top rows.now) }
    ensures within { result ≤ 878416384462359857 }
{
    let mut count = 0;
    for row in rows {
        let needed = ((lowered_y(top, row) + 41) / 21) as u64;
        if count < needed {
            count = needed;
        }
    }
    count
}

/// How many whole lines of 1/6 inch a paper has, at least one, from its upper edge to 1/6 inch below the top of the lowest
/// row. The first row is `top` such lines below the edge. Marks that are held have no place yet.
pub fn lines_of(top: u8, paper: &Paper) -> u64
    ensures lines { result ≡ lines_of (lowered top paper.now) }
    ensures least { 1 ≤ result }
    ensures within { result ≤ 878416384462359857 }
{
    let count = line_count(top, paper.rows.as_slice());
    if count == 0 { 1 } else { count }
}
