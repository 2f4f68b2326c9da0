//! Which dots a paper has.

ghost use Rattle.std.specs.Prelude.{◌≡◌, ◌<◌, ◌≤◌};
ghost use Rattle.std.specs.List.{list_any};
ghost use Rattle.pr_dots.specs.Dots.{bit_dots, column_dots, columns_dots, columns_of, has_dot, is_at, row_dots};

use crate::character_sets::Shapes;
use crate::mark_columns::columns;
use pr_page::{Paper, Placed, Row};

/// Whether the dot of a column's bit is at (x, y).
fn bit_has_dot(column: u64, top: u128, value: u8, bit: u8, x: u64, y: u128) -> bool
    requires within { top ≤ 18446744073709551615 }
    requires bit { bit < 7 }
    ensures { result ≡ list_any (is_at x y) (bit_dots column top value bit) }
{
    (value >> bit) % 2 == 1 && column == x && top + 2 * u128::from(bit) == y
}

/// Whether a column at `column` with its top at `top` has a dot at (x, y).
fn column_has_dot(column: u64, top: u128, value: u8, x: u64, y: u128) -> bool
    requires { top ≤ 18446744073709551615 }
    ensures { result ≡ list_any (is_at x y) (column_dots column top value) }
{
    bit_has_dot(column, top, value, 0, x, y)
        || bit_has_dot(column, top, value, 1, x, y)
        || bit_has_dot(column, top, value, 2, x, y)
        || bit_has_dot(column, top, value, 3, x, y)
        || bit_has_dot(column, top, value, 4, x, y)
        || bit_has_dot(column, top, value, 5, x, y)
        || bit_has_dot(column, top, value, 6, x, y)
}

/// Whether a mark has a dot at (x, y), on a row at a distance.
fn mark_has_dot(shapes: &Shapes, placed: Placed, top: u128, x: u64, y: u128) -> bool
    requires { top ≤ 18446744073709551615 }
    ensures { result ≡ list_any (is_at x y) (columns_dots placed.x top (columns_of shapes.now placed.mark)) }
{
    let mut column = u64::from(placed.x);
    let mut found = false;
    for value in columns(shapes, placed.mark).as_slice() {
        found = found || column_has_dot(column, top, *value, x, y);
        column += 1;
    }
    found
}

/// Whether a row has a dot at (x, y).
fn row_has_dot(shapes: &Shapes, row: &Row, x: u64, y: u128) -> bool
    ensures { result ≡ list_any (is_at x y) (row_dots shapes.now row.now) }
{
    let top = u128::from(row.y);
    for placed in row.marks.as_slice() {
        if mark_has_dot(shapes, *placed, top, x, y) {
            return true;
        }
    }
    false
}

/// Returns whether a paper, printed in these shapes, has a dot at dot column `x` (1/60 inch from the
/// left) and `y` 1/126 inch from the top. The held marks of an unfinished line have no place yet, and
/// no dots.
#[tactic(auto, unfolding(crate::specs::Dots::has_dot, crate::specs::Dots::dots_of))]
pub fn has_dot(shapes: &Shapes, paper: &Paper, x: u64, y: u128) -> bool
    ensures { result ≡ has_dot shapes.now paper.now x y }
{
    for row in paper.rows.as_slice() {
        if row_has_dot(shapes, row, x, y) {
            return true;
        }
    }
    false
}
