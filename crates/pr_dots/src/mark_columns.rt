//! The columns of dots of a mark.

ghost use Rattle.std.specs.Prelude.{◌≡◌, flat_map};
ghost use Rattle.pr_dots.specs.Shapes.{shape};
ghost use Rattle.pr_dots.specs.Dots.{columns_of, printed_columns};

use crate::character_sets::Shapes;
use crate::codes::place_of_code;
use arrayvec::ArrayVec;
use pr_page::Mark;

/// The most columns of a mark: those of a wide cell.
pub const COLUMNS: usize = 12;

/// The six columns of a code's character in a character set.
#[tactic(auto, unfolding(crate::specs::Shapes::shape))]
fn shape(shapes: &Shapes, code: u8, lower: bool) -> [u8; 6]
    ensures { result ≡ shape shapes.now lower code }
{
    let place = place_of_code(code);
    if lower {
        shapes.lower[place]
    } else {
        shapes.upper[place]
    }
}

/// The columns of a cell.
fn cell_columns(
    shapes: &Shapes,
    code: u8,
    lower: bool,
    reverse: bool,
    wide: bool,
) -> ArrayVec<u8, COLUMNS>
    ensures { result.items ≡ flat_map (printed_columns reverse wide) (shape shapes.now lower code) }
{
    let mut columns = ArrayVec::new();
    for column in &shape(shapes, code, lower) {
        let printed = if reverse {
            127_u8.saturating_sub(*column)
        } else {
            *column
        };
        columns.push(printed);
        if wide {
            columns.push(printed);
        }
    }
    columns
}

/// Returns the columns of a mark, from the left: bit 0 of each is its top dot. A graphic column is
/// its own value; a cell has the six columns of its character in these shapes, each inverted if it is
/// reversed, and twice if it is wide.
pub fn columns(shapes: &Shapes, mark: Mark) -> ArrayVec<u8, COLUMNS>
    ensures { result.items ≡ columns_of shapes.now mark }
{
    match mark {
        Mark::Cell {
            code,
            lower,
            reverse,
            wide,
        } => cell_columns(shapes, code, lower, reverse, wide),
        Mark::Dots(value) => {
            let mut columns = ArrayVec::new();
            columns.push(value);
            columns
        }
    }
}
