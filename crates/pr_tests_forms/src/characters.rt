//! A character of another shape than this project's own. What files of characters give is in
//! tests/rows/characters_of_a_file.case.

use crate::picture::cell;
use pr_dots::{Shapes, columns};
use std::process::Abort;

/// A character that is not this project's: a bar on the left, and a dot at the top on the right.
const BAR: [u8; 6] = [127, 0, 0, 0, 0, 1];

/// This project's own shapes, but for the `A` of the graphic/upper case set.
fn with_bar() -> Shapes {
    let mut shapes = Shapes::own();
    shapes.upper[33] = BAR;
    shapes
}

/// The character is drawn in place of this project's own, and no other one is.
#[test]
fn columns_of_a_changed_character(rt: HostRuntime) {
    let shapes = with_bar();
    let own = Shapes::own();
    let letter = cell(0, 65, false).mark;
    assert!(&rt; columns(&shapes, letter).as_slice() == BAR.as_slice());
    for other in [cell(0, 65, true).mark, cell(0, 66, false).mark] {
        assert!(&rt; columns(&shapes, other).as_slice() == columns(&own, other).as_slice());
    }
}
