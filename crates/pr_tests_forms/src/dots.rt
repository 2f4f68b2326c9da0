//! The dots of papers, counted by hand.

use pr_dots::{Shapes, columns, has_dot, place_of_code};
use pr_page::{Mark, Paper, Placed, Row, Sequence};
use std::process::Abort;

/// A cell.
fn cell(code: u8, lower: bool, reverse: bool, wide: bool) -> Mark {
    Mark::Cell {
        code,
        lower,
        reverse,
        wide,
    }
}

/// A paper with one row.
fn row_of(rt: &(impl Abort + AllocGlobal), y: u64, marks: &[Placed]) -> Paper {
    let marks = Sequence::from_vec(Vec::from_slice(rt.alloc(), marks).expect(rt, "memory"));
    let mut rows = Vec::new(rt.alloc());
    rows.push(Row { y, marks }).expect(rt, "memory");
    Paper {
        rows: Sequence::from_vec(rows),
        held: Sequence::new(rt.alloc()),
    }
}

/// A mark has these columns.
fn has_columns(rt: &impl Abort, mark: Mark, wanted: &[u8]) {
    assert!(rt; columns(&Shapes::own(), mark).as_slice() == wanted);
}

/// The `T` of both sets, a `t`, a blank and a graphic column; codes that are printed as others.
#[test]
fn columns_of_marks(rt: HostRuntime) {
    has_columns(&rt, cell(84, false, false, false), &[1, 1, 127, 1, 1, 0]);
    has_columns(&rt, cell(212, true, false, false), &[1, 1, 127, 1, 1, 0]);
    has_columns(&rt, cell(84, true, false, false), &[4, 63, 68, 64, 32, 0]);
    has_columns(
        &rt,
        cell(84, false, true, false),
        &[126, 126, 0, 126, 126, 127],
    );
    has_columns(
        &rt,
        cell(84, false, true, true),
        &[126, 126, 126, 126, 0, 0, 126, 126, 126, 126, 127, 127],
    );
    has_columns(&rt, cell(224, false, false, false), &[0; 6]);
    has_columns(&rt, Mark::Dots(85), &[85]);
    assert!(&rt; place_of_code(32) == 0 && place_of_code(97) == place_of_code(193));
    assert!(&rt; place_of_code(255) == place_of_code(222) && place_of_code(223) == 127);
}

/// Whether a paper with this project's own characters has a dot here.
fn is_dot(paper: &Paper, x: u64, y: u128) -> bool {
    has_dot(&Shapes::own(), paper, x, y)
}

/// A `T` at dot column 6 with a graphic column over its last one, 21/126 inch down.
#[test]
fn dots_of_a_row(rt: HostRuntime) {
    let letter = Placed {
        x: 6,
        mark: cell(84, false, false, false),
    };
    const OVER: Placed = Placed {
        x: 11,
        mark: Mark::Dots(64),
    };
    let paper = row_of(&rt, 21, &[letter, OVER]);
    let bar = (6..11_u64).all(|x| is_dot(&paper, x, 21));
    let stem = (0..7_u128).all(|bit| is_dot(&paper, 8, 21 + 2 * bit));
    assert!(&rt; bar && stem && is_dot(&paper, 11, 33));
    assert!(&rt; !is_dot(&paper, 11, 21) && !is_dot(&paper, 5, 21) && !is_dot(&paper, 12, 21));
    assert!(&rt; !is_dot(&paper, 8, 22) && !is_dot(&paper, 8, 35) && !is_dot(&paper, 8, 20));
    assert!(&rt; !is_dot(&paper, 7, 23));
}
