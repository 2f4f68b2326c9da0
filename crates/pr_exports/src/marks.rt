//! Marks on the paper as plain numbers, and the paper that has them.

ghost use Rattle.std.specs.Prelude.{◌≡◌, ◌++◌, [], None, IfOk, OnOk};
ghost use Rattle.pr_exports.specs.Marks.{HasMarks, MarksHaveAPaper, MarksHaveOnePaper, MarksHaveTheirPage, first_up, mark_by};
ghost use Rattle.pr_exports.specs.MarkSteps.{placed_by, row_of, rows_after};

use pr_page::{Mark, NoMemory, Paper, Placed, Row, Sequence};
use std::alloc::Global;
use std::mem;

/// A mark on the paper. All numbers mean some mark: a `kind` that is not 1 is a cell, and a flag that is not 1 is 0.
#[repr(C)]
#[derive(Clone, Copy, Debug, Default, PartialEq, Eq)]
pub struct WireMark {
    /// The distance of its row from the top, in 1/126 inch.
    pub y: u64,
    /// The dot column at which it begins.
    pub x: u16,
    /// 0: a cell; 1: a column of dots.
    pub kind: u8,
    /// The code of a cell, or the dots of a column: bit 0 is the top dot, bit 6 the bottom one.
    pub value: u8,
    /// 1: of the lower/upper case set, else of the graphic/upper case set.
    pub lower: u8,
    /// 1: white on black.
    pub reverse: u8,
    /// 1: double width.
    pub wide: u8,
}

/// The mark that numbers mean.
pub fn mark_for(numbers: &WireMark) -> Mark
    ensures { result ≡ mark_by numbers.now }
{
    if numbers.kind == 1 {
        return Mark::Dots(numbers.value);
    }
    Mark::Cell {
        code: numbers.value,
        lower: numbers.lower == 1,
        reverse: numbers.reverse == 1,
        wide: numbers.wide == 1,
    }
}

/// The mark that numbers mean, in its row.
fn placed_for(numbers: &WireMark) -> Placed
    ensures { result ≡ placed_by numbers.now }
{
    Placed {
        x: numbers.x,
        mark: mark_for(numbers),
    }
}

/// The index of the first mark that is above the one before it, from 0.
pub fn first_up(marks: &[WireMark]) -> Option<usize>
    ensures { result ≡ first_up 0 0 marks.now }
{
    let mut y = 0;
    for (index, mark) in marks.iter().enumerate() {
        if mark.y < y {
            return Some(index);
        }
        y = mark.y;
    }
    None
}

/// Adds a row of these marks, if there are any.
fn push_row(rows: &mut Vec<Row>, y: u64, placed: Vec<Placed>) -> Result<(), NoMemory>
    ensures { OnOk result (rows.new.items ≡ rows.old.items ++ row_of y placed.items) }
{
    if placed.is_empty() {
        return Ok(());
    }
    let marks = Sequence::from_vec(placed);
    rows.push(Row { y, marks })?;
    Ok(())
}

/// The rows of marks.
fn rows_of(alloc: Global, marks: &[WireMark]) -> Result<Vec<Row>, NoMemory>
    ensures { IfOk result (λ rows. rows.items ≡ rows_after 0 [] marks.now) }
{
    let mut rows = Vec::new(alloc);
    let mut placed = Vec::new(alloc);
    let mut y = 0;
    for mark in marks {
        if mark.y != y {
            push_row(&mut rows, y, mem::replace(&mut placed, Vec::new(alloc)))?;
            y = mark.y;
        }
        placed.push(placed_for(mark))?;
    }
    push_row(&mut rows, y, placed)?;
    Ok(rows)
}

/// The paper that has marks of which none is above the one before it.
pub fn paper_with(alloc: Global, marks: &[WireMark]) -> Result<Paper, NoMemory>
    requires down { first_up 0 0 marks.now ≡ None }
    ensures { IfOk result (λ paper. HasMarks marks.now paper) }
{
    Ok(Paper {
        rows: Sequence::from_vec(rows_of(alloc, marks)?),
        held: Sequence::new(alloc),
    })
}

/// A law, with nothing to run: marks of the page of inputs are those of the page without its blank rows, and marks of
/// which none is above the one before it have one paper.
pub fn marks_have_their_page()
    ensures page { MarksHaveTheirPage }
    ensures some { MarksHaveAPaper }
    ensures one { MarksHaveOnePaper }
{}
