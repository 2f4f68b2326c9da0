//! The paper, and where the next mark goes.

ghost use Rattle.std.specs.Prelude.{◌≡◌, ◌+◌, ◌-◌, ◌^◌, ◌<◌, ◌≤◌, [], ◌++◌, OnOk, OnErr, replicate, true};
ghost use Rattle.pr_page.specs.Acts.{Print};
ghost use Rattle.pr_page.specs.Steps.{acts_of_work, ended, printed, columns_from, sheet_after_all, FitsLine, GoesOn};
ghost use Rattle.pr_page.specs.Lines.{line_dots};

use crate::carriage::pitch;
use crate::paper::{Mark, Paper, Placed, Row, Sequence};
use crate::work::{LINE_DOTS, Work};
use std::alloc::{AllocError, Global};
use std::mem;

/// The paper, and where the next row and the next mark go.
#[derive(Drop)]
pub struct Sheet {
    /// The next row's distance from the top, in 1/126 inch.
    pub y: u64,
    /// The dot column at which the next mark begins.
    pub position: u16,
    pub paper: Paper,
}

/// Adds `count` equal columns of dots from `x` on. Refused, it leaves the marks as they were.
fn push_columns(
    marks: &mut Sequence<Placed>,
    x: u16,
    dots: u8,
    count: u16,
) -> Result<(), AllocError>
    requires { x + count ≤ line_dots }
    ensures ok { OnOk result (marks.new ≡ marks.old ++ columns_from x dots count) }
    ensures err { OnErr result (marks.new ≡ marks.old) }
{
    let before = marks.len();
    for i in 0..count {
        let placed = Placed {
            x: x + i,
            mark: Mark::Dots(dots),
        };
        if marks.push(placed).is_err() {
            marks.truncate(before);
            return Err(AllocError);
        }
    }
    Ok(())
}

impl Sheet {
    /// Ends the line. The row gets a copy of its marks, so that the room of `held` serves the next
    /// line and a row keeps no room that it does not need: memory grows with the marks alone, and a
    /// full line is filled without a growth.
    #[inline(never)]
    fn end_line(&mut self, alloc: Global, graphic: bool) -> Result<(), AllocError>
        requires { self.old.y < 2 ^ 60 }
        ensures ok { OnOk result (self.new ≡ ended self.old graphic [] 0) }
        ensures err { OnErr result (self.new ≡ self.old) }
    {
        let y = self.y;
        let marks = self.paper.held.copy(alloc)?;
        self.paper.rows.push(Row { y, marks })?;
        self.paper.held.clear();
        self.y = y + pitch(graphic);
        self.position = 0;
        Ok(())
    }

    /// Ends the line. The next one has these marks already, and has come to `position`.
    #[inline(never)]
    fn end_line_with(
        &mut self,
        graphic: bool,
        next: Sequence<Placed>,
        position: u16,
    ) -> Result<(), AllocError>
        requires { self.old.y < 2 ^ 60 }
        ensures ok { OnOk result (self.new ≡ ended self.old graphic next position) }
        ensures err { OnErr result (self.new ≡ self.old) }
    {
        let y = self.y;
        let marks = mem::replace(&mut self.paper.held, next);
        match self.paper.rows.push(Row { y, marks }) {
            Ok(()) => {
                self.y = y + pitch(graphic);
                self.position = position;
                Ok(())
            }
            Err(failed) => {
                self.paper.held = failed.value.marks;
                Err(AllocError)
            }
        }
    }

    /// Makes a mark at the position, or in the next line if it does not fit. The next line gets
    /// room for as many marks as this one has.
    #[inline(always)]
    fn print(
        &mut self,
        alloc: Global,
        graphic: bool,
        mark: Mark,
        width: u16,
    ) -> Result<(), AllocError>
        // the caller's part
        requires y { self.old.y < 2 ^ 60 }
        requires position { self.old.position ≤ line_dots }
        requires width { width ≤ line_dots }
        // what it does
        ensures ok { OnOk result (self.new ≡ printed self.old graphic mark width) }
        ensures range { OnOk result (GoesOn self.old self.new) }
        // what a refusal leaves
        ensures err { OnErr result (self.new ≡ self.old) }
    {
        let position = self.position;
        if position + width <= LINE_DOTS {
            self.paper.held.push(Placed { x: position, mark })?;
            self.position = position + width;
            Ok(())
        } else {
            let mut next = Sequence::with_capacity(alloc, self.paper.held.len())?;
            next.push(Placed { x: 0, mark })?;
            self.end_line_with(graphic, next, width)
        }
    }

    /// Makes as many equal columns of dots, as a repeat does in graphic mode.
    #[inline(never)]
    fn print_columns(&mut self, alloc: Global, dots: u8, count: u8) -> Result<(), AllocError>
        requires y { self.old.y < 2 ^ 60 }
        requires position { self.old.position ≤ line_dots }
        ensures ok { OnOk result (self.new ≡ sheet_after_all self.old (replicate count (Print true (Mark.Dots dots) 1))) }
        ensures range { OnOk result (GoesOn self.old self.new) }
        ensures err { OnErr result (self.new ≡ self.old) }
    {
        let position = self.position;
        let count = u16::from(count);
        let room = LINE_DOTS - position;
        if count <= room {
            push_columns(&mut self.paper.held, position, dots, count)?;
            self.position = position + count;
            return Ok(());
        }
        let mut next = Sequence::new(alloc);
        push_columns(&mut next, 0, dots, count - room)?;
        let before = self.paper.held.len();
        push_columns(&mut self.paper.held, position, dots, room)?;
        match self.end_line_with(true, next, count - room) {
            Ok(()) => Ok(()),
            Err(refused) => {
                self.paper.held.truncate(before);
                Err(refused)
            }
        }
    }

    /// Does what a byte has it do. A repeat asks for at most 255 columns.
    #[inline(always)]
    pub fn perform(&mut self, alloc: Global, graphic: bool, work: Work) -> Result<(), AllocError>
        requires y { self.old.y < 2 ^ 60 }
        requires position { self.old.position ≤ line_dots }
        requires fits { FitsLine work }
        ensures ok { OnOk result (self.new ≡ sheet_after_all self.old (acts_of_work graphic work)) }
        ensures range { OnOk result (GoesOn self.old self.new) }
        ensures err { OnErr result (self.new ≡ self.old) }
    {
        match work {
            Work::Nothing => Ok(()),
            Work::EndLine => self.end_line(alloc, graphic),
            Work::Print(mark, width) => self.print(alloc, graphic, mark, width),
            Work::PrintColumns(dots, count) => self.print_columns(alloc, dots, count),
            Work::MoveTo(x) => {
                self.position = x;
                Ok(())
            }
        }
    }
}
