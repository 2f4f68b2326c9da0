//! The carriage: where the next mark goes, and the marks that an input makes.

ghost use Rattle.std.specs.Prelude.{◌≡◌, ◌+◌, ◌^◌, ◌<◌, ◌≤◌, [], ◌∷◌, length, replicate, slice_get, true};
ghost use Rattle.pr_page.specs.Acts.{End, Print};
ghost use Rattle.pr_page.specs.Lines.{line_dots, pitch_of};
ghost use Rattle.pr_page.specs.Marks.{marks_made, marks_from};
ghost use Rattle.pr_page.specs.Steps.{acts_of_work, FitsLine};
ghost use Rattle.pr_page.specs.Striking.{IsInLine, IsWithin, Makes};

use crate::paper::Mark;
use crate::work::{LINE_DOTS, Work};

/// How far the paper goes on at a line's end in character mode, in 1/126 inch.
const CHARACTER_PITCH: u64 = 21;

/// The same in graphic mode.
const GRAPHIC_PITCH: u64 = 14;

/// How far the paper goes on at a line's end.
pub fn pitch(graphic: bool) -> u64
    ensures { result ≡ pitch_of graphic }
{
    if graphic {
        GRAPHIC_PITCH
    } else {
        CHARACTER_PITCH
    }
}

/// A mark, and where it is on the paper.
#[derive(Clone, Copy, Debug, PartialEq, Eq)]
pub struct MarkOnPaper {
    /// The distance of its row from the top, in 1/126 inch.
    pub y: u64,
    /// The dot column (0 to 479 on a page) at which it begins.
    pub x: u16,
    pub mark: Mark,
}

/// The marks that an input makes: equal marks side by side, each one dot column after the one before it, in a line
/// and perhaps in the next one. More than one are columns of dots.
#[derive(Clone, Copy, Debug, PartialEq, Eq)]
pub struct Made {
    /// Each of the marks.
    pub mark: Mark,
    /// The distance of the line from the top, in 1/126 inch.
    pub y: u64,
    /// The dot column of the first mark in the line.
    pub x: u16,
    /// The number of marks in the line.
    pub count: u8,
    /// The distance of the next line from the top, where its marks begin at dot column 0.
    pub next_y: u64,
    /// The number of marks in the next line.
    pub next_count: u8,
}

/// What makes no mark.
const NOTHING: Made = Made {
    mark: Mark::Dots(0),
    y: 0,
    x: 0,
    count: 0,
    next_y: 0,
    next_count: 0,
};

impl Made {
    /// Makes no mark.
    pub(crate) fn nothing() -> Made
        ensures none { marks_made result ≡ [] }
        ensures in_line { IsInLine result }
    {
        NOTHING
    }

    /// Returns the number of marks, at most 255 of one input.
    pub fn len(&self) -> u16
        ensures { result ≡ length (marks_made self.now) }
    {
        u16::from(self.count) + u16::from(self.next_count)
    }

    /// Returns the mark with this index, from 0, in the order in which they are made; none where there are no more.
    pub fn get(&self, index: u16) -> Option<MarkOnPaper>
        requires { IsInLine self.now }
        ensures { result ≡ slice_get (marks_made self.now) index }
    {
        let count = u16::from(self.count);
        if index < count {
            Some(MarkOnPaper {
                y: self.y,
                x: self.x + index,
                mark: self.mark,
            })
        } else if index - count < u16::from(self.next_count) {
            Some(MarkOnPaper {
                y: self.next_y,
                x: index - count,
                mark: self.mark,
            })
        } else {
            None
        }
    }
}

/// Where the next mark goes.
#[derive(Clone, Copy, Debug, PartialEq, Eq)]
pub struct Carriage {
    /// The distance of its line from the top, in 1/126 inch.
    pub y: u64,
    /// The dot column, at most 480.
    pub position: u16,
}

impl Carriage {
    /// Goes to the beginning of the next line.
    fn end_line(&mut self, graphic: bool)
        requires { self.old.y ≤ 2 ^ 63 }
        ensures { self.new ≡ record { y = self.old.y + pitch_of graphic; position = 0 } }
    {
        self.y += pitch(graphic);
        self.position = 0;
    }

    /// Makes a mark at the position, or in the next line if it does not fit.
    #[inline(always)]
    fn print(&mut self, graphic: bool, mark: Mark, width: u16) -> Made
        requires y { self.old.y ≤ 2 ^ 63 }
        requires position { self.old.position ≤ line_dots }
        requires width { width ≤ line_dots }
        ensures made { Makes self.old (Print graphic mark width ∷ []) self.new (marks_made result) }
        ensures within { IsWithin self.old self.new }
        ensures in_line { IsInLine result }
    {
        if self.position + width > LINE_DOTS {
            self.end_line(graphic);
        }
        let Carriage { y, position: x } = *self;
        self.position += width;
        Made {
            mark,
            y,
            x,
            count: 1,
            ..NOTHING
        }
    }

    /// Makes as many equal columns of dots, as a repeat does in graphic mode.
    fn print_columns(&mut self, dots: u8, count: u8) -> Made
        requires y { self.old.y ≤ 2 ^ 63 }
        requires position { self.old.position ≤ line_dots }
        ensures made { Makes self.old (replicate count (Print true (Mark.Dots dots) 1)) self.new (marks_made result) }
        ensures within { IsWithin self.old self.new }
        ensures in_line { IsInLine result }
    {
        let Carriage { y, position: x } = *self;
        let mark = Mark::Dots(dots);
        let room = LINE_DOTS - x;
        if u16::from(count) <= room {
            self.position += u16::from(count);
            return Made {
                mark,
                y,
                x,
                count,
                ..NOTHING
            };
        }
        self.end_line(true);
        let next_count = count - room as u8;
        self.position = u16::from(next_count);
        Made {
            mark,
            y,
            x,
            count: room as u8,
            next_y: self.y,
            next_count,
        }
    }

    /// Does what a byte has it do, and returns the marks that this makes.
    #[inline(always)]
    pub fn perform(&mut self, graphic: bool, work: Work) -> Made
        requires y { self.old.y ≤ 2 ^ 63 }
        requires position { self.old.position ≤ line_dots }
        requires fits { FitsLine work }
        ensures made { Makes self.old (acts_of_work graphic work) self.new (marks_made result) }
        ensures within { IsWithin self.old self.new }
        ensures in_line { IsInLine result }
    {
        match work {
            Work::Nothing => NOTHING,
            Work::EndLine => {
                self.end_line(graphic);
                NOTHING
            }
            Work::Print(mark, width) => self.print(graphic, mark, width),
            Work::PrintColumns(dots, count) => self.print_columns(dots, count),
            Work::MoveTo(x) => {
                self.position = x;
                NOTHING
            }
        }
    }
}
