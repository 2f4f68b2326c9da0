//! The characters of a file as plain numbers, and the columns of dots that draw a mark in them.

ghost use Rattle.std.specs.Prelude.{◌≡◌, ◌<◌, ◌++◌, length, Ok};
ghost use Rattle.pr_exports.specs.Answers.{answer_of};
ghost use Rattle.pr_exports.specs.Characters.{ColumnsDrawTheirMark, TellsShapes, column_at, drawn_by, shapes_by, shapes_numbers};
ghost use Rattle.pr_exports.specs.Giving.{Gives};
ghost use Rattle.pr_exports.specs.Settings.{WithShapes};
ghost use Rattle.pr_exports.specs.declared.answer.TextGiven.{TextGiven};

use crate::answer::{Answer, ended, give, numbered, plain};
use crate::marks::{WireMark, mark_for};
use crate::settings::shapes_for;
use arrayvec::ArrayVec;
use pr_cli::End;
use pr_dots::{COLUMNS, Shapes, columns};
use pr_jobs::ShapesFault;

/// The characters of both sets: of each six columns of dots, in the order of a file of characters. All numbers mean
/// some characters.
#[repr(C)]
#[derive(Clone, Copy)]
pub struct WireShapes {
    /// The graphic/upper case set.
    pub upper: [[u8; 6]; 128],
    /// The lower/upper case set.
    pub lower: [[u8; 6]; 128],
}

/// The shapes that numbers mean.
fn restore(numbers: &WireShapes) -> Shapes
    ensures { result ≡ shapes_by numbers.now }
{
    Shapes {
        upper: numbers.upper,
        lower: numbers.lower,
    }
}

/// The numbers of shapes.
fn store(shapes: &Shapes) -> WireShapes
    ensures { result ≡ shapes_numbers shapes.now }
{
    WireShapes {
        upper: shapes.upper,
        lower: shapes.lower,
    }
}

/// Adds a column of dots, where its place is one of 16 bits.
fn push_column(drawn: &mut ArrayVec<WireMark, COLUMNS>, y: u64, x: u32, column: u8)
    requires room { length drawn.old.items < 12 }
    ensures added { drawn.new.items ≡ drawn.old.items ++ column_at y x column }
{
    if let Ok(x) = u16::try_from(x) {
        drawn.push(WireMark {
            y,
            x,
            kind: 1,
            value: column,
            lower: 0,
            reverse: 0,
            wide: 0,
        });
    }
}

/// The columns of dots that draw a mark in these shapes.
fn drawn_by(shapes: &Shapes, mark: &WireMark) -> ArrayVec<WireMark, COLUMNS>
    ensures { result.items ≡ drawn_by shapes.now mark.now }
{
    let mut drawn = ArrayVec::new();
    let mut x = u32::from(mark.x);
    for column in columns(shapes, mark_for(mark)).as_slice() {
        push_column(&mut drawn, mark.y, x, *column);
        x += 1;
    }
    drawn
}

/// Reads a file of characters: the caller's numbers become those of its characters, or of the project's own where the
/// file is empty. It is refused exactly where the file has a bad line, with its number from 1, and the numbers are then
/// as they were. It takes no memory.
#[unsafe(no_mangle)]
pub extern "C" fn print1525_characters_read(
    characters: &[u8],
    shapes: &mut WireShapes,
    answer: &mut Answer,
)
    ensures tells { WithShapes characters.now (λ asked. TellsShapes asked shapes.old shapes.new answer.new) }
{
    match shapes_for(characters) {
        Ok(asked) => {
            *shapes = store(&asked);
            *answer = plain(0, 0);
        }
        Err(fault) => *answer = ended(End::Characters(ShapesFault::Characters(fault))),
    }
}

/// Puts the columns of dots that draw a mark in these characters at the front of the caller's buffer, as marks: one for
/// a column, six for a character, twelve for a wide one. They are those that `pr_dots` draws; columns whose place has
/// no number of 16 bits are left out. If the buffer is too small it is as it was, and the answer has their number. It
/// takes no memory.
#[unsafe(no_mangle)]
pub extern "C" fn print1525_characters_dots(
    shapes: &WireShapes,
    mark: &WireMark,
    out: &mut [WireMark],
    answer: &mut Answer,
)
    ensures gives { (told : TextGiven) × Gives (Ok tt) (drawn_by (shapes_by shapes.now) mark.now) out.old out.new told
        × (answer.new ≡ answer_of told) }
    ensures length { length out.new ≡ length out.old }
{
    let drawn = drawn_by(&restore(shapes), mark);
    *answer = numbered(give(Ok(()), drawn.as_slice(), out));
}

/// A law, with nothing to run: the columns that draw a mark have its dots.
pub fn columns_draw_their_mark()
    ensures { ColumnsDrawTheirMark }
{}
