//! What shows in the 80 columns of a line.

ghost use Rattle.std.specs.Prelude.{◌≡◌, ◌≤◌, ◌++◌, false, List, encode_utf8, replicate, slice_index_or, IfOk, OnOk};
ghost use Rattle.pr_render.specs.Plain.{Sign, beside, darker, empty_column, ink_of, is_bare, line_text, paint_cell, paint_mark, painted, put, seen_in, shade_of, showing, shown, sign_of, trimmed, turned, written};

use crate::adding::{is_blank, push_blanks};
use crate::characters::character;
use crate::format::Look;
use pr_page::{Mark, Placed};
use std::alloc::AllocError;
use std::marker::Model;

/// The columns of a line: six of the 480 dots each.
const COLUMNS: usize = 80;

/// A character, in the terminal's reverse video or not. Contracts see a `Sign`.
#[derive(Clone, Copy)]
struct Glyph {
    character: char,
    video: bool,
}

impl Model for Glyph {
    ghost use Rattle.pr_render.specs.Plain.{Sign};

    ghost Value = { Sign };

    ghost view = { λ s. record { code_point = s.character; video = s.video } };

    ghost inverse = { λ s. record { character = s.code_point; video = s.video } };
}

/// What is seen in a column: a sign, and over it this many dots. Contracts see a `Column`.
#[derive(Clone, Copy)]
struct Seen {
    sign: Glyph,
    dots: u32,
}

impl Model for Seen {
    ghost use Rattle.pr_render.specs.Plain.{Column};

    ghost Value = { Column };

    ghost view = { λ s. record { sign = s.sign; dots = s.dots } };

    ghost inverse = { λ c. record { sign = c.sign; dots = c.dots } };
}

/// A character that is not in reverse video.
fn sign_of(character: char) -> Glyph
    ensures { result ≡ sign_of character }
{
    Glyph {
        character,
        video: false,
    }
}

/// A sign alone in a column.
fn showing(sign: Glyph) -> Seen
    ensures { result ≡ showing sign }
{
    Seen { sign, dots: 0 }
}

/// A cell's sign: a reversed cell is in reverse video, or else a full block where it is a blank (profile).
fn shown(look: Look, reverse: bool, character: char) -> Glyph
    ensures { result ≡ shown look reverse character }
{
    match look {
        Look::Blocks => {
            if reverse && is_blank(character) {
                sign_of('\u{2588}')
            } else {
                sign_of(character)
            }
        }
        Look::Video => Glyph {
            character,
            video: reverse,
        },
    }
}

/// The sign beside that of a wide cell: no block parts the letters of a word (profile).
fn beside(look: Look, reverse: bool, character: char) -> Glyph
    ensures { result ≡ beside look reverse character }
{
    match look {
        Look::Blocks => shown(look, reverse && is_blank(character), ' '),
        Look::Video => shown(look, reverse, ' '),
    }
}

/// How many dots of a column of dots have ink.
fn ink_of(value: u8) -> u32
    ensures ink { result ≡ ink_of value }
    ensures within { result ≤ 7 }
{
    let dots = value % 2
        + value / 2 % 2
        + value / 4 % 2
        + value / 8 % 2
        + value / 16 % 2
        + value / 32 % 2
        + value / 64 % 2;
    u32::from(dots)
}

/// What is seen in a column with this many more dots, of which 42 fill it.
fn darker(ink: u32, seen: Seen) -> Seen
    requires { ink ≤ 7 }
    ensures { result ≡ darker ink seen }
{
    let dots = if seen.dots < 42 - ink {
        seen.dots + ink
    } else {
        42
    };
    Seen {
        sign: seen.sign,
        dots,
    }
}

/// Puts what is seen into a column, if the line has it.
fn put(columns: &mut [Seen], place: usize, seen: Seen)
    ensures { columns.new ≡ put place seen columns.old }
{
    if place < columns.len() {
        columns[place] = seen;
    }
}

/// What is seen in a column.
fn column_at(columns: &[Seen], place: usize) -> Seen
    ensures { result ≡ slice_index_or columns.now place empty_column }
{
    if place < columns.len() {
        columns[place]
    } else {
        showing(sign_of(' '))
    }
}

/// Lays a cell over what shows; a blank that is not reversed changes nothing (profile).
fn paint_cell(
    columns: &mut [Seen],
    look: Look,
    place: usize,
    character: char,
    reverse: bool,
    wide: bool,
)
    requires { place ≤ 100000 }
    ensures { columns.new ≡ paint_cell look place character reverse wide columns.old }
{
    if !reverse && is_blank(character) {
        return;
    }
    if wide {
        put(
            columns,
            place + 1,
            showing(beside(look, reverse, character)),
        );
    }
    put(columns, place, showing(shown(look, reverse, character)));
}

/// Lays a mark over what shows.
fn paint_mark(columns: &mut [Seen], look: Look, place: usize, mark: Mark)
    requires { place ≤ 100000 }
    ensures { columns.new ≡ paint_mark look place mark columns.old }
{
    match mark {
        Mark::Cell {
            code,
            lower,
            reverse,
            wide,
        } => paint_cell(columns, look, place, character(code, lower), reverse, wide),
        Mark::Dots(value) => {
            let seen = darker(ink_of(value), column_at(columns, place));
            put(columns, place, seen);
        }
    }
}

/// Lays marks over what shows, in their order.
fn paint(columns: &mut [Seen], look: Look, marks: &[Placed])
    ensures { columns.new ≡ painted look columns.old marks.now }
{
    for placed in marks {
        paint_mark(columns, look, usize::from(placed.x / 6), placed.mark);
    }
}

/// The shade of this many dots of the 42, darker by every eleven (profile).
fn shade_of(dots: u32) -> char
    ensures { result ≡ shade_of dots }
{
    if dots < 12 {
        '\u{2591}'
    } else if dots < 23 {
        '\u{2592}'
    } else if dots < 34 {
        '\u{2593}'
    } else {
        '\u{2588}'
    }
}

/// The sign of a column.
fn seen_in(seen: Seen) -> Glyph
    ensures { result ≡ seen_in seen }
{
    if seen.dots == 0 {
        seen.sign
    } else {
        sign_of(shade_of(seen.dots))
    }
}

/// Whether nothing is seen of a sign.
fn is_bare(sign: Glyph) -> bool
    ensures { result ≡ is_bare sign }
{
    !sign.video && sign.character == ' '
}

/// Begins the terminal's reverse video or ends it, where it has to change.
#[tactic(auto, unfolding(crate::specs::Plain::turned))]
fn push_turn(text: &mut Vec<u8>, look: Look, on: bool, wanted: bool) -> Result<(), AllocError>
    ensures { OnOk result (text.new.items ≡ text.old.items ++ turned look on wanted) }
{
    match (look, on, wanted) {
        (Look::Video, false, true) => text.extend_from_slice(b"\x1b[7m"),
        (Look::Video, true, false) => text.extend_from_slice(b"\x1b[27m"),
        _ => Ok(()),
    }
}

/// Adds a character in UTF-8.
fn push_character(text: &mut Vec<u8>, character: char) -> Result<(), AllocError>
    ensures { OnOk result (text.new.items ≡ text.old.items ++ encode_utf8 character) }
{
    let mut buffer = [0u8; 4];
    text.extend_from_slice(character.encode_utf8(&mut buffer).as_bytes())
}

/// Adds blanks, none of which is in reverse video, and gives whether that is on after them.
fn push_blank_signs(
    text: &mut Vec<u8>,
    look: Look,
    on: bool,
    blanks: u64,
) -> Result<bool, AllocError>
    ensures { IfOk result (λ later. (rest : List Sign) → text.new.items ++ written look later rest
        ≡ text.old.items ++ written look on (replicate blanks (sign_of 32) ++ rest)) }
{
    if blanks == 0 {
        return Ok(on);
    }
    push_turn(text, look, on, false)?;
    push_blanks(text, blanks)?;
    Ok(false)
}

/// Adds a sign.
fn push_sign(text: &mut Vec<u8>, look: Look, on: bool, sign: Glyph) -> Result<(), AllocError>
    ensures { OnOk result (text.new.items ≡ text.old.items ++ (turned look on sign.video ++ encode_utf8 sign.code_point)) }
{
    push_turn(text, look, on, sign.video)?;
    push_character(text, sign.character)
}

/// Adds the signs of columns without the blanks at the end.
fn push_columns(text: &mut Vec<u8>, look: Look, columns: &[Seen]) -> Result<(), AllocError>
    ensures { OnOk result (text.new.items ≡ text.old.items ++ written look false (trimmed 0 columns.now)) }
{
    let mut on = false;
    let mut blanks = 0;
    for column in columns {
        let sign = seen_in(*column);
        if is_bare(sign) {
            blanks += 1;
        } else {
            on = push_blank_signs(text, look, on, blanks)?;
            push_sign(text, look, on, sign)?;
            on = sign.video;
            blanks = 0;
        }
    }
    push_turn(text, look, on, false)
}

/// Adds a line of marks (profile).
#[tactic(auto, unfolding(crate::specs::Plain::line_text))]
pub fn push_line(text: &mut Vec<u8>, look: Look, marks: &[Placed]) -> Result<(), AllocError>
    ensures { OnOk result (text.new.items ≡ text.old.items ++ line_text look marks.now) }
{
    let empty = showing(sign_of(' '));
    let mut columns = [empty; COLUMNS];
    paint(&mut columns, look, marks);
    push_columns(text, look, &columns)?;
    text.push(b'\n')?;
    Ok(())
}
