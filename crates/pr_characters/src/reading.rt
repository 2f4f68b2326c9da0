//! The lines of a file of characters.

ghost use Rattle.std.specs.Prelude.{◌≡◌, ◌<◌, ◌≤◌, None, length, true, IfErr, IfOk, OnOk};
ghost use Rattle.std.specs.List.{list_all};
ghost use Rattle.pr_characters.specs.File.{AnswersFile, text_lines};
ghost use Rattle.pr_characters.specs.Rows.{IsFirstBad, are_signs, bits_of, dot_in, first_bad, is_sign, may_have, row_of, rows_from};

use crate::fault::CharactersFault;
use crate::names::is_name;
use crate::pictures::shapes_of;
use arrayvec::ArrayVec;
use pr_basic::{cut_line, without_return};
use pr_dots::Shapes;

/// The lines of a file: eight for each of 256 pictures.
const LINES: usize = 2048;

/// Whether a byte is the sign of a dot or of none.
fn is_sign(b: u8) -> bool
    ensures { result ≡ is_sign b }
{
    b == b'#' || b == b'.'
}

/// Whether each byte of a line is such a sign.
fn all_signs(line: &[u8]) -> bool
    ensures { result ≡ list_all is_sign line.now }
{
    line.iter().all(|b| is_sign(*b))
}

/// Whether a line is six signs.
fn are_signs(line: &[u8]) -> bool
    ensures { result ≡ are_signs line.now }
{
    line.len() == 6 && all_signs(line)
}

/// A dot of a line of signs, 1 or 0.
fn dot_in(line: &[u8], x: usize) -> u8
    requires { x < length line.now }
    ensures dot { result ≡ dot_in line.now x }
    ensures within { result ≤ 1 }
{
    if line[x] == b'#' { 1 } else { 0 }
}

/// A line of signs as a number: bit 0 is the first sign.
fn bits_of(line: &[u8]) -> u8
    requires { length line.now ≡ 6 }
    ensures { result ≡ bits_of line.now }
{
    dot_in(line, 0)
        + 2 * dot_in(line, 1)
        + 4 * dot_in(line, 2)
        + 8 * dot_in(line, 3)
        + 16 * dot_in(line, 4)
        + 32 * dot_in(line, 5)
}

/// Whether a line may have this number, from 0.
fn may_have(number: usize, line: &[u8]) -> bool
    requires { number < 2048 }
    ensures { result ≡ may_have number line.now }
{
    if number % 8 == 0 {
        is_name(line, number as u64 / 8)
    } else {
        are_signs(line)
    }
}

/// The number of a line that may have its place.
fn row_of(number: usize, line: &[u8]) -> u8
    requires { may_have number line.now ≡ true }
    ensures { result ≡ row_of number line.now }
{
    if number % 8 == 0 { 0 } else { bits_of(line) }
}

/// The numbers of the lines of a file.
#[tactic(auto, unfolding(pr_base::specs::Lines::lines_of))]
fn read_rows(text: &[u8]) -> Result<ArrayVec<u8, LINES>, CharactersFault>
    ensures whole { OnOk result (first_bad 0 (text_lines text.now) ≡ None) }
    ensures rows { IfOk result (λ rows. rows.items ≡ rows_from 0 (text_lines text.now)) }
    ensures length { IfOk result (λ rows. length rows.items ≡ 2048) }
    ensures fault { IfErr result (IsFirstBad text.now) }
{
    let mut rows = ArrayVec::new();
    let mut rest = text;
    while !rest.is_empty() {
        let (ended, after) = cut_line(rest);
        let line = without_return(ended);
        let number = rows.len();
        if number == LINES || !may_have(number, line) {
            return Err(CharactersFault::BadLine(number + 1));
        }
        rows.push(row_of(number, line));
        rest = after;
    }
    if rows.len() == LINES {
        Ok(rows)
    } else {
        Err(CharactersFault::BadLine(rows.len() + 1))
    }
}

/// Returns the shapes of characters that a file draws: 256 pictures of eight lines, those of the graphic/upper case set and
/// then those of the lower/upper case set; each set has the codes 32 to 95 and 160 to 223. A picture is a line that names
/// it, as `upper 65`, and seven lines of six signs, `#` for a dot and `.` for none. A line ends with a line feed, or with a
/// carriage return and a line feed; the last one may have no end (profile).
///
/// # Errors
///
/// [`CharactersFault::BadLine`] with the first line, from 1, that is not what it has to be, or that is missing.
pub fn read_shapes(text: &[u8]) -> Result<Shapes, CharactersFault>
    ensures { AnswersFile text.now result }
{
    let rows = read_rows(text)?;
    Ok(shapes_of(rows.as_slice()))
}
