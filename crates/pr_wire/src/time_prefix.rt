//! Lines whose times share all digits but the last three.

ghost use Rattle.std.specs.Prelude.{◌≡◌, ◌+◌, ◌<◌, ◌≤◌, length, Some, IfSome};
ghost use Rattle.pr_wire.specs.TextSteps.{ended_line_in};
ghost use Rattle.pr_wire.specs.Fronts.{IsFront, word_at};

use crate::line::{EdgeLine, read_ended, read_ended_line};
use pr_base::is_digit;

/// The fewest and the most digits of a front: two words of four digits, which may overlap.
const LEAST: usize = 4;

const MOST: usize = 8;

/// The most bytes of a line that begins with a front: three digits, a space, the levels and byte 10
/// come after it.
const MOST_LEN: usize = 16;

/// How many bytes of a line are after a front.
const TAIL_LEN: usize = 8;

/// What the lines have in common whose times share all digits but the last three.
#[derive(Clone, Copy)]
pub struct TimePrefix {
    /// How many digits these are.
    len: usize,
    /// The first four of them.
    first: u32,
    /// The last four of them.
    last: u32,
    /// The time that they and three zeros spell, in microseconds.
    time: u64,
    ghost right: { IsFront len first last time },
}

/// The four bytes from a place on, as one number.
#[inline(always)]
fn word(text: &[u8], at: usize) -> u32
    requires { at + 4 ≤ length text.now }
    ensures { result ≡ word_at text.now at }
{
    u32::from_le_bytes([text[at], text[at + 1], text[at + 2], text[at + 3]])
}

impl TimePrefix {
    /// The front of a line that was read, if it has one.
    fn of(text: &[u8], line: EdgeLine) -> Option<TimePrefix>
        requires { ended_line_in text.now ≡ Some line }
    {
        if line.len < LEAST + TAIL_LEN || line.len > MOST + TAIL_LEN {
            return None;
        }
        let len = line.len - TAIL_LEN;
        if text.len() < len {
            return None;
        }
        Some(TimePrefix {
            len,
            first: word(text, 0),
            last: word(text, len - LEAST),
            time: 1000 * (line.edge.time / 1000),
        })
    }

    /// The edge of the first line, if the line begins with this front and ends with byte 10 alone.
    #[inline(always)]
    fn read(self, text: &[u8]) -> Option<EdgeLine>
        ensures line { IfSome result (λ line. ended_line_in text.now ≡ Some line) }
        ensures some { IfSome result (λ line. 0 < line.len) }
        ensures within { IfSome result (λ line. line.len ≤ length text.now) }
    {
        if text.len() < MOST_LEN {
            return None;
        }
        if word(text, 0) != self.first || word(text, self.len - LEAST) != self.last {
            return None;
        }
        let tail = self.len + 3;
        let (hundreds, tens, ones) = (text[self.len], text[self.len + 1], text[self.len + 2]);
        if !(is_digit(hundreds) & is_digit(tens) & is_digit(ones)) {
            return None;
        }
        let rest = 100 * u64::from(hundreds - b'0')
            + 10 * u64::from(tens - b'0')
            + u64::from(ones - b'0');
        let time = self.time.checked_add(rest)?;
        read_ended(Some(time), tail, &text[tail..])
    }
}

/// The edge of the first line, if the line spells one and ends with byte 10 alone: at once where it
/// begins with the front of an earlier line, which is kept.
#[inline(always)]
pub fn read_next(front: &mut Option<TimePrefix>, text: &[u8]) -> Option<EdgeLine>
    ensures line { result ≡ ended_line_in text.now }
    ensures some { IfSome result (λ line. 0 < line.len) }
    ensures within { IfSome result (λ line. line.len ≤ length text.now) }
{
    if let Some(known) = front {
        let line = known.read(text);
        if line.is_some() {
            return line;
        }
    }
    let line = read_ended_line(text)?;
    *front = TimePrefix::of(text, line);
    Some(line)
}
