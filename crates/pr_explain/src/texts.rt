//! Pieces of the texts.

use pr_capture::{InputFormat, TraceInput};
use pr_wire::{Edge, Levels};
use std::fmt;

/// The most bytes of a line that are shown (profile).
const SHOWN: usize = 100;

/// Bytes: each as it is where it is a visible one of ASCII's, or else as `\x` and two digits.
#[derive(Clone, Copy)]
pub struct Escaped<'a>(pub &'a [u8]);

impl fmt::Display for Escaped<'_> {
    fn fmt<W: fmt::Write>(&self, f: &mut fmt::Formatter<W>) -> fmt::Result {
        for byte in self.0 {
            if *byte >= 32 && *byte < 127 {
                write!(f, "{}", char::from(*byte))?;
            } else {
                write!(f, "\\x{:02X}", *byte)?;
            }
        }
        Ok(())
    }
}

/// The bytes of a line, escaped, with `..` after the first [`SHOWN`] where there are more.
#[derive(Clone, Copy)]
pub struct Cut<'a>(pub &'a [u8]);

impl fmt::Display for Cut<'_> {
    fn fmt<W: fmt::Write>(&self, f: &mut fmt::Formatter<W>) -> fmt::Result {
        let shown = front(self.0);
        let dots = if shown.len() < self.0.len() { ".." } else { "" };
        write!(f, "{}{dots}", Escaped(shown))
    }
}

/// The first [`SHOWN`] bytes of a line, or all where they are fewer.
fn front(line: &[u8]) -> &[u8] {
    if line.len() < SHOWN {
        line
    } else {
        &line[..SHOWN]
    }
}

/// From which microsecond of its recording an input's times count; 0 for a trace text.
pub fn start_of(input: TraceInput<'_>) -> u64 {
    match input.source {
        InputFormat::Text => 0,
        InputFormat::Vcd | InputFormat::Csv => input.start,
    }
}

/// From which microsecond of its recording the times of a trace count, which begins with the first of these edges; 0
/// for a trace text.
pub fn trace_start(input: TraceInput<'_>, edges: &[Edge]) -> u64 {
    let start = start_of(input);
    match (input.source, edges) {
        (InputFormat::Vcd | InputFormat::Csv, [first, ..]) => start.saturating_add(first.time),
        _ => start,
    }
}

/// In brackets the recording's own time, where its times count from a later microsecond than 0.
#[derive(Clone, Copy)]
struct Recorded {
    time: u64,
    start: u64,
}

impl fmt::Display for Recorded {
    fn fmt<W: fmt::Write>(&self, f: &mut fmt::Formatter<W>) -> fmt::Result {
        match self.start.checked_add(self.time) {
            Some(recorded) if self.start > 0 => write!(f, " [{recorded}]"),
            _ => Ok(()),
        }
    }
}

/// A time, and the recording's own after it where that is another.
#[derive(Clone, Copy)]
pub struct Moment {
    /// The time, in microseconds.
    pub time: u64,
    /// From which microsecond of the recording it counts.
    pub start: u64,
}

impl fmt::Display for Moment {
    fn fmt<W: fmt::Write>(&self, f: &mut fmt::Formatter<W>) -> fmt::Result {
        let (time, start) = (self.time, self.start);
        write!(f, "{time}{}", Recorded { time, start })
    }
}

/// Levels as a trace text has them: 1 is released.
#[derive(Clone, Copy)]
pub struct Digits(pub Levels);

impl fmt::Display for Digits {
    fn fmt<W: fmt::Write>(&self, f: &mut fmt::Formatter<W>) -> fmt::Result {
        let (atn, clock, line) = (self.0.atn, self.0.clock, self.0.line);
        write!(f, "{}{}{}", u8::from(atn), u8::from(clock), u8::from(line))
    }
}

/// An edge as a trace text has it, and the recording's own time after it where that is another.
#[derive(Clone, Copy)]
pub struct Shown {
    pub edge: Edge,
    /// From which microsecond of the recording its time counts.
    pub start: u64,
}

impl fmt::Display for Shown {
    fn fmt<W: fmt::Write>(&self, f: &mut fmt::Formatter<W>) -> fmt::Result {
        let (time, start) = (self.edge.time, self.start);
        write!(
            f,
            "{time} {}{}",
            Digits(self.edge.levels),
            Recorded { time, start }
        )
    }
}

/// A line without its end: byte 10, and byte 13 directly before it or before the text's end.
pub fn without_end(line: &[u8]) -> &[u8] {
    let line = match line {
        [front @ .., b'\n'] => front,
        whole => whole,
    };
    match line {
        [front @ .., b'\r'] => front,
        whole => whole,
    }
}

/// The line with this number, from 1, with its end.
pub fn line_with(text: &[u8], number: usize) -> &[u8] {
    let mut rest = text;
    for _ in 1..number {
        let (_, more) = cut_line(rest);
        rest = more;
    }
    let (line, _) = cut_line(rest);
    line
}

/// The first line with its end, and what follows it.
fn cut_line(text: &[u8]) -> (&[u8], &[u8]) {
    for (i, byte) in text.iter().enumerate() {
        if *byte == b'\n' {
            return (&text[..i + 1], &text[i + 1..]);
        }
    }
    (text, &[])
}

/// Whether a byte is white space.
pub fn is_space(byte: u8) -> bool {
    byte == b' ' || (byte >= 9 && byte <= 13)
}

/// Whether a byte is around a field and does not belong to it.
fn is_frame(byte: u8) -> bool {
    is_space(byte) || byte == b'"'
}

/// A field without the white space and the quotation marks around it.
pub fn unframed(field: &[u8]) -> &[u8] {
    let mut start = field.len();
    let mut end = field.len();
    for (i, byte) in field.iter().enumerate() {
        if !is_frame(*byte) {
            start = start.min(i);
            end = i + 1;
        }
    }
    let end = end.min(field.len());
    &field[start.min(end)..end]
}
