//! A line of a trace text that comes byte by byte.

ghost use Rattle.std.specs.Prelude.{◌≡◌, ◌<◌};
ghost use Rattle.pr_wire.specs.LineParts.{edge_of_part, is_nothing, level_after, part_after, time_after};

use crate::line::read_level;
use crate::{Edge, Levels};
use pr_base::is_digit;

/// What has come of a line. Times are in microseconds.
#[derive(Clone, Copy)]
pub enum LinePart {
    /// Nothing.
    Nothing,
    /// One digit of the time or more.
    Time(u64),
    /// The space too.
    Space(u64),
    /// ATN's level too.
    Atn(u64, bool),
    /// CLOCK's level too.
    Clock { time: u64, atn: bool, clock: bool },
    /// DATA's level too: a whole edge.
    Whole(Edge),
    /// An edge, and a byte 13.
    Returned(Edge),
    /// What no edge's line begins with.
    Bad,
}

/// A time with one digit more, where it is one and the time stays below 2^64.
#[inline(always)]
fn time_after(time: u64, byte: u8) -> LinePart
    ensures { result ≡ time_after time byte }
{
    if !is_digit(byte) {
        return LinePart::Bad;
    }
    let Some(tens) = time.checked_mul(10) else {
        return LinePart::Bad;
    };
    match tens.checked_add(u64::from(byte - b'0')) {
        Some(longer) => LinePart::Time(longer),
        None => LinePart::Bad,
    }
}

impl LinePart {
    /// The part with one byte more, which does not end the line.
    #[inline(always)]
    pub fn after(self, byte: u8) -> LinePart
        ensures { result ≡ part_after self byte }
    {
        match self {
            LinePart::Nothing => time_after(0, byte),
            LinePart::Time(time) => {
                if byte == b' ' {
                    LinePart::Space(time)
                } else {
                    time_after(time, byte)
                }
            }
            LinePart::Whole(edge) => {
                if byte == b'\r' {
                    LinePart::Returned(edge)
                } else {
                    LinePart::Bad
                }
            }
            LinePart::Returned(_) | LinePart::Bad => LinePart::Bad,
            LinePart::Space(_) | LinePart::Atn(_, _) | LinePart::Clock { .. } => {
                match read_level(byte) {
                    Some(level) => self.with_level(level),
                    None => LinePart::Bad,
                }
            }
        }
    }

    /// The part with one level more, where a level may follow.
    #[inline(always)]
    fn with_level(self, level: bool) -> LinePart
        ensures { result ≡ level_after self level }
    {
        match self {
            LinePart::Space(time) => LinePart::Atn(time, level),
            LinePart::Atn(time, atn) => LinePart::Clock {
                time,
                atn,
                clock: level,
            },
            LinePart::Clock { time, atn, clock } => {
                let levels = Levels {
                    atn,
                    clock,
                    line: level,
                };
                LinePart::Whole(Edge { time, levels })
            }
            _ => LinePart::Bad,
        }
    }

    /// The edge that the line spells, if it ends here.
    #[inline(always)]
    pub fn edge(self) -> Option<Edge>
        ensures { result ≡ edge_of_part self }
    {
        match self {
            LinePart::Whole(edge) | LinePart::Returned(edge) => Some(edge),
            _ => None,
        }
    }

    /// Whether nothing of the line has come.
    pub fn is_nothing(self) -> bool
        ensures { result ≡ is_nothing self }
    {
        matches!(self, LinePart::Nothing)
    }
}
