//! The first lines of a text, up to those of a frame.

ghost use Rattle.std.specs.Prelude.{◌≡◌, ◌+◌, ◌≤◌, List, ℕ, true, length};
ghost use Rattle.pr_wire.specs.FirstLines.{AreFirstLines};
ghost use Rattle.pr_wire.specs.AheadSteps.{answered_edges};

use crate::ahead::ANSWERED_EDGES;
use crate::time_prefix::{TimePrefix, read_next};
use crate::{Edge, Levels};

/// The edges of the first lines of a text, this many, at most those of a frame; and how long these
/// lines are with their ends, in bytes.
#[derive(Drop)]
pub struct FirstLines {
    pub edges: [Edge; ANSWERED_EDGES],
    pub count: usize,
    pub len: usize,
    /// What the last lines begin with, but for the last three digits of their times.
    front: Option<TimePrefix>,
}

impl FirstLines {
    /// No line yet.
    #[inline(always)]
    pub fn new() -> FirstLines
        ensures none { (result.count ≡ 0) × (result.len ≡ 0) }
        ensures lines { (text : List ℕ) → AreFirstLines text result }
    {
        let levels = Levels {
            atn: false,
            clock: false,
            line: false,
        };
        FirstLines {
            edges: [Edge { time: 0, levels }; ANSWERED_EDGES],
            count: 0,
            len: 0,
            front: None,
        }
    }

    /// Reads on until there are `count` lines, and returns whether there are: each spells an edge and
    /// ends with byte 10 alone.
    pub fn read_to(&mut self, text: &[u8], count: usize) -> bool
        // the caller's part
        requires few { count ≤ answered_edges }
        requires more { self.old.count ≤ count }
        requires within { self.old.len ≤ length text.now }
        requires bytes { self.old.count ≤ self.old.len }
        // what it gives
        ensures lines { AreFirstLines text.now self.old → AreFirstLines text.now self.new }
        ensures few { self.new.count ≤ count }
        ensures count { result ≡ true → self.new.count ≡ count }
        ensures within { self.new.len ≤ length text.now }
        ensures bytes { self.new.count ≤ self.new.len }
    {
        while self.count < count {
            let Some(line) = read_next(&mut self.front, &text[self.len..]) else {
                return false;
            };
            self.edges[self.count] = line.edge;
            self.count += 1;
            self.len += line.len;
        }
        true
    }
}
