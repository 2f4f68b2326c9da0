//! A stretch of edges in which CLOCK stays as it is and ATN is not pulled, as far as it came.

ghost use Rattle.std.specs.Prelude.{◌≡◌, not};
ghost use Rattle.pr_decode.specs.Readings.{is_late};
ghost use Rattle.pr_decode.specs.ClockPhases.{calls, goes_on};
ghost use Rattle.pr_decode.specs.Steps.{acknowledged_in, began, opening_in, turned, with_edge};

use crate::reading::{Opening, Pulse};
use pr_wire::Edge;

/// For how many microseconds CLOCK may be released in a bit (profile).
const LONGEST_BIT: u64 = 1000;

/// The edges at which DATA has turned in a stretch, the first four at most. Where CLOCK is released the first
/// of them pulls DATA, where CLOCK is pulled it releases DATA.
#[derive(Clone, Copy, Debug, PartialEq, Eq)]
pub enum DataTransitions {
    Still,
    Once(Edge),
    Twice(Edge, Edge),
    Thrice(Edge, Edge, Edge),
    Often(Edge, Edge, Edge, Edge),
}

impl DataTransitions {
    /// The next edge comes, where DATA's first turn is to this level.
    #[inline(always)]
    fn push(&mut self, level: bool, edge: Edge)
        ensures { self.new ≡ turned level self.old edge }
    {
        let is_level = edge.levels.line == level;
        match *self {
            DataTransitions::Still if is_level => *self = DataTransitions::Once(edge),
            DataTransitions::Once(a) if !is_level => *self = DataTransitions::Twice(a, edge),
            DataTransitions::Twice(a, b) if is_level => *self = DataTransitions::Thrice(a, b, edge),
            DataTransitions::Thrice(a, b, c) if !is_level => *self = DataTransitions::Often(
                a, b, c, edge,
            ),
            _ => {}
        }
    }
}

/// A stretch as far as it came: edges over which CLOCK stays as it is.
#[derive(Clone, Copy, Debug, PartialEq, Eq)]
pub struct ClockPhase {
    /// Whether its first edge pulls ATN.
    pub attention: bool,
    /// Its first edge.
    pub first: Edge,
    /// The edge taken last.
    pub last: Edge,
    pub turns: DataTransitions,
}

/// Whether an edge pulls ATN after the edge before it.
pub(crate) fn calls(last: Edge, edge: Edge) -> bool
    ensures { result ≡ calls last edge }
{
    last.levels.atn && !edge.levels.atn
}

/// Whether an edge comes too late for a bit, since CLOCK was released.
pub(crate) fn is_late(since: u64, edge: Edge) -> bool
    ensures { result ≡ is_late since edge }
{
    edge.time.saturating_sub(since) > LONGEST_BIT
}

impl ClockPhase {
    /// A stretch that begins with this edge, which pulls ATN or does not.
    pub(crate) fn begun(attention: bool, edge: Edge) -> ClockPhase
        ensures { result ≡ began attention edge }
    {
        let mut turns = DataTransitions::Still;
        turns.push(!edge.levels.clock, edge);
        ClockPhase {
            attention,
            first: edge,
            last: edge,
            turns,
        }
    }

    /// The stretch is over, and one begins with this edge.
    #[inline(always)]
    pub(crate) fn begin(&mut self, attention: bool, edge: Edge)
        ensures { self.new ≡ began attention edge }
    {
        self.attention = attention;
        self.first = edge;
        self.last = edge;
        self.turns = DataTransitions::Still;
        self.turns.push(!edge.levels.clock, edge);
    }

    /// One edge more comes.
    #[inline(always)]
    pub(crate) fn push(&mut self, edge: Edge)
        ensures { self.new ≡ with_edge self.old edge }
    {
        self.turns.push(!self.first.levels.clock, edge);
        self.last = edge;
    }

    /// Whether an edge goes on with the stretch.
    #[inline(always)]
    pub(crate) fn goes_on(&self, edge: Edge) -> bool
        ensures { result ≡ goes_on self.now.first self.now.last edge }
    {
        edge.levels.clock == self.first.levels.clock && !calls(self.last, edge)
    }

    /// The moments of an opening, where the stretch is one.
    pub(crate) fn opening(&self) -> Option<Opening>
        ensures { result ≡ opening_in self.now }
    {
        if self.attention || !self.first.levels.clock {
            return None;
        }
        let (look, ready, pulse) = match self.turns {
            DataTransitions::Still | DataTransitions::Once(_) => return None,
            DataTransitions::Twice(a, b) | DataTransitions::Thrice(a, b, _) => (a, b, None),
            DataTransitions::Often(a, b, c, d) => (
                a,
                b,
                Some(Pulse {
                    pulled: c.time,
                    released: d.time,
                }),
            ),
        };
        Some(Opening {
            command: !ready.levels.atn,
            ready_to_send: look.time,
            ready_for_data: ready.time,
            pulse,
        })
    }

    /// The moment of the acknowledgement, where there is one in the stretch with one edge more.
    pub(crate) fn acknowledgement_with(&self, edge: Edge) -> Option<u64>
        ensures { result ≡ acknowledged_in (turned (not self.now.first.levels.clock) self.now.turns edge) }
    {
        let mut turns = self.turns;
        turns.push(!self.first.levels.clock, edge);
        match turns {
            DataTransitions::Still | DataTransitions::Once(_) => None,
            DataTransitions::Twice(_, b)
            | DataTransitions::Thrice(_, b, _)
            | DataTransitions::Often(_, b, _, _) => Some(b.time),
        }
    }
}
