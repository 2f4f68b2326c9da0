//! Brief pulses of a recording's lines, as cross-talk makes them.

ghost use Rattle.std.specs.Prelude.{◌≡◌, ◌++◌, ◌∷◌, [], List};
ghost use Rattle.pr_wire.specs.declared.Edge.{Edge};
ghost use Rattle.pr_report.specs.BriefPulses.{brief_at, brief_count, is_data_pulse, is_look, pulses_at, turns_back};
ghost use Rattle.pr_report.specs.Steps.{brief_with, turn_with};
ghost use Rattle.pr_report.specs.Taking.{HasPulses};

use pr_wire::{Edge, Levels};

/// The longest pulse that is brief, in microseconds: a recording's times are cut to whole ones, so this may be one of some
/// nanoseconds.
const LONGEST: u64 = 1;

/// An edge, and the levels before it.
#[derive(Clone, Copy)]
pub struct Turn {
    /// The levels before the edge; the edge's own where it is the first.
    pub before: Levels,
    /// The edge.
    pub edge: Edge,
}

/// Counts the brief pulses of a recording, edge by edge.
#[derive(Clone, Copy)]
pub struct PulseCount {
    /// The last edge so far.
    last: Option<Turn>,
    /// How many brief pulses have ended.
    count: u64,
}

/// Whether a line's level turns, and turns back.
fn turns_back(before: bool, at: bool, after: bool) -> bool
    ensures { result ≡ turns_back before at after }
{
    at != before && after == before
}

/// Whether CLOCK is released while ATN is pulled.
fn is_look(before: Levels, at: Levels) -> bool
    ensures { result ≡ is_look before at }
{
    !at.atn && !before.clock && at.clock
}

/// Whether DATA is pulled, but at no look, and released.
fn is_data_pulse(before: Levels, at: Levels, after: Levels) -> bool
    ensures { result ≡ is_data_pulse before at after }
{
    before.line && turns_back(before.line, at.line, after.line) && !is_look(before, at)
}

/// How many lines have a pulse from the second of three edges to the third, by their levels.
fn pulses_at(before: Levels, at: Levels, after: Levels) -> u64
    ensures { result ≡ pulses_at before at after }
{
    let atn = u64::from(turns_back(before.atn, at.atn, after.atn));
    let clock = u64::from(turns_back(before.clock, at.clock, after.clock));
    let line = u64::from(is_data_pulse(before, at, after));
    atn + (clock + line)
}

/// How many of them have a brief one, which the next edge ends.
fn brief_at(last: Turn, next: Edge) -> u64
    ensures { result ≡ brief_at last.before last.edge next }
{
    if next.time.saturating_sub(last.edge.time) <= LONGEST {
        pulses_at(last.before, last.edge.levels, next.levels)
    } else {
        0
    }
}

/// How many brief pulses the next edge ends, after the last one, if there is one.
fn brief_with(last: Option<Turn>, next: Edge) -> u64
    ensures { result ≡ brief_with last next }
{
    match last {
        None => 0,
        Some(last) => brief_at(last, next),
    }
}

/// The next edge, with the levels before it.
fn turn_with(last: Option<Turn>, next: Edge) -> Turn
    ensures { result ≡ turn_with last next }
{
    match last {
        None => Turn {
            before: next.levels,
            edge: next,
        },
        Some(last) => Turn {
            before: last.edge.levels,
            edge: next,
        },
    }
}

impl PulseCount {
    /// No edge was looked at.
    pub fn new() -> PulseCount
        ensures { HasPulses [] result }
    {
        PulseCount {
            last: None,
            count: 0,
        }
    }

    /// Looks at the next edge.
    #[inline(always)]
    pub fn take(&mut self, edge: Edge)
        ensures { (edges : List Edge) → HasPulses edges self.old → HasPulses (edges ++ edge ∷ []) self.new }
    {
        self.count = self.count.saturating_add(brief_with(self.last, edge));
        self.last = Some(turn_with(self.last, edge));
    }

    /// Looks at the next edges, in order.
    pub fn take_all(&mut self, edges: &[Edge])
        ensures { (before : List Edge) → HasPulses before self.old → HasPulses (before ++ edges.now) self.new }
    {
        for edge in edges {
            self.take(*edge);
        }
    }

    /// How many brief pulses the edges have.
    pub fn count(self) -> u64
        ensures { (edges : List Edge) → HasPulses edges self → result ≡ brief_count edges }
    {
        self.count
    }
}
