//! Edges without brief pulses of a line.

ghost use Rattle.std.specs.Prelude.{◌≡◌, ◌+◌, ◌<◌, ◌≤◌, ◌++◌, ◌∷◌, ℕ, [], List, length, take, IfOk, OnOk, Some};
ghost use Rattle.std.specs.List.{list_any};
ghost use Rattle.pr_wire.specs.declared.Edge.{Edge};
ghost use Rattle.pr_capture.specs.Gathering.{edge_at_end, told_with};
ghost use Rattle.pr_capture.specs.Samples.{listed};
ghost use Rattle.pr_capture.specs.Pulses.{changes_within, is_brief, level_of, steady_edge, steady_level, steady_levels, without_pulses};
ghost use Rattle.pr_capture.specs.Sifting.{SteadyEdgesComeFirst, HasSifted, SiftsMore};

use crate::edge_detector::{edge_at_end, told_with};
use crate::fault::Wire;
use crate::held::Held;
use pr_wire::{Edge, Levels};
use std::alloc::{AllocError, Global};

/// How many edges after one are looked at.
const AHEAD: usize = 15;

/// Leaves brief pulses of a line out of edges that come one after another. A level of a line is a pulse if the line
/// has another level within a limit of microseconds, and within the next 15 edges; the line then has the level from
/// before it.
#[derive(Drop)]
pub struct PulseFilter {
    limit: u64,
    /// The levels of the edge given last.
    told: Option<Levels>,
    /// The edges that are not decided: the last 16 taken.
    held: Held,
}

/// A line's level.
fn level_of(wire: Wire, levels: Levels) -> bool
    ensures { result ≡ level_of wire levels }
{
    match wire {
        Wire::Atn => levels.atn,
        Wire::Clock => levels.clock,
        Wire::Data => levels.line,
    }
}

/// Whether a line has another level at an edge after this one, at most so many microseconds after it.
fn changes_within(limit: u64, wire: Wire, edge: Edge, later: Edge) -> bool
    ensures { result ≡ changes_within limit wire edge later }
{
    later.time.saturating_sub(edge.time) <= limit
        && level_of(wire, later.levels) != level_of(wire, edge.levels)
}

/// Whether a line's level at an edge is a pulse, before these edges.
fn is_brief(limit: u64, wire: Wire, edge: Edge, later: &[Edge]) -> bool
    ensures { result ≡ is_brief limit wire edge later.now }
{
    later
        .iter()
        .any(|next| changes_within(limit, wire, edge, *next))
}

/// A line's level at an edge, without pulses.
fn steady_level(limit: u64, wire: Wire, told: Option<Levels>, edge: Edge, later: &[Edge]) -> bool
    ensures { result ≡ steady_level limit wire told edge later.now }
{
    let level = level_of(wire, edge.levels);
    let Some(told) = told else {
        return level;
    };
    let before = level_of(wire, told);
    if before != level && is_brief(limit, wire, edge, later) {
        before
    } else {
        level
    }
}

/// The levels at an edge, without pulses.
fn steady_levels(limit: u64, told: Option<Levels>, edge: Edge, later: &[Edge]) -> Levels
    ensures { result ≡ steady_levels limit told edge later.now }
{
    Levels {
        atn: steady_level(limit, Wire::Atn, told, edge, later),
        clock: steady_level(limit, Wire::Clock, told, edge, later),
        line: steady_level(limit, Wire::Data, told, edge, later),
    }
}

impl PulseFilter {
    /// Makes a filter that has taken no edge, by the longest pulse that it leaves out, in microseconds. It takes no
    /// memory.
    pub fn new(alloc: Global, limit: u64) -> PulseFilter
        ensures { HasSifted limit [] [] result }
    {
        PulseFilter {
            limit,
            told: None,
            held: Held::new(alloc),
        }
    }

    /// Decides on the edge before those held, and gives it as it is without pulses, if it changes a level then.
    fn decide(&mut self, edge: Edge) -> Option<Edge>
        ensures known { result ≡ edge_at_end (Some (steady_edge self.old.limit self.old.told edge self.old.held)) self.old.told }
        ensures told { self.new.told ≡ told_with self.old.told result }
        ensures limit { self.new.limit ≡ self.old.limit }
        ensures held { self.new.held ≡ self.old.held }
    {
        let later = self.held.as_slice();
        let len = later.len().min(AHEAD);
        let levels = steady_levels(self.limit, self.told, edge, &later[..len]);
        let steady = Edge {
            time: edge.time,
            levels,
        };
        let known = edge_at_end(Some(steady), self.told);
        self.told = told_with(self.told, known);
        known
    }

    /// Takes an edge, and gives the edge that is known by it, if any: that of an earlier edge.
    ///
    /// # Errors
    ///
    /// `AllocError` where memory was refused. Nothing is said of the filter then.
    pub fn take(&mut self, edge: Edge) -> Result<Option<Edge>, AllocError>
        ensures { IfOk result (λ known. SiftsMore edge (listed known) self.old self.new) }
    {
        if self.held.as_slice().len() <= AHEAD {
            self.held.push(edge)?;
            return Ok(None);
        }
        let Some(front) = self.held.pop_front() else {
            return Ok(None);
        };
        let known = self.decide(front);
        self.held.push(edge)?;
        Ok(known)
    }

    /// Ends the edges, and adds those that were not given before, at most 16.
    ///
    /// # Errors
    ///
    /// `AllocError` where memory was refused.
    pub fn finish(mut self, edges: &mut Vec<Edge>) -> Result<(), AllocError>
        ensures all { OnOk result ((limit : ℕ) (taken given : List Edge) → HasSifted limit taken (given ++ edges.old.items) self →
            without_pulses limit taken ≡ given ++ edges.new.items) }
        ensures few { OnOk result (length edges.new.items ≤ length edges.old.items + 16) }
    {
        edges.reserve(self.held.as_slice().len())?;
        while let Some(front) = self.held.pop_front() {
            if let Some(edge) = self.decide(front) {
                edges.push(edge)?;
            }
        }
        Ok(())
    }
}

/// A law, with nothing to run: whatever edges follow those that a filter has taken, the edges that it has given are
/// the first of those without pulses.
pub fn steady_edges_come_first()
    ensures { SteadyEdgesComeFirst }
{}
