//! Samples of the three lines, gathered into edges.

ghost use Rattle.std.specs.Prelude.{◌≡◌, ◌++◌, ℕ, [], ◌∷◌, List, Some};
ghost use Rattle.pr_wire.specs.declared.Edge.{Edge};
ghost use Rattle.pr_capture.specs.Gathers.{GathersMore, GathersRepeats};
ghost use Rattle.pr_capture.specs.Gathering.{HasGathered, edge_at_end, edge_before, settled, told_with};
ghost use Rattle.pr_capture.specs.Samples.{counted_from, edges_of, is_new, listed};

use pr_wire::{Edge, Levels};

/// Makes edges of samples that come one after another, without memory. A sample says the levels from
/// a moment on, as an edge does; of samples at one moment the last one counts, and a sample that says
/// what was said before makes no edge.
#[derive(Drop)]
pub struct EdgeDetector {
    start: u64,
    held: Option<Edge>,
    told: Option<Levels>,
}

/// Whether levels differ from those reported last, if any were.
fn is_new(told: Option<Levels>, levels: Levels) -> bool
    ensures { result ≡ is_new told levels }
{
    match told {
        None => true,
        Some(told) => {
            !(told.clock == levels.clock && told.line == levels.line && told.atn == levels.atn)
        }
    }
}

/// A sample, its moment counted from a start.
fn counted_from(start: u64, sample: Edge) -> Edge
    ensures { result ≡ counted_from start sample }
{
    Edge {
        time: sample.time.saturating_sub(start),
        levels: sample.levels,
    }
}

/// The edge that the sample held makes, if the next sample is at this moment.
fn edge_before(held: Option<Edge>, told: Option<Levels>, next: u64) -> Option<Edge>
    ensures { result ≡ edge_before held told next }
{
    match held {
        None => None,
        Some(held) => {
            if held.time != next && is_new(told, held.levels) {
                Some(held)
            } else {
                None
            }
        }
    }
}

/// The edge that the sample held makes, if no sample follows.
pub fn edge_at_end(held: Option<Edge>, told: Option<Levels>) -> Option<Edge>
    ensures { result ≡ edge_at_end held told }
{
    match held {
        None => None,
        Some(held) => {
            if is_new(told, held.levels) {
                Some(held)
            } else {
                None
            }
        }
    }
}

/// The levels reported last, once an edge has reported its own, if there is one.
pub fn told_with(told: Option<Levels>, edge: Option<Edge>) -> Option<Levels>
    ensures { result ≡ told_with told edge }
{
    match edge {
        None => told,
        Some(edge) => Some(edge.levels),
    }
}

impl EdgeDetector {
    /// Makes a detector that has taken no sample. The moments of its edges are counted from this
    /// start, in microseconds; samples before the start count as samples at the start. It takes no
    /// memory.
    pub fn new(start: u64) -> EdgeDetector
        ensures { HasGathered start [] [] result }
    {
        EdgeDetector {
            start,
            held: None,
            told: None,
        }
    }

    /// Holds the next sample, and gives the edge that the one before makes, if any.
    fn hold(&mut self, next: Edge) -> Option<Edge>
        ensures edge { result ≡ edge_before self.old.held self.old.told next.time }
        ensures start { self.new.start ≡ self.old.start }
        ensures held { self.new.held ≡ Some next }
        ensures told { self.new.told ≡ told_with self.old.told result }
    {
        let edge = edge_before(self.held, self.told, next.time);
        self.held = Some(next);
        self.told = told_with(self.told, edge);
        edge
    }

    /// Takes a sample, and gives the edge that is known by it, if any. It is that of an earlier
    /// sample. It takes no memory.
    pub fn take(&mut self, sample: Edge) -> Option<Edge>
        ensures { GathersMore (sample ∷ []) (listed result) self.old self.new }
    {
        let next = counted_from(self.start, sample);
        self.hold(next)
    }

    /// Returns the levels of the last sample, if the edge that they make was given: samples that have them make
    /// no edge.
    pub fn settled(&self) -> Option<Levels>
        ensures { result ≡ settled self.now }
    {
        let held = self.held?;
        if is_new(self.told, held.levels) {
            None
        } else {
            Some(held.levels)
        }
    }

    /// Takes samples that have the levels of the last one, none of which makes an edge: only the last of them
    /// counts. It takes no memory.
    pub fn skip(&mut self, last: Edge)
        requires { settled self.old ≡ Some last.levels }
        ensures { GathersRepeats last self.old self.new }
    {
        self.held = Some(counted_from(self.start, last));
    }

    /// Ends the samples, and gives the last edge, if it was not given before. It takes no memory.
    pub fn finish(self) -> Option<Edge>
        ensures { (start : ℕ) (samples edges : List Edge) → HasGathered start samples edges self →
            edges_of start samples ≡ edges ++ listed result }
    {
        edge_at_end(self.held, self.told)
    }
}
