//! The edges of an input in any format.

ghost use Rattle.std.specs.Prelude.{◌≡◌, ◌+◌, ◌≤◌, ◌++◌, [], length, IfOk, OnOk, Some};
ghost use Rattle.std.specs.Option.{option_to_list};
ghost use Rattle.pr_jobs.specs.Sources.{FindsAll, FindsMore, HasGathered, HasMade, HasSteadied, MadeEdgesComeFirst, SteadiesAll, SteadiesMore, settled_in};
ghost use Rattle.pr_jobs.specs.InputReads.{MakesAll, MakesMore, MakesNone};

use pr_capture::{
    EdgeDetector, InputFormat, PulseFilter, TraceInput, given_edges_come_first,
    steady_edges_come_first,
};
use pr_wire::{Edge, Levels};
use std::alloc::{AllocError, Global};

/// Makes the edges of an input of what its reader gives: of the samples of a recording, or of a trace text's edges
/// these same ones. Pulses of a line that are left out come to no edge.
#[derive(Drop)]
pub struct EdgeMaker {
    /// Makes edges of samples; None where the input has edges.
    detector: Option<EdgeDetector>,
    /// Leaves pulses out of them; None where none is left out.
    filter: Option<PulseFilter>,
}

/// What finds edges in the samples of an input, None where it has edges.
fn detector_of(input: TraceInput<'_>) -> Option<EdgeDetector>
    ensures { HasGathered input.entry [] [] result }
{
    match input.source {
        InputFormat::Text => None,
        InputFormat::Vcd | InputFormat::Csv => Some(EdgeDetector::new(input.start)),
    }
}

/// What leaves out pulses of at most so many microseconds, None where none is left out.
fn filter_of(alloc: Global, pulse: u64) -> Option<PulseFilter>
    ensures { HasSteadied pulse [] [] result }
{
    if pulse == 0 {
        None
    } else {
        Some(PulseFilter::new(alloc, pulse))
    }
}

/// Takes the next sample, and gives the edge that is found by it, if any.
#[inline(always)]
fn find(detector: &mut Option<EdgeDetector>, sample: Edge) -> Option<Edge>
    ensures { FindsMore sample detector.old result detector.new }
{
    match detector {
        Some(detector) => detector.take(sample),
        None => Some(sample),
    }
}

/// Ends the samples, and gives the last edge, if it was not found before.
fn find_last(detector: Option<EdgeDetector>) -> Option<Edge>
    ensures { FindsAll detector result }
{
    match detector {
        Some(detector) => detector.finish(),
        None => None,
    }
}

/// Takes the next edge, if there is one, and gives the edge that is known by it, if any.
#[inline(always)]
fn steady(filter: &mut Option<PulseFilter>, found: Option<Edge>) -> Result<Option<Edge>, AllocError>
    ensures { IfOk result (λ known. SteadiesMore found filter.old known filter.new) }
{
    let Some(edge) = found else {
        return Ok(None);
    };
    match filter {
        Some(filter) => filter.take(edge),
        None => Ok(Some(edge)),
    }
}

/// Adds an edge, if there is one.
fn push_known(edges: &mut Vec<Edge>, known: Option<Edge>) -> Result<(), AllocError>
    ensures { OnOk result (edges.new.items ≡ edges.old.items ++ option_to_list known) }
{
    if let Some(edge) = known {
        edges.push(edge)?;
    }
    Ok(())
}

/// Ends the edges, and adds those that were not given before.
fn steady_last(filter: Option<PulseFilter>, edges: &mut Vec<Edge>) -> Result<(), AllocError>
    ensures all { OnOk result (SteadiesAll filter edges.old.items edges.new.items) }
    ensures few { OnOk result (length edges.new.items ≤ length edges.old.items + 16) }
{
    match filter {
        Some(filter) => filter.finish(edges),
        None => Ok(()),
    }
}

impl EdgeMaker {
    /// Makes an edge maker that has taken nothing of an input. It takes no memory.
    pub fn new(alloc: Global, input: TraceInput<'_>) -> EdgeMaker
        ensures { HasMade input.entry [] [] result }
    {
        EdgeMaker {
            detector: detector_of(input),
            filter: filter_of(alloc, input.pulse),
        }
    }

    /// Takes the next sample, or the next edge of an input that has edges, and gives the edge that is
    /// known by it, if any. It takes memory only where pulses are left out.
    ///
    /// # Errors
    ///
    /// `AllocError` where memory was refused. Nothing is said of the maker then.
    #[inline(always)]
    pub fn take(&mut self, sample: Edge) -> Result<Option<Edge>, AllocError>
        ensures { IfOk result (λ known. MakesMore sample self.old known self.new) }
    {
        let found = find(&mut self.detector, sample);
        let known = steady(&mut self.filter, found)?;
        Ok(known)
    }

    /// Returns the levels of the last sample, if samples that have them make no edge.
    #[inline(always)]
    pub fn settled(&self) -> Option<Levels>
        ensures { result ≡ settled_in self.now }
    {
        match &self.detector {
            Some(detector) => detector.settled(),
            None => None,
        }
    }

    /// Takes samples that have the levels of the last one, none of which makes an edge: only the last of them
    /// counts. It takes no memory.
    pub fn skip(&mut self, last: Edge)
        requires { settled_in self.old ≡ Some last.levels }
        ensures { MakesNone last self.old self.new }
    {
        match &mut self.detector {
            Some(detector) => detector.skip(last),
            None => {}
        }
    }

    /// Ends the samples, and adds the edges that were not given before: one at most, and 16 where pulses are left
    /// out.
    ///
    /// # Errors
    ///
    /// `AllocError` where memory was refused.
    pub fn finish(self, edges: &mut Vec<Edge>) -> Result<(), AllocError>
        ensures all { OnOk result (MakesAll self edges.old.items edges.new.items) }
        ensures few { OnOk result (length edges.new.items ≤ length edges.old.items + 17) }
    {
        let EdgeMaker {
            detector,
            mut filter,
        } = self;
        let last = find_last(detector);
        let known = steady(&mut filter, last)?;
        push_known(edges, known)?;
        steady_last(filter, edges)?;
        Ok(())
    }
}

/// A law, with nothing to run: whatever samples follow those that a maker has taken, the edges that it has
/// given are the first that the samples make.
pub fn made_edges_come_first()
    ensures { MadeEdgesComeFirst }
{
    given_edges_come_first();
    steady_edges_come_first();
}
