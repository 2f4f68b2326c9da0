//! Why a trace or a recording is refused, in any format.

ghost use Rattle.std.specs.Prelude.{◌≡◌, List, [], None, IfOk, IfSome, MatchOption};
ghost use Rattle.std.specs.String.{string_bytes};
ghost use Rattle.pr_wire.specs.declared.Edge.{Edge};
ghost use Rattle.pr_jobs.specs.Report.{IsOwnFault};
ghost use Rattle.pr_explain.specs.Followed.{Follows, back_from, stands_before};
ghost use Rattle.pr_explain.specs.TracePlaces.{AreInOrder, GoesBackAt, IsPlaceOf, IsPlaceRead, IsReadingPlace, IsTracePlace, nowhere};

use crate::Explanation;
use crate::edges::{EdgePlace, Followed, follow, place_in};
use crate::faults::{own_line, push_fault};
use crate::input::{counted, read_input};
use crate::texts::{Shown, start_of, trace_start};
use crate::trace_text::{BRACKETS, TraceSaid, push_index, push_stop};
use pr_capture::TraceInput;
use pr_jobs::CliFault;
use pr_wire::{Edge, NoMemory};
use std::alloc::Global;

/// Where a trace is refused. It has two parts, since an input can have a bad line and, before it,
/// an edge that is not lawful; that the edges before such a line end too soon is no fault of
/// theirs.
#[derive(Clone, Copy, Debug, PartialEq, Eq)]
pub struct TracePlace {
    /// The line that cannot be read, from 1, if there is one.
    pub line: Option<usize>,
    /// Where the edges, or those before that line, stop being lawful, if they do.
    pub edge: Option<EdgePlace>,
}

/// Where a recording cannot be read further. It is one or the other: `decode` stops at the first edge
/// with which time goes back.
#[derive(Clone, Copy, Debug, PartialEq, Eq)]
pub enum ReadingPlace {
    /// The edge of this index, from 0, is earlier than the one before it.
    Edge(usize),
    /// The line of this number, from 1, cannot be read.
    Line(usize),
}

/// Says why a trace is refused. Its place is the line that cannot be read, and where its edges stop
/// being lawful: how many are allowed, the first fault, the edges that may follow there, and by how
/// much the next edge misses the interval of its levels; of edges before a line that cannot be read
/// only where one is not allowed. It has neither, and no text, exactly where the trace is lawful.
/// The trace is read as `check` reads it.
///
/// The text shows the line and what was expected there; the edge, the edges that were expected, and
/// by how much this one misses them. Its times count from where the trace begins; the recording's own
/// microseconds are in brackets where that is not 0. It is tested, not proved.
///
/// # Errors
///
/// [`NoMemory`] where memory was refused.
pub fn explain_trace(
    alloc: Global,
    trace: &[u8],
    input: TraceInput<'_>,
) -> Result<Explanation<TracePlace>, NoMemory>
    ensures place { IfOk result (λ told. IsTracePlace input.entry trace.now told.place) }
    ensures nothing { IfOk result (λ told. told.place ≡ nowhere → string_bytes told.text ≡ []) }
{
    let said = read_input(alloc, trace, input)?;
    let fault = said.fault;
    let start = trace_start(input, said.edges.as_slice());
    let counted = counted(alloc, input.source, said.edges.as_slice())?;
    let edges = counted.as_slice();
    let followed = follow(edges);
    let place = place_of(&followed, fault);
    let mut text = String::new(alloc);
    if place.line.is_none() && place.edge.is_none() {
        return Ok(Explanation { place, text });
    }
    if let (Some(fault), Some(number)) = (fault, place.line) {
        push_fault(alloc, &mut text, trace, input, fault, number)?;
    }
    if let Some(edge) = place.edge {
        let trace = TraceSaid {
            input,
            start,
            edges,
            is_whole: fault.is_none(),
        };
        push_stop(&mut text, trace, &followed, edge)?;
    }
    Ok(Explanation { place, text })
}

/// Where a trace is refused that has these edges, up to a fault of its own, if it has one.
fn place_of(followed: &Followed, fault: Option<CliFault>) -> TracePlace
    requires { IfSome fault IsOwnFault }
    ensures { (edges : List Edge) → Follows edges followed.now → IsPlaceOf edges fault result }
{
    match fault {
        None => TracePlace {
            line: None,
            edge: place_in(followed, true),
        },
        Some(fault) => TracePlace {
            line: Some(own_line(fault)),
            edge: place_in(followed, false),
        },
    }
}

/// Says why a recording cannot be read to its end. Its place is the first edge that is earlier than
/// the one before it, or else the line that cannot be read. It has none, and no text, exactly where
/// the recording can be read. The recording is read as `decode` reads it. The text is tested, not
/// proved.
///
/// # Errors
///
/// [`NoMemory`] where memory was refused.
pub fn explain_reading(
    alloc: Global,
    recording: &[u8],
    input: TraceInput<'_>,
) -> Result<Explanation<Option<ReadingPlace>>, NoMemory>
    ensures place { IfOk result (λ told. IsReadingPlace input.entry recording.now told.place) }
    ensures nothing { IfOk result (λ told. told.place ≡ None → string_bytes told.text ≡ []) }
{
    let said = read_input(alloc, recording, input)?;
    let fault = said.fault;
    let edges = said.edges.as_slice();
    let mut text = String::new(alloc);
    let Some(place) = place_read(edges, fault) else {
        return Ok(Explanation { place: None, text });
    };
    match (place, fault) {
        (ReadingPlace::Edge(index), _) => push_back(&mut text, edges, index, input)?,
        (ReadingPlace::Line(number), Some(fault)) => {
            push_fault(alloc, &mut text, recording, input, fault, number)?;
        }
        (ReadingPlace::Line(_), None) => {}
    }
    Ok(Explanation {
        place: Some(place),
        text,
    })
}

/// Where edges go back in time, or else the line of the fault after them, if there is one.
pub fn place_read(edges: &[Edge], fault: Option<CliFault>) -> Option<ReadingPlace>
    requires { IfSome fault IsOwnFault }
    ensures { IsPlaceRead edges.now fault result }
{
    match (first_back(edges), fault) {
        (Some(index), _) => Some(ReadingPlace::Edge(index)),
        (None, Some(fault)) => Some(ReadingPlace::Line(own_line(fault))),
        (None, None) => None,
    }
}

/// Whether an edge is earlier than the one before it, if there is one.
fn goes_back(last: Option<Edge>, edge: Edge) -> bool
    ensures { result ≡ stands_before edge last }
{
    match last {
        Some(last) => edge.time < last.time,
        None => false,
    }
}

/// The index of the first edge that is earlier than the one before it, if there is one.
#[tactic(auto, using(crate::proofs::BackLemmas::back_found))]
fn first_back(edges: &[Edge]) -> Option<usize>
    ensures { MatchOption result (AreInOrder edges.now) (λ index. GoesBackAt edges.now index) }
{
    find_back(edges)
}

/// Finds that edge, by its index.
fn find_back(edges: &[Edge]) -> Option<usize>
    ensures { result ≡ back_from 0 None edges.now }
{
    let mut last = None;
    let mut index: usize = 0;
    let mut rest = edges;
    while let [edge, more @ ..] = rest {
        if goes_back(last, *edge) {
            return Some(index);
        }
        last = Some(*edge);
        index += 1;
        rest = more;
    }
    None
}

/// Adds that the edge of this index is earlier than the one before it.
fn push_back(
    text: &mut String,
    edges: &[Edge],
    index: usize,
    input: TraceInput<'_>,
) -> Result<(), NoMemory> {
    let start = start_of(input);
    if start > 0 {
        write!(text, "  {BRACKETS}\n")?;
    }
    push_index(text, index, input.source)?;
    if let Some(edge) = edges.get(index) {
        write!(text, "{}\n", Shown { edge: *edge, start })?;
    }
    if let Some(edge) = index.checked_sub(1).and_then(|before| edges.get(before)) {
        write!(
            text,
            "  the edge before it: {}\n",
            Shown { edge: *edge, start }
        )?;
    }
    write!(text, "  it is earlier than the edge before it\n")
}
