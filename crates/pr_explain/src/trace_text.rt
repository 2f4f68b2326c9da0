//! Why edges are no lawful trace, in words.

use crate::edges::{EdgePlace, Followed};
use crate::rows::Miss;
use crate::states::{LAST_TIME, push_rows, push_state};
use crate::texts::{Digits, Shown};
use pr_capture::{InputFormat, TraceInput};
use pr_wire::{Edge, Levels, NoMemory, WaveFault};

/// The first edge of a trace.
const FIRST: &str = "0 111, all lines released at time 0";

/// The line before times with the recording's own in brackets.
pub const BRACKETS: &str = "[in brackets: the recording's own time, in microseconds]";

/// What a trace and its edges are described from.
#[derive(Clone, Copy)]
pub struct TraceSaid<'a> {
    /// How the trace is read.
    pub input: TraceInput<'a>,
    /// From which microsecond of its recording its times count.
    pub start: u64,
    /// Its edges, or those before the line that has a fault.
    pub edges: &'a [Edge],
    /// All its edges are known.
    pub is_whole: bool,
}

/// Adds where the edges of a trace stop being lawful, and why.
pub fn push_stop(
    text: &mut String,
    trace: TraceSaid<'_>,
    followed: &Followed,
    place: EdgePlace,
) -> Result<(), NoMemory> {
    let [first, ..] = trace.edges else {
        return push_no_edge(text, trace.input.source);
    };
    if trace.start > 0 {
        write!(text, "  {BRACKETS}\n")?;
    }
    match place.fault {
        WaveFault::Start(index) => {
            push_index(text, index, trace.input.source)?;
            push_bad_start(text, trace, *first)
        }
        WaveFault::Truncated(_) => push_end(text, followed, place, trace.start),
        WaveFault::Order(index)
        | WaveFault::TooEarly(index)
        | WaveFault::TooLate(index)
        | WaveFault::Shape(index) => {
            push_index(text, index, trace.input.source)?;
            push_refused(text, followed, place, trace.start)
        }
        WaveFault::NoMemory => Ok(()),
    }
}

/// Adds that there is no edge.
fn push_no_edge(text: &mut String, source: InputFormat) -> Result<(), NoMemory> {
    match source {
        InputFormat::Text => write!(text, "  expected {FIRST}, found no edge\n"),
        InputFormat::Vcd | InputFormat::Csv => {
            write!(
                text,
                "  the recording has no sample of ATN, CLOCK and DATA\n"
            )
        }
    }
}

/// Adds the index of an edge, and its line where it has one.
pub fn push_index(text: &mut String, index: usize, source: InputFormat) -> Result<(), NoMemory> {
    match source {
        InputFormat::Text => write!(text, "  line {}, edge {index}: ", index.saturating_add(1)),
        InputFormat::Vcd | InputFormat::Csv => write!(text, "  edge {index}: "),
    }
}

/// Adds a first edge that is not the start of a trace, and where the start may be.
fn push_bad_start(text: &mut String, trace: TraceSaid<'_>, edge: Edge) -> Result<(), NoMemory> {
    let start = trace.start;
    write!(text, "{}\n", Shown { edge, start })?;
    write!(text, "  expected {FIRST}\n")?;
    if trace.input.source == InputFormat::Text {
        return Ok(());
    }
    push_start(text, trace)?;
    if edge.levels.atn || edge.levels.clock || edge.levels.line {
        return Ok(());
    }
    let probes = trace.input.signals.probes;
    if probes.atn && probes.clock && probes.line {
        write!(
            text,
            "  if the bus is idle there, the levels are not inverted: remove --invert\n"
        )
    } else if probes.inverts_any() {
        write!(
            text,
            "  if the bus is idle there, the other lines are inverted, and those of --invert are not\n"
        )
    } else {
        write!(
            text,
            "  if the bus is idle there, the probes are inverted: add --invert to read 0 as released\n"
        )
    }
}

/// Adds where a recording may have the start of its trace, by its edges from a time on.
fn push_start(text: &mut String, trace: TraceSaid<'_>) -> Result<(), NoMemory> {
    let start = trace.start;
    write!(
        text,
        "  --from-time US starts the trace at microsecond US of the recording; "
    )?;
    if start > 0 {
        write!(text, "from {start} on, ")?;
    }
    match trace.edges.iter().find(|edge| are_released(edge.levels)) {
        Some(edge) => {
            let time = start.saturating_add(edge.time);
            write!(text, "all three lines are first released at {time}")?;
        }
        None => {
            if !trace.is_whole {
                write!(text, "as far as the recording can be read, ")?;
            }
            write!(text, "the three lines are never all released")?;
        }
    }
    if let Some(edge) = first_idle(trace.edges) {
        let time = start.saturating_add(edge.time);
        write!(text, ", and the first attention comes after {time}")?;
    }
    write!(text, "\n")
}

/// Whether all three lines are released.
fn are_released(levels: Levels) -> bool {
    levels.atn && levels.clock && levels.line
}

/// The first edge that releases all three lines and after which an attention begins.
fn first_idle(edges: &[Edge]) -> Option<Edge> {
    let mut before = None;
    for edge in edges {
        let levels = edge.levels;
        if !levels.atn && !levels.clock && levels.line && before.is_some() {
            return before;
        }
        before = if are_released(levels) {
            Some(*edge)
        } else {
            None
        };
    }
    None
}

/// Adds the last edge that is allowed, the state there, and the edges that may follow.
fn push_last(
    text: &mut String,
    followed: &Followed,
    place: EdgePlace,
    start: u64,
) -> Result<(), NoMemory> {
    if let Some(edge) = followed.follower.last {
        write!(text, "{}\n", Shown { edge, start })?;
    }
    push_state(text, &followed.follower.state, start)?;
    push_rows(text, &place.expected, start)
}

/// Adds the first edge that is not lawful, and what is wrong with it.
fn push_refused(
    text: &mut String,
    followed: &Followed,
    place: EdgePlace,
    start: u64,
) -> Result<(), NoMemory> {
    let (Some(refused), Some(last)) = (followed.refused, followed.follower.last) else {
        return Ok(());
    };
    let edge = refused.edge;
    write!(text, "{}\n  the edge before it: ", Shown { edge, start })?;
    push_last(text, followed, place, start)?;
    match (place.fault, place.missed) {
        (WaveFault::TooEarly(_) | WaveFault::TooLate(_), Some(missed)) => push_miss(text, missed),
        (WaveFault::TooEarly(_) | WaveFault::TooLate(_), None) => {
            write!(
                text,
                "  levels {} are allowed only after {LAST_TIME}\n",
                Digits(edge.levels)
            )
        }
        (WaveFault::Order(_), _) if edge.time <= last.time => {
            write!(text, "  it is not later than the edge before it\n")
        }
        (WaveFault::Order(_), _) => {
            write!(text, "  it has the same levels as the edge before it\n")
        }
        _ => write!(
            text,
            "  levels {} are not allowed here\n",
            Digits(edge.levels)
        ),
    }
}

/// Adds by how many microseconds an edge comes too early or too late.
fn push_miss(text: &mut String, missed: Miss) -> Result<(), NoMemory> {
    let (microseconds, when) = match missed {
        Miss::Early(microseconds) => (microseconds, "early"),
        Miss::Late(microseconds) => (microseconds, "late"),
    };
    let ending = if microseconds == 1 { "" } else { "s" };
    write!(
        text,
        "  it comes {microseconds} microsecond{ending} too {when}\n"
    )
}

/// Adds the last edge of a trace that ends too soon, what may follow, and where a trace may end.
fn push_end(
    text: &mut String,
    followed: &Followed,
    place: EdgePlace,
    start: u64,
) -> Result<(), NoMemory> {
    write!(text, "  the last edge: ")?;
    push_last(text, followed, place, start)?;
    if followed
        .follower
        .last
        .is_some_and(|edge| are_released(edge.levels))
    {
        write!(
            text,
            "  all lines are released, but a data byte is incomplete\n"
        )?;
    }
    write!(
        text,
        "  a trace can end when the bus is idle, after an acknowledged data byte, or after an attention \
         that does not end with UNLISTEN\n"
    )
}
