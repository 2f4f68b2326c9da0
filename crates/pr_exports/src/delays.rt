//! Which delay of the profile each edge of a recording ends.

ghost use Rattle.std.specs.Prelude.{◌≡◌, ◌++◌, length, IfOk, OnOk};
ghost use Rattle.pr_exports.specs.Asked.{TellsDelays};
ghost use Rattle.pr_exports.specs.EdgeDelays.{delay_at, delay_numbers, edge_delays, kind_at, kind_freed, kind_number, numbers_from, place_after, resting, since_of};
ghost use Rattle.pr_exports.specs.Giving.{GivesDelays};
ghost use Rattle.pr_exports.specs.Settings.{source_of};

use crate::answer::{Answer, TextGiven, give, made_of, numbered, refused};
use crate::settings::{input_for, source_for};
use pr_capture::TraceInput;
use pr_explain::read_input;
use pr_jobs::CliFault;
use pr_wire::{BusState, ByteRole, Edge, EdgeError, Kind, Levels, NoMemory};
use std::alloc::Global;

/// A delay that an edge ends.
#[derive(Clone, Copy)]
pub struct Delay {
    /// Its kind; `None` for a rest, which may last for any time.
    pub kind: Option<Kind>,
    /// The moment from which it counts, in microseconds.
    pub since: u64,
}

/// A place of the table of lawful traces.
#[derive(Drop)]
pub struct Place {
    /// The edge that led there.
    pub last: Edge,
    pub state: BusState,
}

/// What an edge comes to.
#[derive(Drop)]
struct Stepped {
    /// The delay that it ends, where that is known.
    delay: Option<Delay>,
    /// The place after it, where that is known.
    place: Option<Place>,
}

/// The kind of the delay that an edge to these levels ends at a place; `None` for a rest.
fn kind_at(state: &BusState, levels: Levels) -> Option<Kind>
    ensures { result ≡ kind_at state.now levels }
{
    match state {
        BusState::Idle(_) => None,
        BusState::Call(_, _) => Some(if levels.clock { Kind::Aw } else { Kind::At }),
        BusState::Ready(_, _) => Some(Kind::H),
        BusState::Free(_, _) => Some(if levels.clock { Kind::Ye } else { Kind::Ne }),
        BusState::Pulse(_, _) => Some(Kind::Ei),
        BusState::After(_) => Some(Kind::Ry),
        BusState::Bit { .. } => Some(Kind::S),
        BusState::High { .. } => Some(Kind::V),
        BusState::Last(_, _, _, _) => Some(Kind::F),
        BusState::Ack(_, ByteRole::First, _) => Some(if levels.atn { Kind::R } else { Kind::Aw }),
        BusState::Ack(_, ByteRole::Second, _) => Some(Kind::R),
        BusState::Ack(_, ByteRole::Data, _) => Some(Kind::Bb),
        BusState::Freed { unlistened, .. } => Some(kind_freed(*unlistened, levels)),
    }
}

/// The same where ATN is released after an attention.
fn kind_freed(unlistened: bool, levels: Levels) -> Kind
    ensures { result ≡ kind_freed unlistened levels }
{
    if levels.atn && !levels.clock {
        Kind::Dr
    } else if unlistened {
        Kind::Cr
    } else {
        Kind::Bb
    }
}

/// Since when the delay at a place counts.
fn since_of(state: &BusState) -> u64
    ensures { result ≡ since_of state.now }
{
    match state {
        BusState::Idle(since) => *since,
        BusState::Call(since, _) => *since,
        BusState::Ready(since, _) => *since,
        BusState::Free(since, _) => *since,
        BusState::Pulse(since, _) => *since,
        BusState::After(since) => *since,
        BusState::Bit { since, .. } => *since,
        BusState::High { since, .. } => *since,
        BusState::Last(since, _, _, _) => *since,
        BusState::Ack(since, _, _) => *since,
        BusState::Freed { since, .. } => *since,
    }
}

/// The place at which the table begins: after an edge with which all lines are released.
fn resting(edge: Edge) -> Option<Place>
    ensures { result ≡ resting edge }
{
    let Levels { atn, clock, line } = edge.levels;
    if atn && clock && line {
        Some(Place {
            last: edge,
            state: BusState::Idle(edge.time),
        })
    } else {
        None
    }
}

/// What the next edge comes to.
fn step(place: Option<Place>, edge: Edge) -> Stepped
    ensures delay { result.delay ≡ delay_at place edge }
    ensures place { result.place ≡ place_after place edge }
{
    let Some(place) = place else {
        return Stepped {
            delay: None,
            place: resting(edge),
        };
    };
    let delay = Delay {
        kind: kind_at(&place.state, edge.levels),
        since: since_of(&place.state),
    };
    match place.state.after(place.last, edge) {
        Ok(step) => Stepped {
            delay: Some(delay),
            place: Some(Place {
                last: edge,
                state: step.place,
            }),
        },
        Err(EdgeError::TooEarly | EdgeError::TooLate) => Stepped {
            delay: Some(delay),
            place: resting(edge),
        },
        Err(EdgeError::Order | EdgeError::Shape) => Stepped {
            delay: None,
            place: resting(edge),
        },
    }
}

/// A kind by its place among the bounds that [`crate::print1525_bounds`] gives; 14 for a rest.
fn kind_number(kind: Option<Kind>) -> u64
    ensures { result ≡ kind_number kind }
{
    match kind {
        Some(Kind::Bb) => 0,
        Some(Kind::Aw) => 1,
        Some(Kind::Ne) => 2,
        Some(Kind::Ry) => 3,
        Some(Kind::S) => 4,
        Some(Kind::V) => 5,
        Some(Kind::R) => 6,
        Some(Kind::Cr) => 7,
        Some(Kind::At) => 8,
        Some(Kind::H) => 9,
        Some(Kind::Ye) => 10,
        Some(Kind::Ei) => 11,
        Some(Kind::F) => 12,
        Some(Kind::Dr) => 13,
        None => 14,
    }
}

/// Adds the numbers of a delay.
fn push_delay(numbers: &mut Vec<u64>, delay: Option<Delay>) -> Result<(), NoMemory>
    ensures { OnOk result (numbers.new.items ≡ numbers.old.items ++ delay_numbers delay) }
{
    match delay {
        Some(delay) => numbers.extend_from_slice(&[kind_number(delay.kind), delay.since]),
        None => numbers.extend_from_slice(&[15, 0]),
    }
}

/// The numbers of the delays that edges end.
fn delays_of(alloc: Global, edges: &[Edge]) -> Result<Vec<u64>, NoMemory>
    ensures { IfOk result (λ numbers. numbers.items ≡ edge_delays edges.now) }
{
    let mut numbers = Vec::new(alloc);
    let mut place = None;
    for edge in edges {
        let stepped = step(place, *edge);
        push_delay(&mut numbers, stepped.delay)?;
        place = stepped.place;
    }
    Ok(numbers)
}

/// Reads a recording, and puts the delay that each of its edges ends at the front of a buffer.
fn delays(alloc: Global, bytes: &[u8], input: TraceInput<'_>, out: &mut [u64]) -> TextGiven
    ensures told { GivesDelays input.entry bytes.now out.old out.new result }
    ensures length { length out.new ≡ length out.old }
{
    let Ok(said) = read_input(alloc, bytes, input) else {
        return TextGiven::Refused(CliFault::NoMemory);
    };
    let Ok(numbers) = delays_of(alloc, said.edges.as_slice()) else {
        return TextGiven::Refused(CliFault::NoMemory);
    };
    give(made_of(said.fault), numbers.as_slice(), out)
}

/// Reads a recording, and puts the delay of the profile that each of its edges ends at the front of the caller's buffer, as
/// two numbers: its kind and the moment from which it counts, in microseconds. The kind is its place among the bounds that
/// [`crate::print1525_bounds`] gives, from 0; 14 is a rest, which may last for any time. 15 and 0 are for an edge that ends
/// no delay that is known.
///
/// The table of lawful traces says which delay it is. It begins where all lines are released, and ends at the first edge
/// that it refuses; of an edge that only comes too early or too late the delay is still given.
///
/// The recording is passed as to [`crate::print1525_edges`], with its refusals.
#[unsafe(no_mangle)]
pub extern "C" fn print1525_edge_delays(
    alloc: Global,
    bytes: &[u8],
    source: u8,
    atn: &[u8],
    clock: &[u8],
    line: &[u8],
    inverted: u8,
    start: u64,
    rate: u64,
    out: &mut [u64],
    answer: &mut Answer,
)
    ensures tells { TellsDelays (source_of source bytes.now) atn.now clock.now line.now inverted start rate bytes.now out.old out.new answer.new }
    ensures length { length out.new ≡ length out.old }
{
    let Some(source) = source_for(source, bytes) else {
        *answer = refused(29, 0);
        return;
    };
    let input = input_for(source, atn, clock, line, inverted != 0, start, rate);
    *answer = numbered(delays(alloc, bytes, input, out));
}
