//! The decoder: what a recording says, edge by edge.

ghost use Rattle.std.specs.Prelude.{◌≡◌, ◌++◌, ◌∷◌, [], ◌<◌, ◌≤◌, ◌↔◌, false, length, take, List, OnErr, OnOk, IfOk, IsErr, None, Some};
ghost use Rattle.std.specs.Option.{option_to_list};
ghost use Rattle.pr_wire.specs.declared.Edge.{Edge};
ghost use Rattle.pr_decode.specs.declared.reading.Reading.{Reading};
ghost use Rattle.pr_decode.specs.declared.reading.Transfer.{Transfer};
ghost use Rattle.pr_decode.specs.Readings.{readings_of, settled_of};
ghost use Rattle.pr_decode.specs.Steps.{after, after_edge, ended_as, ended_by, frame_ended, high_ended, is_bit, low_ended, moved, sends, stretch_after};
ghost use Rattle.pr_decode.specs.Taking.{AreInOrder, HasReadings, IsBefore, Passes, last_time, time_behind};

use crate::clock_phase::{ClockPhase, calls, is_late};
use crate::reading::{FrameEnd, IncompleteEnd, Reading, Transfer};
use pr_wire::Edge;
use thiserror::Error;

/// An edge's time is before that of the edge taken last.
#[derive(Clone, Copy, Debug, Drop, Error, PartialEq, Eq)]
#[error("time goes back")]
pub struct GoesBack;

/// Reads the bytes of a recording of the bus edge by edge, as its listeners do, without memory.
///
/// It keeps the stretch in which CLOCK stays as it is, and the byte that has begun, not the edges. Its
/// contracts say "these edges were taken and these readings given"; every call answers by all lists of
/// which that can be said.
///
/// Its fields are public so that what it keeps may be kept elsewhere between two edges, in plain numbers
/// for a program in C.
#[derive(Drop)]
pub struct Decoder {
    /// The stretch that is not ended yet, once an edge has come.
    pub stretch: Option<ClockPhase>,
    /// The byte that has begun, as far as it came.
    pub transfer: Option<Transfer>,
}

/// How a byte ends that has begun.
#[derive(Clone, Copy)]
enum Ending {
    Whole(FrameEnd),
    Broken(IncompleteEnd),
}

/// How an edge ends a byte that has its eight bits, while CLOCK is pulled.
fn whole_end(stretch: &ClockPhase, edge: Edge) -> Option<Ending>
    ensures { (transfer : Transfer) → ended_as (Some transfer) result ≡ frame_ended transfer stretch.now edge }
{
    if !stretch.goes_on(edge) {
        return Some(Ending::Whole(FrameEnd::Unacknowledged(edge.time)));
    }
    let time = stretch.acknowledgement_with(edge)?;
    Some(Ending::Whole(FrameEnd::Acknowledged(time)))
}

/// How an edge ends a byte that has begun and has this many bits, after a stretch with CLOCK pulled. Where
/// ATN is pulled before the first bit, it does not.
#[inline(always)]
fn low_end(bits: u8, stretch: &ClockPhase, edge: Edge) -> Option<Ending>
    ensures { (transfer : Transfer) → transfer.bits ≡ bits → ended_as (Some transfer) result ≡ low_ended transfer stretch.now edge }
{
    match bits {
        0 => None,
        8 => whole_end(stretch, edge),
        _ if calls(stretch.last, edge) => Some(Ending::Broken(IncompleteEnd::Attention(edge.time))),
        _ => None,
    }
}

/// How an edge ends a byte that has begun, after a stretch with CLOCK released.
#[inline(always)]
fn high_end(stretch: &ClockPhase, edge: Edge) -> Option<Ending>
    ensures { (transfer : Transfer) → ended_as (Some transfer) result ≡ high_ended transfer stretch.now edge }
{
    if is_late(stretch.first.time, edge) {
        Some(Ending::Broken(IncompleteEnd::ClockTimeout(edge.time)))
    } else if calls(stretch.last, edge) {
        Some(Ending::Broken(IncompleteEnd::Attention(edge.time)))
    } else {
        None
    }
}

/// How an edge ends the byte that has begun, if one has, after a stretch.
#[inline(always)]
fn ended_now(transfer: &Option<Transfer>, stretch: &ClockPhase, edge: Edge) -> Option<Ending>
    ensures { ended_as transfer.now result ≡ ended_by transfer.now stretch.now edge }
{
    let Some(transfer) = transfer else {
        return None;
    };
    if stretch.first.levels.clock {
        high_end(stretch, edge)
    } else {
        low_end(transfer.bits, stretch, edge)
    }
}

/// Gives the byte that has begun with its end, and lets no byte have begun.
fn end(transfer: &mut Option<Transfer>, ending: Ending) -> Option<Reading>
    ensures reading { result ≡ ended_as transfer.old (Some ending) }
    ensures none { transfer.new ≡ None }
{
    let transfer = transfer.take()?;
    Some(match ending {
        Ending::Whole(end) => Reading::Frame(transfer, end),
        Ending::Broken(end) => Reading::IncompleteByte(transfer, end),
    })
}

/// An edge has ended a stretch: the byte that has begun goes on, or one begins. After ATN's pull there is
/// none.
#[inline(always)]
fn advance(transfer: &mut Option<Transfer>, stretch: &ClockPhase, edge: Edge)
    ensures { transfer.new ≡ moved transfer.old stretch.now edge }
{
    if calls(stretch.last, edge) {
        *transfer = None;
        return;
    }
    if let Some(transfer) = transfer {
        if stretch.first.levels.clock {
            transfer.push_bit(stretch.first, edge);
        }
        return;
    }
    if let Some(opening) = stretch.opening() {
        *transfer = Some(Transfer::begun(opening, edge));
    }
}

/// Goes on after a stretch.
#[inline(always)]
fn go_on(transfer: &mut Option<Transfer>, stretch: &mut ClockPhase, edge: Edge)
    ensures { record { stretch = Some stretch.new; transfer = transfer.new } ≡ after transfer.old stretch.old edge }
{
    if stretch.goes_on(edge) {
        stretch.push(edge);
    } else {
        let attention = calls(stretch.last, edge);
        advance(transfer, stretch, edge);
        stretch.begin(attention, edge);
    }
}

/// Takes the next edge, and gives what it ends.
#[inline(always)]
fn step(transfer: &mut Option<Transfer>, stretch: &mut ClockPhase, edge: Edge) -> Option<Reading>
    ensures reading { result ≡ ended_by transfer.old stretch.old edge }
    ensures new { record { stretch = Some stretch.new; transfer = transfer.new } ≡ after_edge transfer.old stretch.old edge }
{
    let Some(ending) = ended_now(transfer, stretch, edge) else {
        go_on(transfer, stretch, edge);
        return None;
    };
    let reading = end(transfer, ending);
    go_on(transfer, stretch, edge);
    reading
}

/// Whether two edges are a whole bit of a byte that has begun, after an edge with CLOCK pulled: the first releases
/// CLOCK, the second pulls it again in time, and neither pulls ATN or goes back.
#[inline(always)]
fn is_bit(last: Edge, up: Edge, down: Edge) -> bool
    ensures { result ≡ is_bit last up down }
{
    up.levels.clock
        && !down.levels.clock
        && !calls(last, up)
        && !calls(up, down)
        && last.time <= up.time
        && up.time <= down.time
        && !is_late(up.time, down)
}

/// Takes whole bits from the front of some edges, after an edge with CLOCK pulled, as many as the byte lacks at
/// most. Gives how many edges they are, and puts their last one where the edge before them was.
#[inline(always)]
fn push_bits(transfer: &mut Transfer, last: &mut Edge, edges: &[Edge]) -> usize
    ensures passes { (stretch : ClockPhase) → stretch.first.levels.clock ≡ false → stretch.last ≡ last.old →
        Passes (take result edges.now) (sends stretch transfer.old) (sends (stretch_after result stretch last.new) transfer.new) }
    ensures none { result ≡ 0 → transfer.new ≡ transfer.old }
    ensures within { result ≤ length edges.now }
{
    let mut len = 0;
    while transfer.bits < 8 && len + 1 < edges.len() {
        let (up, down) = (edges[len], edges[len + 1]);
        if !is_bit(*last, up, down) {
            break;
        }
        transfer.push_bit(up, down);
        *last = down;
        len += 2;
    }
    len
}

impl Decoder {
    /// Makes a decoder that has taken no edge. It takes no memory.
    pub fn new() -> Decoder
        ensures read { HasReadings [] [] result }
        ensures last { last_time result ≡ None }
    {
        Decoder {
            stretch: None,
            transfer: None,
        }
    }

    /// Takes the next edge of a recording, and gives the reading that it settles, if it settles
    /// one: a frame with its acknowledgement, or with what ends the waiting for it; a glitch with
    /// what ends it. What waits for its end is given by [`Decoder::finish`], so that no reading
    /// that was given ever changes. It takes no memory.
    ///
    /// # Errors
    ///
    /// [`GoesBack`] exactly where the edge's time is before that of the edge taken last. The
    /// decoder is then as it was.
    pub fn take(&mut self, edge: Edge) -> Result<Option<Reading>, GoesBack>
        ensures read { IfOk result (λ reading. (edges : List Edge) (given : List Reading) → HasReadings edges given self.old →
            HasReadings (edges ++ edge ∷ []) (given ++ option_to_list reading) self.new) }
        ensures last { OnOk result (last_time self.new ≡ Some edge.time) }
        ensures back { IsErr result ↔ IsBefore edge self.old }
        ensures stays { OnErr result (self.new ≡ self.old) }
    {
        let Some(stretch) = &mut self.stretch else {
            self.stretch = Some(ClockPhase::begun(false, edge));
            return Ok(None);
        };
        if edge.time < stretch.last.time {
            return Err(GoesBack);
        }
        Ok(step(&mut self.transfer, stretch, edge))
    }

    /// Takes the edges in front that are whole bits of the byte that has begun, as [`Decoder::take`] would take
    /// them one by one, and faster: none of them settles a reading, and time does not go back. Gives how many they
    /// are, which may be none; the decoder then stays as it is. It takes no memory.
    #[inline(always)]
    pub fn take_bits(&mut self, edges: &[Edge]) -> usize
        ensures read { (before : List Edge) (given : List Reading) → HasReadings before given self.old →
            HasReadings (before ++ take result edges.now) given self.new }
        ensures order { AreInOrder (last_time self.old) (take result edges.now) }
        ensures last { last_time self.new ≡ time_behind (last_time self.old) (take result edges.now) }
        ensures within { result ≤ length edges.now }
        ensures none { result ≡ 0 → self.new ≡ self.old }
    {
        let Some(stretch) = &mut self.stretch else {
            return 0;
        };
        let Some(transfer) = &mut self.transfer else {
            return 0;
        };
        if stretch.first.levels.clock {
            return 0;
        }
        let mut last = stretch.last;
        let len = push_bits(transfer, &mut last, edges);
        if len > 0 {
            stretch.begin(false, last);
        }
        len
    }

    /// Ends the recording, and gives the reading that it cuts, if there is one: a frame that was
    /// not acknowledged yet, or an incomplete byte. With the readings given before, it is all that
    /// the recording says. It takes no memory.
    pub fn finish(self) -> Option<Reading>
        ensures read { (edges : List Edge) (given : List Reading) → HasReadings edges given self →
            readings_of edges ≡ given ++ option_to_list result }
        ensures settled { (edges : List Edge) (given : List Reading) → HasReadings edges given self → settled_of edges ≡ given }
    {
        let transfer = self.transfer?;
        Some(if transfer.bits == 8 {
            Reading::Frame(transfer, FrameEnd::Cut)
        } else {
            Reading::IncompleteByte(transfer, IncompleteEnd::Cut)
        })
    }
}
