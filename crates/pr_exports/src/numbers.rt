//! A recording as numbers: its edges, and what they say; and the bounds of the delays.

ghost use Rattle.std.specs.Prelude.{◌≡◌, ◌+◌, ◌-◌, ◌<◌, ◌≤◌, ◌++◌, ◌∷◌, [], List, length, IfErr, IfOk, OnOk};
ghost use Rattle.pr_wire.specs.Delays.{bounds_of};
ghost use Rattle.pr_exports.specs.Asked.{TellsBounds, TellsEdges, TellsIntervals, TellsRows};
ghost use Rattle.pr_exports.specs.Giving.{GivesEdges, GivesIntervals, GivesRows};
ghost use Rattle.pr_exports.specs.Numbers.{bounds_numbers, edge_numbers, kind_numbers, level_number};
ghost use Rattle.pr_exports.specs.Settings.{detail_of, source_of};

use crate::answer::{Answer, TextGiven, give, made_of, numbered, refused};
use crate::lengths::all_figures;
use crate::rows::{flag, readings_of, rows_of};
use crate::settings::{detail_for, input_for, source_for};
use pr_capture::TraceInput;
use pr_explain::read_input;
use pr_jobs::CliFault;
use pr_report::{Detail, longest_answer};
use pr_wire::{Edge, Kind, Levels, NoMemory, bounds};
use std::alloc::Global;

/// The kinds of delay, in the order of their rows.
const KINDS: [Kind; 14] = [
    Kind::Bb,
    Kind::Aw,
    Kind::Ne,
    Kind::Ry,
    Kind::S,
    Kind::V,
    Kind::R,
    Kind::Cr,
    Kind::At,
    Kind::H,
    Kind::Ye,
    Kind::Ei,
    Kind::F,
    Kind::Dr,
];

/// Levels as a number: 4 for ATN, 2 for CLOCK and 1 for DATA, where they are released.
fn level_number(levels: Levels) -> u64
    ensures { result ≡ level_number levels }
{
    4 * flag(levels.atn) + 2 * flag(levels.clock) + flag(levels.line)
}

/// The numbers of edges: the moment of each, and its levels.
fn numbers_of(alloc: Global, edges: &[Edge]) -> Result<Vec<u64>, NoMemory>
    ensures { IfOk result (λ numbers. numbers.items ≡ edge_numbers edges.now) }
{
    let mut numbers = Vec::new(alloc);
    for edge in edges {
        numbers.extend_from_slice(&[edge.time, level_number(edge.levels)])?;
    }
    Ok(numbers)
}

/// Reads a recording, and puts the numbers of its edges at the front of a buffer.
fn edges(alloc: Global, bytes: &[u8], input: TraceInput<'_>, out: &mut [u64]) -> TextGiven
    ensures told { GivesEdges input.entry bytes.now out.old out.new result }
    ensures length { length out.new ≡ length out.old }
{
    let Ok(said) = read_input(alloc, bytes, input) else {
        return TextGiven::Refused(CliFault::NoMemory);
    };
    let Ok(numbers) = numbers_of(alloc, said.edges.as_slice()) else {
        return TextGiven::Refused(CliFault::NoMemory);
    };
    give(made_of(said.fault), numbers.as_slice(), out)
}

/// Reads a recording, and puts a row for each of its readings at the front of a buffer.
fn rows(
    alloc: Global,
    bytes: &[u8],
    input: TraceInput<'_>,
    detail: Detail,
    out: &mut [u64],
) -> TextGiven
    ensures told { GivesRows input.entry detail bytes.now out.old out.new result }
    ensures length { length out.new ≡ length out.old }
{
    let Ok(said) = read_input(alloc, bytes, input) else {
        return TextGiven::Refused(CliFault::NoMemory);
    };
    let Ok(read) = readings_of(alloc, said.edges.as_slice(), said.fault) else {
        return TextGiven::Refused(CliFault::NoMemory);
    };
    let Ok(numbers) = rows_of(alloc, detail, read.readings.as_slice()) else {
        return TextGiven::Refused(CliFault::NoMemory);
    };
    give(made_of(read.stop), numbers.as_slice(), out)
}

/// Reads a recording, and puts what the lengths of each interval come to at the front of a buffer.
fn intervals(alloc: Global, bytes: &[u8], input: TraceInput<'_>, out: &mut [u64]) -> TextGiven
    ensures told { GivesIntervals input.entry bytes.now out.old out.new result }
    ensures length { length out.new ≡ length out.old }
{
    let Ok(said) = read_input(alloc, bytes, input) else {
        return TextGiven::Refused(CliFault::NoMemory);
    };
    let Ok(read) = readings_of(alloc, said.edges.as_slice(), said.fault) else {
        return TextGiven::Refused(CliFault::NoMemory);
    };
    let Ok(numbers) = all_figures(alloc, read.readings.as_slice()) else {
        return TextGiven::Refused(CliFault::NoMemory);
    };
    give(made_of(read.stop), numbers.as_slice(), out)
}

/// Adds the least and the greatest delay of each of some kinds.
fn push_kinds(numbers: &mut Vec<u64>, kinds: &[Kind]) -> Result<(), NoMemory>
    ensures { OnOk result (numbers.new.items ≡ numbers.old.items ++ kind_numbers kinds.now) }
{
    for kind in kinds {
        let (least, _, greatest) = bounds(*kind);
        numbers.extend_from_slice(&[u64::from(least), u64::from(greatest)])?;
    }
    Ok(())
}

/// The bounds of the delays.
fn bounds_of_delays(alloc: Global) -> Result<Vec<u64>, NoMemory>
    ensures { IfOk result (λ numbers. numbers.items ≡ bounds_numbers) }
{
    let mut numbers = Vec::new(alloc);
    push_kinds(&mut numbers, &KINDS)?;
    let (least, _, _) = bounds(Kind::Ei);
    numbers.extend_from_slice(&[u64::from(least), longest_answer()])?;
    Ok(numbers)
}

/// Reads a recording, and puts its edges at the front of the caller's buffer, as two numbers each: the
/// moment in microseconds, and the levels (4 for ATN, 2 for CLOCK and 1 for DATA, where they are
/// released).
///
/// `source` is 0 for a trace text, 1 for a Value Change Dump, 2 for a table, 3 and 4 for the format that the first
/// bytes show, or else a text or a table. `atn`, `clock` and `line` are the names of the signals, any bytes, `inverted` is
/// whether their levels are inverted (0 for no), `start` is the microsecond at which the recording starts, and `rate` is how
/// many samples a table without times has in a second (0 where it is not said).
///
/// Of a recording that cannot be read to its end, the edges before its fault are in the buffer, with
/// code 2. It is refused where a number means no format, where memory was refused, and where there
/// are more numbers than the buffer has room for, with their count. The buffer is then as it was.
#[unsafe(no_mangle)]
pub extern "C" fn print1525_edges(
    alloc: Global,
    bytes: &[u8],
    source: u8,
    atn: &[u8],
    clock: &[u8],
    line: &[u8],
    inverted: u8,
    start: u64,
    rate: u64,
    out: &mut [u64],
    answer: &mut Answer,
)
    ensures tells { TellsEdges (source_of source bytes.now) atn.now clock.now line.now inverted start rate bytes.now out.old out.new answer.new }
    ensures length { length out.new ≡ length out.old }
{
    let Some(source) = source_for(source, bytes) else {
        *answer = refused(29, 0);
        return;
    };
    let input = input_for(source, atn, clock, line, inverted != 0, start, rate);
    *answer = numbered(edges(alloc, bytes, input, out));
}

/// Reads a recording, and puts a row of eighteen numbers for each of its readings at the front of
/// the caller's buffer: those readings that have lines in what `print1525 decode` writes. `detail` is 0 for no further
/// line, 1 for lines of intervals outside their bounds, 2 and 3 the same by the bounds of the guide. All moments and lengths are microseconds.
///
/// - What ended the byte: 0 its acknowledgement, 1 that nobody acknowledged it, 2 ATN's pull, 3
///   CLOCK's release for too long, 4 the recording's end; and when, or 0 for the recording's end.
/// - How many bits came whole, 8 of a whole byte; their number, the lowest bit first; whether it is
///   a command.
/// - Ready to send, and ready for data.
/// - Whether end-or-identify is given, and when DATA is pulled and released for it, or 0.
/// - CLOCK's first pull, and its last.
/// - How long CLOCK is pulled in a bit, the shortest and the longest; and how long it is released.
/// - Whether printer 4 or 5 listens before the reading.
/// - How many bytes the reading's lines have.
///
/// The recording is passed as to [`print1525_edges`], with its refusals, and the fault where an edge is earlier than the one before it.
#[unsafe(no_mangle)]
pub extern "C" fn print1525_reading_rows(
    alloc: Global,
    bytes: &[u8],
    source: u8,
    atn: &[u8],
    clock: &[u8],
    line: &[u8],
    inverted: u8,
    start: u64,
    rate: u64,
    detail: u8,
    out: &mut [u64],
    answer: &mut Answer,
)
    ensures tells { TellsRows (source_of source bytes.now) atn.now clock.now line.now inverted start rate (detail_of detail) bytes.now out.old out.new answer.new }
    ensures length { length out.new ≡ length out.old }
{
    let Some(source) = source_for(source, bytes) else {
        *answer = refused(29, 0);
        return;
    };
    let Some(detail) = detail_for(detail) else {
        *answer = refused(20, 0);
        return;
    };
    let input = input_for(source, atn, clock, line, inverted != 0, start, rate);
    *answer = numbered(rows(alloc, bytes, input, detail, out));
}

/// Reads a recording, and puts what the lengths of each interval come to at the front of the caller's buffer, in
/// the order of the lines of a summary: seven numbers for each of ten intervals. They are how many readings have the
/// interval, its least, its middle and its greatest length (0 where none has it), its bounds by the profile, and how many
/// lengths lie outside them; lengths are in microseconds. The middle is the least length that at least half of the
/// lengths do not exceed.
///
/// The recording is passed as to [`print1525_edges`], with the refusals of [`print1525_reading_rows`].
#[unsafe(no_mangle)]
pub extern "C" fn print1525_intervals(
    alloc: Global,
    bytes: &[u8],
    source: u8,
    atn: &[u8],
    clock: &[u8],
    line: &[u8],
    inverted: u8,
    start: u64,
    rate: u64,
    out: &mut [u64],
    answer: &mut Answer,
)
    ensures tells { TellsIntervals (source_of source bytes.now) atn.now clock.now line.now inverted start rate bytes.now out.old out.new answer.new }
    ensures length { length out.new ≡ length out.old }
{
    let Some(source) = source_for(source, bytes) else {
        *answer = refused(29, 0);
        return;
    };
    let input = input_for(source, atn, clock, line, inverted != 0, start, rate);
    *answer = numbered(intervals(alloc, bytes, input, out));
}

/// Puts the bounds of the profile's delays at the front of the caller's buffer, the least and the
/// greatest of each in microseconds: of the kinds `Bb`, `Aw`, `Ne`, `Ry`, `S`, `V`, `R` and `Cr` of
/// the computer, `At`, `H`, `Ye`, `Ei`, `F` and `Dr` of a printer, and of an answer to end-or-identify
/// that two listeners make together.
///
/// It is refused where memory was refused, and where the buffer has less room than for 30 numbers.
#[unsafe(no_mangle)]
pub extern "C" fn print1525_bounds(alloc: Global, out: &mut [u64], answer: &mut Answer)
    ensures tells { TellsBounds out.old out.new answer.new }
    ensures length { length out.new ≡ length out.old }
{
    let told = match bounds_of_delays(alloc) {
        Ok(numbers) => give(Ok(()), numbers.as_slice(), out),
        Err(_) => TextGiven::Refused(CliFault::NoMemory),
    };
    *answer = numbered(told);
}
