//! What is to be noted of a recording in which a line never changes, or lines change always.

use pr_capture::{InputFormat, Probes, Signals, Threshold, TraceInput, Volts};
use pr_decode::{Decoder, Reading, Transfer};
use pr_explain::{read_input, rows_change};
use pr_report::is_acknowledged;
use pr_wire::{Edge, Levels, NoMemory};
use std::alloc::{AllocError, Global};

/// What is noted where a shorter time, or none, of each option shows changes.
const LATE_START: &str = "no line changes after --from-time: give an earlier time";

const LONG_PULSES: &str =
    "no line changes, since --glitch leaves out every pulse: give a shorter time";

/// What is noted of volts: where the volts of [`HALF`] show changes, and where they do not.
const BY_HALF: &str = "no line changes by this --threshold, but lines do by --threshold 1.5";

const BY_NONE: &str =
    "no line changes by this --threshold: give volts between those of a 0 and those of a 1";

/// What is noted of volts where one line stays as it is, and others change.
const ATN_STAYS: &str =
    "ATN never changes by this --threshold: compare it with that line's volts, and see whether --names chooses its signal";

const CLOCK_STAYS: &str =
    "CLOCK never changes by this --threshold: compare it with that line's volts, and see whether --names chooses its signal";

const DATA_STAYS: &str =
    "DATA never changes by this --threshold: compare it with that line's volts, and see whether --names chooses its signal";

/// What is noted where lines change in every sample.
pub const EACH_SAMPLE: &str =
    "a line changes in every sample: if rows are left out where nothing changes, save all samples, or times with them";

/// What is noted of any other recording.
const NO_CHANGE: &str = "no line changes in this recording: --names chooses other signals";

/// What is noted of a table where levels change within one microsecond alone.
const ONE_MOMENT: &str =
    "lines change within one microsecond alone, whose last row counts: the times may be in a longer unit than the one by which they are read";

/// The levels before a recording begins: all lines are released.
const FIRST: Levels = Levels {
    atn: true,
    clock: true,
    line: true,
};

/// How many edges at one distance are hardly the bus's own (profile).
const MANY: usize = 16;

/// The volts between a 0 and a 1 on a bus of 5 volts that is recorded as it is.
const HALF: Volts = Volts {
    is_negative: false,
    micros: 1_500_000,
};

/// What is to be noted of edges by a threshold, if a line has the same level in all of them.
pub fn line_note(first: Edge, rest: &[Edge]) -> Option<&'static str> {
    let start = first.levels;
    if rest.iter().all(|edge| edge.levels.atn == start.atn) {
        Some(ATN_STAYS)
    } else if rest.iter().all(|edge| edge.levels.clock == start.clock) {
        Some(CLOCK_STAYS)
    } else if rest.iter().all(|edge| edge.levels.line == start.line) {
        Some(DATA_STAYS)
    } else {
        None
    }
}

/// What is to be noted of a recording in which no line changes: which option hides the changes, or which one to try.
///
/// # Errors
///
/// [`AllocError`] where memory was refused.
pub fn still_note(
    alloc: Global,
    recording: &[u8],
    input: TraceInput<'_>,
) -> Result<Option<&'static str>, AllocError> {
    let early = TraceInput { start: 0, ..input };
    if changes(alloc, recording, early)? {
        return Ok(Some(LATE_START));
    }
    let long = TraceInput { pulse: 0, ..early };
    if changes(alloc, recording, long)? {
        return Ok(Some(LONG_PULSES));
    }
    if rows_change(alloc, recording, input)? {
        return Ok(Some(ONE_MOMENT));
    }
    if input.signals.probes.threshold.is_none() {
        return Ok(Some(NO_CHANGE));
    }
    if changes(alloc, recording, by_half(long))? {
        Ok(Some(BY_HALF))
    } else {
        Ok(Some(BY_NONE))
    }
}

/// Whether all edges of a table have one distance, so that lines change in every sample.
pub fn changes_always(source: InputFormat, edges: &[Edge]) -> bool {
    let [first, second, rest @ ..] = edges else {
        return false;
    };
    let distance = second.time.wrapping_sub(first.time);
    let mut before = second.time;
    for edge in rest {
        let this = edge.time.wrapping_sub(before);
        if this.max(distance).wrapping_sub(this.min(distance)) > 1 {
            return false;
        }
        before = edge.time;
    }
    source == InputFormat::Csv && edges.len() > MANY
}

/// What seems to be wrong with a byte of a recording, by the moment of it.
#[derive(Clone, Copy)]
pub enum WrongByte {
    /// From then on CLOCK is released eight times, at least, in no byte that is read: its beginning is not there. Only where
    /// another byte is acknowledged.
    Lost(u64),
    /// DATA changes then, while CLOCK is released, between the pulls of CLOCK that enclose a byte's bits.
    Changed(u64),
}

/// The first byte with which something seems to be wrong.
///
/// # Errors
///
/// [`NoMemory`] where memory was refused.
pub fn wrong_byte(alloc: Global, edges: &[Edge]) -> Result<Option<WrongByte>, NoMemory> {
    let mut decoder = Decoder::new();
    let mut releases = Vec::new(alloc);
    let mut changes = Vec::new(alloc);
    let mut lost = None;
    let mut has_byte = false;
    let mut before = FIRST;
    for edge in edges {
        let levels = edge.levels;
        if levels.clock && !before.clock {
            releases.push(edge.time)?;
        } else if levels.clock && levels.line != before.line {
            changes.push(edge.time)?;
        }
        before = levels;
        if let Ok(Some(reading)) = decoder.take(*edge) {
            has_byte = has_byte || is_acknowledged(&reading);
            let transfer = transfer_of(reading);
            if let Some(time) = changed_within(transfer, changes.as_slice()) {
                return Ok(Some(WrongByte::Changed(time)));
            }
            lost = lost.or(lost_before(releases.as_slice(), transfer.opening.ready_to_send));
            releases = Vec::new(alloc);
            changes = Vec::new(alloc);
        }
    }
    let end = match decoder.finish() {
        Some(reading) => transfer_of(reading).opening.ready_to_send,
        None => u64::MAX,
    };
    match lost.or(lost_before(releases.as_slice(), end)) {
        Some(time) if has_byte => Ok(Some(WrongByte::Lost(time))),
        _ => Ok(None),
    }
}

/// A byte that is read, as far as it came.
fn transfer_of(reading: Reading) -> Transfer {
    match reading {
        Reading::Frame(transfer, _) => transfer,
        Reading::IncompleteByte(transfer, _) => transfer,
    }
}

/// The first of these moments between the pulls of CLOCK that enclose a byte's bits.
fn changed_within(transfer: Transfer, changes: &[u64]) -> Option<u64> {
    for time in changes {
        if transfer.pull < *time && *time < transfer.last_pull {
            return Some(*time);
        }
    }
    None
}

/// The first of some moments, if eight of them are before the beginning of a byte.
fn lost_before(releases: &[u64], beginning: u64) -> Option<u64> {
    match releases {
        [first, _, _, _, _, _, _, eighth, ..] if *eighth < beginning => Some(*first),
        _ => None,
    }
}

/// The same input, whose volts are compared with [`HALF`].
fn by_half(input: TraceInput<'_>) -> TraceInput<'_> {
    let probes = Probes {
        threshold: Some(Threshold {
            low: HALF,
            high: HALF,
        }),
        ..input.signals.probes
    };
    TraceInput {
        signals: Signals {
            probes,
            ..input.signals
        },
        ..input
    }
}

/// Whether a line changes in a recording that is read so, which can be read to its end.
fn changes(alloc: Global, recording: &[u8], input: TraceInput<'_>) -> Result<bool, AllocError> {
    match edge_count(alloc, recording, input)? {
        None | Some(0 | 1) => Ok(false),
        Some(_) => Ok(true),
    }
}

/// How many edges a recording has that is read so, with the levels at its beginning; None where it cannot be read to its end.
fn edge_count(
    alloc: Global,
    recording: &[u8],
    input: TraceInput<'_>,
) -> Result<Option<usize>, AllocError> {
    let said = read_input(alloc, recording, input)?;
    match said.fault {
        None => Ok(Some(said.edges.len())),
        Some(_) => Ok(None),
    }
}
