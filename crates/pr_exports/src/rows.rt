//! What the edges of a recording say: its readings, and a row of numbers for each.

ghost use Rattle.std.specs.Prelude.{◌≡◌, ◌++◌, [], IfOk, OnOk};
ghost use Rattle.std.specs.Option.{option_map_or};
ghost use Rattle.pr_report.specs.Contexts.{at_start};
ghost use Rattle.pr_report.specs.Intervals.{transfer_of};
ghost use Rattle.pr_report.specs.ReadingText.{reading_lines};
ghost use Rattle.pr_exports.specs.Numbers.{end_of, flag, reading_rows, row_of, row_with};
ghost use Rattle.pr_exports.specs.Rows.{EndsReadings};

use pr_decode::{FrameEnd, IncompleteEnd, Pulse, Reading};
use pr_jobs::CliFault;
use pr_recording::{Takes, Tape};
use pr_report::{Context, Detail, push_reading, transfer_of};
use pr_wire::{Edge, NoMemory};
use std::alloc::Global;

/// Yes as 1, no as 0.
pub fn flag(yes: bool) -> u64
    ensures { result ≡ flag yes }
{
    if yes { 1 } else { 0 }
}

/// What ended a byte, and when: 0 its acknowledgement, 1 that nobody acknowledged it, 2 ATN's pull, 3 CLOCK's
/// release for too long, 4 the recording's end, which has no moment.
fn end_of(reading: &Reading) -> (u64, u64)
    ensures { result ≡ end_of reading.now }
{
    match reading {
        Reading::Frame(_, FrameEnd::Acknowledged(time)) => (0, *time),
        Reading::Frame(_, FrameEnd::Unacknowledged(time)) => (1, *time),
        Reading::Frame(_, FrameEnd::Cut) => (4, 0),
        Reading::IncompleteByte(_, IncompleteEnd::Attention(time)) => (2, *time),
        Reading::IncompleteByte(_, IncompleteEnd::ClockTimeout(time)) => (3, *time),
        Reading::IncompleteByte(_, IncompleteEnd::Cut) => (4, 0),
    }
}

/// When DATA is pulled for end-or-identify; 0 without it.
fn pulled_in(pulse: Option<Pulse>) -> u64
    ensures { result ≡ option_map_or (λ p. p.pulled) pulse 0 }
{
    match pulse {
        Some(pulse) => pulse.pulled,
        None => 0,
    }
}

/// When DATA is released again; 0 without end-or-identify.
fn released_in(pulse: Option<Pulse>) -> u64
    ensures { result ≡ option_map_or (λ p. p.released) pulse 0 }
{
    match pulse {
        Some(pulse) => pulse.released,
        None => 0,
    }
}

/// Adds the row of a reading before which a printer listens or none does, and whose lines have this many bytes.
fn push_row(
    rows: &mut Vec<u64>,
    reading: &Reading,
    listens: bool,
    lines: u64,
) -> Result<(), NoMemory>
    ensures { OnOk result (rows.new.items ≡ rows.old.items ++ row_with (transfer_of reading.now) (end_of reading.now) listens lines) }
{
    let byte = transfer_of(reading);
    let end = end_of(reading);
    let opening = byte.opening;
    rows.extend_from_slice(&[
        end.0,
        end.1,
        u64::from(byte.bits),
        u64::from(byte.byte),
        flag(opening.command),
        opening.ready_to_send,
        opening.ready_for_data,
        flag(opening.pulse.is_some()),
        pulled_in(opening.pulse),
        released_in(opening.pulse),
        byte.pull,
        byte.last_pull,
        byte.low.shortest,
        byte.low.longest,
        byte.high.shortest,
        byte.high.longest,
        flag(listens),
        lines,
    ])
}

/// A row for each of some readings. The last number of a row is the length of the reading's lines, with this detail.
pub fn rows_of(alloc: Global, detail: Detail, readings: &[Reading]) -> Result<Vec<u64>, NoMemory>
    ensures { IfOk result (λ rows. rows.items ≡ reading_rows detail at_start readings.now) }
{
    let mut rows = Vec::new(alloc);
    let mut text = Vec::new(alloc);
    let mut before = Context::new();
    for reading in readings {
        text.clear();
        push_reading(&mut text, before, reading, detail)?;
        let lines = text.len() as u64;
        push_row(&mut rows, reading, before.printer_listens, lines)?;
        before = before.after(reading);
    }
    Ok(rows)
}

/// The readings of a recording, and why there are no more.
#[derive(Drop)]
pub struct Ended {
    pub readings: Vec<Reading>,
    /// The fault of the recording at which they end.
    pub stop: Option<CliFault>,
}

/// The readings of a recording, kept.
#[derive(Drop)]
struct Readings {
    all: Vec<Reading>,
}

impl Readings {
    /// No reading. It takes no memory.
    fn none(alloc: Global) -> Readings
        ensures { result.all.items ≡ [] }
    {
        Readings {
            all: Vec::new(alloc),
        }
    }
}

impl Takes for Readings {
    ghost use Rattle.std.specs.Prelude.{⊤};
    ghost use Rattle.std.proofs.Common.{ap, append-nil, append_assoc, sym, ◌∙◌};

    ghost takes = { λ more old new. new.all.items ≡ old.all.items ++ more };

    ghost may_take = { λ n r. ⊤ };

    ghost takes_none = { λ r. sym (append-nil r.all.items) };

    ghost takes_both = { λ xs ys a b c h k. k ∙ (ap (λ l. l ++ ys) h ∙ append_assoc a.all.items xs ys) };

    ghost takes_fewer = { λ k n r h. h };

    fn take_reading(&mut self, reading: &Reading) -> Result<(), NoMemory> {
        self.all.push(*reading)?;
        Ok(())
    }
}

/// The readings of edges whose input has this fault, if it has one, and why there are no more.
pub fn readings_of(alloc: Global, edges: &[Edge], own: Option<CliFault>) -> Result<Ended, NoMemory>
    ensures { IfOk result (λ ended. EndsReadings edges.now own ended) }
{
    let mut tape = Tape::new();
    let mut readings = Readings::none(alloc);
    tape.take_all(edges, &mut readings)?;
    let end = tape.finish(own, &mut readings)?;
    Ok(Ended {
        readings: readings.all,
        stop: end.stop,
    })
}
