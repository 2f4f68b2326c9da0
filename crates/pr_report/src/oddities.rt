//! What is odd about a recording, in lines at the end of its report.

ghost use Rattle.std.specs.Prelude.{◌≡◌, ◌++◌, ◌∷◌, ◌||◌, [], List, OnOk};
ghost use Rattle.std.specs.List.{list_any};
ghost use Rattle.pr_wire.specs.declared.Edge.{Edge};
ghost use Rattle.pr_decode.specs.declared.reading.Reading.{Reading};
ghost use Rattle.pr_report.specs.Oddities.{advice, is_acknowledged, is_attention, is_odd, odd_levels, oddities_of, oddities_text, other_signals, to_try, told_if};
ghost use Rattle.pr_report.specs.Steps.{first_or};
ghost use Rattle.pr_report.specs.Taking.{HasSeen};

use crate::brief_pulses::PulseCount;
use pr_capture::{InputFormat, TraceInput};
use pr_decode::{FrameEnd, Reading};
use pr_wire::{Edge, Levels, NoMemory};

/// What is odd about a recording: signs that other signals were recorded, or the lines the other way round.
#[derive(Clone, Copy, Debug, PartialEq, Eq)]
pub struct Oddities {
    /// No byte is acknowledged.
    pub no_byte: bool,
    /// ATN is never pulled.
    pub no_attention: bool,
    /// The recording begins and ends with ATN at 0.
    pub atn_rests: bool,
    /// The recording begins and ends with CLOCK at 0.
    pub clock_rests: bool,
    /// The recording begins and ends with DATA at 0.
    pub data_rests: bool,
    /// How many pulses of a line are brief, at most one microsecond long, as cross-talk makes them: an edge gives the line
    /// the other level, and the next edge takes it back. DATA counts where it is pulled, but not at a look of an attention:
    /// on a lawful bus it may be released for a microsecond, and a printer may answer for one then. The count stops at its
    /// greatest value. No line of a report speaks of it.
    pub brief: u64,
}

/// What the edges of a recording so far say of its lines.
#[derive(Clone, Copy)]
pub struct LinesSeen {
    /// ATN was pulled.
    has_attention: bool,
    /// The levels of the first edge.
    first: Option<Levels>,
    /// The levels of the last edge so far.
    last: Option<Levels>,
    /// The brief pulses.
    pulses: PulseCount,
}

/// Whether a reading is an acknowledged byte.
pub fn is_acknowledged(reading: &Reading) -> bool
    ensures { result ≡ is_acknowledged reading.now }
{
    match reading {
        Reading::Frame(_, FrameEnd::Acknowledged(_)) => true,
        Reading::Frame(_, FrameEnd::Unacknowledged(_)) => false,
        Reading::Frame(_, FrameEnd::Cut) => false,
        Reading::IncompleteByte(_, _) => false,
    }
}

/// Whether attention has come, with one edge more.
fn with_attention(before: bool, edge: Edge) -> bool
    ensures { result ≡ (before || is_attention edge) }
{
    before || !edge.levels.atn
}

/// The levels of the first edge, after one edge more.
fn first_or(first: Option<Levels>, next: Levels) -> Levels
    ensures { result ≡ first_or first next }
{
    match first {
        None => next,
        Some(first) => first,
    }
}

/// Whether ATN is pulled at one of some edges.
fn is_called(edges: &[Edge]) -> bool
    ensures { result ≡ list_any is_attention edges.now }
{
    for edge in edges {
        if !edge.levels.atn {
            return true;
        }
    }
    false
}

/// Whether attention has come, with edges more.
fn with_calls(before: bool, edges: &[Edge]) -> bool
    ensures { result ≡ (before || list_any is_attention edges.now) }
{
    before || is_called(edges)
}

impl LinesSeen {
    /// No edge was looked at.
    pub fn new() -> LinesSeen
        ensures { HasSeen [] result }
    {
        LinesSeen {
            has_attention: false,
            first: None,
            last: None,
            pulses: PulseCount::new(),
        }
    }

    /// Looks at the next edge.
    pub fn take(&mut self, edge: Edge)
        ensures { (edges : List Edge) → HasSeen edges self.old → HasSeen (edges ++ edge ∷ []) self.new }
    {
        self.has_attention = with_attention(self.has_attention, edge);
        self.first = Some(first_or(self.first, edge.levels));
        self.last = Some(edge.levels);
        self.pulses.take(edge);
    }

    /// Looks at the next edges, in order.
    pub fn take_all(&mut self, edges: &[Edge])
        ensures { (before : List Edge) → HasSeen before self.old → HasSeen (before ++ edges.now) self.new }
    {
        if edges.is_empty() {
            return;
        }
        self.has_attention = with_calls(self.has_attention, edges);
        self.first = Some(first_or(self.first, edges[0].levels));
        self.last = Some(edges[edges.len() - 1].levels);
        self.pulses.take_all(edges);
    }

    /// What is odd about the edges, of whose readings some are acknowledged bytes or none is.
    pub fn oddities(self, has_byte: bool) -> Oddities
        ensures { (edges : List Edge) (readings : List Reading) → HasSeen edges self →
            has_byte ≡ list_any is_acknowledged readings → result ≡ oddities_of edges readings }
    {
        let brief = self.pulses.count();
        odd_levels(!has_byte, !self.has_attention, brief, self.first, self.last)
    }
}

/// What is odd, by the levels at the recording's beginning and at its end, with how many pulses are brief.
fn odd_levels(
    no_byte: bool,
    no_attention: bool,
    brief: u64,
    first: Option<Levels>,
    last: Option<Levels>,
) -> Oddities
    ensures { result ≡ odd_levels no_byte no_attention brief first last }
{
    let (Some(first), Some(last)) = (first, last) else {
        return Oddities {
            no_byte,
            no_attention,
            atn_rests: false,
            clock_rests: false,
            data_rests: false,
            brief,
        };
    };
    Oddities {
        no_byte,
        no_attention,
        atn_rests: !(first.atn || last.atn),
        clock_rests: !(first.clock || last.clock),
        data_rests: !(first.line || last.line),
        brief,
    }
}

/// Adds a line, if something is so.
fn push_if(text: &mut Vec<u8>, is_so: bool, line: &[u8]) -> Result<(), NoMemory>
    ensures { OnOk result (text.new.items ≡ text.old.items ++ told_if is_so line.now) }
{
    if is_so {
        text.extend_from_slice(line)?;
    }
    Ok(())
}

/// Whether anything is odd.
fn is_odd(odd: Oddities) -> bool
    ensures { result ≡ is_odd odd }
{
    odd.no_byte || odd.no_attention || odd.atn_rests || odd.clock_rests || odd.data_rests
}

/// Adds what to try of a recording of signals, in which no byte is acknowledged or one is, and whose levels are
/// inverted or not.
fn push_other_signals(text: &mut Vec<u8>, no_byte: bool, is_inverted: bool) -> Result<(), NoMemory>
    ensures { OnOk result (text.new.items ≡ text.old.items ++ other_signals no_byte is_inverted) }
{
    push_if(text, !no_byte, b"if the bytes make no sense, ")?;
    push_if(
        text,
        is_inverted,
        b"try without --invert, or other signals with --names\n",
    )?;
    push_if(
        text,
        !is_inverted,
        b"try --invert for probes behind inverters, or other signals with --names\n",
    )?;
    Ok(())
}

/// Adds what to try of a recording in this format, in which no byte is acknowledged or one is.
fn push_to_try(
    text: &mut Vec<u8>,
    source: InputFormat,
    no_byte: bool,
    is_inverted: bool,
) -> Result<(), NoMemory>
    ensures { OnOk result (text.new.items ≡ text.old.items ++ to_try source no_byte is_inverted) }
{
    match source {
        InputFormat::Text => text.extend_from_slice(
            b"in a trace text the levels are those of ATN, CLOCK and DATA, and 1 is released\n",
        ),
        InputFormat::Vcd | InputFormat::Csv => push_other_signals(text, no_byte, is_inverted),
    }
}

/// Adds what to try of a recording that is read so, if anything is odd.
fn push_advice(text: &mut Vec<u8>, input: TraceInput<'_>, odd: Oddities) -> Result<(), NoMemory>
    ensures { OnOk result (text.new.items ≡ text.old.items ++ advice input.entry odd) }
{
    if is_odd(odd) {
        let is_inverted = input.signals.probes.inverts_any();
        push_to_try(text, input.source, odd.no_byte, is_inverted)?;
    }
    Ok(())
}

/// Adds a line for each thing that is odd about a recording, and one with what to try, if there is any: `--invert`, or
/// to leave it out where it is read with it, and no option where it is a trace text.
///
/// # Errors
///
/// [`NoMemory`] where a growth of the text was refused. Nothing is promised of the text then.
pub fn push_oddities(
    text: &mut Vec<u8>,
    input: TraceInput<'_>,
    odd: Oddities,
) -> Result<(), NoMemory>
    ensures { OnOk result (text.new.items ≡ text.old.items ++ oddities_text input.entry odd) }
{
    push_if(text, odd.no_byte, b"no byte is acknowledged\n")?;
    push_if(
        text,
        odd.no_attention,
        b"attention never comes: ATN is not pulled\n",
    )?;
    push_if(text, odd.atn_rests, b"ATN rests at 0\n")?;
    push_if(text, odd.clock_rests, b"CLOCK rests at 0\n")?;
    push_if(text, odd.data_rests, b"DATA rests at 0\n")?;
    push_advice(text, input, odd)?;
    Ok(())
}
