//! What is odd about a recording that can be read to its end.

ghost use Rattle.std.specs.Prelude.{◌≡◌, ◌++◌, ◌∷◌, ◌||◌, [], IfOk, IfSome, List, None};
ghost use Rattle.std.specs.List.{list_any};
ghost use Rattle.std.specs.Option.{option_to_list};
ghost use Rattle.pr_wire.specs.declared.Edge.{Edge};
ghost use Rattle.pr_decode.specs.Readings.{readings_of};
ghost use Rattle.pr_decode.specs.Taking.{IsBefore, last_time};
ghost use Rattle.pr_report.specs.Oddities.{is_acknowledged, oddities_of};
ghost use Rattle.pr_jobs.specs.Report.{IsOwnFault};
ghost use Rattle.pr_explain.specs.OddLines.{AreOddLines, AreRemarks, ComesAfter, HasLooked, first_moment};
ghost use Rattle.pr_explain.specs.TracePlaces.{AreInOrder};

use crate::input::read_input;
use crate::traces::place_read;
use pr_capture::TraceInput;
use pr_decode::{Decoder, Reading};
use pr_jobs::CliFault;
use pr_report::{LinesSeen, Oddities, is_acknowledged, push_oddities};
use pr_wire::{Edge, NoMemory};
use std::alloc::Global;

/// What there is to say of a recording that is checked.
#[derive(Debug, Drop)]
pub struct Remarks {
    /// How many microseconds after the start asked for the three levels are first known: the trace begins there.
    pub later: u64,
    /// The last lines of `decode`'s report: no byte is acknowledged, attention never comes, a line rests at 0, and
    /// what to try. There are none where nothing is odd, and where the recording cannot be read to its end.
    pub oddities: Vec<u8>,
}

/// What the edges of a recording so far come to.
#[derive(Drop)]
pub struct Looked {
    decoder: Decoder,
    lines: LinesSeen,
    /// Some reading is an acknowledged byte.
    has_byte: bool,
}

/// Whether an acknowledged byte has come, with one reading more, if there is one.
fn with_byte(before: bool, reading: Option<Reading>) -> bool
    ensures { result ≡ (before || list_any is_acknowledged (option_to_list reading)) }
{
    match reading {
        Some(reading) => before || is_acknowledged(&reading),
        None => before,
    }
}

impl Looked {
    /// No edge was looked at.
    fn new() -> Looked
        ensures looked { HasLooked [] result }
        ensures first { last_time result.decoder ≡ None }
    {
        Looked {
            decoder: Decoder::new(),
            lines: LinesSeen::new(),
            has_byte: false,
        }
    }

    /// Looks at the next edge, which is not earlier than the one before it.
    fn take(&mut self, edge: Edge)
        requires later { IsBefore edge self.old.decoder → ⊥ }
        ensures looked { (edges : List Edge) → HasLooked edges self.old → HasLooked (edges ++ edge ∷ []) self.new }
        ensures last { (more : List Edge) → ComesAfter self.old.decoder (edge ∷ more) → ComesAfter self.new.decoder more }
    {
        if let Ok(reading) = self.decoder.take(edge) {
            self.lines.take(edge);
            self.has_byte = with_byte(self.has_byte, reading);
        }
    }

    /// What is odd about the edges.
    fn finish(self) -> Oddities
        ensures { (edges : List Edge) → HasLooked edges self → result ≡ oddities_of edges (readings_of edges) }
    {
        let cut = self.decoder.finish();
        let has_byte = with_byte(self.has_byte, cut);
        self.lines.oddities(has_byte)
    }
}

/// What is odd about edges, none of which is earlier than the one before it.
fn oddities_of(edges: &[Edge]) -> Oddities
    requires order { AreInOrder edges.now }
    ensures { result ≡ oddities_of edges.now (readings_of edges.now) }
{
    let mut looked = Looked::new();
    let mut rest = edges;
    while let [edge, more @ ..] = rest {
        looked.take(*edge);
        rest = more;
    }
    looked.finish()
}

/// What is odd about edges of an input that has this fault after them, if it has one.
fn odd_lines(
    alloc: Global,
    input: TraceInput<'_>,
    edges: &[Edge],
    own: Option<CliFault>,
) -> Result<Vec<u8>, NoMemory>
    requires own { IfSome own IsOwnFault }
    ensures { IfOk result (λ text. AreOddLines input.entry edges.now own text.items) }
{
    let mut text = Vec::new(alloc);
    match place_read(edges, own) {
        Some(_) => Ok(text),
        None => {
            push_oddities(&mut text, input, oddities_of(edges))?;
            Ok(text)
        }
    }
}

/// Whether some byte is acknowledged in a recording, up to its first fault.
pub fn has_byte(alloc: Global, recording: &[u8], input: TraceInput<'_>) -> Result<bool, NoMemory> {
    let said = read_input(alloc, recording, input)?;
    let edges = said.edges.as_slice();
    match place_read(edges, said.fault) {
        Some(_) => Ok(false),
        None => Ok(!oddities_of(edges).no_byte),
    }
}

/// From where on edges count: the moment of the first, 0 where there is none.
fn first_moment(edges: &[Edge]) -> u64
    ensures { result ≡ first_moment edges.now }
{
    match edges {
        [first, ..] => first.time,
        [] => 0,
    }
}

/// Says of a recording, lawful or not, how much later than at the start asked for its trace begins, and what is odd
/// about it. It is read as `check` reads it.
///
/// # Errors
///
/// [`NoMemory`] where memory was refused.
pub fn remark_on(
    alloc: Global,
    recording: &[u8],
    input: TraceInput<'_>,
) -> Result<Remarks, NoMemory>
    ensures { IfOk result (λ remarks. AreRemarks input.entry recording.now remarks) }
{
    let said = read_input(alloc, recording, input)?;
    let edges = said.edges.as_slice();
    let later = first_moment(edges);
    let oddities = odd_lines(alloc, input, edges, said.fault)?;
    Ok(Remarks { later, oddities })
}
