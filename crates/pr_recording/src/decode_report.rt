//! What is reported of edges that come one by one.

ghost use Rattle.std.specs.Prelude.{◌≡◌, ◌+◌, ◌*◌, ◌^◌, ◌<◌, ◌≤◌, [], List, ℕ, length, IfOk, OnOk};
ghost use Rattle.pr_wire.specs.declared.Edge.{Edge};
ghost use Rattle.pr_jobs.specs.Report.{refusal};
ghost use Rattle.pr_recording.specs.declared.wording.Wording.{Wording};
ghost use Rattle.pr_recording.specs.Narrated.{EndsEdges, GivesUp, HasNarrated, NarratesMore, lines_in, load};
ghost use Rattle.pr_recording.specs.Told.{refused_by};

use crate::judge::Judge;
use crate::reading_log::ReadingLog;
use crate::tape::Tape;
use crate::wording::Wording;
use pr_capture::{InputFormat, TraceInput};
use pr_jobs::CliFault;
use pr_report::Oddities;
use pr_wire::{Edge, WaveFault};
use std::alloc::{AllocError, Global};

/// The last of what is reported of a recording, and why it is refused, if it is.
#[derive(Drop)]
pub struct Ended {
    pub lines: Vec<u8>,
    /// What is odd about it, where nothing stops it.
    pub odd: Oddities,
    pub refused: Option<CliFault>,
}

/// Makes the lines of the edges of a recording, up to where time goes back, and judges all of them.
#[derive(Drop)]
pub struct DecodeReport {
    /// Whether the edges are a lawful trace.
    judge: Judge,
    tape: Tape,
    log: ReadingLog,
}

impl DecodeReport {
    /// A report that has taken no edge of an input in this format, and writes readings so.
    pub fn new(
        alloc: Global,
        source: InputFormat,
        wording: Wording,
    ) -> Result<DecodeReport, AllocError>
        ensures narrated { IfOk result (λ report. HasNarrated source wording [] [] report) }
        ensures load { IfOk result (λ report. load report ≡ 0) }
    {
        Ok(DecodeReport {
            judge: Judge::new(source),
            tape: Tape::new(),
            log: ReadingLog::new(alloc, wording)?,
        })
    }

    /// Takes the next edges, in order. After one at which time goes back it only judges them.
    pub fn take_all(&mut self, edges: &[Edge]) -> Result<(), AllocError>
        requires room { load self.old + 3 * length edges.now < 2 ^ 64 }
        ensures narrated { OnOk result (NarratesMore edges.now self.old self.new) }
        ensures load { OnOk result (load self.new ≤ load self.old + 3 * length edges.now) }
    {
        self.judge.take_all(edges);
        self.tape.take_all(edges, &mut self.log)?;
        Ok(())
    }

    /// The lines that are not written yet.
    pub fn lines(&self) -> &[u8]
        ensures { result.now ≡ lines_in self.now }
    {
        self.log.lines()
    }

    /// Gives up these lines, once they are written.
    pub fn clear(&mut self)
        ensures cleared { GivesUp self.old self.new }
        ensures load { load self.new ≡ load self.old }
    {
        self.log.clear();
    }

    /// Ends the edges of an input with this fault, if it has one. Where nothing stops them, what the end
    /// cuts, the summary, the verdict and what is odd are given. What is checked is refused unless it is lawful,
    /// anything else only where it stops.
    pub fn finish(
        mut self,
        trace: TraceInput<'_>,
        own: Option<CliFault>,
        is_checked: bool,
    ) -> Result<Ended, AllocError>
        requires room { load self + 3 < 2 ^ 64 }
        ensures { IfOk result (λ ended. (wording : Wording) (edges : List Edge) (written : List ℕ) →
            HasNarrated trace.entry.source wording edges written self →
            EndsEdges trace.entry wording is_checked edges written own ended) }
    {
        let fault = self.judge.finish();
        let end = self.tape.finish(own, &mut self.log)?;
        let odd = end.odd;
        let refused = refused_by(is_checked, end.stop, own, fault);
        if end.stop.is_some() {
            let lines = self.log.into_lines();
            return Ok(Ended {
                lines,
                odd,
                refused,
            });
        }
        let lines = self.log.finish(trace, fault, odd)?;
        Ok(Ended {
            lines,
            odd,
            refused,
        })
    }
}

/// Why a trace that is checked is refused: for the fault of its input, or else for that of its edges.
fn refusal(own: Option<CliFault>, fault: Option<WaveFault>) -> Option<CliFault>
    ensures { result ≡ refusal own fault }
{
    match (own, fault) {
        (Some(own), _) => Some(own),
        (None, Some(fault)) => Some(CliFault::Wave(fault)),
        (None, None) => None,
    }
}

/// Why a recording is refused: where it is checked, for the fault of its input or of its edges; else for why it stops.
fn refused_by(
    is_checked: bool,
    stop: Option<CliFault>,
    own: Option<CliFault>,
    fault: Option<WaveFault>,
) -> Option<CliFault>
    ensures { result ≡ refused_by is_checked stop own fault }
{
    if is_checked {
        refusal(own, fault)
    } else {
        stop
    }
}
