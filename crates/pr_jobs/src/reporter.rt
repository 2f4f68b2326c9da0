//! The lines of a report on edges that come one by one.

ghost use Rattle.std.specs.Prelude.{◌≡◌, ◌+◌, ◌^◌, ◌<◌, ◌≤◌, ◌∷◌, ◌++◌, [], List, length, IfOk, OnOk};
ghost use Rattle.pr_wire.specs.declared.Edge.{Edge};
ghost use Rattle.pr_report.specs.declared.report.Report.{Report};
ghost use Rattle.pr_jobs.specs.Report.{refusal};
ghost use Rattle.pr_jobs.specs.Reported.{AddsLines, EndsReport, HasEnded, HasReported, ReportsMore, edges_taken, last_line};

use crate::fault::CliFault;
use crate::frame_text::push_frame;
use pr_report::{FrameTimer, Report, TimedFrame, frames_are_told, is_data, push_story_line};
use pr_wire::{Edge, WaveFault, lawful_traces};
use std::alloc::{AllocError, Global};

/// The lines of a report, and why the trace is refused, if it is.
#[derive(Drop)]
pub struct ReportText {
    /// The lines, each with its byte 10.
    pub lines: Vec<u8>,
    /// Why the trace is refused after these lines.
    pub refused: Option<CliFault>,
}

/// The lines of the frames that edges end, and the first fault of the edges.
#[derive(Drop)]
pub struct FrameReporter {
    report: Report,
    timer: FrameTimer,
    /// Whether the last frame is a data byte.
    behind_data: bool,
    fault: Option<WaveFault>,
    lines: Vec<u8>,
}

impl FrameReporter {
    /// A reporter that has taken no edge. It takes no memory.
    pub fn new(alloc: Global, report: Report) -> FrameReporter
        ensures reported { HasReported report [] result }
        ensures count { edges_taken result ≡ 0 }
    {
        FrameReporter {
            report,
            timer: FrameTimer::new(),
            behind_data: false,
            fault: None,
            lines: Vec::new(alloc),
        }
    }

    /// Adds the lines of a frame.
    fn push(&mut self, frame: TimedFrame) -> Result<(), AllocError>
        ensures { OnOk result (AddsLines frame self.old self.new) }
    {
        match self.report {
            Report::Frames => push_frame(&mut self.lines, frame.frame())?,
            Report::Story => push_story_line(&mut self.lines, self.behind_data, frame)?,
        }
        self.behind_data = is_data(frame.sending);
        Ok(())
    }

    /// Takes the next edge, and adds the lines of the frame that it ends. After a fault it takes no
    /// edge.
    pub fn take(&mut self, edge: Edge) -> Result<(), AllocError>
        requires few { edges_taken self.old + 1 < 2 ^ 64 }
        ensures reported { OnOk result (ReportsMore (edge ∷ []) self.old self.new) }
        ensures count { OnOk result (edges_taken self.new ≤ edges_taken self.old + 1) }
    {
        if self.fault.is_some() {
            return Ok(());
        }
        match self.timer.take(edge) {
            Ok(Some(frame)) => self.push(frame),
            Ok(None) => Ok(()),
            Err(fault) => {
                self.fault = Some(fault);
                Ok(())
            }
        }
    }

    /// Why the edges are no lawful trace, if they are none.
    fn edge_fault(&self) -> Option<WaveFault>
        ensures { HasEnded self.now result }
    {
        match self.fault {
            Some(fault) => Some(fault),
            None => self.timer.finish().err(),
        }
    }

    /// Ends the edges of an input with this fault, if it has one: where nothing is refused, `lawful`
    /// is after the lines of their frames.
    pub fn finish(self, own: Option<CliFault>) -> Result<ReportText, AllocError>
        ensures { IfOk result (λ text.
            (report : Report) (edges : List Edge) → HasReported report edges self → EndsReport report edges own text) }
    {
        frames_are_told();
        lawful_traces();
        let refused = refusal(own, self.edge_fault());
        let lines = with_last_line(self.lines, refused)?;
        Ok(ReportText { lines, refused })
    }
}

/// Why a trace is refused: by its input's fault, or else by that of its edges.
fn refusal(own: Option<CliFault>, fault: Option<WaveFault>) -> Option<CliFault>
    ensures { result ≡ refusal own fault }
{
    match (own, fault) {
        (Some(own), _) => Some(own),
        (None, Some(fault)) => Some(CliFault::Wave(fault)),
        (None, None) => None,
    }
}

/// Lines, and after them `lawful` where nothing is refused.
fn with_last_line(mut lines: Vec<u8>, refused: Option<CliFault>) -> Result<Vec<u8>, AllocError>
    ensures { IfOk result (λ v. v.items ≡ lines.items ++ last_line refused) }
{
    if refused.is_none() {
        lines.extend_from_slice(b"lawful\n")?;
    }
    Ok(lines)
}
