//! The lines of a report on the edges of an input.

ghost use Rattle.std.specs.Prelude.{◌≡◌, ◌+◌, ◌^◌, ◌<◌, ◌≤◌, ◌∷◌, [], List, length, IfOk, OnOk};
ghost use Rattle.pr_wire.specs.declared.Edge.{Edge};
ghost use Rattle.pr_capture.specs.declared.format.InputFormat.{InputFormat};
ghost use Rattle.pr_report.specs.declared.report.Report.{Report};
ghost use Rattle.pr_jobs.specs.Report.{edges_checked};
ghost use Rattle.pr_jobs.specs.Reported.{CountsMore, EndsReport, HasCounted, edges_counted};

use crate::beginning::Beginning;
use crate::fault::CliFault;
use crate::reporter::{FrameReporter, ReportText};
use pr_capture::InputFormat;
use pr_report::Report;
use pr_wire::Edge;
use std::alloc::{AllocError, Global};

/// The lines of the frames of an input, whose edges it counts from where its trace begins.
#[derive(Drop)]
pub struct TraceReporter {
    beginning: Beginning,
    frames: FrameReporter,
}

impl TraceReporter {
    /// A reporter that has taken no edge of an input in this format. It takes no memory.
    pub fn new(alloc: Global, source: InputFormat, report: Report) -> TraceReporter
        ensures counted { HasCounted source report [] result }
        ensures count { edges_counted result ≡ 0 }
    {
        TraceReporter {
            beginning: Beginning::new(source),
            frames: FrameReporter::new(alloc, report),
        }
    }

    /// Takes the next edge.
    fn take(&mut self, edge: Edge) -> Result<(), AllocError>
        requires few { edges_counted self.old + 1 < 2 ^ 64 }
        ensures counted { OnOk result (CountsMore (edge ∷ []) self.old self.new) }
        ensures count { OnOk result (edges_counted self.new ≤ edges_counted self.old + 1) }
    {
        let counted = self.beginning.count(edge);
        self.frames.take(counted)
    }

    /// Takes the next edges, in order.
    pub fn take_all(&mut self, edges: &[Edge]) -> Result<(), AllocError>
        requires few { edges_counted self.old + length edges.now < 2 ^ 64 }
        ensures counted { OnOk result (CountsMore edges.now self.old self.new) }
        ensures count { OnOk result (edges_counted self.new ≤ edges_counted self.old + length edges.now) }
    {
        for edge in edges {
            self.take(*edge)?;
        }
        Ok(())
    }

    /// Ends the edges of an input with this fault, if it has one, as [`FrameReporter::finish`] does.
    pub fn finish(self, own: Option<CliFault>) -> Result<ReportText, AllocError>
        ensures { IfOk result (λ text. (source : InputFormat) (report : Report) (edges : List Edge) →
            HasCounted source report edges self → EndsReport report (edges_checked source edges) own text) }
    {
        self.frames.finish(own)
    }
}
