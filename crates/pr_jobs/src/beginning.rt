//! Where the trace of an input begins.

ghost use Rattle.pr_jobs.specs.Begun.{CountsOn, HasBegun, KeepsTimes};
ghost use Rattle.std.specs.Prelude.{◌≡◌, [], true};

use pr_capture::InputFormat;
use pr_wire::Edge;

/// Counts the edges of an input as `check` does: those of a trace text as they are, those of a recording
/// from its first edge on, at which the three levels are first known.
#[derive(Clone, Copy)]
pub struct Beginning {
    /// From which moment edges count, once it is known; a trace text's is 0.
    moment: Option<u64>,
}

impl Beginning {
    /// No edge has come of an input in this format.
    pub fn new(source: InputFormat) -> Beginning
        ensures { HasBegun source [] result }
    {
        let moment = match source {
            InputFormat::Text => Some(0),
            InputFormat::Vcd | InputFormat::Csv => None,
        };
        Beginning { moment }
    }

    /// Counts the next edge.
    pub fn count(&mut self, edge: Edge) -> Edge
        ensures { CountsOn edge result self.old self.new }
    {
        let moment = self.moment.unwrap_or(edge.time);
        self.moment = Some(moment);
        Edge {
            time: edge.time.saturating_sub(moment),
            levels: edge.levels,
        }
    }
    /// Whether the edges that follow count with the times that they have. It is known once an edge has come, and of
    /// a trace text from the start.
    pub fn keeps_times(&self) -> bool
        ensures { result ≡ true → KeepsTimes self.now }
    {
        self.moment == Some(0)
    }
}
