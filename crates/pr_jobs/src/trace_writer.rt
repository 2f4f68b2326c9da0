//! Writing a trace in a format, edges after edges.

ghost use Rattle.std.specs.Prelude.{◌≡◌, None, IfOk, OnOk};
ghost use Rattle.pr_jobs.specs.Traced.{edges_in, end_in, format_of, head_in, last_in, last_of};

use pr_capture::{OutputFormat, VcdWriter, push_vcd_head};
use pr_wire::{Edge, NoMemory, write_trace};
use std::alloc::Global;

/// Makes the text of a trace in a format, edges after edges.
#[derive(Drop)]
pub enum TraceWriter {
    Text,
    Vcd(VcdWriter),
}

/// What comes before the edges; nothing in a trace text. It is not empty where there is something.
pub fn trace_head(alloc: Global, format: OutputFormat) -> Result<Vec<u8>, NoMemory>
    ensures { IfOk result (λ text. text.items ≡ head_in format) }
{
    let mut text = Vec::new(alloc);
    if format == OutputFormat::Vcd {
        push_vcd_head(&mut text)?;
    }
    Ok(text)
}

impl TraceWriter {
    /// A writer that has written no edge. It takes no memory.
    pub fn new(format: OutputFormat) -> TraceWriter
        ensures format { format_of result ≡ format }
        ensures last { last_of result ≡ None }
    {
        match format {
            OutputFormat::Text => TraceWriter::Text,
            OutputFormat::Vcd => TraceWriter::Vcd(VcdWriter::new()),
        }
    }

    /// The text of edges after those before.
    pub fn edges(&mut self, alloc: Global, edges: &[Edge]) -> Result<Vec<u8>, NoMemory>
        ensures text { IfOk result (λ text. text.items ≡ edges_in (format_of self.old) (last_of self.old) edges.now) }
        ensures format { OnOk result (format_of self.new ≡ format_of self.old) }
        ensures last { OnOk result (last_of self.new ≡ last_in (format_of self.old) (last_of self.old) edges.now) }
    {
        match self {
            TraceWriter::Text => write_trace(alloc, edges),
            TraceWriter::Vcd(writer) => {
                let mut text = Vec::new(alloc);
                writer.push_edges(&mut text, edges)?;
                Ok(text)
            }
        }
    }

    /// What follows the last edge; nothing in a trace text.
    pub fn end(self, alloc: Global) -> Result<Vec<u8>, NoMemory>
        ensures { IfOk result (λ text. text.items ≡ end_in (format_of self) (last_of self)) }
    {
        let mut text = Vec::new(alloc);
        match self {
            TraceWriter::Text => {}
            TraceWriter::Vcd(writer) => writer.push_end(&mut text)?,
        }
        Ok(text)
    }
}
