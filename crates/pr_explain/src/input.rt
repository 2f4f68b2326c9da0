//! Reading a trace whole, in any format.

ghost use Rattle.std.specs.Prelude.{◌≡◌, IfOk, IfSome};
ghost use Rattle.pr_jobs.specs.Report.{Says, IsOwnFault, edges_checked};

use pr_capture::{InputFormat, TraceInput};
use pr_jobs::{Beginning, EdgeReader, LastEdges};
use pr_wire::{Edge, NoMemory};
use std::alloc::Global;

/// Reads an input to its end, or to its first fault: the edges that it says up to there, and that
/// fault, if it has one.
pub fn read_input(alloc: Global, bytes: &[u8], input: TraceInput<'_>) -> Result<LastEdges, NoMemory>
    ensures says { IfOk result (λ said. Says input.entry bytes.now said.edges.items said.fault) }
    ensures own { IfOk result (λ said. IfSome said.fault IsOwnFault) }
{
    let mut reader = EdgeReader::new(alloc, input);
    let _goes_on = reader.take_block(bytes)?;
    Ok(reader.finish()?)
}

/// The edges of an input, counted from where its trace begins, as `check` counts them.
pub fn counted(alloc: Global, source: InputFormat, edges: &[Edge]) -> Result<Vec<Edge>, NoMemory>
    ensures { IfOk result (λ counted. counted.items ≡ edges_checked source edges.now) }
{
    let mut beginning = Beginning::new(source);
    let mut counted = Vec::new(alloc);
    for edge in edges {
        let next = beginning.count(*edge);
        counted.push(next)?;
    }
    Ok(counted)
}
