//! Worked samples, as trace texts.

use pr_capture::EdgeDetector;
use pr_wire::{Edge, NoMemory, read_trace, write_trace};
use std::alloc::Global;
use std::process::Abort;
use std::test::Fail;

/// The edges that samples make from this start.
pub fn edges_from(alloc: Global, start: u64, samples: &[Edge]) -> Result<Vec<Edge>, NoMemory> {
    let mut gatherer = EdgeDetector::new(start);
    let mut edges = Vec::new(alloc);
    for sample in samples {
        if let Some(edge) = gatherer.take(*sample) {
            edges.push(edge)?;
        }
    }
    if let Some(edge) = gatherer.finish() {
        edges.push(edge)?;
    }
    Ok(edges)
}

/// From this start these samples make these edges.
fn makes(
    rt: &(impl Abort + AllocGlobal),
    start: u64,
    samples: &str,
    wanted: &str,
) -> Result<(), Fail> {
    let taken = read_trace(rt.alloc(), samples.as_bytes())?;
    let edges = edges_from(rt.alloc(), start, taken.as_slice())?;
    let text = write_trace(rt.alloc(), edges.as_slice())?;
    assert!(rt;
        text.as_slice() == wanted.as_bytes(),
        "from {start}: {samples}"
    );
    Ok(())
}

/// Three samples, seen from several starts.
const THREE: &str = "2 010\n10 111\n20 001\n";

/// A start, samples, and their edges. The last sample of a moment counts, and one that says nothing new
/// makes no edge. Moments are counted from the start, and samples before it count as if they were at the start.
const ROWS: [(u64, &str, &str); 10] = [
    (0, "", ""),
    (0, "0 111\n", "0 111\n"),
    (0, "0 111\n5 011\n5 001\n", "0 111\n5 001\n"),
    (0, "0 111\n5 111\n9 101\n", "0 111\n9 101\n"),
    (
        0,
        "3 000\n3 111\n5 011\n5 111\n6 110\n6 101\n6 011\n7 011\n",
        "3 111\n6 011\n",
    ),
    (2, THREE, "0 010\n8 111\n18 001\n"),
    (9, THREE, "0 010\n1 111\n11 001\n"),
    (10, THREE, "0 111\n10 001\n"),
    (15, THREE, "0 111\n5 001\n"),
    (1000, THREE, "0 001\n"),
];

#[test]
fn samples_make_edges(rt: HostRuntime) -> Result<(), Fail> {
    for &(start, samples, wanted) in &ROWS {
        makes(&rt, start, samples, wanted)?;
    }
    Ok(())
}
