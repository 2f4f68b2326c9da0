//! Worked pulses of a line, as trace texts.

use pr_capture::PulseFilter;
use pr_wire::{Edge, NoMemory, read_trace, write_trace};
use std::alloc::Global;
use std::process::Abort;
use std::test::Fail;

/// Edges without pulses up to this length.
fn without_pulses(alloc: Global, limit: u64, edges: &[Edge]) -> Result<Vec<Edge>, NoMemory> {
    let mut filter = PulseFilter::new(alloc, limit);
    let mut kept = Vec::new(alloc);
    for edge in edges {
        if let Some(known) = filter.take(*edge)? {
            kept.push(known)?;
        }
    }
    filter.finish(&mut kept)?;
    Ok(kept)
}

/// These edges are the wanted ones without pulses up to this length.
fn leaves(
    rt: &(impl Abort + AllocGlobal),
    limit: u64,
    edges: &str,
    wanted: &str,
) -> Result<(), Fail> {
    let taken = read_trace(rt.alloc(), edges.as_bytes())?;
    let kept = without_pulses(rt.alloc(), limit, taken.as_slice())?;
    let text = write_trace(rt.alloc(), kept.as_slice())?;
    assert!(rt;
        text.as_slice() == wanted.as_bytes(),
        "up to {limit}: {edges}"
    );
    Ok(())
}

/// A length, edges, and those that are left. Of a line that bounces the last change counts, and the first edge keeps
/// its levels.
const ROWS: [(u64, &str, &str); 8] = [
    (1, "", ""),
    (1, "0 111\n100 110\n101 111\n", "0 111\n"),
    (1, "0 111\n100 110\n102 111\n", "0 111\n100 110\n102 111\n"),
    (2, "0 111\n100 110\n102 111\n", "0 111\n"),
    (1, "0 111\n99 110\n100 101\n", "0 111\n100 101\n"),
    (
        1,
        "0 111\n5 110\n6 111\n7 110\n20 111\n",
        "0 111\n7 110\n20 111\n",
    ),
    (2, "0 111\n10 110\n11 100\n12 101\n13 111\n", "0 111\n"),
    (5, "0 000\n1 111\n", "0 000\n1 111\n"),
];

#[test]
fn pulses_are_left_out(rt: HostRuntime) -> Result<(), Fail> {
    for &(limit, edges, wanted) in &ROWS {
        leaves(&rt, limit, edges, wanted)?;
    }
    Ok(())
}

/// Twenty changes of DATA, a microsecond apart, and then one of ATN: more edges than a filter holds back.
const BOUNCES: &str =
    "0 111\n1 110\n2 111\n3 110\n4 111\n5 110\n6 111\n7 110\n8 111\n9 110\n10 111\n11 110\n12 111\n\
    13 110\n14 111\n15 110\n16 111\n17 110\n18 111\n19 110\n20 111\n50 011\n";

#[test]
fn many_pulses_are_left_out(rt: HostRuntime) -> Result<(), Fail> {
    leaves(&rt, 1, BOUNCES, "0 111\n50 011\n")?;
    leaves(&rt, 0, BOUNCES, BOUNCES)
}
