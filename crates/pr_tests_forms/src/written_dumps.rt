//! Value Change Dumps as they are written.

use pr_capture::{VcdWriter, push_vcd_head, write_vcd};
use pr_wire::read_trace;
use std::process::Abort;
use std::test::Fail;

/// What comes before the changes.
pub const HEAD: &str =
    "$timescale 1 us $end\n$scope module bus $end\n$var wire 1 A ATN $end\n$var wire 1 C CLOCK $end\n$var wire 1 D DATA $end\n$upscope $end\n$enddefinitions $end\n";

/// The edges of a trace text are written so, after the head.
fn is_written(rt: &(impl Abort + AllocGlobal), trace: &str, changes: &str) -> Result<(), Fail> {
    let edges = read_trace(rt.alloc(), trace.as_bytes())?;
    let text = write_vcd(rt.alloc(), edges.as_slice())?;
    let mut wanted = String::new(rt.alloc());
    wanted.push_str(HEAD)?;
    wanted.push_str(changes)?;
    assert!(rt; text.as_slice() == wanted.as_bytes(), "{trace}");
    Ok(())
}

/// The changes of `0 111`, `100 001` and `200 000`.
const THREE_EDGES: &str = "#0\n1A\n1C\n1D\n#100\n0A\n0C\n#200\n0D\n#1200\n";

/// Edges, and what is written of them after the head: one time stamp an edge, and one after the last. The
/// first edge has all three levels, each later one those that it changes, if any.
const ROWS: [(&str, &str); 6] = [
    ("", ""),
    ("0 111\n", "#0\n1A\n1C\n1D\n#1000\n"),
    ("0 111\n100 001\n200 000\n", THREE_EDGES),
    (
        "18446744073709551615 000\n",
        "#18446744073709551615\n0A\n0C\n0D\n#18446744073709552615\n",
    ),
    (
        "7 010\n8 110\n9 100\n10 101\n11 010\n",
        "#7\n0A\n1C\n0D\n#8\n1A\n#9\n0C\n#10\n1D\n#11\n0A\n1C\n0D\n#1011\n",
    ),
    (
        "5 111\n5 111\n4 110\n",
        "#5\n1A\n1C\n1D\n#5\n#4\n0D\n#1004\n",
    ),
];

#[test]
fn edges_are_written(rt: HostRuntime) -> Result<(), Fail> {
    for &(trace, changes) in &ROWS {
        is_written(&rt, trace, changes)?;
    }
    Ok(())
}

/// Edges in parts, one of which is empty, are written as at once.
#[test]
fn parts_make_the_whole(rt: HostRuntime) -> Result<(), Fail> {
    const PARTS: [&str; 3] = ["0 111\n100 001\n", "", "200 000\n"];
    let mut writer = VcdWriter::new();
    let mut text = Vec::new(rt.alloc());
    push_vcd_head(&mut text)?;
    for part in PARTS {
        let edges = read_trace(rt.alloc(), part.as_bytes())?;
        writer.push_edges(&mut text, edges.as_slice())?;
    }
    writer.push_end(&mut text)?;
    let is_whole = text.len() == HEAD.len() + THREE_EDGES.len()
        && text.as_slice().starts_with(HEAD.as_bytes())
        && text.as_slice().ends_with(THREE_EDGES.as_bytes());
    assert!(rt; is_whole);
    Ok(())
}
