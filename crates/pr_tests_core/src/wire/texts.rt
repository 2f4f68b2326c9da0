//! Trace texts, whole and in blocks (profile).

use pr_wire::TraceFault::{self, BadLine};
use pr_wire::example::TRACE_TEXT;
use pr_wire::{Edge, TraceReader, read_trace, write_trace};
use std::process::Abort;

/// How many bytes of a text come at once.
static BLOCKS: [usize; 10] = [1, 2, 3, 5, 6, 7, 13, 64, 1000, 10000];

/// A text, the edges of its lines up to the first bad one, as they are written, and the fault of that one.
type Row = (&'static str, &'static str, Option<TraceFault>);

/// accepted_texts, and texts_up_to_their_first_bad_line.
static TEXTS: [Row; 29] = [
    ("", "", None),
    ("0 111", "0 111\n", None),
    ("0 111\r", "0 111\n", None),
    ("0 111\r\n007 001\r\n", "0 111\n7 001\n", None),
    ("0 111\r\n100 001\r\n", "0 111\n100 001\n", None),
    (
        "000000000000000000000000005 010\n4 101\n",
        "5 010\n4 101\n",
        None,
    ),
    (
        "18446744073709551615 000",
        "18446744073709551615 000\n",
        None,
    ),
    (
        "999 100\n1000 100\n1999 100\n",
        "999 100\n1000 100\n1999 100\n",
        None,
    ),
    ("9 111\n9 111\n0 111", "9 111\n9 111\n0 111\n", None),
    (TRACE_TEXT, TRACE_TEXT, None),
    // Texts with a bad line.
    ("0 121", "", Some(BadLine(1))),
    ("\n", "", Some(BadLine(1))),
    ("\r", "", Some(BadLine(1))),
    ("0 111\n\n", "0 111\n", Some(BadLine(2))),
    ("0 111\r\r\n", "", Some(BadLine(1))),
    ("0 111\rX", "", Some(BadLine(1))),
    ("0 111\n1 001 ", "0 111\n", Some(BadLine(2))),
    ("0 111\n 1 001", "0 111\n", Some(BadLine(2))),
    (
        "0 111\n18446744073709551616 001",
        "0 111\n",
        Some(BadLine(2)),
    ),
    (
        "0 111\n99999999999999999999999 001",
        "0 111\n",
        Some(BadLine(2)),
    ),
    (" 111", "", Some(BadLine(1))),
    ("0 11", "", Some(BadLine(1))),
    ("0  111", "", Some(BadLine(1))),
    ("0 1111", "", Some(BadLine(1))),
    ("0 111\n1 001\n-2 111\n", "0 111\n1 001\n", Some(BadLine(3))),
    ("0 111\n\n100 001\n", "0 111\n", Some(BadLine(2))),
    (
        "0 111\n100 001\n0 121\n200 000\n",
        "0 111\n100 001\n",
        Some(BadLine(3)),
    ),
    ("0 111\n100 00", "0 111\n", Some(BadLine(2))),
    (
        "0 111\n18446744073709551615 001\n18446744073709551616 001\n",
        "0 111\n18446744073709551615 001\n",
        Some(BadLine(3)),
    ),
];

/// Keeps the edge, if there is one.
fn keep(edges: &mut Vec<Edge>, edge: Option<Edge>) -> Result<(), TraceFault> {
    if let Some(edge) = edge {
        edges.push(edge)?;
    }
    Ok(())
}

/// Reads a text that comes in blocks of this many bytes, and keeps its edges.
fn read_blocks(
    rt: &impl Abort,
    text: &[u8],
    most: usize,
    edges: &mut Vec<Edge>,
) -> Result<(), TraceFault> {
    assert!(rt; most > 0 && text.len() < 10000);
    let mut reader = TraceReader::new();
    let mut rest = text;
    while !rest.is_empty() {
        let (len, edge) = reader.take_front(&rest[..most.min(rest.len())])?;
        keep(edges, edge)?;
        rest = &rest[len..];
    }
    keep(edges, reader.finish()?)
}

/// Whether these edges are written so.
fn are_written(rt: &(impl Abort + AllocGlobal), edges: &[Edge], written: &str) -> bool {
    let text = write_trace(rt.alloc(), edges).expect(rt, "memory");
    text.as_slice() == written.as_bytes()
}

/// Whether a text that is read whole is as its row says.
fn is_read(rt: &(impl Abort + AllocGlobal), row: &Row) -> bool {
    match read_trace(rt.alloc(), row.0.as_bytes()) {
        Ok(edges) => row.2.is_none() && are_written(rt, &edges, row.1),
        Err(fault) => row.2 == Some(fault),
    }
}

/// Whether it is, read in blocks of this many bytes.
fn is_read_by(rt: &(impl Abort + AllocGlobal), row: &Row, most: usize) -> bool {
    let mut edges = Vec::new(rt.alloc());
    let fault = read_blocks(rt, row.0.as_bytes(), most, &mut edges).err();
    fault == row.2 && are_written(rt, &edges, row.1)
}

/// Those rows and sizes, for callers whose proofs do not read them.
fn texts() -> (&'static [Row], &'static [usize]) {
    (&TEXTS, &BLOCKS)
}

/// Reads a text whole, and in blocks of each size.
fn read(rt: &(impl Abort + AllocGlobal), row: &Row) {
    assert!(rt; is_read(rt, row), "{}", row.0);
    for &most in texts().1 {
        assert!(rt; is_read_by(rt, row, most), "{} by {most}", row.0);
    }
}

#[test]
fn texts_whole_and_in_blocks(rt: HostRuntime) {
    for row in texts().0 {
        read(&rt, row);
    }
}
