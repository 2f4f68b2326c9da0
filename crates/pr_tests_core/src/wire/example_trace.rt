//! What the tests of the example trace share.

use pr_receiver::Input;
use pr_wire::example::TRACE_TEXT;
use pr_wire::{Edge, read_trace};
use std::process::Abort;

/// How many edges the example trace has.
pub const EDGES: usize = 110;

/// The bytes of the frames that the example trace spells, each with its last edge.
static FRAMES: [(usize, u8); 5] = [(22, 36), (43, 72), (63, 73), (85, 13), (106, 63)];

/// The inputs that the example trace gives the device that it addresses.
static INPUTS: [Input; 4] = [
    Input::Select(false),
    Input::Byte(72),
    Input::Byte(73),
    Input::Byte(13),
];

/// Those frames and inputs, for callers whose proofs do not read them.
pub fn spelled() -> (&'static [(usize, u8)], &'static [Input]) {
    (&FRAMES, &INPUTS)
}

/// The edges of the example trace.
pub fn example(rt: &(impl Abort + AllocGlobal)) -> Vec<Edge> {
    let edges = read_trace(rt.alloc(), TRACE_TEXT.as_bytes()).expect(rt, "a trace");
    assert!(rt; edges.len() == EDGES);
    edges
}
