//! Receivers that take whole frames. Edge by edge they are in tests/c/example.c, by the library for C.

use crate::wire::example_trace::{EDGES, example, spelled};
use pr_receiver::{Input, Receiver};
use pr_wire::Edge;
use std::process::Abort;

/// Lets a receiver take an edge, which is lawful.
fn take(rt: &impl Abort, receiver: &mut Receiver, edge: Edge) -> Option<Input> {
    assert!(rt; receiver.taken() < 1000);
    receiver.edge(edge).expect(rt, "a lawful edge")
}

/// Receivers that take the same edges: one alone, and two at once.
#[derive(Drop)]
struct Receivers {
    alone: Receiver,
    four: Receiver,
    five: Receiver,
}

/// Lets the receivers take an edge, of which printer 5 hears nothing.
fn take_edge(rt: &impl Abort, receivers: &mut Receivers, edge: Edge) -> Option<Input> {
    let input = take(rt, &mut receivers.alone, edge);
    assert!(rt; take(rt, &mut receivers.four, edge) == input);
    assert!(rt; take(rt, &mut receivers.five, edge).is_none());
    input
}

/// Lets the receivers take the edges of a frame, this many, or else one edge.
fn pass(rt: &impl Abort, receivers: &mut Receivers, edges: &[Edge], count: usize) -> Option<Input> {
    let Receivers { alone, four, five } = receivers;
    assert!(rt; !edges.is_empty() && edges.len() < 1000 && alone.taken() < 1000);
    assert!(rt; four.taken() < 1000 && five.taken() < 1000);
    let passed = alone.pass_frame(edges);
    let both = five.pass_frame_with(four, edges);
    let is_well = passed.count == count && both.count == count;
    assert!(rt; is_well && both.input.is_none() && both.other == passed.input);
    if count == 0 {
        take_edge(rt, receivers, edges[0])
    } else {
        passed.input
    }
}

/// How many edges are passed at once, one after the other; where there are none, one edge is taken.
static COUNTS: [usize; 13] = [0, 0, 0, 20, 0, 20, 20, 22, 0, 20, 0, 0, 0];

/// Those, for a caller whose proof does not read them.
fn counts() -> &'static [usize] {
    &COUNTS
}

/// Lets the receivers pass the edges of the example trace, whose inputs come one after the other, and returns how many came.
fn passes(rt: &impl Abort, receivers: &mut Receivers, edges: &[Edge]) -> usize {
    let (mut at, mut heard) = (0usize, 0usize);
    for &count in counts() {
        assert!(rt; at < edges.len());
        if let Some(input) = pass(rt, receivers, &edges[at..], count) {
            assert!(rt; spelled().1.get(heard) == Some(&input));
            heard = heard.saturating_add(1);
        }
        at = at.saturating_add(count.max(1));
    }
    heard
}

/// Whole frames are taken at once, those of commands too, and two edges more where end-or-identify
/// is answered; the inputs are those that come edge by edge. Two receivers take the same frames at
/// once, and each gives its own inputs.
#[test]
fn frames_are_taken_whole(rt: HostRuntime) {
    let mut receivers = Receivers {
        alone: Receiver::new(4),
        four: Receiver::new(4),
        five: Receiver::new(5),
    };
    let heard = passes(&rt, &mut receivers, &example(&rt));
    let Receivers { alone, four, five } = receivers;
    let is_well = alone.taken() == EDGES && four.taken() == EDGES && five.taken() == EDGES;
    assert!(rt; is_well && heard == spelled().1.len());
}

/// A receiver that has not come so far keeps both from taking a frame.
#[test]
fn receiver_behind_takes_no_frame(rt: HostRuntime) {
    let edges = example(&rt);
    assert!(rt; edges.len() == EDGES);
    let (mut four, mut five) = (Receiver::new(4), Receiver::new(5));
    for edge in &edges[..3] {
        assert!(rt; take(&rt, &mut four, *edge).is_none());
    }
    assert!(rt; four.taken() < 1000 && five.taken() < 1000);
    let passed = four.pass_frame_with(&mut five, &edges[3..]);
    assert!(rt; passed.count == 0 && four.taken() == 3 && five.taken() == 0);
}
