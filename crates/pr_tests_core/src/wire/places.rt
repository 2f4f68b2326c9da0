//! Places, asked edge by edge.

use crate::wire::example_trace::{example, spelled};
use pr_wire::{BusState, Edge, EdgeError, Frame, Levels, WaveFault};

/// An edge to these levels.
const fn edge(time: u64, atn: bool, clock: bool, line: bool) -> Edge {
    Edge {
        time,
        levels: Levels { atn, clock, line },
    }
}

/// Calls a printer that does not answer, and then pulls DATA. Gives the frame of the call, whether a
/// trace may end after the call and after its end, and the fault of the last edge.
fn unanswered_call() -> Result<(Option<Frame>, bool, bool, Option<WaveFault>), EdgeError> {
    let called = edge(100, false, false, true);
    let released = edge(1100, true, true, true);
    let pulled = edge(1101, true, true, false);
    let call = BusState::Idle(0).after(edge(0, true, true, true), called)?;
    let idle = call.place.after(called, released)?;
    let flaw = idle.place.after(released, pulled).err();
    Ok((
        call.frame,
        call.place.may_end(),
        idle.place.may_end(),
        flaw.map(|flaw| flaw.at(3)),
    ))
}

#[test]
fn steps_of_an_unanswered_call(rt: HostRuntime) {
    let wanted = (None, false, true, Some(WaveFault::Shape(3)));
    assert!(rt; unanswered_call() == Ok(wanted));
    assert!(rt; edge(0, true, true, true).is_start() && !edge(100, false, false, true).is_start());
}

/// A place goes on edge by edge, and gives each frame with the edge that acknowledges it.
#[test]
fn a_place_advances_over_the_example_trace(rt: HostRuntime) {
    let edges = example(&rt);
    let mut place = BusState::Idle(0);
    let mut frames: usize = 0;
    for i in 1..edges.len() {
        let Ok(frame) = place.advance(edges[i - 1], edges[i]) else {
            panic!(rt; "a lawful edge");
        };
        if let Some(frame) = frame {
            assert!(rt; spelled().0.get(frames) == Some(&(i, frame.byte)));
            frames = frames.saturating_add(1);
        }
    }
    assert!(rt; place.may_end() && frames == spelled().0.len());
}
