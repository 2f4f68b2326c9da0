//! Each growth of memory refused in turn, by `tests/rows/growths`. Each function says whether its call is refused
//! memory; if not, the call gives what it gives with ample memory.

use crate::readings::{LISTED, SLOW};
use crate::tables::NAMES;
use crate::written_dumps::HEAD;
use crate::{dumps, surveys, tables};
use pr_capture::{CaptureFault, write_vcd};
use pr_refusals::most_refusals;
use pr_report::{Context, push_reading};
use pr_wire::{Edge, Levels};
use std::process::Abort;

/// An edge of these levels.
fn edge(time: u64, atn: bool, clock: bool, line: bool) -> Edge {
    Edge {
        time,
        levels: Levels { atn, clock, line },
    }
}

fn is_refused_to_write(rt: &(impl Abort + AllocGlobal)) -> bool {
    let edges = [
        edge(0, true, true, true),
        edge(100, false, false, true),
        edge(200, false, false, false),
        edge(1100, false, true, false),
        edge(1150, false, true, true),
        edge(1190, false, false, false),
    ];
    let Ok(text) = write_vcd(rt.alloc(), &edges) else {
        return true;
    };
    let end = "#1100\n1C\n#1150\n1D\n#1190\n0C\n0D\n#2190\n";
    let is_whole = text.as_slice().starts_with(HEAD.as_bytes())
        && text.as_slice().ends_with(end.as_bytes());
    assert!(rt; is_whole);
    false
}

/// The same of what a reader answers.
fn is_refused_trace(rt: &impl Abort, given: Result<Vec<u8>, CaptureFault>, wanted: &str) -> bool {
    let (is_refused, is_right) = match given {
        Ok(trace) => (false, trace.as_slice() == wanted.as_bytes()),
        Err(fault) => (true, fault == CaptureFault::NoMemory),
    };
    assert!(rt; is_right, "{wanted}");
    is_refused
}

const DUMP: &[u8] =
    b"$timescale 1 us $end $var wire 1 ! ATN $end $var wire 1 \" CLK $end\n$var wire 1 # DATA $end $enddefinitions $end #5 1! 1\" 1#\n#105 0! b0 \"\n";

fn is_refused_to_read_a_dump(rt: &(impl Abort + AllocGlobal)) -> bool {
    let given = dumps::read(rt.alloc(), NAMES, DUMP, 20);
    is_refused_trace(rt, given, "5 111\n105 001\n")
}

const TABLE: &[u8] = b"t,ATN,CLOCK,DATA\n0,1,1,1\n1,0,0,1\n";

fn is_refused_to_read_a_table(rt: &(impl Abort + AllocGlobal)) -> bool {
    let given = tables::read(rt.alloc(), NAMES, TABLE, 20);
    is_refused_trace(rt, given, "0 111\n1000000 001\n")
}

fn is_refused_to_tell(rt: &(impl Abort + AllocGlobal)) -> bool {
    let mut text = Vec::new(rt.alloc());
    if push_reading(&mut text, Context::new(), &SLOW, LISTED).is_err() {
        return true;
    }
    let end = b"    ready 24310 us, the profile has 1 to 10000\n";
    assert!(rt; text.as_slice().ends_with(end));
    false
}

fn is_refused_to_survey(rt: &(impl Abort + AllocGlobal)) -> bool {
    let Ok(text) = surveys::summary(rt.alloc(), &[], true) else {
        return true;
    };
    let end =
        b"acknowledgement: none\nframes: 0, commands: 0, data bytes: 0\nnot acknowledged: 0\nglitches: 0\n";
    assert!(rt; text.as_slice().ends_with(end));
    false
}

/// Which of the calls are refused.
fn refused(rt: &(impl Abort + AllocGlobal)) -> [bool; 5] {
    [
        is_refused_to_write(rt),
        is_refused_to_read_a_dump(rt),
        is_refused_to_read_a_table(rt),
        is_refused_to_tell(rt),
        is_refused_to_survey(rt),
    ]
}

/// The script that refuses each allocation in turn refuses one call at most, and the same call again answers
/// as usual. With no growth refused no call is.
#[test]
fn each_growth_refused(rt: HostRuntime) {
    let (first, second) = (refused(&rt), refused(&rt));
    let may_be_refused = most_refusals(&rt) > 0;
    for call in 0..5 {
        let (once, again) = (first[call], second[call]);
        assert!(rt;
            !(once && again) && (may_be_refused || !(once || again)),
            "call {call}"
        );
    }
}
