//! The limits of recordings, tried with small ones: the program's are 4,000,000,000 and 1,099,511,627,776 bytes.

use pr_capture::{InputFormat, Probes, Signals, TraceInput};
use pr_jobs::{CliFault, Watched};
use pr_recording::{
    PrinterPair, Wording, read_into, readings_are_heard_in_turn, tell_input,
    traces_are_heard_as_spelled,
};
use pr_report::{Bounds, Detail};

const TEXT: TraceInput<'_> = TraceInput {
    source: InputFormat::Text,
    signals: Signals {
        atn: b"ATN",
        clock: b"CLOCK",
        line: b"DATA",
        probes: Probes {
            atn: false,
            clock: false,
            line: false,
            threshold: None,
        },
    },
    start: 0,
    pulse: 0,
    rate: None,
};

/// Lines without intervals, by the profile.
const LINES: Wording = Wording::Lines(Detail {
    intervals: false,
    bounds: Bounds::Profile,
});

/// What is written for no byte.
const NOTHING: &str = "\
    frames: 0, commands: 0, data bytes: 0\nnot acknowledged: 0\nglitches: 0\nverdict: this project's timing\n\
    no byte is acknowledged\nattention never comes: ATN is not pulled\n\
    in a trace text the levels are those of ATN, CLOCK and DATA, and 1 is released\n";

#[test]
fn too_large(rt: HostRuntime) {
    let rows = [(5, Some(CliFault::TooLarge), ""), (6, None, NOTHING)];
    for (limit, wanted, written) in rows {
        let mut input = Watched::new(b"0 111\n".as_slice());
        let mut output = Watched::new(Vec::new(rt.alloc()));
        let answer = tell_input(
            rt.alloc(),
            &mut input,
            &mut output,
            TEXT,
            LINES,
            false,
            limit,
        )
        .err();
        let is_well = answer == wanted && output.into_inner().as_slice() == written.as_bytes();
        assert!(rt; is_well, "limit {limit}");
    }
}

#[test]
fn too_large_for_pages(rt: HostRuntime) {
    for (limit, wanted) in [(5, Some(CliFault::TooLarge)), (6, None)] {
        let mut input = Watched::new(b"0 111\n".as_slice());
        let mut printers = PrinterPair::new(rt.alloc());
        let answer = read_into(rt.alloc(), &mut input, TEXT, limit, &mut printers).err();
        assert!(rt; answer == wanted, "limit {limit}");
    }
}

/// The laws.
#[test]
fn laws(_rt: HostRuntime) {
    readings_are_heard_in_turn();
    traces_are_heard_as_spelled();
}
