//! The places of explanations, for callers in Rust. Their texts are in tests/c/exports.c and, without memory, in
//! tests/c/refused.c; the lines that the program prints are in tests/rows/explained.

use pr_basic::StatusMode;
use pr_capture::{InputFormat, Probes, Signals, TraceInput};
use pr_channels::Stop;
use pr_explain::{
    EdgePlace, Miss, ReadingPlace, Row, ScriptPlace, StopCause, StopPlace, TracePlace,
    explain_reading, explain_script, explain_stop, explain_trace,
};
use pr_serial::Present;
use pr_wire::{Levels, WaveFault};
use std::alloc::Global;

/// A trace text. In another format its signals have the usual names.
const TEXT: TraceInput<'static> = TraceInput {
    source: InputFormat::Text,
    signals: Signals {
        atn: b"ATN",
        clock: b"CLOCK",
        line: b"DATA",
        probes: Probes {
            atn: false,
            clock: false,
            line: false,
            threshold: None,
        },
    },
    start: 0,
    pulse: 0,
    rate: None,
};

const BOTH: Present = Present {
    four: true,
    five: true,
};

const ONLY_FOUR: Present = Present {
    four: true,
    five: false,
};

const NONE: Present = Present {
    four: false,
    five: false,
};

/// A present printer answers each LISTEN, so it is the byte held back that nobody answers.
const HELD_BACK: &str =
    "OPEN 4,4,7:OPEN 5,5:OPEN 9,9\nCMD 4:CLOSE 4:PRINT \"X\"\nPRINT#5,\"Y\"\nCMD 9\nPRINT#9\nPRINT#3\n";

/// What is explained, and the place that its explanation has.
enum Explained {
    /// A trace text, as a recording that is read to its end.
    Reading(&'static str, Option<ReadingPlace>),
    /// A script.
    Script(&'static str, Option<ScriptPlace>),
    /// DEVICE NOT PRESENT at this statement of [`HELD_BACK`], with these printers.
    Stop(usize, Present, Option<StopPlace>),
}

/// The edges that may come first: all lines are released at 0.
const AT_START: [Option<Row>; 3] = [
    Some(Row {
        levels: Levels {
            atn: true,
            clock: true,
            line: true,
        },
        earliest: 0,
        latest: Some(0),
    }),
    None,
    None,
];

/// The edges that may follow these: ATN and CLOCK are pulled.
const AFTER_START: [Option<Row>; 3] = [
    Some(Row {
        levels: Levels {
            atn: false,
            clock: false,
            line: true,
        },
        earliest: 100,
        latest: None,
    }),
    None,
    None,
];

/// The edges that may follow a call at 100.
const AFTER_CALL: [Option<Row>; 3] = [
    Some(Row {
        levels: Levels {
            atn: false,
            clock: false,
            line: false,
        },
        earliest: 101,
        latest: Some(1100),
    }),
    Some(Row {
        levels: Levels {
            atn: false,
            clock: true,
            line: false,
        },
        earliest: 1100,
        latest: Some(1100),
    }),
    Some(Row {
        levels: Levels {
            atn: true,
            clock: true,
            line: true,
        },
        earliest: 1100,
        latest: Some(2100),
    }),
];

/// The place of the first byte that the printers of a run do not hear.
const UNHEARD: StopPlace = StopPlace {
    statement: 7,
    line: 3,
    basic_line: None,
    device: Some(5),
    cause: StopCause::Unheard { is_absent: false },
};

static PLACES: [(&str, Explained); 11] = [
    (
        "places_of_recordings, none",
        Explained::Reading("0 111\n0 001\n9 001\n", None),
    ),
    (
        "places_of_recordings, an edge",
        Explained::Reading("5 111\n6 001\n4 001\n?", Some(ReadingPlace::Edge(2))),
    ),
    (
        "places_of_recordings, a line",
        Explained::Reading("0 111\n4 001\n?\n", Some(ReadingPlace::Line(3))),
    ),
    (
        "places_of_scripts, none",
        Explained::Script("10 OPEN 4,4\r\n20 PRINT#4,\"A\";CHR$(65)\n", None),
    ),
    (
        "places_of_scripts, a number",
        Explained::Script(
            "OPEN 4,4\nPRINT#4,CHR$(256)\n",
            Some(ScriptPlace {
                line: 2,
                column: 14,
                basic_line: None,
            }),
        ),
    ),
    (
        "places_of_scripts, a plus",
        Explained::Script(
            "20 PRINT+",
            Some(ScriptPlace {
                line: 1,
                column: 9,
                basic_line: Some(20),
            }),
        ),
    ),
    (
        "places_of_stops, no printer",
        Explained::Stop(
            7,
            NONE,
            Some(StopPlace {
                cause: StopCause::NoPrinter,
                ..UNHEARD
            }),
        ),
    ),
    (
        "places_of_stops, both printers",
        Explained::Stop(7, BOTH, Some(UNHEARD)),
    ),
    (
        "places_of_stops, printer 4",
        Explained::Stop(
            7,
            ONLY_FOUR,
            Some(StopPlace {
                cause: StopCause::Unheard { is_absent: true },
                ..UNHEARD
            }),
        ),
    ),
    (
        "places_of_stops, statement 0",
        Explained::Stop(0, NONE, None),
    ),
    (
        "places_of_stops, statement 11",
        Explained::Stop(11, BOTH, None),
    ),
];

/// Those, for a caller whose proof does not read them.
fn places() -> &'static [(&'static str, Explained)] {
    &PLACES
}

/// Whether an explanation has its place.
fn has_place(alloc: Global, explained: &Explained) -> bool {
    match explained {
        Explained::Reading(text, place) => {
            match explain_reading(alloc, text.as_bytes(), TEXT) {
                Ok(told) => told.place == *place,
                Err(_refused) => false,
            }
        }
        Explained::Script(text, place) => match explain_script(alloc, text.as_bytes()) {
            Ok(told) => told.place == *place,
            Err(_refused) => false,
        },
        Explained::Stop(statement, present, place) => {
            let (script, stop) = (HELD_BACK.as_bytes(), Stop::DeviceNotPresent);
            let mode = StatusMode::Each;
            match explain_stop(alloc, script, mode, stop, *statement, *present) {
                Ok(told) => told.place == *place,
                Err(_refused) => false,
            }
        }
    }
}

#[test]
fn places_of_explanations(rt: HostRuntime) {
    for (name, explained) in places() {
        assert!(&rt; has_place(rt.alloc(), explained), "{name}");
    }
}

/// Whether a trace text is refused at this line, and at this edge.
fn stops_at(alloc: Global, text: &str, line: Option<usize>, edge: EdgePlace) -> bool {
    let place = TracePlace {
        line,
        edge: Some(edge),
    };
    match explain_trace(alloc, text.as_bytes(), TEXT) {
        Ok(told) => told.place == place,
        Err(_refused) => false,
    }
}

/// An edge is reported beside the line after it that cannot be read.
#[test]
fn places_of_traces(rt: HostRuntime) {
    let first = EdgePlace {
        index: 0,
        fault: WaveFault::Start(0),
        expected: AT_START,
        missed: None,
    };
    assert!(&rt; stops_at(rt.alloc(), "", None, first), "no_edge");
    let early = EdgePlace {
        index: 1,
        fault: WaveFault::TooEarly(1),
        expected: AFTER_START,
        missed: Some(Miss::Early(60)),
    };
    let is_well = stops_at(rt.alloc(), "0 111\n40 001\n?\n", Some(3), early);
    assert!(&rt; is_well, "edge_and_line");
    let late = EdgePlace {
        index: 2,
        fault: WaveFault::TooLate(2),
        expected: AFTER_CALL,
        missed: Some(Miss::Late(3)),
    };
    let is_well = stops_at(rt.alloc(), "0 111\n100 001\n1103 000\n", None, late);
    assert!(&rt; is_well, "edges_after_a_call, late");
    let cut = EdgePlace {
        index: 2,
        fault: WaveFault::Truncated(2),
        expected: AFTER_CALL,
        missed: None,
    };
    let is_well = stops_at(rt.alloc(), "0 111\n100 001\n", None, cut);
    assert!(&rt; is_well, "edges_after_a_call, cut");
}
