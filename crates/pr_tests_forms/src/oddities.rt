//! What is odd about a recording.

use pr_capture::{InputFormat, Probes, Signals, TraceInput};
use pr_report::{LinesSeen, push_oddities};
use pr_wire::{Edge, Levels};
use std::process::Abort;

const RELEASED: Edge = Edge {
    time: 0,
    levels: Levels {
        atn: true,
        clock: true,
        line: true,
    },
};

const CALLED: Edge = Edge {
    time: 100,
    levels: Levels {
        atn: false,
        clock: false,
        line: true,
    },
};

/// An input in this format, whose levels are inverted or not.
fn input(source: InputFormat, is_inverted: bool) -> TraceInput<'static> {
    TraceInput {
        source,
        signals: Signals {
            atn: b"ATN",
            clock: b"CLOCK",
            line: b"DATA",
            probes: Probes::alike(is_inverted),
        },
        start: 0,
        pulse: 0,
        rate: None,
    }
}

/// The format of a recording, whether its levels are inverted, its edges, whether a byte was acknowledged in them, and
/// what is odd.
const ODD: [(InputFormat, bool, &[Edge], bool, &str); 8] = [
    (
        InputFormat::Csv,
        false,
        &[RELEASED, CALLED, RELEASED],
        true,
        "",
    ),
    (
        InputFormat::Csv,
        false,
        &[RELEASED, CALLED, RELEASED],
        false,
        "no byte is acknowledged\ntry --invert for probes behind inverters, or other signals with --names\n",
    ),
    (
        InputFormat::Vcd,
        false,
        &[RELEASED],
        true,
        "attention never comes: ATN is not pulled\nif the bytes make no sense, try --invert for probes behind inverters, or other signals with --names\n",
    ),
    (
        InputFormat::Csv,
        false,
        &[CALLED, RELEASED, CALLED],
        true,
        "ATN rests at 0\nCLOCK rests at 0\nif the bytes make no sense, try --invert for probes behind inverters, or other signals with --names\n",
    ),
    (
        InputFormat::Csv,
        false,
        &[CALLED, RELEASED, CALLED],
        false,
        "no byte is acknowledged\nATN rests at 0\nCLOCK rests at 0\ntry --invert for probes behind inverters, or other signals with --names\n",
    ),
    (
        InputFormat::Csv,
        true,
        &[RELEASED],
        false,
        "no byte is acknowledged\nattention never comes: ATN is not pulled\ntry without --invert, or other signals with --names\n",
    ),
    (
        InputFormat::Text,
        false,
        &[RELEASED, CALLED, RELEASED],
        false,
        "no byte is acknowledged\nin a trace text the levels are those of ATN, CLOCK and DATA, and 1 is released\n",
    ),
    (
        InputFormat::Text,
        false,
        &[RELEASED],
        true,
        "attention never comes: ATN is not pulled\nin a trace text the levels are those of ATN, CLOCK and DATA, and 1 is released\n",
    ),
];

#[test]
fn oddities_have_lines(rt: HostRuntime) {
    for &(source, is_inverted, edges, has_byte, lines) in &ODD {
        let mut seen = LinesSeen::new();
        for edge in edges {
            seen.take(*edge);
        }
        let mut text = Vec::new(rt.alloc());
        let pushed = push_oddities(
            &mut text,
            input(source, is_inverted),
            seen.oddities(has_byte),
        );
        assert!(rt;
            pushed.is_ok() && text.as_slice() == lines.as_bytes(),
            "{lines}"
        );
    }
}
