//! A decoder whose edges go back in time, and the laws. What recordings say is in tests/c/worked_readings.

use pr_decode::{Decoder, GoesBack, Halves, IncompleteEnd, Opening, Reading, Transfer};
use pr_wire::{Edge, Levels};
use std::process::Abort;

/// Edges by their levels of ATN, CLOCK and DATA, and whether a decoder takes them. They may be at one
/// time; one that goes back is refused, and the decoder is as it was.
static TAKEN: [(u64, [bool; 3], bool); 5] = [
    (9, [true, true, false], true),
    (8, [true, true, true], false),
    (9, [true, true, true], true),
    (9, [true, false, true], true),
    (0, [false, false, true], false),
];

const NO_BIT: Halves = Halves {
    shortest: 0,
    longest: 0,
};

/// A data byte begun, of which no bit has come.
const BEGUN: Reading = Reading::IncompleteByte(
    Transfer {
        opening: Opening {
            command: false,
            ready_to_send: 9,
            ready_for_data: 9,
            pulse: None,
        },
        pull: 9,
        bits: 0,
        byte: 0,
        low: NO_BIT,
        high: NO_BIT,
        last_pull: 9,
    },
    IncompleteEnd::Cut,
);

#[test]
fn times_that_go_back(rt: HostRuntime) {
    let mut decoder = Decoder::new();
    for &(time, levels, is_taken) in &TAKEN {
        let [atn, clock, line] = levels;
        let levels = Levels { atn, clock, line };
        let wanted = if is_taken { Ok(None) } else { Err(GoesBack) };
        let given = decoder.take(Edge { time, levels });
        assert!(rt; given == wanted, "{time}");
    }
    assert!(rt; decoder.finish() == Some(BEGUN));
}

/// The laws, with nothing to run.
#[test]
fn laws(_rt: HostRuntime) {
    pr_decode::readings_add_up();
    pr_decode::traces_are_read();
    pr_decode::moments_decide();
}
