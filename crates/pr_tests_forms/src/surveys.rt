//! Surveys, worked by hand: their summaries and their verdicts.

use pr_decode::{FrameEnd, Halves, IncompleteEnd, Opening, Pulse, Reading, Transfer};
use pr_report::{Bounds, Survey};
use pr_wire::{Kind, NoMemory, WaveFault, bounds};
use std::alloc::Global;
use std::process::Abort;

/// A data byte's opening with the look at 1000, ready 50 microseconds after it.
const OPENING: Opening = Opening {
    command: false,
    ready_to_send: 1000,
    ready_for_data: 1050,
    pulse: None,
};

/// The same of a command.
const OF_COMMAND: Opening = Opening {
    command: true,
    ..OPENING
};

const LOW: Halves = Halves {
    shortest: 70,
    longest: 70,
};

const HIGH: Halves = Halves {
    shortest: 20,
    longest: 20,
};

/// A byte with CLOCK's first pull 40 microseconds after ready, and its last at 40000.
const BYTE: Transfer = Transfer {
    opening: OPENING,
    pull: 1090,
    bits: 8,
    byte: 36,
    low: LOW,
    high: HIGH,
    last_pull: 40000,
};

/// A command that is ready 24310 microseconds after the look.
const COMMAND: Transfer = Transfer {
    opening: Opening {
        ready_for_data: 25310,
        ..OF_COMMAND
    },
    pull: 25350,
    low: Halves {
        shortest: 70,
        longest: 90,
    },
    high: Halves {
        shortest: 20,
        longest: 21,
    },
    ..BYTE
};

/// A data byte that is ready at the look.
const FIRST: Transfer = Transfer {
    opening: Opening {
        ready_for_data: 1000,
        ..OPENING
    },
    pull: 1040,
    low: Halves {
        shortest: 19,
        longest: 70,
    },
    high: Halves {
        shortest: 10,
        longest: 20,
    },
    ..BYTE
};

/// A data byte that is ready 10001 microseconds after the look.
const SECOND: Transfer = Transfer {
    opening: Opening {
        ready_for_data: 11001,
        ..OPENING
    },
    pull: 11041,
    low: Halves {
        shortest: 20,
        longest: 201,
    },
    high: Halves {
        shortest: 30,
        longest: 200,
    },
    ..BYTE
};

/// A byte that ends, by end-or-identify: an answer 199 microseconds after ready, which lasts 80, and CLOCK's
/// first pull 30 after it.
const LAST: Transfer = Transfer {
    opening: Opening {
        pulse: Some(Pulse {
            pulled: 1249,
            released: 1329,
        }),
        ..OPENING
    },
    pull: 1359,
    byte: 13,
    low: Halves {
        shortest: 70,
        longest: 71,
    },
    high: Halves {
        shortest: 70,
        longest: 71,
    },
    ..BYTE
};

/// The same with the answer 200 microseconds after ready.
const LAST_AT_200: Transfer = Transfer {
    opening: Opening {
        pulse: Some(Pulse {
            pulled: 1250,
            released: 1330,
        }),
        ..OPENING
    },
    pull: 1360,
    ..LAST
};

const NONE: Halves = Halves {
    shortest: 0,
    longest: 0,
};

/// A byte that begins and ends before its first bit.
const BEGUN: Reading = Reading::IncompleteByte(
    Transfer {
        opening: Opening {
            ready_for_data: 1060,
            ..OPENING
        },
        pull: 1100,
        bits: 0,
        byte: 0,
        low: NONE,
        high: NONE,
        last_pull: 1100,
    },
    IncompleteEnd::Cut,
);

/// A command that is ready 20000 microseconds after the look.
const READY_AT_20000: Reading = Reading::Frame(
    Transfer {
        opening: Opening {
            ready_for_data: 21000,
            ..OF_COMMAND
        },
        pull: 21040,
        ..BYTE
    },
    FrameEnd::Cut,
);

const READY_AT_16383: Reading = Reading::Frame(
    Transfer {
        opening: Opening {
            ready_for_data: 17383,
            ..OF_COMMAND
        },
        pull: 17423,
        ..BYTE
    },
    FrameEnd::Cut,
);

const READY_AT_16384: Reading = Reading::Frame(
    Transfer {
        opening: Opening {
            ready_for_data: 17384,
            ..OF_COMMAND
        },
        pull: 17424,
        ..BYTE
    },
    FrameEnd::Cut,
);

/// A survey of readings.
fn surveyed(alloc: Global, bounds: Bounds, readings: &[Reading]) -> Result<Survey, NoMemory> {
    let mut survey = Survey::new(alloc, bounds)?;
    for reading in readings {
        survey.take(reading);
    }
    Ok(survey)
}

/// The summary of readings, by the profile.
pub fn summary(
    alloc: Global,
    readings: &[Reading],
    has_intervals: bool,
) -> Result<Vec<u8>, NoMemory> {
    let survey = surveyed(alloc, Bounds::Profile, readings)?;
    let mut text = Vec::new(alloc);
    survey.push_summary(&mut text, has_intervals)?;
    Ok(text)
}

/// The verdict on readings.
fn verdict(
    alloc: Global,
    bounds: Bounds,
    readings: &[Reading],
    fault: Option<WaveFault>,
) -> Result<Vec<u8>, NoMemory> {
    let survey = surveyed(alloc, bounds, readings)?;
    let mut text = Vec::new(alloc);
    survey.push_conclusion(&mut text, fault)?;
    Ok(text)
}

/// A command, two data bytes of which one is not acknowledged, one with end-or-identify, and a glitch.
const FIVE: [Reading; 5] = [
    Reading::Frame(COMMAND, FrameEnd::Acknowledged(40020)),
    Reading::Frame(FIRST, FrameEnd::Unacknowledged(40500)),
    Reading::Frame(SECOND, FrameEnd::Acknowledged(40091)),
    Reading::Frame(LAST, FrameEnd::Acknowledged(40001)),
    BEGUN,
];

/// Their whole summary. Of the five lengths of `ready`, 0, 50, 60, 10001 and 24310, three are at most 60.
const OF_FIVE: &str =
    "ready: 5, least 0, middle 60, greatest 24310, outside 1 to 10000: 3\nfirst pull: 4, least 40, middle 40, greatest 40, outside 1 to 199: 0\nanswer: 1, least 199, middle 199, greatest 199, outside 200 to 250: 1\nanswer length: 1, least 80, middle 80, greatest 80, outside 80 to 250: 0\npull after answer: 1, least 30, middle 30, greatest 30, outside 1 to 60: 0\nshortest low half: 4, least 19, middle 20, greatest 70, outside 20 to 200: 1\nlongest low half: 4, least 70, middle 71, greatest 201, outside 20 to 200: 1\nshortest high half: 4, least 10, middle 20, greatest 70, outside 20 to 200: 1\nlongest high half: 4, least 20, middle 21, greatest 200, outside 20 to 200: 0\nacknowledgement: 3, least 1, middle 20, greatest 91, outside 1 to 90: 1\nframes: 4, commands: 1, data bytes: 3\nnot acknowledged: 1\nglitches: 1\n";

/// Readings, whether their intervals are asked for, and the summary, or with intervals its beginning. A whole byte waits for its acknowledgement in vain, one until the
/// recording's end, and a glitch is cut by that, 60 microseconds from its look to ready. The middle is reported as it
/// is up to 16383 microseconds. Of two lengths it is the lesser.
const ROWS: [(&[Reading], bool, &str); 6] = [
    (&FIVE, true, OF_FIVE),
    (
        &[Reading::Frame(LAST_AT_200, FrameEnd::Unacknowledged(40500))],
        false,
        "frames: 1, commands: 0, data bytes: 1\nnot acknowledged: 1\nglitches: 0\n",
    ),
    (
        &[Reading::Frame(LAST_AT_200, FrameEnd::Cut)],
        false,
        "frames: 1, commands: 0, data bytes: 1\nnot acknowledged: 0\nglitches: 0\n",
    ),
    (
        &[BEGUN],
        false,
        "frames: 0, commands: 0, data bytes: 0\nnot acknowledged: 0\nglitches: 1\n",
    ),
    (
        &[READY_AT_20000, READY_AT_16383],
        true,
        "ready: 2, least 16383, middle 16383, greatest 20000, outside 1 to 10000: 2\n",
    ),
    (
        &[READY_AT_20000, READY_AT_16384],
        true,
        "ready: 2, least 16384, middle over 16383, greatest 20000, outside 1 to 10000: 2\n",
    ),
];

#[test]
fn summaries(rt: HostRuntime) {
    for &(readings, has_intervals, wanted) in &ROWS {
        let is_told = match summary(rt.alloc(), readings, has_intervals) {
            Ok(text) => {
                text.as_slice() == wanted.as_bytes()
                    || has_intervals && text.as_slice().starts_with(wanted.as_bytes())
            }
            Err(_refused) => false,
        };
        assert!(rt; is_told, "{wanted}");
    }
}

/// Bounds, readings, the first fault of their edges, and the verdict.
const VERDICTS: [(Bounds, &[Reading], Option<WaveFault>, &str); 11] = [
    (
        Bounds::Profile,
        &[],
        None,
        "verdict: this project's timing\n",
    ),
    (
        Bounds::Profile,
        &[],
        Some(WaveFault::Start(0)),
        "verdict: differs from this project's timing at edge 0: bad start; no byte to measure\n",
    ),
    (
        Bounds::Profile,
        &[],
        Some(WaveFault::Order(7)),
        "verdict: differs from this project's timing at edge 7: bad order; no byte to measure\n",
    ),
    (
        Bounds::Profile,
        &[],
        Some(WaveFault::TooEarly(12)),
        "verdict: differs from this project's timing at edge 12: too early; no byte to measure\n",
    ),
    (
        Bounds::Profile,
        &[Reading::Frame(LAST_AT_200, FrameEnd::Unacknowledged(40500))],
        Some(WaveFault::TooLate(1000)),
        "verdict: differs from this project's timing at edge 1000: too late; within the guide's bounds\n",
    ),
    (
        Bounds::Profile,
        &FIVE,
        Some(WaveFault::Shape(3)),
        "verdict: damaged: glitch at 1000 us, bits 0; differs from this project's timing at edge 3: bad shape; outside the guide's bounds: byte $24 at 1000 us, shortest low half 19 us, the guide has 20 or more\n",
    ),
    (
        Bounds::Profile,
        &[READY_AT_16384],
        Some(WaveFault::Truncated(40)),
        "verdict: damaged: command $24 at 1000 us, cut by the recording's end; this project's timing, truncated at edge 40; within the guide's bounds\n",
    ),
    (
        Bounds::Profile,
        &[Reading::Frame(LAST_AT_200, FrameEnd::Acknowledged(40020))],
        None,
        "verdict: this project's timing\n",
    ),
    (
        Bounds::Guide,
        &FIVE,
        Some(WaveFault::Shape(3)),
        "verdict: damaged: glitch at 1000 us, bits 0; outside the guide's bounds: byte $24 at 1000 us, shortest low half 19 us, the guide has 20 or more\n",
    ),
    (
        Bounds::Guide,
        &[Reading::Frame(LAST_AT_200, FrameEnd::Acknowledged(40020))],
        Some(WaveFault::Shape(3)),
        "verdict: within the guide's bounds\n",
    ),
    (
        Bounds::Guide,
        &[],
        Some(WaveFault::Start(0)),
        "verdict: no byte to measure\n",
    ),
];

#[test]
fn verdicts(rt: HostRuntime) {
    for &(bounds, readings, fault, wanted) in &VERDICTS {
        let is_told = match verdict(rt.alloc(), bounds, readings, fault) {
            Ok(text) => text.as_slice() == wanted.as_bytes(),
            Err(_refused) => false,
        };
        assert!(rt; is_told, "{wanted}");
    }
}

/// The laws, and the delay that bounds the acknowledgement.
#[test]
fn laws_and_bounds(rt: HostRuntime) {
    pr_report::lawful_traces_are_told();
    pr_report::lawful_traces_are_within();
    pr_report::lines_add_up();
    pr_report::middles_are_least();
    let (least, _typical, greatest) = bounds(Kind::F);
    assert!(rt; least == 1 && greatest == 80);
}
