//! Lines of readings, worked by hand: the profile's bounds are those of the table of lawful traces.

use pr_decode::{FrameEnd, Halves, IncompleteEnd, Opening, Pulse, Reading, Transfer};
use pr_report::{
    Bounds, Context, Detail, Preceding, Talker, push_json_reading, push_json_verdict, push_reading,
};
use pr_wire::WaveFault;
use std::process::Abort;

/// Readings with their intervals, by the profile.
pub const LISTED: Detail = Detail {
    intervals: true,
    bounds: Bounds::Profile,
};

/// The same by the guide.
const GUIDED: Detail = Detail {
    bounds: Bounds::Guide,
    ..LISTED
};

/// Readings alone.
const ALONE: Detail = Detail {
    intervals: false,
    bounds: Bounds::Profile,
};

/// The opening of a data byte without end-or-identify: how long a listener takes lies within the profile's
/// bounds.
const OPENING: Opening = Opening {
    command: false,
    ready_to_send: 1100,
    ready_for_data: 1150,
    pulse: None,
};

/// The same of a command.
const OF_COMMAND: Opening = Opening {
    command: true,
    ..OPENING
};

/// A data byte of which all other intervals do so too, an acknowledgement at 1930 among them.
const DATA: Transfer = Transfer {
    opening: OPENING,
    pull: 1190,
    bits: 8,
    byte: 0,
    low: Halves {
        shortest: 70,
        longest: 70,
    },
    high: Halves {
        shortest: 20,
        longest: 20,
    },
    last_pull: 1910,
};

/// The same under ATN: a command.
const ATN: Transfer = Transfer {
    opening: OF_COMMAND,
    ..DATA
};

const ACKNOWLEDGED: FrameEnd = FrameEnd::Acknowledged(1930);

/// The computer sends to a printer.
fn to_a_printer(last: Preceding) -> Context {
    Context {
        last,
        printer_listens: true,
        talker: Talker::Computer,
    }
}

/// What comes before a reading, the reading, and its lines.
type Row = (Preceding, Reading, &'static str);

/// The readings of these rows have their lines.
fn are_told(rt: &(impl Abort + AllocGlobal), rows: &[Row]) {
    for &(behind, reading, wanted) in rows {
        let mut text = Vec::new(rt.alloc());
        let pushed = push_reading(&mut text, to_a_printer(behind), &reading, LISTED);
        assert!(rt;
            pushed.is_ok() && text.as_slice() == wanted.as_bytes(),
            "{wanted}"
        );
    }
}

/// Acknowledged bytes have the story's lines: what comes before decides on their headings.
const ACKNOWLEDGED_BYTES: [Row; 13] = [
    (
        Preceding::Nothing,
        Reading::Frame(Transfer { byte: 36, ..ATN }, ACKNOWLEDGED),
        "attention\n        1100         1930  $24  LISTEN 4\n",
    ),
    (
        Preceding::Command,
        Reading::Frame(Transfer { byte: 103, ..ATN }, ACKNOWLEDGED),
        "        1100         1930  $67  SECOND 7\n",
    ),
    (
        Preceding::Command,
        Reading::Frame(Transfer { byte: 63, ..ATN }, ACKNOWLEDGED),
        "attention\n        1100         1930  $3F  UNLISTEN\n",
    ),
    (
        Preceding::Data,
        Reading::Frame(Transfer { byte: 36, ..ATN }, ACKNOWLEDGED),
        "attention\n        1100         1930  $24  LISTEN 4\n",
    ),
    (
        Preceding::Command,
        Reading::Frame(Transfer { byte: 32, ..ATN }, ACKNOWLEDGED),
        "attention\n        1100         1930  $20  LISTEN 0\n",
    ),
    (
        Preceding::Command,
        Reading::Frame(Transfer { byte: 62, ..ATN }, ACKNOWLEDGED),
        "attention\n        1100         1930  $3E  LISTEN 30\n",
    ),
    (
        Preceding::Command,
        Reading::Frame(Transfer { byte: 95, ..ATN }, ACKNOWLEDGED),
        "attention\n        1100         1930  $5F  UNTALK\n",
    ),
    (
        Preceding::Command,
        Reading::Frame(Transfer { byte: 96, ..ATN }, ACKNOWLEDGED),
        "        1100         1930  $60  SECOND 0\n",
    ),
    (
        Preceding::Command,
        Reading::Frame(Transfer { byte: 228, ..ATN }, ACKNOWLEDGED),
        "        1100         1930  $E4  CLOSE 4\n",
    ),
    (
        Preceding::Nothing,
        Reading::Frame(Transfer { byte: 103, ..ATN }, ACKNOWLEDGED),
        "attention\n        1100         1930  $67  SECOND 7\n",
    ),
    (
        Preceding::Nothing,
        Reading::Frame(Transfer { byte: 72, ..DATA }, ACKNOWLEDGED),
        "data\n        1100         1930  $48  'H'\n",
    ),
    (
        Preceding::Command,
        Reading::Frame(Transfer { byte: 63, ..DATA }, ACKNOWLEDGED),
        "data\n        1100         1930  $3F  '?'\n",
    ),
    (
        Preceding::Data,
        Reading::Frame(Transfer { byte: 13, ..DATA }, ACKNOWLEDGED),
        "        1100         1930  $0D  return\n",
    ),
];

/// The answer to end-or-identify, its length and the pull after it, within the bounds and outside.
const ANSWERS: [Row; 4] = [
    (
        Preceding::Data,
        Reading::Frame(
            Transfer {
                opening: Opening {
                    pulse: Some(Pulse {
                        pulled: 1400,
                        released: 1480,
                    }),
                    ..OPENING
                },
                pull: 1510,
                byte: 13,
                ..DATA
            },
            ACKNOWLEDGED,
        ),
        "        1100         1930  $0D  return, end-or-identify\n",
    ),
    (
        Preceding::Data,
        Reading::Frame(
            Transfer {
                opening: Opening {
                    pulse: Some(Pulse {
                        pulled: 1350,
                        released: 1600,
                    }),
                    ..OPENING
                },
                pull: 1660,
                byte: 13,
                ..DATA
            },
            ACKNOWLEDGED,
        ),
        "        1100         1930  $0D  return, end-or-identify\n",
    ),
    (
        Preceding::Data,
        Reading::Frame(
            Transfer {
                opening: Opening {
                    pulse: Some(Pulse {
                        pulled: 1401,
                        released: 1652,
                    }),
                    ..OPENING
                },
                pull: 1713,
                byte: 13,
                ..DATA
            },
            ACKNOWLEDGED,
        ),
        "        1100         1930  $0D  return, end-or-identify\n    answer 251 us, the profile has 200 to 250\n    answer length 251 us, the profile has 80 to 250\n    pull after answer 61 us, the profile has 1 to 60\n",
    ),
    (
        Preceding::Data,
        Reading::Frame(
            Transfer {
                opening: Opening {
                    pulse: Some(Pulse {
                        pulled: 1349,
                        released: 1428,
                    }),
                    ..OPENING
                },
                pull: 1428,
                byte: 13,
                ..DATA
            },
            ACKNOWLEDGED,
        ),
        "        1100         1930  $0D  return, end-or-identify\n    answer 199 us, the profile has 200 to 250\n    answer length 79 us, the profile has 80 to 250\n    pull after answer 0 us, the profile has 1 to 60\n",
    ),
];

/// Bytes that are not acknowledged, or not ended.
const OTHER_BYTES: [Row; 6] = [
    (
        Preceding::Nothing,
        Reading::Frame(Transfer { byte: 36, ..ATN }, FrameEnd::Unacknowledged(2500)),
        "command 36 at 1100 us, not acknowledged, given up at 2500 us\n",
    ),
    (
        Preceding::Nothing,
        Reading::Frame(
            Transfer { byte: 72, ..DATA },
            FrameEnd::Unacknowledged(2500),
        ),
        "byte 72 at 1100 us, not acknowledged, given up at 2500 us\n",
    ),
    (
        Preceding::Nothing,
        Reading::Frame(Transfer { byte: 72, ..DATA }, FrameEnd::Cut),
        "byte 72 at 1100 us, cut by the recording's end\n",
    ),
    (
        Preceding::Nothing,
        Reading::IncompleteByte(
            Transfer { byte: 72, ..DATA },
            IncompleteEnd::Attention(1950),
        ),
        "glitch at 1100 us, bits 8, ended by ATN at 1950 us\n",
    ),
    (
        Preceding::Nothing,
        Reading::IncompleteByte(
            Transfer { byte: 72, ..DATA },
            IncompleteEnd::ClockTimeout(2950),
        ),
        "glitch at 1100 us, bits 8, CLOCK released too long at 2950 us\n",
    ),
    (
        Preceding::Nothing,
        Reading::IncompleteByte(Transfer { byte: 72, ..DATA }, IncompleteEnd::Cut),
        "glitch at 1100 us, bits 8, cut by the recording's end\n",
    ),
];

/// Intervals at the profile's bounds are not reported, and those that lie just outside are; a byte of no bit has
/// no halves.
const INTERVALS: [Row; 3] = [
    (
        Preceding::Data,
        Reading::Frame(
            Transfer {
                pull: 1349,
                byte: 0,
                low: Halves {
                    shortest: 20,
                    longest: 200,
                },
                high: Halves {
                    shortest: 20,
                    longest: 200,
                },
                last_pull: 2920,
                ..DATA
            },
            FrameEnd::Acknowledged(3000),
        ),
        "        1100         3000  $00  byte 0\n",
    ),
    (
        Preceding::Data,
        Reading::Frame(
            Transfer {
                pull: 1350,
                byte: 0,
                low: Halves {
                    shortest: 19,
                    longest: 201,
                },
                high: Halves {
                    shortest: 19,
                    longest: 201,
                },
                last_pull: 2909,
                ..DATA
            },
            FrameEnd::Acknowledged(3000),
        ),
        "        1100         3000  $00  byte 0\n    first pull 200 us, the profile has 1 to 199\n    shortest low half 19 us, the profile has 20 to 200\n    longest low half 201 us, the profile has 20 to 200\n    shortest high half 19 us, the profile has 20 to 200\n    longest high half 201 us, the profile has 20 to 200\n    acknowledgement 91 us, the profile has 1 to 90\n",
    ),
    (
        Preceding::Data,
        Reading::IncompleteByte(
            Transfer {
                bits: 0,
                byte: 0,
                low: NONE,
                high: NONE,
                last_pull: 1190,
                ..DATA
            },
            IncompleteEnd::Attention(1260),
        ),
        "glitch at 1100 us, bits 0, ended by ATN at 1260 us\n",
    ),
];

const NONE: Halves = Halves {
    shortest: 0,
    longest: 0,
};

/// LISTEN 4, acknowledged late.
const LATE: Transfer = Transfer {
    byte: 36,
    last_pull: 40000,
    ..ATN
};

/// A slow listener.
pub const SLOW: Reading = Reading::Frame(
    Transfer {
        opening: Opening {
            ready_for_data: 25410,
            ..OF_COMMAND
        },
        pull: 25450,
        ..LATE
    },
    FrameEnd::Acknowledged(40020),
);

/// A slow listener, one at the bound, and one that is ready at the look.
const LISTENERS: [Row; 3] = [
    (
        Preceding::Nothing,
        SLOW,
        "attention\n        1100        40020  $24  LISTEN 4\n    ready 24310 us, the profile has 1 to 10000\n",
    ),
    (
        Preceding::Nothing,
        Reading::Frame(
            Transfer {
                opening: Opening {
                    ready_for_data: 11100,
                    ..OF_COMMAND
                },
                pull: 11140,
                ..LATE
            },
            FrameEnd::Acknowledged(40020),
        ),
        "attention\n        1100        40020  $24  LISTEN 4\n",
    ),
    (
        Preceding::Nothing,
        Reading::Frame(
            Transfer {
                opening: Opening {
                    ready_for_data: 1100,
                    ..OF_COMMAND
                },
                pull: 1140,
                ..LATE
            },
            FrameEnd::Acknowledged(40020),
        ),
        "attention\n        1100        40020  $24  LISTEN 4\n    ready 0 us, the profile has 1 to 10000\n",
    ),
];

#[test]
fn readings_are_told(rt: HostRuntime) {
    are_told(&rt, &ACKNOWLEDGED_BYTES);
    are_told(&rt, &ANSWERS);
    are_told(&rt, &OTHER_BYTES);
    are_told(&rt, &INTERVALS);
    are_told(&rt, &LISTENERS);
}

/// A call that several printers hear, each in an attention of its own, and an attention of a second command.
const CALL: [Transfer; 7] = [
    Transfer { byte: 36, ..ATN },
    Transfer { byte: 37, ..ATN },
    Transfer { byte: 103, ..ATN },
    Transfer { byte: 96, ..ATN },
    Transfer { byte: 65, ..DATA },
    Transfer { byte: 63, ..ATN },
    Transfer { byte: 103, ..ATN },
];

/// The lines of its bytes: the headings are the story's.
const STORY: &str =
    "attention\n        1100         1930  $24  LISTEN 4\nattention\n        1100         1930  $25  LISTEN 5\n        1100         1930  $67  SECOND 7\nattention\n        1100         1930  $60  SECOND 0\ndata\n        1100         1930  $41  'A'\nattention\n        1100         1930  $3F  UNLISTEN\nattention\n        1100         1930  $67  SECOND 7\n";

#[test]
fn attentions_one_after_another(rt: HostRuntime) {
    let mut text = Vec::new(rt.alloc());
    let mut context = Context::new();
    for byte in &CALL {
        let reading = Reading::Frame(*byte, ACKNOWLEDGED);
        let pushed = push_reading(&mut text, context, &reading, LISTED);
        assert!(rt; pushed.is_ok());
        context = context.after(&reading);
    }
    assert!(rt; text.as_slice() == STORY.as_bytes());
}

/// What comes before a reading, the reading, and what follows it.
const BEHIND: [(Preceding, Reading, Preceding); 8] = [
    (
        Preceding::Nothing,
        Reading::Frame(Transfer { byte: 36, ..ATN }, ACKNOWLEDGED),
        Preceding::Command,
    ),
    (
        Preceding::Data,
        Reading::Frame(Transfer { byte: 63, ..ATN }, ACKNOWLEDGED),
        Preceding::Nothing,
    ),
    (
        Preceding::Command,
        Reading::Frame(Transfer { byte: 63, ..DATA }, ACKNOWLEDGED),
        Preceding::Data,
    ),
    (
        Preceding::Command,
        Reading::Frame(Transfer { byte: 36, ..ATN }, ACKNOWLEDGED),
        Preceding::Command,
    ),
    (
        Preceding::Command,
        Reading::Frame(Transfer { byte: 103, ..ATN }, ACKNOWLEDGED),
        Preceding::Nothing,
    ),
    (
        Preceding::Command,
        Reading::Frame(Transfer { byte: 63, ..DATA }, FrameEnd::Cut),
        Preceding::Command,
    ),
    (
        Preceding::Nothing,
        Reading::Frame(Transfer { byte: 36, ..ATN }, FrameEnd::Unacknowledged(1930)),
        Preceding::Nothing,
    ),
    (
        Preceding::Data,
        Reading::IncompleteByte(Transfer { byte: 36, ..ATN }, IncompleteEnd::Cut),
        Preceding::Data,
    ),
];

#[test]
fn what_stands_behind(rt: HostRuntime) {
    for &(before, reading, wanted) in &BEHIND {
        assert!(rt;
            to_a_printer(before).after(&reading).last == wanted,
            "{reading:?}"
        );
    }
}

/// A device talks to a printer, or to the computer: before each reading, what comes before, and its lines.
const SPOKEN: [(Context, Transfer, &str); 4] = [
    (
        Context {
            last: Preceding::Nothing,
            printer_listens: true,
            talker: Talker::Device(8),
        },
        Transfer { byte: 13, ..DATA },
        "data from 8\n        1100         1930  $0D  return\n",
    ),
    (
        Context {
            last: Preceding::Nothing,
            printer_listens: false,
            talker: Talker::Device(30),
        },
        Transfer { byte: 13, ..DATA },
        "data from 30\n        1100         1930  $0D  byte 13\n",
    ),
    (
        Context {
            last: Preceding::Command,
            printer_listens: false,
            talker: Talker::Asked(8),
        },
        Transfer { byte: 65, ..DATA },
        "data\n        1100         1930  $41  'A'\n",
    ),
    (
        Context {
            last: Preceding::Data,
            printer_listens: false,
            talker: Talker::Device(8),
        },
        Transfer { byte: 39, ..DATA },
        "        1100         1930  $27  \"'\"\n",
    ),
];

#[test]
fn devices_that_talk(rt: HostRuntime) {
    for &(context, byte, wanted) in &SPOKEN {
        let mut text = Vec::new(rt.alloc());
        let reading = Reading::Frame(byte, ACKNOWLEDGED);
        let pushed = push_reading(&mut text, context, &reading, LISTED);
        assert!(rt;
            pushed.is_ok() && text.as_slice() == wanted.as_bytes(),
            "{wanted}"
        );
    }
}

/// TALK 8 and a secondary address, and what ends it.
#[test]
fn talk_and_untalk(rt: HostRuntime) {
    let mut context = Context::new();
    for (byte, talker) in [
        (72, Talker::Asked(8)),
        (36, Talker::Computer),
        (72, Talker::Asked(8)),
        (96, Talker::Device(8)),
        (36, Talker::Device(8)),
        (103, Talker::Device(8)),
        (95, Talker::Computer),
    ] {
        context = context.after(&Reading::Frame(Transfer { byte, ..ATN }, ACKNOWLEDGED));
        assert!(rt; context.talker == talker, "{byte}");
    }
    assert!(rt; context.printer_listens);
}

/// A slow bit and a slow acknowledgement, with and without the intervals outside the bounds of each table.
const SLOW_BYTE: Reading = Reading::Frame(
    Transfer {
        low: Halves {
            shortest: 19,
            longest: 201,
        },
        ..DATA
    },
    FrameEnd::Acknowledged(2911),
);

#[test]
fn bounds_of_each_table(rt: HostRuntime) {
    for (detail, wanted) in [
        (ALONE, "        1100         2911  $00  byte 0\n"),
        (
            LISTED,
            "        1100         2911  $00  byte 0\n    shortest low half 19 us, the profile has 20 to 200\n    longest low half 201 us, the profile has 20 to 200\n    acknowledgement 1001 us, the profile has 1 to 90\n",
        ),
        (
            GUIDED,
            "        1100         2911  $00  byte 0\n    shortest low half 19 us, the guide has 20 or more\n    acknowledgement 1001 us, the guide has 0 to 1000\n",
        ),
    ] {
        let mut text = Vec::new(rt.alloc());
        let pushed = push_reading(&mut text, to_a_printer(Preceding::Data), &SLOW_BYTE, detail);
        assert!(rt;
            pushed.is_ok() && text.as_slice() == wanted.as_bytes(),
            "{wanted}"
        );
    }
}

/// Readings, and their lines of JSON.
const OBJECTS: [(Reading, &str); 3] = [
    (
        Reading::Frame(Transfer { byte: 36, ..ATN }, ACKNOWLEDGED),
        "{\"kind\":\"byte\",\"role\":\"command\",\"value\":36,\"eoi\":false,\"at\":1100,\"ready\":1150,\"first pull\":1190,\"last pull\":1910,\"end\":\"acknowledged\",\"ended\":1930,\"intervals\":{\"ready\":50,\"first pull\":40,\"shortest low half\":70,\"longest low half\":70,\"shortest high half\":20,\"longest high half\":20,\"acknowledgement\":20}}\n",
    ),
    (
        Reading::Frame(DATA, FrameEnd::Cut),
        "{\"kind\":\"byte\",\"role\":\"data\",\"value\":0,\"eoi\":false,\"at\":1100,\"ready\":1150,\"first pull\":1190,\"last pull\":1910,\"end\":\"cut\",\"ended\":null,\"intervals\":{\"ready\":50,\"first pull\":40,\"shortest low half\":70,\"longest low half\":70,\"shortest high half\":20,\"longest high half\":20}}\n",
    ),
    (
        Reading::IncompleteByte(
            Transfer { bits: 0, ..DATA },
            IncompleteEnd::ClockTimeout(3000),
        ),
        "{\"kind\":\"incomplete\",\"role\":\"data\",\"bits\":0,\"eoi\":false,\"at\":1100,\"ready\":1150,\"first pull\":1190,\"last pull\":1910,\"end\":\"clock timeout\",\"ended\":3000,\"intervals\":{\"ready\":50,\"first pull\":40}}\n",
    ),
];

#[test]
fn readings_as_json(rt: HostRuntime) {
    for &(reading, wanted) in &OBJECTS {
        let mut text = Vec::new(rt.alloc());
        let pushed = push_json_reading(&mut text, &reading);
        assert!(rt;
            pushed.is_ok() && text.as_slice() == wanted.as_bytes(),
            "{wanted}"
        );
    }
}

#[test]
fn verdicts_as_json(rt: HostRuntime) {
    for (fault, wanted) in [
        (None, "{\"kind\":\"verdict\",\"lawful\":true}\n"),
        (
            Some(WaveFault::Shape(1)),
            "{\"kind\":\"verdict\",\"lawful\":false,\"edge\":1,\"fault\":\"bad shape\"}\n",
        ),
    ] {
        let mut text = Vec::new(rt.alloc());
        let pushed = push_json_verdict(&mut text, fault);
        assert!(rt;
            pushed.is_ok() && text.as_slice() == wanted.as_bytes(),
            "{wanted}"
        );
    }
}
