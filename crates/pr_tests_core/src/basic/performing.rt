//! Statements over a bus without wires: what no page, trace or frame of a case shows of them.

use pr_basic::{Session, Statement, StatusMode, perform, read_script};
use pr_channels::{Channels, Stop};
use pr_refusals::most_refusals;
use pr_serial::{Direct, Input, Present, Serial};
use std::process::Abort;

const BOTH: Present = Present {
    four: true,
    five: true,
};

const ONLY_FOUR: Present = Present {
    four: true,
    five: false,
};

/// What a statement leaves: its stop, the status, the channel number, the output device, and the number
/// of all items so far.
type After = (Option<Stop>, u8, u8, u8, u64);

/// Performs one statement, and returns what it leaves.
fn performed(
    rt: &impl Abort,
    channels: &mut Channels<Direct>,
    session: &mut Session,
    statement: &Statement,
) -> After {
    assert!(rt; channels.serial().items() < 1000);
    let stop = perform(channels, statement, session).expect(rt, "memory");
    let items = channels.serial().items();
    let (status, output) = (channels.readst(), channels.output());
    (stop, status, session.channel, output, items)
}

/// A script, the printers, the status mode, what each of its statements leaves, and then the bytes on the screen and what
/// printer 4 heard.
struct Worked {
    name: &'static str,
    script: &'static [u8],
    present: Present,
    mode: StatusMode,
    after: &'static [After],
    screen: &'static [u8],
    heard: &'static [Input],
}

/// What a statement that does not print leaves, where nothing was sent before it.
const QUIET: After = (None, 0, 0, 3, 0);

/// CMD's channel number stays for PRINT and CLOSE, and ends with PRINT# or a stop; CLOSE notifies a
/// device only where the file has a secondary address, and leaves the output device. With printer 4 alone a byte that
/// nobody hears stops a later PRINT# where the status is kept, or while it still waits, and else leaves its status alone.
static WORKED: [Worked; 8] = [
    Worked {
        name: "each_statement_stops_by_itself",
        script: b"OPEN 0,4:OPEN 4,4:OPEN 4,5:PRINT#9,\"A\"",
        present: BOTH,
        mode: StatusMode::Each,
        after: &[
            (Some(Stop::NotInputFile), 0, 0, 3, 0),
            QUIET,
            (Some(Stop::FileOpen), 0, 0, 3, 0),
            (Some(Stop::FileNotOpen), 0, 0, 3, 0),
        ],
        screen: &[],
        heard: &[],
    },
    Worked {
        name: "channel_number_follows",
        script: b"OPEN 200,4:OPEN 7,4,7:CMD 200,\"A\";:PRINT\"X\"\n\
            CLOSE 200:CLOSE 7:PRINT#7,\"B\":PRINT\"X\"",
        present: BOTH,
        mode: StatusMode::Each,
        after: &[
            QUIET,
            QUIET,
            (None, 0, 200, 4, 1),
            (None, 0, 200, 4, 4),
            (None, 0, 200, 4, 4),
            (None, 0, 200, 4, 7),
            (Some(Stop::FileNotOpen), 0, 0, 3, 8),
            (None, 0, 0, 3, 8),
        ],
        screen: &[88, 13],
        heard: &[
            Input::Select(false),
            Input::Byte(65),
            Input::Byte(88),
            Input::Byte(13),
            Input::Byte(10),
            Input::Select(false),
        ],
    },
    Worked {
        name: "line_feed_channel",
        script: b"OPEN 128,4:PRINT#128,\"A\":PRINT#128,\"B\"",
        present: BOTH,
        mode: StatusMode::Each,
        after: &[QUIET, (None, 0, 0, 3, 5), (None, 0, 0, 3, 10)],
        screen: &[],
        heard: &[
            Input::Select(false),
            Input::Byte(65),
            Input::Byte(13),
            Input::Byte(10),
            Input::Select(false),
            Input::Byte(66),
            Input::Byte(13),
            Input::Byte(10),
        ],
    },
    Worked {
        name: "return_inside_a_list",
        script: b"OPEN 130,4:PRINT#130,\"A\"CHR$(13)\"B\"",
        present: BOTH,
        mode: StatusMode::Each,
        after: &[QUIET, (None, 0, 0, 3, 7)],
        screen: &[],
        heard: &[
            Input::Select(false),
            Input::Byte(65),
            Input::Byte(13),
            Input::Byte(66),
            Input::Byte(13),
            Input::Byte(10),
        ],
    },
    Worked {
        name: "stops_of_the_file_table, an eleventh file and an open one",
        script: b"OPEN 1,4:OPEN 2,4:OPEN 3,4:OPEN 4,4:OPEN 5,4:OPEN 6,4\n\
            OPEN 7,4:OPEN 8,4:OPEN 9,4:OPEN 10,4:OPEN 11,4:OPEN 3,4",
        present: BOTH,
        mode: StatusMode::Each,
        after: &[
            QUIET,
            QUIET,
            QUIET,
            QUIET,
            QUIET,
            QUIET,
            QUIET,
            QUIET,
            QUIET,
            QUIET,
            (Some(Stop::TooManyFiles), 0, 0, 3, 0),
            (Some(Stop::FileOpen), 0, 0, 3, 0),
        ],
        screen: &[],
        heard: &[],
    },
    Worked {
        name: "unanswered_byte_in_both_modes, each",
        script: b"OPEN 5,5:PRINT#5,\"A\":PRINT#5,\"B\"",
        present: ONLY_FOUR,
        mode: StatusMode::Each,
        after: &[QUIET, (None, 128, 0, 3, 4), (None, 128, 0, 3, 8)],
        screen: &[],
        heard: &[],
    },
    Worked {
        name: "unanswered_byte_in_both_modes, kept",
        script: b"OPEN 5,5:PRINT#5,\"A\":PRINT#5,\"B\"",
        present: ONLY_FOUR,
        mode: StatusMode::Kept,
        after: &[
            QUIET,
            (None, 128, 0, 3, 4),
            (Some(Stop::DeviceNotPresent), 128, 0, 3, 5),
        ],
        screen: &[],
        heard: &[],
    },
    Worked {
        name: "byte_that_waits_is_unanswered",
        script: b"OPEN 4,4:OPEN 5,5:CMD 5,\"A\":PRINT#4,\"B\"",
        present: ONLY_FOUR,
        mode: StatusMode::Each,
        after: &[
            QUIET,
            QUIET,
            (None, 128, 5, 5, 2),
            (Some(Stop::DeviceNotPresent), 128, 0, 3, 5),
        ],
        screen: &[],
        heard: &[Input::Select(false)],
    },
];

/// Those, for callers whose proofs do not read them.
fn worked_rows() -> &'static [Worked] {
    &WORKED
}

/// Performs statements over a bus on which nothing was sent, and compares what each leaves.
fn played(
    rt: &(impl Abort + AllocGlobal),
    statements: &[Statement],
    row: &Worked,
) -> Channels<Direct> {
    let mut channels = Channels::new(rt.alloc(), Direct::new(rt.alloc(), row.present));
    let mut session = Session::new(row.mode);
    for (statement, after) in statements.iter().zip(row.after) {
        let given = performed(rt, &mut channels, &mut session, statement);
        assert!(rt; given == *after, "{}", row.name);
    }
    channels
}

/// Plays a script, and compares what it leaves in the end.
fn plays(rt: &(impl Abort + AllocGlobal), row: &Worked) {
    let statements = read_script(rt.alloc(), row.script).expect(rt, "a script");
    assert!(rt; statements.len() == row.after.len());
    let channels = played(rt, &statements, row);
    assert!(rt; channels.screen() == row.screen && channels.serial().heard(4) == row.heard);
}

#[test]
fn worked_scripts(rt: HostRuntime) {
    for row in worked_rows() {
        plays(&rt, row);
    }
}

/// Whether a statement reaches the bus, where its file is open with a secondary address.
fn reaches_bus(channels: &Channels<Direct>, statement: &Statement) -> bool {
    match statement {
        Statement::Cmd { file: _, line: _ } => true,
        Statement::PrintTo { file: _, line: _ } => true,
        Statement::CloseFile { file: _ } => true,
        Statement::Print { line: _ } => channels.output() > 3,
        _ => false,
    }
}

/// Whether the number of items, the output device and the number of open files are these, the status is 0, and the
/// screen shows no less.
fn stays(channels: &Channels<Direct>, before: (u64, u8, usize), shown: usize) -> bool {
    let (items, output, open) = before;
    channels.serial().items() == items
        && channels.output() == output
        && channels.files().as_slice().len() == open
        && channels.readst() == 0
        && channels.screen().len() >= shown
}

/// Performs a statement, and returns whether it was refused. Then the session is as before, and either the
/// bus has failed or only the screen's list is longer. A statement that reaches a bus that has failed is
/// refused.
fn is_refused(
    rt: &impl Abort,
    channels: &mut Channels<Direct>,
    session: &mut Session,
    statement: &Statement,
) -> bool {
    let (settled, shown) = (*session, channels.screen().len());
    let open = channels.files().as_slice().len();
    let before = (channels.serial().items(), channels.output(), open);
    let is_lost = channels.serial().failed() && reaches_bus(channels, statement);
    assert!(rt; before.0 < 1000);
    let told = perform(channels, statement, session);
    let is_well = match told {
        Ok(stop) => stop.is_none() && !is_lost,
        Err(_refused) => {
            *session == settled && (channels.serial().failed() || stays(channels, before, shown))
        }
    };
    assert!(rt; is_well);
    told.is_err()
}

/// Performs a script on a new bus, and returns whether memory was refused. If none was, the bus has this many
/// items, and the screen these bytes.
fn is_script_refused(
    rt: &(impl Abort + AllocGlobal),
    script: &[u8],
    items: u64,
    screen: &[u8],
) -> bool {
    let Ok(statements) = read_script(rt.alloc(), script) else {
        return true;
    };
    let mut channels = Channels::new(rt.alloc(), Direct::new(rt.alloc(), BOTH));
    let mut session = Session::new(StatusMode::Each);
    let mut refused = false;
    for statement in statements.as_slice() {
        refused |= is_refused(rt, &mut channels, &mut session, statement);
    }
    let is_whole = channels.serial().items() == items && channels.screen() == screen;
    assert!(rt; refused || is_whole, "{items} items");
    refused
}

/// Growths of the screen's list and of the bus. `make test` runs this with each allocation refused in
/// turn: at most one script then meets a refusal, and with no growth refused none does.
#[test]
fn each_growth_refused(rt: HostRuntime) {
    const ROWS: [(&[u8], u64, &[u8]); 3] = [
        (
            b"OPEN 4,4,7:PRINT\"123456789\":PRINT#4:PRINT\"X",
            3,
            b"123456789\rX\r",
        ),
        (
            b"OPEN 4,4,7:CMD 4,\"ABC\":PRINT\"D\":PRINT#4,\"E\":CLOSE 4",
            13,
            b"",
        ),
        (b"OPEN 4,4,7:PRINT#4:CLOSE 4:REM:PRINT;", 5, b""),
    ];
    let mut refused: usize = 0;
    for (script, items, screen) in ROWS {
        if is_script_refused(&rt, script, items, screen) {
            refused = refused.saturating_add(1);
        }
    }
    assert!(rt; refused <= most_refusals(&rt), "{refused} refusals");
}
