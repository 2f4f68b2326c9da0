//! The worked channel calls over a bus without wires.

use pr_channels::{Channels, Fault, File, FileTable, Stop};
use pr_refusals::most_refusals;
use pr_serial::{Direct, Input, NoMemory, Present, Serial};
use std::process::Abort;

/// A call.
#[derive(Clone, Copy)]
enum Call {
    Open(u8, u8, Option<u8>),
    Chkout(u8),
    Chrout(u8),
    Clrchn,
    CloseFile(u8),
    ClearStatus,
    Forget,
}

/// A call, what it answers, and what is seen after it: items, output device, status, and how many of
/// the test's inputs printer 4 heard.
type Row = (Call, Result<(), Fault>, u64, u8, u8, usize);

/// Opens a file, where device and secondary address are ones that the call takes.
fn open(
    rt: &impl Abort,
    channels: &mut Channels<Direct>,
    file: u8,
    device: u8,
    second: Option<u8>,
) -> Result<(), Fault> {
    assert!(rt; device >= 4 && device <= 30 && (second.is_none() || second <= Some(15)));
    match channels.open_file(file, device, second) {
        Ok(()) => Ok(()),
        Err(stop) => Err(Fault::Stop(stop)),
    }
}

/// The answer of a call that memory alone can stop.
fn told(given: Result<(), NoMemory>) -> Result<(), Fault> {
    match given {
        Ok(()) => Ok(()),
        Err(_refused) => Err(Fault::NoMemory),
    }
}

/// Makes a call.
fn answer(rt: &impl Abort, channels: &mut Channels<Direct>, call: Call) -> Result<(), Fault> {
    assert!(rt; channels.serial().items() < 1000);
    match call {
        Call::Open(file, device, second) => open(rt, channels, file, device, second),
        Call::Chkout(file) => channels.chkout(file),
        Call::Chrout(byte) => told(channels.chrout(byte)),
        Call::Clrchn => told(channels.clrchn()),
        Call::CloseFile(file) => told(channels.close_file(file)),
        Call::ClearStatus => {
            channels.clear_status();
            Ok(())
        }
        Call::Forget => {
            channels.forget();
            Ok(())
        }
    }
}

/// Whether this is seen of the channels; printer 5 heard nothing.
fn shows(channels: &Channels<Direct>, items: u64, output: u8, status: u8, heard: &[Input]) -> bool {
    channels.serial().items() == items
        && channels.output() == output
        && channels.readst() == status
        && channels.serial().heard(4) == heard
        && channels.serial().heard(5).is_empty()
}

/// Makes a call, and returns whether what it answers and what is seen after it is what its row says.
fn is_played(
    rt: &impl Abort,
    channels: &mut Channels<Direct>,
    row: &Row,
    inputs: &[Input],
) -> bool {
    let &(call, wanted, items, output, status, heard) = row;
    let given = answer(rt, channels, call);
    assert!(rt; heard <= inputs.len());
    given == wanted && shows(channels, items, output, status, &inputs[..heard])
}

/// Makes calls over a bus on which nothing was sent, and compares what is seen after each.
fn plays(
    rt: &(impl Abort + AllocGlobal),
    name: &str,
    present: Present,
    rows: &[Row],
    inputs: &[Input],
) -> Channels<Direct> {
    let mut channels = Channels::new(rt.alloc(), Direct::new(rt.alloc(), present));
    for row in rows {
        let is_well = is_played(rt, &mut channels, row, inputs);
        assert!(rt; is_well, "{name}");
    }
    channels
}

const MISSING: Fault = Fault::Stop(Stop::DeviceNotPresent);

const NOT_OPEN: Fault = Fault::Stop(Stop::FileNotOpen);

const BOTH: Present = Present {
    four: true,
    five: true,
};

const ONLY_FOUR: Present = Present {
    four: true,
    five: false,
};

/// Calls on a new bus with these printers, and the inputs that printer 4 then heard.
struct Worked {
    name: &'static str,
    present: Present,
    rows: &'static [Row],
    inputs: &'static [Input],
}

static WORKED: [Worked; 3] = [
    Worked {
        name: "channel_calls_send_and_hold",
        present: BOTH,
        rows: &[
            (Call::Open(4, 4, None), Ok(()), 0, 3, 0, 0),
            (Call::Chkout(4), Ok(()), 1, 4, 0, 1),
            (Call::Chrout(72), Ok(()), 1, 4, 0, 1),
            (Call::Chrout(73), Ok(()), 2, 4, 0, 2),
            (Call::Clrchn, Ok(()), 4, 3, 0, 3),
        ],
        inputs: &[Input::Select(false), Input::Byte(72), Input::Byte(73)],
    },
    Worked {
        name: "close_while_output_stays",
        present: BOTH,
        rows: &[
            (Call::Open(4, 4, Some(7)), Ok(()), 0, 3, 0, 0),
            (Call::Chkout(4), Ok(()), 1, 4, 0, 2),
            (Call::Chrout(65), Ok(()), 1, 4, 0, 2),
            (Call::CloseFile(4), Ok(()), 4, 4, 0, 4),
            (Call::Chrout(88), Ok(()), 4, 4, 0, 4),
            (Call::Clrchn, Ok(()), 6, 3, 128, 4),
        ],
        inputs: &[
            Input::Select(false),
            Input::Select(true),
            Input::Byte(65),
            Input::Select(false),
        ],
    },
    Worked {
        name: "unanswered_byte_stops_the_next_chkout",
        present: ONLY_FOUR,
        rows: &[
            (Call::Open(4, 4, None), Ok(()), 0, 3, 0, 0),
            (Call::Open(5, 5, None), Ok(()), 0, 3, 0, 0),
            (Call::Chkout(5), Ok(()), 1, 5, 0, 0),
            (Call::Chrout(65), Ok(()), 1, 5, 0, 0),
            (Call::Chrout(13), Ok(()), 2, 5, 128, 0),
            (Call::ClearStatus, Ok(()), 2, 5, 0, 0),
            (Call::Chkout(4), Err(MISSING), 4, 5, 128, 1),
            (Call::Clrchn, Ok(()), 5, 3, 128, 1),
        ],
        inputs: &[Input::Select(false)],
    },
];

/// Calls of files that are not open, and of the screen.
static ON_THE_SCREEN: [Row; 6] = [
    (Call::Chkout(4), Err(NOT_OPEN), 0, 3, 0, 0),
    (Call::CloseFile(4), Ok(()), 0, 3, 0, 0),
    (Call::Clrchn, Ok(()), 0, 3, 0, 0),
    (Call::Chrout(88), Ok(()), 0, 3, 0, 0),
    (Call::Chrout(13), Ok(()), 0, 3, 0, 0),
    (Call::Forget, Ok(()), 0, 3, 0, 0),
];

/// Those tables, for callers whose proofs do not read them.
fn worked_rows() -> (&'static [Worked], &'static [Row]) {
    (&WORKED, &ON_THE_SCREEN)
}

#[test]
fn worked_calls(rt: HostRuntime) {
    for calls in worked_rows().0 {
        plays(&rt, calls.name, calls.present, calls.rows, calls.inputs);
    }
}

/// What a file that is not open does, what stays on the screen, and the parts in the end.
#[test]
fn screen_and_files_that_are_not_open(rt: HostRuntime) {
    let channels = plays(&rt, "the screen", BOTH, worked_rows().1, &[]);
    let wanted = [88, 13].as_slice();
    let is_marked = channels.serial().mark() == Some(0);
    let is_shown = channels.files().as_slice().is_empty() && channels.screen() == wanted;
    let (bus, screen) = channels.into_parts();
    assert!(rt; is_marked && is_shown && bus.items() == 0 && screen.as_slice() == wanted);
}

/// What is against opening a file.
#[test]
fn stops_of_the_file_table(rt: HostRuntime) {
    let mut files = FileTable::new();
    let is_zero_refused = files.open(0, 4, None) == Err(Stop::NotInputFile);
    let mut are_ten = true;
    for number in 1..11 {
        are_ten &= files.open(number, 4, None) == Ok(());
    }
    let is_full = files.open(11, 4, None) == Err(Stop::TooManyFiles);
    let is_open = files.open(3, 5, None) == Err(Stop::FileOpen);
    files.close(3);
    let is_closed = files.get(3).is_none() && files.open(11, 5, Some(7)) == Ok(());
    let file = File {
        number: 11,
        device: 5,
        second: Some(7),
    };
    let is_found = files.get(11) == Some(file) && files.as_slice().len() == 10;
    assert!(rt; is_zero_refused && are_ten && is_full && is_open && is_closed && is_found);
}

/// Faults, their numbers and their texts.
static FAULTS: [(Fault, u8, &str); 6] = [
    (Fault::Stop(Stop::TooManyFiles), 1, "too many files"),
    (Fault::Stop(Stop::FileOpen), 2, "file open"),
    (Fault::Stop(Stop::FileNotOpen), 3, "file not open"),
    (Fault::Stop(Stop::DeviceNotPresent), 5, "device not present"),
    (Fault::Stop(Stop::NotInputFile), 6, "not input file"),
    (Fault::NoMemory, 0, "out of memory"),
];

/// Those, for a caller whose proof does not read them.
fn faults() -> &'static [(Fault, u8, &'static str)] {
    &FAULTS
}

/// Whether a fault has this number, or no number where it is 0, and this text.
fn is_told(rt: &(impl Abort + AllocGlobal), fault: Fault, number: u8, text: &str) -> bool {
    let given = match fault {
        Fault::Stop(stop) => stop.number(),
        Fault::NoMemory => 0,
    };
    let said = format!(in rt.alloc(); "{fault}").expect(rt, "memory");
    given == number && said.as_str() == text
}

#[test]
fn stops_have_numbers_and_texts(rt: HostRuntime) {
    for &(fault, number, text) in faults() {
        assert!(rt; is_told(&rt, fault, number, text), "{text}");
    }
}

/// The bytes of the screen.
static BYTES: [u8; 10] = [0, 1, 2, 3, 4, 5, 6, 7, 8, 9];

/// Those, for a caller whose proof does not read them.
fn bytes() -> &'static [u8] {
    &BYTES
}

/// Writes bytes on the screen, each the number of those before it that were not refused, and returns whether one was
/// refused: it leaves the list as it was, and the next is taken again.
fn is_byte_refused(rt: &(impl Abort + AllocGlobal)) -> bool {
    let mut channels = Channels::new(rt.alloc(), Direct::new(rt.alloc(), BOTH));
    let mut shown: u8 = 0;
    for _try in 0..10 {
        if answer(rt, &mut channels, Call::Chrout(shown)).is_ok() {
            shown = shown.saturating_add(1);
        }
        let is_shown = channels.screen().len() == usize::from(shown)
            && bytes().starts_with(channels.screen());
        assert!(rt; is_shown);
    }
    shown < 10
}

/// Makes a call with file 4, which is open with a secondary address. It is refused, and this is
/// true, exactly if it reaches a bus that has failed before it or in it.
fn is_refused(rt: &impl Abort, channels: &mut Channels<Direct>, call: Call) -> bool {
    let had_failed = channels.serial().failed();
    let reaches = channels.output() > 3 || matches!(call, Call::Chkout(_) | Call::CloseFile(_));
    match answer(rt, channels, call) {
        Ok(()) => {
            assert!(rt; !(reaches && (had_failed || channels.serial().failed())));
            false
        }
        Err(fault) => {
            assert!(rt; fault == Fault::NoMemory && reaches);
            assert!(rt; had_failed || channels.serial().failed());
            true
        }
    }
}

/// LISTEN, bytes and UNLISTEN, and then CLOSE while a byte is held back.
static SCRIPT: [Call; 8] = [
    Call::Chkout(4),
    Call::Chrout(65),
    Call::Chrout(65),
    Call::Clrchn,
    Call::Chkout(4),
    Call::Chrout(65),
    Call::Chrout(65),
    Call::CloseFile(4),
];

/// Those, for a caller whose proof does not read them.
fn script() -> &'static [Call] {
    &SCRIPT
}

/// So many LISTENs and then the script, on a new bus. It returns whether a call was refused; if none
/// was, printer 4 heard all of it.
fn is_script_refused(rt: &(impl Abort + AllocGlobal), listens: u64) -> bool {
    let mut channels = Channels::new(rt.alloc(), Direct::new(rt.alloc(), BOTH));
    let is_open = open(rt, &mut channels, 4, 4, Some(7)).is_ok();
    let mut refused = false;
    for _ in 0..listens {
        refused |= is_refused(rt, &mut channels, Call::Chkout(4));
    }
    for &call in script() {
        refused |= is_refused(rt, &mut channels, call);
    }
    let heard = channels.serial().heard(4).len() as u64;
    let is_heard = channels.serial().items() == listens.saturating_add(9)
        && heard == listens.saturating_mul(2).saturating_add(9);
    assert!(rt; is_open && (refused || is_heard));
    refused
}

/// Growths of the screen's list and of the bus. `tests/rows/growths` runs this with each allocation
/// refused in turn: at most one part then meets a refusal, and with no growth refused none does. A
/// byte for the screen that is refused changes nothing, and each call that reaches the bus after a
/// refusal by it is refused too.
#[test]
fn each_growth_refused(rt: HostRuntime) {
    let mut refused = usize::from(is_byte_refused(&rt));
    for listens in 0..8 {
        refused = refused.saturating_add(usize::from(is_script_refused(&rt, listens)));
    }
    assert!(rt; refused <= most_refusals(&rt));
}
