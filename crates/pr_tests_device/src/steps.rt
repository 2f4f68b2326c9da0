//! A device alone, step by step, with moments worked out by hand.

use pr_device::{Device, Event, Speed, Timing, printing_time};
use pr_wire::Levels;

/// A moment with the levels of ATN, CLOCK and DATA, and what the device does: whether it pulls DATA, and when it wants
/// to be called.
type Row = (u64, [u8; 3], bool, Option<u64>);

/// What came of some moments: whether the device has done what the rows say, and the last thing that it has heard.
#[derive(Clone, Copy, Debug, PartialEq, Eq)]
struct Played {
    is_well: bool,
    heard: Option<Event>,
}

/// Shows a device a moment.
fn show(device: &mut Device, row: &Row, played: Played) -> Played {
    let &(now, [atn, clock, line], pulls, wake) = row;
    let levels = Levels {
        atn: atn == 1,
        clock: clock == 1,
        line: line == 1,
    };
    let step = device.step(now % (1 << 40), levels);
    let fits = step.pulls_data == pulls && step.wake == wake;
    Played {
        is_well: played.is_well && fits,
        heard: step.event.or(played.heard),
    }
}

/// Shows a device some moments.
fn play(device: &mut Device, rows: &[Row]) -> Played {
    let mut played = Played {
        is_well: true,
        heard: None,
    };
    for row in rows {
        played = show(device, row, played);
    }
    played
}

/// The device has done what the rows say, and last heard this.
fn heard(event: Option<Event>) -> Played {
    Played {
        is_well: true,
        heard: event,
    }
}

/// LISTEN to device 4 (36, the bits 00100100), with typical delays.
static LISTEN: [Row; 27] = [
    (0, [1, 1, 1], false, None),
    // ATN, then CLOCK; DATA is pulled 100 after ATN
    (1000, [0, 1, 1], false, Some(1100)),
    (1010, [0, 0, 1], false, Some(1100)),
    (1100, [0, 0, 1], true, None),
    (1100, [0, 0, 0], true, None),
    // CLOCK is released, and DATA 50 later
    (2010, [0, 1, 0], true, Some(2060)),
    (2060, [0, 1, 0], false, None),
    (2060, [0, 1, 1], false, None),
    (2100, [0, 0, 1], false, None),
    (2110, [0, 0, 0], false, None),
    (2160, [0, 1, 0], false, None),
    (2180, [0, 0, 0], false, None),
    (2250, [0, 1, 0], false, None),
    (2270, [0, 0, 1], false, None),
    (2340, [0, 1, 1], false, None),
    (2360, [0, 0, 0], false, None),
    (2430, [0, 1, 0], false, None),
    (2450, [0, 0, 0], false, None),
    (2520, [0, 1, 0], false, None),
    (2540, [0, 0, 1], false, None),
    (2610, [0, 1, 1], false, None),
    (2630, [0, 0, 0], false, None),
    (2700, [0, 1, 0], false, None),
    (2720, [0, 0, 0], false, None),
    (2790, [0, 1, 0], false, None),
    // the last pull of CLOCK: DATA is pulled 20 later
    (2810, [0, 0, 1], false, Some(2830)),
    (2830, [0, 0, 1], true, None),
];

fn listen() -> &'static [Row] {
    &LISTEN
}

/// ATN is released, and CLOCK for a byte, at whose end-or-identify the device answers 250 after DATA's release.
static LAST_BYTE: [Row; 8] = [
    (2930, [1, 0, 0], true, None),
    (3030, [1, 1, 0], true, Some(3080)),
    (3080, [1, 1, 0], false, None),
    // another listener holds DATA longer
    (3200, [1, 1, 1], false, Some(3450)),
    (3440, [1, 1, 1], false, Some(3450)),
    (3450, [1, 1, 1], true, Some(3530)),
    (3530, [1, 1, 0], false, None),
    (3600, [1, 0, 1], false, None),
];

fn last_byte() -> &'static [Row] {
    &LAST_BYTE
}

/// ATN is released, and a device that is not called leaves DATA.
static LEFT: [Row; 2] = [
    (2930, [1, 0, 0], true, Some(2950)),
    (2950, [1, 0, 0], false, None),
];

fn left() -> &'static [Row] {
    &LEFT
}

/// ATN is released, and CLOCK for a byte, while the device prints until 9000.
static PRINTING: [Row; 4] = [
    (2930, [1, 0, 0], true, None),
    (3030, [1, 1, 0], true, Some(9000)),
    (8999, [1, 1, 0], true, Some(9000)),
    (9000, [1, 1, 0], false, None),
];

fn printing() -> &'static [Row] {
    &PRINTING
}

/// Device 4 is called, and gets a byte.
fn called() -> bool {
    let mut device = Device::new(4, Timing::typical());
    let listen = play(&mut device, listen());
    let listens = device.listens();
    let byte = play(&mut device, last_byte());
    listen == heard(Some(Event::Listen)) && listens && byte == heard(None)
}

/// Device 5 is not.
fn not_called() -> bool {
    let mut device = Device::new(5, Timing::typical());
    let listen = play(&mut device, listen());
    let listens = device.listens();
    let left = play(&mut device, left());
    listen == heard(None) && !listens && left == heard(None)
}

/// Device 4 prints for a while.
fn prints() -> bool {
    let mut device = Device::new(4, Timing::typical());
    let listen = play(&mut device, listen());
    device.busy(9000);
    let byte = play(&mut device, printing());
    listen == heard(Some(Event::Listen)) && byte == heard(None)
}

/// A device that is called answers, and holds and releases DATA; another one only answers to ATN.
#[test]
fn listen_step_by_step(rt: HostRuntime) {
    assert!(rt; called() && not_called());
}

/// A printer that prints holds DATA until it has printed.
#[test]
fn a_printer_that_prints(rt: HostRuntime) {
    assert!(rt; prints());
}

/// A line of 80 characters and a line feed, one character, and a printer that takes no time.
#[test]
fn times_of_printing(rt: HostRuntime) {
    let (manual, none) = (Speed::manual(), Speed::no_time());
    let line = printing_time(480, 1, &manual);
    let character = printing_time(6, 0, &manual);
    let nothing = printing_time(480, 1, &none);
    assert!(rt; line == 2_866_667 && character == 33_334 && nothing == 0);
}
