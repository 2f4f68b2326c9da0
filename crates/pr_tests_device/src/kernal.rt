//! A computer that moves as the KERNAL does: ATN before CLOCK, DATA set after CLOCK's pull, byte to byte without a
//! pause, and CLOCK released for a moment before UNLISTEN.

use crate::bus::Bus;

/// How long the computer waits at most for an acknowledgement, in microseconds.
const LONGEST_WAIT: u64 = 1000;

/// Waits until all listeners are ready, and for their answer to end-or-identify, and pulls CLOCK.
fn begin(bus: &mut Bus, eoi: bool) {
    if eoi {
        bus.wait(true);
        bus.wait(false);
    }
    bus.wait(true);
    bus.pause(24);
    bus.set(false, true);
}

/// Sends a bit: DATA is set after CLOCK's pull, and released with the next one.
fn bit(bus: &mut Bus, level: bool) {
    bus.pause(17);
    bus.set(false, level);
    bus.pause(43);
    bus.set(true, level);
    bus.pause(19);
    bus.set(false, true);
}

/// Sends the bits of a byte, the lowest first.
fn bits(bus: &mut Bus, byte: u8) {
    let mut rest = byte;
    for _ in 0..8u8 {
        bit(bus, rest % 2 == 1);
        rest /= 2;
    }
}

/// Sends a byte, once CLOCK is pulled and a device holds DATA.
fn send(bus: &mut Bus, byte: u8, eoi: bool) {
    bus.errs = bus.errs || bus.line();
    bus.set(true, true);
    begin(bus, eoi);
    bits(bus, byte);
    let latest = bus.now.saturating_add(LONGEST_WAIT);
    bus.wait(false);
    bus.errs = bus.errs || bus.now > latest;
    bus.check(byte, eoi);
}

/// Pulls ATN and then CLOCK, and sends a command.
fn command(bus: &mut Bus, byte: u8) {
    bus.set_atn(false);
    bus.pause(8);
    bus.set(false, true);
    bus.pause(1000);
    send(bus, byte, false);
}

/// Calls a device with a secondary address, and releases ATN.
fn call(bus: &mut Bus, device: u8, second: u8) {
    command(bus, device | 0x20);
    bus.pause(30);
    send(bus, second, false);
    bus.set_atn(true);
    bus.pause(70);
}

/// Sends a command of UNLISTEN, and releases the lines.
fn unlisten(bus: &mut Bus) {
    bus.set(true, true);
    bus.pause(6);
    command(bus, 0x3f);
    bus.set_atn(true);
    bus.pause(60);
    bus.set(true, true);
    bus.pause(200);
    bus.errs = bus.errs || !bus.line();
}

/// Sends bytes, the last with end-or-identify.
fn send_all(bus: &mut Bus, bytes: &[u8]) {
    for (at, &byte) in bytes.iter().enumerate() {
        send(bus, byte, at.saturating_add(1) == bytes.len());
        bus.pause(1);
    }
}

/// Calls a device with a secondary address, and sends it bytes.
fn talk(bus: &mut Bus, device: u8, second: u8, bytes: &[u8]) {
    call(bus, device, second);
    send_all(bus, bytes);
    unlisten(bus);
}

/// OPEN 1,4,7 with a name, PRINT# to it, the same to a drive, and CLOSE.
fn one_session() -> Bus {
    let mut bus = Bus::new(0, 9999, 57);
    talk(&mut bus, 4, 0xf7, b"N");
    talk(&mut bus, 4, 0x67, b"HELLO\x0d");
    talk(&mut bus, 8, 0x62, b"DATA");
    talk(&mut bus, 5, 0x60, b"\x00\xff\x55\xaa");
    talk(&mut bus, 4, 0xe7, b"");
    talk(&mut bus, 9, 0x60, b"");
    bus
}

/// Eleven of these bytes are for printers.
#[test]
fn a_session(rt: HostRuntime) {
    let bus = one_session();
    assert!(rt; !bus.has_erred() && bus.printed == 11);
}

/// A byte that the drive sends, while the computer listens too.
fn forward(bus: &mut Bus, byte: u8, eoi: bool) {
    bus.set(true, false);
    bus.pause(30);
    bus.set(true, true);
    begin(bus, eoi);
    bits(bus, byte);
    bus.pause(90);
    bus.set(false, false);
    bus.check(byte, eoi);
    bus.pause(100);
}

/// After TALK the computer pulls DATA and releases ATN and CLOCK, and the drive pulls CLOCK.
fn turn_around(bus: &mut Bus) {
    bus.set(false, false);
    bus.set_atn(true);
    bus.set(true, false);
    bus.pause(80);
    bus.set(false, false);
    bus.pause(100);
}

/// Printer 4 is called, and drive 9, which is not one of the devices here, is called to talk.
fn drive_session() -> Bus {
    let mut bus = Bus::new(31, 5, 57);
    call(&mut bus, 4, 0x60);
    bus.pause(80);
    command(&mut bus, 0x49);
    bus.pause(30);
    send(&mut bus, 0x62, false);
    turn_around(&mut bus);
    forward(&mut bus, 0x41, false);
    forward(&mut bus, 0x0d, true);
    bus
}

/// A drive talks to a printer that listens. The printer hears the drive's bytes.
#[test]
fn a_drive_talks(rt: HostRuntime) {
    let bus = drive_session();
    assert!(rt; !bus.has_erred() && bus.printed == 2);
}

/// Numbers that look random (the multiplier and the addend of Numerical Recipes).
pub fn next_number(seed: &mut u32) -> u16 {
    *seed = seed.wrapping_mul(1_664_525).wrapping_add(1_013_904_223);
    (*seed >> 16) as u16
}

/// The devices that sessions call: two printers, a drive, and one that is not there.
fn some_device(number: u16) -> u8 {
    match number % 4 {
        0 => 4,
        1 => 5,
        2 => 8,
        _ => 11,
    }
}

/// The secondary addresses of sessions: two sets of characters, CLOSE and OPEN.
fn some_second(number: u16) -> u8 {
    match number % 4 {
        0 => 0x60,
        1 => 0x67,
        2 => 0xe1,
        _ => 0xff,
    }
}

/// Lets the printers print for some time, or not.
fn print_on(bus: &mut Bus, seed: &mut u32) {
    let until = bus.now.saturating_add(u64::from(next_number(seed)));
    let number = next_number(seed);
    if number % 2 == 0 {
        bus.four.busy(until);
    }
    if number % 3 == 0 {
        bus.five.busy(until.saturating_add(5000));
    }
}

/// Sends a few bytes, the last with end-or-identify.
fn send_some(bus: &mut Bus, seed: &mut u32) {
    let count = next_number(seed) % 9;
    for left in 0..count {
        let byte = (next_number(seed) & 0xff) as u8;
        send(bus, byte, left.saturating_add(1) == count);
        bus.pause(1);
    }
}

/// One call with some bytes, to a device that may not be there, while a printer may still print.
fn part(bus: &mut Bus, seed: &mut u32) {
    print_on(bus, seed);
    let device = some_device(next_number(seed));
    let second = some_second(next_number(seed));
    call(bus, device, second);
    if device != 11 {
        send_some(bus, seed);
    }
    unlisten(bus);
}

/// Whether a session of some parts, with devices of chosen delays, ends without a deadlock, and prints what is sent.
fn session(seed: &mut u32, printed: &mut u32) -> bool {
    let mut bus = Bus::new(next_number(seed), next_number(seed), next_number(seed));
    for _ in 0..4u8 {
        part(&mut bus, seed);
    }
    *printed = printed.saturating_add(bus.printed);
    !bus.has_erred()
}

/// How many of some sessions go well, and how many bytes are printed in them.
fn sessions(count: u32) -> (u32, u32) {
    let (mut seed, mut printed, mut well) = (1525, 0, 0u32);
    for _ in 0..count {
        if session(&mut seed, &mut printed) {
            well = well.saturating_add(1);
        }
    }
    (well, printed)
}

/// A thousand sessions end without a deadlock, and each device hears what is sent to it.
#[test]
fn a_thousand_sessions(rt: HostRuntime) {
    let (well, printed) = sessions(1000);
    assert!(rt;
        well == 1000 && printed > 5000,
        "{well} sessions, {printed} bytes"
    );
}
