//! A computer that moves as the talker of pr_bus does. With two devices it makes the trace that pr_bus makes.

use crate::bus::Bus;
use crate::edges::sum_of;
use crate::kernal::next_number;
use pr_bus::{Delays, Wires};
use pr_serial::{Item, Present, Serial};
use pr_wire::{Choices, Kind};
use std::process::Abort;

/// The raw numbers of delays that a run takes at most.
const MOST_NUMBERS: u32 = 400;

/// Chosen numbers of delays; without a seed always the same one.
fn numbers(rt: &(impl Abort + AllocGlobal), first: u16, seed: Option<u32>) -> Choices {
    let mut numbers = Vec::new(rt.alloc());
    let (mut number, mut state) = (first, seed.unwrap_or(0));
    for _ in 0..MOST_NUMBERS {
        numbers.push(number).expect(rt, "memory");
        if seed.is_some() {
            number = next_number(&mut state);
        }
    }
    Choices::new(numbers)
}

/// The computer: the bus, and its delays.
#[derive(Drop)]
struct Computer {
    bus: Bus,
    delays: Choices,
    /// The end of the last item.
    end: u64,
    /// Whether each printer listens.
    four: bool,
    five: bool,
}

impl Computer {
    /// Goes on to a delay after a moment.
    fn after(&mut self, moment: u64, kind: Kind) {
        let delay = u64::from(self.delays.next(kind));
        self.bus.advance(moment.saturating_add(delay));
    }

    /// Goes on for a delay.
    fn pause(&mut self, kind: Kind) {
        let now = self.bus.now;
        self.after(now, kind);
    }

    /// Waits until all listeners are ready, and for their answer to end-or-identify.
    fn begin(&mut self, eoi: bool) {
        self.bus.set(true, true);
        self.bus.wait(true);
        if eoi {
            self.bus.wait(false);
            self.bus.wait(true);
        }
        self.pause(if eoi { Kind::Ry } else { Kind::Ne });
    }

    /// Sends a bit: DATA is set with CLOCK's pull.
    fn bit(&mut self, level: bool) {
        self.bus.set(false, level);
        self.pause(Kind::S);
        self.bus.set(true, level);
        self.pause(Kind::V);
    }

    /// Sends a byte from CLOCK's release on.
    fn frame(&mut self, byte: u8, eoi: bool) {
        self.begin(eoi);
        let mut rest = byte;
        for _ in 0..8u8 {
            self.bit(rest % 2 == 1);
            rest /= 2;
        }
        self.bus.set(false, true);
        self.bus.wait(false);
        self.bus.check(byte, eoi);
    }

    /// Releases the lines after UNLISTEN.
    fn close(&mut self) {
        self.pause(Kind::Cr);
        self.bus.set(true, true);
        self.four = false;
        self.five = false;
    }

    /// Calls, and releases ATN.
    fn attention(&mut self, first: u8, second: Option<u8>) {
        let end = self.end;
        self.after(end, Kind::Bb);
        self.bus.atn = false;
        self.bus.set(false, true);
        self.pause(Kind::Aw);
        self.frame(first, false);
        if let Some(second) = second {
            self.pause(Kind::Aw);
            self.frame(second, false);
        }
        self.pause(Kind::R);
        self.bus.set_atn(true);
        self.four = self.four || first == 36;
        self.five = self.five || first == 37;
    }

    /// Sends a data byte, or releases CLOCK where nobody listens.
    fn byte(&mut self, byte: u8, eoi: bool) {
        let end = self.end;
        self.after(end, Kind::Bb);
        if self.four || self.five {
            self.frame(byte, eoi);
        } else {
            self.bus.set(true, true);
        }
    }

    fn item(&mut self, item: Item) {
        match item {
            Item::Attention(first, second) => {
                self.attention(first, second);
                if first == 63 {
                    self.close();
                }
            }
            Item::Sent(byte, eoi) => self.byte(byte, eoi),
        }
        self.end = self.bus.now;
    }
}

/// Sends an item on the wires of pr_bus.
fn put(rt: &impl Abort, wires: &mut Wires, item: Item) {
    assert!(rt; wires.items() < 1000);
    match item {
        Item::Attention(36, None) => wires.attention(36, None).expect(rt, "memory"),
        Item::Attention(37, Some(103)) => wires.attention(37, Some(103)).expect(rt, "memory"),
        Item::Attention(41, Some(98)) => wires.attention(41, Some(98)).expect(rt, "memory"),
        Item::Attention(_, _) => wires.attention(63, None).expect(rt, "memory"),
        Item::Sent(byte, eoi) => wires.send(byte, eoi).expect(rt, "memory"),
    };
}

/// An item.
fn some_item(seed: &mut u32) -> Item {
    let number = next_number(seed);
    let byte = (next_number(seed) & 255) as u8;
    match number % 8 {
        0 => Item::Attention(36, None),
        1 => Item::Attention(37, Some(103)),
        2 => Item::Attention(41, Some(98)),
        3 => Item::Attention(63, None),
        _ => Item::Sent(byte, number & 256 != 0),
    }
}

/// The wires of pr_bus with two printers, each of always the same delays.
fn wires_of(rt: &(impl Abort + AllocGlobal), seed: u32, four: u16, five: u16) -> Wires {
    let delays = Delays {
        computer: numbers(rt, 0, Some(seed)),
        four: numbers(rt, four, None),
        five: numbers(rt, five, None),
    };
    let present = Present {
        four: true,
        five: true,
    };
    Wires::new(rt.alloc(), present, delays).expect(rt, "memory")
}

/// The computer, with devices of these delays, and a drive that nobody calls and that does as printer 4 does.
fn computer_of(rt: &(impl Abort + AllocGlobal), seed: u32, four: u16, five: u16) -> Computer {
    Computer {
        bus: Bus::new(four, five, four),
        delays: numbers(rt, 0, Some(seed)),
        end: 0,
        four: false,
        five: false,
    }
}

/// Whether some items make the same trace with devices and with pr_bus. How many edges they make is added up.
fn run(rt: &(impl Abort + AllocGlobal), seed: &mut u32, edges: &mut u32) -> bool {
    let (four, five) = (next_number(seed), next_number(seed));
    let mut wires = wires_of(rt, *seed, four, five);
    let mut computer = computer_of(rt, *seed, four, five);
    for _ in 0..12u8 {
        let item = some_item(seed);
        put(rt, &mut wires, item);
        computer.item(item);
    }
    let made = computer.bus.record.sum();
    *edges = edges.saturating_add(made.count);
    !computer.bus.has_erred() && made == sum_of(wires.trace())
}

/// How many of some runs go well, and how many edges they make.
fn runs(rt: &(impl Abort + AllocGlobal), count: u32) -> (u32, u32) {
    let (mut seed, mut edges, mut well) = (5, 0, 0u32);
    for _ in 0..count {
        if run(rt, &mut seed, &mut edges) {
            well = well.saturating_add(1);
        }
    }
    (well, edges)
}

/// Two devices and the talker's moves make the trace of pr_bus, whatever the delays.
#[test]
fn devices_make_the_trace(rt: HostRuntime) {
    let (well, edges) = runs(&rt, 200);
    assert!(rt; well == 200 && edges > 20000, "{well} runs, {edges} edges");
}
