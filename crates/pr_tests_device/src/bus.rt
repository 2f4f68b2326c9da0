//! Three devices on one bus, whose lines somebody moves.

use crate::edges::Record;
use crate::party::Party;
use pr_wire::{Edge, Levels};

/// So often do the devices act in one microsecond at most, and before one move of the computer.
const MOST_ACTS: u32 = 64;

/// The earlier of two moments.
fn earlier(a: Option<u64>, b: Option<u64>) -> Option<u64> {
    match (a, b) {
        (Some(a), Some(b)) => Some(a.min(b)),
        (None, moment) | (moment, None) => moment,
    }
}

/// Printers 4 and 5, a drive, and the lines.
#[derive(Drop)]
pub struct Bus {
    pub now: u64,
    /// What the computer does to the lines.
    pub atn: bool,
    pub clock: bool,
    pub data: bool,
    pub four: Party,
    pub five: Party,
    pub drive: Party,
    /// Something went wrong: nobody acts any more, or a device does what it must not.
    pub errs: bool,
    /// How many bytes the printers have printed.
    pub printed: u32,
    /// The edges of the lines.
    pub record: Record,
}

impl Bus {
    /// A bus with all lines released, and devices with the delays that raw numbers make.
    pub fn new(four: u16, five: u16, drive: u16) -> Bus {
        let mut bus = Bus {
            now: 0,
            atn: true,
            clock: true,
            data: true,
            four: Party::new(4, four),
            five: Party::new(5, five),
            drive: Party::new(8, drive),
            errs: false,
            printed: 0,
            record: Record::new(),
        };
        bus.settle();
        bus
    }

    /// DATA's level.
    pub fn line(&self) -> bool {
        self.data && !self.four.pulls && !self.five.pulls && !self.drive.pulls
    }

    /// Whether something went wrong.
    pub fn has_erred(&self) -> bool {
        self.errs || self.four.errs || self.five.errs || self.drive.errs
    }

    /// The levels of the lines.
    fn levels(&self) -> Levels {
        Levels {
            atn: self.atn,
            clock: self.clock,
            line: self.line(),
        }
    }

    /// Shows the lines to all devices, and returns whether none of them changes them.
    fn show(&mut self) -> bool {
        let levels = self.levels();
        self.four.show(self.now, levels);
        self.five.show(self.now, levels);
        self.drive.show(self.now, levels);
        self.line() == levels.line
    }

    /// Shows the lines to all devices until none of them changes them.
    pub fn settle(&mut self) {
        for _ in 0..MOST_ACTS {
            if self.show() {
                self.record = self.record.after(Edge {
                    time: self.now,
                    levels: self.levels(),
                });
                return;
            }
        }
        self.errs = true;
    }

    /// The next moment at which a device wants to act.
    fn next_wake(&self) -> Option<u64> {
        earlier(earlier(self.four.wake, self.five.wake), self.drive.wake)
    }

    /// Lets the devices act at a moment, which is later than now.
    fn act(&mut self, wake: u64) {
        self.errs = self.errs || wake <= self.now;
        self.now = wake;
        self.settle();
    }

    /// Goes on to a moment. The devices act first.
    pub fn advance(&mut self, to: u64) {
        for _ in 0..MOST_ACTS {
            match self.next_wake() {
                Some(wake) if wake <= to => self.act(wake),
                _ => {
                    self.now = to;
                    return;
                }
            }
        }
        self.errs = true;
    }

    /// Goes on for some microseconds.
    pub fn pause(&mut self, time: u64) {
        self.advance(self.now.saturating_add(time));
    }

    /// Waits for a level of DATA. Where no device wants to act, that is a deadlock.
    pub fn wait(&mut self, level: bool) {
        for _ in 0..MOST_ACTS {
            if self.line() == level {
                return;
            }
            match self.next_wake() {
                Some(wake) => self.act(wake),
                None => break,
            }
        }
        self.errs = true;
    }

    /// Moves CLOCK and DATA.
    pub fn set(&mut self, clock: bool, data: bool) {
        self.clock = clock;
        self.data = data;
        self.settle();
    }

    /// Moves ATN.
    pub fn set_atn(&mut self, atn: bool) {
        self.atn = atn;
        self.settle();
    }

    /// Looks whether each device has heard what a byte says to it, and nothing else.
    pub fn check(&mut self, byte: u8, eoi: bool) {
        let attention = !self.atn;
        let four = self.four.check(attention, byte, eoi);
        let five = self.five.check(attention, byte, eoi);
        self.drive.check(attention, byte, eoi);
        if four || five {
            self.printed = self.printed.saturating_add(1);
        }
    }
}
