//! A device on the bus, with what it does, what it has heard, and what it was to hear.

ghost use Rattle.std.specs.Prelude.{◌≤◌};

use crate::oracle::Oracle;
use pr_device::{Device, Event, Timing};
use pr_wire::{Kind, Levels, bounds};

/// No session lasts so long, in microseconds.
const LONGEST: u64 = 1 << 40;

/// A device, with what it does.
#[derive(Drop)]
pub struct Party {
    device: Device,
    oracle: Oracle,
    pub pulls: bool,
    pub wake: Option<u64>,
    /// What it has heard since the computer looked last.
    heard: Option<Event>,
    /// It has done what it must not do.
    pub errs: bool,
}

/// The delay of a kind for a raw number.
fn delay(kind: Kind, number: u16) -> u16 {
    let (least, _, greatest) = bounds(kind);
    let count = greatest.saturating_sub(least).saturating_add(1);
    least.saturating_add(number.checked_rem(count).unwrap_or(0))
}

/// The delays that a raw number makes.
pub fn timing_of(number: u16) -> Timing {
    Timing {
        attention: delay(Kind::At, number),
        hold: delay(Kind::H, number),
        wait: delay(Kind::Ye, number),
        answer: delay(Kind::Ei, number),
        accept: delay(Kind::F, number),
        leave: delay(Kind::Dr, number),
    }
}

/// A device with the delays that a raw number makes.
fn device_of(address: u8, number: u16) -> Device
    requires least { 4 ≤ address }
    requires greatest { address ≤ 30 }
{
    let timing = timing_of(number);
    if timing.is_within_bounds() {
        Device::new(address, timing)
    } else {
        Device::new(address, Timing::typical())
    }
}

impl Party {
    /// A device that nobody has called, with the delays that a raw number makes.
    pub fn new(address: u8, number: u16) -> Party
        requires least { 4 ≤ address }
        requires greatest { address ≤ 30 }
    {
        Party {
            device: device_of(address, number),
            oracle: Oracle {
                address,
                listens: false,
                called: false,
            },
            pulls: false,
            wake: None,
            heard: None,
            errs: !timing_of(number).is_within_bounds(),
        }
    }

    /// Shows it the lines. It hears one thing at most before the computer looks.
    pub fn show(&mut self, now: u64, levels: Levels) {
        if now >= LONGEST {
            self.errs = true;
            return;
        }
        let step = self.device.step(now, levels);
        self.pulls = step.pulls_data;
        self.wake = step.wake;
        if step.event.is_some() {
            self.errs = self.errs || self.heard.is_some();
            self.heard = step.event;
        }
    }

    /// Whether it has heard what a byte says to it, and nothing else, and would print what the oracle says.
    fn has_heard(&self, attention: bool, byte: u8, eoi: bool) -> bool {
        let input = match self.heard {
            Some(event) => event.input(),
            None => None,
        };
        self.heard == self.oracle.meaning(attention, byte, eoi)
            && input == self.oracle.input(attention, byte)
    }

    /// Looks whether it has heard what a byte says to it. Returns whether the byte is for it to print.
    pub fn check(&mut self, attention: bool, byte: u8, eoi: bool) -> bool {
        let is_well = self.has_heard(attention, byte, eoi);
        self.oracle = self.oracle.after(attention, byte);
        let listens = self.device.listens();
        self.errs = self.errs || !is_well || listens != self.oracle.listens;
        self.heard = None;
        !attention && listens
    }

    /// Lets it print until a moment.
    pub fn busy(&mut self, until: u64) {
        self.device.busy(until);
    }
}
