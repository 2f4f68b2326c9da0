//! A printer of the bus.

ghost use Rattle.std.specs.Prelude.{◌≡◌, ◌<◌, ◌&&◌, true, false, map};
ghost use Rattle.pr_wire.specs.Delays.{delay_at};
ghost use Rattle.pr_wire.specs.declared.delay.Kind.TheVariants.{At, Dr};
ghost use Rattle.pr_bus.specs.Timed as all;
ghost use Rattle.pr_bus.specs.Timed.{taking, command_hearers, data_hearers};
ghost use Rattle.pr_bus.specs.Talking.{option_list};
ghost use Rattle.pr_bus.specs.Talk.{tuned_to};
ghost use Rattle.pr_bus.specs.Printers.{printer_list, heeding, after_byte, after_freed, IsSamePrinter};

use crate::timing::ListenerTiming;
use pr_base::{LISTEN, UNLISTEN};
use pr_wire::{Choices, Kind};

/// A printer of the bus, present or not. A call that returns a delay takes the next of its numbers
/// for it; without a delay it takes none.
#[derive(Drop)]
pub struct TimedPrinter {
    /// Its device number.
    pub device: u8,
    /// Whether it is on the bus.
    pub present: bool,
    /// Whether a LISTEN to it came after the last UNLISTEN, present or not.
    pub listens: bool,
    /// The numbers that make its delays.
    pub choices: Choices,
}

impl TimedPrinter {
    /// Makes a printer that does not listen.
    pub fn new(device: u8, present: bool, choices: Choices) -> TimedPrinter
        ensures { result ≡ record { device = device; present = present; listens = false; choices = choices } }
    {
        TimedPrinter {
            device,
            present,
            listens: false,
            choices,
        }
    }

    /// Returns its delay AT, from ATN's pull to its pull of DATA, in microseconds; None if it is absent.
    pub fn attention(&mut self) -> Option<u16>
        ensures time { option_list result ≡ map (λ (p : all.TimedPrinter). delay_at At p.numbers 0) (printer_list self.old) }
        ensures after { printer_list self.new ≡ map (taking 1) (printer_list self.old) }
        ensures same { IsSamePrinter self.old self.new }
        ensures listens { self.new.listens ≡ self.old.listens }
    {
        if !self.present {
            return None;
        }
        Some(self.choices.next(Kind::At))
    }

    /// Returns its delays in a command's frame; None if it is absent.
    pub fn command(&mut self) -> Option<ListenerTiming>
        ensures hearers { option_list result ≡ command_hearers 0 (printer_list self.old) }
        ensures after { printer_list self.new ≡ map (taking 2) (printer_list self.old) }
        ensures same { IsSamePrinter self.old self.new }
        ensures listens { self.new.listens ≡ self.old.listens }
    {
        if !self.present {
            return None;
        }
        let hold = self.choices.next(Kind::H);
        let accept = self.choices.next(Kind::F);
        Some(ListenerTiming {
            hold,
            wait: 0,
            answer: 0,
            accept,
        })
    }

    /// Returns its delays in a data byte's frame, with end-or-identify or without; None if it is
    /// absent or does not listen.
    pub fn byte(&mut self, eoi: bool) -> Option<ListenerTiming>
        ensures hearers { option_list result ≡ data_hearers eoi (heeding self.old) }
        ensures after { printer_list self.new ≡ after_byte eoi self.old }
        ensures same { IsSamePrinter self.old self.new }
        ensures listens { self.new.listens ≡ self.old.listens }
    {
        if !self.present {
            return None;
        }
        if !self.listens {
            return None;
        }
        let hold = self.choices.next(Kind::H);
        let wait = self.choices.next(Kind::Ye);
        let answer = if eoi { self.choices.next(Kind::Ei) } else { 0 };
        let accept = self.choices.next(Kind::F);
        Some(ListenerTiming {
            hold,
            wait,
            answer,
            accept,
        })
    }

    /// Returns its delay DR, from ATN's release to its release of DATA, in microseconds; None if it is
    /// absent or listens, since a listener keeps DATA pulled.
    pub fn freed(&mut self) -> Option<u16>
        ensures time { (self.old.present && self.old.listens) ≡ false →
            option_list result ≡ map (λ (p : all.TimedPrinter). delay_at Dr p.numbers 0) (printer_list self.old) }
        ensures after { printer_list self.new ≡ after_freed self.old }
        ensures same { IsSamePrinter self.old self.new }
        ensures listens { self.new.listens ≡ self.old.listens }
    {
        if !self.present || self.listens {
            return None;
        }
        Some(self.choices.next(Kind::Dr))
    }

    /// Takes the first command byte of an attention: a LISTEN to it makes it listen, an UNLISTEN ends
    /// that.
    pub fn tune(&mut self, first: u8)
        requires { self.old.device < 31 }
        ensures { self.new ≡ tuned_to first self.old }
    {
        if first == UNLISTEN {
            self.listens = false;
        } else if first == LISTEN + self.device {
            self.listens = true;
        }
    }
}
