//! A bus without wires.

ghost use Rattle.std.specs.Prelude.{◌≡◌, ◌<◌, false, None, [], OnOk, vec_len, vec_capacity};
ghost use Rattle.pr_serial.specs.Hearing.{IsSamePort, HasRoom};

use crate::port::PrinterPort;
use crate::serial::Serial;
use crate::{Item, NoMemory, Present};
use pr_base::{FIRST_PRINTER, SECOND_PRINTER};
use pr_page::Input;
use std::alloc::{AllocError, Global};
use std::marker::Model;

/// A bus without wires. It keeps what was sent, and what each printer heard of it since the mark;
/// it draws on no delay numbers.
#[derive(Drop)]
pub struct Direct {
    present: Present,
    items: Vec<Item>,
    four: PrinterPort,
    five: PrinterPort,
    mark: Option<u64>,
    failed: bool,
}

impl Model for Direct {
    ghost use Rattle.pr_serial.specs.DirectState.{DirectState};

    ghost Value = { DirectState };

    ghost use Rattle.pr_serial.specs.Hearing.{Hears};
    ghost use Rattle.pr_serial.specs.HeardSinceMark.{IsReached};

    ghost view = { λ d. record { present = d.present; items = d.items.items; mark = d.mark; failed = d.failed } };

    ghost invariant = { λ d. Hears d.present 4 d.mark d.items.items d.four × Hears d.present 5 d.mark d.items.items d.five
        × IsReached d.mark d.items.items };
}

impl Direct {
    ghost use Rattle.pr_serial.specs.HeardSinceMark.{IsHeardSinceMark};

    /// Makes a bus with these printers, on which nothing was sent and nobody listens. It takes no
    /// memory.
    pub fn new(alloc: Global, present: Present) -> Direct
        ensures present { result.present ≡ present }
        ensures items { result.items ≡ [] }
        ensures mark { result.mark ≡ None }
        ensures failed { result.failed ≡ false }
    {
        Direct {
            present,
            items: Vec::new(alloc),
            four: PrinterPort::new(alloc, FIRST_PRINTER, present.four),
            five: PrinterPort::new(alloc, SECOND_PRINTER, present.five),
            mark: None,
            failed: false,
        }
    }

    /// Returns what a device heard of the items since the last [`Serial::forget`] (before the
    /// first: of all items), in order: the empty list if the device is absent. After a refusal it
    /// answers as before. It takes no memory.
    pub fn heard(&self, device: u8) -> &[Input]
        ensures { IsHeardSinceMark self.now.present self.now.mark self.now.items device result.now }
    {
        match device {
            FIRST_PRINTER => &self.four.inputs,
            SECOND_PRINTER => &self.five.inputs,
            _ => &[],
        }
    }
}

/// Makes room for one item, and for what each present printer hears of it, unless the bus has
/// failed.
///
/// All room is made before anything changes, so a refusal leaves items and inputs as they were. An
/// absent printer gets no room, since a growth that nobody needs could fail a run.
fn make_room(
    failed: bool,
    items: &mut Vec<Item>,
    four: &mut PrinterPort,
    five: &mut PrinterPort,
) -> Result<(), NoMemory>
    // it is refused where the bus has failed
    ensures works { OnOk result (failed ≡ false) }
    // what never changes
    ensures items { items.new.items ≡ items.old.items }
    ensures four { IsSamePort four.old four.new }
    ensures five { IsSamePort five.old five.new }
    // the room
    ensures items_room { OnOk result (vec_len items.new < vec_capacity items.new) }
    ensures four_room { OnOk result (HasRoom four.new) }
    ensures five_room { OnOk result (HasRoom five.new) }
{
    if failed {
        return Err(AllocError);
    }
    items.reserve(1)?;
    four.make_room()?;
    five.make_room()
}

impl Serial for Direct {
    ghost use Rattle.pr_serial.specs.DirectState.{no_delays};

    ghost printers = { λ d. d.present };

    ghost delays = { λ d. no_delays };

    ghost sent = { λ d. d.items };

    ghost marked = { λ d. d.mark };

    ghost has_failed = { λ d. d.failed };

    fn attention(&mut self, first: u8, second: Option<u8>) -> Result<bool, NoMemory> {
        if make_room(self.failed, &mut self.items, &mut self.four, &mut self.five).is_err() {
            self.failed = true;
            return Err(AllocError);
        }
        self.four.attention(first, second);
        self.five.attention(first, second);
        self.items.push_reserved(Item::Attention(first, second));
        Ok(self.present.four || self.present.five)
    }

    fn send(&mut self, byte: u8, eoi: bool) -> Result<bool, NoMemory> {
        if make_room(self.failed, &mut self.items, &mut self.four, &mut self.five).is_err() {
            self.failed = true;
            return Err(AllocError);
        }
        self.four.byte(byte);
        self.five.byte(byte);
        self.items.push_reserved(Item::Sent(byte, eoi));
        Ok(self.four.answers() || self.five.answers())
    }

    fn forget(&mut self) {
        self.four.forget();
        self.five.forget();
        self.mark = Some(self.items.len() as u64);
    }

    fn mark(&self) -> Option<u64> {
        self.mark
    }

    fn items(&self) -> u64 {
        self.items.len() as u64
    }

    fn failed(&self) -> bool {
        self.failed
    }
}
