//! What one printer hears.

ghost use Rattle.std.specs.Prelude.{◌≡◌, ◌+◌, ◌<◌, ◌==◌, ◌||◌, ◌&&◌, Bool, false, List, [], ◌++◌, OnOk, if◌then◌else◌};
ghost use Rattle.pr_serial.specs.declared.Item.{Item};
ghost use Rattle.pr_serial.specs.declared.Item.TheVariants.{Attention, Sent};
ghost use Rattle.pr_base.specs.Bytes as command;
ghost use Rattle.pr_serial.specs.Answers.{is_listener};
ghost use Rattle.pr_serial.specs.Heard.{inputs_at};
ghost use Rattle.pr_serial.specs.Hearing.{IsSamePort, HasRoom};

use crate::NoMemory;
use pr_base::{LISTEN, LOWER_CASE, UNLISTEN};
use pr_page::Input;
use std::alloc::Global;

/// How many inputs an item gives a device at most: a LISTEN with secondary address 7 selects a
/// character set twice.
pub const INPUTS_OF_AN_ITEM: usize = 2;

/// A printer's port on the bus: whether it listens, and what it has heard if it is present.
#[derive(Drop)]
pub struct PrinterPort {
    pub device: u8,
    pub present: bool,
    pub listens: bool,
    pub inputs: Vec<Input>,
}

impl PrinterPort {
    /// One that does not listen and has heard nothing.
    pub fn new(alloc: Global, device: u8, present: bool) -> PrinterPort
        ensures device { result.device ≡ device }
        ensures present { result.present ≡ present }
        ensures listens { result.listens ≡ false }
        ensures inputs { result.inputs.items ≡ [] }
    {
        PrinterPort {
            device,
            present,
            listens: false,
            inputs: Vec::new(alloc),
        }
    }

    /// Whether it is present and listens.
    pub fn answers(&self) -> bool
        ensures { result ≡ (self.now.present && self.now.listens) }
    {
        self.present && self.listens
    }

    /// Makes room for the inputs of an item, if it is present.
    pub fn make_room(&mut self) -> Result<(), NoMemory>
        ensures same { IsSamePort self.old self.new }
        ensures room { OnOk result (HasRoom self.new) }
    {
        if self.present {
            self.inputs.reserve(INPUTS_OF_AN_ITEM)?;
        }
        Ok(())
    }

    /// Hears an attention, for whose inputs there is room.
    pub fn attention(&mut self, first: u8, second: Option<u8>)
        // the caller's part
        requires device { self.old.device < 31 }
        requires room { HasRoom self.old }
        // what never changes
        ensures device { self.new.device ≡ self.old.device }
        ensures present { self.new.present ≡ self.old.present }
        // what it hears
        ensures listens { self.new.listens ≡ (if first == command.unlisten then false
            else (self.old.listens || first == command.listen + self.old.device)) }
        ensures inputs { (items : List Item) → self.new.inputs.items ≡ self.old.inputs.items ++
            (if self.old.present then inputs_at self.old.device items (Attention first second) else []) }
    {
        if first == UNLISTEN {
            self.listens = false;
        }
        if first == LISTEN + self.device {
            self.listens = true;
            if self.present {
                self.inputs.push_reserved(Input::Select(false));
                if second == Some(LOWER_CASE) {
                    self.inputs.push_reserved(Input::Select(true));
                }
            }
        }
    }

    /// Hears a byte, for whose input there is room.
    pub fn byte(&mut self, byte: u8)
        requires { HasRoom self.old }
        ensures device { self.new.device ≡ self.old.device }
        ensures present { self.new.present ≡ self.old.present }
        ensures listens { self.new.listens ≡ self.old.listens }
        ensures inputs { (items : List Item) (eoi : Bool) → self.old.listens ≡ is_listener self.old.device items → self.new.inputs.items
            ≡ self.old.inputs.items ++ (if self.old.present then inputs_at self.old.device items (Sent byte eoi) else []) }
    {
        if self.answers() {
            self.inputs.push_reserved(Input::Byte(byte));
        }
    }

    /// Forgets what it heard, and keeps the room.
    pub fn forget(&mut self)
        ensures device { self.new.device ≡ self.old.device }
        ensures present { self.new.present ≡ self.old.present }
        ensures listens { self.new.listens ≡ self.old.listens }
        ensures inputs { self.new.inputs.items ≡ [] }
    {
        self.inputs.clear();
    }
}
