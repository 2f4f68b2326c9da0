//! One printer: its listening part, and the paper on which it prints what that hears.

ghost use Rattle.std.specs.Prelude.{◌≡◌, ◌+◌, ◌^◌, ◌<◌, ◌≤◌, ◌++◌, ◌∷◌, ◌||◌, [], List, OnOk};
ghost use Rattle.pr_wire.specs.declared.Frame.{Frame};
ghost use Rattle.pr_recording.specs.PrintedPages.{is_byte};
ghost use Rattle.pr_recording.specs.Taking.{HasListened, HasPrinted, number_printed};

use pr_page::{Input, NoMemory, Printer};
use pr_receiver::{Listener, frames_are_heard_in_turn};
use pr_wire::Frame;
use std::alloc::Global;

/// A printer on the bus.
#[derive(Drop)]
pub struct BusPrinter {
    pub listener: Listener,
    pub printer: Printer,
    /// It has heard a byte, not calls alone.
    pub got_byte: bool,
}

/// Whether a byte has come, with one input more.
fn with_input(before: bool, input: Input) -> bool
    ensures { result ≡ (before || is_byte input) }
{
    match input {
        Input::Byte(_) => true,
        Input::Select(_) => before,
    }
}

impl BusPrinter {
    /// The printer with this device number, that no frame has reached. It takes no memory.
    pub fn new(alloc: Global, device: u8) -> BusPrinter
        ensures heard { HasPrinted device [] result }
        ensures count { number_printed result ≡ 0 }
    {
        BusPrinter {
            listener: Listener::new(device),
            printer: Printer::new(alloc),
            got_byte: false,
        }
    }

    /// Hears the next frame, and prints the input that it has for this printer, if it has one.
    ///
    /// # Errors
    ///
    /// [`NoMemory`] where a growth of the paper was refused. The frame is then heard and not printed.
    pub fn hear(&mut self, frame: Frame) -> Result<(), NoMemory>
        // the caller's part
        requires listened { HasListened self.old.listener.device self.old }
        requires device { self.old.listener.device ≤ 30 }
        requires room { number_printed self.old < 2 ^ 32 }
        // what it gives
        ensures ok { OnOk result ((frames : List Frame) → HasPrinted self.old.listener.device frames self.old →
            HasPrinted self.old.listener.device (frames ++ frame ∷ []) self.new) }
        ensures listened { HasListened self.old.listener.device self.new }
        ensures count { number_printed self.new ≤ number_printed self.old + 1 }
    {
        frames_are_heard_in_turn();
        match self.listener.hear(frame) {
            Some(input) => {
                self.got_byte = with_input(self.got_byte, input);
                self.printer.take(input)
            }
            None => Ok(()),
        }
    }
}
