//! What a device hears of a byte.

ghost use Rattle.std.specs.Prelude.{◌≡◌, ◌≤◌};
ghost use Rattle.pr_device.specs.Events.{command_event, secondary_event, event_by, input_of_event};

use pr_base::{LISTEN, UNLISTEN};
use pr_page::Input;
use pr_receiver::Listener;
use pr_wire::Frame;

/// What a device hears (Programmer's Reference Guide, serial bus).
#[derive(Clone, Copy, Debug, PartialEq, Eq)]
pub enum Event {
    /// The device is called to listen.
    Listen,
    /// The secondary address, 0 to 15, of the call directly before.
    Second(u8),
    /// The same for OPEN.
    Open(u8),
    /// The same for CLOSE.
    Close(u8),
    /// A data byte, to which the device listens.
    Byte {
        byte: u8,
        /// Sent with end-or-identify: the last byte.
        eoi: bool,
    },
    /// The device was listening, and no longer is.
    Unlisten,
}

impl Event {
    /// Returns the input that the event is for a printer ([`pr_page::Printer::take`]): a call selects the
    /// graphic/upper case set, secondary address 7 the lower/upper case set, and a data byte is itself; none
    /// for other events (VIC-1525 User's Manual). So a printer gets what a receiver of pr_receiver gives.
    pub fn input(self) -> Option<Input>
        ensures { result ≡ input_of_event self }
    {
        match self {
            Event::Listen => Some(Input::Select(false)),
            Event::Second(7) => Some(Input::Select(true)),
            Event::Byte { byte, .. } => Some(Input::Byte(byte)),
            _ => None,
        }
    }
}

/// What a command says to a device that is called directly before, by its upper half.
fn secondary_event(byte: u8) -> Option<Event>
    ensures { result ≡ secondary_event byte }
{
    let number = byte % 16;
    match byte / 16 {
        6 => Some(Event::Second(number)),
        14 => Some(Event::Close(number)),
        15 => Some(Event::Open(number)),
        _ => None,
    }
}

/// What a command says to a device.
fn command_event(listener: &Listener, byte: u8) -> Option<Event>
    requires { listener.now.device ≤ 30 }
    ensures { result ≡ command_event listener.now.device listener.now.called listener.now.listens byte }
{
    if byte == LISTEN + listener.device {
        Some(Event::Listen)
    } else if byte == UNLISTEN {
        if listener.listens {
            Some(Event::Unlisten)
        } else {
            None
        }
    } else if listener.called {
        secondary_event(byte)
    } else {
        None
    }
}

/// What a byte says to a device, by what that keeps of the bytes before.
pub(crate) fn event_by(listener: &Listener, frame: Frame) -> Option<Event>
    requires { listener.now.device ≤ 30 }
    ensures { result ≡ event_by listener.now frame }
{
    if frame.attention {
        command_event(listener, frame.byte)
    } else if listener.listens {
        Some(Event::Byte {
            byte: frame.byte,
            eoi: frame.eoi,
        })
    } else {
        None
    }
}
