//! What a device hears of the bytes on the bus, written apart from `pr_device`, after the Programmer's Reference Guide.

use pr_device::Event;
use pr_page::Input;

/// What an oracle knows of a device.
#[derive(Clone, Copy, Debug, PartialEq, Eq)]
pub struct Oracle {
    pub address: u8,
    pub listens: bool,
    /// The byte before called the device.
    pub called: bool,
}

/// What a command says, by its upper half: LISTEN and UNLISTEN, or a secondary address.
fn command(oracle: Oracle, byte: u8) -> Option<Event> {
    match byte {
        0x20..=0x3e if byte & 0x1f == oracle.address => Some(Event::Listen),
        0x3f if oracle.listens => Some(Event::Unlisten),
        0x60..=0x6f if oracle.called => Some(Event::Second(byte & 0x0f)),
        0xe0..=0xef if oracle.called => Some(Event::Close(byte & 0x0f)),
        0xf0..=0xff if oracle.called => Some(Event::Open(byte & 0x0f)),
        _ => None,
    }
}

impl Oracle {
    /// What a byte says to the device.
    pub fn meaning(self, attention: bool, byte: u8, eoi: bool) -> Option<Event> {
        if attention {
            command(self, byte)
        } else if self.listens {
            Some(Event::Byte { byte, eoi })
        } else {
            None
        }
    }

    /// What a byte has a printer print, or select.
    pub fn input(self, attention: bool, byte: u8) -> Option<Input> {
        if !attention {
            return if self.listens {
                Some(Input::Byte(byte))
            } else {
                None
            };
        }
        if byte == 0x20 | self.address {
            Some(Input::Select(false))
        } else if byte == 0x67 && self.called {
            Some(Input::Select(true))
        } else {
            None
        }
    }

    /// What the oracle knows after a byte.
    pub fn after(self, attention: bool, byte: u8) -> Oracle {
        let calls = attention && byte == 0x20 | self.address;
        let ends = attention && byte == 0x3f;
        Oracle {
            address: self.address,
            listens: calls || self.listens && !ends,
            called: calls,
        }
    }
}
