//! What the acknowledged bytes before a reading come to: it decides which byte of an attention a command is, and
//! what data bytes say.
//!
//! A byte that is not acknowledged changes nothing: for the listeners it did not come.

ghost use Rattle.std.specs.Prelude.{◌≡◌};
ghost use Rattle.pr_report.specs.Contexts.{after_frame, after_reading, answered, at_start, is_behind_data, last_after, listens_after, sending_of, talker_after, unasked};

use pr_base::{FIRST_PRINTER, LISTEN, SECOND_PRINTER, SECONDARY, UNLISTEN};
use pr_decode::{FrameEnd, Reading};
use pr_wire::ByteRole;

/// UNTALK: no device talks any more (Programmer's Reference Guide, serial bus).
pub(crate) const UNTALK: u8 = 0x5f;

/// The last acknowledged byte before a reading. It decides whether a command begins an attention, and
/// whether a data byte needs a heading.
#[derive(Clone, Copy, Debug, PartialEq, Eq)]
pub enum Preceding {
    /// Nothing, UNLISTEN, or an attention's second command: the next command begins an attention.
    Nothing,
    /// Another command that began an attention: this one's second may follow.
    Command,
    /// A data byte.
    Data,
}

/// Who sends data bytes, by the commands so far.
#[derive(Clone, Copy, Debug, PartialEq, Eq)]
pub enum Talker {
    /// The computer.
    Computer,
    /// The last command is TALK to this device: after a second one the device talks.
    Asked(u8),
    /// This device, until UNTALK or another TALK.
    Device(u8),
}

/// What the acknowledged bytes before a reading come to.
#[derive(Clone, Copy, Debug, PartialEq, Eq)]
pub struct Context {
    /// The last of them.
    pub last: Preceding,
    /// Printer 4 or 5 listens: LISTEN came, and no UNLISTEN since.
    pub printer_listens: bool,
    /// Who sends data bytes.
    pub talker: Talker,
}

impl Context {
    /// Before the first reading: nobody listens, and the computer talks.
    pub fn new() -> Context
        ensures { result ≡ at_start }
    {
        Context {
            last: Preceding::Nothing,
            printer_listens: false,
            talker: Talker::Computer,
        }
    }

    /// Takes a reading, and returns what comes before the next one: a byte that is not acknowledged
    /// changes nothing.
    pub fn after(self, reading: &Reading) -> Context
        ensures { result ≡ after_reading self reading.now }
    {
        match reading {
            Reading::Frame(transfer, FrameEnd::Acknowledged(_)) => {
                let sending = self.last.sending(transfer.opening.command, transfer.byte);
                self.after_frame(sending, transfer.byte)
            }
            _ => self,
        }
    }

    /// Takes an acknowledged byte.
    fn after_frame(self, sending: ByteRole, byte: u8) -> Context
        ensures { result ≡ after_frame self sending byte }
    {
        Context {
            last: last_after(sending, byte),
            printer_listens: listens_after(self.printer_listens, sending, byte),
            talker: talker_after(self.talker, sending, byte),
        }
    }
}

impl Preceding {
    /// Which byte of the bus a frame is.
    pub(crate) fn sending(self, command: bool, byte: u8) -> ByteRole
        ensures { result ≡ sending_of self command byte }
    {
        if !command {
            return ByteRole::Data;
        }
        match self {
            Preceding::Nothing | Preceding::Data => ByteRole::First,
            Preceding::Command => {
                if byte < SECONDARY {
                    ByteRole::First
                } else {
                    ByteRole::Second
                }
            }
        }
    }

    /// Whether a data byte comes before.
    pub(crate) fn is_data(self) -> bool
        ensures { result ≡ is_behind_data self }
    {
        match self {
            Preceding::Nothing | Preceding::Command => false,
            Preceding::Data => true,
        }
    }
}

/// What comes before the byte after an acknowledged one.
fn last_after(sending: ByteRole, byte: u8) -> Preceding
    ensures { result ≡ last_after sending byte }
{
    match sending {
        ByteRole::First => {
            if byte == UNLISTEN {
                Preceding::Nothing
            } else {
                Preceding::Command
            }
        }
        ByteRole::Second => Preceding::Nothing,
        ByteRole::Data => Preceding::Data,
    }
}

/// Whether a printer listens after an acknowledged byte.
fn listens_after(listens: bool, sending: ByteRole, byte: u8) -> bool
    ensures { result ≡ listens_after listens sending byte }
{
    match sending {
        ByteRole::First => {
            if byte == LISTEN + FIRST_PRINTER || byte == LISTEN + SECOND_PRINTER {
                true
            } else if byte == UNLISTEN {
                false
            } else {
                listens
            }
        }
        ByteRole::Second | ByteRole::Data => listens,
    }
}

impl Talker {
    /// After a command that is not TALK: one that was asked to talk is asked no more.
    fn unasked(self) -> Talker
        ensures { result ≡ unasked self }
    {
        match self {
            Talker::Asked(_) | Talker::Computer => Talker::Computer,
            Talker::Device(device) => Talker::Device(device),
        }
    }

    /// After an attention's second command: one that was asked to talk does.
    fn answered(self) -> Talker
        ensures { result ≡ answered self }
    {
        match self {
            Talker::Computer => Talker::Computer,
            Talker::Asked(device) | Talker::Device(device) => Talker::Device(device),
        }
    }
}

/// Who sends data bytes after an acknowledged byte.
fn talker_after(talker: Talker, sending: ByteRole, byte: u8) -> Talker
    ensures { result ≡ talker_after talker sending byte }
{
    match sending {
        ByteRole::First => {
            if byte == UNTALK {
                Talker::Computer
            } else if byte / 32 == 2 {
                Talker::Asked(byte % 32)
            } else {
                talker.unasked()
            }
        }
        ByteRole::Second => talker.answered(),
        ByteRole::Data => talker,
    }
}
