//! How the lines lead from one byte to the next.

ghost use Rattle.std.specs.Prelude.{◌≡◌, ◌<◌, ◌^◌};
ghost use Rattle.pr_device.specs.Following.{begun, ends, freed, is_answered, leads, shifted};
ghost use Rattle.pr_device.specs.Sound.{IsMoment, IsPlace};

use pr_wire::{Edge, Frame};

/// Where the lines are between two changes of ATN (moments in microseconds).
#[derive(Clone, Copy, Debug, PartialEq, Eq)]
pub enum Place {
    /// No byte has begun since ATN changed.
    Between,
    /// A byte has come; the moment of CLOCK's last pull in it.
    Sent(u64),
    /// CLOCK is released before a byte: the talker is ready to send.
    Opening {
        /// The moment of CLOCK's release.
        look: u64,
        /// The first moment after it at which DATA is released: all listeners are ready.
        free: Option<u64>,
        /// The talker waits for an answer to end-or-identify.
        eoi: bool,
    },
    /// CLOCK has been pulled for the first bit.
    Bits {
        /// The byte is sent with end-or-identify.
        eoi: bool,
        /// How many bits have come.
        count: u8,
        /// Their byte: each bit has come in at the top and moved the others down.
        byte: u8,
    },
}

/// The byte with one more bit.
fn shifted(byte: u8, bit: bool) -> u8
    ensures { result ≡ shifted byte bit }
{
    let top: u8 = if bit { 128 } else { 0 };
    byte / 2 + top
}

/// Whether DATA was released, and is pulled again or has stayed so for the wait.
fn is_answered(wait: u16, free: Option<u64>, edge: Edge) -> bool
    requires { IsMoment free }
    ensures { result ≡ is_answered wait free edge }
{
    match free {
        None => false,
        Some(free) => !edge.levels.line || edge.time >= free + u64::from(wait),
    }
}

/// The first moment with DATA released.
fn freed(free: Option<u64>, edge: Edge) -> Option<u64>
    ensures { result ≡ freed free edge }
{
    match free {
        None if edge.levels.line => Some(edge.time),
        _ => free,
    }
}

/// Where CLOCK's pull leads before a byte: to its bits, if DATA was released.
fn begun(free: Option<u64>, eoi: bool) -> Place
    ensures { result ≡ begun free eoi }
{
    match free {
        None => Place::Between,
        Some(_) => Place::Bits {
            eoi,
            count: 0,
            byte: 0,
        },
    }
}

impl Place {
    /// Where a moment leads at which ATN stays, after CLOCK's level before it.
    pub(crate) fn leads(self, wait: u16, clock: bool, edge: Edge) -> Place
        requires place { IsPlace self }
        requires soon { edge.time < 2 ^ 63 }
        ensures to { result ≡ leads wait self clock edge }
        ensures place { IsPlace result }
    {
        let rises = !clock && edge.levels.clock;
        match self {
            Place::Between | Place::Sent(_) if rises => Place::Opening {
                look: edge.time,
                free: None,
                eoi: false,
            },
            Place::Opening { look, free, eoi } if edge.levels.clock => Place::Opening {
                look,
                free: freed(free, edge),
                eoi: eoi || edge.levels.atn && is_answered(wait, free, edge),
            },
            Place::Opening { free, eoi, .. } => begun(free, eoi),
            Place::Bits { eoi, count, byte } if rises && count < 8 => Place::Bits {
                eoi,
                count: count + 1,
                byte: shifted(byte, edge.levels.line),
            },
            Place::Bits { count: 8, .. } if clock && !edge.levels.clock => Place::Sent(edge.time),
            _ => self,
        }
    }

    /// The byte that a moment ends at which ATN stays, after CLOCK's level before it.
    pub(crate) fn ends(self, clock: bool, edge: Edge) -> Option<Frame>
        ensures { result ≡ ends self clock edge }
    {
        match self {
            Place::Bits {
                eoi,
                count: 8,
                byte,
            } if clock && !edge.levels.clock => Some(Frame {
                attention: !edge.levels.atn,
                byte,
                eoi,
            }),
            _ => None,
        }
    }
}
