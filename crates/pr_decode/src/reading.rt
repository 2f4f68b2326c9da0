//! Readings: bytes with their moments (the Programmer's Reference Guide's timing of the serial bus). All
//! times are in microseconds, as those of the edges.

ghost use Rattle.std.specs.Prelude.{◌≡◌};
ghost use Rattle.pr_decode.specs.Steps.{begun_transfer, weight, widened, with_bit};

use pr_wire::Edge;

/// A pulse in which DATA is pulled while CLOCK stays released: end-or-identify.
#[derive(Clone, Copy, Debug, PartialEq, Eq)]
pub struct Pulse {
    /// DATA is pulled.
    pub pulled: u64,
    /// DATA is released again.
    pub released: u64,
}

/// What comes before a byte's bits, while CLOCK is released.
#[derive(Clone, Copy, Debug, PartialEq, Eq)]
pub struct Opening {
    /// ATN is pulled when DATA is released: a command. Else a data byte.
    pub command: bool,
    /// Ready to send: CLOCK is released while DATA is pulled.
    pub ready_to_send: u64,
    /// Ready for data: DATA is released, by the last of the listeners.
    pub ready_for_data: u64,
    /// The first pulse of DATA after that: end-or-identify.
    pub pulse: Option<Pulse>,
}

/// The shortest and the longest of the same halves of a byte's bits, which are what a profile
/// bounds. Both are 0 where it has no bit.
#[derive(Clone, Copy, Debug, PartialEq, Eq)]
pub struct Halves {
    pub shortest: u64,
    pub longest: u64,
}

/// A byte on the wires, as far as it came.
#[derive(Clone, Copy, Debug, PartialEq, Eq)]
pub struct Transfer {
    pub opening: Opening,
    /// CLOCK's first pull: the bits begin.
    pub pull: u64,
    /// How many bits came whole, at most eight. A bit that CLOCK was released for and that did not
    /// end is not counted.
    pub bits: u8,
    /// The number of these bits, the lowest first.
    pub byte: u8,
    /// How long CLOCK is pulled in a bit.
    pub low: Halves,
    /// How long CLOCK is released in a bit.
    pub high: Halves,
    /// CLOCK's last pull.
    pub last_pull: u64,
}

/// How a whole byte ends.
#[derive(Clone, Copy, Debug, PartialEq, Eq)]
pub enum FrameEnd {
    /// DATA is pulled after the last pull of CLOCK, and CLOCK is pulled still: the byte is acknowledged.
    Acknowledged(u64),
    /// CLOCK is released, or ATN pulled, before that.
    Unacknowledged(u64),
    /// The recording ends before that.
    Cut,
}

/// What ends a byte before its eight bits.
#[derive(Clone, Copy, Debug, PartialEq, Eq)]
pub enum IncompleteEnd {
    /// ATN is pulled, and CLOCK was released for a first bit: before that nothing is said.
    Attention(u64),
    /// CLOCK is released for more than 1000 microseconds (profile); this is the first edge after that.
    ClockTimeout(u64),
    /// The recording ends.
    Cut,
}

/// What a recording says at one place.
#[derive(Clone, Copy, Debug, PartialEq, Eq)]
pub enum Reading {
    /// A whole byte.
    Frame(Transfer, FrameEnd),
    /// A byte begun and not ended.
    IncompleteByte(Transfer, IncompleteEnd),
}

/// What the number of the next bit counts for, after this many bits.
fn weight(bits: u8) -> u8
    ensures { result ≡ weight bits }
{
    match bits {
        0 => 1,
        1 => 2,
        2 => 4,
        3 => 8,
        4 => 16,
        5 => 32,
        6 => 64,
        _ => 128,
    }
}

impl Halves {
    /// One half more comes, after those of this many bits.
    #[inline(always)]
    fn push(&mut self, bits: u8, half: u64)
        ensures { self.new ≡ widened bits self.old half }
    {
        if bits == 0 {
            self.shortest = half;
            self.longest = half;
        } else {
            self.shortest = self.shortest.min(half);
            self.longest = self.longest.max(half);
        }
    }
}

impl Transfer {
    /// A byte whose bits begin with this edge, CLOCK's first pull.
    pub(crate) fn begun(opening: Opening, edge: Edge) -> Transfer
        ensures { result ≡ begun_transfer opening edge }
    {
        let none = Halves {
            shortest: 0,
            longest: 0,
        };
        Transfer {
            opening,
            pull: edge.time,
            bits: 0,
            byte: 0,
            low: none,
            high: none,
            last_pull: edge.time,
        }
    }

    /// One bit more comes, by the edges that release CLOCK and pull it again.
    #[inline(always)]
    pub(crate) fn push_bit(&mut self, up: Edge, down: Edge)
        ensures { self.new ≡ with_bit self.old up down }
    {
        let bits = self.bits;
        let low = up.time.saturating_sub(self.last_pull);
        let high = down.time.saturating_sub(up.time);
        let bit = if up.levels.line { weight(bits) } else { 0 };
        self.low.push(bits, low);
        self.high.push(bits, high);
        self.bits = bits.saturating_add(1);
        self.byte = self.byte.saturating_add(bit);
        self.last_pull = down.time;
    }
}
