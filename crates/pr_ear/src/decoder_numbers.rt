//! How a decoder is held in plain numbers, which a caller of another language can own.

ghost use Rattle.std.specs.Prelude.{◌≡◌};
ghost use Rattle.pr_ear.specs.Decoding.{byte_numbers, reading_numbers};
ghost use Rattle.pr_ear.specs.DecoderTaken.{DecodersComeBack, byte_from, byte_in, begun_in, called_in, decoder_by, first_in, last_in, no_edge, pulse_from, sent_in, stored, stretch_by, transfer_by, turn1, turn2, turn3, turn4, turns_by, turns_in, turns_number};

use crate::numbers::{NO_EDGE, bit, wire_for};
use crate::{WireEdge, edge_for};
use pr_decode::{
    ClockPhase, DataTransitions, Decoder, FrameEnd, Halves, IncompleteEnd, Opening, Pulse, Reading,
    Transfer,
};

/// A byte on the wires as far as it came, with its moments in microseconds. What it has not is 0.
#[repr(C)]
#[derive(Clone, Copy, Debug, PartialEq, Eq)]
pub struct WireByte {
    /// The look: CLOCK is released and DATA is pulled.
    pub look: u64,
    /// DATA is released: all listeners are ready.
    pub ready: u64,
    /// End-or-identify: DATA is pulled.
    pub answered: u64,
    /// And released again.
    pub answer_ended: u64,
    /// CLOCK's first pull: the bits begin.
    pub pull: u64,
    /// The shortest time for which CLOCK is pulled in a bit.
    pub shortest_low: u64,
    /// The longest.
    pub longest_low: u64,
    /// The shortest time for which CLOCK is released in a bit.
    pub shortest_high: u64,
    /// The longest.
    pub longest_high: u64,
    /// CLOCK's last pull.
    pub last_pull: u64,
    /// 1: a command; 0: a data byte.
    pub command: u8,
    /// 1: with end-or-identify.
    pub eoi: u8,
    /// How many bits came whole, at most eight.
    pub bits: u8,
    /// The number of these bits, the lowest first.
    pub byte: u8,
}

/// What a recording says at one place.
#[repr(C)]
#[derive(Clone, Copy, Debug, PartialEq, Eq)]
pub struct WireReading {
    pub byte: WireByte,
    /// The moment of its end, in microseconds; 0 where the recording ends before.
    pub end: u64,
    /// 0 nothing; a whole byte: 1 acknowledged, 2 not acknowledged, 3 cut by the recording's end; a byte
    /// begun and not ended: 4 ATN was pulled, 5 CLOCK was released for too long, 6 cut by the recording's
    /// end.
    pub kind: u8,
}

/// What a caller keeps of a recording between two edges. The numbers are this library's: a caller writes
/// none of them. All numbers mean some decoder: more than four `turns` are four, and a `begun`, `called`,
/// `sent`, `command` or `eoi` that is not 1 is 0.
#[repr(C)]
#[derive(Clone, Copy, Debug, PartialEq, Eq)]
pub struct WireDecoder {
    /// The first edge of the stretch in which CLOCK stays as it is.
    pub first: WireEdge,
    /// The edge taken last.
    pub last: WireEdge,
    /// The first edge at which DATA has turned in the stretch.
    pub turn1: WireEdge,
    /// The second.
    pub turn2: WireEdge,
    /// The third.
    pub turn3: WireEdge,
    /// The fourth.
    pub turn4: WireEdge,
    /// The byte that has begun.
    pub byte: WireByte,
    /// 1: an edge was taken.
    pub begun: u8,
    /// 1: the stretch's first edge pulls ATN.
    pub called: u8,
    /// How many edges at which DATA has turned are kept.
    pub turns: u8,
    /// 1: a byte has begun.
    pub sent: u8,
}

/// The numbers of no byte.
pub const NO_BYTE: WireByte = WireByte {
    look: 0,
    ready: 0,
    answered: 0,
    answer_ended: 0,
    pull: 0,
    shortest_low: 0,
    longest_low: 0,
    shortest_high: 0,
    longest_high: 0,
    last_pull: 0,
    command: 0,
    eoi: 0,
    bits: 0,
    byte: 0,
};

/// The numbers of a decoder that has taken no edge.
const NO_DECODER: WireDecoder = WireDecoder {
    first: NO_EDGE,
    last: NO_EDGE,
    turn1: NO_EDGE,
    turn2: NO_EDGE,
    turn3: NO_EDGE,
    turn4: NO_EDGE,
    byte: NO_BYTE,
    begun: 0,
    called: 0,
    turns: 0,
    sent: 0,
};

/// A byte as far as it came, as numbers.
fn numbers_of_byte(transfer: &Transfer) -> WireByte
    ensures { result ≡ byte_numbers transfer.now }
{
    let (eoi, answered, answer_ended) = match transfer.opening.pulse {
        None => (0, 0, 0),
        Some(pulse) => (1, pulse.pulled, pulse.released),
    };
    WireByte {
        look: transfer.opening.ready_to_send,
        ready: transfer.opening.ready_for_data,
        answered,
        answer_ended,
        pull: transfer.pull,
        shortest_low: transfer.low.shortest,
        longest_low: transfer.low.longest,
        shortest_high: transfer.high.shortest,
        longest_high: transfer.high.longest,
        last_pull: transfer.last_pull,
        command: bit(transfer.opening.command),
        eoi,
        bits: transfer.bits,
        byte: transfer.byte,
    }
}

/// A reading, if there is one, as numbers.
pub fn numbers_of_reading(reading: Option<Reading>) -> WireReading
    ensures { result ≡ reading_numbers reading }
{
    let Some(reading) = reading else {
        return WireReading {
            byte: NO_BYTE,
            end: 0,
            kind: 0,
        };
    };
    let (transfer, kind, end) = match reading {
        Reading::Frame(transfer, FrameEnd::Acknowledged(time)) => (transfer, 1, time),
        Reading::Frame(transfer, FrameEnd::Unacknowledged(time)) => (transfer, 2, time),
        Reading::Frame(transfer, FrameEnd::Cut) => (transfer, 3, 0),
        Reading::IncompleteByte(transfer, IncompleteEnd::Attention(time)) => (transfer, 4, time),
        Reading::IncompleteByte(transfer, IncompleteEnd::ClockTimeout(time)) => (transfer, 5, time),
        Reading::IncompleteByte(transfer, IncompleteEnd::Cut) => (transfer, 6, 0),
    };
    WireReading {
        byte: numbers_of_byte(&transfer),
        end,
        kind,
    }
}

/// The numbers with those of the turns.
fn with_turns(numbers: WireDecoder, turns: &DataTransitions) -> WireDecoder
    requires { (numbers.turn1 ≡ no_edge) × (numbers.turn2 ≡ no_edge) × (numbers.turn3 ≡ no_edge) × (numbers.turn4 ≡ no_edge) }
    ensures { result ≡ record numbers {
      turns = turns_number turns.now;
      turn1 = turn1 turns.now;
      turn2 = turn2 turns.now;
      turn3 = turn3 turns.now;
      turn4 = turn4 turns.now;
    } }
{
    match turns {
        DataTransitions::Still => WireDecoder {
            turns: 0,
            ..numbers
        },
        DataTransitions::Once(a) => WireDecoder {
            turns: 1,
            turn1: wire_for(*a),
            ..numbers
        },
        DataTransitions::Twice(a, b) => WireDecoder {
            turns: 2,
            turn1: wire_for(*a),
            turn2: wire_for(*b),
            ..numbers
        },
        DataTransitions::Thrice(a, b, c) => WireDecoder {
            turns: 3,
            turn1: wire_for(*a),
            turn2: wire_for(*b),
            turn3: wire_for(*c),
            ..numbers
        },
        DataTransitions::Often(a, b, c, d) => WireDecoder {
            turns: 4,
            turn1: wire_for(*a),
            turn2: wire_for(*b),
            turn3: wire_for(*c),
            turn4: wire_for(*d),
            ..numbers
        },
    }
}

/// The numbers of a decoder.
pub fn store(decoder: &Decoder) -> WireDecoder
    ensures { result ≡ stored decoder.now }
{
    let numbers = match &decoder.stretch {
        None => NO_DECODER,
        Some(stretch) => with_turns(
            WireDecoder {
                first: wire_for(stretch.first),
                last: wire_for(stretch.last),
                begun: 1,
                called: bit(stretch.attention),
                ..NO_DECODER
            },
            &stretch.turns,
        ),
    };
    match &decoder.transfer {
        None => numbers,
        Some(transfer) => WireDecoder {
            byte: numbers_of_byte(transfer),
            sent: 1,
            ..numbers
        },
    }
}

/// The turns that numbers mean.
fn turns_for(numbers: &WireDecoder) -> DataTransitions
    ensures { result ≡ turns_by numbers.now }
{
    let (a, b) = (edge_for(numbers.turn1), edge_for(numbers.turn2));
    let (c, d) = (edge_for(numbers.turn3), edge_for(numbers.turn4));
    match numbers.turns {
        0 => DataTransitions::Still,
        1 => DataTransitions::Once(a),
        2 => DataTransitions::Twice(a, b),
        3 => DataTransitions::Thrice(a, b, c),
        _ => DataTransitions::Often(a, b, c, d),
    }
}

/// The stretch that numbers mean, if an edge was taken.
fn stretch_for(numbers: &WireDecoder) -> Option<ClockPhase>
    ensures { result ≡ stretch_by numbers.now }
{
    if numbers.begun == 1 {
        Some(ClockPhase {
            attention: numbers.called == 1,
            first: edge_for(numbers.first),
            last: edge_for(numbers.last),
            turns: turns_for(numbers),
        })
    } else {
        None
    }
}

/// The byte that numbers mean.
fn byte_for(numbers: &WireByte) -> Transfer
    ensures { result ≡ byte_from numbers.now }
{
    let pulse = if numbers.eoi == 1 {
        Some(Pulse {
            pulled: numbers.answered,
            released: numbers.answer_ended,
        })
    } else {
        None
    };
    Transfer {
        opening: Opening {
            command: numbers.command == 1,
            ready_to_send: numbers.look,
            ready_for_data: numbers.ready,
            pulse,
        },
        pull: numbers.pull,
        bits: numbers.bits,
        byte: numbers.byte,
        low: Halves {
            shortest: numbers.shortest_low,
            longest: numbers.longest_low,
        },
        high: Halves {
            shortest: numbers.shortest_high,
            longest: numbers.longest_high,
        },
        last_pull: numbers.last_pull,
    }
}

/// The decoder that numbers mean.
pub fn restore(numbers: &WireDecoder) -> Decoder
    ensures { result ≡ decoder_by numbers.now }
{
    Decoder {
        stretch: stretch_for(numbers),
        transfer: if numbers.sent == 1 {
            Some(byte_for(&numbers.byte))
        } else {
            None
        },
    }
}

/// A law: the decoder that is restored is the one that was stored.
pub fn decoders_come_back()
    ensures { DecodersComeBack }
{}
