//! What comes to a device on a bus, and what a printer makes of each byte, for C programs: over the caller's memory alone.
//!
//! A [`WireReceiver`] takes the edges of any bus as they come, and is in the caller's memory between
//! two edges; the headline is on [`print1525_receiver_edge`]. Nothing here takes memory, and no pointer
//! is kept. Each slice is a pointer and then a length.
//!
//! - `decoding` is a decoder of recordings edge by edge. Between two calls it is held in the numbers of
//!   `decoder_numbers`, since no enum crosses to C. `receiving` is a device over it. `numbers` has edges and
//!   truth values as numbers.
//! - `printing` is a printer that is watched: each byte brings the marks that it makes. `printer_numbers` stores and
//!   restores it, and has marks as numbers. `drawing` makes pixels of marks.
//!
//! All numbers mean some state, so nothing that a caller has saved is refused. What is stored is what is
//! restored.
//!
//! `make lib` puts this crate and pr_exports into one archive: docs/C.md.
#![tactic(auto)]

ghost use Rattle.std.specs.Prelude.{true, ◌↔◌, ◌≡◌};
ghost use Rattle.pr_ear.specs.Hearing.{IsDevice, begin_answer_of, edge_of};

mod decoder_numbers;
mod decoding;
mod drawing;
mod numbers;
mod printer_numbers;
mod printing;
mod receiving;

pub use decoder_numbers::{WireByte, WireDecoder, WireReading, decoders_come_back};
pub use decoding::{
    begin_decoder, decode_edge, end_decoder, print1525_decode_begin, print1525_decode_edge,
    print1525_decode_end,
};
pub use drawing::{
    Drawn, Region, draw_marks, draw_page, marks_have_the_pages_dots, print1525_printer_draw,
    print1525_printer_page,
};
use pr_wire::{Edge, Levels};
pub use printer_numbers::{WireMark, WirePrinter, printers_come_back};
pub use printing::{
    Printed, Run, print_byte, print_bytes, print1525_printer_begin, print1525_printer_byte,
    print1525_printer_bytes, print1525_printer_select, printers_print_pages, select_set,
};
pub use receiving::{
    Received, WireReceived, WireReceiver, begin_receiver, print1525_receiver_begin,
    print1525_receiver_edge, receive_edge, receivers_hear_what_is_printed,
};

/// The greatest number of a device: LISTEN 31 would be UNLISTEN.
const LAST_DEVICE: u8 = 30;

/// An edge of a trace: the moment from which on the lines have these levels.
#[repr(C)]
#[derive(Clone, Copy, Debug, PartialEq, Eq)]
pub struct WireEdge {
    /// In microseconds.
    pub time: u64,
    /// 0: ATN is pulled. Every other number: it is released.
    pub atn: u8,
    /// 0: CLOCK is pulled. Every other number: it is released.
    pub clock: u8,
    /// 0: DATA is pulled. Every other number: it is released.
    pub data: u8,
}

/// There is no such device: 4 to 30 are devices.
#[derive(Clone, Copy, Debug, PartialEq, Eq)]
pub struct NoSuchDevice;

/// What came of a call, as numbers: those of every call of the library for C.
#[repr(C)]
#[derive(Clone, Copy, Debug, PartialEq, Eq)]
pub struct Answer {
    /// 0 done, 2 refused with its fault, 4 the buffer is too small.
    pub code: usize,
    /// With code 2: 12 an edge that goes back, 21 no device of 4 to 30, 9 and 25 as `drawing` and `printing`
    /// say; else 0.
    pub fault: usize,
    /// Always 0.
    pub place: usize,
    /// The number of items, or 0.
    pub length: usize,
}

/// The edge that a caller's edge means.
fn edge_for(edge: WireEdge) -> Edge
    ensures { result ≡ edge_of edge }
{
    Edge {
        time: edge.time,
        levels: Levels {
            atn: edge.atn != 0,
            clock: edge.clock != 0,
            line: edge.data != 0,
        },
    }
}

/// Whether there is such a device.
fn is_device(device: u8) -> bool
    ensures yes { result ≡ true ↔ IsDevice device }
{
    (4..=LAST_DEVICE).contains(&device)
}

/// An answer with no fault.
fn plain(code: usize, length: usize) -> Answer
    ensures { result ≡ record { code = code; fault = 0; place = 0; length = length } }
{
    Answer {
        code,
        fault: 0,
        place: 0,
        length,
    }
}

/// The answer of a refusal.
fn refused(fault: usize, place: usize) -> Answer
    ensures { result ≡ record { code = 2; fault = fault; place = place; length = 0 } }
{
    Answer {
        code: 2,
        fault,
        place,
        length: 0,
    }
}

/// The answer of a beginning: whether there is such a device.
fn begun(exists: bool) -> Answer
    ensures { result ≡ begin_answer_of exists }
{
    if exists { plain(0, 0) } else { refused(21, 0) }
}
