//! What all other crates share: the command bytes of the serial bus, the printers' device numbers,
//! decimal digits, and the error for refused memory.
//!
//! For specifications, `specs/Bytes.antt` has the same bytes, and `specs` the lines of a text and
//! the number that digits spell.
#![tactic(auto)]

mod commands;
mod digits;

pub use commands::{CLOSE, FIRST_PRINTER, LISTEN, LOWER_CASE, SECOND_PRINTER, SECONDARY, UNLISTEN};
pub use digits::{digit_count, is_digit};

/// Memory was refused: std's `AllocError`. Other crates offer it under this name too.
pub type NoMemory = std::alloc::AllocError;
