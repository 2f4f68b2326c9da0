//! The serial bus as the computer sees it: what is sent, what is answered, and what each device
//! hears.
//!
//! [`Serial`] is the law of every bus of this workspace, [`Bus`] the same with what each device
//! heard, and [`Direct`] a bus without wires that keeps both, with a `port` for each printer. Their
//! words are in `specs/`: `Items.antt` says which elements are sent, `Answers.antt` who listens and
//! what is answered, and `Heard.antt` what a device hears.
//!
//! The trait [`Serial`] states its law over ghost members (printers, delays, items sent, mark,
//! failed), and each bus proves it. The definitions look over whole lists of elements and know no
//! held byte: a byte is sent if an element follows it, with end-or-identify exactly if that is an
//! attention. [`laws`] has the laws of the definitions, as functions with nothing to run.
#![tactic(auto)]

mod bus;
mod direct;
pub mod laws;
mod port;
mod serial;

pub use bus::Bus;
pub use direct::Direct;
pub use port::INPUTS_OF_AN_ITEM;
// `Input` and `NoMemory` are offered again, so that a crate above needs no line for pr_page.
pub use pr_page::{Input, NoMemory};
pub use serial::Serial;

/// Which printers are present. It does not change during a run.
#[derive(Clone, Copy, Debug, PartialEq, Eq)]
pub struct Present {
    /// Device 4 is present.
    pub four: bool,
    /// Device 5 is present.
    pub five: bool,
}

/// What was sent on the bus.
#[derive(Clone, Copy, Debug, PartialEq, Eq)]
pub enum Item {
    /// One or two command bytes under attention: LISTEN or UNLISTEN, and perhaps, after a LISTEN,
    /// a secondary address (Programmer's Reference Guide, serial bus).
    Attention(u8, Option<u8>),
    /// A byte of data, and whether end-or-identify marked it as the last one.
    Sent(u8, bool),
}
