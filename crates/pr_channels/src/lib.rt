//! The KERNAL's channel calls over any serial bus: the file table, the output device, and the byte
//! that is held back until it is known whether it is the last one.
//!
//! The words of the contracts are in `specs/`: `Files.antt` is the file table, `Seen.antt` what a
//! contract sees of the channels and what holds of them always (`IsInStep`), and `Calls.antt` what
//! each call does.
//!
//! `sender` holds a byte back and knows whether something was not answered; `file_table` is the table
//! of ten, a type of its own so that its rules are written once; `channels` has the calls over both.
#![tactic(auto)]

mod channels;
mod faults;
mod file;
mod file_table;
pub mod laws;
mod sender;

pub use channels::Channels;
pub use faults::{Fault, Stop};
pub use file::File;
pub use file_table::FileTable;
