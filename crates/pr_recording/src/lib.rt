//! What any recording of the serial bus says, from its bytes to lines.
//!
//! The headline is on [`decode_over`]: it reads a recording in any format, block by block, and writes the
//! text that `specs/Decoded.antt` defines of the edges that the recording says: the lines of its readings,
//! their summary, and whether it is lawful. [`reprint_over`] writes the pages that printers 4 and 5 print of
//! it in their place, as `specs/Pages.antt` defines them, and [`bytes_over`] the bytes that one of them hears
//! (`specs/Bytes.antt`). [`run_bytes_over`] writes those of a script's run (`specs/RunBytes.antt`).
//!
//! - `tape` reads the edges of a recording one after the other, up to where time goes back, and hands on the readings
//!   that they settle to whoever takes them (`Takes`). `blocks` does so with an input in any format, block by block.
//! - `decode` writes what a block settles before it reads the next. `decode_report` has a tape, whose readings go to
//!   `reading_log`: the lines that are not written yet, and a survey of all readings. All edges go to `judge` too,
//!   which says whether they are a lawful trace, as `check` counts them. `checked` does the same in JSON, and refuses
//!   a trace that is not lawful ([`check_json_over`], `specs/Checked.antt`).
//! - `pages` has the readings go to a `printer_pair`: what printers 4 and 5 print of readings. `bus_printer` is one of
//!   them: its listening part (pr_receiver's `Listener`) and pr_page's `Printer`. A frame that printer 4 has printed
//!   and printer 5 was refused cannot be given to both again, so a refusal is for good.
//! - `bytes` has them go to a `device_log`: one printer's listening part with a `byte_log`, which keeps the bytes of
//!   its inputs and the character sets in which they come.
//! - Both have printers called first that listen when the recording begins (`listening`).
//! - `left_out` takes the readings of both (`both`), and counts what no page has.
//! - `run_bytes` performs a script statement by statement, and hands the edges of each to `run_log`, a tape's
//!   head with a `device_log`.
#![tactic(auto)]

mod blocks;
mod both;
mod bus_printer;
mod byte_log;
mod bytes;
mod checked;
mod decode;
mod decode_report;
mod device_log;
mod judge;
mod laws;
mod left_out;
mod listening;
mod pages;
mod printer_pair;
mod reading_log;
mod run_bytes;
mod run_log;
mod tape;
mod wording;

pub use blocks::read_into;
pub use byte_log::Heard;
pub use bytes::{Overheard, bytes_over};
pub use checked::check_json_over;
pub use decode::{decode_over, tell_input};
pub use laws::{readings_are_heard_in_turn, traces_are_heard_as_spelled};
pub use left_out::LeftOut;
pub use listening::{Listening, call_first};
pub use pages::{PRINT_LIMIT, Reprinted, reprint_over};
pub use printer_pair::{PrintedPages, PrinterPair};
pub use run_bytes::run_bytes_over;
pub use tape::{Takes, Tape, TapeEnd};
pub use wording::Wording;
