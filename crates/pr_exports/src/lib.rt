//! The exports of the library for C and of the WebAssembly module: memory in, memory out, no pointer kept.
//!
//! The caller owns every buffer. Each slice is a pointer and then a length. A call puts its text or its numbers at the
//! buffer's front where it has room, with the rest of the buffer as it was, and writes the whole answer; where it gives
//! none, the buffer stays as it was. No enum, bool or returned pointer crosses.
//!
//! - `program` is the program as a function, over words, an input and a file of characters: all that is a text or a picture
//!   goes through it.
//!
//! What a text does not serve are calls with numbers:
//!
//! - `numbers` has edges, readings (`rows`), what the lengths of their intervals come to (`lengths`) and the bounds of the
//!   delays; `delays` has the delay that each edge ends, `scripts` the line of each statement and the place of a fault. The
//!   page in a browser draws and marks by these.
//! - `listings` has a listing's text of a script, with the line and the column of its fault. `printing` has the page of a
//!   printer's inputs, of which some are no bytes.
//! - `marked` has the picture of the paper with some marks (`marks`), for those that keep a printer's marks.
//!   `characters` has the characters of a file as numbers, and the dots that draw a mark in them.
//! - `devices` has a device on the bus that hears and answers, for emulators and adapters in C. Between two calls it is
//!   in the numbers of `device_numbers`, with their version. A step restores and stores it, which copies a few numbers,
//!   and refuses numbers that are no device's. It takes no memory. `printing_time` has how long a printer is busy.
//!
//! `settings` gives the numbers that a caller passes their meaning, `answer` has what is answered, and `faults` the numbers
//! of faults.
//!
//! `tools/archive` makes the library for C of this crate and pr_ear, and `web/module` the WebAssembly module. The tests are
//! a C program, tests/c/exports.c, since no crate can be built on a static library.
#![tactic(auto)]

mod answer;
mod characters;
mod delays;
mod device_numbers;
mod devices;
mod faults;
mod lengths;
mod listings;
mod marked;
mod marks;
mod numbers;
mod printing;
mod printing_time;
mod program;
mod rows;
mod scripts;
mod settings;

pub use answer::{Answer, TextGiven};
pub use characters::{
    WireShapes, columns_draw_their_mark, print1525_characters_dots, print1525_characters_read,
};
pub use delays::print1525_edge_delays;
pub use device_numbers::{WireDevice, WireStep, WireTiming, devices_come_back};
pub use devices::{
    NotBegun, NotShown, begin_device, print1525_device_begin, print1525_device_busy,
    print1525_device_step, show_device,
};
pub use listings::{Listed, print1525_listing};
pub use marked::{marks_show_their_page, print1525_printer_picture, sheets_need_their_marks};
pub use marks::{WireMark, marks_have_their_page};
pub use numbers::{print1525_bounds, print1525_edges, print1525_intervals, print1525_reading_rows};
pub use printing::{bytes_are_inputs, print1525_print};
pub use printing_time::{WireSpeed, print1525_printing_time};
pub use program::{End, print1525_answer, print1525_names};
pub use scripts::{print1525_script_fault, print1525_statement_lines};
