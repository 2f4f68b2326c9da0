//! The page that a VIC-1525 Graphic Printer makes of the selections and bytes that it hears.
//!
//! A [`Printer`] takes one [`Input`] after another and keeps the [`Paper`]: the rows printed so
//! far, and the marks of the line that has not ended. The headline is on [`Printer::take`] and
//! [`Printer::paper`]: the paper is the page of all inputs taken, as `specs/Page.antt` defines it.
//!
//! `codes` has the control codes; `pending` the bytes of a command that has not all come; `settings`
//! the modes; `sheet` the paper and where the next mark goes; `state` all of them, and one step for
//! one input. A [`Sequence`] is a vector that contracts see as a list, so that papers can be compared.
//!
//! A printer keeps no history: its contracts relate a list of inputs to a printer (`HasTaken`), and
//! `proofs/Refines.antt` carries that from a list to the list with one input more. `Cutting` is one
//! more byte for the tokens, `Paging` one more act for the last line, `Columns` the repeat, `Unique`
//! the law that a list has one page, `LookingBack` the law that the last codes decide the modes.
#![tactic(auto)]

mod carriage;
mod codes;
mod head;
mod input;
mod paper;
mod pending;
mod printer;
mod settings;
mod sheet;
mod state;
mod work;

pub use carriage::{Carriage, Made, MarkOnPaper};
pub use codes::code_name;
pub use head::{Head, LAST_LINE, heads_make_pages};
pub use input::Input;
pub use paper::{Mark, Paper, Placed, Row, Sequence};
pub use pending::Pending;
pub use pr_base::NoMemory;
pub use printer::{Printer, each_list_has_one_page};
pub use settings::{Settings, modes_look_back};
pub use work::LINE_DOTS;
