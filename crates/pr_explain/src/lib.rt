//! More than a line on why a trace or a script is refused, and on the error that stopped a run.
//!
//! Each call gives an [`Explanation`]: the place, which contracts pin, and a text, which is for
//! people and is only tested. [`explain_trace`] gives for a trace in any format the line that
//! cannot be read and where its edges stop being lawful, with the edges that may follow there and
//! by how much the interval was missed. [`explain_reading`] gives where a recording cannot be read
//! further, [`explain_script`] the line and the column of a script's first fault ([`explain_letter`] what
//! a letter of a listing is that the C64 does not have, [`html_instead`] what HTML's name for a character
//! is, [`begins_listing`] whether a line begins as one of a listing does), and [`explain_stop`]
//! the line and the device of a statement at which a BASIC error stopped a run. [`rows_from`] gives
//! the rows of the table of lawful traces at a place: an edge is taken there exactly if one of them
//! has its levels and its time. [`rows_behind`] gives those that an edge after the last one can
//! still meet. [`remark_on`] says of a recording where its trace begins and what is odd about
//! it, and its text is proved too.
//!
//! - `rows` has the rows of the table at a place, and those that can follow the last edge.
//! - `traces`, `oddities`, `scripts` and `stops` are what is explained. `edges` follows edges to the
//!   first that is not allowed, and `input` reads a trace in any format as `check` reads it ([`read_input`]).
//! - The words: `trace_text` and `states` of edges; `faults`, `tables` and `names` of a line that cannot be
//!   read, what it should have, and which signals a recording has, by `declared` those of a dump;
//!   `preambles` finds what an oscilloscope writes before a table's rows;
//!   `units` finds the unit that a table's times may be in, and `repeats` rows that lose levels, in a table whose
//!   column of times `timed` finds by its name (`time_names`); `context` and `words` of the
//!   statement around a place of a script, and of the word that is there. The place's line and its
//!   lexeme are those of pr_basic's `line_at` and `lexeme_at`. `texts` has times, levels and
//!   escaped bytes.
//! - `lines` goes through the lines of a script, with how many statements each has.
//!
//! Where memory for an explanation is refused, there is none and the answer stays.
#![tactic(auto)]

mod context;
mod declared;
mod edges;
mod faults;
mod input;
mod lines;
mod misread;
mod names;
mod oddities;
mod preambles;
mod repeats;
mod rows;
mod scripts;
mod states;
mod stops;
mod tables;
mod texts;
mod time_names;
mod timed;
mod trace_text;
mod traces;
mod units;
mod words;

pub use edges::EdgePlace;
pub use input::read_input;
pub use lines::{FirstLine, first_line};
pub use misread::{Misread, misread_line};
pub use oddities::{Remarks, remark_on};
pub use repeats::{repeated_rows, rows_change};
pub use rows::{Miss, Row, rows_behind, rows_from};
pub use scripts::{ScriptPlace, explain_letter, explain_line, explain_script};
pub use stops::{StopCause, StopPlace, explain_stop};
pub use traces::{ReadingPlace, TracePlace, explain_reading, explain_trace};
pub use units::{TimeUnit, unit_meant};
pub use words::{begins_listing, html_instead};

/// What there is to say of a refusal, or of an error. Where nothing is refused the place is none
/// and the text empty, instead of an `Option` around both.
#[derive(Debug, Drop)]
pub struct Explanation<P> {
    /// Where it is.
    pub place: P,
    /// Lines for people, each with byte 10 at its end. Bytes that cannot be seen are escaped.
    pub text: String,
}
