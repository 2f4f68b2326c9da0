//! Traces of the serial bus in the formats of other tools: Value Change Dumps, and tables of comma
//! separated values.
//!
//! - `format` names the formats, and `found` finds one by the first bytes of a recording; `signals` has the wires'
//!   names and levels, `fault` why a recording cannot be read.
//! - `vcd` writes a Value Change Dump. [`VcdWriter`] keeps the last edge alone.
//! - `csv` reads a table that comes in blocks, line by line. [`CsvReader`] keeps the line that has begun, and
//!   the last row: `last_row` reads a row that goes on as that one does without looking at its fields.
//!   `remarks` says what the name of the first column and remarks say of time, `times` what a field spells,
//!   `volts` what a cell has where levels are volts, `numbers` what digits and words are.
//! - `vcd_reader` reads a dump that comes in blocks, word by word. [`VcdReader`] keeps the letters of the
//!   word that has begun, `vcd_parser` the words of the section or the bits of the value that has begun,
//!   `known` what was said so far: the timescale and the codes, then time and levels. `entries` says what
//!   a word is, `header` what a section says, `paths` and `bits` which signal a name means, `changes` what a
//!   time stamp and a level say.
//! - `edge_detector` makes edges of samples, one by one and without memory. `pulse_filter` leaves brief pulses out of
//!   edges; `held` has the edges that it holds back.
//!
//! The contracts of the readers speak of whatever text may still come (`contents_left`), so a loop over
//! blocks needs one relation. What is written is read back: [`vcd_is_read_back`], [`csv_is_read_back`].
#![tactic(auto)]

mod bits;
mod changes;
mod csv;
mod edge_detector;
mod entries;
mod fault;
mod format;
mod found;
mod header;
mod held;
mod known;
mod last_row;
mod laws;
mod numbers;
mod paths;
mod pulse_filter;
mod remarks;
mod signals;
mod times;
mod vcd;
mod vcd_parser;
mod vcd_reader;
mod volts;

pub use csv::CsvReader;
pub use edge_detector::EdgeDetector;
pub use fault::{CaptureFault, Wire};
pub use format::{InputFormat, OutputFormat, TraceInput};
pub use found::found_format;
pub use laws::{csv_is_read_back, given_edges_come_first, given_samples_come_first};
pub use pulse_filter::{PulseFilter, steady_edges_come_first};
pub use remarks::read_rate;
pub use signals::{Probes, Signals};
pub use vcd::{VcdWriter, push_vcd_head, vcd_adds_up, write_vcd};
pub use vcd_reader::{VcdReader, vcd_is_read_back};
pub use volts::{Threshold, Volts, read_volts};
