//! The library of the program `print1525`: bytes in to bytes out.
//!
//! [`pages_over`] reads a script to its end, runs it and writes the pages that came of it; [`bus_over`]
//! writes the trace of the run instead, and [`write_pages`] and [`write_bus_trace`] write them in a
//! format. [`raw_over`] reads the bytes of a printer and writes its page, [`check_over`] reads a trace
//! and writes the frames that it spells, and [`write_check_report`] does so for recordings too, or writes the
//! story of the frames. Where the input is refused and `--explain` is given, a [`TeeReader`] has kept the
//! bytes that were read, and pr_explain makes the explanation of them. The program itself only passes on
//! words, files and the standard streams, and turns answers into exit statuses.
//!
//! - `fault` has the faults with their texts, and `run` how a run begins and ends. `pages` reads a script and runs
//!   it; `page_text` and `short_text` make the page text, `format` the text of an outcome in each format, `text` a
//!   text in blocks.
//! - `bus` runs a script step by step, and writes the edges of each step before the next
//!   (`trace_writer`). It keeps no trace.
//! - `raw` hands each block that it reads to a printer. The paper is an outcome in which nothing else
//!   happened.
//! - `input_reader` reads an input in any format block by block and gives its edges: `edge_reader` takes a
//!   block, `source_reader` makes samples of its bytes, or edges of a trace text, and `edge_maker` the edges
//!   of samples. Whoever needs the edges of an input (`report` here, pr_recording) takes them from there.
//! - `check` hands each block to pr_wire's `Checker`, and adds the lines of the frames that come
//!   (`frame_text`). `report` does so for recordings and stories, with `trace_reporter`, which counts edges from
//!   where the trace begins (`beginning`), and `reporter`.
//! - `characters` reads the shapes in which pictures draw characters from a file.
#![tactic(auto)]

mod beginning;
mod bus;
mod characters;
mod check;
mod edge_maker;
mod edge_reader;
mod fault;
mod format;
mod frame_text;
mod input_reader;
mod page_text;
mod pages;
mod raw;
mod report;
mod reporter;
mod run;
mod short_text;
mod source_reader;
mod text;
mod trace_reporter;
mod trace_writer;

pub use beginning::Beginning;
pub use bus::{bus_over, write_bus_trace};
pub use characters::{CHARACTERS_LIMIT, ShapesFault, read_characters};
pub use check::{CHECK_LIMIT, check_input, check_over};
pub use edge_maker::{EdgeMaker, made_edges_come_first};
pub use edge_reader::{EdgeReader, LastEdges};
pub use fault::{CliFault, PictureFault, own_fault};
pub use format::{shown_of, text_in_format};
pub use input_reader::{InputReader, read_edges_come_first};
pub use page_text::pages_text;
pub use pages::{SCRIPT_LIMIT, pages_over, write_pages};
pub use pr_input::{
    BLOCK, ReadFault, TeeReader, Watched, WriteFault, read_whole, write_piece, write_whole,
};
pub use raw::{RAW_LIMIT, outcome_with, print_input, raw_over};
pub use report::{report_input, write_check_report};
pub use reporter::ReportText;
pub use run::{Ending, HeldMarks, PagesEnd, PaperEnd, RunEnd, Start};
pub use source_reader::{SourceReader, texts_say_samples};
pub use text::Text;
