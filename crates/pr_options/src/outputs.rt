//! What `pages`, `check` and `decode` write.

use pr_render::{Device, Format};
use pr_report::{Detail, Report};
use pr_serial::Present;

/// What `pages` writes of a run.
#[derive(Clone, Copy, Debug, PartialEq, Eq)]
pub enum PagesOutput {
    /// The pages, in this format.
    Pages(Format),
    /// The bytes that this printer hears.
    Bytes(Device),
}

/// What `check` writes of a trace.
#[derive(Clone, Copy, Debug, PartialEq, Eq)]
pub enum CheckOutput {
    /// The frames, or their story, if it is lawful.
    Report(Report),
    /// The readings as lines of JSON, and a line that says whether it is lawful.
    Json,
}

/// How what printers hear of a recording is written.
#[derive(Clone, Copy, Debug, PartialEq, Eq)]
pub struct Hearing {
    /// The printers that listen then.
    pub listening: Present,
    /// Their character set is lower/upper case then, else graphic/upper case.
    pub lower: bool,
    /// The program ends otherwise where something of the recording is left out.
    pub is_strict: bool,
}

/// What `decode` writes of a recording.
#[derive(Clone, Copy, Debug, PartialEq, Eq)]
pub enum DecodeOutput {
    /// The readings as lines, and what is said of their intervals.
    Readings(Detail),
    /// The readings as lines of JSON, with all their intervals.
    Json,
    /// The bytes that this printer hears, which may listen from the start.
    Bytes(Device, Hearing),
    /// The pages that the bytes print, in this format; printers may listen from the start.
    Pages(Format, Hearing),
}
