//! How what a recording says is written.

use pr_report::Detail;

/// How what a recording says is written (profile).
#[derive(Clone, Copy, Debug, PartialEq, Eq)]
pub enum Wording {
    /// Lines to be read by people: those of each reading, the summary, the verdict and what is odd.
    Lines(Detail),
    /// A line of JSON for each reading, and one for the verdict.
    Json,
}
