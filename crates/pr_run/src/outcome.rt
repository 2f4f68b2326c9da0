//! What a run performs, how it ends, and what it leaves out.

use crate::ending::Ending;
use crate::performed::Performed;
use pr_page::Sequence;

/// What a run performs, how it ends, and what it leaves out.
#[derive(Debug, Drop)]
pub struct Outcome {
    /// The output statements in the order in which they are performed.
    pub performed: Sequence<Performed>,
    pub ending: Ending,
    /// The number of the line of the first POKE that was left out, if there was one.
    pub skipped_poke: Option<u16>,
}
