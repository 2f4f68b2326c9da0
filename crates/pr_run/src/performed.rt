//! What a run performs.

use pr_basic::Statement;

/// An output statement that was performed: OPEN, CMD, PRINT, PRINT# or CLOSE.
#[derive(Debug, Drop)]
pub struct Performed {
    /// The number of the line that it came from.
    pub line: u16,
    /// The statement, with the bytes of its list.
    pub statement: Statement,
}
