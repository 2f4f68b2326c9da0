//! The reports on a trace.

/// What is written of a trace that is checked (profile).
#[derive(Clone, Copy, Debug, PartialEq, Eq)]
pub enum Report {
    /// A line for each frame, and `lawful`.
    Frames,
    /// A line for each frame with its moment and what it says, and `lawful`.
    Story,
}
