//! How the readings of a recording are written.

/// Which bounds the intervals of bytes are compared with.
#[derive(Clone, Copy, Debug, PartialEq, Eq)]
pub enum Bounds {
    /// This project's profile: the bounds of its delays.
    Profile,
    /// The table of serial bus timing in the Commodore 64 Programmer's Reference Guide.
    Guide,
}

/// How the readings of a recording are written.
#[derive(Clone, Copy, Debug, PartialEq, Eq)]
pub struct Detail {
    /// Below the line of a reading comes a line for each of its intervals that lies outside its bounds, and before the
    /// last four lines the table of all intervals.
    pub intervals: bool,
    /// The bounds of these lines and of the verdict.
    pub bounds: Bounds,
}
