//! What a printer hears.

/// What a printer hears of the bus.
#[derive(Clone, Copy, Debug, PartialEq, Eq)]
pub enum Input {
    /// A character set is selected: the lower/upper case set if true, else the graphic/upper case
    /// set (VIC-1525 User's Manual, secondary addresses 7 and 0).
    Select(bool),
    /// A byte of data.
    Byte(u8),
}
