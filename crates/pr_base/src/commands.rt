//! The command bytes of the serial bus, and the device numbers of its printers.
//!
//! A command is a byte that the computer sends while it pulls ATN.

/// LISTEN, plus a device number of 0 to 30: the device listens from now on (Programmer's Reference
/// Guide, serial bus).
pub const LISTEN: u8 = 0x20;

/// UNLISTEN: no device listens any more (Programmer's Reference Guide, serial bus).
pub const UNLISTEN: u8 = 0x3f;

/// A secondary address, plus its number of 0 to 15 (Programmer's Reference Guide, serial bus).
pub const SECONDARY: u8 = 0x60;

/// The secondary address that selects a VIC-1525's lower/upper case set (VIC-1525 User's Manual,
/// secondary address 7).
pub const LOWER_CASE: u8 = SECONDARY + 7;

/// The secondary address that closes a channel, plus its number of 0 to 15 (Programmer's Reference
/// Guide, serial bus).
pub const CLOSE: u8 = 0xe0;

/// The device number of the first printer (VIC-1525 User's Manual, switch at 4).
pub const FIRST_PRINTER: u8 = 4;

/// The device number of the second printer (VIC-1525 User's Manual, switch at 5).
pub const SECOND_PRINTER: u8 = 5;
