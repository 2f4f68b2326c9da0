//! One open file.

/// An open file. Its default is what an unused place of a [`FileTable`](crate::FileTable) holds.
#[derive(Clone, Copy, Debug, Default, PartialEq, Eq)]
pub struct File {
    /// The file number, 1 to 255 in a table.
    pub number: u8,
    /// The device number, 4 to 30 in a table.
    pub device: u8,
    /// The secondary address, 0 to 15, or none.
    pub second: Option<u8>,
}
