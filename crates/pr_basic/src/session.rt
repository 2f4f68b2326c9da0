//! What a run of statements keeps besides the channels.

ghost use Rattle.std.specs.Prelude.{◌≡◌};

/// How the status goes from one statement to the next.
#[derive(Clone, Copy, Debug, PartialEq, Eq)]
pub enum StatusMode {
    /// Each statement begins with status 0 (profile).
    Each,
    /// The status is 0 before the first statement and is never cleared between statements, so that
    /// it is 128 once an item was not answered (profile).
    Kept,
}

/// What a run of statements keeps besides the channels. Its fields are public, since every channel
/// number is allowed.
#[derive(Clone, Copy, Debug, PartialEq, Eq)]
pub struct Session {
    /// The current channel number: the file number of the last CMD, or 0.
    pub channel: u8,
    /// How the status goes from one statement to the next.
    pub mode: StatusMode,
}

impl Session {
    /// Makes the session of a run of which no statement was performed: the channel number is 0.
    pub fn new(mode: StatusMode) -> Session
        ensures { result ≡ record { channel = 0; mode = mode } }
    {
        Session { channel: 0, mode }
    }
}
