//! Frames with their moments.

ghost use Rattle.std.specs.Prelude.{◌≡◌};
ghost use Rattle.pr_report.specs.Moments.{frame_told};

use pr_wire::{ByteRole, Frame};

/// A frame with its moments, in microseconds since the start of the trace.
#[derive(Clone, Copy, Debug, PartialEq, Eq)]
pub struct TimedFrame {
    /// The look: CLOCK is released for the frame, and its hearers are to release DATA.
    pub look: u64,
    /// The acknowledgement: its hearers pull DATA after its last bit.
    pub acknowledged: u64,
    /// Which byte it is: an attention's first command or its second, or a data byte.
    pub sending: ByteRole,
    pub byte: u8,
    /// Sent with end-or-identify: the last byte.
    pub eoi: bool,
}

impl TimedFrame {
    /// Returns the frame without its moments. It takes no memory.
    pub fn frame(self) -> Frame
        ensures { result ≡ frame_told self }
    {
        Frame {
            attention: !self.sending.atn(),
            byte: self.byte,
            eoi: self.eoi,
        }
    }
}
