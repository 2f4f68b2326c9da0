//! The frames that readings say.

ghost use Rattle.std.specs.Prelude.{◌≡◌};
ghost use Rattle.pr_decode.specs.Frames.{acknowledged_frame};

use crate::reading::{FrameEnd, Reading};
use pr_wire::Frame;

/// The frame that a reading says, where it is a whole byte that was acknowledged: a command where ATN
/// was pulled, with end-or-identify where DATA was pulsed before its bits. Any other byte was not taken
/// over by a listener (Programmer's Reference Guide, serial bus).
pub fn acknowledged_frame(reading: Reading) -> Option<Frame>
    ensures { result ≡ acknowledged_frame reading }
{
    match reading {
        Reading::Frame(transfer, FrameEnd::Acknowledged(_)) => Some(Frame {
            attention: transfer.opening.command,
            byte: transfer.byte,
            eoi: transfer.opening.pulse.is_some(),
        }),
        Reading::Frame(_, FrameEnd::Unacknowledged(_) | FrameEnd::Cut) => None,
        Reading::IncompleteByte(_, _) => None,
    }
}
