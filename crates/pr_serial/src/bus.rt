//! A bus that shows what its devices heard.

ghost use Rattle.pr_serial.specs.HeardSinceMark.{IsHeardSinceMark};

use crate::direct::Direct;
use crate::serial::Serial;
use pr_page::Input;

/// A serial bus that shows what its devices heard: all that a run needs to know of a bus.
///
/// Nothing here speaks of levels, of time or of delays, so what is proved of a run over any such
/// bus holds with wires and without.
pub trait Bus: Serial {
    /// Returns what a device heard of the items since the last [`Serial::forget`] (before the
    /// first: of all items), in order: the empty list if the device is absent. After a refusal it
    /// answers as before.
    fn heard(&self, device: u8) -> &[Input]
        ensures { IsHeardSinceMark (Self.printers self.now) (Self.marked self.now) (Self.sent self.now) device result.now };
}

impl Bus for Direct {
    fn heard(&self, device: u8) -> &[Input] {
        Direct::heard(self, device)
    }
}
