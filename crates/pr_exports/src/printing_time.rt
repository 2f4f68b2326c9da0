//! How long a printer prints, for a device that is busy meanwhile.

ghost use Rattle.std.specs.Prelude.{◌≡◌, ◌<◌, ◌^◌};
ghost use Rattle.pr_device.specs.Printing.{printing_time};
ghost use Rattle.pr_exports.specs.Devices.{or_usual};
ghost use Rattle.pr_exports.specs.PrintingTime.{speed_by};

use pr_device::{Speed, printing_time};

/// How fast a printer prints: 0 is the figure of the VIC-1525 User's Manual.
#[repr(C)]
#[derive(Clone, Copy, Debug, PartialEq, Eq)]
pub struct WireSpeed {
    /// How many columns of dots it prints in a second.
    pub columns: u32,
    /// How long a line feed takes, in microseconds.
    pub feed: u32,
}

/// The figure that is asked for: 0 is the usual one.
fn figure_for(number: u32, usual: u32) -> u32
    ensures { result ≡ or_usual number usual }
{
    if number == 0 { usual } else { number }
}

/// The speed that numbers mean.
fn speed_for(speed: &WireSpeed) -> Speed
    ensures { result ≡ speed_by speed.now }
{
    let manual = Speed::manual();
    Speed {
        columns: figure_for(speed.columns, manual.columns),
        feed: figure_for(speed.feed, manual.feed),
    }
}

/// Says how long a printer of this speed takes for columns of dots and line feeds, in microseconds: what
/// [`printing_time`] says. The head passes all columns from the left edge to the last dot of a line, blank ones too:
/// six for a character, at most 480 in a line. It takes no memory.
#[unsafe(no_mangle)]
pub extern "C" fn print1525_printing_time(
    columns: u32,
    feeds: u16,
    speed: &WireSpeed,
    time: &mut u64,
)
    ensures time { time.new ≡ printing_time columns feeds (speed_by speed.now) }
    ensures bound { time.new < 2 ^ 53 }
{
    *time = printing_time(columns, feeds, &speed_for(speed));
}
