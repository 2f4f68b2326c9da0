//! How long a printer prints.

ghost use Rattle.std.specs.Prelude.{◌≡◌, ◌<◌, ◌^◌};
ghost use Rattle.pr_device.specs.Printing.{columns_time, printing_time};

/// How fast a printer prints.
#[derive(Clone, Copy, Debug, PartialEq, Eq)]
pub struct Speed {
    /// How many columns of dots it prints in a second; 0: they take no time.
    pub columns: u32,
    /// How long a line feed takes, in microseconds.
    pub feed: u32,
}

impl Speed {
    /// Returns the speed of a printer that takes no time to print.
    pub fn no_time() -> Speed
        ensures columns { result.columns ≡ 0 }
        ensures feed { result.feed ≡ 0 }
    {
        Speed {
            columns: 0,
            feed: 0,
        }
    }

    /// Returns the speed of the VIC-1525: 30 characters a second, each of six columns of dots, and five line feeds a
    /// second (VIC-1525 User's Manual, specifications).
    pub fn manual() -> Speed
        ensures columns { result.columns ≡ 180 }
        ensures feed { result.feed ≡ 200000 }
    {
        Speed {
            columns: 180,
            feed: 200_000,
        }
    }
}

/// How long columns of dots take, in microseconds.
fn columns_time(columns: u32, per_second: u32) -> u64
    ensures time { result ≡ columns_time columns per_second }
    ensures bound { result < 2 ^ 52 }
{
    if per_second == 0 {
        return 0;
    }
    let rest = u64::from(per_second) - 1;
    (u64::from(columns) * 1_000_000 + rest) / u64::from(per_second)
}

/// Returns how long a printer takes for columns of dots and line feeds, in microseconds: less than 2 to the
/// power of 53. The head passes all columns from the left edge to the last dot of a line, blank ones
/// too: six for a character, at most 480 in a line.
///
/// A device that prints so long holds DATA: `device.busy(now + printing_time(columns, 1, &speed))`
/// ([`crate::Device::busy`]).
pub fn printing_time(columns: u32, feeds: u16, speed: &Speed) -> u64
    ensures time { result ≡ printing_time columns feeds speed.now }
    ensures bound { result < 2 ^ 53 }
{
    columns_time(columns, speed.columns) + u64::from(feeds) * u64::from(speed.feed)
}
