//! How long a device waits.

ghost use Rattle.std.specs.Prelude.{◌≡◌, ◌↔◌, IsTrue};
ghost use Rattle.pr_wire.specs.Delays.{bounds_of};
ghost use Rattle.pr_wire.specs.declared.delay.Kind.{Kind};
ghost use Rattle.pr_device.specs.Timing.{IsTiming, IsDelay, typical};

use pr_wire::{Kind, bounds};

/// How long a device waits before each thing that it does to DATA, in microseconds (profile, after the
/// serial bus timing of the Programmer's Reference Guide; docs/TIMING.md has the bounds).
#[derive(Clone, Copy, Debug, PartialEq, Eq)]
pub struct Timing {
    /// From ATN's pull to DATA's pull (AT).
    pub attention: u16,
    /// From CLOCK's release before a byte to DATA's release (H).
    pub hold: u16,
    /// From DATA's release to its pull, where the talker waits for an answer to end-or-identify (YE).
    pub wait: u16,
    /// How long that answer lasts (EI).
    pub answer: u16,
    /// From the last pull of CLOCK in a byte to DATA's pull, the acknowledgement (F).
    pub accept: u16,
    /// From ATN's release to DATA's release, if the device does not listen (DR).
    pub leave: u16,
}

/// Whether a delay lies within the bounds of its kind.
fn is_delay(kind: Kind, delay: u16) -> bool
    ensures { IsTrue result ↔ IsDelay kind delay }
{
    let (least, _, greatest) = bounds(kind);
    least <= delay && delay <= greatest
}

impl Timing {
    /// Returns the typical delays.
    pub fn typical() -> Timing
        ensures value { result ≡ typical }
        ensures within { IsTiming result }
    {
        Timing {
            attention: 100,
            hold: 50,
            wait: 250,
            answer: 80,
            accept: 20,
            leave: 20,
        }
    }

    /// Returns whether all delays lie within the bounds of the profile.
    pub fn is_within_bounds(&self) -> bool
        ensures { IsTrue result ↔ IsTiming self.now }
    {
        is_delay(Kind::At, self.attention)
            && is_delay(Kind::H, self.hold)
            && is_delay(Kind::Ye, self.wait)
            && is_delay(Kind::Ei, self.answer)
            && is_delay(Kind::F, self.accept)
            && is_delay(Kind::Dr, self.leave)
    }
}
