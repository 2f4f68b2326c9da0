//! A device on the bus.

ghost use Rattle.std.specs.Prelude.{◌≡◌, ◌<◌, ◌≤◌, ◌^◌, ◌∷◌, [], true, false, ◌↔◌, List, None, IfSome, IsSome};
ghost use Rattle.pr_wire.specs.declared.Edge.{Edge};
ghost use Rattle.pr_device.specs.Data.{pulls, standing, wake};
ghost use Rattle.pr_receiver.specs.Heard.{is_listening};
ghost use Rattle.pr_device.specs.Following.{said};
ghost use Rattle.pr_device.specs.Sound.{IsSound};
ghost use Rattle.pr_device.specs.Seen.{HasSeen, busy_until, device_of, event_at, is_pulling, timing_of};
ghost use Rattle.pr_device.specs.Spoken.{is_spoken_to};
ghost use Rattle.pr_device.specs.Timing.{IsTiming};

use crate::place::Place;
use crate::state::{State, Step};
use crate::timing::Timing;
use pr_receiver::Listener;
use pr_wire::{Edge, Levels};
use std::marker::Model;

/// A device on the serial bus that listens, as a printer does: it hears what a talker sends, and pulls and
/// releases DATA as the talker expects it.
///
/// Call [`Device::step`] at each change of a line, also where the device itself has made it, and at each
/// moment that the last step named (`wake`). Its contracts say "the device was shown these moments" of a
/// history, the list of them with the latest first: so of the empty one after [`Device::new`], and of the
/// longer one after each step.
#[derive(Drop)]
pub struct Device {
    state: State,
}

impl Model for Device {
    ghost use Rattle.pr_device.specs.declared.state.State.{State};
    ghost use Rattle.pr_device.specs.Sound.{IsSound};

    ghost Value = { State };

    ghost view = { λ d. d.state };

    ghost invariant = { λ d. IsSound d.state };
}

impl Device {
    /// Makes a device, 4 to 30, that was shown no moment: all lines are released, it does not listen, and
    /// it pulls nothing. It takes no memory.
    pub fn new(address: u8, timing: Timing) -> Device
        // the caller's part
        requires least { 4 ≤ address }
        requires greatest { address ≤ 30 }
        requires timing { IsTiming timing }
        // what it gives
        ensures seen { HasSeen [] result }
        ensures device { device_of result ≡ address }
        ensures timing { timing_of result ≡ timing }
        ensures pulls { is_pulling result ≡ false }
        ensures busy { busy_until result ≡ 0 }
    {
        Device {
            state: State {
                timing,
                listener: Listener::new(address),
                until: 0,
                pulls: false,
                atn: true,
                clock: true,
                since: None,
                place: Place::Between,
            },
        }
    }

    /// Shows the device the lines at a moment, in microseconds, DATA's level being that of the wire, which
    /// others may pull too. Returns what it does to DATA from then on, when it wants to be called again if
    /// no line changes before, and what it has heard: with CLOCK's last pull of a byte what the byte says
    /// to it, and at no other moment anything (Programmer's Reference Guide, serial bus). Moments may be
    /// the same as before, and do not go back. It takes no memory.
    pub fn step(&mut self, now: u64, levels: Levels) -> Step
        // the caller's part
        requires soon { now < 2 ^ 63 }
        // what it hears
        ensures event { (history : List Edge) → HasSeen history self.old →
            result.event ≡ event_at (timing_of self.old).wait (device_of self.old) history
            (record { time = now; levels = levels }) }
        ensures seen { (history : List Edge) → HasSeen history self.old →
            HasSeen (record { time = now; levels = levels } ∷ history) self.new }
        // what it does to DATA
        ensures data { (history : List Edge) → HasSeen history self.old →
            result.pulls_data ≡ pulls (timing_of self.old) (busy_until self.old) (is_pulling self.old)
            (standing (timing_of self.old).wait (device_of self.old)
            (record { time = now; levels = levels } ∷ history)) now }
        ensures pulls { is_pulling self.new ≡ result.pulls_data }
        ensures called { (history : List Edge) → HasSeen history self.old → result.pulls_data ≡ true →
            is_spoken_to (timing_of self.old) (standing (timing_of self.old).wait (device_of self.old)
            (record { time = now; levels = levels } ∷ history)) now ≡ true }
        // when it wants to be called again
        ensures wake { (history : List Edge) → HasSeen history self.old →
            result.wake ≡ wake (timing_of self.old) (busy_until self.old) result.pulls_data
            (standing (timing_of self.old).wait (device_of self.old)
            (record { time = now; levels = levels } ∷ history)) now }
        ensures later { IfSome result.wake (λ moment. now < moment) }
        // what never changes
        ensures device { device_of self.new ≡ device_of self.old }
        ensures timing { timing_of self.new ≡ timing_of self.old }
        ensures busy { busy_until self.new ≡ busy_until self.old }
    {
        self.state.act(Edge { time: now, levels })
    }

    /// Lets the device print until a moment: before the next byte it holds DATA until then, where its own
    /// delay is not longer (listener hold-off, which has no greatest length; Programmer's Reference Guide).
    /// It hears what comes meanwhile. DATA, once released before a byte, is not pulled again. It takes no
    /// memory.
    pub fn busy(&mut self, until: u64)
        ensures busy { busy_until self.new ≡ until }
        ensures seen { (history : List Edge) → HasSeen history self.old → HasSeen history self.new }
        ensures device { device_of self.new ≡ device_of self.old }
        ensures timing { timing_of self.new ≡ timing_of self.old }
        ensures pulls { is_pulling self.new ≡ is_pulling self.old }
    {
        self.state.until = until;
    }

    /// Returns whether the device listens: it was called, and no UNLISTEN has come since.
    pub fn listens(&self) -> bool
        ensures { (history : List Edge) → HasSeen history self.now →
            result ≡ is_listening (device_of self.now) (said (timing_of self.now).wait history) }
    {
        self.state.listener.listens
    }

    /// Returns all that the device keeps, of which [`Device::from_state`] makes it again.
    pub fn state(&self) -> State
        ensures value { result ≡ self.now }
        ensures sound { IsSound result }
    {
        self.state
    }

    /// Makes the device that keeps this; `None` where no device does: its number is not one of 4 to 30, a
    /// delay lies outside its bounds, or a moment that it keeps is 2^63 or more. It takes no memory.
    pub fn from_state(state: State) -> Option<Device>
        ensures value { IfSome result (λ device. device ≡ state) }
        ensures sound { IsSome result ↔ IsSound state }
    {
        if state.is_sound() {
            Some(Device { state })
        } else {
            None
        }
    }
}
