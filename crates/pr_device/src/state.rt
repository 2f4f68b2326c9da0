//! What a device keeps: it follows the lines, hears, and answers.

ghost use Rattle.std.specs.Prelude.{◌≡◌, ◌<◌, ◌^◌, ◌↔◌, IsTrue};
ghost use Rattle.pr_device.specs.Data.{after, calls, is_away, leaves, pulls, pulls_at, wake, wake_at};
ghost use Rattle.pr_device.specs.Sound.{Acts, Hears, IsMoment, IsPlace, IsSound, ended_by, followed, standing_of};

use crate::event::{Event, event_by};
use crate::place::Place;
use crate::timing::Timing;
use pr_receiver::Listener;
use pr_wire::{Edge, Frame};

/// Moments are less than this, so that delays may be added (microseconds).
const MOMENTS: u64 = 1 << 63;

/// What a device does at a moment, and what it hears then.
#[derive(Clone, Copy, Debug, PartialEq, Eq)]
pub struct Step {
    /// It pulls DATA from this moment on.
    pub pulls_data: bool,
    /// The moment at which it wants to be called again, if no line changes before.
    pub wake: Option<u64>,
    /// What it has heard at this moment.
    pub event: Option<Event>,
}

/// All that a device keeps (moments in microseconds).
#[derive(Clone, Copy, Debug, PartialEq, Eq)]
pub struct State {
    pub timing: Timing,
    /// What it keeps of the bytes that it has heard.
    pub listener: Listener,
    /// It prints until then, and holds DATA.
    pub until: u64,
    /// It pulls DATA.
    pub pulls: bool,
    /// ATN's level.
    pub atn: bool,
    /// CLOCK's level.
    pub clock: bool,
    /// The moment of ATN's last change.
    pub since: Option<u64>,
    /// Where the lines are.
    pub place: Place,
}

/// The moment a delay after another, if there is that.
fn after(moment: Option<u64>, delay: u16) -> Option<u64>
    requires { IsMoment moment }
    ensures { result ≡ after moment delay }
{
    Some(moment? + u64::from(delay))
}

/// Whether a moment, if there is one, is so early that a delay may be added.
fn is_moment(moment: Option<u64>) -> bool
    ensures { IsTrue result ↔ IsMoment moment }
{
    match moment {
        None => true,
        Some(moment) => moment < MOMENTS,
    }
}

/// Whether the moments of a place are.
fn is_place(place: Place) -> bool
    ensures { IsTrue result ↔ IsPlace place }
{
    match place {
        Place::Between | Place::Bits { .. } => true,
        Place::Sent(pull) => pull < MOMENTS,
        Place::Opening { look, free, .. } => look < MOMENTS && is_moment(free),
    }
}

impl State {
    /// Whether a device keeps this.
    pub(crate) fn is_sound(&self) -> bool
        ensures { IsTrue result ↔ IsSound self.now }
    {
        let address = self.listener.device;
        let is_device = 4 <= address && address <= 30;
        is_device && self.timing.is_within_bounds() && is_moment(self.since) && is_place(self.place)
    }

    /// Follows the lines to a moment, and gives the byte that it ends.
    pub(crate) fn follow(&mut self, edge: Edge) -> Option<Frame>
        requires sound { IsSound self.old }
        requires soon { edge.time < 2 ^ 63 }
        ensures frame { result ≡ ended_by self.old edge }
        ensures moved { self.new ≡ followed self.old edge }
        ensures sound { IsSound self.new }
    {
        let (place, clock) = (self.place, self.clock);
        let stays = edge.levels.atn == self.atn;
        self.atn = edge.levels.atn;
        self.clock = edge.levels.clock;
        if !stays {
            self.since = Some(edge.time);
            self.place = Place::Between;
            return None;
        }
        self.place = place.leads(self.timing.wait, clock, edge);
        place.ends(clock, edge)
    }

    /// Hears a byte.
    fn hear_frame(&mut self, frame: Frame) -> Option<Event>
        requires sound { IsSound self.old }
        ensures hears { Hears self.old (Some frame) result self.new }
        ensures sound { IsSound self.new }
    {
        let event = event_by(&self.listener, frame);
        let mut listener = self.listener;
        let _input = listener.hear(frame);
        self.listener.listens = listener.listens;
        self.listener.called = listener.called;
        event
    }

    /// Hears a byte, if there is one.
    pub(crate) fn hear(&mut self, frame: Option<Frame>) -> Option<Event>
        requires sound { IsSound self.old }
        ensures hears { Hears self.old frame result self.new }
        ensures sound { IsSound self.new }
    {
        match frame {
            None => None,
            Some(frame) => self.hear_frame(frame),
        }
    }

    /// Whether nobody speaks to the device.
    fn is_away(&self) -> bool
        ensures { result ≡ is_away (standing_of self.now) }
    {
        self.atn && !self.listener.listens
    }

    /// Whether the device, which is away, pulls DATA from a moment on.
    fn leaves(&self, now: u64) -> bool
        requires { IsSound self.now }
        ensures { result ≡ leaves self.now.timing self.now.pulls self.now.since now }
    {
        match self.since {
            None => false,
            Some(released) => self.pulls && now < released + u64::from(self.timing.leave),
        }
    }

    /// Whether the device pulls DATA from a moment on, where ATN is pulled and no byte has begun.
    fn calls(&self, now: u64) -> bool
        requires { IsSound self.now }
        ensures { result ≡ calls self.now.timing self.now.pulls self.now.since now }
    {
        match self.since {
            None => self.pulls,
            Some(pulled) => self.pulls || now >= pulled + u64::from(self.timing.attention),
        }
    }

    /// Whether the device, to which somebody speaks, pulls DATA from a moment on.
    fn pulls_at(&self, now: u64) -> bool
        requires { IsSound self.now }
        ensures { result ≡ pulls_at self.now.timing self.now.until self.now.pulls (standing_of self.now)
            self.now.place now }
    {
        match self.place {
            Place::Between if self.atn => !self.clock,
            Place::Between => self.calls(now),
            Place::Sent(pull) => self.pulls || now >= pull + u64::from(self.timing.accept),
            Place::Opening {
                look,
                free: None,
                ..
            } => {
                let end = look + u64::from(self.timing.hold);
                (self.pulls || now == look) && now < end.max(self.until)
            }
            Place::Opening {
                free: Some(free),
                ..
            } => {
                let answer = free + u64::from(self.timing.wait);
                self.atn && now >= answer && now < answer + u64::from(self.timing.answer)
            }
            Place::Bits { .. } => false,
        }
    }

    /// Whether the device pulls DATA from a moment on.
    pub(crate) fn pulls(&self, now: u64) -> bool
        requires { IsSound self.now }
        ensures { result ≡ pulls self.now.timing self.now.until self.now.pulls (standing_of self.now) now }
    {
        if self.is_away() {
            self.leaves(now)
        } else {
            self.pulls_at(now)
        }
    }

    /// The next moment at which the device, to which somebody speaks, pulls or releases DATA, if the lines
    /// stay.
    fn wake_at(&self, now: u64) -> Option<u64>
        requires { IsSound self.now }
        ensures { result ≡ wake_at self.now.timing self.now.until self.now.pulls (standing_of self.now)
            self.now.place now }
    {
        match self.place {
            Place::Between if !self.atn && !self.pulls => after(self.since, self.timing.attention),
            Place::Sent(pull) if !self.pulls => Some(pull + u64::from(self.timing.accept)),
            Place::Opening {
                look,
                free: None,
                ..
            } if self.pulls => {
                let end = look + u64::from(self.timing.hold);
                Some(end.max(self.until))
            }
            Place::Opening {
                free: Some(free),
                ..
            } if self.atn => {
                let answer = free + u64::from(self.timing.wait);
                let end = answer + u64::from(self.timing.answer);
                if now < answer {
                    Some(answer)
                } else if now < end {
                    Some(end)
                } else {
                    None
                }
            }
            _ => None,
        }
    }

    /// The next moment at which the device pulls or releases DATA, if the lines stay.
    pub(crate) fn wake(&self, now: u64) -> Option<u64>
        requires { IsSound self.now }
        ensures { result ≡ wake self.now.timing self.now.until self.now.pulls (standing_of self.now) now }
    {
        if !self.is_away() {
            return self.wake_at(now);
        }
        if self.pulls {
            after(self.since, self.timing.leave)
        } else {
            None
        }
    }

    /// Follows the lines to a moment, hears, and answers.
    pub(crate) fn act(&mut self, edge: Edge) -> Step
        requires sound { IsSound self.old }
        requires soon { edge.time < 2 ^ 63 }
        ensures acts { Acts self.old edge result self.new }
        ensures sound { IsSound self.new }
    {
        let frame = self.follow(edge);
        let event = self.hear(frame);
        let held = self.pulls(edge.time);
        self.pulls = held;
        Step {
            pulls_data: held,
            wake: self.wake(edge.time),
            event,
        }
    }
}
