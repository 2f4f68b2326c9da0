//! What a device hears of frames, frame by frame.

ghost use Rattle.std.specs.Prelude.{◌≡◌, ◌≤◌, ◌++◌, ◌∷◌, [], List};
ghost use Rattle.pr_wire.specs.declared.Frame.{Frame};
ghost use Rattle.pr_receiver.specs.Heard.{input_of};
ghost use Rattle.pr_receiver.specs.Kept.{kept_of};
ghost use Rattle.pr_receiver.specs.Steps.{input_by, kept_by};

use pr_base::{LISTEN, LOWER_CASE, UNLISTEN};
use pr_page::Input;
use pr_wire::Frame;

/// What a device keeps of the frames on a bus: what decides which later ones it hears (VIC-1525 User's Manual,
/// Programmer's Reference Guide).
#[derive(Clone, Copy, Debug, PartialEq, Eq)]
pub struct Listener {
    /// Its number.
    pub device: u8,
    /// It has been called since the last UNLISTEN.
    pub listens: bool,
    /// The last frame called it.
    pub called: bool,
}

impl Listener {
    /// Makes a device, by its number, that no frame has reached. It takes no memory.
    pub fn new(device: u8) -> Listener
        ensures { result ≡ kept_of device [] }
    {
        Listener {
            device,
            listens: false,
            called: false,
        }
    }

    /// Takes the next frame, and gives the input that it has for the device: of a frame with ATN
    /// pulled a selection of a character set, of another its byte while the device listens. It
    /// takes no memory.
    ///
    /// Only devices up to 30 can be called (LISTEN 31 would be UNLISTEN).
    pub fn hear(&mut self, frame: Frame) -> Option<Input>
        requires { self.old.device ≤ 30 }
        ensures heard { (before : List Frame) → self.old ≡ kept_of self.old.device before →
            (result ≡ input_of self.old.device before frame) × (self.new ≡ kept_of self.old.device (before ++ frame ∷ [])) }
    {
        self.step(frame)
    }

    /// Hears a frame, by what is kept of those before it.
    pub(crate) fn step(&mut self, frame: Frame) -> Option<Input>
        requires { self.old.device ≤ 30 }
        ensures input { result ≡ input_by self.old frame }
        ensures kept { self.new ≡ kept_by self.old frame }
    {
        let calls = frame.attention && frame.byte == LISTEN + self.device;
        let input = if calls {
            Some(Input::Select(false))
        } else if frame.attention && frame.byte == LOWER_CASE && self.called {
            Some(Input::Select(true))
        } else if !frame.attention && self.listens {
            Some(Input::Byte(frame.byte))
        } else {
            None
        };
        let ends = frame.attention && frame.byte == UNLISTEN;
        self.listens = !ends && (self.listens || calls);
        self.called = calls;
        input
    }
}
