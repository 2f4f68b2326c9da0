//! The bytes that one device hears of readings.

ghost use Rattle.std.specs.Prelude.{◌≡◌, ◌≤◌, ◌∷◌, [], ℕ, List, OnOk};
ghost use Rattle.pr_decode.specs.declared.reading.Reading.{Reading};
ghost use Rattle.pr_recording.specs.Logged.{AreHeard, HasHeard, HearsMore};
ghost use Rattle.pr_recording.specs.PrintedPages.{heard_in};

use crate::byte_log::{ByteLog, HeardBytes};
use crate::tape::Takes;
use pr_decode::{Reading, acknowledged_frame};
use pr_page::NoMemory;
use pr_receiver::{Listener, frames_are_heard_in_turn};
use std::alloc::Global;
use std::marker::Model;

/// A device's listening part, and the bytes that it has heard.
#[derive(Drop)]
pub struct Ear {
    pub listener: Listener,
    pub log: ByteLog,
}

/// The bytes that a device hears of a recording, reading by reading.
#[derive(Drop)]
pub struct DeviceLog {
    ear: Ear,
}

impl Model for DeviceLog {
    ghost use Rattle.pr_recording.specs.declared.device_log.Ear.{Ear};
    ghost use Rattle.pr_recording.specs.Logged.{IsEar};

    ghost Value = { Ear };

    ghost view = { λ d. d.ear };

    ghost invariant = { λ d. IsEar d.ear };
}

impl DeviceLog {
    /// The log of the device with this number, at most 30, that no reading has reached. It takes no memory.
    pub fn new(alloc: Global, device: u8) -> DeviceLog
        requires { device ≤ 30 }
        ensures { HasHeard device [] result }
    {
        DeviceLog {
            ear: Ear {
                listener: Listener::new(device),
                log: ByteLog::new(alloc),
            },
        }
    }

    /// Takes the next reading: the device hears it, if it is a byte that was acknowledged.
    ///
    /// # Errors
    ///
    /// [`NoMemory`] where a growth of the list of bytes was refused. Nothing is said of the log then.
    pub fn take(&mut self, reading: Reading) -> Result<(), NoMemory>
        ensures { OnOk result (HearsMore (reading ∷ []) self.old self.new) }
    {
        frames_are_heard_in_turn();
        let Some(frame) = acknowledged_frame(reading) else {
            return Ok(());
        };
        match self.ear.listener.hear(frame) {
            Some(input) => self.ear.log.take(input),
            None => Ok(()),
        }
    }

    /// Returns the bytes that the device has heard, and what they do not say. It takes no memory.
    pub fn finish(self) -> HeardBytes
        ensures { (device : ℕ) (readings : List Reading) → HasHeard device readings self → AreHeard (heard_in device readings) result }
    {
        self.ear.log.finish()
    }
}

impl Takes for DeviceLog {
    ghost use Rattle.std.specs.Prelude.{⊤};
    ghost use Rattle.pr_recording.specs.Adds.{adds_both, adds_none};
    ghost use Rattle.pr_recording.specs.Logged.{HasHeard, HearsMore};

    ghost takes = { HearsMore };

    ghost may_take = { λ n d. ⊤ };

    ghost takes_none = { λ d device. adds_none (HasHeard device) d };

    ghost takes_both = { λ xs ys a b c h k device. adds_both (HasHeard device) xs ys a b c (h device) (k device) };

    ghost takes_fewer = { λ k n d h. h };

    fn take_reading(&mut self, reading: &Reading) -> Result<(), NoMemory> {
        self.take(*reading)
    }
}
