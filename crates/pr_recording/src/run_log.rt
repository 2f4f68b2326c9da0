//! The bytes that a printer hears in a run whose edges come step by step.

ghost use Rattle.std.specs.Prelude.{◌≤◌, [], ℕ, List, IfOk, OnOk};
ghost use Rattle.pr_wire.specs.declared.Edge.{Edge};
ghost use Rattle.pr_decode.specs.Readings.{readings_of};
ghost use Rattle.pr_recording.specs.Logged.{AreHeard};
ghost use Rattle.pr_recording.specs.PrintedPages.{heard_in};
ghost use Rattle.pr_recording.specs.RunLogged.{FollowsMore, HasFollowed};

use crate::byte_log::HeardBytes;
use crate::device_log::DeviceLog;
use crate::tape::Head;
use pr_page::NoMemory;
use pr_wire::Edge;
use std::alloc::Global;

/// The bytes that a device hears of edges whose times do not go back, as those of a run. It keeps no edge, and
/// does not count them: a run may have any number.
#[derive(Drop)]
pub struct RunLog {
    head: Head,
    log: DeviceLog,
}

impl RunLog {
    /// A log for the device with this number, at most 30, that has taken no edge. It takes no memory.
    pub fn new(alloc: Global, device: u8) -> RunLog
        requires { device ≤ 30 }
        ensures { HasFollowed device [] result }
    {
        RunLog {
            head: Head::new(),
            log: DeviceLog::new(alloc, device),
        }
    }

    /// Takes the next edges, in order.
    ///
    /// # Errors
    ///
    /// [`NoMemory`] where a growth of the list of bytes was refused. Nothing is said of the log then.
    pub fn take_all(&mut self, edges: &[Edge]) -> Result<(), NoMemory>
        ensures { OnOk result (FollowsMore edges.now self.old self.new) }
    {
        // In a run no time goes back: all edges are read.
        let _len = self.head.read_all(edges, &mut self.log)?;
        Ok(())
    }

    /// Returns the bytes that the device hears of all edges, and what they do not say.
    ///
    /// # Errors
    ///
    /// [`NoMemory`] where a growth of the list of bytes was refused.
    pub fn finish(mut self) -> Result<HeardBytes, NoMemory>
        ensures { IfOk result (λ heard. (device : ℕ) (edges : List Edge) → HasFollowed device edges self →
            AreHeard (heard_in device (readings_of edges)) heard) }
    {
        let _has_byte = self.head.finish(&mut self.log)?;
        Ok(self.log.finish())
    }
}
