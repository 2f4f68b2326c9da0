//! The frames of a trace with their moments, edge by edge.

ghost use Rattle.std.specs.Prelude.{◌≡◌, ◌≢◌, ◌^◌, ◌+◌, ◌<◌, List, [], ◌∷◌, ◌++◌, Some, IfOk, IfErr, OnOk, OnErr};
ghost use Rattle.std.specs.Option.{option_to_list};
ghost use Rattle.std.specs.Result.{result_err};
ghost use Rattle.pr_wire.specs.declared.Edge.{Edge};
ghost use Rattle.pr_wire.specs.declared.WaveFault.TheVariants.{NoMemory};
ghost use Rattle.pr_wire.specs.Table.{fault_of};
ghost use Rattle.pr_report.specs.declared.timed_frame.TimedFrame.{TimedFrame};
ghost use Rattle.pr_report.specs.Moments.{look_with, timed_frames, with_moments};
ghost use Rattle.pr_report.specs.FrameTiming.{HasTold, number_taken};

use crate::timed_frame::TimedFrame;
use pr_wire::{BusState, Edge, Frame, TraceFollower, WaveFault};

/// Gives the frames of a trace with their moments, edge by edge and without memory.
///
/// It keeps how far the edges have come, not the edges. Its contracts say "these edges were taken and
/// these frames given"; every call answers by all lists of which that can be said.
#[derive(Drop)]
pub struct FrameTimer {
    /// The edges taken, by where they lead; it has refused none.
    follower: TraceFollower,
    /// The moment of the last look; 0 before the first.
    look: u64,
}

impl FrameTimer {
    /// Makes a timer that has taken no edge. It takes no memory.
    pub fn new() -> FrameTimer
        ensures told { HasTold [] [] result }
        ensures count { number_taken result ≡ 0 }
    {
        FrameTimer {
            follower: TraceFollower::new(),
            look: 0,
        }
    }

    /// Notes the state reached where it is a look, and gives the frame, if there is one, with the
    /// moments of its look and of its acknowledgement there.
    fn note(&mut self, frame: Option<Frame>) -> Option<TimedFrame>
        ensures frame { result ≡ with_moments self.old.look frame self.old.follower.state }
        ensures look { self.new ≡ record self.old { look = look_with self.old.look self.old.follower.state } }
    {
        match (&self.follower.state, frame) {
            (BusState::Ready(look, _), _) => {
                self.look = *look;
                None
            }
            (BusState::Ack(moment, sending, _), Some(frame)) => Some(TimedFrame {
                look: self.look,
                acknowledged: *moment,
                sending: *sending,
                byte: frame.byte,
                eoi: frame.eoi,
            }),
            _ => None,
        }
    }

    /// Takes the next edge of a trace, `0 111` included, whoever made it, and gives the frame that
    /// it ends, with its moments: with the edge that acknowledges a frame that frame, and with
    /// every other edge none (profile: the table of lawful traces). It takes no memory.
    ///
    /// # Errors
    ///
    /// The first fault, where the edges taken and this one are not allowed: that of all lists of
    /// edges that begin with these; never [`WaveFault::NoMemory`]. The timer is then as it was, and
    /// neither this edge nor a later one ends a further frame. The fault has the edge's index,
    /// since the table has no error for a first edge that is not `0 111`.
    #[inline(always)]
    pub fn take(&mut self, edge: Edge) -> Result<Option<TimedFrame>, WaveFault>
        requires room { number_taken self.old + 1 < 2 ^ 64 }
        // what it gives
        ensures told { IfOk result (λ frame. (edges : List Edge) (given : List TimedFrame) → HasTold edges given self.old →
            HasTold (edges ++ edge ∷ []) (given ++ option_to_list frame) self.new) }
        ensures count { OnOk result (number_taken self.new ≡ number_taken self.old + 1) }
        // when it refuses, and what that leaves
        ensures fault { IfErr result (λ fault. (edges more : List Edge) (given : List TimedFrame) → HasTold edges given self.old →
            fault_of (edges ++ edge ∷ more) ≡ Some fault) }
        ensures ends { OnErr result ((edges more : List Edge) (given : List TimedFrame) → HasTold edges given self.old →
            timed_frames (edges ++ edge ∷ more) ≡ given) }
        ensures stays { OnErr result (self.new ≡ self.old) }
        ensures memory { IfErr result (λ fault. fault ≢ NoMemory) }
    {
        let refused = self.follower.refused;
        match self.follower.take(edge) {
            Ok(frame) => Ok(self.note(frame)),
            Err(fault) => {
                self.follower.refused = refused;
                Err(fault)
            }
        }
    }

    /// Checks whether the edges taken are a lawful trace. Whether they are or not, the frames given
    /// are all that they end. It takes no memory.
    ///
    /// # Errors
    ///
    /// [`WaveFault::Start`] where no edge was taken, and [`WaveFault::Truncated`] with the number
    /// of edges where a trace may not end after them; never [`WaveFault::NoMemory`].
    pub fn finish(&self) -> Result<(), WaveFault>
        ensures told { (edges : List Edge) (given : List TimedFrame) → HasTold edges given self.now → timed_frames edges ≡ given }
        ensures fault { (edges : List Edge) (given : List TimedFrame) → HasTold edges given self.now → result_err result ≡ fault_of edges }
        ensures memory { IfErr result (λ fault. fault ≢ NoMemory) }
    {
        self.follower.finish()
    }
}
