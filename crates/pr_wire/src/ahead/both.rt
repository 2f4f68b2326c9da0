//! A whole frame at once, in two places.

ghost use Rattle.std.specs.Prelude.{◌≡◌, ◌<◌, ◌≤◌, true, length, IfSome, IsNone};
ghost use Rattle.pr_wire.specs.Ahead.{PassesFrame, EndsNoneSooner};

use super::{Ahead, Start, WholeFrame, frame_ahead};
use crate::bus_state::BusState;
use crate::{Edge, Frame};

impl Start {
    /// Whether a frame begins in the same way as another.
    #[inline(always)]
    fn is_same(self, other: Start) -> bool
        ensures { result ≡ true → self ≡ other }
    {
        self.sending == other.sending
            && self.since == other.since
            && self.least == other.least
            && self.greatest == other.greatest
    }
}

impl BusState {
    /// Goes over the edges of a whole frame at once from two places, after the same edge, where it
    /// begins in both in the same way: each comes to the place and the frame as by
    /// [`BusState::pass_frame`], with one test of the edges. Otherwise both places stay as they
    /// are. It may go over none. It takes no memory.
    #[inline(always)]
    pub fn pass_frame_with(
        &mut self,
        other: &mut BusState,
        last: Edge,
        edges: &[Edge],
    ) -> Option<WholeFrame>
        // what it gives
        ensures some { IfSome result (λ whole. 0 < whole.len) }
        ensures enough { IfSome result (λ whole. whole.len ≤ length edges.now) }
        ensures passes { IfSome result (λ whole. PassesFrame last self.old edges.now whole.len self.new whole.frame) }
        ensures other_passes { IfSome result (λ whole. PassesFrame last other.old edges.now whole.len other.new whole.frame) }
        ensures sooner { IfSome result (λ whole. EndsNoneSooner last self.old edges.now whole.len) }
        ensures other_sooner { IfSome result (λ whole. EndsNoneSooner last other.old edges.now whole.len) }
        // when it refuses, and what that leaves
        ensures stays { IsNone result → self.new ≡ self.old }
        ensures other_stays { IsNone result → other.new ≡ other.old }
    {
        let len = self.frame_len(edges);
        let start = self.start()?;
        let beside = other.start()?;
        if !start.is_same(beside) {
            return None;
        }
        let Ahead { byte, eoi } = frame_ahead(last, start, edges, len)?;
        let ack = edges[len - 1].time;
        *self = BusState::Ack(ack, start.sending, byte);
        *other = BusState::Ack(ack, start.sending, byte);
        let attention = !start.sending.atn();
        let frame = Frame {
            attention,
            byte,
            eoi,
        };
        Some(WholeFrame { frame, len })
    }
}
