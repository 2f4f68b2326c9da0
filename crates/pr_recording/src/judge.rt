//! Whether the edges of an input are a lawful trace.

ghost use Rattle.std.specs.Prelude.{◌≡◌, ◌+◌, ◌^◌, ◌<◌, ◌≤◌, ◌∷◌, [], List, length, take};
ghost use Rattle.pr_wire.specs.declared.Edge.{Edge};
ghost use Rattle.pr_wire.specs.Table.{fault_of};
ghost use Rattle.pr_capture.specs.declared.format.InputFormat.{InputFormat};
ghost use Rattle.pr_jobs.specs.Report.{edges_checked};
ghost use Rattle.pr_recording.specs.Judged.{HasJudged, JudgesMore, edges_judged};

use pr_capture::InputFormat;
use pr_jobs::Beginning;
use pr_wire::{Edge, TraceFollower, WaveFault};

/// Judges edges that come one by one: whether they are a lawful trace, counted from where `check` counts them.
#[derive(Drop)]
pub struct Judge {
    beginning: Beginning,
    follower: TraceFollower,
}

impl Judge {
    /// A judge of no edge of an input in this format. It takes no memory.
    pub fn new(source: InputFormat) -> Judge
        ensures judged { HasJudged source [] result }
        ensures count { edges_judged result ≡ 0 }
    {
        Judge {
            beginning: Beginning::new(source),
            follower: TraceFollower::new(),
        }
    }

    /// Takes the next edge; the follower keeps the first fault for its `finish`.
    #[inline(always)]
    fn take(&mut self, edge: Edge)
        requires few { edges_judged self.old + 1 < 2 ^ 64 }
        ensures judged { JudgesMore (edge ∷ []) self.old self.new }
        ensures count { edges_judged self.new ≤ edges_judged self.old + 1 }
    {
        let counted = self.beginning.count(edge);
        match self.follower.take(counted) {
            Ok(_) => {}
            Err(_) => {}
        }
    }

    /// Takes the edges of a whole frame from the front of some, where they count with the times that they have.
    /// Gives how many they are, which may be none: the judge then stays as it is.
    #[inline(always)]
    fn take_frame(&mut self, edges: &[Edge]) -> usize
        requires few { edges_judged self.old + length edges.now < 2 ^ 64 }
        ensures judged { 0 < result → JudgesMore (take result edges.now) self.old self.new }
        ensures none { result ≡ 0 → self.new ≡ self.old }
        ensures within { result ≤ length edges.now }
        ensures count { edges_judged self.new ≤ edges_judged self.old + result }
    {
        if !self.beginning.keeps_times() {
            return 0;
        }
        match self.follower.pass_frame(edges) {
            Some(whole) => whole.len,
            None => 0,
        }
    }

    /// Takes edges from the front of some: those of a whole frame, or else the next edge, and all of them once one was
    /// refused, since the fault of the edges is known then. Gives how many they are.
    #[inline(always)]
    fn take_front(&mut self, edges: &[Edge]) -> usize
        requires some { 0 < length edges.now }
        requires few { edges_judged self.old + length edges.now < 2 ^ 64 }
        ensures judged { JudgesMore (take result edges.now) self.old self.new }
        ensures some { 0 < result }
        ensures within { result ≤ length edges.now }
        ensures count { edges_judged self.new ≤ edges_judged self.old + result }
    {
        if self.follower.refused.is_some() {
            return edges.len();
        }
        let len = self.take_frame(edges);
        if len > 0 {
            return len;
        }
        self.take(edges[0]);
        1
    }

    /// Takes the next edges, in order.
    pub fn take_all(&mut self, edges: &[Edge])
        requires few { edges_judged self.old + length edges.now < 2 ^ 64 }
        ensures judged { JudgesMore edges.now self.old self.new }
        ensures count { edges_judged self.new ≤ edges_judged self.old + length edges.now }
    {
        let mut len = 0;
        while len < edges.len() {
            len += self.take_front(&edges[len..]);
        }
    }

    /// Ends the edges, and gives their first fault, if they have one.
    pub fn finish(self) -> Option<WaveFault>
        ensures { (source : InputFormat) (edges : List Edge) → HasJudged source edges self → result ≡ fault_of (edges_checked source edges) }
    {
        self.follower.finish().err()
    }
}
