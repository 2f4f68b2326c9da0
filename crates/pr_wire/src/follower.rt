//! Following edges through the table of lawful traces.

ghost use Rattle.std.specs.Prelude.{◌≡◌, ◌≢◌, ◌+◌, ◌^◌, ◌<◌, ◌≤◌, ◌++◌, ◌∷◌, [], List, None, Some, false, IfErr, IfOk, IfSome, IsNone, MatchResult, OnOk, length};
ghost use Rattle.std.specs.Result.{result_err};
ghost use Rattle.pr_wire.specs.declared.Edge.{Edge};
ghost use Rattle.pr_wire.specs.declared.Frame.{Frame};
ghost use Rattle.pr_wire.specs.declared.WaveFault.TheVariants.{NoMemory};
ghost use Rattle.pr_wire.specs.Checking.{with_frame};
ghost use Rattle.pr_wire.specs.Following.{HasAccepted, HasFollowed, Moves, Refuses, TakesFrame, frames_with, kept_fault, refusal_at};
ghost use Rattle.pr_wire.specs.FollowSteps.{RefusesAs};
ghost use Rattle.pr_wire.specs.Pieces.{Spells};
ghost use Rattle.pr_wire.specs.Reached.{step_of};
ghost use Rattle.pr_wire.specs.Table.{fault_of};

use crate::ahead::WholeFrame;
use crate::bus_state::{BusState, EdgeError};
use crate::{Edge, Frame, WaveFault};

/// Why an edge is refused.
#[derive(Clone, Copy, Debug, PartialEq, Eq)]
pub enum Refusal {
    /// It is the first and not `0 111`.
    Start,
    /// The table of lawful traces does not allow it.
    Flawed(EdgeError),
}

impl Refusal {
    /// Makes the fault of a list of edges: the edge at this index, from 0, is refused for this
    /// reason.
    pub fn at(self, index: usize) -> WaveFault
        ensures value { result ≡ refusal_at self index }
        ensures memory { result ≢ NoMemory }
    {
        match self {
            Refusal::Start => WaveFault::Start(0),
            Refusal::Flawed(flaw) => flaw.at(index),
        }
    }
}

/// Follows the edges of a trace through the table of lawful traces, one by one and without memory.
///
/// It keeps where the edges lead, not the edges. Its contracts say "these edges were given"
/// (`HasFollowed`) and "these edges were accepted" (`HasAccepted`); every call answers by all lists
/// of which that can be said. Any numbers make a follower, so one can be stored and made again.
#[derive(Drop)]
pub struct TraceFollower {
    /// How many edges were accepted.
    pub taken: usize,
    /// The last of them.
    pub last: Option<Edge>,
    /// The state that they reach.
    pub state: BusState,
    /// Why the next edge was refused, if it was.
    pub refused: Option<Refusal>,
}

/// Whether an edge is not the same as another.
#[inline(always)]
fn differ(edge: Edge, other: Edge) -> bool
    ensures { result ≡ false → other ≡ edge }
{
    edge != other
}

impl TraceFollower {
    /// Makes a follower to which no edge has come. It takes no memory.
    pub fn new() -> TraceFollower
        ensures accepted { HasAccepted [] [] result }
        ensures count { result.taken ≡ 0 }
        ensures works { result.refused ≡ None }
    {
        TraceFollower {
            taken: 0,
            last: None,
            state: BusState::Idle(0),
            refused: None,
        }
    }

    /// Goes on to the state that an edge reaches after those accepted, and gives the frame that it
    /// ends.
    #[inline(always)]
    fn step(&mut self, edge: Edge) -> Result<Option<Frame>, Refusal>
        ensures moved { MatchResult (step_of self.old.last self.old.state self.old.taken edge)
            (λ s. (result ≡ Ok s.frame) × (self.new ≡ record self.old { state = s.place }))
            (λ w. RefusesAs self.old.taken w result × (self.new ≡ self.old)) }
    {
        let Some(last) = self.last else {
            if !edge.is_start() {
                return Err(Refusal::Start);
            }
            self.state = BusState::Idle(0);
            return Ok(None);
        };
        match self.state.advance(last, edge) {
            Ok(frame) => Ok(frame),
            Err(flaw) => Err(Refusal::Flawed(flaw)),
        }
    }

    /// Takes the next edge of a trace, `0 111` included, and gives the frame that it ends: with the
    /// edge that acknowledges a frame that frame, and with every other edge none (profile: the table
    /// of lawful traces). It takes no memory.
    ///
    /// # Errors
    ///
    /// The first fault of the edges given, where they and this one are not allowed; never
    /// [`WaveFault::NoMemory`]. The edge is then not counted, and each later call answers the same
    /// fault.
    #[inline(always)]
    pub fn take(&mut self, edge: Edge) -> Result<Option<Frame>, WaveFault>
        requires room { self.old.taken + 1 < 2 ^ 64 }
        // which edges were given, and which were accepted
        ensures followed { (edges : List Edge) (frames : List Frame) → HasFollowed edges frames self.old →
            HasFollowed (edges ++ edge ∷ []) (frames_with frames result) self.new }
        ensures accepted { IfOk result (λ frame. (edges : List Edge) (frames : List Frame) → HasAccepted edges frames self.old →
            HasAccepted (edges ++ edge ∷ []) (with_frame frames frame) self.new) }
        ensures count { OnOk result (self.new.taken ≡ self.old.taken + 1) }
        ensures works { OnOk result ((self.old.refused ≡ None) × (self.new.refused ≡ None)) }
        // when it refuses, and what that leaves
        ensures fault { IfErr result (λ fault. (edges more : List Edge) (frames : List Frame) → HasFollowed edges frames self.old →
            fault_of (edges ++ edge ∷ more) ≡ Some fault) }
        ensures refuses { IfErr result (λ fault. Refuses self.old fault self.new) }
        ensures for_good { IfSome (kept_fault self.old) (λ fault. result ≡ Err fault) }
        ensures memory { IfErr result (λ fault. fault ≢ NoMemory) }
        // the step in the table
        ensures moves { self.old.refused ≡ None → Moves self.old edge result self.new }
    {
        if let Some(refusal) = self.refused {
            return Err(refusal.at(self.taken));
        }
        match self.step(edge) {
            Ok(frame) => {
                self.last = Some(edge);
                self.taken += 1;
                Ok(frame)
            }
            Err(refusal) => {
                self.refused = Some(refusal);
                Err(refusal.at(self.taken))
            }
        }
    }

    /// Takes this many edges at once, the last of them being known. The state has gone over them.
    #[inline(always)]
    fn accept(&mut self, last: Edge, len: usize)
        requires room { self.old.taken + len < 2 ^ 64 }
        ensures { self.new ≡ record self.old { taken = self.old.taken + len; last = Some last } }
    {
        self.last = Some(last);
        self.taken += len;
    }

    /// Takes the first `len` edges at once, where they are those of a whole frame, or, after the pull
    /// of CLOCK that brings a first bit, the frame's bits and its acknowledgement, and gives the
    /// frame. Otherwise the follower stays as it is.
    #[inline(always)]
    pub(crate) fn pass_edges(&mut self, edges: &[Edge], len: usize) -> Option<Frame>
        requires enough { len ≤ length edges.now }
        requires room { self.old.taken + len < 2 ^ 64 }
        ensures takes { IfSome result (λ frame. TakesFrame self.old edges.now len frame self.new) }
        ensures stays { IsNone result → self.new ≡ self.old }
    {
        let (None, Some(last)) = (self.refused, self.last) else {
            return None;
        };
        let frame = self.state.pass_edges(last, edges, len)?;
        self.accept(edges[len - 1], len);
        Some(frame)
    }

    /// Takes the next edges at once, where they are those of a whole frame, or, after the pull of
    /// CLOCK that brings a first bit, the frame's bits and its acknowledgement: as
    /// [`TraceFollower::take`] would take them one by one, and faster. Gives the frame that the
    /// last of them ends, and how many they are; the others end none. It may take none and stay as
    /// it is; that it takes the edges of a whole frame is tested. It takes no memory.
    #[inline(always)]
    pub fn pass_frame(&mut self, edges: &[Edge]) -> Option<WholeFrame>
        requires room { self.old.taken + length edges.now < 2 ^ 64 }
        ensures takes { IfSome result (λ whole. TakesFrame self.old edges.now whole.len whole.frame self.new) }
        ensures stays { IsNone result → self.new ≡ self.old }
    {
        let len = self.state.frame_len(edges);
        let frame = self.pass_edges(edges, len)?;
        Some(WholeFrame { frame, len })
    }

    /// Takes the next edges at once in this follower and in another, as many in both, each as
    /// [`TraceFollower::pass_frame`] does, and with one test of the edges for both. It may take
    /// none, and both stay as they are; that it takes the edges of a frame that may come next in
    /// both is tested. It takes no memory.
    #[inline(always)]
    pub fn pass_frame_with(
        &mut self,
        other: &mut TraceFollower,
        edges: &[Edge],
    ) -> Option<WholeFrame>
        requires room { self.old.taken + length edges.now < 2 ^ 64 }
        requires other_room { other.old.taken + length edges.now < 2 ^ 64 }
        ensures takes { IfSome result (λ whole. TakesFrame self.old edges.now whole.len whole.frame self.new) }
        ensures other_takes { IfSome result (λ whole. TakesFrame other.old edges.now whole.len whole.frame other.new) }
        ensures stays { IsNone result → (self.new ≡ self.old) × (other.new ≡ other.old) }
    {
        let (None, Some(last)) = (self.refused, self.last) else {
            return None;
        };
        let (None, Some(beside)) = (other.refused, other.last) else {
            return None;
        };
        if differ(last, beside) {
            return None;
        }
        let whole = self.state.pass_frame_with(&mut other.state, last, edges)?;
        let end = edges[whole.len - 1];
        self.accept(end, whole.len);
        other.accept(end, whole.len);
        Some(whole)
    }

    /// Returns the first fault of the edges given, if they have one whatever follows. It takes no
    /// memory.
    pub fn fault(&self) -> Option<WaveFault>
        ensures value { result ≡ kept_fault self.now }
        ensures memory { IfSome result (λ fault. fault ≢ NoMemory) }
    {
        let refusal = self.refused?;
        Some(refusal.at(self.taken))
    }

    /// Checks whether the edges given are a lawful trace, which then spells the frames given. It
    /// takes no memory.
    ///
    /// # Errors
    ///
    /// The fault with which [`TraceFollower::take`] refused, if it did. Otherwise
    /// [`WaveFault::Start`] where no edge was given, and [`WaveFault::Truncated`] with the number
    /// of edges where a trace may not end after them; never [`WaveFault::NoMemory`].
    pub fn finish(&self) -> Result<(), WaveFault>
        ensures fault { (edges : List Edge) (frames : List Frame) → HasFollowed edges frames self.now → result_err result ≡ fault_of edges }
        ensures spells { OnOk result ((edges : List Edge) (frames : List Frame) → HasFollowed edges frames self.now → Spells edges frames) }
        ensures for_good { IfSome (kept_fault self.now) (λ fault. result ≡ Err fault) }
        ensures memory { IfErr result (λ fault. fault ≢ NoMemory) }
    {
        if let Some(fault) = self.fault() {
            return Err(fault);
        }
        let Some(_) = self.last else {
            return Err(WaveFault::Start(0));
        };
        if self.state.may_end() {
            Ok(())
        } else {
            Err(WaveFault::Truncated(self.taken))
        }
    }
}
