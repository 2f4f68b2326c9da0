//! The checker of traces.

ghost use Rattle.std.specs.Prelude.{◌≡◌, ◌≢◌, OnOk, IfOk, IfErr};
ghost use Rattle.pr_wire.specs.Pieces.{IsLawful, Spells};
ghost use Rattle.pr_wire.specs.Laws.{LawfulIsFaultless, SpellsOnce, SpellsTheFramesReached, AllowedIsReached, LawfulIsAllowedToEnd, FaultIsReached, OneEdgeMore};
ghost use Rattle.pr_wire.specs.Table.{fault_of};
ghost use Rattle.pr_wire.specs.Checking.{with_frame};

use crate::follower::TraceFollower;
use crate::{Edge, Frame, WaveFault};
use std::alloc::Global;

/// Checks whether a list of edges is a lawful trace, and gives the frames that it spells, in order
/// (profile: intervals and shapes as `specs/Pieces.antt` and `specs/Table.antt` say, after the
/// Programmer's Reference Guide's serial bus timing).
///
/// # Errors
///
/// The first fault by the table of places, with the index of its edge; so the list is not lawful.
/// [`WaveFault::NoMemory`] where a growth of the list of frames was refused.
pub fn analyse(alloc: Global, edges: &[Edge]) -> Result<Vec<Frame>, WaveFault>
    ensures lawful { IfOk result (λ frames. Spells edges.now frames.items) }
    ensures fault { IfErr result (λ fault. fault ≢ WaveFault.NoMemory → fault_of edges.now ≡ Some fault) }
    ensures not_lawful { IfErr result (λ fault. fault ≢ WaveFault.NoMemory → IsLawful edges.now → ⊥) }
{
    let mut follower = TraceFollower::new();
    let mut frames = Vec::new(alloc);
    for edge in edges {
        let frame = follower.take(*edge)?;
        keep(&mut frames, frame)?;
    }
    follower.finish()?;
    Ok(frames)
}

/// Adds the frame that an edge ends, if it ends one.
fn keep(frames: &mut Vec<Frame>, frame: Option<Frame>) -> Result<(), WaveFault>
    ensures kept { OnOk result (frames.new.items ≡ with_frame frames.old.items frame) }
    ensures refused { IfErr result (λ fault. fault ≡ WaveFault.NoMemory) }
{
    if let Some(frame) = frame {
        frames.push(frame)?;
    }
    Ok(())
}

/// Laws, with nothing to run: the lawful traces, which are cut into whole pieces, are exactly the
/// lists without a fault by the table; and each spells one list of frames, however it is cut.
pub fn lawful_traces()
    ensures faultless { LawfulIsFaultless }
    ensures once { SpellsOnce }
{}

/// Laws, with nothing to run: a list of edges is allowed exactly if it leads to a place of the
/// table, and lawful exactly if a trace may end at that place. It then spells the frames that its
/// edges end on the way. Otherwise its fault is the first on the way. One edge more goes one step
/// on.
pub fn allowed_traces()
    ensures allowed { AllowedIsReached }
    ensures lawful { LawfulIsAllowedToEnd }
    ensures spelled { SpellsTheFramesReached }
    ensures fault { FaultIsReached }
    ensures step { OneEdgeMore }
{}
