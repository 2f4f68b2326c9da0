//! The story of a whole list of edges.
//!
//! A story goes by the table, edge by edge, so that edges that are no lawful trace have a story
//! too: a fault of the edges is a value, and no error.

ghost use Rattle.std.specs.Prelude.{◌≡◌, ◌++◌, OnOk, IfOk};
ghost use Rattle.pr_wire.specs.Table.{fault_of};
ghost use Rattle.pr_report.specs.StoryText.{story_of};
ghost use Rattle.pr_report.specs.FrameTiming.{data_after, line_if};

use crate::frame_timer::FrameTimer;
use crate::story_line::{is_data, push_story_line};
use crate::timed_frame::TimedFrame;
use pr_wire::{Edge, NoMemory, WaveFault, allowed_traces};

/// Adds the lines of the frame that an edge ends, if it ends one, and returns whether the last frame is
/// then a data byte.
#[inline(always)]
fn push_if_some(
    text: &mut Vec<u8>,
    behind_data: bool,
    frame: Option<TimedFrame>,
) -> Result<bool, NoMemory>
    ensures line { OnOk result (text.new.items ≡ text.old.items ++ line_if behind_data frame) }
    ensures behind { IfOk result (λ behind. behind ≡ data_after behind_data frame) }
{
    match frame {
        Some(frame) => {
            push_story_line(text, behind_data, frame)?;
            Ok(is_data(frame.sending))
        }
        None => Ok(behind_data),
    }
}

/// Adds the story of edges to a text: a line for each frame that they end, in order, and `lawful`
/// where they are a lawful trace. Where they are not, it returns their first fault; the frames
/// before it have their lines all the same.
///
/// # Errors
///
/// [`NoMemory`] where a growth of the text was refused. Nothing is promised of the text then.
pub fn push_story(text: &mut Vec<u8>, edges: &[Edge]) -> Result<Option<WaveFault>, NoMemory>
    ensures story { OnOk result (text.new.items ≡ text.old.items ++ story_of edges.now) }
    ensures fault { IfOk result (λ fault. fault ≡ fault_of edges.now) }
{
    allowed_traces();
    let mut timer = FrameTimer::new();
    let mut behind_data = false;
    for edge in edges {
        match timer.take(*edge) {
            Ok(frame) => behind_data = push_if_some(text, behind_data, frame)?,
            Err(fault) => return Ok(Some(fault)),
        }
    }
    match timer.finish() {
        Ok(()) => {
            text.extend_from_slice(b"lawful\n")?;
            Ok(None)
        }
        Err(fault) => Ok(Some(fault)),
    }
}
