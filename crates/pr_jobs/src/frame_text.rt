//! The lines of the frames that a trace spells.

ghost use Rattle.std.specs.Prelude.{◌≡◌, ◌++◌, OnOk};
ghost use Rattle.pr_jobs.specs.FrameText.{frame_line, kind_word, line_end};

use pr_render::push_small;
use pr_wire::Frame;
use std::alloc::AllocError;

/// The word in front of a frame's byte.
fn kind_word(attention: bool) -> &'static [u8]
    ensures { result.now ≡ kind_word attention }
{
    if attention { b"command " } else { b"data " }
}

/// The end of a frame's line.
fn line_end(eoi: bool) -> &'static [u8]
    ensures { result.now ≡ line_end eoi }
{
    if eoi { b" eoi\n" } else { b"\n" }
}

/// Adds a frame's line at the end of a text.
#[tactic(auto, unfolding(crate::specs::FrameText::frame_line))]
pub fn push_frame(text: &mut Vec<u8>, frame: Frame) -> Result<(), AllocError>
    ensures { OnOk result (text.new.items ≡ text.old.items ++ frame_line frame) }
{
    text.extend_from_slice(kind_word(frame.attention))?;
    push_small(text, u64::from(frame.byte))?;
    text.extend_from_slice(line_end(frame.eoi))
}
