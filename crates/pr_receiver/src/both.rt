//! Two receivers that take the edges of a frame at once.

ghost use Rattle.std.specs.Prelude.{◌^◌, ◌+◌, ◌<◌, ◌≤◌, length};
ghost use Rattle.pr_receiver.specs.Steps.{IsSound, MayPass};

use crate::state::Progress;
use pr_page::Input;
use pr_wire::Edge;

/// How many edges two receivers have taken at once, and the inputs that come with the last of them.
#[derive(Clone, Copy, Debug, PartialEq, Eq)]
pub struct PassedBoth {
    /// 0, or how many edges a frame has.
    pub count: usize,
    /// What the frame gives the first device, if anything.
    pub input: Option<Input>,
    /// What it gives the other one.
    pub other: Option<Input>,
}

impl Progress {
    /// Takes the edges of a frame at once, where this state and the other's find them next.
    #[inline(always)]
    pub fn pass_frame_with(&mut self, other: &mut Progress, edges: &[Edge]) -> PassedBoth
        // the caller's part
        requires room { self.old.follower.taken + length edges.now < 2 ^ 64 }
        requires other_room { other.old.follower.taken + length edges.now < 2 ^ 64 }
        requires sound { IsSound self.old }
        requires other_sound { IsSound other.old }
        // what it gives
        ensures within { result.count ≤ length edges.now }
        ensures passes { MayPass self.old edges.now result.count result.input self.new }
        ensures other_passes { MayPass other.old edges.now result.count result.other other.new }
        ensures sound { IsSound self.new }
        ensures other_sound { IsSound other.new }
    {
        let Some(whole) = self.follower.pass_frame_with(&mut other.follower, edges) else {
            return PassedBoth {
                count: 0,
                input: None,
                other: None,
            };
        };
        PassedBoth {
            count: whole.len,
            input: self.hear(Some(whole.frame)),
            other: other.hear(Some(whole.frame)),
        }
    }
}
